//! What leaves by a write.

use resin_builtin::under::lstr::LText;

/// A write that leaves, by what it does when it goes out.
#[derive(Drop)]
pub enum Outgoing {
    /// The text goes out with the body.
    Page,
    /// The text is a header line; earlier headers of its name are taken out where this says so.
    Header(bool),
    /// The text tells this status.
    Status(u16),
    /// The text is the message of a mail to this address with this subject.
    Mail(LText, LText),
}
