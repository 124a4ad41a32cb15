//! What a record of a trace says.
use resin_bytes::Bytes;

/// A record of a trace.
#[derive(Drop)]
pub enum TraceEvent {
    /// Bytes that came on a connection: `<conn> <len>\n<bytes>\n`.
    Piece { conn: u16, bytes: Bytes },
    /// The end of a connection: `<conn> end\n`.
    End { conn: u16 },
}
