//! Functions of channels: which arguments they take.
ghost use Rattle.resin_meaning_forms.specs.Channels.{breaks_lines, flag_in, is_one_line, needed, only_looks, optional};
ghost use Rattle.resin_meaning_forms.specs.Under.value.Seen.{trees_of};
ghost use Rattle.std.specs.List.{list_any};
ghost use Rattle.std.specs.Prelude.{length, ◌++◌, ◌≡◌};

use resin_meaning_forms::ChannelFunction;
use resin_meaning_forms::under::builtin::ArgKind;
use resin_meaning_forms::under::lstr::LText;
use resin_meaning_forms::under::value::Value;

/// How many arguments must stand.
pub fn needed(f: ChannelFunction) -> usize
    ensures { result ≡ length (needed f) }
{
    match f {
        ChannelFunction::BufferStart
        | ChannelFunction::BufferGetClean
        | ChannelFunction::BufferEndClean
        | ChannelFunction::BufferEndFlush => 0,
        ChannelFunction::Header
        | ChannelFunction::ResponseCode
        | ChannelFunction::FileGetContents
        | ChannelFunction::Unlink
        | ChannelFunction::FileExists
        | ChannelFunction::SqlQuery => 1,
        ChannelFunction::FilePutContents => 2,
        ChannelFunction::Mail => 3,
    }
}

/// The kinds of the arguments, those included that may be left out.
pub fn channel_kinds(f: ChannelFunction) -> &'static [ArgKind]
    ensures { result.now ≡ needed f ++ optional f }
{
    match f {
        ChannelFunction::BufferStart
        | ChannelFunction::BufferGetClean
        | ChannelFunction::BufferEndClean
        | ChannelFunction::BufferEndFlush => &[],
        ChannelFunction::Header => &[ArgKind::Text, ArgKind::Any],
        ChannelFunction::ResponseCode => &[ArgKind::Integer],
        ChannelFunction::FileGetContents
        | ChannelFunction::Unlink
        | ChannelFunction::FileExists
        | ChannelFunction::SqlQuery => &[ArgKind::Text],
        ChannelFunction::FilePutContents => &[ArgKind::Text, ArgKind::Text, ArgKind::Integer],
        ChannelFunction::Mail => &[ArgKind::Text, ArgKind::Text, ArgKind::Text],
    }
}

/// Whether a check may make the call.
pub fn only_looks(f: ChannelFunction) -> bool
    ensures { result ≡ only_looks f }
{
    match f {
        ChannelFunction::FileGetContents | ChannelFunction::FileExists => true,
        _ => false,
    }
}

// Whether a byte may not stand in one line.
fn breaks_lines(b: u8) -> bool
    ensures { result ≡ breaks_lines b }
{
    b == 10 || b == 13 || b == 0
}

// Whether one of the bytes may not stand in one line.
fn have_breaks(bytes: &[u8]) -> bool
    ensures { result ≡ list_any breaks_lines bytes.now }
{
    bytes.iter().any(|b| breaks_lines(*b))
}

/// Whether a text has no LF, no CR and no NUL.
pub fn is_one_line(t: &LText) -> bool
    ensures { result ≡ is_one_line t.now }
{
    !have_breaks(t.bytes())
}

/// Whether an argument that may be left out holds; it does where it is left out.
pub fn flag_in(rest: &[Value]) -> bool
    ensures { result ≡ flag_in (trees_of rest.now) }
{
    match rest {
        [v, ..] => v.truth(),
        [] => true,
    }
}
