//! Cuts of texts.
ghost use Rattle.std.specs.Prelude.{◌≡◌, ◌==◌};
ghost use Rattle.std.specs.List.{before_first, after_first};
ghost use Rattle.resin_inputs.specs.Cookies.{unspaced};
ghost use Rattle.resin_inputs.specs.Names.{before_bracket, from_bracket};

/// What stands before the first such byte, or all, and what stands after it.
pub(crate) fn split_once(bytes: &[u8], byte: u8) -> (&[u8], &[u8])
    ensures before { result.0.now ≡ before_first (λ b. b == byte) bytes.now }
    ensures after { result.1.now ≡ after_first (λ b. b == byte) bytes.now }
{
    match bytes.iter().position(|b| *b == byte) {
        Some(place) => (&bytes[..place], &bytes[place + 1..]),
        None => (bytes, &[]),
    }
}

/// What stands before the first bracket, or all, and what follows from that bracket on.
pub(crate) fn split_at_bracket(name: &[u8]) -> (&[u8], &[u8])
    ensures before { result.0.now ≡ before_bracket name.now }
    ensures from { result.1.now ≡ from_bracket name.now }
{
    match name.iter().position(|b| *b == b'[' || *b == b']') {
        Some(place) => (&name[..place], &name[place..]),
        None => (name, &[]),
    }
}

/// A part without the spaces before it.
pub(crate) fn unspaced(part: &[u8]) -> &[u8]
    ensures { result.now ≡ unspaced part.now }
{
    match part.iter().position(|b| *b != b' ') {
        Some(place) => &part[place..],
        None => &[],
    }
}
