//! Digests in lower-case hexadecimal.
ghost use Rattle.std.specs.Prelude.{◌≡◌, ◌≤◌, length, Ok};
ghost use Rattle.hex.specs.Hex.{encode_lower};
ghost use Rattle.resin_lstr.specs.Texts.{carrying};
ghost use Rattle.resin_escape_fn.specs.Stops.{GivesOrNoMemory};
ghost use Rattle.resin_escape_fn.specs.Digests.{md5_digest, sha1_digest};

use crate::answer::text_answer;
use md5::{Digest, Md5};
use resin_label::PSet;
use resin_lstr::LText;
use resin_scalar::CallStop;
use sha1::Sha1;
use std::alloc::Global;

/// The MD5 digest of the text (RFC 1321) as 32 lower-case hexadecimal digits, each with the set `set`. PHP's function of
/// that name.
pub fn md5(alloc: Global, s: &LText, set: &PSet) -> Result<LText, CallStop>
    ensures { GivesOrNoMemory result (Ok (md5_digest s.now set.now)) }
{
    hex_text(alloc, &Md5::digest(s.bytes()), set)
}

/// The SHA-1 digest of the text (RFC 3174) as 40 lower-case hexadecimal digits, each with the set `set`. PHP's function of
/// that name.
pub fn sha1(alloc: Global, s: &LText, set: &PSet) -> Result<LText, CallStop>
    ensures { GivesOrNoMemory result (Ok (sha1_digest s.now set.now)) }
{
    hex_text(alloc, &Sha1::digest(s.bytes()), set)
}

// The digits of a digest, each with the set `set`.
fn hex_text(alloc: Global, digest: &[u8], set: &PSet) -> Result<LText, CallStop>
    requires { length digest.now ≤ 20 }
    ensures { GivesOrNoMemory result (Ok (carrying set.now (encode_lower digest.now))) }
{
    let digits = hex::encode(alloc, digest)?;
    text_answer(LText::with_set(alloc, digits.as_bytes(), set))
}
