//! Where an entry stands in a list that is kept as a map.
ghost use Rattle.std.specs.Prelude.{◌≡◌, MatchOption, None};
ghost use Rattle.std.specs.FinMap.{find};
ghost use Rattle.std.specs.Option.{option_copied};
ghost use Rattle.resin_base.specs.Contents.{byte_order};
ghost use Rattle.resin_base.specs.Places.{IsPlace};

use resin_base::Bytes;

/// The place of the first entry at a key.
pub(crate) fn place_of<V>(entries: &[(Bytes, V)], key: &[u8]) -> Option<usize>
    ensures { MatchOption result (find byte_order key.now entries.now ≡ None) (IsPlace key.now entries.now) }
{
    for i in 0..entries.len() {
        if entries[i].0.as_slice() == key {
            return Some(i);
        }
    }
    None
}

/// The value of the first entry at a key.
pub(crate) fn value_at<'a, V>(entries: &'a [(Bytes, V)], key: &[u8]) -> Option<&'a V>
    ensures { option_copied result ≡ find byte_order key.now entries.now }
{
    match place_of(entries, key) {
        Some(i) => Some(&entries[i].1),
        None => None,
    }
}
