//! Where the keys of an array stand.
ghost use Rattle.std.specs.Prelude.{◌≡◌, ℕ, false, pos, List, ◌<◌, ◌+◌, ◌^◌, ◌++◌, ◌∷◌, [], Some};
ghost use Rattle.std.specs.Prelude.{None, OnOk, OnErr, IfOk, length, slice_get, remove, if◌then◌else◌};
ghost use Rattle.std.specs.List.{position, list_any};
ghost use Rattle.std.specs.Option.{option_map};
ghost use Rattle.std.specs.VecDeque.{deque_len};
ghost use Rattle.resin_value.specs.declared.key.Key.{Key};
ghost use Rattle.resin_value.specs.declared.places.Numbers.{Numbers};
ghost use Rattle.resin_value.specs.Changes.{lookup};
ghost use Rattle.resin_value.specs.Keys.{key_eq};
ghost use Rattle.resin_value.specs.Placed.{IsPlaced, AreNumbered, closed_up, counted};
ghost use Rattle.resin_value.specs.Seen.{keys_of};

use crate::key::Key;
use crate::value::Entry;
use std::alloc::{AllocError, Global};
use std::collections::{BTreeMap, VecDeque};

// Where the keys of a list of entries stand. Each entry has a number, by one above that of the entry before it, so that those behind the first
// keep theirs when it is taken out. A key is found in steps of the logarithm of how many there are, whatever they are: keys come from visitors.
#[derive(Drop)]
pub(crate) struct Places {
    // The number of the first entry. It has four bytes, so that all numbers have room in eight; where it would need more, the first key is taken out
    // as one in the middle is.
    first: u32,
    numbers: Numbers,
}

// The numbers of keys.
#[derive(Drop)]
pub(crate) enum Numbers {
    // Each key is an integer and its own number: a list, which is found in without an index.
    Counting,
    // Each key has the number that is kept for it.
    Sorted(BTreeMap<Key, usize>),
}

impl Places {
    // Of no keys. It takes no memory.
    pub(crate) fn new() -> Places
        ensures { IsPlaced result [] }
    {
        Places {
            first: 0,
            numbers: Numbers::Counting,
        }
    }

    // The place of a key in a list of so many entries.
    pub(crate) fn place(&self, k: &Key, len: usize) -> Option<usize>
        ensures { (ks : List Key) → length ks ≡ len → IsPlaced self.now ks → result ≡ position (key_eq k.now) ks }
    {
        match &self.numbers {
            Numbers::Counting => counted(k, self.first, len),
            Numbers::Sorted(map) => match map.get(k) {
                Some(number) => number.checked_sub(self.first as usize),
                None => None,
            },
        }
    }

    // Notes where a new key will stand that is to be put last.
    pub(crate) fn note(
        &mut self,
        alloc: Global,
        list: &VecDeque<Entry>,
        k: &Key,
    ) -> Result<(), AllocError>
        requires placed { IsPlaced self.old (keys_of list.now.items) }
        requires fresh { list_any (key_eq k.now) (keys_of list.now.items) ≡ false }
        ensures ok { OnOk result (IsPlaced self.new (keys_of list.now.items ++ k.now ∷ [])) }
        ensures err { OnErr result (IsPlaced self.new (keys_of list.now.items)) }
    {
        let number = self.first as usize + list.len();
        match &mut self.numbers {
            Numbers::Counting => {
                if is_number(k, number) {
                    return Ok(());
                }
                let mut map = sorted(alloc, self.first, list)?;
                put_number(&mut map, k, number)?;
                self.numbers = Numbers::Sorted(map);
                Ok(())
            }
            Numbers::Sorted(map) => put_number(map, k, number),
        }
    }

    // Forgets the key at a place that is to be taken out. It walks over all keys, unless it is the first or the last.
    pub(crate) fn forget(
        &mut self,
        alloc: Global,
        list: &VecDeque<Entry>,
        i: usize,
    ) -> Result<(), AllocError>
        requires placed { IsPlaced self.old (keys_of list.now.items) }
        requires there { i < deque_len list.now }
        ensures ok { OnOk result (IsPlaced self.new (remove (keys_of list.now.items) i)) }
        ensures err { OnErr result (IsPlaced self.new (keys_of list.now.items)) }
    {
        if i == 0 && self.first < u32::MAX {
            self.numbers.forget_at_end(&list[i].key);
            self.first += 1;
            return Ok(());
        }
        if i == list.len() - 1 {
            self.numbers.forget_at_end(&list[i].key);
            return Ok(());
        }
        self.numbers.close_up(alloc, self.first, list, i)
    }
}

impl Clone for Places {
    ghost is_clone = { λ p copy. (ks : List Key) → IsPlaced p ks → IsPlaced copy ks };

    fn clone(&self) -> Result<Places, AllocError> {
        Ok(Places {
            first: self.first,
            numbers: self.numbers.clone()?,
        })
    }
}

impl Clone for Numbers {
    ghost is_clone = { λ n copy. (first : ℕ) (ks : List Key) → AreNumbered first n ks → AreNumbered first copy ks };

    fn clone(&self) -> Result<Numbers, AllocError> {
        match self {
            Numbers::Counting => Ok(Numbers::Counting),
            Numbers::Sorted(map) => Ok(Numbers::Sorted(map.clone()?)),
        }
    }
}

impl Numbers {
    // Takes out the key of the first or of the last entry. The others keep their numbers.
    fn forget_at_end(&mut self, k: &Key)
        ensures first { (first : ℕ) (ks : List Key) → slice_get ks 0 ≡ Some k.now → AreNumbered first self.old ks
            → AreNumbered (first + 1) self.new (remove ks 0) }
        ensures last { (first i : ℕ) (ks : List Key) → i + 1 ≡ length ks → slice_get ks i ≡ Some k.now → AreNumbered first self.old ks
            → AreNumbered first self.new (remove ks i) }
    {
        match self {
            Numbers::Counting => {}
            Numbers::Sorted(map) => take_out(map, k),
        }
    }

    // Takes out the key at a place. The numbers of those behind it are lower by one.
    fn close_up(
        &mut self,
        alloc: Global,
        first: u32,
        list: &VecDeque<Entry>,
        i: usize,
    ) -> Result<(), AllocError>
        requires numbered { AreNumbered first self.old (keys_of list.now.items) }
        requires there { i < deque_len list.now }
        ensures ok { OnOk result (AreNumbered first self.new (remove (keys_of list.now.items) i)) }
        ensures err { OnErr result (AreNumbered first self.new (keys_of list.now.items)) }
    {
        let number = first as usize + i;
        match self {
            Numbers::Counting => {
                let mut map = sorted(alloc, first, list)?;
                close_up(&mut map, &list[i].key, number);
                *self = Numbers::Sorted(map);
                Ok(())
            }
            Numbers::Sorted(map) => {
                close_up(map, &list[i].key, number);
                Ok(())
            }
        }
    }
}

// The place of a key among so many that count from a first number.
fn counted(k: &Key, first: u32, len: usize) -> Option<usize>
    ensures { result ≡ counted k.now first len }
{
    let first = first as usize;
    match k {
        Key::Int(n) => match usize::try_from(*n) {
            Ok(n) if n < first => None,
            Ok(n) if n - first < len => Some(n - first),
            _ => None,
        },
        Key::Text(_) => None,
    }
}

// Whether a key is a number.
fn is_number(k: &Key, n: usize) -> bool
    ensures { result ≡ key_eq k.now (Key.Int (pos n)) }
{
    match k {
        Key::Int(m) => match usize::try_from(*m) {
            Ok(m) => m == n,
            Err(_) => false,
        },
        Key::Text(_) => false,
    }
}

// The numbers of keys that count.
fn sorted(
    alloc: Global,
    first: u32,
    list: &VecDeque<Entry>,
) -> Result<BTreeMap<Key, usize>, AllocError>
    requires { AreNumbered first Numbers.Counting (keys_of list.now.items) }
    ensures { IfOk result (λ map. AreNumbered first (Numbers.Sorted map) (keys_of list.now.items)) }
{
    let mut map = BTreeMap::new(alloc);
    for i in 0..list.len() {
        put_number(&mut map, &list[i].key, first as usize + i)?;
    }
    Ok(map)
}

// Keeps a number for a key.
fn put_number(map: &mut BTreeMap<Key, usize>, k: &Key, number: usize) -> Result<(), AllocError>
    ensures ok { OnOk result ((q : Key) → lookup q map.new.entries ≡ (if key_eq k.now q then Some number else lookup q map.old.entries)) }
    ensures err { OnErr result (map.new.entries ≡ map.old.entries) }
{
    map.insert(k.clone()?, number)?;
    Ok(())
}

// Takes out a key.
fn take_out(map: &mut BTreeMap<Key, usize>, k: &Key)
    ensures { (q : Key) → lookup q map.new.entries ≡ (if key_eq k.now q then None else lookup q map.old.entries) }
{
    let _number = map.remove(k);
}

// Takes out the key of a number, and lowers those above it by one.
fn close_up(map: &mut BTreeMap<Key, usize>, k: &Key, i: usize)
    ensures { (q : Key) → lookup q map.new.entries ≡ (if key_eq k.now q then None else option_map (closed_up i) (lookup q map.old.entries)) }
{
    let _number = map.remove(k);
    map.retain(|_, number| {
        if *number > i {
            *number -= 1;
        }
        true
    });
}
