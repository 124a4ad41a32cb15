//! Values, and arrays as they are kept.
ghost use Rattle.std.specs.Prelude.{remove, ◌≡◌, ◌≢◌, ◌<◌, ◌≤◌, ◌↔◌, ◌++◌, ◌∷◌, [], length, slice_get};
ghost use Rattle.std.specs.Prelude.{Some, None, OnOk, OnErr, IfOk, IfSome, IsTrue, IsSome, is_some, Err};
ghost use Rattle.std.specs.Option.{option_map};
ghost use Rattle.std.specs.VecDeque.{deque_len};
ghost use Rattle.resin_value.specs.Keys.{is_lawful};
ghost use Rattle.resin_value.specs.Seen.{tree_of, seen};
ghost use Rattle.resin_value.specs.Changes.{lookup, put_at, remove_at, raised, next_of, put, appended, without, empty, IsArray};
ghost use Rattle.resin_value.specs.Changes as changes;

use crate::key::Key;
use crate::places::Places;
use resin_label::PSet;
use resin_lstr::LText;
use resin_scalar::{Scalar, truth};
use std::alloc::{AllocError, Global};
use std::collections::VecDeque;
use std::marker::Model;
use std::rc::Rc;

/// A value of a script. An integer carries one set of labels, a text one for each of its bytes.
#[derive(Drop)]
#[cycle(value)]
pub enum Value {
    Null,
    Bool(bool),
    Int(i64, PSet),
    Text(LText),
    Arr(Arr),
    /// The number of an object.
    Obj(u32),
}

/// An ordered array. Clones share its entries until one of them is written.
#[derive(Drop)]
#[cycle(value)]
pub struct Arr {
    pub(crate) body: Rc<Body>,
}

/// The most arrays that may stand one in another.
pub const MAX_HEIGHT: u32 = 100;

/// Why nothing is put into an array.
#[derive(Clone, Copy, Debug, Eq, PartialEq)]
pub enum ArrFault {
    /// The largest integer key ever used is the greatest integer, so that there is no next one.
    NoNextKey,
    /// The array would be more than 100 arrays high.
    TooHigh,
    /// Memory ran out.
    Memory,
}

impl From<AllocError> for ArrFault {
    ghost use Rattle.resin_value.specs.declared.value.ArrFault.{ArrFault};

    ghost from_gives = { λ _ fault. fault ≡ ArrFault.Memory };

    fn from(_error: AllocError) -> ArrFault {
        ArrFault::Memory
    }
}

// What clones of an array share.
#[derive(Drop)]
#[cycle(value)]
pub(crate) struct Body {
    pub(crate) entries: Entries,
    // The largest integer key ever used.
    pub(crate) largest: Option<i64>,
    pub(crate) height: u32,
}

// Entries in order, and where their keys stand. Entries leave at either end without moving the others.
#[derive(Drop)]
#[cycle(value)]
pub(crate) struct Entries {
    pub(crate) list: VecDeque<Entry>,
    places: Places,
}

// A key with the value at it.
#[derive(Drop)]
#[cycle(value)]
pub(crate) struct Entry {
    pub(crate) key: Key,
    pub(crate) value: Value,
}

impl Model for Entries {
    ghost use Rattle.resin_value.specs.Arrays.{EntryList, entries_code, entries_size};

    ghost Value = { EntryList };

    ghost coded = { entries_code };

    ghost use Rattle.resin_value.specs.Seen.{pairs_of, keys_of};

    ghost view = { λ a. pairs_of a.list.items };

    ghost use Rattle.resin_value.specs.Placed.{IsPlaced};

    ghost invariant = { λ a. IsPlaced a.places (keys_of a.list.items) };

    ghost size = { entries_size };

    ghost use Rattle.resin_value.specs.Falls.{falls};

    ghost size_decreases = { λ a h. falls a.list.items };
}

impl Model for Arr {
    ghost use Rattle.resin_value.specs.Arrays.{Array, array_code, array_size};

    ghost Value = { Array };

    ghost coded = { array_code };

    ghost use Rattle.resin_value.specs.Seen.{seen};
    ghost use Rattle.resin_value.specs.Changes.{IsArray};

    ghost view = { λ a. seen a.body.value };

    ghost invariant = { λ a. IsArray (seen a.body.value) };

    ghost size = { array_size };

    ghost use Rattle.std.proofs.Common.{arith};

    ghost size_decreases = { λ a h. Prim.omega arith };
}

impl Value {
    ghost use Rattle.resin_scalar.specs.Scalars.{plain_of};
    ghost use Rattle.resin_value.specs.Compare.{scalar_of, is_true};

    /// The scalar that the value is, without its labels, `None` exactly for an array or an object.
    pub fn scalar(&self) -> Option<Scalar<'_>>
        ensures { option_map plain_of result ≡ scalar_of (tree_of self.now) }
    {
        match self {
            Value::Null => Some(Scalar::Null),
            Value::Bool(b) => Some(Scalar::Bool(*b)),
            Value::Int(n, _) => Some(Scalar::Int(*n)),
            Value::Text(text) => Some(Scalar::Text(text.bytes())),
            Value::Arr(_) | Value::Obj(_) => None,
        }
    }

    /// The value as a boolean: of a scalar by `resin_scalar::truth`, true for an array with entries and for an object.
    pub fn truth(&self) -> bool
        ensures { result ≡ is_true (tree_of self.now) }
    {
        match self {
            Value::Arr(array) => array.len() != 0,
            Value::Obj(_) => true,
            Value::Null => false,
            Value::Bool(b) => *b,
            Value::Int(n, _) => truth(&Scalar::Int(*n)),
            Value::Text(text) => truth(&Scalar::Text(text.bytes())),
        }
    }
}

impl Clone for Entries {
    ghost is_clone = { λ e copy. copy ≡ e };

    fn clone(&self) -> Result<Entries, AllocError> {
        let places = self.places.clone()?;
        let list = cloned(*self.list.allocator(), &self.list)?;
        Ok(Entries { list, places })
    }
}

// Clones of entries, in order.
fn cloned(alloc: Global, list: &VecDeque<Entry>) -> Result<VecDeque<Entry>, AllocError>
    ensures { IfOk result (λ copies. copies.items ≡ list.now.items) }
{
    let mut copies = VecDeque::with_capacity(alloc, list.len())?;
    for i in 0..list.len() {
        copies.push_back(list[i].clone()?)?;
    }
    Ok(copies)
}

impl Clone for Entry {
    ghost is_clone = { λ e copy. copy ≡ e };

    fn clone(&self) -> Result<Entry, AllocError> {
        Ok(Entry {
            key: self.key.clone()?,
            value: self.value.clone()?,
        })
    }
}

impl Clone for Body {
    ghost is_clone = { λ b copy. copy ≡ b };

    fn clone(&self) -> Result<Body, AllocError> {
        Ok(Body {
            entries: self.entries.clone()?,
            largest: self.largest,
            height: self.height,
        })
    }
}

impl Clone for Arr {
    ghost is_clone = { λ a copy. copy ≡ a };

    fn clone(&self) -> Result<Arr, AllocError> {
        let body = self.body.clone()?;
        Ok(Arr { body })
    }
}

impl Clone for Value {
    ghost is_clone = { λ v copy. copy ≡ v };

    fn clone(&self) -> Result<Value, AllocError> {
        match self {
            Value::Null => Ok(Value::Null),
            Value::Bool(b) => Ok(Value::Bool(*b)),
            Value::Int(n, labels) => Ok(Value::Int(*n, labels.clone()?)),
            Value::Text(text) => Ok(Value::Text(text.clone()?)),
            Value::Arr(array) => Ok(Value::Arr(array.clone()?)),
            Value::Obj(number) => Ok(Value::Obj(*number)),
        }
    }
}

impl Entries {
    fn new(alloc: Global) -> Entries
        ensures { result ≡ [] }
    {
        Entries {
            list: VecDeque::new(alloc),
            places: Places::new(),
        }
    }

    // How many entries there are.
    pub(crate) fn len(&self) -> usize
        ensures { result ≡ length self.now }
    {
        self.list.len()
    }

    // The value at a key.
    pub(crate) fn get(&self, k: &Key) -> Option<&Value>
        ensures { option_map (λ v. tree_of v.now) result ≡ lookup k.now self.now }
    {
        match self.places.place(k, self.list.len()) {
            Some(i) => Some(&self.list[i].value),
            None => None,
        }
    }

    // The key and the value at a place.
    fn entry(&self, i: usize) -> (&Key, &Value)
        requires { i < length self.now }
        ensures { slice_get self.now i ≡ Some (result.0.now, tree_of result.1.now) }
    {
        let entry = &self.list[i];
        (&entry.key, &entry.value)
    }

    // Puts a value at a key: in its place where the key is there, else last.
    fn put(&mut self, k: &Key, v: Value) -> Result<(), AllocError>
        ensures ok { OnOk result (self.new ≡ put_at k.now (tree_of v) self.old) }
        ensures err { OnErr result (self.new ≡ self.old) }
    {
        match self.places.place(k, self.list.len()) {
            Some(i) => {
                self.list[i].value = v;
                Ok(())
            }
            None => self.push(k.clone()?, v),
        }
    }

    // Puts a new key and its value last.
    fn push(&mut self, k: Key, v: Value) -> Result<(), AllocError>
        requires { lookup k self.old ≡ None }
        ensures ok { OnOk result (self.new ≡ self.old ++ (k, tree_of v) ∷ []) }
        ensures err { OnErr result (self.new ≡ self.old) }
    {
        self.list.reserve(1)?;
        self.places.note(*self.list.allocator(), &self.list, &k)?;
        self.list.push_back_reserved(Entry { key: k, value: v });
        Ok(())
    }

    // Takes out the entry at a key, and keeps the order of the others.
    fn remove(&mut self, k: &Key) -> Result<(), AllocError>
        ensures ok { OnOk result (self.new ≡ remove_at k.now self.old) }
        ensures err { OnErr result (self.new ≡ self.old) }
    {
        let Some(i) = self.places.place(k, self.list.len()) else {
            return Ok(());
        };
        self.places.forget(*self.list.allocator(), &self.list, i)?;
        take_entry(&mut self.list, i);
        Ok(())
    }
}

// Takes out the entry at a place, and keeps the order of the others. It moves those before it or those behind it, whichever are fewer.
fn take_entry(list: &mut VecDeque<Entry>, i: usize)
    requires { i < deque_len list.old }
    ensures { list.new.items ≡ remove list.old.items i }
{
    let _entry = list.remove(i);
}

impl Arr {
    /// The empty array, of height 1.
    pub fn new(alloc: Global) -> Result<Arr, AllocError>
        ensures { IfOk result (λ a. a ≡ empty) }
    {
        let body = Body {
            entries: Entries::new(alloc),
            largest: None,
            height: 1,
        };
        Ok(Arr {
            body: Rc::new(alloc, body)?,
        })
    }

    /// How many entries there are.
    pub fn len(&self) -> usize
        ensures value { result ≡ length self.now.entries }
        ensures kept { IsArray self.now }
    {
        self.body.entries.len()
    }

    /// Whether there are no entries.
    pub fn is_empty(&self) -> bool
        ensures { IsTrue result ↔ (self.now.entries ≡ []) }
    {
        self.len() == 0
    }

    /// How many arrays stand one in another, this one counted: 1 when made, raised by what is put in, never lowered. It is at most 100.
    pub fn height(&self) -> u32
        ensures value { result ≡ self.now.height }
        ensures low { result ≤ MAX_HEIGHT }
    {
        self.body.height
    }

    /// The value at a key, `None` exactly where no entry has it.
    pub fn get(&self, k: &Key) -> Option<&Value>
        ensures { option_map (λ v. tree_of v.now) result ≡ lookup k.now self.now.entries }
    {
        self.body.entries.get(k)
    }

    /// The key and the value at a place, in the order of the entries.
    pub fn entry(&self, i: usize) -> (&Key, &Value)
        requires { i < length self.now.entries }
        ensures { slice_get self.now.entries i ≡ Some (result.0.now, tree_of result.1.now) }
    {
        self.body.entries.entry(i)
    }

    /// The key of the next `append`: one more than the largest integer key ever used, 0 where none was, `None` exactly where the largest is
    /// the greatest integer.
    pub fn next_key(&self) -> Option<i64>
        ensures { result ≡ next_of self.now.largest }
    {
        match self.body.largest {
            None => Some(0),
            Some(n) if n < i64::MAX => Some(n + 1),
            Some(_) => None,
        }
    }

    /// Puts a value at a key: in its place where the key is there, else last. `TooHigh` comes exactly where the height would pass 100. A refusal
    /// changes nothing; clones of the array keep what they hold.
    pub fn put(&mut self, k: &Key, v: Value) -> Result<(), ArrFault>
        requires lawful { IsTrue (is_lawful k.now) }
        ensures ok { OnOk result (self.new ≡ put k.now (tree_of v) self.old) }
        ensures too_high { (result ≡ Err ArrFault.TooHigh) ↔ (MAX_HEIGHT < raised self.old.height (tree_of v)) }
        ensures has_key { result ≢ Err ArrFault.NoNextKey }
        ensures err { OnErr result (self.new ≡ self.old) }
    {
        let height = self.height().max(height_in(&v));
        if height > MAX_HEIGHT {
            return Err(ArrFault::TooHigh);
        }
        let body = Rc::make_mut(&mut self.body)?;
        body.put(k, v)?;
        Ok(())
    }

    /// Puts a value last, at the next integer key. `NoNextKey` comes exactly where there is none, `TooHigh` exactly where there is one and the
    /// height would pass 100. A refusal changes nothing; clones of the array keep what they hold.
    pub fn append(&mut self, v: Value) -> Result<(), ArrFault>
        ensures ok { OnOk result (Some self.new ≡ appended (tree_of v) self.old) }
        ensures no_next_key { (result ≡ Err ArrFault.NoNextKey) ↔ (next_of self.old.largest ≡ None) }
        ensures too_high { (result ≡ Err ArrFault.TooHigh) ↔ (IsSome (next_of self.old.largest) × (MAX_HEIGHT < raised self.old.height (tree_of v))) }
        ensures err { OnErr result (self.new ≡ self.old) }
    {
        let Some(n) = self.next_key() else {
            return Err(ArrFault::NoNextKey);
        };
        let height = self.height().max(height_in(&v));
        if height > MAX_HEIGHT {
            return Err(ArrFault::TooHigh);
        }
        let body = Rc::make_mut(&mut self.body)?;
        body.append(n, v)?;
        Ok(())
    }

    /// Takes out the entry at a key, and says whether there was one. The other entries keep their order; the height and the largest key used stay.
    /// After want of memory nothing is changed; clones of the array keep what they hold.
    pub fn remove(&mut self, k: &Key) -> Result<bool, AllocError>
        ensures found { IfOk result (λ found. found ≡ is_some (lookup k.now self.old.entries)) }
        ensures ok { OnOk result (self.new ≡ without k.now self.old) }
        ensures err { OnErr result (self.new ≡ self.old) }
    {
        if self.get(k).is_none() {
            return Ok(false);
        }
        let body = Rc::make_mut(&mut self.body)?;
        body.remove(k)?;
        Ok(true)
    }
}

impl Body {
    // Puts a value at a key.
    fn put(&mut self, k: &Key, v: Value) -> Result<(), AllocError>
        ensures ok { OnOk result (seen self.new ≡ put k.now (tree_of v) (seen self.old)) }
        ensures err { OnErr result (seen self.new ≡ seen self.old) }
    {
        let height = self.height.max(height_in(&v));
        self.entries.put(k, v)?;
        self.largest = largest_with(k, self.largest);
        self.height = height;
        Ok(())
    }

    // Puts a value at an integer key that is new and above every integer key used.
    fn append(&mut self, n: i64, v: Value) -> Result<(), AllocError>
        requires next { next_of self.old.largest ≡ Some n }
        requires fresh { lookup (Key.Int n) self.old.entries ≡ None }
        ensures ok { OnOk result (seen self.new ≡ put (Key.Int n) (tree_of v) (seen self.old)) }
        ensures err { OnErr result (seen self.new ≡ seen self.old) }
    {
        let height = self.height.max(height_in(&v));
        self.entries.push(Key::Int(n), v)?;
        self.largest = Some(n);
        self.height = height;
        Ok(())
    }

    // Takes out the entry at a key.
    fn remove(&mut self, k: &Key) -> Result<(), AllocError>
        ensures ok { OnOk result (seen self.new ≡ without k.now (seen self.old)) }
        ensures err { OnErr result (seen self.new ≡ seen self.old) }
    {
        self.entries.remove(k)
    }
}

// The height that a value gives the array that holds it.
fn height_in(v: &Value) -> u32
    ensures { result ≡ changes.height_in (tree_of v.now) }
{
    match v {
        Value::Arr(array) => array.height() + 1,
        _ => 1,
    }
}

// The largest integer key ever used, once a key was used.
fn largest_with(k: &Key, largest: Option<i64>) -> Option<i64>
    ensures { result ≡ changes.largest_with k.now largest }
{
    match (k, largest) {
        (Key::Int(n), None) => Some(*n),
        (Key::Int(n), Some(m)) => Some(if m < *n { *n } else { m }),
        (Key::Text(_), _) => largest,
    }
}
