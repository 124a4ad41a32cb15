//! The headers of an answer.
ghost use Rattle.std.specs.Prelude.{◌≡◌, ◌+◌, ◌<◌, ◌^◌, [], ◌∷◌, ◌++◌, map, filter, OnOk, OnErr, IfOk};
ghost use Rattle.std.specs.Str.{str_to_ascii_lowercase};
ghost use Rattle.resin_scope.specs.Pages.{headers_with};
ghost use Rattle.resin_scope.specs.Standing.{stands, since_then};

use crate::names::NameMap;
use resin_value::under::bytes::{Bytes, Header, HeaderList};
use std::alloc::{AllocError, Global};
use std::marker::Model;

// The fewest bytes of headers that are put between two sweeps.
const LEAST_ROOM: usize = 4096;

// About what a header takes beside the bytes of its name and of its value.
const BESIDE: usize = 128;

/// The headers that scripts set, in the order in which they were put. One that replaces others of its name is put in steps of the logarithm of how
/// many names there are: those others keep their slots, but no longer stand, until a sweep drops them, which moves what is behind them. A sweep
/// comes once as many bytes were put as stood after the last one, so that headers take at most about twice the memory of those that stood then.
pub struct Headers {
    slots: Vec<Slot>,
    // From which number on the headers of a name stand, where it was replaced.
    since: NameMap<u64>,
    // The number of the next header.
    next: u64,
    // How many bytes may be put before the next sweep.
    room: usize,
}

// A header that was put. Those put later have larger numbers.
#[derive(Drop)]
struct Slot {
    number: u64,
    // Its name in lower case.
    key: Vec<u8>,
    header: Header,
}

impl Model for Headers {
    ghost use Rattle.std.specs.Prelude.{List};
    ghost use Rattle.resin_value.specs.Under.bytes.declared.header.Header.{Header};
    ghost use Rattle.resin_scope.specs.Standing.{standing, AreCounted};

    ghost Value = { List Header };

    ghost view = { λ h. standing h.since h.slots.items };

    ghost invariant = { λ h. AreCounted h.since h.next h.slots.items };
}

impl Drop for Headers {
    fn drop(self) {
        let Headers {
            slots: _,
            since: _,
            next: _,
            room: _,
        } = self;
    }
}

impl Headers {
    /// No headers. It takes no memory.
    pub fn new(alloc: Global) -> Headers
        ensures { result ≡ [] }
    {
        Headers {
            slots: Vec::new(alloc),
            since: NameMap::new(alloc),
            next: 0,
            room: LEAST_ROOM,
        }
    }

    /// Puts a header last. Where `replace`, those of its name are taken out; names are compared ignoring ASCII case. After want of memory the headers
    /// are as before.
    pub fn put(
        &mut self,
        alloc: Global,
        name: &[u8],
        value: &[u8],
        replace: bool,
    ) -> Result<(), AllocError>
        ensures ok { OnOk result (self.new ≡ headers_with name.now value.now replace self.old) }
        ensures err { OnErr result (self.new ≡ self.old) }
    {
        self.make_room(weight(name, value));
        let header = header_of(alloc, name, value)?;
        self.add(alloc, header, replace)
    }

    // Puts a header last.
    fn add(&mut self, alloc: Global, header: Header, replace: bool) -> Result<(), AllocError>
        ensures ok { OnOk result (self.new ≡ headers_with header.name header.value replace self.old) }
        ensures err { OnErr result (self.new ≡ self.old) }
    {
        // No answer has so many headers.
        if self.next == u64::MAX {
            return Err(AllocError);
        }
        let slot = slot_of(alloc, self.next, header)?;
        self.slots.reserve(1)?;
        begin(&mut self.since, &slot, replace)?;
        self.slots.push_reserved(slot);
        self.next += 1;
        Ok(())
    }

    // Takes bytes off the room, and sweeps first where there is too little.
    fn make_room(&mut self, bytes: usize)
        ensures { self.new ≡ self.old }
    {
        if bytes <= self.room {
            self.room -= bytes;
            return;
        }
        sweep(&mut self.slots, &self.since);
        self.room = room_beside(self.slots.as_slice()).saturating_sub(bytes);
    }

    /// The headers as a list.
    pub fn into_list(self, alloc: Global) -> Result<HeaderList, AllocError>
        ensures { IfOk result (λ list. list ≡ self) }
    {
        let Headers {
            mut slots,
            since,
            next: _,
            room: _,
        } = self;
        sweep(&mut slots, &since);
        list_of(alloc, slots)
    }
}

// A header with copies of these texts.
fn header_of(alloc: Global, name: &[u8], value: &[u8]) -> Result<Header, AllocError>
    ensures { IfOk result (λ h. h ≡ record { name = name.now; value = value.now }) }
{
    Ok(Header {
        name: Bytes::from_slice(alloc, name)?,
        value: Bytes::from_slice(alloc, value)?,
    })
}

// A header beside its name in lower case.
fn slot_of(alloc: Global, number: u64, header: Header) -> Result<Slot, AllocError>
    ensures number { IfOk result (λ s. s.number ≡ number) }
    ensures key { IfOk result (λ s. s.key.items ≡ str_to_ascii_lowercase header.name) }
    ensures header { IfOk result (λ s. s.header ≡ header) }
{
    let key = lowered(alloc, header.name.as_slice())?;
    Ok(Slot {
        number,
        key,
        header,
    })
}

// A name in lower case.
fn lowered(alloc: Global, name: &[u8]) -> Result<Vec<u8>, AllocError>
    ensures { IfOk result (λ lower. lower.items ≡ str_to_ascii_lowercase name.now) }
{
    name.iter().map(|b| b.to_ascii_lowercase()).collect(alloc)
}

// Lets the headers of a name stand from a slot on, where it replaces those before it.
fn begin(since: &mut NameMap<u64>, slot: &Slot, replace: bool) -> Result<(), AllocError>
    ensures ok { OnOk result (since.new ≡ since_then slot.now replace since.old) }
    ensures err { OnErr result (since.new ≡ since.old) }
{
    if replace {
        return since.put(slot.key.as_slice(), slot.number);
    }
    Ok(())
}

// Whether a slot's header was not replaced.
fn stands(since: &NameMap<u64>, slot: &Slot) -> bool
    ensures { result ≡ stands since.now slot.now }
{
    match since.get(slot.key.as_slice()) {
        Some(from) => *from <= slot.number,
        None => true,
    }
}

// Drops the slots whose headers were replaced. It takes no memory.
fn sweep(slots: &mut Vec<Slot>, since: &NameMap<u64>)
    ensures { slots.new.items ≡ filter (stands since.now) slots.old.items }
{
    slots.retain(|slot| stands(since, slot));
}

// The headers of slots, in order.
fn list_of(alloc: Global, slots: Vec<Slot>) -> Result<HeaderList, AllocError>
    ensures { IfOk result (λ list. list ≡ map (λ s. s.header) slots.items) }
{
    let mut list = HeaderList::new(alloc);
    for slot in slots {
        list.push(slot.header)?;
    }
    Ok(list)
}

// About how many bytes a header takes.
fn weight(name: &[u8], value: &[u8]) -> usize {
    BESIDE
        .saturating_add(name.len())
        .saturating_add(value.len())
}

// How many bytes may be put beside these, all of which stand, before the next sweep.
fn room_beside(slots: &[Slot]) -> usize {
    let mut bytes: usize = 0;
    for slot in slots {
        let header = &slot.header;
        bytes = bytes.saturating_add(weight(header.name.as_slice(), header.value.as_slice()));
    }
    bytes.max(LEAST_ROOM)
}
