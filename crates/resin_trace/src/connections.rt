//! The streams of connections.
ghost use Rattle.std.specs.Prelude.{◌≡◌, ◌≢◌, ◌≤◌, ◌<◌, ℕ, [], length, OnOk, OnErr, IfOk, Some, None, IsSome, drop, true, false};
ghost use Rattle.resin_trace.specs.Lines.{Waiting, at, stream_of, added, used};

use crate::unread::Unread;
use std::alloc::{AllocError, Global};
use std::marker::Model;

/// What waits on one connection. A refused one holds no bytes.
#[derive(Drop)]
struct Connection {
    unread: Unread,
    refused: bool,
}

impl Model for Connection {
    ghost use Rattle.resin_trace.specs.Lines.{Waiting};

    ghost Value = { Waiting };

    ghost view = { λ c. record { stream = c.unread; refused = c.refused } };
}

impl Connection {
    // A connection on which nothing came.
    fn new(alloc: Global) -> Connection
        ensures { result ≡ record { stream = []; refused = false } }
    {
        Connection {
            unread: Unread::new(alloc),
            refused: false,
        }
    }

    // Puts a piece last, unless a request was refused.
    fn add(&mut self, piece: &[u8]) -> Result<(), AllocError>
        ensures ok { OnOk result (self.new ≡ added (Some self.old) piece.now) }
        ensures err { OnErr result (self.new ≡ self.old) }
    {
        if self.refused {
            return Ok(());
        }
        self.unread.push_slice(piece)
    }

    // Takes bytes from the front.
    fn skip(&mut self, count: usize)
        requires { count ≤ length self.old.stream }
        ensures { self.new ≡ record { stream = drop count self.old.stream; refused = self.old.refused } }
    {
        self.unread.skip(count);
    }

    // Drops the bytes, and those that come.
    fn refuse(&mut self)
        ensures { self.new ≡ record { stream = []; refused = true } }
    {
        self.unread.clear();
        self.refused = true;
    }

    // The bytes that wait; none after a refusal.
    fn stream(&self) -> &[u8]
        ensures { result.now ≡ stream_of (Some self.now) }
    {
        if self.refused {
            return &[];
        }
        self.unread.as_slice()
    }
}

/// The streams of connections by their numbers: for each connection the bytes that no request took yet, and whether
/// a request of it was refused. A byte moves at most once for each byte that [`Connections::used`] takes.
#[derive(Drop)]
pub struct Connections {
    alloc: Global,
    slots: Vec<Option<Connection>>,
}

impl Model for Connections {
    ghost use Rattle.std.specs.Prelude.{List, Option};
    ghost use Rattle.resin_trace.specs.Lines.{Waiting};

    ghost Value = { List (Option Waiting) };

    ghost view = { λ c. c.slots.items };
}

impl Connections {
    /// No connections. It takes no memory.
    pub fn new(alloc: Global) -> Connections
        ensures { (c : ℕ) → at result c ≡ None }
    {
        Connections {
            alloc,
            slots: Vec::new(alloc),
        }
    }

    /// Puts bytes last on a connection; a refused one drops them. After want of memory every connection is as before.
    pub fn add(&mut self, conn: u16, bytes: &[u8]) -> Result<(), AllocError>
        ensures ok { OnOk result (at self.new conn ≡ Some (added (at self.old conn) bytes.now)) }
        ensures err { OnErr result (at self.new conn ≡ at self.old conn) }
        ensures others { (c : ℕ) → c ≢ conn → at self.new c ≡ at self.old c }
    {
        let place = usize::from(conn);
        make_room(&mut self.slots, place)?;
        match self.slots[place].take() {
            Some(mut connection) => {
                let answer = connection.add(bytes);
                self.slots[place] = Some(connection);
                answer
            }
            None => {
                let mut connection = Connection::new(self.alloc);
                connection.add(bytes)?;
                self.slots[place] = Some(connection);
                Ok(())
            }
        }
    }

    /// The bytes of a connection that no request took: none where nothing came since its last end, or after a
    /// refusal.
    pub fn stream(&self, conn: u16) -> &[u8]
        ensures { result.now ≡ stream_of (at self.now conn) }
    {
        match self.slots.get(usize::from(conn)) {
            Some(Some(connection)) => connection.stream(),
            _ => &[],
        }
    }

    /// Takes a request's bytes from the front of a connection's stream.
    pub fn used(&mut self, conn: u16, n: usize)
        requires { n ≤ length (stream_of (at self.old conn)) }
        ensures here { at self.new conn ≡ used n (at self.old conn) }
        ensures others { (c : ℕ) → c ≢ conn → at self.new c ≡ at self.old c }
    {
        let place = usize::from(conn);
        if place < self.slots.len()
            && let Some(mut connection) = self.slots[place].take()
        {
            connection.skip(n);
            self.slots[place] = Some(connection);
        }
    }

    /// Drops a connection's bytes, and those that come until its end. Something must have come on it.
    pub fn refuse(&mut self, conn: u16)
        requires { IsSome (at self.old conn) }
        ensures here { at self.new conn ≡ Some (record { stream = []; refused = true }) }
        ensures others { (c : ℕ) → c ≢ conn → at self.new c ≡ at self.old c }
    {
        let place = usize::from(conn);
        if place < self.slots.len()
            && let Some(mut connection) = self.slots[place].take()
        {
            connection.refuse();
            self.slots[place] = Some(connection);
        }
    }

    /// Ends a connection: its bytes are dropped, and its number may be used anew.
    pub fn end(&mut self, conn: u16)
        ensures here { at self.new conn ≡ None }
        ensures others { (c : ℕ) → c ≢ conn → at self.new c ≡ at self.old c }
    {
        let place = usize::from(conn);
        if place < self.slots.len() {
            self.slots[place] = None;
        }
    }
}

// Makes places for connections up to one, with nothing on the new ones.
fn make_room(slots: &mut Vec<Option<Connection>>, place: usize) -> Result<(), AllocError>
    ensures ok { OnOk result (place < length slots.new.items) }
    ensures same { (c : ℕ) → at slots.new.items c ≡ at slots.old.items c }
{
    while slots.len() <= place {
        slots.push(None)?;
    }
    Ok(())
}
