//! The streams of connections, with how far each was read.
ghost use Rattle.std.specs.Prelude.{◌≡◌, ◌≢◌, ◌≤◌, ◌<◌, ◌⊎◌, ℕ, [], length, OnOk, OnErr, IfOk, Some, None, IsSome, true};
ghost use Rattle.resin_site.specs.Under.http.Stream.{first};
ghost use Rattle.resin_site.specs.Under.http.Steps.{Steps, Fits};
ghost use Rattle.resin_trace.specs.Lines.{at, stream_of, added, used};
ghost use Rattle.resin_serve.specs.Waiting_streams.{mark_at, start};

use resin_site::under::base::Bytes;
use resin_site::under::http::{Mark, Step, next_marked};
use resin_trace::Connections;
use std::alloc::{AllocError, Global};
use std::marker::Model;

/// The streams of connections by their numbers. A mark is kept for each, so that no byte of a stream that waits is read again and again.
#[derive(Drop)]
pub(crate) struct WaitingStreams {
    connections: Connections,
    marks: Vec<Mark>,
}

impl Model for WaitingStreams {
    ghost use Rattle.std.specs.Prelude.{List, Option};
    ghost use Rattle.resin_trace.specs.Lines.{Waiting};
    ghost use Rattle.resin_serve.specs.Waiting_streams.{AreMarks};

    ghost Value = { List (Option Waiting) };

    ghost view = { λ s. s.connections };

    ghost invariant = { λ s. AreMarks s.connections s.marks.items };
}

impl WaitingStreams {
    /// No connections. It takes no memory.
    pub(crate) fn new(alloc: Global) -> WaitingStreams
        ensures { (c : ℕ) → at result c ≡ None }
    {
        WaitingStreams {
            connections: Connections::new(alloc),
            marks: Vec::new(alloc),
        }
    }

    /// Puts bytes last on a connection, and lets them go; a refused one drops them. After want of memory every connection is as before.
    pub(crate) fn add(&mut self, conn: u16, bytes: Bytes) -> Result<(), AllocError>
        ensures ok { OnOk result (at self.new conn ≡ Some (added (at self.old conn) bytes)) }
        ensures err { OnErr result (at self.new conn ≡ at self.old conn) }
        ensures others { (c : ℕ) → c ≢ conn → at self.new c ≡ at self.old c }
    {
        make_room(&mut self.marks, usize::from(conn))?;
        self.connections.add(conn, bytes.as_slice())
    }

    /// What the front of a connection's stream asks.
    pub(crate) fn next_request(&mut self, alloc: Global, conn: u16) -> Result<Step, AllocError>
        ensures same { self.new ≡ self.old }
        ensures steps { IfOk result (λ s. Steps (first (stream_of (at self.old conn))) s) }
        ensures fits { IfOk result (λ s. Fits (stream_of (at self.old conn)) s) }
    {
        let mut mark = mark_of(&self.marks, usize::from(conn));
        let step = next_marked(alloc, self.connections.stream(conn), &mut mark)?;
        set_mark(&mut self.marks, usize::from(conn), mark);
        Ok(step)
    }

    /// Takes a request's bytes from the front of a connection's stream.
    pub(crate) fn used(&mut self, conn: u16, n: usize)
        requires { n ≤ length (stream_of (at self.old conn)) }
        ensures here { at self.new conn ≡ used n (at self.old conn) }
        ensures others { (c : ℕ) → c ≢ conn → at self.new c ≡ at self.old c }
    {
        set_mark(&mut self.marks, usize::from(conn), Mark::START);
        self.connections.used(conn, n);
    }

    /// Drops a connection's bytes, and those that come until its end. Something must have come on it.
    pub(crate) fn refuse(&mut self, conn: u16)
        requires { IsSome (at self.old conn) }
        ensures here { at self.new conn ≡ Some (record { stream = []; refused = true }) }
        ensures others { (c : ℕ) → c ≢ conn → at self.new c ≡ at self.old c }
    {
        set_mark(&mut self.marks, usize::from(conn), Mark::START);
        self.connections.refuse(conn);
    }

    /// Ends a connection: its bytes are dropped, and its number may be used anew.
    pub(crate) fn end(&mut self, conn: u16)
        ensures here { at self.new conn ≡ None }
        ensures others { (c : ℕ) → c ≢ conn → at self.new c ≡ at self.old c }
    {
        set_mark(&mut self.marks, usize::from(conn), Mark::START);
        self.connections.end(conn);
    }
}

// Makes places for marks up to one, of whose connections nothing is known.
fn make_room(marks: &mut Vec<Mark>, place: usize) -> Result<(), AllocError>
    ensures { (c : ℕ) → mark_at marks.new.items c ≡ mark_at marks.old.items c }
{
    while marks.len() <= place {
        marks.push(Mark::START)?;
    }
    Ok(())
}

// The mark at a place.
fn mark_of(marks: &[Mark], place: usize) -> Mark
    ensures { result ≡ mark_at marks.now place }
{
    marks.get(place).copied().unwrap_or(Mark::START)
}

// Keeps a mark where there is a place for it.
fn set_mark(marks: &mut Vec<Mark>, place: usize, mark: Mark)
    ensures here { (mark_at marks.new.items place ≡ mark) ⊎ (mark_at marks.new.items place ≡ start) }
    ensures others { (c : ℕ) → c ≢ place → mark_at marks.new.items c ≡ mark_at marks.old.items c }
{
    if place < marks.len() {
        marks[place] = mark;
    }
}
