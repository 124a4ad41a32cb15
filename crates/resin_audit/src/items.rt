//! The items of a file.
ghost use Rattle.std.specs.Prelude.{◌≡◌, option_map};
ghost use Rattle.resin_journal_file.specs.Reading as spec;
ghost use Rattle.resin_audit.specs.Read.{Reads};
ghost use Rattle.resin_audit.specs.Told.{kept_of, heading_of, kept_front, next_item};

use crate::fields::Fields;
use crate::labels::{Carried, read_labelled};
use crate::rest::Rest;
use crate::stop::Stop;
use resin_journal::Channel;
use resin_lstr::LONGEST;
use std::alloc::Global;

/// What an event says, as far as the access law asks.
#[derive(Drop)]
pub(crate) enum Told {
    Passed {
        write: u64,
        policy: u32,
    },
    /// A text went out that carries these policies.
    Sent {
        write: u64,
        channel: Channel,
        carried: Carried,
    },
    Denied {
        write: u64,
        channel: Channel,
        policy: u32,
        from: u64,
        to: u64,
    },
    FilterDenied {
        write: u64,
        channel: Channel,
    },
}

/// An item of a file.
#[derive(Drop)]
pub(crate) enum Item {
    /// The journal of the answer with this number begins.
    Request(u64),
    Happened(Told),
}

/// What the line of a text that went out tells: its write, its channel, how many bytes it has, and how many runs.
#[derive(Clone, Copy)]
pub(crate) struct Heading {
    pub(crate) write: u64,
    pub(crate) channel: Channel,
    pub(crate) len: u64,
    pub(crate) count: u64,
}

// Reads the item at the front of what is left.
pub(crate) fn read_item(alloc: Global, rest: &mut Rest<'_>) -> Result<Item, Stop>
    ensures { Reads (next_item rest.old) result rest.new }
{
    let Some(line) = rest.line() else {
        return Err(Stop::Form);
    };
    read_line(alloc, Fields::new(line), rest)
}

// Reads the item whose line has these fields, and of a text that went out what is behind the line.
fn read_line(alloc: Global, fields: Fields<'_>, rest: &mut Rest<'_>) -> Result<Item, Stop>
    ensures { Reads (kept_front (spec.said fields.entry rest.old)) result rest.new }
{
    let mut fields = fields;
    let Some(verb) = fields.next() else {
        return Err(Stop::Form);
    };
    if verb == b"sent".as_slice() {
        return read_sent(alloc, fields, rest);
    }
    match read_told(verb, fields) {
        Some(item) => Ok(item),
        None => Err(Stop::Form),
    }
}

// Reads an item that is told by its line alone.
fn read_told(verb: &[u8], fields: Fields<'_>) -> Option<Item>
    ensures { result ≡ option_map kept_of (spec.told verb.now fields.entry) }
{
    if verb == b"request".as_slice() {
        read_request(fields)
    } else if verb == b"passed".as_slice() {
        read_passed(fields)
    } else if verb == b"denied".as_slice() {
        read_denied(fields)
    } else if verb == b"filter".as_slice() {
        read_filter(fields)
    } else {
        None
    }
}

// Reads the line with which a journal begins.
fn read_request(fields: Fields<'_>) -> Option<Item>
    ensures { result ≡ option_map kept_of (spec.request fields.entry) }
{
    let mut fields = fields;
    let number = fields.number(u64::MAX)?;
    fields.end()?;
    Some(Item::Request(number))
}

fn read_passed(fields: Fields<'_>) -> Option<Item>
    ensures { result ≡ option_map kept_of (spec.passed fields.entry) }
{
    let mut fields = fields;
    let write = fields.number(u64::MAX)?;
    let policy = fields.object()?;
    fields.end()?;
    Some(Item::Happened(Told::Passed { write, policy }))
}

fn read_denied(fields: Fields<'_>) -> Option<Item>
    ensures { result ≡ option_map kept_of (spec.denied fields.entry) }
{
    let mut fields = fields;
    let write = fields.number(u64::MAX)?;
    let channel = fields.channel()?;
    let policy = fields.object()?;
    fields.name()?;
    let from = fields.number(u64::MAX)?;
    let to = fields.number(u64::MAX)?;
    fields.name()?;
    fields.end()?;
    Some(Item::Happened(Told::Denied {
        write,
        channel,
        policy,
        from,
        to,
    }))
}

fn read_filter(fields: Fields<'_>) -> Option<Item>
    ensures { result ≡ option_map kept_of (spec.filter fields.entry) }
{
    let mut fields = fields;
    let write = fields.number(u64::MAX)?;
    let channel = fields.channel()?;
    fields.object()?;
    fields.name()?;
    fields.number(u64::MAX)?;
    fields.name()?;
    fields.end()?;
    Some(Item::Happened(Told::FilterDenied { write, channel }))
}

// Reads the line of a text that went out.
fn read_heading(fields: Fields<'_>) -> Option<Heading>
    ensures { result ≡ option_map heading_of (spec.heading fields.entry) }
{
    let mut fields = fields;
    let write = fields.number(u64::MAX)?;
    let channel = fields.channel()?;
    let len = fields.number(LONGEST as u64)?;
    let count = fields.number(u64::MAX)?;
    fields.end()?;
    Some(Heading {
        write,
        channel,
        len,
        count,
    })
}

// Reads a text that went out: what is left of its line, the lines of its runs, and its bytes.
fn read_sent(alloc: Global, fields: Fields<'_>, rest: &mut Rest<'_>) -> Result<Item, Stop>
    ensures { Reads (kept_front (spec.sent fields.entry rest.old)) result rest.new }
{
    let Some(heading) = read_heading(fields) else {
        return Err(Stop::Form);
    };
    let carried = read_labelled(alloc, rest, heading.len, heading.count)?;
    Ok(Item::Happened(Told::Sent {
        write: heading.write,
        channel: heading.channel,
        carried,
    }))
}
