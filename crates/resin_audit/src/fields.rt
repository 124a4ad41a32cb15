//! The fields of a line.
ghost use Rattle.std.specs.Prelude.{◌≡◌};
ghost use Rattle.std.specs.List.{list_all};
ghost use Rattle.resin_scan.specs.Bytes as kind;
ghost use Rattle.resin_journal_file.specs.Reading as spec;
ghost use Rattle.resin_audit.specs.Fields.{is_none};
ghost use Rattle.resin_audit.specs.Read.{Takes, TakesField, TakesNext, NamesField};

use crate::rest::split_once;
use itoa::Buffer;
use resin_bytes::capped_value;
use resin_journal::Channel;
use resin_scan::bytes::{begins_name, is_name_byte};
use std::marker::Model;

/// The fields of a line that are left. There is none behind the last.
#[derive(Drop)]
pub(crate) struct Fields<'a> {
    left: Option<&'a [u8]>,
}

impl<'a> Model for Fields<'a> {
    ghost use Rattle.std.specs.Prelude.{ℕ, List};
    ghost use Rattle.resin_audit.specs.Fields.{fields_left};

    ghost Value = { List (List ℕ) };

    ghost view = { λ f. fields_left f.left };
}

impl<'a> Fields<'a> {
    pub(crate) fn new(line: &'a [u8]) -> Fields<'a>
        ensures { result ≡ spec.fields_of line.now }
    {
        Fields { left: Some(line) }
    }

    // Takes the next field.
    pub(crate) fn next(&mut self) -> Option<&'a [u8]>
        ensures { TakesNext self.old result self.new }
    {
        let left = self.left?;
        match split_once(left, b' ') {
            Some((field, others)) => {
                self.left = Some(others);
                Some(field)
            }
            None => {
                self.left = None;
                Some(left)
            }
        }
    }

    // Takes a number up to the largest that may stand there.
    pub(crate) fn number(&mut self, most: u64) -> Option<u64>
        ensures { TakesField (spec.next_number most self.old) result self.new }
    {
        number(self.next()?, most)
    }

    // Takes the number of a policy or a filter.
    pub(crate) fn object(&mut self) -> Option<u32>
        ensures { TakesField (spec.next_object self.old) result self.new }
    {
        object(self.next()?)
    }

    pub(crate) fn channel(&mut self) -> Option<Channel>
        ensures { TakesField (spec.next_channel self.old) result self.new }
    {
        channel(self.next()?)
    }

    // Takes the name of a class.
    pub(crate) fn name(&mut self) -> Option<&'a [u8]>
        ensures { Takes (spec.next_name self.old) result self.new }
    {
        name(self.next()?)
    }

    // Whether there is no further field.
    pub(crate) fn is_empty(&self) -> bool
        ensures { result ≡ is_none self.now }
    {
        self.left.is_none()
    }

    // There is no further field.
    pub(crate) fn end(&self) -> Option<()>
        ensures { result ≡ spec.at_end tt self.now }
    {
        if self.is_empty() { Some(()) } else { None }
    }
}

// The number that a field is, up to the largest that may stand there.
fn number(field: &[u8], most: u64) -> Option<u64>
    ensures { result ≡ spec.number most field.now }
{
    let value = capped_value(field);
    let mut buffer = Buffer::new();
    if value <= most && field == buffer.format(value).as_bytes() {
        Some(value)
    } else {
        None
    }
}

// The number of a policy or a filter that a field is.
fn object(field: &[u8]) -> Option<u32>
    ensures { result ≡ spec.number spec.LARGEST_OBJECT field.now }
{
    let number = number(field, u64::from(u32::MAX))?;
    Some(number as u32)
}

// The channel that a field names.
fn channel(field: &[u8]) -> Option<Channel>
    ensures { result ≡ spec.channel field.now }
{
    if field == b"http".as_slice() {
        Some(Channel::Http)
    } else if field == b"header".as_slice() {
        Some(Channel::Header)
    } else if field == b"email".as_slice() {
        Some(Channel::Email)
    } else if field == b"file".as_slice() {
        Some(Channel::File)
    } else if field == b"sql".as_slice() {
        Some(Channel::Sql)
    } else if field == b"code".as_slice() {
        Some(Channel::Code)
    } else if field == b"input".as_slice() {
        Some(Channel::Input)
    } else if field == b"func".as_slice() {
        Some(Channel::Func)
    } else {
        None
    }
}

// The field, where it is a name.
fn name(field: &[u8]) -> Option<&[u8]>
    ensures { NamesField (spec.name field.now) result }
{
    match field {
        [first, others @ ..] if begins_name(*first) && name_bytes(others) => Some(field),
        _ => None,
    }
}

// Whether each byte may stand in a name.
fn name_bytes(bytes: &[u8]) -> bool
    ensures { result ≡ list_all kind.is_name_byte bytes.now }
{
    bytes.iter().all(|b| is_name_byte(*b))
}
