//! How events are spelled in a row: as in the journal file, with the labelled text of a `sent` behind its channel.
use resin_bytes::Bytes;
use resin_journal::{Channel, Event, Journal};
use resin_table_values::text_in;
use std::alloc::{AllocError, Global};

/// The words of an event.
#[derive(Clone, Copy)]
struct Words<'a> {
    words: &'a [&'a str],
}

impl<'a> Words<'a> {
    // A word, empty where there is none.
    fn word(self, i: usize) -> &'a str {
        self.words.get(i).copied().unwrap_or("")
    }

    fn number(self, i: usize) -> u64 {
        self.word(i).parse::<u64>().unwrap_or(0)
    }

    fn object(self, i: usize) -> u32 {
        self.word(i).parse::<u32>().unwrap_or(0)
    }

    fn name(self, alloc: Global, i: usize) -> Result<Bytes, AllocError> {
        Bytes::from_slice(alloc, self.word(i).as_bytes())
    }

    // The channel that a word names; another word is a function's.
    fn channel(self, i: usize) -> Channel {
        match self.word(i) {
            "http" => Channel::Http,
            "header" => Channel::Header,
            "email" => Channel::Email,
            "file" => Channel::File,
            "sql" => Channel::Sql,
            "code" => Channel::Code,
            "input" => Channel::Input,
            _ => Channel::Func,
        }
    }
}

// `sent WRITE CHANNEL TEXT`
fn sent(alloc: Global, words: Words<'_>) -> Result<Event, AllocError> {
    Ok(Event::Sent {
        write: words.number(1),
        channel: words.channel(2),
        text: text_in(alloc, words.word(3))?,
    })
}

// The event that words spell; others than those of the file are a denial by a filter.
fn event(alloc: Global, words: Words<'_>) -> Result<Event, AllocError> {
    match words.word(0) {
        "passed" => Ok(Event::Passed {
            write: words.number(1),
            policy: words.object(2),
        }),
        "sent" => sent(alloc, words),
        "denied" => Ok(Event::Denied {
            write: words.number(1),
            channel: words.channel(2),
            policy: words.object(3),
            class: words.name(alloc, 4)?,
            from: words.number(5),
            to: words.number(6),
            by: words.name(alloc, 7)?,
        }),
        _ => Ok(Event::FilterDenied {
            write: words.number(1),
            channel: words.channel(2),
            filter: words.object(3),
            class: words.name(alloc, 4)?,
            len: words.number(5),
            by: words.name(alloc, 6)?,
        }),
    }
}

/// The journal of the events that fields spell.
pub fn journal_in(alloc: Global, fields: &[&str]) -> Result<Journal, AllocError> {
    let mut journal = Journal::new(alloc);
    for field in fields {
        let words: Vec<&str> = field.split(' ').collect(alloc)?;
        journal.push(event(alloc, Words { words: &words })?)?;
    }
    Ok(journal)
}
