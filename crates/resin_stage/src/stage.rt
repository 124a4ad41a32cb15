//! The writes of a request, and the answer under way.
ghost use Rattle.std.specs.Prelude.{◌≡◌, false, ℕ, ◌+◌, ◌-◌, ◌^◌, ◌<◌, ◌≤◌, [], ◌∷◌, ◌++◌, length};
ghost use Rattle.std.specs.Prelude.{decimal, Some, IfSome, IfNone, MatchOption, OnOk, OnErr, IsTrue};
ghost use Rattle.resin_scan.specs.Words.{IsName};
ghost use Rattle.resin_scope.specs.Under.lstr.Texts.{bytes_of};
ghost use Rattle.resin_scope.specs.Under.journal.Channels.{is_leaving};
ghost use Rattle.resin_scope.specs.Under.journal.declared.event.Event.{Event as JournalEvent};
ghost use Rattle.resin_stage.specs.Stages.{new_stage, drawn, noted, sent_page, sent_header, sent_status, sent_mail, opened};
ghost use Rattle.resin_stage.specs.Writes.{IsLawful, IsOpen, MayAsk, MaySend};
ghost use Rattle.resin_stage.specs.Lines.{header_line};
ghost use Rattle.resin_stage.specs.Ties.{IsTied};
ghost use Rattle.resin_stage.specs.Buffered.{Joins};
ghost use Rattle.resin_scope.specs.Under.bytes.declared.header.Header.{Header as HeaderField};

use crate::buffers::Buffers;
use crate::letter::mail_record;
use resin_scope::under::bytes::Bytes;
use resin_scope::under::journal::{Channel, Event, Journal};
use resin_scope::under::lstr::{Builder, LText, TextFault};
use resin_scope::{Headers, Page};
use std::alloc::{AllocError, Global};
use std::marker::Model;

/// The writes of a request so far, and the answer under way. Its journal obeys the access law, after every call: what a write may do next is asked of
/// the caller, and `draw` begins one.
#[derive(Drop)]
pub struct Stage {
    journal: Journal,
    writes: u64,
    // Its own buffers stay empty.
    page: Page,
    buffers: Buffers,
}

impl Model for Stage {
    ghost use Rattle.resin_stage.specs.Stages.{Stage, stage_code};

    ghost Value = { Stage };

    ghost coded = { stage_code };

    ghost use Rattle.resin_stage.specs.Writes.{IsLawful};

    ghost view = { λ s. record {
      journal = s.journal;
      writes = s.writes;
      status = s.page.status;
      headers = s.page.headers;
      body = s.page.body;
      mail = s.page.mail;
      buffers = s.buffers;
    } };

    ghost invariant = { λ s. IsLawful s.journal s.writes };
}

impl Stage {
    /// No write, and the status 200. It takes no memory.
    pub fn new(alloc: Global) -> Stage
        ensures value { result ≡ new_stage }
        ensures tied { (request : ℕ) → IsTied request result }
    {
        Stage {
            journal: Journal::new(alloc),
            writes: 0,
            page: Page::new(alloc),
            buffers: Buffers::new(alloc),
        }
    }

    /// What the writes and filters did so far.
    pub fn journal(&self) -> &Journal
        ensures value { result.now ≡ self.now.journal }
        ensures law { IsLawful self.now.journal self.now.writes }
    {
        &self.journal
    }

    /// The status under way.
    pub fn status(&self) -> u16
        ensures { result ≡ self.now.status }
    {
        self.page.status
    }

    /// How many output buffers are open.
    pub fn open_buffers(&self) -> usize
        ensures { result ≡ length self.now.buffers }
    {
        self.buffers.len()
    }

    /// Draws the number of a write that begins, one more than the last; `None` exactly where no number is left.
    pub fn draw(&mut self) -> Option<u64>
        ensures some { IfSome result (λ w. (w ≡ self.old.writes + 1) × (self.new ≡ drawn self.old)) }
        ensures begun { IfSome result (λ w. IsOpen w [] self.new.journal self.new.writes) }
        ensures none { IfNone result ((2 ^ 64 - 1 ≤ self.old.writes) × (self.new ≡ self.old)) }
    {
        if self.writes == u64::MAX {
            return None;
        }
        self.writes += 1;
        Some(self.writes)
    }

    /// A policy returned in the write under way, in which it wasn't asked before.
    pub fn passed(&mut self, write: u64, policy: u32) -> Result<(), AllocError>
        requires { MayAsk write policy self.old.journal self.old.writes }
        ensures ok { OnOk result (self.new ≡ noted (JournalEvent.Passed write policy) self.old) }
        ensures err { OnErr result (self.new ≡ self.old) }
    {
        self.journal.push(Event::Passed { write, policy })?;
        Ok(())
    }

    /// A policy, of a class of this name, threw an exception of the class `by` in the write under way, in which it wasn't asked before. It was
    /// carried by the bytes from `from` to `to`, the end not included, of what should have left by a channel.
    pub fn denied(
        &mut self,
        write: u64,
        channel: Channel,
        policy: u32,
        class: Bytes,
        from: u64,
        to: u64,
        by: Bytes,
    ) -> Result<(), AllocError>
        requires may { MayAsk write policy self.old.journal self.old.writes }
        requires leaving { IsTrue (is_leaving channel) }
        requires range { from < to }
        requires names { IsName class × IsName by }
        ensures ok { OnOk result (self.new ≡ noted (JournalEvent.Denied write channel policy class from to by) self.old) }
        ensures err { OnErr result (self.new ≡ self.old) }
    {
        self.journal.push(Event::Denied {
            write,
            channel,
            policy,
            class,
            from,
            to,
            by,
        })?;
        Ok(())
    }

    /// A filter of a class of this name threw an exception of the class `by` in the write under way, when it was given a text of `len` bytes. No
    /// policy was asked before.
    pub fn filter_denied(
        &mut self,
        write: u64,
        channel: Channel,
        filter: u32,
        class: Bytes,
        len: u64,
        by: Bytes,
    ) -> Result<(), AllocError>
        requires way { IsOpen write [] self.old.journal self.old.writes }
        requires leaving { IsTrue (is_leaving channel) }
        requires names { IsName class × IsName by }
        ensures ok { OnOk result (self.new ≡ noted (JournalEvent.FilterDenied write channel filter class len by) self.old) }
        ensures err { OnErr result (self.new ≡ self.old) }
    {
        self.journal.push(Event::FilterDenied {
            write,
            channel,
            filter,
            class,
            len,
            by,
        })?;
        Ok(())
    }

    /// A filter of a class of this name threw an exception of the class `by` on a channel by which nothing leaves.
    pub fn filter_denied_outside(
        &mut self,
        channel: Channel,
        filter: u32,
        class: Bytes,
        len: u64,
        by: Bytes,
    ) -> Result<(), AllocError>
        requires kept { is_leaving channel ≡ false }
        requires names { IsName class × IsName by }
        ensures ok { OnOk result (self.new ≡ noted (JournalEvent.FilterDenied 0 channel filter class len by) self.old) }
        ensures err { OnErr result (self.new ≡ self.old) }
    {
        self.journal.push(Event::FilterDenied {
            write: 0,
            channel,
            filter,
            class,
            len,
            by,
        })?;
        Ok(())
    }

    /// A text goes out with the body: exactly its policies returned in the write under way. After want of memory the journal is as before.
    pub fn send_page(&mut self, write: u64, text: LText) -> Result<(), AllocError>
        requires { MaySend write text self.old.journal self.old.writes }
        ensures ok { OnOk result (self.new ≡ sent_page write text self.old) }
        ensures tied { OnOk result ((request : ℕ) → IsTied request self.old → IsTied request self.new) }
        ensures err { OnErr result ((self.new.journal ≡ self.old.journal) × (self.new.writes ≡ self.old.writes)) }
    {
        self.page.body.push_slice(text.bytes())?;
        self.journal.push(Event::Sent {
            write,
            channel: Channel::Http,
            text,
        })?;
        Ok(())
    }

    /// A header line goes out that sets this header, last, and where `replace` in the place of those of its name; `Location` sets the status to 302
    /// unless it is 201 or 300 to 399. Exactly the line's policies returned in the write under way. After want of memory the journal is as before.
    pub fn send_header(
        &mut self,
        alloc: Global,
        write: u64,
        text: LText,
        name: &[u8],
        value: &[u8],
        replace: bool,
    ) -> Result<(), AllocError>
        requires may { MaySend write text self.old.journal self.old.writes }
        requires line { header_line (bytes_of text) ≡ Some (record { name = name.now; value = value.now }) }
        ensures ok { OnOk result (self.new ≡ sent_header write text name.now value.now replace self.old) }
        ensures tied { OnOk result ((request : ℕ) → IsTied request self.old → IsTied request self.new) }
        ensures err { OnErr result ((self.new.journal ≡ self.old.journal) × (self.new.writes ≡ self.old.writes)) }
    {
        self.page.put_header(alloc, name, value, replace)?;
        self.journal.push(Event::Sent {
            write,
            channel: Channel::Header,
            text,
        })?;
        Ok(())
    }

    /// A status goes out, told by its decimal text: exactly the text's policies returned in the write under way. After want of memory the journal is
    /// as before.
    pub fn send_status(&mut self, write: u64, text: LText, status: u16) -> Result<(), AllocError>
        requires may { MaySend write text self.old.journal self.old.writes }
        requires told { bytes_of text ≡ decimal status }
        ensures ok { OnOk result (self.new ≡ sent_status write text status self.old) }
        ensures tied { OnOk result ((request : ℕ) → IsTied request self.old → IsTied request self.new) }
        ensures err { OnErr result (self.new ≡ self.old) }
    {
        self.journal.push(Event::Sent {
            write,
            channel: Channel::Header,
            text,
        })?;
        self.page.status = status;
        Ok(())
    }

    /// A mail goes out in the request of this number: exactly its policies returned in the write under way. After want of memory the journal is as
    /// before.
    pub fn send_mail(
        &mut self,
        alloc: Global,
        request: u64,
        write: u64,
        text: LText,
    ) -> Result<(), AllocError>
        requires { MaySend write text self.old.journal self.old.writes }
        ensures ok { OnOk result (self.new ≡ sent_mail request write text self.old) }
        ensures tied { OnOk result (IsTied request self.old → IsTied request self.new) }
        ensures err { OnErr result ((self.new.journal ≡ self.old.journal) × (self.new.writes ≡ self.old.writes)) }
    {
        let letter = mail_record(alloc, request, &text)?;
        self.page.mail.push_slice(letter.as_slice())?;
        self.journal.push(Event::Sent {
            write,
            channel: Channel::Email,
            text,
        })?;
        Ok(())
    }

    /// Opens an output buffer. After want of memory nothing is changed.
    pub fn open_buffer(&mut self, alloc: Global) -> Result<(), AllocError>
        ensures ok { OnOk result (self.new ≡ opened self.old) }
        ensures err { OnErr result (self.new ≡ self.old) }
    {
        self.buffers.open(alloc)
    }

    /// Closes the innermost output buffer, and gives its text; `None` exactly where none is open.
    pub fn close_buffer(&mut self) -> Option<Builder>
        ensures cases { MatchOption result (self.old.buffers ≡ []) (λ text. self.old.buffers ≡ self.new.buffers ++ text ∷ []) }
        ensures others { self.new ≡ record self.old { buffers = self.new.buffers } }
        ensures none { IfNone result (self.new ≡ self.old) }
    {
        self.buffers.close()
    }

    /// Puts a text into the innermost output buffer. One must be open. After want of memory that buffer may have lost its text.
    pub fn buffer(&mut self, alloc: Global, t: &LText) -> Result<(), TextFault>
        requires { 0 < length self.old.buffers }
        ensures joins { Joins t.now self.old.buffers result self.new.buffers }
        ensures others { self.new ≡ record self.old { buffers = self.new.buffers } }
    {
        self.buffers.append(alloc, t)
    }

    /// The status, the headers, the body, the mail and the journal. Open buffers are dropped. It takes no memory, so the headers come as they are
    /// kept: `into_list` gives their list.
    pub fn into_parts(self) -> (u16, Headers, Bytes, Bytes, Journal)
        ensures status { result.0 ≡ self.status }
        ensures headers { result.1 ≡ self.headers }
        ensures body { result.2 ≡ self.body }
        ensures mail { result.3 ≡ self.mail }
        ensures journal { result.4 ≡ self.journal }
        ensures law { IsLawful self.journal self.writes }
    {
        let Stage {
            journal,
            writes: _,
            page,
            buffers: _,
        } = self;
        let Page {
            status,
            headers,
            body,
            mail,
            buffers: _,
        } = page;
        (status, headers, body, mail, journal)
    }
}
