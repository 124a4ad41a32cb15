//! Writes, output buffers, and what a request leaves.
ghost use Rattle.std.specs.Prelude.{◌≡◌, ◌<◌, [], length, decimal, Some, false, IfOk, IsTrue};
ghost use Rattle.resin_heap.specs.Under.scan.Words.{IsName};
ghost use Rattle.resin_heap.specs.Under.lstr.Texts.{bytes_of};
ghost use Rattle.resin_stage.specs.Under.journal.Channels.{is_leaving};
ghost use Rattle.resin_stage.specs.Lines.{header_line};
ghost use Rattle.resin_stage.specs.Writes.{IsLawful};
ghost use Rattle.resin_machine.specs.Steps.{Acts, ActsLoosely};
ghost use Rattle.resin_machine.specs.Leaving.{draw, class_name_of, pass, deny, deny_filter, send_page, send_header, send_status};
ghost use Rattle.resin_machine.specs.Leaving.{send_mail, IsUnderWay, MayAskNow, MaySendNow, open_buffer, close_buffer, buffer, text_stop};

use crate::machine::Machine;
use crate::stop::Stop;
use resin_heap::PreludeClass;
use resin_heap::under::bytes::Bytes;
use resin_heap::under::lstr::{LText, TextFault};
use resin_heap::under::scalar::ScriptFault;
use resin_stage::under::journal::{Channel, Journal};
use resin_stage::under::scope::Headers;
use std::alloc::{AllocError, Global};

/// What a request leaves when its scripts are done: its status, the headers that they set, its body, its mail, and its journal.
#[derive(Drop)]
pub struct Finished {
    pub status: u16,
    pub headers: Headers,
    pub body: Bytes,
    pub mail: Bytes,
    pub journal: Journal,
}

// What a text that can't be made means at a line.
fn text_stop(fault: TextFault, line: u32) -> Stop
    ensures { result ≡ text_stop fault line }
{
    match fault {
        TextFault::TooLong => Stop::Fault(ScriptFault::TextTooLong, line),
        TextFault::Memory => Stop::Memory,
    }
}

// A copy of a name.
fn copied(alloc: Global, name: &[u8]) -> Result<Bytes, AllocError>
    ensures { IfOk result (λ bytes. bytes ≡ name.now) }
{
    Bytes::from_slice(alloc, name)
}

impl Machine {
    /// The name of the class of an object, as it was declared. Where there is no such object it is `Throwable`, of which none is made.
    pub fn name_of(&self, o: u32) -> &[u8]
        ensures value { result.now ≡ class_name_of o self.now }
        ensures name { IsName result.now }
    {
        if o == 0 || o > self.heap.len() {
            return PreludeClass::Throwable.name().as_bytes();
        }
        let class = self.heap.class_of(o);
        if class >= self.classes.len() {
            return PreludeClass::Throwable.name().as_bytes();
        }
        self.classes.class_name(class)
    }

    /// Draws the number of a write that begins. ChannelInCheck comes exactly where a check runs, else FuelSpent where no number is left.
    pub fn draw(&mut self) -> Result<u64, Stop>
        ensures acts { Acts draw self.old result self.new }
        ensures begun { IfOk result (λ w. IsUnderWay w [] self.new) }
    {
        if self.checking {
            return Err(Stop::Fault(ScriptFault::ChannelInCheck, self.line));
        }
        let write = match self.stage.draw() {
            Some(write) => write,
            None => return Err(Stop::Fault(ScriptFault::FuelSpent, self.line)),
        };
        Ok(write)
    }

    /// A policy returned in the write under way, in which it wasn't asked before.
    pub fn pass(&mut self, write: u64, policy: u32) -> Result<(), Stop>
        requires { MayAskNow write policy self.old }
        ensures acts { Acts (pass write policy) self.old result self.new }
    {
        self.stage.passed(write, policy)?;
        Ok(())
    }

    /// A policy threw an exception in the write under way, in which it wasn't asked before. It was carried by the bytes from `from` to `to`, the end
    /// not included, of what should have left.
    pub fn deny(
        &mut self,
        write: u64,
        channel: Channel,
        policy: u32,
        from: u64,
        to: u64,
        thrown: u32,
    ) -> Result<(), Stop>
        requires may { MayAskNow write policy self.old }
        requires leaving { IsTrue (is_leaving channel) }
        requires range { from < to }
        ensures acts { Acts (deny write channel policy from to thrown) self.old result self.new }
    {
        let class = copied(self.alloc, self.name_of(policy))?;
        let by = copied(self.alloc, self.name_of(thrown))?;
        self.stage
            .denied(write, channel, policy, class, from, to, by)?;
        Ok(())
    }

    /// A filter threw an exception in the write under way, before any policy was asked, when it was given a text of so many bytes.
    pub fn deny_filter(
        &mut self,
        write: u64,
        channel: Channel,
        filter: u32,
        len: u64,
        thrown: u32,
    ) -> Result<(), Stop>
        requires way { IsUnderWay write [] self.old }
        requires leaving { IsTrue (is_leaving channel) }
        ensures acts { Acts (deny_filter write channel filter len thrown) self.old result self.new }
    {
        let class = copied(self.alloc, self.name_of(filter))?;
        let by = copied(self.alloc, self.name_of(thrown))?;
        self.stage
            .filter_denied(write, channel, filter, class, len, by)?;
        Ok(())
    }

    /// A filter threw an exception on a channel by which nothing leaves, when it was given a text of so many bytes.
    pub fn deny_filter_outside(
        &mut self,
        channel: Channel,
        filter: u32,
        len: u64,
        thrown: u32,
    ) -> Result<(), Stop>
        requires { is_leaving channel ≡ false }
        ensures acts { Acts (deny_filter 0 channel filter len thrown) self.old result self.new }
    {
        let class = copied(self.alloc, self.name_of(filter))?;
        let by = copied(self.alloc, self.name_of(thrown))?;
        self.stage
            .filter_denied_outside(channel, filter, class, len, by)?;
        Ok(())
    }

    /// A text goes out with the body: exactly its policies returned in the write under way.
    pub fn send_page(&mut self, write: u64, text: LText) -> Result<(), Stop>
        requires { MaySendNow write text self.old }
        ensures acts { ActsLoosely (send_page write text) self.old result self.new }
    {
        self.stage.send_page(write, text)?;
        Ok(())
    }

    /// A header line goes out: exactly its policies returned in the write under way, and it sets this header.
    pub fn send_header(
        &mut self,
        write: u64,
        text: LText,
        name: &[u8],
        value: &[u8],
        replace: bool,
    ) -> Result<(), Stop>
        requires may { MaySendNow write text self.old }
        requires line { header_line (bytes_of text) ≡ Some (record { name = name.now; value = value.now }) }
        ensures acts { ActsLoosely (send_header write text name.now value.now replace) self.old result self.new }
    {
        let alloc = self.alloc;
        self.stage
            .send_header(alloc, write, text, name, value, replace)?;
        Ok(())
    }

    /// A status goes out, told by its decimal text: exactly the text's policies returned in the write under way.
    pub fn send_status(&mut self, write: u64, text: LText, status: u16) -> Result<(), Stop>
        requires may { MaySendNow write text self.old }
        requires told { bytes_of text ≡ decimal status }
        ensures acts { Acts (send_status write text status) self.old result self.new }
    {
        self.stage.send_status(write, text, status)?;
        Ok(())
    }

    /// A mail goes out: exactly its policies returned in the write under way.
    pub fn send_mail(&mut self, write: u64, text: LText) -> Result<(), Stop>
        requires { MaySendNow write text self.old }
        ensures acts { ActsLoosely (send_mail write text) self.old result self.new }
    {
        let alloc = self.alloc;
        self.stage.send_mail(alloc, self.request, write, text)?;
        Ok(())
    }

    /// Opens an output buffer.
    pub fn open_buffer(&mut self) -> Result<(), Stop>
        ensures acts { Acts open_buffer self.old result self.new }
    {
        let alloc = self.alloc;
        self.stage.open_buffer(alloc)?;
        Ok(())
    }

    /// Closes the innermost output buffer, and gives its text; `None` exactly where none is open.
    pub fn close_buffer(&mut self) -> Result<Option<LText>, Stop>
        ensures acts { ActsLoosely close_buffer self.old result self.new }
    {
        let text = match self.stage.close_buffer() {
            Some(text) => text,
            None => return Ok(None),
        };
        Ok(Some(text.finish()?))
    }

    /// Puts a text into the innermost output buffer, of which one must be open. TextTooLong comes exactly where that buffer would pass 16,777,216
    /// bytes.
    pub fn buffer(&mut self, text: &LText) -> Result<(), Stop>
        requires { 0 < length self.old.stage.buffers }
        ensures acts { ActsLoosely (buffer text.now) self.old result self.new }
    {
        let alloc = self.alloc;
        match self.stage.buffer(alloc, text) {
            Ok(()) => {}
            Err(fault) => return Err(text_stop(fault, self.line)),
        }
        Ok(())
    }

    /// What the request leaves. Open buffers are dropped. It takes no memory.
    pub fn finish(self) -> Finished
        ensures status { result.status ≡ self.stage.status }
        ensures headers { result.headers ≡ self.stage.headers }
        ensures body { result.body ≡ self.stage.body }
        ensures mail { result.mail ≡ self.stage.mail }
        ensures journal { result.journal ≡ self.stage.journal }
        ensures law { IsLawful self.stage.journal self.stage.writes }
    {
        let Machine {
            alloc: _,
            scopes: _,
            running: _,
            functions: _,
            classes: _,
            heap: _,
            chains: _,
            stage,
            imported: _,
            inputs: _,
            session: _,
            ticks: _,
            checking: _,
            line: _,
            request: _,
        } = self;
        let (status, headers, body, mail, journal) = stage.into_parts();
        Finished {
            status,
            headers,
            body,
            mail,
            journal,
        }
    }
}
