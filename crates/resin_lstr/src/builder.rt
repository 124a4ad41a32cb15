//! Texts made piece by piece.
ghost use Rattle.std.specs.Prelude.{◌≡◌, ◌==◌, ℕ, ◌+◌, ◌-◌, ◌≤◌, ◌++◌, [], length, take, drop, slice_range, IfOk};
ghost use Rattle.resin_lstr.specs.Texts.{carrying};
ghost use Rattle.resin_lstr.specs.Tables.{replacement};
ghost use Rattle.resin_lstr.specs.Faults.{GivesText};
ghost use Rattle.std.specs.List.{flat_map};

use crate::body::TextBody;
use crate::kept_bytes::KeptBytes;
use crate::kept_runs::KeptRuns;
use crate::limits::LONGEST;
use crate::runs::{append_runs, push_run};
use crate::table::ByteTable;
use crate::text::{LText, Run, TextFault};
use resin_label::PSet;
use std::alloc::{AllocError, Global};
use std::marker::Model;

/// A labelled text under way. Joining many pieces takes time in proportion to the bytes and runs of the pieces. A call that
/// fails drops what was made so far; the pieces stay as they were.
#[derive(Drop)]
pub struct Builder {
    bytes: Vec<u8>,
    runs: Vec<Run>,
}

impl Model for Builder {
    ghost use Rattle.std.specs.Prelude.{length};
    ghost use Rattle.resin_lstr.specs.Texts.{Text, text_code};

    ghost Value = { Text };

    ghost coded = { text_code };

    ghost use Rattle.resin_lstr.specs.Runs.{text_of, AreRunsOf};

    ghost view = { λ a. text_of a.bytes.items a.runs.items };

    ghost invariant = { λ a. AreRunsOf (length a.bytes.items) a.runs.items };
}

impl Builder {
    /// The empty text, which takes no memory.
    pub fn new(alloc: Global) -> Builder
        ensures { result ≡ [] }
    {
        Builder {
            bytes: Vec::new(alloc),
            runs: Vec::new(alloc),
        }
    }

    /// The number of bytes so far, at most 16,777,216.
    pub fn len(&self) -> usize
        ensures value { result ≡ length self.now }
        ensures short { result ≤ LONGEST }
    {
        self.bytes.len()
    }

    /// Whether there is no byte yet.
    pub fn is_empty(&self) -> bool
        ensures { result ≡ (length self.now == 0) }
    {
        self.len() == 0
    }

    /// Puts `t` last. `TooLong` comes where the text would pass 16,777,216 bytes.
    pub fn append(self, t: &LText) -> Result<Builder, TextFault>
        ensures { GivesText result (self ++ t.now) }
    {
        self.append_part(t, 0, t.len())
    }

    /// Puts the bytes of `t` from `from` to `to` last, each with its set. `TooLong` comes where the text would pass
    /// 16,777,216 bytes.
    pub fn append_part(self, t: &LText, from: usize, to: usize) -> Result<Builder, TextFault>
        requires ordered { from ≤ to }
        requires within { to ≤ length t.now }
        ensures { GivesText result (self ++ slice_range t.now from to) }
    {
        if to - from > LONGEST - self.len() {
            return Err(TextFault::TooLong);
        }
        Ok(self.add_part(t.body(), from, to)?)
    }

    /// Puts `bytes` last, each with the set `set`. `TooLong` comes where the text would pass 16,777,216 bytes.
    pub fn append_bytes(self, bytes: &[u8], set: &PSet) -> Result<Builder, TextFault>
        ensures { GivesText result (self ++ carrying set.now bytes.now) }
    {
        if bytes.len() > LONGEST - self.len() {
            return Err(TextFault::TooLong);
        }
        Ok(self.add_bytes(bytes, set)?)
    }

    // The same where there is room.
    pub(crate) fn add_part(
        self,
        t: &TextBody,
        from: usize,
        to: usize,
    ) -> Result<Builder, AllocError>
        requires ordered { from ≤ to }
        requires within { to ≤ length t.now }
        requires short { length self + (to - from) ≤ LONGEST }
        ensures { IfOk result (λ b. b ≡ self ++ slice_range t.now from to) }
    {
        let _len = t.len();
        let Builder {
            mut bytes,
            mut runs,
        } = self;
        append_runs(&mut runs, t.runs.as_slice(), from as u32, to as u32)?;
        bytes.extend_from_slice(&t.bytes.as_slice()[from..to])?;
        Ok(Builder { bytes, runs })
    }

    pub(crate) fn add_bytes(self, b: &[u8], set: &PSet) -> Result<Builder, AllocError>
        requires { length self + length b.now ≤ LONGEST }
        ensures { IfOk result (λ t. t ≡ self ++ carrying set.now b.now) }
    {
        let Builder {
            mut bytes,
            mut runs,
        } = self;
        bytes.extend_from_slice(b)?;
        push_run(&mut runs, bytes.len() as u32, set.clone()?)?;
        Ok(Builder { bytes, runs })
    }

    // Puts what replaces each byte of `b` last, with the set `set`.
    pub(crate) fn append_replaced(
        self,
        b: &[u8],
        table: &ByteTable,
        set: &PSet,
    ) -> Result<Builder, TextFault>
        ensures { GivesText result (self ++ carrying set.now (flat_map (replacement table.now) b.now)) }
    {
        let Builder {
            mut bytes,
            mut runs,
        } = self;
        table.push_rows(&mut bytes, b)?;
        push_run(&mut runs, bytes.len() as u32, set.clone()?)?;
        Ok(Builder { bytes, runs })
    }

    /// The text.
    pub fn finish(self) -> Result<LText, AllocError>
        ensures { IfOk result (λ t. t ≡ self) }
    {
        let alloc = *self.bytes.allocator();
        LText::of(alloc, self.body()?)
    }

    // What its copies share.
    fn body(self) -> Result<TextBody, AllocError>
        ensures { IfOk result (λ t. t ≡ self) }
    {
        let Builder { bytes, runs } = self;
        let bytes = KeptBytes::from_vec(bytes)?;
        let runs = KeptRuns::from_vec(runs)?;
        Ok(TextBody { bytes, runs })
    }
}
