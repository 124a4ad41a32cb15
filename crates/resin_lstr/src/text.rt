//! Labelled texts.
ghost use Rattle.std.specs.Prelude.{◌≡◌, ◌==◌, ℕ, ◌+◌, ◌<◌, ◌≤◌, ◌++◌, length, slice_index, slice_index_or, slice_range, ◌↔◌, Err, IfOk, OnOk, OnErr};
ghost use Rattle.std.specs.List.{zip};
ghost use Rattle.std.specs.Rc.{rc_slice_items};
ghost use Rattle.resin_label.specs.Sets.{empty};
ghost use Rattle.resin_lstr.specs.Texts.{bytes_of, sets_of, carrying, marked, unmarked, mapped, with_parts};
ghost use Rattle.resin_lstr.specs.Texts.{ArePartsFrom, distinct_sets, policies_in_order, first_run};
ghost use Rattle.resin_lstr.specs.Tables.{replaced};
ghost use Rattle.resin_lstr.specs.Faults.{GivesText};

use crate::body::TextBody;
use crate::builder::Builder;
use crate::limits::LONGEST;
use crate::lists::{Numbers, Parts, Sets};
use crate::table::ByteTable;
use resin_label::PSet;
use std::alloc::{AllocError, Global};
use std::marker::Model;
use std::rc::{Rc, RcSlice};

/// Why a call gives no text.
#[derive(Clone, Copy, Debug, PartialEq, Eq)]
pub enum TextFault {
    /// The text would be longer than 16,777,216 bytes.
    TooLong,
    /// Memory ran out.
    Memory,
}

impl From<AllocError> for TextFault {
    ghost use Rattle.resin_lstr.specs.declared.text.TextFault.{TextFault};

    ghost from_gives = { λ _ fault. fault ≡ TextFault.Memory };

    fn from(_error: AllocError) -> TextFault {
        TextFault::Memory
    }
}

/// The bytes up to `end`, not included, which have one set.
#[derive(Drop)]
pub struct Run {
    pub end: u32,
    pub set: PSet,
}

impl Clone for Run {
    ghost is_clone = { λ r copy. copy ≡ r };

    fn clone(&self) -> Result<Run, AllocError> {
        let set = self.set.clone()?;
        Ok(Run { end: self.end, set })
    }
}

/// A text whose bytes carry sets of policy numbers, at most 16,777,216 bytes long. The ends of its runs rise, the last is
/// the length, and neighbouring runs differ in their sets; the empty text has no run. Copies of a text share its bytes and
/// its runs. A value of a script holds one pointer of it, so that values stay small on the stack.
pub struct LText {
    body: Rc<TextBody>,
}

impl Drop for LText {
    fn drop(self) {
        let LText { body: _ } = self;
    }
}

impl Model for LText {
    ghost use Rattle.resin_lstr.specs.Texts.{Text, text_code};

    ghost Value = { Text };

    ghost coded = { text_code };

    ghost view = { λ a. a.body.value };
}

impl LText {
    ghost use Rattle.resin_lstr.specs.Runs.{AreRunsOf, IsLeastCount, spell};

    // The text with this body.
    pub(crate) fn of(alloc: Global, body: TextBody) -> Result<LText, AllocError>
        ensures { IfOk result (λ t. t ≡ body) }
    {
        Ok(LText {
            body: Rc::new(alloc, body)?,
        })
    }

    // What copies of the text share.
    pub(crate) fn body(&self) -> &TextBody
        ensures { result.now ≡ self.now }
    {
        self.body.as_ref()
    }

    /// Each byte of `b` with the empty set. `TooLong` comes where `b` passes 16,777,216 bytes.
    pub fn plain(alloc: Global, b: &[u8]) -> Result<LText, TextFault>
        ensures { GivesText result (carrying empty b.now) }
    {
        LText::with_set(alloc, b, &PSet::empty())
    }

    /// Each byte of `b` with the set `s`. `TooLong` comes where `b` passes 16,777,216 bytes.
    pub fn with_set(alloc: Global, b: &[u8], s: &PSet) -> Result<LText, TextFault>
        ensures { GivesText result (carrying s.now b.now) }
    {
        let body = TextBody::with_set(alloc, b, s)?;
        Ok(LText::of(alloc, body)?)
    }

    /// Each of the bytes with the empty set. They are shared, not copied. `TooLong` comes where they pass 16,777,216.
    pub fn shared(alloc: Global, bytes: RcSlice<u8>) -> Result<LText, TextFault>
        ensures { GivesText result (carrying empty (rc_slice_items bytes)) }
    {
        let body = TextBody::shared(bytes)?;
        Ok(LText::of(alloc, body)?)
    }

    /// The number of bytes, at most 16,777,216.
    pub fn len(&self) -> usize
        ensures value { result ≡ length self.now }
        ensures short { result ≤ LONGEST }
    {
        self.body().len()
    }

    /// Whether there is no byte.
    pub fn is_empty(&self) -> bool
        ensures { result ≡ (length self.now == 0) }
    {
        self.len() == 0
    }

    /// The bytes.
    pub fn bytes(&self) -> &[u8]
        ensures { result.now ≡ bytes_of self.now }
    {
        self.body().bytes()
    }

    /// The runs: the sets of the bytes, each up to its end.
    pub fn runs(&self) -> &[Run]
        ensures runs { AreRunsOf (length self.now) result.now }
        ensures spelled { spell 0 result.now ≡ sets_of self.now }
        ensures least { IsLeastCount (sets_of self.now) (length result.now) }
    {
        self.body().runs()
    }

    /// The byte at `i`.
    pub fn byte_at(&self, i: usize) -> u8
        requires { i < length self.now }
        ensures { result ≡ slice_index (bytes_of self.now) i }
    {
        self.body().byte_at(i)
    }

    /// The set of the byte at `i`.
    pub fn set_at(&self, i: usize) -> &PSet
        requires { i < length self.now }
        ensures { result.now ≡ slice_index_or (sets_of self.now) i empty }
    {
        self.body().set_at(i)
    }

    /// This text and `o` joined. `TooLong` comes where it would pass 16,777,216 bytes.
    pub fn concat(&self, alloc: Global, o: &LText) -> Result<LText, TextFault>
        ensures { GivesText result (self.now ++ o.now) }
    {
        let body = self.body().concat(alloc, o.body())?;
        Ok(LText::of(alloc, body)?)
    }

    /// Puts `o` last. Where no one else holds this text, and it grew or was joined before, its bytes and runs grow in place. `TooLong` comes exactly
    /// where the text would pass 16,777,216 bytes. A refusal changes nothing; clones of the text keep what they hold.
    pub fn append(&mut self, alloc: Global, o: &LText) -> Result<(), TextFault>
        ensures ok { OnOk result (self.new ≡ self.old ++ o.now) }
        ensures too_long { (result ≡ Err TextFault.TooLong) ↔ (LONGEST < length (self.old ++ o.now)) }
        ensures err { OnErr result (self.new ≡ self.old) }
    {
        if o.len() > LONGEST - self.len() {
            return Err(TextFault::TooLong);
        }
        self.extend(alloc, o)?;
        Ok(())
    }

    // The same where there is room.
    fn extend(&mut self, alloc: Global, o: &LText) -> Result<(), AllocError>
        requires { length self.old + length o.now ≤ LONGEST }
        ensures ok { OnOk result (self.new ≡ self.old ++ o.now) }
        ensures err { OnErr result (self.new ≡ self.old) }
    {
        if o.is_empty() {
            return Ok(());
        }
        if self.is_empty() {
            *self = o.clone()?;
            return Ok(());
        }
        let body = Rc::make_mut(&mut self.body)?;
        body.put_last(alloc, o.body())
    }

    /// The bytes from `from` to `to`, the latter not included, each with its set.
    pub fn slice(&self, alloc: Global, from: usize, to: usize) -> Result<LText, AllocError>
        requires ordered { from ≤ to }
        requires within { to ≤ length self.now }
        ensures { IfOk result (λ t. t ≡ slice_range self.now from to) }
    {
        let _len = self.len();
        let out = Builder::new(alloc).add_part(self.body(), from, to)?;
        out.finish()
    }

    /// The text with `n` in every set.
    pub fn mark(&self, alloc: Global, n: u32) -> Result<LText, AllocError>
        ensures { IfOk result (λ t. t ≡ marked n self.now) }
    {
        LText::of(alloc, self.body().mark(alloc, n)?)
    }

    /// The text with `n` in no set.
    pub fn unmark(&self, alloc: Global, n: u32) -> Result<LText, AllocError>
        ensures { IfOk result (λ t. t ≡ unmarked n self.now) }
    {
        LText::of(alloc, self.body().unmark(alloc, n)?)
    }

    /// Each byte as the table has it at its place, with its set.
    pub fn map_bytes(&self, alloc: Global, table: &[u8; 256]) -> Result<LText, AllocError>
        ensures { IfOk result (λ t. t ≡ mapped table.now self.now) }
    {
        LText::of(alloc, self.body().map_bytes(alloc, table)?)
    }

    /// Other bytes, each with the set at its place. The runs are shared.
    pub fn with_bytes(&self, alloc: Global, bytes: Vec<u8>) -> Result<LText, AllocError>
        requires { length bytes.items ≡ length self.now }
        ensures { IfOk result (λ t. t ≡ zip bytes.items (sets_of self.now)) }
    {
        LText::of(alloc, self.body().with_bytes(bytes)?)
    }

    /// Each byte as its bytes in the table, all with its set. `TooLong` comes where the text would pass 16,777,216 bytes.
    pub fn replace_bytes(&self, alloc: Global, table: &ByteTable) -> Result<LText, TextFault>
        ensures { GivesText result (replaced table.now self.now) }
    {
        let out = self.body().replace_bytes(alloc, table)?;
        Ok(out.finish()?)
    }

    /// The text with `with` in the place of each part. The parts must follow one another within the text, as starts and
    /// ends, an end not included. `TooLong` comes where the text would pass 16,777,216 bytes.
    pub fn replace_parts(
        &self,
        alloc: Global,
        parts: &Parts,
        with: &LText,
    ) -> Result<LText, TextFault>
        requires { ArePartsFrom 0 parts.now (length self.now) }
        ensures { GivesText result (with_parts 0 parts.now with.now self.now) }
    {
        let mut out = Builder::new(alloc);
        let mut from = 0;
        for (start, end) in parts.as_slice() {
            out = out.append_part(self, from, *start)?.append(with)?;
            from = *end;
        }
        let out = out.append_part(self, from, self.len())?;
        Ok(out.finish()?)
    }

    /// The sets of the text, each once, in order of first occurrence.
    pub fn distinct_sets(&self, alloc: Global) -> Result<Sets, AllocError>
        ensures { IfOk result (λ sets. sets ≡ distinct_sets self.now) }
    {
        self.body().distinct_sets(alloc)
    }

    /// The policies of the text, each once, by the first byte that carries them and then by number.
    pub fn policies_in_order(&self, alloc: Global) -> Result<Numbers, AllocError>
        ensures { IfOk result (λ list. list ≡ policies_in_order self.now) }
    {
        self.body().policies_in_order(alloc)
    }

    /// The first maximal range of bytes that carry `n`, as its start and its end, which is not included. `None` where no
    /// byte carries `n`.
    pub fn first_run_of(&self, n: u32) -> Option<(usize, usize)>
        ensures { result ≡ first_run n self.now }
    {
        self.body().first_run_of(n)
    }

    /// The number of runs: the least number of runs of equal sets that spells the text.
    pub fn run_count(&self) -> usize
        ensures { IsLeastCount (sets_of self.now) result }
    {
        self.body().run_count()
    }
}

impl Clone for LText {
    ghost is_clone = { λ s copy. copy ≡ s };

    fn clone(&self) -> Result<LText, AllocError> {
        let body = self.body.clone()?;
        Ok(LText { body })
    }
}
