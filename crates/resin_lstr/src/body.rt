//! What copies of a text share.
ghost use Rattle.std.specs.Prelude.{◌≡◌, ◌==◌, ℕ, ◌-◌, ◌<◌, ◌≤◌, ◌++◌, length, map, slice_index};
ghost use Rattle.std.specs.Prelude.{slice_index_or, slice_range, ◌+◌, ◌↔◌, Err, IfOk, OnOk, OnErr};
ghost use Rattle.std.specs.List.{zip};
ghost use Rattle.std.specs.Rc.{rc_slice_items};
ghost use Rattle.resin_label.specs.Sets.{empty};
ghost use Rattle.resin_lstr.specs.Texts.{bytes_of, sets_of, carrying, marked, unmarked, mapped, with_parts};
ghost use Rattle.resin_lstr.specs.Texts.{ArePartsFrom, distinct_sets, policies_in_order, first_run};
ghost use Rattle.resin_lstr.specs.Tables.{replaced};
ghost use Rattle.resin_lstr.specs.Faults.{GivesText};

use crate::builder::Builder;
use crate::kept_bytes::KeptBytes;
use crate::kept_runs::KeptRuns;
use crate::limits::LONGEST;
use crate::lists::{Numbers, Sets};
use crate::replace::replace_each;
use crate::runs::{numbers_once, range_holding, run_at, runs_with, runs_without, sets_once};
use crate::table::ByteTable;
use crate::text::{Run, TextFault};
use resin_label::PSet;
use std::alloc::{AllocError, Global};
use std::marker::Model;
use std::rc::RcSlice;

// The bytes of a text and their sets, which copies of the text share.
#[derive(Drop)]
pub(crate) struct TextBody {
    pub(crate) bytes: KeptBytes,
    pub(crate) runs: KeptRuns,
}

impl Model for TextBody {
    ghost use Rattle.std.specs.Prelude.{length};
    ghost use Rattle.resin_lstr.specs.Texts.{Text, text_code};

    ghost Value = { Text };

    ghost coded = { text_code };

    ghost use Rattle.resin_lstr.specs.Runs.{text_of, AreRunsOf};

    ghost view = { λ a. text_of a.bytes a.runs };

    ghost invariant = { λ a. AreRunsOf (length a.bytes) a.runs };
}

impl TextBody {
    ghost use Rattle.resin_lstr.specs.Runs.{AreRunsOf, IsLeastCount, spell};

    // Each byte of `b` with the set `s`. `TooLong` comes where `b` passes 16,777,216 bytes.
    pub(crate) fn with_set(alloc: Global, b: &[u8], s: &PSet) -> Result<TextBody, TextFault>
        ensures { GivesText result (carrying s.now b.now) }
    {
        if b.len() > LONGEST {
            return Err(TextFault::TooLong);
        }
        let runs = KeptRuns::of_one_set(b.len() as u32, s)?;
        let bytes = KeptBytes::from_slice(alloc, b)?;
        Ok(TextBody { bytes, runs })
    }

    // Each of the bytes with the empty set. They are shared, not copied. `TooLong` comes where they pass 16,777,216.
    pub(crate) fn shared(bytes: RcSlice<u8>) -> Result<TextBody, TextFault>
        ensures { GivesText result (carrying empty (rc_slice_items bytes)) }
    {
        if bytes.len() > LONGEST {
            return Err(TextFault::TooLong);
        }
        let runs = KeptRuns::of_one_set(bytes.len() as u32, &PSet::empty())?;
        let bytes = KeptBytes::shared(bytes);
        Ok(TextBody { bytes, runs })
    }

    // The number of bytes, at most 16,777,216.
    pub(crate) fn len(&self) -> usize
        ensures value { result ≡ length self.now }
        ensures short { result ≤ LONGEST }
    {
        self.bytes.as_slice().len()
    }

    // Whether there is no byte.
    pub(crate) fn is_empty(&self) -> bool
        ensures { result ≡ (length self.now == 0) }
    {
        self.len() == 0
    }

    // The bytes.
    pub(crate) fn bytes(&self) -> &[u8]
        ensures { result.now ≡ bytes_of self.now }
    {
        self.bytes.as_slice()
    }

    // The runs: the sets of the bytes, each up to its end.
    pub(crate) fn runs(&self) -> &[Run]
        ensures runs { AreRunsOf (length self.now) result.now }
        ensures spelled { spell 0 result.now ≡ sets_of self.now }
        ensures least { IsLeastCount (sets_of self.now) (length result.now) }
    {
        self.runs.as_slice()
    }

    // The byte at `i`.
    pub(crate) fn byte_at(&self, i: usize) -> u8
        requires { i < length self.now }
        ensures { result ≡ slice_index (bytes_of self.now) i }
    {
        let _len = self.len();
        self.bytes.as_slice()[i]
    }

    // The set of the byte at `i`.
    pub(crate) fn set_at(&self, i: usize) -> &PSet
        requires { i < length self.now }
        ensures { result.now ≡ slice_index_or (sets_of self.now) i empty }
    {
        let _len = self.len();
        let runs = self.runs.as_slice();
        let k = run_at(runs, i as u32);
        &runs[k].set
    }

    // This text and `o` joined. `TooLong` comes where it would pass 16,777,216 bytes.
    pub(crate) fn concat(&self, alloc: Global, o: &TextBody) -> Result<TextBody, TextFault>
        ensures { GivesText result (self.now ++ o.now) }
    {
        if o.len() > LONGEST - self.len() {
            return Err(TextFault::TooLong);
        }
        Ok(self.joined(alloc, o)?)
    }

    // The same where there is room.
    fn joined(&self, alloc: Global, o: &TextBody) -> Result<TextBody, AllocError>
        requires { length self.now + length o.now ≤ LONGEST }
        ensures { IfOk result (λ t. t ≡ self.now ++ o.now) }
    {
        let bytes = KeptBytes::joined(alloc, self.bytes.as_slice(), o.bytes.as_slice())?;
        let mut runs = self.runs.clone()?;
        runs.append(alloc, o.runs.as_slice())?;
        Ok(TextBody { bytes, runs })
    }

    // Puts `o` last, in place where the bytes grew or were joined before.
    pub(crate) fn put_last(&mut self, alloc: Global, o: &TextBody) -> Result<(), AllocError>
        requires { length self.old + length o.now ≤ LONGEST }
        ensures ok { OnOk result (self.new ≡ self.old ++ o.now) }
        ensures err { OnErr result (self.new ≡ self.old) }
    {
        let TextBody { bytes, runs } = self;
        bytes.append(alloc, o.bytes.as_slice(), runs, o.runs.as_slice())?;
        Ok(())
    }

    // The text with `n` in every set.
    pub(crate) fn mark(&self, alloc: Global, n: u32) -> Result<TextBody, AllocError>
        ensures { IfOk result (λ t. t ≡ marked n self.now) }
    {
        let bytes = self.bytes.clone()?;
        let runs = runs_with(alloc, self.runs.as_slice(), n)?;
        let runs = KeptRuns::from_vec(runs)?;
        Ok(TextBody { bytes, runs })
    }

    // The text with `n` in no set.
    pub(crate) fn unmark(&self, alloc: Global, n: u32) -> Result<TextBody, AllocError>
        ensures { IfOk result (λ t. t ≡ unmarked n self.now) }
    {
        let bytes = self.bytes.clone()?;
        let runs = runs_without(alloc, self.runs.as_slice(), n)?;
        let runs = KeptRuns::from_vec(runs)?;
        Ok(TextBody { bytes, runs })
    }

    // Each byte as the table has it at its place, with its set.
    pub(crate) fn map_bytes(&self, alloc: Global, table: &[u8; 256]) -> Result<TextBody, AllocError>
        ensures { IfOk result (λ t. t ≡ mapped table.now self.now) }
    {
        let _len = self.len();
        self.with_bytes(by_table(alloc, self.bytes.as_slice(), table)?)
    }

    // Other bytes, each with the set at its place. The runs are shared.
    pub(crate) fn with_bytes(&self, bytes: Vec<u8>) -> Result<TextBody, AllocError>
        requires { length bytes.items ≡ length self.now }
        ensures { IfOk result (λ t. t ≡ zip bytes.items (sets_of self.now)) }
    {
        let bytes = KeptBytes::from_vec(bytes)?;
        let runs = self.runs.clone()?;
        Ok(TextBody { bytes, runs })
    }

    // Each byte as its bytes in the table, all with its set. `TooLong` comes where the text would pass 16,777,216 bytes.
    pub(crate) fn replace_bytes(
        &self,
        alloc: Global,
        table: &ByteTable,
    ) -> Result<Builder, TextFault>
        ensures { GivesText result (replaced table.now self.now) }
    {
        replace_each(alloc, self.bytes.as_slice(), self.runs.as_slice(), table)
    }

    // The sets of the text, each once, in order of first occurrence.
    pub(crate) fn distinct_sets(&self, alloc: Global) -> Result<Sets, AllocError>
        ensures { IfOk result (λ sets. sets ≡ distinct_sets self.now) }
    {
        sets_once(alloc, self.runs.as_slice())
    }

    // The policies of the text, each once, by the first byte that carries them and then by number.
    pub(crate) fn policies_in_order(&self, alloc: Global) -> Result<Numbers, AllocError>
        ensures { IfOk result (λ list. list ≡ policies_in_order self.now) }
    {
        numbers_once(alloc, self.runs.as_slice())
    }

    // The first maximal range of bytes that carry `n`, as its start and its end, which is not included. `None` where no
    // byte carries `n`.
    pub(crate) fn first_run_of(&self, n: u32) -> Option<(usize, usize)>
        ensures { result ≡ first_run n self.now }
    {
        range_holding(self.runs.as_slice(), n)
    }

    // The number of runs: the least number of runs of equal sets that spells the text.
    pub(crate) fn run_count(&self) -> usize
        ensures { IsLeastCount (sets_of self.now) result }
    {
        self.runs.as_slice().len()
    }
}

// Each byte as the table has it at its place.
fn by_table(alloc: Global, bytes: &[u8], table: &[u8; 256]) -> Result<Vec<u8>, AllocError>
    ensures { IfOk result (λ v. v.items ≡ map (λ b. slice_index table.now b) bytes.now) }
{
    bytes.iter().map(|b| table[*b as usize]).collect(alloc)
}

impl Clone for TextBody {
    ghost is_clone = { λ s copy. copy ≡ s };

    fn clone(&self) -> Result<TextBody, AllocError> {
        let bytes = self.bytes.clone()?;
        let runs = self.runs.clone()?;
        Ok(TextBody { bytes, runs })
    }
}
