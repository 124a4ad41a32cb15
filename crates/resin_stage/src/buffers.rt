//! Output buffers.
ghost use Rattle.std.specs.Prelude.{◌≡◌, ◌<◌, ◌≤◌, ◌+◌, [], ◌∷◌, ◌++◌, length, MatchOption, OnOk, OnErr};
ghost use Rattle.resin_scope.specs.Pages.{innermost, appended_to_innermost};
ghost use Rattle.resin_stage.specs.Buffered.{Joined, Joins};

use resin_scope::under::lstr::{Builder, LONGEST, LText, TextFault};
use std::alloc::{AllocError, Global};
use std::marker::Model;
use std::mem;

/// The open output buffers, from the outermost to the innermost. Many small texts go into one in time in proportion to their bytes.
#[derive(Drop)]
pub(crate) struct Buffers {
    open: Vec<Builder>,
}

impl Model for Buffers {
    ghost use Rattle.std.specs.Prelude.{List};
    ghost use Rattle.std.specs.Coded.{coded_list};
    ghost use Rattle.resin_scope.specs.Under.lstr.Texts.{Text, text_code};

    ghost Value = { List Text };

    ghost coded = { coded_list text_code };

    ghost view = { λ b. b.open.items };
}

impl Buffers {
    pub(crate) fn new(alloc: Global) -> Buffers
        ensures { result ≡ [] }
    {
        Buffers {
            open: Vec::new(alloc),
        }
    }

    /// How many are open.
    pub(crate) fn len(&self) -> usize
        ensures { result ≡ length self.now }
    {
        self.open.len()
    }

    /// Opens one, which is empty.
    pub(crate) fn open(&mut self, alloc: Global) -> Result<(), AllocError>
        ensures ok { OnOk result (self.new ≡ self.old ++ [] ∷ []) }
        ensures err { OnErr result (self.new ≡ self.old) }
    {
        self.open.push(Builder::new(alloc))?;
        Ok(())
    }

    /// Closes the innermost, and gives its text.
    pub(crate) fn close(&mut self) -> Option<Builder>
        ensures { MatchOption result ((self.old ≡ []) × (self.new ≡ [])) (λ text. self.old ≡ self.new ++ text ∷ []) }
    {
        self.open.pop()
    }

    /// Puts a text into the innermost, of which one must be open.
    pub(crate) fn append(&mut self, alloc: Global, t: &LText) -> Result<(), TextFault>
        requires { 0 < length self.old }
        ensures { Joins t.now self.old result self.new }
    {
        let at = self.open.as_slice().len() - 1;
        let slot = &mut self.open[at];
        append_to(alloc, slot, t)
    }
}

// Puts a text behind another. After want of memory the other may be lost.
fn append_to(alloc: Global, slot: &mut Builder, t: &LText) -> Result<(), TextFault>
    ensures { Joined t.now slot.old result slot.new }
{
    if t.len() > LONGEST - slot.len() {
        return Err(TextFault::TooLong);
    }
    let text = mem::replace(slot, Builder::new(alloc));
    *slot = text.append(t)?;
    Ok(())
}
