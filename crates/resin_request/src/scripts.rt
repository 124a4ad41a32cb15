//! Source texts that ran lately, with the programs that they mean.
ghost use Rattle.std.specs.Prelude.{◌≡◌, ◌≤◌, ◌∷◌, [], length, IfOk, IfSome};
ghost use Rattle.std.specs.Cmp.{on_equiv, partial_equiv_from_equiv};
ghost use Rattle.std.specs.Cmp.Lexicographic.{nat_list_eq_equiv, bytes_decides};
ghost use Rattle.std.specs.Str.{bytes_eq};
ghost use Rattle.std.proofs.Common.{ap};
ghost use Rattle.resin_inputs.specs.Under.lstr.declared.limits.TheConstants.{LONGEST};
ghost use Rattle.resin_interp.specs.Under.meaning.Runs.{Does, World};
ghost use Rattle.resin_interp.specs.Under.meaning_forms.Sources.{program_of};
ghost use Rattle.resin_request.specs.Scripts.{Means};

use lru::LruCache;
use resin_interp::Stop;
use resin_interp::sources::read_source;
use resin_interp::under::items::{Shared, SharedBytes};
use resin_interp::under::tree::Program;
use std::alloc::{AllocError, Global};
use std::collections::hash_map::Equivalent;
use std::hash::{Hash, Hasher};
use std::marker::Model;
use std::num::NonZeroUsize;

/// How many programs are kept.
pub const MOST_SCRIPTS: usize = 64;

// A source text, as a key. It is looked up by its bytes.
#[derive(Drop)]
struct SourceText {
    bytes: SharedBytes,
}

impl Model for SourceText {
    ghost use Rattle.std.specs.Prelude.{ℕ, List};

    ghost Value = { List ℕ };

    ghost view = { λ t. t.bytes };
}

impl SourceText {
    fn from_slice(alloc: Global, src: &[u8]) -> Result<SourceText, AllocError>
        ensures { IfOk result (λ t. t ≡ src.now) }
    {
        Ok(SourceText {
            bytes: SharedBytes::from_slice(alloc, src)?,
        })
    }

    fn as_slice(&self) -> &[u8]
        ensures { result.now ≡ self.now }
    {
        self.bytes.as_slice()
    }
}

impl PartialEq for SourceText {
    ghost eq = { bytes_eq };

    ghost laws = { partial_equiv_from_equiv nat_list_eq_equiv };

    fn eq(&self, other: &Self) -> bool {
        self.as_slice() == other.as_slice()
    }
}

impl Eq for SourceText {
    ghost laws = { nat_list_eq_equiv };
}

// All bytes go to the hasher at once, since it takes sixteen of them in a step.
impl Hash for SourceText {
    ghost hash_input = { λ t. t ∷ [] };

    ghost respects_eq = { λ a b h. ap (λ t. t ∷ []) ((bytes_decides a b).0 h) };

    fn hash<H: Hasher>(&self, state: &mut H) {
        state.write(self.as_slice());
    }
}

// Such a text that is looked up.
#[derive(Clone, Copy)]
struct SoughtText<'a> {
    bytes: &'a [u8],
}

impl<'a> SoughtText<'a> {
    fn lent(bytes: &'a [u8]) -> SoughtText<'a>
        ensures { result.bytes.now ≡ bytes.now }
    {
        SoughtText { bytes }
    }
}

impl<'a> PartialEq for SoughtText<'a> {
    ghost eq = { λ a b. bytes_eq a.bytes.now b.bytes.now };

    ghost laws = { partial_equiv_from_equiv (on_equiv (λ t. t.bytes.now) nat_list_eq_equiv) };

    fn eq(&self, other: &Self) -> bool {
        self.bytes == other.bytes
    }
}

impl<'a> Eq for SoughtText<'a> {
    ghost laws = { on_equiv (λ t. t.bytes.now) nat_list_eq_equiv };
}

impl<'a> Hash for SoughtText<'a> {
    ghost hash_input = { λ t. t.bytes.now ∷ [] };

    ghost respects_eq = { λ a b h. ap (λ t. t ∷ []) ((bytes_decides a.bytes.now b.bytes.now).0 h) };

    fn hash<H: Hasher>(&self, state: &mut H) {
        state.write(self.bytes);
    }
}

impl<'a> Equivalent<SourceText> for SoughtText<'a> {
    ghost equivalent = { λ t. bytes_eq t.bytes.now };

    ghost respects_hash = { λ t k h. ap (λ t. t ∷ []) ((bytes_decides t.bytes.now k).0 h) };

    ghost respects_eq = { λ t. nat_list_eq_equiv.congr t.bytes.now };

    fn equivalent(&self, key: &SourceText) -> bool {
        self.bytes == key.as_slice()
    }
}

/// The programs of the source texts that ran last, 64 at most, by the bytes of the texts. A run reads a text that is among them no second time. A
/// clause sees nothing of the value: whatever is kept, a text has the program that it means.
#[derive(Drop)]
pub struct Scripts {
    kept: LruCache<SourceText, Shared<Program>>,
    parses: u64,
}

impl Model for Scripts {
    ghost use Rattle.std.specs.Prelude.{⊤};
    ghost use Rattle.resin_request.specs.Scripts.{AreMeant};

    ghost Value = { ⊤ };

    ghost view = { λ _. tt };

    ghost invariant = { λ s. AreMeant s.kept.entries };
}

impl Scripts {
    /// No program yet.
    pub fn new(alloc: Global) -> Result<Scripts, AllocError> {
        let most = NonZeroUsize::new(MOST_SCRIPTS).unwrap();
        Ok(Scripts {
            kept: LruCache::new(alloc, most)?,
            parses: 0,
        })
    }

    /// How many texts were read so far, those with a fault among them. It stays at its last value.
    pub fn parses(&self) -> u64 {
        self.parses
    }

    /// The program of a source text of at most 16,777,216 bytes: the one that is kept; else it is read, and kept where memory is found for that.
    ///
    /// # Errors
    ///
    /// As of `read_source`. A text with a fault isn't kept.
    pub fn read(&mut self, alloc: Global, src: &[u8]) -> Result<Shared<Program>, Stop>
        requires { length src.now ≤ LONGEST }
        ensures { (w : World) → Does (program_of src.now) w result w }
    {
        let found = self.found(src)?;
        match found {
            Some(program) => Ok(program),
            None => self.read_anew(alloc, src),
        }
    }

    // The program of a text that is kept.
    fn found(&mut self, src: &[u8]) -> Result<Option<Shared<Program>>, AllocError>
        ensures { IfOk result (λ found. IfSome found (Means src.now)) }
    {
        match self.kept.get(SoughtText::lent(src)) {
            Some(program) => Ok(Some(program.clone()?)),
            None => Ok(None),
        }
    }

    // Reads a text, and keeps its program. Where no memory is found for that, the script runs unkept.
    fn read_anew(&mut self, alloc: Global, src: &[u8]) -> Result<Shared<Program>, Stop>
        requires { length src.now ≤ LONGEST }
        ensures { (w : World) → Does (program_of src.now) w result w }
    {
        self.parses = self.parses.saturating_add(1);
        let program = Shared::new(alloc, read_source(alloc, src)?)?;
        let _kept = self.keep(alloc, src, &program);
        Ok(program)
    }

    // Keeps the program of a text, in place of the one that ran the longest ago where there are too many.
    fn keep(
        &mut self,
        alloc: Global,
        src: &[u8],
        program: &Shared<Program>,
    ) -> Result<(), AllocError>
        requires { Means src.now program.now }
    {
        let text = SourceText::from_slice(alloc, src)?;
        self.kept.put(text, program.clone()?)?;
        Ok(())
    }
}
