//! Literals of a statement: what is kept of them, with their policies.
ghost use Rattle.resin_eval_writes.specs.Under.eval_nested.Nested.{Nests, means};
ghost use Rattle.resin_eval_writes.specs.Under.eval_nested.Running.{Performs};
ghost use Rattle.resin_eval_writes.specs.Under.meaning_forms.Cells.{integer_byte, kept_literal, kept_literals, kept_shadow};
ghost use Rattle.resin_eval_writes.specs.Under.meaning_forms.Runs.{Runs};
ghost use Rattle.resin_eval_writes.specs.Under.meaning_tables.Under.sql_words.declared.literals.Literal.TheVariants.{Integer, Text};
ghost use Rattle.resin_eval_writes.specs.Under.lstr.Texts.{carrying};
ghost use Rattle.resin_eval_writes.specs.Under.meaning_forms.Parts.{Evals};
ghost use Rattle.std.specs.Prelude.{IfOk, OnOk, [], ◌++◌, ◌∷◌, ◌≡◌};

use resin_eval_functions::under::eval_merges::merges::Merger;
use resin_eval_writes::under::base::{Cell, Files, Stored, StoredCell, Tables};
use resin_eval_writes::under::bytes::Bytes;
use resin_eval_writes::under::eval_nested::nested::{Evaluator, Nested, Outcome};
use resin_eval_writes::under::eval_nested::run::Run;
use resin_eval_writes::under::label::PSet;
use resin_eval_writes::under::lstr::LText;
use resin_eval_writes::under::machine::{Machine, Stop};
use resin_eval_writes::under::meaning_tables::under::sql::{Literal, Span, literal_text};
use resin_shadow::encode;
use resin_step_keeping::freezing::freeze_text;
use std::alloc::{AllocError, Global};

// The shadow text of a text's policies. NotStorable comes exactly where one of them can't be kept.
fn shadow_of(alloc: Global, m: &Machine, text: &LText) -> Result<Bytes, Stop>
    ensures { Runs (kept_shadow text.now) m.now result m.now }
{
    let marks = freeze_text(alloc, m, text)?;
    let shadow = encode(alloc, &marks)?;
    Ok(shadow)
}

// The byte that stands for an integer with this set.
fn integer_byte(alloc: Global, set: &PSet) -> Result<LText, AllocError>
    ensures { IfOk result (λ t. t ≡ carrying set.now integer_byte) }
{
    match LText::with_set(alloc, &[0], set) {
        Ok(byte) => Ok(byte),
        // One byte is not too long, so memory is all that it can lack.
        Err(_) => Err(AllocError),
    }
}

/// Keeps literals, in an evaluation.
#[derive(Drop)]
pub(crate) struct LiteralKeeper<'e, F, T, N> {
    pub(crate) by: &'e Evaluator<F, T, N>,
}

impl<
    F: Files,
    T: Tables,
    N: Fn(Global, u32, Nested<'_>, &mut Run<F, T>) -> Result<Outcome, Stop> + Copy,
> LiteralKeeper<'_, F, T, N> {
    // An integer carries the one set that its bytes merge to, and is kept as a byte with that set is.
    fn integer(
        &self,
        run: &mut Run<F, T>,
        text: &LText,
        value: i64,
        span: Span,
    ) -> Result<StoredCell, Stop>
        requires { Nests F.Files T.Tables N.pre N.post self.now.by.now }
        ensures { Performs F.Files T.Tables (kept_literal (means self.now.by.now) text.now (Integer value span)) run.old result run.new }
    {
        let bytes = literal_text(self.by.alloc, text, Literal::Integer(value, span))?;
        let set = Merger { by: self.by }.folded(run, &bytes)?;
        let byte = integer_byte(self.by.alloc, &set)?;
        let shadow = shadow_of(self.by.alloc, &run.machine, &byte)?;
        Ok(StoredCell {
            value: Cell::Int(value),
            shadow: Cell::Text(shadow),
        })
    }

    // A literal: NULL has the empty shadow text, and a text is kept with the sets of its bytes.
    fn literal(
        &self,
        run: &mut Run<F, T>,
        text: &LText,
        literal: &Literal,
    ) -> Result<StoredCell, Stop>
        requires { Nests F.Files T.Tables N.pre N.post self.now.by.now }
        ensures { Performs F.Files T.Tables (kept_literal (means self.now.by.now) text.now literal.now) run.old result run.new }
    {
        match literal {
            Literal::Null => Ok(StoredCell {
                value: Cell::Null,
                shadow: Cell::Text(Bytes::new(self.by.alloc)),
            }),
            Literal::Integer(value, span) => self.integer(run, text, *value, *span),
            Literal::Text(span) => text_literal(self.by.alloc, &run.machine, text, *span),
        }
    }

    /// The literals of a statement as they are kept, in their order; each is merged and its policies are turned into texts before the next.
    ///
    /// # Errors
    ///
    /// How a merge stops; `NotStorable` for a policy that can't be kept.
    pub(crate) fn literals(
        &self,
        run: &mut Run<F, T>,
        text: &LText,
        literals: &[Literal],
    ) -> Result<Stored, Stop>
        requires { Nests F.Files T.Tables N.pre N.post self.now.by.now }
        ensures { Performs F.Files T.Tables (kept_literals (means self.now.by.now) text.now literals.now []) run.old result run.new }
    {
        let mut cells = Stored::new(self.by.alloc);
        for next in literals {
            let cell = self.literal(run, text, next)?;
            put(&mut cells, cell)?;
        }
        Ok(cells)
    }
}

// A text literal with the sets of its bytes.
fn text_literal(alloc: Global, m: &Machine, text: &LText, span: Span) -> Result<StoredCell, Stop>
    ensures { (ev : Evals) → Runs (kept_literal ev text.now (Text span)) m.now result m.now }
{
    let meant = literal_text(alloc, text, Literal::Text(span))?;
    let shadow = shadow_of(alloc, m, &meant)?;
    let bytes = Bytes::from_slice(alloc, meant.bytes())?;
    Ok(StoredCell {
        value: Cell::Text(bytes),
        shadow: Cell::Text(shadow),
    })
}

// Puts a cell last.
fn put(cells: &mut Stored, cell: StoredCell) -> Result<(), AllocError>
    ensures { OnOk result (cells.new ≡ cells.old ++ cell ∷ []) }
{
    cells.push(cell)?;
    Ok(())
}
