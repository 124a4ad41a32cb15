//! What the names of the grammar stand for, behind the tokens that open them.

ghost use Rattle.std.specs.Prelude.{◌≡◌, suc, ◌+◌, ◌<◌, ◌≤◌, [], None, Some};
ghost use Rattle.resin_grammar.specs.Expressions as spec;
ghost use Rattle.resin_grammar.specs.Names as name;
ghost use Rattle.resin_grammar.specs.Reading.{behind, is_low, under};
ghost use Rattle.resin_form.specs.Meaning.{reading};
ghost use Rattle.resin_form.specs.Reads.{Reads};
ghost use Rattle.resin_parse_part.specs.Nests.{Nests};

use crate::parser::Parser;
use resin_form::{Cursor, Fault};
use resin_grammar::{Pairs, Sign, Tall, TallPlace, Trees};
use resin_lex::Token;
use std::alloc::Global;

impl<F: Fn(Global, &mut Cursor<'_, Token>, usize, u8) -> Result<Tall, Fault> + Copy> Parser<F> {
    /// `e )`, behind `(`.
    pub fn in_brackets(&self, tokens: &mut Cursor<'_, Token>) -> Result<Tall, Fault>
        requires nests { Nests self.now.depth (F.pre self.now.level) (F.post self.now.level) }
        requires room { 0 < self.now.depth }
        ensures { Reads (reading spec.rules is_low (suc self.now.depth) name.Bracketed tokens.old) result tokens.new }
    {
        self.inside().closed_by(tokens, Sign::RightRound)
    }

    /// `e ]`, behind `[`.
    pub fn in_index(&self, tokens: &mut Cursor<'_, Token>) -> Result<Tall, Fault>
        requires nests { Nests self.now.depth (F.pre self.now.level) (F.post self.now.level) }
        requires room { 0 < self.now.depth }
        ensures { Reads (reading spec.rules is_low (suc self.now.depth) name.Index tokens.old) result tokens.new }
    {
        self.inside().closed_by(tokens, Sign::RightSquare)
    }

    /// `e ]` or `]`, behind `[`.
    pub fn in_index_or_next(&self, tokens: &mut Cursor<'_, Token>) -> Result<Option<Tall>, Fault>
        requires nests { Nests self.now.depth (F.pre self.now.level) (F.post self.now.level) }
        requires room { 0 < self.now.depth }
        ensures { Reads (reading spec.rules is_low (suc self.now.depth) name.IndexOrNext tokens.old) result tokens.new }
    {
        self.inside().index_or_next_within(tokens)
    }

    /// The items of an array, behind its bracket.
    pub fn in_array(&self, tokens: &mut Cursor<'_, Token>, close: Sign) -> Result<Pairs, Fault>
        requires nests { Nests self.now.depth (F.pre self.now.level) (F.post self.now.level) }
        requires room { 0 < self.now.depth }
        ensures { Reads (reading spec.rules is_low (suc self.now.depth) (name.Items close) tokens.old) result tokens.new }
    {
        self.inside().items_within(tokens, close)
    }

    /// The arguments of a call, behind `(`.
    pub fn in_call(&self, tokens: &mut Cursor<'_, Token>) -> Result<Trees, Fault>
        requires nests { Nests self.now.depth (F.pre self.now.level) (F.post self.now.level) }
        requires room { 0 < self.now.depth }
        ensures { Reads (reading spec.rules is_low (suc self.now.depth) name.Arguments tokens.old) result tokens.new }
    {
        self.inside().arguments_within(tokens)
    }

    /// The operands of `isset`, behind `(`.
    pub fn in_isset(&self, tokens: &mut Cursor<'_, Token>) -> Result<Trees, Fault>
        requires nests { Nests self.now.depth (F.pre self.now.level) (F.post self.now.level) }
        requires room { 0 < self.now.depth }
        ensures { Reads (reading spec.rules is_low (suc self.now.depth) name.Asked tokens.old) result tokens.new }
    {
        self.inside().asked_within(tokens)
    }

    /// A target, behind `++` or `--`.
    pub fn in_step(&self, tokens: &mut Cursor<'_, Token>) -> Result<TallPlace, Fault>
        requires nests { Nests self.now.depth (F.pre self.now.level) (F.post self.now.level) }
        requires room { 0 < self.now.depth }
        ensures { Reads (reading spec.rules is_low (suc self.now.depth) name.Changed tokens.old) result tokens.new }
    {
        self.inside().target(tokens)
    }

    /// The branches of a choice, behind `?`.
    pub fn in_choice(&self, tokens: &mut Cursor<'_, Token>) -> Result<(Option<Tall>, Tall), Fault>
        requires nests { Nests self.now.depth (F.pre self.now.level) (F.post self.now.level) }
        requires room { 0 < self.now.depth }
        ensures { Reads (reading spec.rules is_low (suc self.now.depth) name.Branches tokens.old) result tokens.new }
    {
        self.inside().branches_within(tokens)
    }

    /// The branch of another `?:`, behind `?`.
    pub fn in_otherwise(&self, tokens: &mut Cursor<'_, Token>) -> Result<Tall, Fault>
        requires nests { Nests self.now.depth (F.pre self.now.level) (F.post self.now.level) }
        requires room { 0 < self.now.depth }
        ensures { Reads (reading spec.rules is_low (suc self.now.depth) name.Otherwise tokens.old) result tokens.new }
    {
        self.inside().otherwise_within(tokens)
    }

    /// What stands in the braces of a text.
    pub fn in_braces(&self, tokens: &mut Cursor<'_, Token>) -> Result<Tall, Fault>
        requires nests { Nests self.now.depth (F.pre self.now.level) (F.post self.now.level) }
        requires room { 0 < self.now.depth }
        ensures { Reads (reading spec.rules is_low (suc self.now.depth) name.Interpolated tokens.old) result tokens.new }
    {
        self.inside().braced_within(tokens)
    }
}
