//! Constant expressions.

ghost use Rattle.std.specs.Prelude.{◌≡◌, suc, ◌+◌, ◌<◌, ◌≤◌, ◌≤ℤ◌, ◌&&◌, not, pos, neg_ℤ, IfOk};
ghost use Rattle.resin_form.specs.Reads.{Reads};
ghost use Rattle.resin_grammar.specs.Reading.{is_low};
ghost use Rattle.resin_grammar.specs.Signs.{is_sign as is_sign_of};
ghost use Rattle.resin_grammar.specs.declared.sign.Sign.TheVariants as s;
ghost use Rattle.resin_form.specs.Meaning.{reading};
ghost use Rattle.resin_program_grammar.specs.Constants as spec;
ghost use Rattle.resin_program_grammar.specs.Declarations.{rules};
ghost use Rattle.resin_program_grammar.specs.Names as name;
ghost use Rattle.resin_program_grammar.specs.Reading.{behind, under};
ghost use Rattle.resin_parse_plain.specs.Lines.{line_in};
ghost use Rattle.resin_parse_plain.specs.Nests.{NestsConstants};

use crate::reader::Reader;
use resin_form::{Cursor, Fault};
use resin_grammar::Sign;
use resin_grammar::operators::constant_of;
use resin_grammar::sign::is_sign;
use resin_lex::{
    Constant, ConstantItem, ConstantName, Items, Keyword, Literal, Mark, Token, TokenKind,
};
use resin_program_grammar::tokens::{begins_constant, digits_of};

/// A reader of constant expressions, and the function that reads those in an array: so no call here leads back into
/// itself.
#[derive(Clone, Copy)]
struct Constants<'l, F> {
    reader: Reader<'l>,
    nested: F,
}

/// Whether a list that is not yet closed goes on with a comma.
fn comma_follows(closed: bool, kind: &TokenKind) -> bool
    ensures { result ≡ (not closed && is_sign_of s.Comma kind.now) }
{
    !closed && is_sign(Sign::Comma, kind)
}

/// `-n`
fn negated(n: i64) -> i64
    requires { pos 0 ≤ℤ n }
    ensures { result ≡ neg_ℤ n }
{
    -n
}

impl<'l> Reader<'l> {
    /// An integer without a sign.
    #[tactic(auto, unfolding(resin_program_grammar::specs::Constants::digits))]
    fn digits(&self, tokens: &mut Cursor<'_, Token>) -> Result<i64, Fault>
        ensures low { IfOk result (λ n. pos 0 ≤ℤ n) }
        ensures reads { Reads (under (line_in self.now.lines.now) self.now.depth spec.digits tokens.old) result tokens.new }
    {
        match tokens.peek() {
            Some(next) => match digits_of(&next.kind) {
                Some(n) => {
                    tokens.skip(next);
                    Ok(n)
                }
                None => Err(Fault::Syntax),
            },
            None => Err(Fault::Syntax),
        }
    }

    /// An integer without a sign, in a construct that opens here.
    fn digits_inside(&self, tokens: &mut Cursor<'_, Token>) -> Result<i64, Fault>
        requires { 0 < self.now.depth }
        ensures low { IfOk result (λ n. pos 0 ≤ℤ n) }
        ensures reads { Reads (reading (rules (line_in self.now.lines.now)) is_low (suc self.now.depth) name.Digits tokens.old) result tokens.new }
    {
        self.inside().digits(tokens)
    }

    /// The integer behind `-`.
    #[tactic(auto, unfolding(resin_program_grammar::specs::Constants::negative))]
    fn negative(&self, tokens: &mut Cursor<'_, Token>) -> Result<Constant, Fault>
        ensures { Reads (behind (line_in self.now.lines.now) self.now.depth spec.negative tokens.old) result tokens.new }
    {
        if !self.opens() {
            return Err(Fault::TooDeep);
        }
        let n = self.digits_inside(tokens)?;
        Ok(Constant::Literal(Literal::Int(negated(n))))
    }
}

impl<'l, F: Fn(Reader<'_>, &mut Cursor<'_, Token>) -> Result<Constant, Fault> + Copy> Constants<
    'l,
    F,
> {
    /// The reader inside an array that opens here.
    fn inside(&self) -> Constants<'l, F>
        requires room { 0 < self.now.reader.depth }
        requires nests { NestsConstants self.now.reader.depth (F.pre self.now.nested) (F.post self.now.nested) }
        ensures depth { result.reader.depth + 1 ≡ self.now.reader.depth }
        ensures lines { result.reader.lines.now ≡ self.now.reader.lines.now }
        ensures nests { NestsConstants (result.reader.depth + 1) (F.pre result.nested) (F.post result.nested) }
    {
        Constants {
            reader: self.reader.inside(),
            nested: self.nested,
        }
    }

    /// A constant expression in an array.
    fn constant_within(&self, tokens: &mut Cursor<'_, Token>) -> Result<Constant, Fault>
        requires { NestsConstants (self.now.reader.depth + 1) (F.pre self.now.nested) (F.post self.now.nested) }
        ensures { Reads (under (line_in self.now.reader.lines.now) self.now.reader.depth spec.constant tokens.old) result tokens.new }
    {
        (self.nested)(self.reader, tokens)
    }

    /// `c` or `c => c`, put behind the items.
    #[tactic(auto, unfolding(resin_program_grammar::specs::Constants::pair_after))]
    fn pair(
        &self,
        tokens: &mut Cursor<'_, Token>,
        mut items: Items<ConstantItem>,
    ) -> Result<Items<ConstantItem>, Fault>
        requires { NestsConstants (self.now.reader.depth + 1) (F.pre self.now.nested) (F.post self.now.nested) }
        ensures { Reads (under (line_in self.now.reader.lines.now) self.now.reader.depth (spec.pair_after items) tokens.old) result tokens.new }
    {
        let first = self.constant_within(tokens)?;
        if self.reader.eat(tokens, Sign::FatArrow) {
            let value = self.constant_within(tokens)?;
            items.push(ConstantItem {
                key: Some(first),
                value,
            })?;
        } else {
            items.push(ConstantItem {
                key: None,
                value: first,
            })?;
        }
        Ok(items)
    }

    /// The closing bracket, or an item.
    #[tactic(auto, unfolding(resin_program_grammar::specs::Constants::item))]
    fn item(
        &self,
        tokens: &mut Cursor<'_, Token>,
        close: Sign,
        items: Items<ConstantItem>,
    ) -> Result<(Items<ConstantItem>, bool), Fault>
        requires { NestsConstants (self.now.reader.depth + 1) (F.pre self.now.nested) (F.post self.now.nested) }
        ensures { Reads (under (line_in self.now.reader.lines.now) self.now.reader.depth (spec.item close items) tokens.old) result tokens.new }
    {
        if self.reader.eat(tokens, close) {
            return Ok((items, true));
        }
        Ok((self.pair(tokens, items)?, false))
    }

    /// `, c` again and again.
    fn more_items(
        &self,
        tokens: &mut Cursor<'_, Token>,
        close: Sign,
        first: Items<ConstantItem>,
        first_closed: bool,
    ) -> Result<(Items<ConstantItem>, bool), Fault>
        requires { NestsConstants (self.now.reader.depth + 1) (F.pre self.now.nested) (F.post self.now.nested) }
        ensures { Reads (under (line_in self.now.reader.lines.now) self.now.reader.depth
            (spec.more_items close (first, first_closed)) tokens.old) result tokens.new }
    {
        let mut items = first;
        let mut closed = first_closed;
        'turns: while let Some(next) = tokens.peek() {
            if !comma_follows(closed, &next.kind) {
                break;
            }
            tokens.skip(next);
            let (longer, ended) = self.item(tokens, close, items)?;
            items = longer;
            closed = ended;
        }
        Ok((items, closed))
    }

    /// The items of an array, up to this bracket.
    #[tactic(auto, unfolding(resin_program_grammar::specs::Constants::items))]
    fn items(
        &self,
        tokens: &mut Cursor<'_, Token>,
        close: Sign,
    ) -> Result<Items<ConstantItem>, Fault>
        requires { NestsConstants (self.now.reader.depth + 1) (F.pre self.now.nested) (F.post self.now.nested) }
        ensures { Reads (under (line_in self.now.reader.lines.now) self.now.reader.depth (spec.items close) tokens.old) result tokens.new }
    {
        let (first, closed) = self.item(tokens, close, Items::new(self.reader.alloc))?;
        let (items, closed) = self.more_items(tokens, close, first, closed)?;
        if closed {
            return Ok(items);
        }
        self.reader.expect(tokens, close)?;
        Ok(items)
    }

    /// The items of an array that opens here.
    fn items_inside(
        &self,
        tokens: &mut Cursor<'_, Token>,
        close: Sign,
    ) -> Result<Items<ConstantItem>, Fault>
        requires nests { NestsConstants self.now.reader.depth (F.pre self.now.nested) (F.post self.now.nested) }
        requires room { 0 < self.now.reader.depth }
        ensures { Reads (reading (rules (line_in self.now.reader.lines.now)) is_low
            (suc self.now.reader.depth) (name.ConstantItems close) tokens.old) result tokens.new }
    {
        self.inside().items(tokens, close)
    }

    /// The items of an array behind its opening bracket.
    #[tactic(auto, unfolding(resin_program_grammar::specs::Constants::constant_array))]
    fn array(&self, tokens: &mut Cursor<'_, Token>, close: Sign) -> Result<Constant, Fault>
        requires { NestsConstants self.now.reader.depth (F.pre self.now.nested) (F.post self.now.nested) }
        ensures { Reads (behind (line_in self.now.reader.lines.now) self.now.reader.depth (spec.constant_array close) tokens.old) result tokens.new }
    {
        if !self.reader.opens() {
            return Err(Fault::TooDeep);
        }
        let items = self.items_inside(tokens, close)?;
        Ok(Constant::Array(items))
    }

    /// `(..)`, behind `array`.
    #[tactic(auto, unfolding(resin_program_grammar::specs::Constants::long_constant_array))]
    fn long_array(&self, tokens: &mut Cursor<'_, Token>) -> Result<Constant, Fault>
        requires { NestsConstants self.now.reader.depth (F.pre self.now.nested) (F.post self.now.nested) }
        ensures { Reads (under (line_in self.now.reader.lines.now) self.now.reader.depth spec.long_constant_array tokens.old) result tokens.new }
    {
        match tokens.peek() {
            Some(next) if is_sign(Sign::LeftRound, &next.kind) => {
                tokens.skip(next);
                self.array(tokens, Sign::RightRound)
            }
            _ => Err(Fault::Syntax),
        }
    }

    /// The rest of a constant expression behind its first token.
    fn constant_behind(
        &self,
        tokens: &mut Cursor<'_, Token>,
        kind: &TokenKind,
    ) -> Result<Constant, Fault>
        requires { NestsConstants self.now.reader.depth (F.pre self.now.nested) (F.post self.now.nested) }
        ensures { Reads (behind (line_in self.now.reader.lines.now) self.now.reader.depth
            (spec.constant_behind kind.now) tokens.old) result tokens.new }
    {
        match kind {
            TokenKind::Int(n) => Ok(Constant::Literal(Literal::Int(*n))),
            TokenKind::Text(text) => Ok(Constant::Literal(Literal::Text(text.clone()?))),
            TokenKind::Name(name) => Ok(Constant::Literal(Literal::Constant(constant_of(
                name.as_slice(),
            ).unwrap_or(ConstantName::Null)))),
            TokenKind::Mark(Mark::Minus) => self.reader.negative(tokens),
            TokenKind::Mark(Mark::LeftSquare) => self.array(tokens, Sign::RightSquare),
            _ => self.long_array(tokens),
        }
    }

    /// A constant expression.
    #[tactic(auto, unfolding(resin_program_grammar::specs::Constants::constant))]
    fn constant(&self, tokens: &mut Cursor<'_, Token>) -> Result<Constant, Fault>
        requires { NestsConstants self.now.reader.depth (F.pre self.now.nested) (F.post self.now.nested) }
        ensures { Reads (under (line_in self.now.reader.lines.now) self.now.reader.depth spec.constant tokens.old) result tokens.new }
    {
        match tokens.peek() {
            Some(next) if begins_constant(&next.kind) => {
                tokens.skip(next);
                self.constant_behind(tokens, &next.kind)
            }
            _ => Err(Fault::Syntax),
        }
    }
}

/// A constant expression: an integer, with or without `-`, a text without interpolation, a constant, or an array of these.
pub fn read_constant(reader: Reader<'_>, tokens: &mut Cursor<'_, Token>) -> Result<Constant, Fault>
    ensures { Reads (under (line_in reader.entry.lines.now) reader.entry.depth spec.constant tokens.old) result tokens.new }
{
    Constants {
        reader,
        nested: read_constant,
    }
    .constant(tokens)
}
