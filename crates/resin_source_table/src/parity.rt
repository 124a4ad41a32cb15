//! A small grammar, as an example of how one is read: sums of ones, with brackets and `!`, and whether they are odd.

ghost use Rattle.std.specs.Prelude.{◌≡◌, ◌<◌, suc, Bool, List, ◌++◌};
ghost use Rattle.resin_form.specs.Meaning.{IsFront, IsTree, allows_at, always, reading};
ghost use Rattle.resin_form.specs.Reading.{read};
ghost use Rattle.resin_source_table.specs.Parity as spec;
ghost use Rattle.resin_source_table.specs.Parity.{Gives, Nests, behind, under};
ghost use Rattle.resin_source_table.specs.declared.parity.Construct.TheVariants.{Negated};
ghost use Rattle.resin_form.specs.Reads.{Reads};

use resin_form::{Cursor, Fault};

/// A sign of a sum.
#[derive(Clone, Copy, Debug, PartialEq, Eq)]
pub enum Sign {
    One,
    Plus,
    Not,
    Open,
    Close,
}

/// What may stand in itself.
#[derive(Clone, Copy, Debug, PartialEq, Eq)]
pub enum Construct {
    /// A sum and its closing bracket.
    Bracketed,
    /// The term behind a `!`.
    Negated,
}

fn begins_term(sign: Sign) -> bool
    ensures { result ≡ spec.begins_term sign }
{
    match sign {
        Sign::One => true,
        Sign::Not => true,
        Sign::Open => true,
        _ => false,
    }
}

fn is_plus(sign: Sign) -> bool
    ensures { result ≡ spec.is_plus sign }
{
    match sign {
        Sign::Plus => true,
        _ => false,
    }
}

fn is_close(sign: Sign) -> bool
    ensures { result ≡ spec.is_close sign }
{
    match sign {
        Sign::Close => true,
        _ => false,
    }
}

fn differs(odd: bool, other: bool) -> bool
    ensures { result ≡ spec.differs odd other }
{
    if odd { !other } else { other }
}

#[derive(Clone, Copy)]
struct Parser<F> {
    /// How many constructs may still open in one another.
    depth: usize,
    within: F,
}

/// The term behind a `!`, where no construct may open: its first sign enters one too many.
#[tactic(auto, unfolding(crate::specs::Parity::entered))]
fn no_room(signs: &mut Cursor<'_, Sign>) -> Result<bool, Fault>
    ensures { Reads (read (allows_at always 0) (reading spec.rules always 0) spec.entered signs.old) result signs.new }
{
    match signs.peek() {
        Some(next) if begins_term(*next) => {
            signs.skip(next);
            Err(Fault::TooDeep)
        }
        _ => Err(Fault::Syntax),
    }
}

impl<F: Fn(&mut Cursor<'_, Sign>, Construct, usize) -> Result<bool, Fault>> Parser<F> {
    /// The inside of a construct.
    fn inside(&self, signs: &mut Cursor<'_, Sign>, construct: Construct) -> Result<bool, Fault>
        requires nests { Nests self.now.depth (F.pre self.now.within) (F.post self.now.within) }
        requires room { 0 < self.now.depth }
        ensures { Reads (reading spec.rules always (suc self.now.depth) construct signs.old) result signs.new }
    {
        (self.within)(signs, construct, self.depth - 1)
    }

    /// What an opening bracket opens.
    #[tactic(auto, unfolding(crate::specs::Parity::opened))]
    fn opened(&self, signs: &mut Cursor<'_, Sign>) -> Result<bool, Fault>
        requires { Nests self.now.depth (F.pre self.now.within) (F.post self.now.within) }
        ensures { Reads (behind self.now.depth spec.opened signs.old) result signs.new }
    {
        if self.depth == 0 {
            return Err(Fault::TooDeep);
        }
        self.inside(signs, Construct::Bracketed)
    }

    /// The term behind a `!`.
    fn behind_not(&self, signs: &mut Cursor<'_, Sign>) -> Result<bool, Fault>
        requires { Nests self.now.depth (F.pre self.now.within) (F.post self.now.within) }
        ensures { Reads (reading spec.rules always (suc self.now.depth) Negated signs.old) result signs.new }
    {
        if self.depth == 0 {
            return no_room(signs);
        }
        self.inside(signs, Construct::Negated)
    }

    #[tactic(auto, unfolding(crate::specs::Parity::negated))]
    fn negated(&self, signs: &mut Cursor<'_, Sign>) -> Result<bool, Fault>
        requires { Nests self.now.depth (F.pre self.now.within) (F.post self.now.within) }
        ensures { Reads (behind self.now.depth spec.negated signs.old) result signs.new }
    {
        let odd = self.behind_not(signs)?;
        Ok(!odd)
    }

    fn term(&self, signs: &mut Cursor<'_, Sign>, sign: Sign) -> Result<bool, Fault>
        requires { Nests self.now.depth (F.pre self.now.within) (F.post self.now.within) }
        ensures { Reads (behind self.now.depth (spec.term sign) signs.old) result signs.new }
    {
        match sign {
            Sign::Open => self.opened(signs),
            Sign::Not => self.negated(signs),
            _ => Ok(true),
        }
    }

    fn next_term(&self, signs: &mut Cursor<'_, Sign>) -> Result<bool, Fault>
        requires { Nests self.now.depth (F.pre self.now.within) (F.post self.now.within) }
        ensures { Reads (under self.now.depth spec.next_term signs.old) result signs.new }
    {
        match signs.peek() {
            Some(next) if begins_term(*next) => {
                signs.skip(next);
                self.term(signs, *next)
            }
            _ => Err(Fault::Syntax),
        }
    }

    /// The first term of a construct, which enters it.
    #[tactic(auto, unfolding(crate::specs::Parity::entered))]
    fn entered(&self, signs: &mut Cursor<'_, Sign>) -> Result<bool, Fault>
        requires { Nests self.now.depth (F.pre self.now.within) (F.post self.now.within) }
        ensures { Reads (under self.now.depth spec.entered signs.old) result signs.new }
    {
        self.next_term(signs)
    }

    #[tactic(auto, unfolding(crate::specs::Parity::added))]
    fn added(&self, signs: &mut Cursor<'_, Sign>, odd: bool) -> Result<bool, Fault>
        requires { Nests self.now.depth (F.pre self.now.within) (F.post self.now.within) }
        ensures { Reads (under self.now.depth (spec.added odd) signs.old) result signs.new }
    {
        let other = self.next_term(signs)?;
        Ok(differs(odd, other))
    }

    fn more(&self, signs: &mut Cursor<'_, Sign>, first: bool) -> Result<bool, Fault>
        requires { Nests self.now.depth (F.pre self.now.within) (F.post self.now.within) }
        ensures { Reads (under self.now.depth (spec.more first) signs.old) result signs.new }
    {
        let mut odd = first;
        'turns: while let Some(next) = signs.peek() {
            if !is_plus(*next) {
                break;
            }
            signs.skip(next);
            odd = self.added(signs, odd)?;
        }
        Ok(odd)
    }

    #[tactic(auto, unfolding(crate::specs::Parity::sum))]
    fn sum(&self, signs: &mut Cursor<'_, Sign>) -> Result<bool, Fault>
        requires { Nests self.now.depth (F.pre self.now.within) (F.post self.now.within) }
        ensures { Reads (under self.now.depth spec.sum signs.old) result signs.new }
    {
        let first = self.next_term(signs)?;
        self.more(signs, first)
    }

    #[tactic(auto, unfolding(crate::specs::Parity::bracketed))]
    fn in_brackets(&self, signs: &mut Cursor<'_, Sign>) -> Result<bool, Fault>
        requires { Nests self.now.depth (F.pre self.now.within) (F.post self.now.within) }
        ensures { Reads (under self.now.depth spec.bracketed signs.old) result signs.new }
    {
        let odd = self.sum(signs)?;
        match signs.peek() {
            Some(next) if is_close(*next) => {
                signs.skip(next);
                Ok(odd)
            }
            _ => Err(Fault::Syntax),
        }
    }
}

/// The inside of a construct, in which so many may still open in one another.
fn within(signs: &mut Cursor<'_, Sign>, construct: Construct, depth: usize) -> Result<bool, Fault>
    ensures { Reads (under depth (spec.body construct) signs.old) result signs.new }
{
    let parser = Parser { depth, within };
    match construct {
        Construct::Bracketed => parser.in_brackets(signs),
        Construct::Negated => parser.entered(signs),
    }
}

/// Whether the sum that the signs begin with is odd: the longest run of signs that is the front of a sum, where that
/// is one. What is left is behind it, or from the fault on. At most `depth` constructs may be open in one another: each
/// bracket is one, and each term behind a `!`.
pub fn is_odd(signs: &mut Cursor<'_, Sign>, depth: usize) -> Result<bool, Fault>
    ensures { Gives depth signs.old result signs.new }
{
    Parser { depth, within }.sum(signs)
}

/// A law of the grammar: a list of signs is one sum at most, and what a front of a sum begins with is a front too.
pub fn sums_are_read_one_way()
    ensures one_value { (w : List Sign) (x y : Bool) → IsTree spec.rules spec.sum w x → IsTree spec.rules spec.sum w y → x ≡ y }
    ensures fronts { (u more : List Sign) → IsFront spec.rules spec.sum (u ++ more) → IsFront spec.rules spec.sum u }
{}
