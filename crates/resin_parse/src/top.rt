//! Whole programs.

ghost use Rattle.std.specs.Prelude.{◌≡◌, ◌≤◌, ℕ, length, drop, List, None, IsTrue};
ghost use Rattle.resin_form.specs.Meaning.{IsFront, IsTree};
ghost use Rattle.resin_form.specs.Reads.{Reads};
ghost use Rattle.resin_lex.specs.declared.token.Token.{Token as TheToken};
ghost use Rattle.resin_tree.specs.declared.declaration.Program.{Program as TheProgram};
ghost use Rattle.resin_program_grammar.specs.Declarations as declarations;
ghost use Rattle.resin_program_grammar.specs.Programs.{IsParsed, IsProgram, place_of};
ghost use Rattle.resin_parse.specs.Meaning.{HasOneMeaning};
ghost use Rattle.resin_program_grammar.specs.Parsed.{IsAsParsed};
ghost use Rattle.resin_parse_statement.specs.Nested.{by, class_item, final_item, function_item, line_by, one_more_item, statement_item};

use crate::class::Declarations;
use resin_form::{Cursor, Fault};
use resin_lex::{Item, Items, ParseFault, Program, Token, tokens_and_fault};
use resin_parse_plain::{Lines, Reader};
use resin_parse_statement::{inside_of, statement, statement_of};
use resin_program_grammar::Word;
use resin_program_grammar::tokens::begins_item;
use resin_program_grammar::word::is_word;
use std::alloc::Global;

/// How many constructs may be open in one another.
const MAX_NESTING: usize = 200;

impl<'l> Declarations<'l> {
    #[tactic(auto, unfolding(resin_parse_statement::specs::Nested::function_item))]
    fn function_item(&self, tokens: &mut Cursor<'_, Token>, line: u32) -> Result<Item, Fault>
        ensures { Reads (by self.now.reader (function_item line) tokens.old) result tokens.new }
    {
        Ok(Item::Function(self.function(tokens, line)?))
    }

    #[tactic(auto, unfolding(resin_parse_statement::specs::Nested::class_item))]
    fn class_item(&self, tokens: &mut Cursor<'_, Token>, line: u32) -> Result<Item, Fault>
        ensures { Reads (by self.now.reader (class_item line) tokens.old) result tokens.new }
    {
        Ok(Item::Class(self.class(tokens, line)?))
    }

    #[tactic(auto, unfolding(resin_parse_statement::specs::Nested::final_item))]
    fn final_item(&self, tokens: &mut Cursor<'_, Token>, line: u32) -> Result<Item, Fault>
        ensures { Reads (by self.now.reader (final_item line) tokens.old) result tokens.new }
    {
        Ok(Item::Class(self.final_class(tokens, line)?))
    }

    #[tactic(auto, unfolding(resin_parse_statement::specs::Nested::statement_item))]
    fn statement_item(&self, tokens: &mut Cursor<'_, Token>) -> Result<Item, Fault>
        ensures { Reads (by self.now.reader (statement_item (line_by self.now.reader)) tokens.old) result tokens.new }
    {
        let read = statement_of(statement(self.reader, tokens, inside_of(false))?);
        Ok(Item::Statement(read.into_inner()))
    }

    /// A function, a class or a statement, from its first token on.
    #[tactic(auto, unfolding(resin_program_grammar::specs::Declarations::one_item, resin_program_grammar::specs::Declarations::top_item, resin_parse_statement::specs::Nested::function_item, resin_parse_statement::specs::Nested::class_item, resin_parse_statement::specs::Nested::final_item))]
    fn one_item(&self, tokens: &mut Cursor<'_, Token>) -> Result<Item, Fault>
        ensures { Reads (by self.now.reader (declarations.one_item (line_by self.now.reader)) tokens.old) result tokens.new }
    {
        match tokens.peek() {
            Some(next) if begins_item(next) => {
                let line = self.reader.lines.line_of(next);
                if is_word(Word::Function, &next.kind) {
                    tokens.skip(next);
                    return self.function_item(tokens, line);
                }
                if is_word(Word::Class, &next.kind) {
                    tokens.skip(next);
                    return self.class_item(tokens, line);
                }
                if is_word(Word::Final, &next.kind) {
                    tokens.skip(next);
                    return self.final_item(tokens, line);
                }
                self.statement_item(tokens)
            }
            _ => Err(Fault::Syntax),
        }
    }

    /// A function, a class or a statement, put behind these.
    #[tactic(auto, unfolding(resin_parse_statement::specs::Nested::one_more_item))]
    fn one_more_item(
        &self,
        tokens: &mut Cursor<'_, Token>,
        mut items: Items<Item>,
    ) -> Result<Items<Item>, Fault>
        ensures { Reads (by self.now.reader (one_more_item (line_by self.now.reader) items) tokens.old) result tokens.new }
    {
        let item = self.one_item(tokens)?;
        items.push(item)?;
        Ok(items)
    }

    /// What stands at the top level of a file, put behind these.
    fn more_items(
        &self,
        tokens: &mut Cursor<'_, Token>,
        first: Items<Item>,
    ) -> Result<Items<Item>, Fault>
        ensures { Reads (by self.now.reader (declarations.more_items (line_by self.now.reader) first) tokens.old) result tokens.new }
    {
        let mut items = first;
        'turns: while let Some(next) = tokens.peek() {
            if !begins_item(next) {
                break;
            }
            items = self.one_more_item(tokens, items)?;
        }
        Ok(items)
    }

    /// What stands at the top level of a file.
    #[tactic(auto, unfolding(resin_program_grammar::specs::Declarations::top_items))]
    fn top_items(&self, tokens: &mut Cursor<'_, Token>) -> Result<Items<Item>, Fault>
        ensures { Reads (by self.now.reader (declarations.top_items (line_by self.now.reader)) tokens.old) result tokens.new }
    {
        self.more_items(tokens, Items::new(self.reader.alloc))
    }
}

/// The program that the tokens begin with.
#[tactic(auto, unfolding(resin_program_grammar::specs::Declarations::program))]
fn read_program(reader: Reader<'_>, tokens: &mut Cursor<'_, Token>) -> Result<Program, Fault>
    ensures { Reads (by reader.entry (declarations.program (line_by reader.entry)) tokens.old) result tokens.new }
{
    let items = Declarations { reader }.top_items(tokens)?;
    Ok(Program { items })
}

/// The place of a token, or this place where there is none.
fn place_at(tokens: &[Token], at: usize, end: u32) -> u32
    ensures { result ≡ place_of end (drop at tokens.now) }
{
    match tokens.get(at) {
        Some(token) => token.from,
        None => end,
    }
}

/// Whether a text is a program where what is read of its tokens is one: no token is left, and it has no lexical fault.
fn is_whole(left: usize, lexical: Option<u32>) -> bool
    ensures yes { IsTrue result → (left ≡ 0) × (lexical ≡ None) }
    ensures no { left ≡ 0 → lexical ≡ None → IsTrue result }
{
    left == 0 && lexical.is_none()
}

/// The program of a source text of at most 16,777,216 bytes.
///
/// The time is linear in the length of the text, but for the lines of statements: each takes a search among the lines.
///
/// # Errors
///
/// `Syntax` where the text is no program, with its fault place: the start of the first token with which the tokens so far
/// are no front of a program, or that of the first lexical fault, or the end of the text, whichever comes first.
/// `TooDeep` where the 201st construct that is open in others opens before such a place, with the place of the token that
/// opens it. `Memory` where memory was wanted.
///
/// What a text is read as is also told as a function of the text, so that what a program does can be said of its text.
pub fn program(alloc: Global, src: &[u8]) -> Result<Program, ParseFault>
    requires { length src.now ≤ 16777216 }
    ensures parsed { IsParsed result src.now }
    ensures exact { IsAsParsed result src.now }
{
    let lines = Lines::new(alloc, src)?;
    let lexing = tokens_and_fault(alloc, src)?;
    let all = lexing.list.tokens.as_slice();
    let end = lexing.fault.unwrap_or(lexing.list.end);
    let mut tokens = Cursor::new(all);
    let reader = Reader {
        alloc,
        depth: MAX_NESTING,
        lines: &lines,
    };
    let found = read_program(reader, &mut tokens);
    let left = tokens.left();
    let next = all.len().saturating_sub(left);
    match found {
        Ok(found) if is_whole(left, lexing.fault) => Ok(found),
        Ok(_) => Err(ParseFault::Syntax {
            offset: place_at(all, next, end),
        }),
        Err(Fault::Syntax) => Err(ParseFault::Syntax {
            offset: place_at(all, next, end),
        }),
        Err(Fault::TooDeep) => Err(ParseFault::TooDeep {
            offset: place_at(all, next.saturating_sub(1), end),
        }),
        Err(Fault::Memory) => Err(ParseFault::Memory),
    }
}

/// A law of the grammar: a source text is one program at most.
pub fn texts_are_one_program()
    ensures { (src : List ℕ) (p q : TheProgram) → IsProgram src p → IsProgram src q → p ≡ q }
{}

/// A law of the grammar: each source text is exactly one of three, and is read as that. It is one program, or it stops being
/// the front of one at one fault place, or it nests too deep at one place.
pub fn texts_have_one_meaning()
    ensures { (src : List ℕ) → HasOneMeaning src }
{}
