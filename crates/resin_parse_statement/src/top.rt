//! Statements and blocks, with what nests in them.

ghost use Rattle.resin_form.specs.Reads.{Reads};
ghost use Rattle.resin_program_grammar.specs.Statements as spec;
ghost use Rattle.resin_parse_statement.specs.Nested.{by, form_of, line_by};

use crate::parser::{Nested, Parser};
use resin_form::{Cursor, Fault};
use resin_lex::{Boxed, Items, Stmt, Token};
use resin_parse_plain::Reader;
use resin_program_grammar::{Around, Left};

/// What nests in statements, where so many constructs may still open in it.
fn nested_by(
    reader: Reader<'_>,
    tokens: &mut Cursor<'_, Token>,
    nested: Nested,
) -> Result<(Boxed<Stmt>, Left), Fault>
    ensures { Reads (by reader.entry (form_of (line_by reader.entry) nested) tokens.old) result tokens.new }
{
    let parser = Parser {
        reader,
        nested: nested_by,
    };
    match nested {
        Nested::Statement(around) => parser.one_statement(tokens, around),
        Nested::Link(around, chain, may) => parser.link(tokens, around, chain, may),
        Nested::Part(in_loop, chain, test) => {
            let whole = parser.part_from(tokens, in_loop, chain, test)?;
            Ok((whole, Left::Nothing))
        }
    }
}

/// One statement, and what it leaves of an `if` around it.
pub fn statement(
    reader: Reader<'_>,
    tokens: &mut Cursor<'_, Token>,
    around: Around,
) -> Result<(Boxed<Stmt>, Left), Fault>
    ensures { Reads (by reader.entry (spec.one_statement (line_by reader.entry) around) tokens.old) result tokens.new }
{
    let parser = Parser {
        reader,
        nested: nested_by,
    };
    parser.one_statement(tokens, around)
}

/// Statements in braces, in a loop or not.
pub fn braces(
    reader: Reader<'_>,
    tokens: &mut Cursor<'_, Token>,
    in_loop: bool,
) -> Result<Items<Stmt>, Fault>
    ensures { Reads (by reader.entry (spec.braces in_loop) tokens.old) result tokens.new }
{
    let parser = Parser {
        reader,
        nested: nested_by,
    };
    parser.braces(tokens, in_loop)
}
