//! Where the literals of a statement stand.

ghost use Rattle.std.specs.Prelude.{◌≡◌, ◌++◌, IfOk, OnOk};
ghost use Rattle.std.specs.List.{flat_map};
ghost use Rattle.resin_lstr.specs.Texts.{bytes_of};
ghost use Rattle.resin_guard.specs.Literals as spec;
ghost use Rattle.resin_guard.specs.Literals.{GivesLiterals};

use resin_lstr::{LText, Parts};
use resin_sql::{Literal, SqlFault, Stmt, literals, read_sql};
use std::alloc::{AllocError, Global};

fn put_literal(places: &mut Parts, literal: Literal) -> Result<(), AllocError>
    ensures { OnOk result (places.new ≡ places.old ++ spec.of_literal literal) }
{
    match literal {
        Literal::Null => Ok(()),
        Literal::Integer(_, span) => places.push((span.from, span.to)),
        Literal::Text(span) => places.push((span.from, span.to)),
    }
}

fn put_literals(places: &mut Parts, literals: &[Literal]) -> Result<(), AllocError>
    ensures { OnOk result (places.new ≡ places.old ++ flat_map spec.of_literal literals.now) }
{
    for literal in literals {
        put_literal(places, *literal)?;
    }
    Ok(())
}

/// The places of the literals of a statement.
fn literal_places(alloc: Global, statement: &Stmt) -> Result<Parts, AllocError>
    ensures { IfOk result (λ places. places ≡ spec.literal_places statement.now) }
{
    let found = literals(alloc, statement)?;
    let mut places = Parts::new(alloc);
    put_literals(&mut places, found.as_slice())?;
    Ok(places)
}

/// The places of the text and integer literals of a query, in their order: of a text what stands between its quotes, of an integer
/// its digits with the `-` before them. `NULL` and the number of LIMIT are no such literals.
///
/// It refuses what [`read_sql`] refuses, in the same way.
pub fn literal_spans(alloc: Global, text: &LText) -> Result<Parts, SqlFault>
    ensures { GivesLiterals (bytes_of text.now) result }
{
    let statement = read_sql(alloc, text)?;
    match literal_places(alloc, &statement) {
        Ok(places) => Ok(places),
        Err(_) => Err(SqlFault::Memory),
    }
}
