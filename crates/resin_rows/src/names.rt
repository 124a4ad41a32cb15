//! Lists of names.

ghost use Rattle.std.specs.Prelude.{◌≡◌, ◌++◌, ◌∷◌, [], map, IfOk};
ghost use Rattle.resin_sql.specs.declared.tree.Change.{Change};
ghost use Rattle.resin_rows.specs.Columns.{is_among, is_repeated, first_named, names_of};

use resin_base::{Bytes, Column, Names};
use resin_sql::Change;
use std::alloc::{AllocError, Global};

/// Whether a name is among others.
pub fn is_among(name: &[u8], names: &[Bytes]) -> bool
    ensures { result ≡ is_among name.now names.now }
{
    for other in names {
        if other.as_slice() == name {
            return true;
        }
    }
    false
}

/// Whether some name stands twice.
pub fn is_repeated(names: &[Bytes]) -> bool
    ensures { result ≡ is_repeated names.now }
{
    for i in 0..names.len() {
        if is_among(names[i].as_slice(), &names[i + 1..]) {
            return true;
        }
    }
    false
}

/// Puts a copy of a name last.
fn push_name(alloc: Global, names: &mut Names, name: &[u8]) -> Result<(), AllocError>
    ensures { IfOk result (λ _. names.new ≡ names.old ++ name.now ∷ []) }
{
    let copy = Bytes::from_slice(alloc, name)?;
    names.push(copy)
}

/// Each name once, in the order in which they are first named.
pub fn first_named(alloc: Global, names: &[Bytes]) -> Result<Names, AllocError>
    ensures { IfOk result (λ firsts. firsts ≡ first_named names.now) }
{
    let mut firsts = Names::new(alloc);
    for name in names {
        if !is_among(name.as_slice(), firsts.as_slice()) {
            push_name(alloc, &mut firsts, name.as_slice())?;
        }
    }
    Ok(firsts)
}

/// The names of columns.
pub fn names_of(alloc: Global, columns: &[Column]) -> Result<Names, AllocError>
    ensures { IfOk result (λ names. names ≡ names_of columns.now) }
{
    let mut names = Names::new(alloc);
    for column in columns {
        push_name(alloc, &mut names, column.name.as_slice())?;
    }
    Ok(names)
}

/// The columns that changes are for.
pub fn changed_names(alloc: Global, changes: &[Change]) -> Result<Names, AllocError>
    ensures { IfOk result (λ names. names ≡ map (λ (c : Change). c.column) changes.now) }
{
    let mut names = Names::new(alloc);
    for change in changes {
        push_name(alloc, &mut names, change.column.as_slice())?;
    }
    Ok(names)
}
