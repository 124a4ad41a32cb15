//! Classes that a row declares.
ghost use Rattle.std.specs.Prelude.{IsTrue};
ghost use Rattle.resin_scan.specs.Words.{IsName};

use resin_scan::bytes::{begins_name, byte, name_len};
use resin_step_parts::under::machine::{Machine, Stop};
use resin_step_parts::under::tree::{ClassDecl, Items, Name, Shared, SharedBytes};
use resin_table_rows::{Row, bytes_in};
use std::alloc::{AllocError, Global};

#[tactic(auto, using(crate::proofs::Names::named))]
fn is_name(bytes: &[u8]) -> bool
    ensures { IsTrue result → IsName bytes.now }
{
    begins_name(byte(bytes, 0)) && name_len(bytes) == bytes.len()
}

// The name of a parent, where one is given.
fn parent_in(alloc: Global, field: &str) -> Result<Option<SharedBytes>, AllocError> {
    if field.is_empty() {
        return Ok(None);
    }
    Ok(Some(SharedBytes::from_slice(alloc, field.as_bytes())?))
}

// A class without members.
fn class_of(row: Row<'_>, name: Name) -> Result<ClassDecl, AllocError> {
    let parent = parent_in(row.alloc, row.field(2))?;
    let properties = Shared::new(row.alloc, Items::new(row.alloc))?;
    let methods = Shared::new(row.alloc, Items::new(row.alloc))?;
    Ok(ClassDecl {
        line: 1,
        name,
        parent,
        properties,
        methods,
    })
}

fn declare_named(row: Row<'_>, m: &mut Machine, name: Name) -> Result<(), Stop> {
    let class = class_of(row, name)?;
    m.declare_class(&class)
}

/// Declares a class without members.
pub fn declare(row: Row<'_>, m: &mut Machine) -> Result<(), Stop> {
    let bytes = bytes_in(row.alloc, row.field(1))?;
    if !is_name(&bytes) {
        row.fail();
        return Ok(());
    }
    let name = Name::new(SharedBytes::from_slice(row.alloc, &bytes)?);
    declare_named(row, m, name)
}
