//! Declarations of a file.
ghost use Rattle.resin_meaning_forms.specs.Sources.{declare, declare_all, declare_new};
ghost use Rattle.resin_meaning_forms.specs.Runs.{Runs};

use crate::names::own_named;
use resin_meaning_forms::under::machine::{Machine, Stop};
use resin_meaning_forms::under::scalar::ScriptFault;
use resin_meaning_forms::under::tree::{Function, Item};

// A function's name may be that of no other.
fn declare_function(m: &mut Machine, f: &Function) -> Result<(), Stop>
    ensures { Runs (declare_new f.now) m.old result m.new }
{
    if own_named(f.name.as_slice()).is_some() {
        return Err(m.fault(ScriptFault::Redeclared));
    }
    m.declare_function(f)
}

// A declaration, at its own line.
fn declare(m: &mut Machine, item: &Item) -> Result<(), Stop>
    ensures { Runs (declare item.now) m.old result m.new }
{
    match item {
        Item::Function(f) => {
            let was = m.set_line(f.line);
            let end = declare_function(m, f);
            let _own = m.set_line(was);
            end
        }
        Item::Class(d) => {
            let was = m.set_line(d.line);
            let end = m.declare_class(d);
            let _own = m.set_line(was);
            end
        }
        Item::Statement(_) => Ok(()),
    }
}

/// Declares the functions and classes of a file, in their order, each at its own line. Redeclared comes where a name is taken, and
/// UndefinedClass where a parent isn't there.
pub fn declare_all(m: &mut Machine, items: &[Item]) -> Result<(), Stop>
    ensures { Runs (declare_all items.now) m.old result m.new }
{
    for item in items {
        declare(m, item)?;
    }
    Ok(())
}
