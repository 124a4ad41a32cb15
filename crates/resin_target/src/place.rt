//! Where a value stands.
ghost use Rattle.std.specs.Prelude.{◌≡◌, unwrap_or};
ghost use Rattle.std.specs.Option.{option_copied};
ghost use Rattle.resin_ops.specs.Under.value.declared.value.Value.{Value as AnyValue};
ghost use Rattle.resin_target.specs.Targets.{standing};

use resin_machine::Machine;
use resin_machine::under::items::SharedBytes;
use resin_ops::under::value::Value;

/// A variable by its name, or a property by the number of its object and its name.
#[derive(Drop)]
pub enum Place {
    Variable(SharedBytes),
    Property(u32, SharedBytes),
}

/// The value at a place, `None` where nothing stands there.
pub(crate) fn value_at<'a>(m: &'a Machine, at: &Place) -> Option<&'a Value>
    ensures { unwrap_or (option_copied result) AnyValue.Null ≡ standing at.now m.now }
{
    match at {
        Place::Variable(name) => m.variable(name.as_slice()),
        Place::Property(o, name) => {
            if !m.heap().has(*o) {
                return None;
            }
            m.heap().get(*o, name.as_slice())
        }
    }
}
