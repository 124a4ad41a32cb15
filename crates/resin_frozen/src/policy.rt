//! Reading policy texts.
ghost use Rattle.std.specs.Prelude.{◌≡◌};
ghost use Rattle.resin_frozen.specs.Reading as spec;
ghost use Rattle.resin_frozen.specs.Reads.{Lends, ReadsPolicy, ReadsFields};

use crate::keys::{Keys, is_class};
use crate::rest::Rest;
use crate::stop::Stop;
use crate::values::read_braced;
use resin_value::Arr;
use std::alloc::Global;

// The name of a class behind its count.
#[tactic(auto, unfolding(crate::specs::Reading::class))]
fn read_class<'a>(rest: &mut Rest<'a>) -> Result<&'a [u8], Stop>
    ensures { Lends (spec.class rest.old) result rest.new }
{
    let class = rest.quoted()?;
    if is_class(class) {
        Ok(class)
    } else {
        Err(Stop::Form)
    }
}

/// The class and the pairs of the fields of the policy whose text stands in front.
#[tactic(auto, unfolding(crate::specs::Reading::policy, crate::specs::Reading::class_and_fields))]
pub(crate) fn read_policy<'a>(alloc: Global, rest: &mut Rest<'a>) -> Result<(&'a [u8], Arr), Stop>
    ensures policy { ReadsPolicy (spec.policy rest.old) result rest.new }
    ensures fields { ReadsFields (spec.class_and_fields rest.old) result rest.new }
{
    rest.literal(b"O:")?;
    let class = read_class(rest)?;
    rest.literal(b":")?;
    match read_braced(alloc, rest, 8, Keys::Names) {
        Ok(fields) => Ok((class, fields)),
        Err(stop) => Err(stop),
    }
}
