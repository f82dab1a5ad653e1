// How much the nodes of a unit count.
ghost use Rattle.std.specs.Prelude.{◌≡◌, ◌≤◌, IfOk};
ghost use Rattle.cc_template.specs.Faults.{too_many};
ghost use Rattle.cc_template.specs.Walk.{counted};

use crate::TemplateFault;
use crate::room::Room;
use cc_base::Span;
use cc_tree::Unit;

/// How much the nodes of a unit count, or the place of the first that makes a count pass its limit.
fn total(unit: &Unit) -> Result<u32, Span>
    ensures exact { result ≡ counted unit.now }
    ensures within { IfOk result (λ count. count ≤ 200_000) }
{
    let room = Room::of_unit()
        .node(unit.span)?
        .outers(0, unit.outers.as_slice())?;
    Ok(room.counted())
}

/// How much the nodes of a unit count in all, from 1 to 200,000. The walk visits a node before its parts and the parts in order;
/// templates are not visited (ECMA-372, 30). It errs with `TooManyNodes` where the nodes count more than that, or those of a
/// function, a member or an accessor with all its parts more than 20,000: at the first node that makes a count pass its limit.
/// It takes no memory.
pub fn count_nodes(unit: &Unit) -> Result<u32, TemplateFault>
    ensures exact { result ≡ too_many (counted unit.now) }
    ensures within { IfOk result (λ count. count ≤ 200_000) }
{
    match total(unit) {
        Ok(count) => Ok(count),
        Err(span) => Err(TemplateFault::TooManyNodes(span)),
    }
}
