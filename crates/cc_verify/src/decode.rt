// The instructions out of a method's code (ECMA-335, III.1.2).
ghost use Rattle.std.specs.Prelude.{◌≡◌, ◌<◌, ◌^◌, length, IfOk, OnOk, replicate, false, true, get_or, set};
ghost use Rattle.std.specs.List.{AllByRecursion};
ghost use Rattle.cc_verify.specs.Places.{Decodes};
ghost use Rattle.cc_verify.specs.Passes.{AreStarts};

use crate::places::Place;
use cc_base::List;
use cc_cil::decode_one;
use std::alloc::{AllocError, Global};

/// The instructions of a method's code.
#[derive(Drop)]
pub struct Decoded {
    pub places: List<Place>,
    /// The first offset at which no instruction begins.
    pub end: u32,
}

/// The instructions of code, from its start on.
pub fn decode(alloc: Global, code: &[u8]) -> Result<Decoded, AllocError>
    requires { length code.now < 2 ^ 32 }
    ensures { IfOk result (λ decoded. Decodes code.now 0 decoded.places decoded.end) }
{
    let mut places = List::new(alloc);
    let mut at = 0;
    while (at as usize) < code.len() {
        let Ok((instruction, next)) = decode_one(code, at) else {
            return Ok(Decoded { places, end: at });
        };
        places.push(Place {
            at,
            instruction,
            next,
        })?;
        at = next;
    }
    Ok(Decoded { places, end: at })
}

// So many offsets, of which none is a start.
fn no_starts(alloc: Global, count: u32) -> Result<Vec<bool>, AllocError>
    ensures { IfOk result (λ starts. starts.items ≡ replicate count false) }
{
    let mut starts = Vec::new(alloc);
    for _ in 0..count {
        starts.push(false)?;
    }
    Ok(starts)
}

/// Which offsets of code of so many bytes are those of the instructions.
pub fn starts_of(alloc: Global, places: &[Place], size: u32) -> Result<Vec<bool>, AllocError>
    requires { AllByRecursion (λ p. p.at < size) places.now }
    ensures starts { IfOk result (λ starts. AreStarts starts.items places.now) }
    ensures long { IfOk result (λ starts. length starts.items ≡ size) }
{
    let mut starts = no_starts(alloc, size)?;
    for place in places {
        starts[place.at as usize] = true;
    }
    Ok(starts)
}
