// Copies of values.
ghost use Rattle.std.specs.Prelude.{◌≡◌, IfOk};

use cc_base::List;
use cc_core::{Place, Value};
use sqlite_items::Items;
use std::alloc::{AllocError, Global};

fn copied_place(alloc: Global, place: &Place) -> Result<Place, AllocError>
    ensures { IfOk result (λ copy. copy ≡ place.now) }
{
    let path = Items::from_slice(alloc, place.path.as_slice())?;
    Ok(Place {
        base: place.base,
        path,
    })
}

#[cycle(copied)]
fn copied_all(alloc: Global, values: &[Value]) -> Result<Items<Value>, AllocError>
    ensures { IfOk result (λ copy. copy ≡ values.now) }
{
    let mut all = Items::new(alloc);
    for value in values {
        all.push(copied(alloc, value)?)?;
    }
    Ok(all)
}

/// A value that is equal to another.
#[cycle(copied)]
pub fn copied(alloc: Global, value: &Value) -> Result<Value, AllocError>
    ensures { IfOk result (λ copy. copy ≡ value.now) }
{
    match value {
        Value::Nothing => Ok(Value::Nothing),
        Value::Int32(n) => Ok(Value::Int32(*n)),
        Value::Int64(n) => Ok(Value::Int64(*n)),
        Value::Null => Ok(Value::Null),
        Value::Object(at) => Ok(Value::Object(*at)),
        Value::Literal(text) => {
            let text = List::from_slice(alloc, text.as_slice())?;
            Ok(Value::Literal(text))
        }
        Value::Unbound => Ok(Value::Unbound),
        Value::Pointer(place) => {
            let place = copied_place(alloc, place)?;
            Ok(Value::Pointer(place))
        }
        Value::Fields(fields) => {
            let fields = copied_all(alloc, fields.as_slice())?;
            Ok(Value::Fields(fields))
        }
    }
}
