// Implicit conversions between types (ECMA-372, 14; C++, 4).
ghost use Rattle.std.specs.Prelude.{◌≡◌, ◌↔◌, true, IfNone, IfSome, IsTrue};
ghost use Rattle.cc_base.specs.declared.identifiers.ClassId.{ClassId};
ghost use Rattle.cc_core.specs.Types as type;
ghost use Rattle.cc_core.specs.Types.{bare};
ghost use Rattle.cc_core.specs.Classes.{Derives};
ghost use Rattle.cc_convert.specs.Conversions.{is_small, is_fundamental, IsInterface, Covers, IsConversion};
ghost use Rattle.cc_convert.specs.declared.conversion.Way.{Way};
ghost use Rattle.cc_convert.specs.declared.conversion.Way.TheVariants as way;

use cc_base::ClassId;
use cc_core::{ClassKind, Classes, CoreType, OBJECT};

/// How a value comes from one type to another.
#[derive(Clone, Copy, Debug, PartialEq, Eq)]
pub enum Way {
    /// It stays as it is.
    Same,
    /// It is widened to `int` (C++, 4.5).
    Promote,
    /// It is a number of another type, or a `bool` (C++, 4.7 and 4.12).
    Number,
    /// It is a handle to the same object, or null (ECMA-372, 14.2.1).
    Reference,
    /// It is put into a new object (ECMA-372, 14.2.6).
    Boxed,
}

/// An implicit conversion. The lower its rank, the better it is; ranks are from 0 to 4.
#[derive(Clone, Copy, Debug, PartialEq, Eq)]
pub struct Conversion {
    pub rank: u8,
    pub way: Way,
}

/// The implicit conversion from one type to another, `None` exactly where there is none. It takes no memory.
pub fn convert(from: &CoreType, to: &CoreType, classes: &Classes) -> Option<Conversion>
    ensures some { IfSome result (IsConversion classes.now (bare from.now) (bare to.now)) }
    ensures none { IfNone result ((way : Way) → ¬ Covers classes.now way (bare from.now) (bare to.now)) }
{
    if from.is_same(to) {
        return Some(Conversion {
            rank: 0,
            way: Way::Same,
        });
    }
    if promotes(from, to) {
        return Some(Conversion {
            rank: 1,
            way: Way::Promote,
        });
    }
    if are_fundamental(from, to) {
        return Some(Conversion {
            rank: 2,
            way: Way::Number,
        });
    }
    if refers(from, to, classes) {
        return Some(Conversion {
            rank: 3,
            way: Way::Reference,
        });
    }
    if boxes(from, to, classes) {
        return Some(Conversion {
            rank: 4,
            way: Way::Boxed,
        });
    }
    None
}

/// Whether a type is `bool`, `wchar_t` or an integer of 8 or 16 bits.
fn is_small(of: &CoreType) -> bool
    ensures { result ≡ is_small (bare of.now) }
{
    matches!(
        of,
        CoreType::Bool
            | CoreType::Char
            | CoreType::I8
            | CoreType::U8
            | CoreType::I16
            | CoreType::U16
    )
}

/// Whether a type is fundamental (ECMA-372, 12.1).
fn is_fundamental(of: &CoreType) -> bool
    ensures { result ≡ is_fundamental (bare of.now) }
{
    is_small(of)
        || matches!(
            of,
            CoreType::I32 | CoreType::U32 | CoreType::I64 | CoreType::U64
        )
}

/// Whether two types are both fundamental.
fn are_fundamental(from: &CoreType, to: &CoreType) -> bool
    ensures { IsTrue result
        ↔ ((is_fundamental (bare from.now) ≡ true) × (is_fundamental (bare to.now) ≡ true)) }
{
    is_fundamental(from) && is_fundamental(to)
}

/// Whether a type is widened to `int`.
fn promotes(from: &CoreType, to: &CoreType) -> bool
    ensures { IsTrue result ↔ ((is_small (bare from.now) ≡ true) × (bare to.now ≡ type.I32)) }
{
    is_small(from) && matches!(to, CoreType::I32)
}

/// Whether a handle to one type, or null, is a handle to another one.
fn refers(from: &CoreType, to: &CoreType, classes: &Classes) -> bool
    ensures { IsTrue result ↔ Covers classes.now way.Reference (bare from.now) (bare to.now) }
{
    match to {
        CoreType::Handle(target) => refers_to(from, *target, classes),
        CoreType::Array(_) => matches!(from, CoreType::Null),
        _ => false,
    }
}

/// Whether a handle, or null, is a handle to a class or an interface.
fn refers_to(from: &CoreType, target: ClassId, classes: &Classes) -> bool
    ensures { IsTrue result
        ↔ Covers classes.now way.Reference (bare from.now) (type.Handle target) }
{
    match from {
        CoreType::Handle(class) => target.0 == OBJECT.0 || classes.derives(*class, target),
        CoreType::Array(_) => target.0 == OBJECT.0,
        CoreType::Null => true,
        _ => false,
    }
}

/// Whether a value of one type is boxed as another one.
fn boxes(from: &CoreType, to: &CoreType, classes: &Classes) -> bool
    ensures { IsTrue result ↔ Covers classes.now way.Boxed (bare from.now) (bare to.now) }
{
    match to {
        CoreType::Handle(target) => boxes_as(from, *target, classes),
        _ => false,
    }
}

/// Whether a value of one type is boxed as an object of a class or an interface.
fn boxes_as(from: &CoreType, target: ClassId, classes: &Classes) -> bool
    ensures { IsTrue result
        ↔ Covers classes.now way.Boxed (bare from.now) (type.Handle target) }
{
    match from.boxed_class() {
        Some(class) => target.0 == OBJECT.0 || implements(class, target, classes),
        None => false,
    }
}

/// Whether a class implements an interface class.
fn implements(class: ClassId, interface: ClassId, classes: &Classes) -> bool
    ensures { IsTrue result
        ↔ (IsInterface classes.now interface × Derives classes.now class interface) }
{
    is_interface(interface, classes) && classes.derives(class, interface)
}

/// Whether a class is an interface class.
fn is_interface(class: ClassId, classes: &Classes) -> bool
    ensures { IsTrue result ↔ IsInterface classes.now class }
{
    match classes.as_slice().get(class.0 as usize) {
        Some(info) => matches!(info.kind, ClassKind::Interface),
        None => false,
    }
}
