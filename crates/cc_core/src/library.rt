// Classes of the library that the language itself names.
ghost use Rattle.std.specs.Prelude.{◌≡◌};
ghost use Rattle.cc_core.specs.Types.{bare};
ghost use Rattle.cc_core.specs.Library.{boxed_class};

use crate::types::CoreType;
use cc_base::ClassId;

/// `System::Object`, the library's first class (ECMA-335, I.8.9.7).
pub const OBJECT: ClassId = ClassId(0);

impl CoreType {
    /// The class of the objects into which values of this type are boxed: the library's of a fundamental type, and an enum
    /// and a value class itself (ECMA-372, 12.1; ECMA-335, I.8.2.4). Values of other types are not boxed.
    pub fn boxed_class(&self) -> Option<ClassId>
        ensures { result ≡ boxed_class (bare self.now) }
    {
        match self {
            CoreType::Bool => Some(ClassId(4)),
            CoreType::Char => Some(ClassId(5)),
            CoreType::I8 => Some(ClassId(6)),
            CoreType::U8 => Some(ClassId(7)),
            CoreType::I16 => Some(ClassId(8)),
            CoreType::U16 => Some(ClassId(9)),
            CoreType::I32 => Some(ClassId(10)),
            CoreType::U32 => Some(ClassId(11)),
            CoreType::I64 => Some(ClassId(12)),
            CoreType::U64 => Some(ClassId(13)),
            CoreType::Enum(class) | CoreType::Value(class) => Some(*class),
            CoreType::Void
            | CoreType::Handle(_)
            | CoreType::Array(_)
            | CoreType::Null
            | CoreType::Track(_) => None,
        }
    }
}
