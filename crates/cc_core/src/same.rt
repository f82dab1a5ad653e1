// Whether two types are the same.
ghost use Rattle.std.specs.Prelude.{◌≡◌, ◌↔◌, IsTrue};
ghost use Rattle.cc_core.specs.Types.{bare};

use crate::types::CoreType;

impl CoreType {
    /// Whether two types are the same (ECMA-335, I.8.7).
    pub fn is_same(&self, other: &CoreType) -> bool
        ensures { IsTrue result ↔ (bare self.now ≡ bare other.now) }
    {
        match self {
            CoreType::Void => matches!(other, CoreType::Void),
            CoreType::Bool => matches!(other, CoreType::Bool),
            CoreType::Char => matches!(other, CoreType::Char),
            CoreType::I8 => matches!(other, CoreType::I8),
            CoreType::U8 => matches!(other, CoreType::U8),
            CoreType::I16 => matches!(other, CoreType::I16),
            CoreType::U16 => matches!(other, CoreType::U16),
            CoreType::I32 => matches!(other, CoreType::I32),
            CoreType::U32 => matches!(other, CoreType::U32),
            CoreType::I64 => matches!(other, CoreType::I64),
            CoreType::U64 => matches!(other, CoreType::U64),
            CoreType::Null => matches!(other, CoreType::Null),
            CoreType::Enum(class) => matches!(other, CoreType::Enum(same) if class.0 == same.0),
            CoreType::Value(class) => matches!(other, CoreType::Value(same) if class.0 == same.0),
            CoreType::Handle(class) => matches!(other, CoreType::Handle(same) if class.0 == same.0),
            CoreType::Array(part) => match other {
                CoreType::Array(same) => part.is_same(same),
                _ => false,
            },
            CoreType::Track(part) => match other {
                CoreType::Track(same) => part.is_same(same),
                _ => false,
            },
        }
    }
}
