// Why a list of classes is none that a program has.
use cc_base::ClassId;
use std::alloc::AllocError;

/// Why `Classes::new` refuses a list of classes.
#[derive(Clone, Copy, Debug, PartialEq, Eq)]
pub enum ClassesFault {
    /// There are 2^32 classes or more.
    TooManyClasses,
    /// All classes together have 2^32 fields or more.
    TooManyFields,
    /// All classes together have 2^32 functions or more.
    TooManyMethods,
    /// This class names a class by a number that none has.
    NamesNoClass(ClassId),
    /// This class reaches itself through bases and interfaces.
    DerivesFromItself(ClassId),
    /// A value of this value class has another one in it.
    HoldsItself(ClassId),
    /// Memory ran out.
    Memory,
}

impl From<AllocError> for ClassesFault {
    ghost use Rattle.std.specs.Prelude.{◌≡◌};
    ghost use Rattle.cc_core.specs.declared.fault.ClassesFault.TheVariants.{Memory};

    ghost from_gives = { λ _ fault. fault ≡ Memory };

    fn from(_: AllocError) -> ClassesFault {
        ClassesFault::Memory
    }
}
