// Values as the machine holds them.
ghost use Rattle.std.specs.Prelude.{◌≡◌};
ghost use Rattle.cc_core.specs.Numbers.{is_true};
ghost use Rattle.cc_machine_next.specs.Cells.{value_of};

/// A value of a variable or of the evaluation stack (ECMA-335, I.12.1).
#[derive(Clone, Copy)]
pub enum Cell {
    /// The 32 bits of a number.
    Int32(u32),
    /// The 64 bits of a number.
    Int64(u64),
    Null,
    /// A reference to an object, by its place in the heap.
    Object(usize),
}

impl Cell {
    /// A number that is not zero, or a reference to an object.
    #[inline]
    pub fn is_true(self) -> bool
        ensures { result ≡ is_true (value_of self) }
    {
        match self {
            Cell::Int32(n) => n != 0,
            Cell::Int64(n) => n != 0,
            Cell::Null => false,
            Cell::Object(_) => true,
        }
    }
}
