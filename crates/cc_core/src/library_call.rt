// The members of the library that a typed program calls.

/// What a call of `Write` or `WriteLine` of System.Console prints, by the type of its parameter.
#[derive(Clone, Copy, Debug, PartialEq, Eq)]
pub enum Printed {
    /// `bool`: `True` or `False`.
    Bool,
    /// `wchar_t`: the one unit.
    Char,
    /// `int`, in decimal.
    I32,
    /// `unsigned int`, in decimal.
    U32,
    /// `long long`, in decimal.
    I64,
    /// `unsigned long long`, in decimal.
    U64,
}

/// A member of the library (ECMA-335, IV). A call of it takes no frame.
#[derive(Clone, Copy, Debug, PartialEq, Eq)]
pub enum LibraryCall {
    /// `Write` of System.Console with one value.
    Write(Printed),
    /// `WriteLine` of System.Console with one value.
    WriteLine(Printed),
    /// `WriteLine` of System.Console without a value.
    WriteEmptyLine,
}
