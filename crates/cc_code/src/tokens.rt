// The tokens by which code calls (ECMA-335, III.1.9).
use cc_base::List;

/// The token of each overload of a member of System.Console that prints one value, by the type of its parameter.
#[derive(Clone, Copy, Debug, PartialEq, Eq)]
pub struct PrintedTokens {
    pub boolean: u32,
    pub character: u32,
    pub int32: u32,
    pub uint32: u32,
    pub int64: u32,
    pub uint64: u32,
}

/// The tokens of the members of System.Console that programs call.
#[derive(Clone, Copy, Debug, PartialEq, Eq)]
pub struct ConsoleTokens {
    /// Those of `Write`.
    pub write: PrintedTokens,
    /// Those of `WriteLine` with a value.
    pub write_line: PrintedTokens,
    /// That of `WriteLine` without one.
    pub write_empty_line: u32,
}

/// The tokens by which the code of a program calls.
#[derive(Debug, Drop)]
pub struct Tokens {
    /// That of each function of the program, by its number.
    pub functions: List<u32>,
    pub console: ConsoleTokens,
}
