// What the machine does at an instruction, its tokens and its target resolved (ECMA-335, III.3 and III.4).
use cc_core::{LibraryCall, Operator, UnaryOperator};

/// A fundamental type, of a variable, a parameter or a result (ECMA-335, I.8.2.2 and II.23.1.16).
#[derive(Clone, Copy, Debug, PartialEq, Eq)]
pub enum FundamentalType {
    /// `bool`: eight bits without a sign.
    Boolean,
    /// `wchar_t`: sixteen bits without a sign.
    Char,
    /// `signed char`.
    I1,
    /// `unsigned char`.
    U1,
    /// `short`.
    I2,
    /// `unsigned short`.
    U2,
    /// `int`.
    I4,
    /// `unsigned int`.
    U4,
    /// `long long`.
    I8,
    /// `unsigned long long`.
    U8,
}

/// What the machine does at an instruction. A variable is named by its place among those of its frame: the arguments that
/// operations load, and then the local variables. A target is named by its offset in the code, in bytes.
#[derive(Clone, Copy)]
pub enum Operation {
    /// Does nothing.
    Nothing,
    /// Pushes the value of a variable.
    LoadVariable(u32),
    /// Pops a value into a variable of the type.
    StoreVariable(u32, FundamentalType),
    /// Pushes an int32, given as its bits.
    PushInt32(u32),
    /// Pushes an int64, given as its bits.
    PushInt64(u64),
    PushNull,
    /// Pushes the value on top once more.
    Duplicate,
    Pop,
    /// Calls the method at a place among the methods of the module, from 0.
    Call(u32),
    /// Calls a member of the library.
    CallLibrary(LibraryCall),
    /// Returns from the method.
    Return,
    /// Goes on at the target.
    Branch(u32),
    /// Pops a value, and goes on at the target where its truth is this.
    BranchIf(bool, u32),
    /// Pops two values, and goes on at the target where they compare so, as numbers with a sign or without.
    BranchCompare(Operator, bool, u32),
    /// Pops two values, and pushes what the operator makes of them, as numbers with a sign or without.
    Compute(Operator, bool),
    /// Pops a value, and pushes what the operator makes of it.
    ComputeAlone(UnaryOperator),
    /// Pops a number, and pushes it as one of the type.
    Convert(FundamentalType),
    /// Pops an exception, and throws it.
    Throw,
    /// Throws the exception that is being handled.
    Rethrow,
    /// Ends a finally or a fault handler.
    EndFinally,
    /// Leaves protected code or a handler for the target.
    Leave(u32),
}
