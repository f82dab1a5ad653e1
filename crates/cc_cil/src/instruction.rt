// The instructions of the profile (ECMA-335, III.3 and III.4).

/// An instruction with its operand. An `index` counts arguments or local variables, an `offset` is that of a branch
/// from the next instruction on, in bytes, and other operands but `value` are metadata tokens.
#[derive(Clone, Copy, Debug, PartialEq, Eq)]
pub enum Instruction {
    /// `nop`: does nothing.
    Nop,
    /// `ldarg.0`: loads argument 0.
    LoadArgument0,
    /// `ldarg.1`: loads argument 1.
    LoadArgument1,
    /// `ldarg.2`: loads argument 2.
    LoadArgument2,
    /// `ldarg.3`: loads argument 3.
    LoadArgument3,
    /// `ldarg.s`: loads an argument.
    LoadArgumentShort { index: u8 },
    /// `ldarg`: loads an argument.
    LoadArgument { index: u16 },
    /// `ldloc.0`: loads local variable 0.
    LoadLocal0,
    /// `ldloc.1`: loads local variable 1.
    LoadLocal1,
    /// `ldloc.2`: loads local variable 2.
    LoadLocal2,
    /// `ldloc.3`: loads local variable 3.
    LoadLocal3,
    /// `ldloc.s`: loads a local variable.
    LoadLocalShort { index: u8 },
    /// `ldloc`: loads a local variable.
    LoadLocal { index: u16 },
    /// `stloc.0`: stores to local variable 0.
    StoreLocal0,
    /// `stloc.1`: stores to local variable 1.
    StoreLocal1,
    /// `stloc.2`: stores to local variable 2.
    StoreLocal2,
    /// `stloc.3`: stores to local variable 3.
    StoreLocal3,
    /// `stloc.s`: stores to a local variable.
    StoreLocalShort { index: u8 },
    /// `stloc`: stores to a local variable.
    StoreLocal { index: u16 },
    /// `ldarga.s`: loads the address of an argument.
    LoadArgumentAddressShort { index: u8 },
    /// `ldarga`: loads the address of an argument.
    LoadArgumentAddress { index: u16 },
    /// `ldloca.s`: loads the address of a local variable.
    LoadLocalAddressShort { index: u8 },
    /// `ldloca`: loads the address of a local variable.
    LoadLocalAddress { index: u16 },
    /// `starg.s`: stores to an argument.
    StoreArgumentShort { index: u8 },
    /// `starg`: stores to an argument.
    StoreArgument { index: u16 },
    /// `ldnull`: loads the null reference.
    LoadNull,
    /// `ldc.i4.m1`: loads the int32 -1.
    LoadIntMinus1,
    /// `ldc.i4.0`: loads the int32 0.
    LoadInt0,
    /// `ldc.i4.1`: loads the int32 1.
    LoadInt1,
    /// `ldc.i4.2`: loads the int32 2.
    LoadInt2,
    /// `ldc.i4.3`: loads the int32 3.
    LoadInt3,
    /// `ldc.i4.4`: loads the int32 4.
    LoadInt4,
    /// `ldc.i4.5`: loads the int32 5.
    LoadInt5,
    /// `ldc.i4.6`: loads the int32 6.
    LoadInt6,
    /// `ldc.i4.7`: loads the int32 7.
    LoadInt7,
    /// `ldc.i4.8`: loads the int32 8.
    LoadInt8,
    /// `ldc.i4.s`: loads an int32 of one byte.
    LoadIntShort { value: i8 },
    /// `ldc.i4`: loads an int32.
    LoadInt { value: i32 },
    /// `ldc.i8`: loads an int64.
    LoadLong { value: i64 },
    /// `dup`: duplicates the top of the stack.
    Duplicate,
    /// `pop`: drops the top of the stack.
    Pop,
    /// `call`: calls a method.
    Call { method: u32 },
    /// `callvirt`: calls a method by the class of its object.
    CallVirtual { method: u32 },
    /// `newobj`: makes an object.
    NewObject { constructor: u32 },
    /// `ret`: returns from the method.
    Return,
    /// `br.s`: branches.
    BranchShort { offset: i8 },
    /// `brfalse.s`: branches on zero or null.
    BranchFalseShort { offset: i8 },
    /// `brtrue.s`: branches on what is not zero or null.
    BranchTrueShort { offset: i8 },
    /// `br`: branches.
    Branch { offset: i32 },
    /// `brfalse`: branches on zero or null.
    BranchFalse { offset: i32 },
    /// `brtrue`: branches on what is not zero or null.
    BranchTrue { offset: i32 },
    /// `beq`: branches on equal.
    BranchEqual { offset: i32 },
    /// `bge`: branches on greater or equal.
    BranchGreaterEqual { offset: i32 },
    /// `bgt`: branches on greater.
    BranchGreater { offset: i32 },
    /// `ble`: branches on less or equal.
    BranchLessEqual { offset: i32 },
    /// `blt`: branches on less.
    BranchLess { offset: i32 },
    /// `bne.un`: branches on not equal.
    BranchNotEqual { offset: i32 },
    /// `bge.un`: branches on greater or equal, unsigned.
    BranchGreaterEqualUnsigned { offset: i32 },
    /// `bgt.un`: branches on greater, unsigned.
    BranchGreaterUnsigned { offset: i32 },
    /// `ble.un`: branches on less or equal, unsigned.
    BranchLessEqualUnsigned { offset: i32 },
    /// `blt.un`: branches on less, unsigned.
    BranchLessUnsigned { offset: i32 },
    /// `add`: adds.
    Add,
    /// `sub`: subtracts.
    Subtract,
    /// `mul`: multiplies.
    Multiply,
    /// `div`: divides.
    Divide,
    /// `div.un`: divides unsigned.
    DivideUnsigned,
    /// `rem`: the remainder of a division.
    Remainder,
    /// `rem.un`: the remainder of an unsigned division.
    RemainderUnsigned,
    /// `and`: the bitwise and.
    And,
    /// `or`: the bitwise or.
    Or,
    /// `xor`: the bitwise exclusive or.
    Xor,
    /// `shl`: shifts to the left.
    ShiftLeft,
    /// `shr`: shifts to the right and keeps the sign.
    ShiftRight,
    /// `shr.un`: shifts to the right.
    ShiftRightUnsigned,
    /// `neg`: negates.
    Negate,
    /// `not`: the bitwise complement.
    Not,
    /// `conv.i1`: converts to int8.
    ConvertI1,
    /// `conv.i2`: converts to int16.
    ConvertI2,
    /// `conv.i4`: converts to int32.
    ConvertI4,
    /// `conv.i8`: converts to int64.
    ConvertI8,
    /// `conv.u4`: converts to unsigned int32.
    ConvertU4,
    /// `conv.u8`: converts to unsigned int64.
    ConvertU8,
    /// `conv.u2`: converts to unsigned int16.
    ConvertU2,
    /// `conv.u1`: converts to unsigned int8.
    ConvertU1,
    /// `ldobj`: loads the value at an address.
    LoadObject { type_token: u32 },
    /// `stobj`: stores a value at an address.
    StoreObject { type_token: u32 },
    /// `initobj`: zeroes the value at an address.
    InitializeObject { type_token: u32 },
    /// `ldstr`: loads a literal string.
    LoadString { string: u32 },
    /// `castclass`: casts an object to a class.
    CastClass { type_token: u32 },
    /// `isinst`: the object, or null where it is not of the class.
    IsInstance { type_token: u32 },
    /// `throw`: throws an exception.
    Throw,
    /// `rethrow`: throws the exception that is handled.
    Rethrow,
    /// `ldfld`: loads a field of an object.
    LoadField { field: u32 },
    /// `ldflda`: loads the address of a field.
    LoadFieldAddress { field: u32 },
    /// `stfld`: stores to a field of an object.
    StoreField { field: u32 },
    /// `ldsfld`: loads a static field.
    LoadStaticField { field: u32 },
    /// `ldsflda`: loads the address of a static field.
    LoadStaticFieldAddress { field: u32 },
    /// `stsfld`: stores to a static field.
    StoreStaticField { field: u32 },
    /// `box`: boxes a value.
    Box { type_token: u32 },
    /// `unbox.any`: the value of a box.
    UnboxAny { type_token: u32 },
    /// `newarr`: makes an array.
    NewArray { type_token: u32 },
    /// `ldlen`: the length of an array.
    LoadLength,
    /// `ldelema`: loads the address of an element.
    LoadElementAddress { type_token: u32 },
    /// `ldelem`: loads an element.
    LoadElement { type_token: u32 },
    /// `stelem`: stores to an element.
    StoreElement { type_token: u32 },
    /// `endfinally`: ends a finally or fault handler.
    EndFinally,
    /// `leave`: leaves a protected region.
    Leave { offset: i32 },
    /// `leave.s`: leaves a protected region.
    LeaveShort { offset: i8 },
    /// `ceq`: whether two are equal.
    CompareEqual,
    /// `cgt`: whether the first is greater.
    CompareGreater,
    /// `cgt.un`: whether the first is greater, unsigned.
    CompareGreaterUnsigned,
    /// `clt`: whether the first is less.
    CompareLess,
    /// `clt.un`: whether the first is less, unsigned.
    CompareLessUnsigned,
    /// `ldftn`: loads the pointer to a method.
    LoadFunction { method: u32 },
    /// `constrained.`: the type through which the next callvirt calls.
    Constrained { type_token: u32 },
}

/// The operand of an instruction, by the number of its bytes.
#[derive(Clone, Copy, Debug, PartialEq, Eq)]
pub enum Operand {
    /// No operand.
    Nothing,
    /// One byte.
    U8(u8),
    /// One byte, signed.
    I8(i8),
    /// Two bytes.
    U16(u16),
    /// Four bytes, signed.
    I32(i32),
    /// Eight bytes, signed.
    I64(i64),
    /// A metadata token of four bytes (ECMA-335, III.1.9).
    Token(u32),
}
