// Why a module is refused.
use cc_module::Module;

/// The first rule that a module breaks (ECMA-335, II.22, III.1.7 and III.1.8).
#[derive(Clone, Copy, Debug, PartialEq, Eq)]
pub enum VerifyFault {
    /// Memory did not suffice.
    Memory,
    /// 100: a rule on rows is broken: its number, and the row that breaks it, from 1.
    BadClass(u8, u32),
    /// 101: a rule on code is broken: the row of the method in MethodDef, the offset in its code in bytes, and the
    /// number of the rule.
    BadCode(u32, u32, u8),
}

/// A module that is refused, and why.
#[derive(Debug, Drop)]
pub struct VerifyRefusal {
    pub module: Module,
    pub fault: VerifyFault,
}
