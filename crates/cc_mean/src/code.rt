// What a run executes.
use cc_core::{ClassInfo, FunctionBody};

/// The classes and the bodies of the functions of a program, and how many turns each run of a loop may make.
#[derive(Clone, Copy)]
pub struct Code<'a> {
    pub classes: &'a [ClassInfo],
    pub bodies: &'a [FunctionBody],
    pub turns: u32,
}
