// Region trees: what a function does, where every exit is aimed at a construct around it.
use cc_base::{ClassId, List, LocalId, MethodId};
use cc_core::{ClassInfo, CoreType, Expression, LoopKind, SwitchLabel};
use sqlite_items::Items;

/// How a statement is left for a place further out (ECMA-372, 16; C++, 6.6). The number counts the Blocks, Switches and
/// Loops around the exit from the inside, the innermost as 0.
#[derive(Drop)]
pub enum RegionExit {
    /// Ends the construct of this number.
    Break(u32),
    /// Goes on with the next turn of the construct of this number, which is a Loop.
    Continue(u32),
    /// Ends the function, with the value where it gives one. It is evaluated before anything that is done on the way out.
    Return(Option<Expression>),
}

/// A statement whose exits are aimed at constructs around it.
#[cycle(region)]
#[derive(Drop)]
pub enum RegionStatement {
    /// The statements one after another.
    Sequence(Items<RegionStatement>),
    /// An expression whose value is dropped.
    Do(Expression),
    /// Sets a local variable of this type to a value, without one to zero or null.
    Declare(LocalId, CoreType, Option<Expression>),
    /// The condition, what is done where it is true, and what is done where it isn't.
    If(Expression, Box<RegionStatement>, Box<RegionStatement>),
    /// A body that has no turns: a Break that is aimed at it ends it.
    Block(Box<RegionStatement>),
    /// Sets the local variable to the operand, and goes on at the section with its label; from there the sections follow
    /// one another. It has no turns.
    Switch(LocalId, Expression, Items<RegionSection>),
    /// The condition, what is evaluated after each turn, and the body.
    Loop(LoopKind, Expression, Option<Expression>, Box<RegionStatement>),
    /// The body, and the cleanup that is done after it whichever way it was left.
    Guard(Box<RegionStatement>, Box<RegionStatement>),
    /// The body, and the cleanup that is done after it where it was left by an exception.
    OnThrow(Box<RegionStatement>, Box<RegionStatement>),
    /// The body, and the clauses of which the first that catches an exception of the body is done.
    Catch(Box<RegionStatement>, Items<CatchClause>),
    /// The body, and what is done at last whichever way it was left.
    Finally(Box<RegionStatement>, Box<RegionStatement>),
    Throw(Expression),
    /// Throws the exception of the innermost clause again.
    Rethrow,
    Exit(RegionExit),
}

/// A section of a Switch: its labels, and its statements one after another.
#[cycle(region)]
#[derive(Drop)]
pub struct RegionSection {
    pub labels: Items<SwitchLabel>,
    pub body: Items<RegionStatement>,
}

/// A clause of a Catch: the class that it catches and the local variable that it sets, where it names them.
#[cycle(region)]
#[derive(Drop)]
pub struct CatchClause {
    pub class: Option<ClassId>,
    pub local: Option<LocalId>,
    pub body: RegionStatement,
}

/// A function.
#[derive(Drop)]
pub struct RegionFunction {
    pub method: MethodId,
    /// The type of what it gives.
    pub result: CoreType,
    /// The types of its local variables, its parameters first.
    pub locals: List<CoreType>,
    pub body: RegionStatement,
}

/// The parts of a region program.
#[derive(Drop)]
pub struct RegionParts {
    pub classes: List<ClassInfo>,
    /// The functions that have a body, in order of their numbers.
    pub functions: List<RegionFunction>,
    /// The function at which a run begins.
    pub main: MethodId,
}
