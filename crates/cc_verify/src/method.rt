// A method as the rules on its code see it.
use crate::environment::{Environment, Frame};
use crate::places::Place;
use cc_base::List;
use cc_cil::Clause;

/// A method with a body: the types around it, its clauses, and the instructions of its code.
#[derive(Drop)]
pub struct Method {
    pub environment: Environment,
    pub frame: Frame,
    pub clauses: List<Clause>,
    pub places: List<Place>,
    /// The greatest number of values on its stack.
    pub most: u16,
    /// The size of its code in bytes.
    pub size: u32,
}
