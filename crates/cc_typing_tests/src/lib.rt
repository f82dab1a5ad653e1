//! Tests of the layers between the tree of a source and its typed program: how nodes are counted, which statements end, what
//! operators, casts and calls make of their operands. They stand apart, since a crate with tests is proved twice.
#![tactic(auto)]

#[cfg(test)]
mod counts;
#[cfg(test)]
mod ends;
#[cfg(test)]
mod operations;
