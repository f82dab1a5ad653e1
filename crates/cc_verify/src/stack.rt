// Stacks of types, as the pass over the code keeps them.
ghost use Rattle.std.specs.Prelude.{◌≡◌, [], ◌∷◌, length, reverse, slice_get, ◌↔◌, IsTrue, IfOk, OnOk, OnErr, MatchOption};

use crate::stack_type::StackType;
use std::alloc::{AllocError, Global};
use std::marker::Model;

/// The types of the values on an evaluation stack (ECMA-335, I.12.3.2.1). Contracts see the list of them, the one on top
/// first.
#[derive(Drop)]
pub struct StackTypes {
    types: Vec<StackType>,
}

impl Model for StackTypes {
    ghost use Rattle.std.specs.Prelude.{reverse, List};
    ghost use Rattle.cc_verify.specs.declared.stack_type.StackType.{StackType};

    ghost Value = { List StackType };

    ghost view = { λ stack. reverse stack.types.items };
}

// Whether two types are one.
fn is_same(a: StackType, b: StackType) -> bool
    ensures { IsTrue result ↔ (a ≡ b) }
{
    match a {
        StackType::Int32 => matches!(&b, StackType::Int32),
        StackType::Int64 => matches!(&b, StackType::Int64),
        StackType::Null => matches!(&b, StackType::Null),
        StackType::Object(class) => match b {
            StackType::Object(other) => class.0 == other.0,
            StackType::Int32 => false,
            StackType::Int64 => false,
            StackType::Null => false,
        },
    }
}

// Whether two lists of types are one.
fn are_same(a: &[StackType], b: &[StackType]) -> bool
    ensures { IsTrue result ↔ (a.now ≡ b.now) }
{
    if a.len() != b.len() {
        return false;
    }
    for at in 0..a.len() {
        if !is_same(a[at], b[at]) {
            return false;
        }
    }
    true
}

impl StackTypes {
    /// The empty stack. It takes no memory.
    pub fn new(alloc: Global) -> StackTypes
        ensures { result ≡ [] }
    {
        StackTypes {
            types: Vec::new(alloc),
        }
    }

    /// The number of values.
    #[tactic(auto, using(crate::proofs::Turned::turned))]
    pub fn len(&self) -> usize
        ensures { result ≡ length self.now }
    {
        self.types.len()
    }

    /// Puts a value on top. Without memory the stack stays as it was.
    #[tactic(auto, using(crate::proofs::Turned::turned))]
    pub fn push(&mut self, top: StackType) -> Result<(), AllocError>
        ensures ok { OnOk result (self.new ≡ top ∷ self.old) }
        ensures err { OnErr result (self.new ≡ self.old) }
    {
        self.types.push(top)?;
        Ok(())
    }

    /// Takes the value on top, `None` exactly where there is none.
    #[tactic(auto, using(crate::proofs::Turned::turned))]
    pub fn pop(&mut self) -> Option<StackType>
        ensures { MatchOption result ((self.old ≡ []) × (self.new ≡ [])) (λ top. self.old ≡ top ∷ self.new) }
    {
        self.types.pop()
    }

    /// Whether there is no value.
    #[tactic(auto, using(crate::proofs::Turned::turned))]
    pub fn is_empty(&self) -> bool
        ensures { IsTrue result ↔ (self.now ≡ []) }
    {
        self.types.is_empty()
    }

    /// The type of the value on top.
    #[tactic(auto, using(crate::proofs::Turned::turned))]
    pub fn top(&self) -> Option<StackType>
        ensures { result ≡ slice_get self.now 0 }
    {
        self.types.last().copied()
    }

    /// Takes all values.
    pub fn clear(&mut self)
        ensures { self.new ≡ [] }
    {
        self.types.clear();
    }

    /// The same stack once more.
    pub fn copy(&self, alloc: Global) -> Result<StackTypes, AllocError>
        ensures { IfOk result (λ copy. copy ≡ self.now) }
    {
        let mut types = Vec::new(alloc);
        types.extend_from_slice(self.types.as_slice())?;
        Ok(StackTypes { types })
    }

    /// Whether two stacks are one.
    pub fn is_same(&self, other: &StackTypes) -> bool
        ensures { IsTrue result ↔ (self.now ≡ other.now) }
    {
        are_same(self.types.as_slice(), other.types.as_slice())
    }
}
