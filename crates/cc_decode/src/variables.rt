// The variables that the operands of a method's instructions name.
ghost use Rattle.std.specs.Prelude.{◌≡◌, ◌<◌, ◌≤◌, ◌^◌, length, IfOk};
ghost use Rattle.cc_execution.specs.Operations.{Names, load, local, store, argument};
ghost use Rattle.cc_decode.specs.Scope as spec;
ghost use Rattle.cc_decode.specs.Scope.{AreVariables};

use cc_base::List;
use cc_execution::{FundamentalType, Operation};
use std::alloc::{AllocError, Global};

/// The variables of a method: those of its parameters of which operations load a value, and then the local variables.
#[derive(Drop)]
pub struct Variables {
    /// The place and the type of each parameter; none for one of a type that no operation loads.
    pub arguments: List<Option<(u32, FundamentalType)>>,
    /// How many of the parameters have a place.
    pub loaded: u32,
    /// The types of the local variables.
    pub locals: List<FundamentalType>,
}

// The place and the type of a parameter, where so many variables stand before it.
fn variable(place: u32, parameter: Option<FundamentalType>) -> Option<(u32, FundamentalType)>
    ensures { result ≡ spec.variable place parameter }
{
    match parameter {
        None => None,
        Some(of) => Some((place, of)),
    }
}

// How many variables stand before the next parameter.
fn place_behind(place: u32, parameter: Option<FundamentalType>) -> u32
    requires { place < 2 ^ 30 }
    ensures { result ≡ spec.place_behind place parameter }
{
    match parameter {
        None => place,
        Some(_) => place + 1,
    }
}

fn load(variable: Option<(u32, FundamentalType)>) -> Option<Operation>
    ensures { result ≡ load variable }
{
    match variable {
        None => None,
        Some((place, _)) => Some(Operation::LoadVariable(place)),
    }
}

fn store(variable: Option<(u32, FundamentalType)>) -> Option<Operation>
    ensures { result ≡ store variable }
{
    match variable {
        None => None,
        Some((place, of)) => Some(Operation::StoreVariable(place, of)),
    }
}

impl Variables {
    /// The variables of a method with these parameters and these local variables.
    pub fn of(
        alloc: Global,
        parameters: &[Option<FundamentalType>],
        locals: &[FundamentalType],
    ) -> Result<Variables, AllocError>
        requires { length parameters.now < 2 ^ 30 }
        ensures scope { IfOk result (λ variables. (names : Names) → parameters.now ≡ names.parameters → locals.now ≡ names.locals → AreVariables names variables) }
        ensures few { IfOk result (λ variables. variables.loaded ≤ length parameters.now) }
    {
        let mut arguments = List::new(alloc);
        let mut loaded = 0;
        for i in 0..parameters.len() {
            let parameter = parameters[i];
            arguments.push(variable(loaded, parameter))?;
            loaded = place_behind(loaded, parameter);
        }
        let locals = List::from_slice(alloc, locals)?;
        Ok(Variables {
            arguments,
            loaded,
            locals,
        })
    }

    fn argument(&self, n: u16) -> Option<(u32, FundamentalType)>
        ensures { (names : Names) → AreVariables names self.now → result ≡ argument names n }
    {
        match self.arguments.get(usize::from(n)) {
            None => None,
            Some(variable) => *variable,
        }
    }

    fn local(&self, n: u16) -> Option<(u32, FundamentalType)>
        requires { self.now.loaded < 2 ^ 30 }
        ensures { (names : Names) → AreVariables names self.now → result ≡ local names n }
    {
        match self.locals.get(usize::from(n)) {
            None => None,
            Some(of) => Some((self.loaded + u32::from(n), *of)),
        }
    }

    /// The load of an argument.
    pub fn load_argument(&self, n: u16) -> Option<Operation>
        ensures { (names : Names) → AreVariables names self.now → result ≡ load (argument names n) }
    {
        load(self.argument(n))
    }

    /// The store to an argument.
    pub fn store_argument(&self, n: u16) -> Option<Operation>
        ensures { (names : Names) → AreVariables names self.now → result ≡ store (argument names n) }
    {
        store(self.argument(n))
    }

    /// The load of a local variable.
    pub fn load_local(&self, n: u16) -> Option<Operation>
        requires { self.now.loaded < 2 ^ 30 }
        ensures { (names : Names) → AreVariables names self.now → result ≡ load (local names n) }
    {
        load(self.local(n))
    }

    /// The store to a local variable.
    pub fn store_local(&self, n: u16) -> Option<Operation>
        requires { self.now.loaded < 2 ^ 30 }
        ensures { (names : Names) → AreVariables names self.now → result ≡ store (local names n) }
    {
        store(self.local(n))
    }
}
