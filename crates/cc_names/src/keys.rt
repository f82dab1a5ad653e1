// Keys, and where they stand.
ghost use Rattle.std.specs.Prelude.{◌≡◌, ℕ, List, [], ◌∷◌, ◌++◌, cond, OnOk, IfOk};
ghost use Rattle.cc_names.specs.Index.{numbers_under};
ghost use Rattle.cc_names.specs.Keys.{places, places_from, has};

use crate::index::{add_number, number_of};
use crate::known::Keys;
use cc_base::{List, Name};
use std::alloc::{AllocError, Global};
use std::collections::HashMap;

/// The places of each key, in order.
fn numbers_of(alloc: Global, keys: &[Name]) -> Result<HashMap<Vec<u8>, List<u32>>, AllocError>
    ensures { IfOk result (λ numbers. (key : List ℕ) → numbers_under numbers key ≡ places keys.now key) }
{
    let mut numbers = HashMap::new(alloc);
    for (at, key) in keys.iter().enumerate() {
        let number = number_of(at)?;
        add_number(&mut numbers, alloc, key.as_slice(), number)?;
    }
    Ok(numbers)
}

impl Keys {
    /// Keys in order.
    pub(crate) fn new(alloc: Global, keys: List<Name>) -> Result<Keys, AllocError>
        ensures { IfOk result (λ made. made.keys ≡ keys) }
    {
        let numbers = numbers_of(alloc, keys.as_slice())?;
        Ok(Keys { keys, numbers })
    }

    /// The places of a key, in order.
    pub(crate) fn places(&self, key: &[u8]) -> &[u32]
        ensures { result.now ≡ places self.now.keys key.now }
    {
        match self.numbers.get(key) {
            Some(numbers) => numbers.as_slice(),
            None => &[],
        }
    }

    /// Whether a key is there.
    #[tactic(auto, using(crate::proofs::Keyed::has_places))]
    pub(crate) fn has(&self, key: &[u8]) -> bool
        ensures { result ≡ has self.now.keys key.now }
    {
        !self.places(key).is_empty()
    }
}
