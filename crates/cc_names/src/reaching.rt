// Whether a name leads to a name (ECMA-372, 21.1 and 22.1).
ghost use Rattle.std.specs.Prelude.{◌≡◌, ◌+◌, ◌<◌, ◌≤◌, ◌⊎◌, ℕ, [], true, Some, length, slice_get, OnOk, IfOk};
ghost use Rattle.cc_names.specs.Keys as keys;
ghost use Rattle.cc_names.specs.Reaching.{In, has_number, unused};
ghost use Rattle.cc_names.specs.Spaces.{ways};

use crate::known::Ways;
use cc_base::Name;
use std::alloc::{AllocError, Global};

/// Which of some pairs were reached, and in which order.
#[derive(Drop)]
pub(crate) struct Reached {
    pub(crate) is_used: Vec<bool>,
    pub(crate) order: Vec<u32>,
    ghost marks: { (pair : ℕ) → slice_get is_used.items pair ≡ Some true → has_number order.items pair ≡ true },
    ghost total: { length order.items + unused is_used.items ≡ length is_used.items },
}

/// So many values that are false.
#[tactic(auto, using(crate::proofs::Marking::unused_more))]
fn none_used(alloc: Global, count: usize) -> Result<Vec<bool>, AllocError>
    ensures length { IfOk result (λ made. length made.items ≡ count) }
    ensures unused { IfOk result (λ made. unused made.items ≡ count) }
{
    let mut is_used = Vec::new(alloc);
    for at in 0..count {
        is_used.push(false)?;
    }
    Ok(is_used)
}

impl Reached {
    /// None of so many pairs.
    fn new(alloc: Global, count: usize) -> Result<Reached, AllocError>
        ensures order { IfOk result (λ made. made.order.items ≡ []) }
        ensures length { IfOk result (λ made. length made.is_used.items ≡ count) }
    {
        Ok(Reached {
            is_used: none_used(alloc, count)?,
            order: Vec::new(alloc),
        })
    }

    /// The pair at a place in the order.
    fn pair_at(&self, at: usize) -> Option<u32>
        ensures { result ≡ slice_get self.now.order.items at }
    {
        match self.order.get(at) {
            None => None,
            Some(number) => Some(*number),
        }
    }

    /// Adds a pair where it was not reached yet.
    fn add_one(&mut self, number: u32) -> Result<(), AllocError>
        ensures length { length self.new.is_used.items ≡ length self.old.is_used.items }
        ensures kept { OnOk result ((at pair : ℕ) → slice_get self.old.order.items at ≡ Some pair → slice_get self.new.order.items at ≡ Some pair) }
        ensures added { OnOk result (number < length self.old.is_used.items → In self.new.order.items number) }
        ensures only { OnOk result ((at pair : ℕ) → slice_get self.new.order.items at ≡ Some pair → (slice_get self.old.order.items at ≡ Some pair) ⊎ ((length self.old.order.items ≤ at) × (pair ≡ number))) }
    {
        let at = number as usize;
        if at >= self.is_used.len() || self.is_used[at] {
            return Ok(());
        }
        self.order.push(number)?;
        self.is_used[at] = true;
        Ok(())
    }

    /// Adds the pairs that were not reached yet.
    fn add(&mut self, numbers: &[u32]) -> Result<(), AllocError>
        ensures length { length self.new.is_used.items ≡ length self.old.is_used.items }
        ensures kept { OnOk result ((at pair : ℕ) → slice_get self.old.order.items at ≡ Some pair → slice_get self.new.order.items at ≡ Some pair) }
        ensures added { OnOk result ((pair : ℕ) → In numbers.now pair → pair < length self.old.is_used.items → In self.new.order.items pair) }
        ensures only { OnOk result ((at pair : ℕ) → slice_get self.new.order.items at ≡ Some pair → (slice_get self.old.order.items at ≡ Some pair) ⊎ ((length self.old.order.items ≤ at) × In numbers.now pair)) }
    {
        for number in numbers {
            self.add_one(*number)?;
        }
        Ok(())
    }
}

impl Ways {
    /// Whether a name leads to a name, or is it.
    pub(crate) fn leads(&self, alloc: Global, from: &[u8], to: &[u8]) -> Result<bool, AllocError>
        ensures { IfOk result (λ holds. holds ≡ keys.leads (ways self.now) from.now to.now) }
    {
        if from == to {
            return Ok(true);
        }
        let count = self.firsts.keys.len();
        let mut reached = Reached::new(alloc, count)?;
        reached.add(self.firsts.places(from))?;
        for at in 0..count {
            let number = match reached.pair_at(at) {
                None => return Ok(false),
                Some(number) => number,
            };
            match self.seconds.get(number as usize) {
                None => {}
                Some(name) => {
                    if name.as_slice() == to {
                        return Ok(true);
                    }
                    reached.add(self.firsts.places(name.as_slice()))?;
                }
            }
        }
        Ok(false)
    }

    /// Whether a name leads to a name, or is it, where there is one.
    pub(crate) fn leads_from(
        &self,
        alloc: Global,
        from: &Option<Name>,
        to: &[u8],
    ) -> Result<bool, AllocError>
        ensures { IfOk result (λ holds. holds ≡ keys.leads_from (ways self.now) from.now to.now) }
    {
        match from {
            None => Ok(false),
            Some(from) => self.leads(alloc, from.as_slice(), to),
        }
    }
}
