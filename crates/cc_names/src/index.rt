// The numbers of declarations by their names.
ghost use Rattle.std.specs.Prelude.{◌≡◌, ℕ, List, [], ◌∷◌, ◌++◌, cond, OnOk, IfOk};
ghost use Rattle.std.specs.Str.{bytes_eq};
ghost use Rattle.cc_names.specs.Index.{numbers_under, numbers_or_none};
ghost use Rattle.cc_names.specs.Lookup.{named};

use crate::scope::Item;
use cc_base::List;
use std::alloc::{AllocError, Global};
use std::collections::HashMap;

/// The list, or an empty one.
fn list_or_empty(alloc: Global, list: Option<List<u32>>) -> List<u32>
    ensures { result ≡ numbers_or_none list }
{
    match list {
        Some(list) => list,
        None => List::new(alloc),
    }
}

/// Adds a number under a name, behind those that are there.
pub(crate) fn add_number(
    numbers: &mut HashMap<Vec<u8>, List<u32>>,
    alloc: Global,
    name: &[u8],
    number: u32,
) -> Result<(), AllocError>
    ensures { OnOk result ((other : List ℕ) → numbers_under numbers.new other ≡ numbers_under numbers.old other ++ cond (bytes_eq name.now other) (number ∷ []) []) }
{
    let mut list = list_or_empty(alloc, numbers.remove(name));
    list.push(number)?;
    let key = Vec::from_slice(alloc, name)?;
    match numbers.insert(key, list) {
        Ok(_) => Ok(()),
        Err(_) => Err(AllocError),
    }
}

/// A place in a list as a number. A list whose places are no numbers would not fit into memory.
pub(crate) fn number_of(at: usize) -> Result<u32, AllocError>
    ensures { IfOk result (λ number. number ≡ at) }
{
    u32::try_from(at).map_err(|_| AllocError)
}

/// The numbers of the declarations of each name, in order.
pub(crate) fn index(
    alloc: Global,
    items: &[Item],
) -> Result<HashMap<Vec<u8>, List<u32>>, AllocError>
    ensures { IfOk result (λ numbers. (name : List ℕ) → numbers_under numbers name ≡ named items.now name) }
{
    let mut numbers = HashMap::new(alloc);
    for (at, item) in items.iter().enumerate() {
        let number = number_of(at)?;
        add_number(&mut numbers, alloc, item.name.as_slice(), number)?;
    }
    Ok(numbers)
}
