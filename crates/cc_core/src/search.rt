// The search for all classes that a class reaches.
ghost use Rattle.std.specs.Prelude.{◌≡◌, List, [], ◌∷◌, ◌<◌, ◌^◌, ◌↔◌, length, All, Contains, IfOk, OnOk, IsTrue, MatchOption, vec_len, slice_get, Some};
ghost use Rattle.cc_base.specs.declared.identifiers.ClassId.{ClassId};
ghost use Rattle.cc_core.specs.Search.{IsTable, AreReached, IsClosure, AreMarked, IsAdded};

use cc_base::{ClassId, List};
use std::alloc::{AllocError, Global};

/// The classes that a search has found.
#[derive(Drop)]
pub(crate) struct Search {
    /// At the place of each class whether it is found.
    pub marks: Vec<bool>,
    pub found: Vec<ClassId>,
}

impl Search {
    /// Adds a class if it is not found yet.
    pub(crate) fn add(&mut self, class: ClassId) -> Result<(), AllocError>
        requires marked { AreMarked self.old.marks.items self.old.found.items }
        requires within { class.0 < vec_len self.old.marks }
        ensures marked { AreMarked self.new.marks.items self.new.found.items }
        ensures same_length { vec_len self.new.marks ≡ vec_len self.old.marks }
        ensures added { OnOk result (IsAdded (class ∷ []) self.old.found.items self.new.found.items) }
    {
        let at = class.0 as usize;
        if !self.marks[at] {
            self.found.push(class)?;
            self.marks[at] = true;
        }
        Ok(())
    }

    /// Adds the classes of a row that are not found yet.
    pub(crate) fn add_all(&mut self, row: &[ClassId]) -> Result<(), AllocError>
        requires marked { AreMarked self.old.marks.items self.old.found.items }
        requires within { All (λ (class : ClassId). class.0 < vec_len self.old.marks) row.now }
        ensures marked { AreMarked self.new.marks.items self.new.found.items }
        ensures same_length { vec_len self.new.marks ≡ vec_len self.old.marks }
        ensures added { OnOk result (IsAdded row.now self.old.found.items self.new.found.items) }
    {
        for class in row {
            self.add(*class)?;
        }
        Ok(())
    }
}

/// The classes that one class reaches.
pub(crate) fn reached_from(
    alloc: Global,
    steps: &[List<ClassId>],
    from: ClassId,
) -> Result<List<ClassId>, AllocError>
    requires table { IsTable steps.now }
    requires within { from.0 < length steps.now }
    ensures { IfOk result (AreReached steps.now from) }
{
    let mut search = Search {
        marks: vec![in alloc; false; steps.len()]?,
        found: Vec::new(alloc),
    };
    search.add_all(steps[from.0 as usize].as_slice())?;
    let mut at = 0;
    while at < search.found.len() {
        let class = search.found[at];
        search.add_all(steps[class.0 as usize].as_slice())?;
        at += 1;
    }
    let Search { marks: _, found } = search;
    Ok(List::from_vec(found))
}

/// At the place of each class all those that it reaches.
pub(crate) fn closure(
    alloc: Global,
    steps: &[List<ClassId>],
) -> Result<List<List<ClassId>>, AllocError>
    requires few { length steps.now < 2 ^ 32 }
    requires table { IsTable steps.now }
    ensures { IfOk result (IsClosure steps.now) }
{
    let mut rows = Vec::new(alloc);
    for at in 0..steps.len() {
        rows.push(reached_from(alloc, steps, ClassId(at as u32))?)?;
    }
    Ok(List::from_vec(rows))
}

/// Whether a class is in a row.
pub(crate) fn has(row: &[ClassId], class: ClassId) -> bool
    ensures { IsTrue result ↔ Contains row.now class }
{
    row.contains(&class)
}

/// The first class that is in its own row.
pub(crate) fn first_cycle(rows: &[List<ClassId>]) -> Option<ClassId>
    requires { length rows.now < 2 ^ 32 }
    ensures { MatchOption result
        ((class : ClassId) (row : List ClassId) → slice_get rows.now class.0 ≡ Some row → ¬ Contains row class)
        (λ class. (row : List ClassId) × (slice_get rows.now class.0 ≡ Some row) × Contains row class) }
{
    for (at, row) in rows.iter().enumerate() {
        let class = ClassId(at as u32);
        if has(row.as_slice(), class) {
            return Some(class);
        }
    }
    None
}
