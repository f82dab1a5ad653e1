// All classes of a program, with what holds of them together.
ghost use Rattle.std.specs.Prelude.{◌≡◌, ◌+◌, ◌<◌, ◌≤◌, ◌^◌, ◌↔◌, List, map, length, IfOk, IfErr, OnOk, IsTrue, MatchOption, slice_get, sum_by, Some};
ghost use Rattle.std.specs.List.{list_all};
ghost use Rattle.cc_core.specs.Classes.{class_within, parents, parts, Derives, Holds, AreClasses};
ghost use Rattle.cc_base.specs.declared.identifiers.ClassId.{ClassId};
ghost use Rattle.cc_core.specs.ClassesFaults.{IsBroken};
ghost use Rattle.cc_core.specs.Search.{IsClosure};

use crate::ClassesFault;
use crate::named::{is_class_within, parents_of, parts_of};
use crate::search::{closure, first_cycle, has};
use crate::types::ClassInfo;
use cc_base::{ClassId, List};
use std::alloc::{AllocError, Global};
use std::marker::Model;

/// All classes of a program: the library's, then the one that has the functions outside classes, then those of the
/// source in its order. They are fewer than 2^32, and so are their fields and their functions; each class that one of
/// them names is among them; none reaches itself through bases and interfaces; and no value class contains itself
/// (ECMA-372, 12.2, 21, 22 and 24; ECMA-335, I.8.9).
#[derive(Drop)]
pub struct Classes {
    classes: List<ClassInfo>,
    /// At the place of each class all those that it derives from.
    ancestors: List<List<ClassId>>,
}

impl Model for Classes {
    ghost use Rattle.std.specs.Prelude.{List, map};
    ghost use Rattle.std.specs.Coded.{coded_list};
    ghost use Rattle.cc_core.specs.declared.types.ClassInfo.{ClassInfo};
    ghost use Rattle.cc_core.specs.contracts.types.ClassInfo as info;

    ghost Value = { List ClassInfo };

    ghost coded = { coded_list info.the_row.coded };

    ghost use Rattle.cc_core.specs.Classes.{AreClasses, parents};
    ghost use Rattle.cc_core.specs.Search.{IsClosure};

    ghost view = { λ inside. inside.classes };

    ghost invariant = { λ inside. AreClasses inside.classes × IsClosure (map parents inside.classes) inside.ancestors };
}

impl Classes {
    /// The classes of a program. A list that is none is refused with what is wrong with it.
    pub fn new(alloc: Global, classes: List<ClassInfo>) -> Result<Classes, ClassesFault>
        ensures ok { IfOk result (λ made. made ≡ classes) }
        ensures err { IfErr result (IsBroken classes) }
    {
        check_counts(classes.as_slice())?;
        check_named(classes.as_slice())?;
        let ancestors = ancestors_of(alloc, classes.as_slice())?;
        check_parts(alloc, classes.as_slice())?;
        Ok(Classes { classes, ancestors })
    }

    /// The classes as a slice, in which the number of a class is its place.
    pub fn as_slice(&self) -> &[ClassInfo]
        ensures value { result.now ≡ self.now }
        ensures sound { AreClasses self.now }
    {
        self.classes.as_slice()
    }

    /// The class of a number.
    pub fn get(&self, class: ClassId) -> &ClassInfo
        requires { class.0 < length self.now }
        ensures { slice_get self.now class.0 ≡ Some result.now }
    {
        &self.classes.as_slice()[class.0 as usize]
    }

    /// Whether a class reaches another one through bases and interfaces.
    pub fn derives(&self, from: ClassId, to: ClassId) -> bool
        ensures { IsTrue result ↔ Derives self.now from to }
    {
        match self.ancestors.get(from.0 as usize) {
            Some(row) => has(row.as_slice(), to),
            None => false,
        }
    }
}

/// The sum of a number and a length, `None` exactly where it is 2^32 or more.
fn counted(before: u32, length_of: usize) -> Option<u32>
    ensures { MatchOption result (2 ^ 32 ≤ before + length_of) (λ sum. sum ≡ before + length_of) }
{
    let more = u32::try_from(length_of).ok()?;
    before.checked_add(more)
}

/// The number of all fields, `None` exactly where there are 2^32 or more.
fn count_fields(classes: &[ClassInfo]) -> Option<u32>
    ensures { MatchOption result
        (2 ^ 32 ≤ sum_by (λ class. length class.fields) classes.now)
        (λ sum. sum ≡ sum_by (λ class. length class.fields) classes.now) }
{
    let mut sum = 0;
    for class in classes {
        sum = counted(sum, class.fields.len())?;
    }
    Some(sum)
}

/// The number of all functions, `None` exactly where there are 2^32 or more.
fn count_methods(classes: &[ClassInfo]) -> Option<u32>
    ensures { MatchOption result
        (2 ^ 32 ≤ sum_by (λ class. length class.methods) classes.now)
        (λ sum. sum ≡ sum_by (λ class. length class.methods) classes.now) }
{
    let mut sum = 0;
    for class in classes {
        sum = counted(sum, class.methods.len())?;
    }
    Some(sum)
}

/// Refuses too many classes, fields or functions.
fn check_counts(classes: &[ClassInfo]) -> Result<(), ClassesFault>
    ensures classes { OnOk result (length classes.now < 2 ^ 32) }
    ensures fields { OnOk result (sum_by (λ class. length class.fields) classes.now < 2 ^ 32) }
    ensures methods { OnOk result (sum_by (λ class. length class.methods) classes.now < 2 ^ 32) }
    ensures err { IfErr result (IsBroken classes.now) }
{
    if u32::try_from(classes.len()).is_err() {
        return Err(ClassesFault::TooManyClasses);
    }
    if count_fields(classes).is_none() {
        return Err(ClassesFault::TooManyFields);
    }
    if count_methods(classes).is_none() {
        return Err(ClassesFault::TooManyMethods);
    }
    Ok(())
}

/// Refuses the first class that names a class by a number that none has.
fn check_named(classes: &[ClassInfo]) -> Result<(), ClassesFault>
    requires { length classes.now < 2 ^ 32 }
    ensures ok { OnOk result (IsTrue (list_all (class_within (length classes.now)) classes.now)) }
    ensures err { IfErr result (IsBroken classes.now) }
{
    for (at, class) in classes.iter().enumerate() {
        if !is_class_within(class, classes.len()) {
            return Err(ClassesFault::NamesNoClass(ClassId(at as u32)));
        }
    }
    Ok(())
}

/// At the place of each class those that it derives from directly.
fn parent_table(alloc: Global, classes: &[ClassInfo]) -> Result<List<List<ClassId>>, AllocError>
    ensures { IfOk result (λ table. table ≡ map parents classes.now) }
{
    let mut table = Vec::new(alloc);
    for class in classes {
        table.push(parents_of(alloc, class)?)?;
    }
    Ok(List::from_vec(table))
}

/// At the place of each value class those of which its values are made.
fn part_table(alloc: Global, classes: &[ClassInfo]) -> Result<List<List<ClassId>>, AllocError>
    ensures { IfOk result (λ table. table ≡ map parts classes.now) }
{
    let mut table = Vec::new(alloc);
    for class in classes {
        table.push(parts_of(alloc, class)?)?;
    }
    Ok(List::from_vec(table))
}

/// At the place of each class all those that it derives from. The first class that derives from itself is refused.
fn ancestors_of(alloc: Global, classes: &[ClassInfo]) -> Result<List<List<ClassId>>, ClassesFault>
    requires few { length classes.now < 2 ^ 32 }
    requires within { IsTrue (list_all (class_within (length classes.now)) classes.now) }
    ensures closure { IfOk result (IsClosure (map parents classes.now)) }
    ensures no_cycle { OnOk result ((class : ClassId) → ¬ Derives classes.now class class) }
    ensures err { IfErr result (IsBroken classes.now) }
{
    let table = parent_table(alloc, classes)?;
    let ancestors = closure(alloc, table.as_slice())?;
    match first_cycle(ancestors.as_slice()) {
        Some(class) => Err(ClassesFault::DerivesFromItself(class)),
        None => Ok(ancestors),
    }
}

/// Refuses the first value class that contains itself.
fn check_parts(alloc: Global, classes: &[ClassInfo]) -> Result<(), ClassesFault>
    requires few { length classes.now < 2 ^ 32 }
    requires within { IsTrue (list_all (class_within (length classes.now)) classes.now) }
    ensures ok { OnOk result ((class : ClassId) → ¬ Holds classes.now class class) }
    ensures err { IfErr result (IsBroken classes.now) }
{
    let table = part_table(alloc, classes)?;
    let rows = closure(alloc, table.as_slice())?;
    match first_cycle(rows.as_slice()) {
        Some(class) => Err(ClassesFault::HoldsItself(class)),
        None => Ok(()),
    }
}
