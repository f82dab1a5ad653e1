// Which classes lead to which, by their full names: to their bases, value classes to the types of what they hold (ECMA-372, 21.1 and 22.1).
ghost use Rattle.std.specs.Prelude.{◌≡◌, ◌++◌, List, [], ◌∷◌, map, OnOk, IfOk};
ghost use Rattle.std.specs.List.{flat_map};
ghost use Rattle.std.specs.Option.{option_copied};
ghost use Rattle.cc_names.specs.Classes as classes;
ghost use Rattle.cc_names.specs.FullNames as names;
ghost use Rattle.cc_names.specs.Keys as keys;
ghost use Rattle.cc_names.specs.Outermost.{within};
ghost use Rattle.cc_names.specs.Refusals as spec;
ghost use Rattle.cc_names.specs.Spaces as spaces;
ghost use Rattle.cc_names.specs.Spaces.{space};
ghost use Rattle.cc_names.specs.Told.{told, told_all};

use crate::class_members::{held_type, is_value_class};
use crate::find_type::Here;
use crate::known::{Keys, Space, Ways};
use crate::standing::{Outermost, Standing, within};
use cc_base::{List, Name};
use cc_tree::Class;
use std::alloc::{AllocError, Global};

/// Names, and the names to which they lead in the same order.
#[derive(Drop)]
pub(crate) struct Pairs {
    pub(crate) firsts: List<Name>,
    pub(crate) seconds: List<Name>,
}

impl Pairs {
    fn new(alloc: Global) -> Pairs
        ensures { result ≡ record { firsts = []; seconds = [] } }
    {
        Pairs {
            firsts: List::new(alloc),
            seconds: List::new(alloc),
        }
    }

    /// Adds a name with the name to which it leads, where there is one.
    fn add(&mut self, alloc: Global, name: &[u8], second: Option<Name>) -> Result<(), AllocError>
        ensures { OnOk result (self.new ≡ spaces.with_pairs self.old name.now (names.name_list second)) }
    {
        match second {
            None => Ok(()),
            Some(second) => {
                let first = List::from_slice(alloc, name)?;
                self.firsts.push(first)?;
                self.seconds.push(second)?;
                Ok(())
            }
        }
    }

    /// Adds a class with each of its bases that is found.
    fn add_bases(&mut self, alloc: Global, here: &Here<'_>, class: &Class) -> Result<(), AllocError>
        ensures { OnOk result (self.new ≡ spaces.with_pairs self.old (within here.now.path.now «class».now.name.name) (classes.base_seconds (space here.now.space.now) here.now.path.now «class».now)) }
    {
        let name = within(alloc, here.path, class.name.name.as_slice())?;
        for base in class.bases.as_slice() {
            let second = here.full_name(alloc, &base.of)?;
            self.add(alloc, name.as_slice(), second)?;
        }
        Ok(())
    }

    /// Adds a value class with the type of each thing that it holds, where it is found.
    fn add_held(&mut self, alloc: Global, here: &Here<'_>, class: &Class) -> Result<(), AllocError>
        ensures { OnOk result (self.new ≡ spaces.with_pairs self.old (within here.now.path.now «class».now.name.name) (classes.held_seconds (space here.now.space.now) here.now.path.now «class».now)) }
    {
        if !is_value_class(class.key.word) {
            return Ok(());
        }
        let name = within(alloc, here.path, class.name.name.as_slice())?;
        for member in class.members.as_slice() {
            let second = here.optional_full_name(alloc, held_type(member))?;
            self.add(alloc, name.as_slice(), second)?;
        }
        Ok(())
    }

    fn into_ways(self, alloc: Global) -> Result<Ways, AllocError>
        ensures { IfOk result (λ made. spaces.ways made ≡ record { firsts = self.firsts; seconds = self.seconds }) }
    {
        let Pairs { firsts, seconds } = self;
        Ok(Ways {
            firsts: Keys::new(alloc, firsts)?,
            seconds,
        })
    }
}

/// The class that something outside classes is.
pub(crate) fn class_of<'a>(what: &Outermost<'a>) -> Option<&'a Class>
    ensures { spec.class_list (option_copied result) ≡ spec.class_of (told what.now) }
{
    match what {
        Outermost::Directive(_, _) => None,
        Outermost::Part => None,
        Outermost::Class(class) => Some(*class),
        Outermost::Enumeration(_) => None,
        Outermost::Forward(_) => None,
        Outermost::Template(_) => None,
        Outermost::Function(_) => None,
    }
}

/// No class that leads to another.
pub(crate) fn no_ways(alloc: Global) -> Result<Ways, AllocError>
    ensures { IfOk result (λ made. spaces.ways made ≡ spec.no_ways) }
{
    Pairs::new(alloc).into_ways(alloc)
}

/// Each class with each of its bases that is found.
pub(crate) fn base_ways(
    alloc: Global,
    space: &Space,
    all: &[Standing<'_>],
) -> Result<Ways, AllocError>
    ensures { IfOk result (λ made. spaces.ways made ≡ classes.ways_of (classes.base_seconds (spaces.space space.now)) (spec.classes_of (told_all all.now))) }
{
    let mut pairs = Pairs::new(alloc);
    for one in all {
        let here = Here {
            space,
            path: one.path.as_slice(),
        };
        match class_of(&one.what) {
            None => {}
            Some(class) => pairs.add_bases(alloc, &here, class)?,
        }
    }
    pairs.into_ways(alloc)
}

/// Each value class with the type of each thing that it holds, where it is found.
pub(crate) fn held_ways(
    alloc: Global,
    space: &Space,
    all: &[Standing<'_>],
) -> Result<Ways, AllocError>
    ensures { IfOk result (λ made. spaces.ways made ≡ classes.ways_of (classes.held_seconds (spaces.space space.now)) (spec.classes_of (told_all all.now))) }
{
    let mut pairs = Pairs::new(alloc);
    for one in all {
        let here = Here {
            space,
            path: one.path.as_slice(),
        };
        match class_of(&one.what) {
            None => {}
            Some(class) => pairs.add_held(alloc, &here, class)?,
        }
    }
    pairs.into_ways(alloc)
}
