// What classes are refused for: their bases (ECMA-372, 21.1, 22.1 and 24.1).
ghost use Rattle.std.specs.Prelude.{◌≡◌, List, [], ◌∷◌, ◌++◌, ◌&&◌, ◌||◌, not, map, codes, Some, IfOk, OnOk};
ghost use Rattle.std.specs.List.{list_any};
ghost use Rattle.std.specs.Option.{option_copied};
ghost use Rattle.std.specs.Str.{bytes_eq};
ghost use Rattle.cc_names.specs.declared.refusal.NameKind.TheVariants as NameKind;
ghost use Rattle.cc_names.specs.Checks as checks;
ghost use Rattle.cc_names.specs.Checks.{run, both};
ghost use Rattle.cc_names.specs.Classes as spec;
ghost use Rattle.cc_names.specs.FullNames.{name_list};
ghost use Rattle.cc_names.specs.Keys.{leads_from};
ghost use Rattle.cc_names.specs.Outermost.{within};
ghost use Rattle.cc_names.specs.Spelling.{spelling};
ghost use Rattle.cc_names.specs.Spaces.{space};

use crate::find_type::Here;
use crate::forming::is_array;
use crate::known::{Form, Known};
use crate::refusal::{NameKind, Refusal, refused_if};
use crate::spelling::spelling;
use crate::standing::within;
use cc_base::{List, Name, Span};
use cc_tree::{Base, Class, ClassWord, TypeName};
use std::alloc::{AllocError, Global};

/// What a base is to a class that derives from it.
#[derive(Clone, Copy)]
pub(crate) enum BaseSort {
    /// Nothing is known of it, since it is refused as a name.
    Unknown,
    Class,
    Interface,
    /// A type from which no class derives.
    Closed,
}

fn open_sort(form: Form) -> BaseSort
    ensures { result ≡ spec.open_sort form }
{
    match form {
        Form::Value => BaseSort::Closed,
        Form::Handle => BaseSort::Class,
        Form::Interface => BaseSort::Interface,
        Form::NamedOnly => BaseSort::Closed,
    }
}

fn known_sort(known: Option<&Known>) -> BaseSort
    ensures { result ≡ spec.known_sort (option_copied known.entry) }
{
    match known {
        None => BaseSort::Unknown,
        Some(known) => {
            if known.is_open {
                open_sort(known.form)
            } else {
                BaseSort::Closed
            }
        }
    }
}

fn is_unknown(sort: BaseSort) -> bool
    ensures { result ≡ spec.is_unknown sort }
{
    match sort {
        BaseSort::Unknown => true,
        BaseSort::Class => false,
        BaseSort::Interface => false,
        BaseSort::Closed => false,
    }
}

fn is_class(sort: BaseSort) -> bool
    ensures { result ≡ spec.is_class sort }
{
    match sort {
        BaseSort::Unknown => false,
        BaseSort::Class => true,
        BaseSort::Interface => false,
        BaseSort::Closed => false,
    }
}

fn is_closed(sort: BaseSort) -> bool
    ensures { result ≡ spec.is_closed sort }
{
    match sort {
        BaseSort::Unknown => false,
        BaseSort::Class => false,
        BaseSort::Interface => false,
        BaseSort::Closed => true,
    }
}

/// Whether a class may derive from a class, and not from interfaces alone.
fn takes_class(word: ClassWord) -> bool
    ensures { result ≡ spec.takes_class word }
{
    match word {
        ClassWord::Ref => true,
        ClassWord::Value => false,
        ClassWord::Interface => false,
    }
}

/// Whether a name is one of some.
fn is_one_of(names: &[Name], name: &[u8]) -> bool
    ensures { result ≡ list_any (λ other. bytes_eq other name.now) names.now }
{
    for other in names {
        if other.as_slice() == name {
            return true;
        }
    }
    false
}

/// Whether a name, where there is one, is among some.
fn is_among(names: &[Name], name: &Option<Name>) -> bool
    ensures { result ≡ spec.is_among names.now name.now }
{
    match name {
        None => false,
        Some(name) => is_one_of(names, name.as_slice()),
    }
}

/// The bases of a class that come before one: the full names of those that are found, and whether a class is among them.
#[derive(Drop)]
pub(crate) struct Earlier {
    pub(crate) names: List<Name>,
    pub(crate) has_class: bool,
}

impl Earlier {
    /// Whether a class cannot have a base of a sort and a full name after these.
    fn refuses(&self, word: ClassWord, sort: BaseSort, name: &Option<Name>) -> bool
        ensures { result ≡ spec.is_sealed_base word sort name.now self.now }
    {
        is_closed(sort)
            || is_among(self.names.as_slice(), name)
            || (is_class(sort) && (!takes_class(word) || self.has_class))
    }

    /// Adds a base of a sort and a full name.
    fn add(&mut self, sort: BaseSort, name: Option<Name>) -> Result<(), AllocError>
        ensures { OnOk result (self.new ≡ record { names = self.old.names ++ name_list name; has_class = self.old.has_class || spec.is_class sort }) }
    {
        self.has_class = self.has_class || is_class(sort);
        match name {
            None => Ok(()),
            Some(name) => {
                self.names.push(name)?;
                Ok(())
            }
        }
    }
}

/// Whether a base that is found is the interface of disposal.
fn is_disposal(alloc: Global, sort: BaseSort, of: &TypeName) -> Result<bool, AllocError>
    ensures { IfOk result (λ holds. holds ≡ (not (spec.is_unknown sort) && bytes_eq (spelling of.now) (codes "IDisposable"))) }
{
    if is_unknown(sort) {
        return Ok(false);
    }
    let spelled = spelling(alloc, of)?;
    Ok(spelled.as_slice() == b"IDisposable".as_slice())
}

/// What a base is refused for by which its class reaches itself, which it cannot have, or which disposal reserves.
fn refused_base(
    so_far: Option<Refusal>,
    is_cyclic: bool,
    is_sealed: bool,
    is_disposal: bool,
    span: Span,
) -> Option<Refusal>
    ensures { result ≡ run (both (checks.refused_if is_cyclic NameKind.CyclicBase span) (both (checks.refused_if is_sealed NameKind.SealedBase span) (checks.refused_if is_disposal NameKind.ReservedMember span))) so_far }
{
    let first = refused_if(so_far, is_cyclic, NameKind::CyclicBase, span);
    let first = refused_if(first, is_sealed, NameKind::SealedBase, span);
    refused_if(first, is_disposal, NameKind::ReservedMember, span)
}

impl Here<'_> {
    /// What a base is to a class that derives from it.
    fn base_sort(&self, of: &TypeName) -> BaseSort
        ensures { result ≡ spec.sort_of_base (space self.now.space.now) self.now.path.now of.now }
    {
        match of {
            TypeName::Fundamental(_, _) => BaseSort::Unknown,
            TypeName::Named(names, name, _, span) => {
                let names = names.as_slice();
                let name = name.name.as_slice();
                if is_array(names, name) {
                    BaseSort::Closed
                } else {
                    known_sort(self.found_type(span.first, names, name))
                }
            }
            TypeName::Marked(_, _, _, _) => BaseSort::Unknown,
        }
    }

    /// Whether a class reaches itself by a base of a full name.
    fn reaches(&self, alloc: Global, base: &Option<Name>, class: &Class) -> Result<bool, AllocError>
        ensures { IfOk result (λ holds. holds ≡ leads_from (space self.now.space.now).bases base.now (within self.now.path.now «class».now.name.name)) }
    {
        let name = within(alloc, self.path, class.name.name.as_slice())?;
        self.space.bases.leads_from(alloc, base, name.as_slice())
    }

    /// What a base is refused for, after the earlier ones of its class; adds it to these.
    fn base(
        &self,
        so_far: Option<Refusal>,
        alloc: Global,
        class: &Class,
        earlier: &mut Earlier,
        base: &Base,
    ) -> Result<Option<Refusal>, AllocError>
        ensures refused { IfOk result (λ first. first ≡ run (spec.base_checks (space self.now.space.now) self.now.path.now «class».now earlier.old base.now) so_far) }
        ensures added { OnOk result (earlier.new ≡ spec.with_base (space self.now.space.now) self.now.path.now earlier.old base.now) }
    {
        let sort = self.base_sort(&base.of);
        let name = self.full_name(alloc, &base.of)?;
        let is_cyclic = self.reaches(alloc, &name, class)?;
        let is_sealed = earlier.refuses(class.key.word, sort, &name);
        let is_disposal = is_disposal(alloc, sort, &base.of)?;
        let first = refused_base(so_far, is_cyclic, is_sealed, is_disposal, base.span);
        earlier.add(sort, name)?;
        Ok(first)
    }

    /// What the bases of a class are refused for.
    pub(crate) fn base_classes(
        &self,
        so_far: Option<Refusal>,
        alloc: Global,
        class: &Class,
    ) -> Result<Option<Refusal>, AllocError>
        ensures { IfOk result (λ first. first ≡ run (spec.bases_checks (space self.now.space.now) self.now.path.now «class».now spec.no_bases «class».now.bases) so_far) }
    {
        let mut earlier = Earlier {
            names: List::new(alloc),
            has_class: false,
        };
        let mut first = so_far;
        'bases: for base in class.bases.as_slice() {
            first = self.base(first, alloc, class, &mut earlier, base)?;
        }
        Ok(first)
    }
}
