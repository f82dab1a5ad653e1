// What the names in a source may mean, from what stands outside its classes (ECMA-372, 10.4 and 12).
ghost use Rattle.std.specs.Prelude.{◌≡◌, ◌++◌, List, [], ◌∷◌, map, Some, IfOk, OnOk};
ghost use Rattle.std.specs.List.{flat_map, list_any};
ghost use Rattle.cc_names.specs.Types as types;
ghost use Rattle.cc_names.specs.Refusals as spec;
ghost use Rattle.cc_names.specs.Spaces as spaces;
ghost use Rattle.cc_names.specs.Told.{told, told_one, told_all};

use crate::catalogue::LIBRARY;
use crate::known::{Directed, Form, Keys, Known, Space};
use crate::library::{LibraryForm, Row};
use crate::paths::path_of;
use crate::spelling::{signature_into, spell};
use crate::standing::{Outermost, Standing, within};
use crate::ways::{base_ways, held_ways, no_ways};
use cc_base::{List, Name};
use cc_tree::{Class, ClassModifier, ClassWord, Function, Template};
use std::alloc::{AllocError, Global};

/// Types, and their names in the same order.
#[derive(Drop)]
struct Types {
    types: List<Known>,
    names: List<Name>,
}

fn form_of(word: ClassWord) -> Form
    ensures { result ≡ types.form_of word }
{
    match word {
        ClassWord::Ref => Form::Handle,
        ClassWord::Value => Form::Value,
        ClassWord::Interface => Form::Interface,
    }
}

/// Whether a class of a form may have classes that derive from it.
fn may_be_base(form: Form) -> bool
    ensures { result ≡ types.may_be_base form }
{
    match form {
        Form::Value => false,
        Form::Handle => true,
        Form::Interface => true,
        Form::NamedOnly => false,
    }
}

fn is_sealed(modifiers: &[ClassModifier]) -> bool
    ensures { result ≡ list_any types.is_sealed_word modifiers.now }
{
    for modifier in modifiers {
        match *modifier {
            ClassModifier::Abstract => {}
            ClassModifier::Sealed => return true,
        }
    }
    false
}

fn library_form(of: LibraryForm) -> Form
    ensures { result ≡ types.library_type_form of }
{
    match of {
        LibraryForm::Class => Form::Handle,
        LibraryForm::SealedClass => Form::Handle,
        LibraryForm::Interface => Form::Interface,
        LibraryForm::Fundamental => Form::Value,
        LibraryForm::NamedOnly => Form::NamedOnly,
    }
}

fn is_open_form(of: LibraryForm) -> bool
    ensures { result ≡ types.is_open_form of }
{
    match of {
        LibraryForm::Class => true,
        LibraryForm::SealedClass => false,
        LibraryForm::Interface => true,
        LibraryForm::Fundamental => false,
        LibraryForm::NamedOnly => false,
    }
}

/// The type that a class is.
fn known_class(
    alloc: Global,
    path: &[u8],
    is_template: bool,
    class: &Class,
) -> Result<Known, AllocError>
    ensures { IfOk result (λ known. known ≡ types.known_class path.now is_template «class».now) }
{
    let form = form_of(class.key.word);
    Ok(Known {
        path: List::from_slice(alloc, path)?,
        is_template,
        form,
        is_open: may_be_base(form) && !is_sealed(class.modifiers.as_slice()),
    })
}

impl Types {
    fn add(&mut self, alloc: Global, name: &[u8], known: Known) -> Result<(), AllocError>
        ensures { OnOk result (self.new ≡ spaces.with_types self.old (record { name = name.now; type_ = known } ∷ [])) }
    {
        let name = List::from_slice(alloc, name)?;
        self.names.push(name)?;
        self.types.push(known)?;
        Ok(())
    }

    /// Adds the type of a row of the library.
    fn add_row(&mut self, alloc: Global, row: &Row) -> Result<(), AllocError>
        ensures { OnOk result (self.new ≡ spaces.with_types self.old (record { name = row.now.0.now; type_ = types.library_type row.now.1 } ∷ [])) }
    {
        let known = Known {
            path: List::from_slice(alloc, b"System::")?,
            is_template: false,
            form: library_form(row.1),
            is_open: is_open_form(row.1),
        };
        self.add(alloc, row.0, known)?;
        Ok(())
    }

    /// Adds the types of rows of the library.
    #[tactic(auto, using(crate::proofs::Gathering::with_one))]
    fn add_rows(&mut self, alloc: Global, rows: &[Row]) -> Result<(), AllocError>
        ensures { OnOk result (self.new ≡ spaces.with_types self.old (map (λ row. record { name = row.0.now; type_ = types.library_type row.1 }) rows.now)) }
    {
        for row in rows {
            self.add_row(alloc, row)?;
        }
        Ok(())
    }

    /// Adds the library's types.
    fn add_library(&mut self, alloc: Global) -> Result<(), AllocError>
        ensures { OnOk result (self.new ≡ spaces.with_types self.old types.library_named) }
    {
        self.add_rows(alloc, &LIBRARY)?;
        Ok(())
    }

    fn add_class(
        &mut self,
        alloc: Global,
        path: &[u8],
        is_template: bool,
        class: &Class,
    ) -> Result<(), AllocError>
        ensures { OnOk result (self.new ≡ spaces.with_types self.old (types.named_class path.now is_template «class».now ∷ [])) }
    {
        let known = known_class(alloc, path, is_template, class)?;
        self.add(alloc, class.name.name.as_slice(), known)
    }

    /// Adds the type that something outside classes is, where it is one.
    fn add_outermost(
        &mut self,
        alloc: Global,
        path: &[u8],
        what: &Outermost<'_>,
    ) -> Result<(), AllocError>
        ensures { OnOk result (self.new ≡ spaces.with_types self.old (types.named_outermost path.now (told what.now))) }
    {
        match what {
            Outermost::Directive(_, _) => Ok(()),
            Outermost::Part => Ok(()),
            Outermost::Class(class) => self.add_class(alloc, path, false, class),
            Outermost::Enumeration(enumeration) => {
                let known = Known {
                    path: List::from_slice(alloc, path)?,
                    is_template: false,
                    form: Form::Value,
                    is_open: false,
                };
                self.add(alloc, enumeration.name.name.as_slice(), known)
            }
            Outermost::Forward(_) => Ok(()),
            Outermost::Template(template) => self.add_template(alloc, path, template),
            Outermost::Function(_) => Ok(()),
        }
    }

    fn add_template(
        &mut self,
        alloc: Global,
        path: &[u8],
        template: &Template,
    ) -> Result<(), AllocError>
        ensures { OnOk result (self.new ≡ spaces.with_types self.old (types.named_template path.now template.now)) }
    {
        match template {
            Template::Class(_, class, _) => self.add_class(alloc, path, true, class),
            Template::Function(_, _, _) => Ok(()),
        }
    }
}

/// All types that a unit may name.
fn named_types(alloc: Global, all: &[Standing<'_>]) -> Result<Types, AllocError>
    ensures types { IfOk result (λ made. made.types ≡ map (λ one. one.type_) (types.named_types (told_all all.now))) }
    ensures names { IfOk result (λ made. made.names ≡ map (λ one. one.name) (types.named_types (told_all all.now))) }
{
    let mut made = Types {
        types: List::new(alloc),
        names: List::new(alloc),
    };
    made.add_library(alloc)?;
    for one in all {
        made.add_outermost(alloc, one.path.as_slice(), &one.what)?;
    }
    Ok(made)
}

/// The using directives, in order.
fn directed(alloc: Global, all: &[Standing<'_>]) -> Result<List<Directed>, AllocError>
    ensures { IfOk result (λ list. list ≡ types.directed (told_all all.now)) }
{
    let mut list = List::new(alloc);
    for one in all {
        match &one.what {
            Outermost::Directive(names, span) => {
                let path = path_of(alloc, names)?;
                list.push(Directed {
                    path,
                    past: span.past,
                })?;
            }
            Outermost::Part => {}
            Outermost::Class(_) => {}
            Outermost::Enumeration(_) => {}
            Outermost::Forward(_) => {}
            Outermost::Template(_) => {}
            Outermost::Function(_) => {}
        }
    }
    Ok(list)
}

/// The namespaces: the library's, and those that a unit has parts of.
fn namespaces(alloc: Global, all: &[Standing<'_>]) -> Result<List<Name>, AllocError>
    ensures { IfOk result (λ list. list ≡ types.namespaces (told_all all.now)) }
{
    let mut list = List::new(alloc);
    list.push(List::from_slice(alloc, b"System::")?)?;
    for one in all {
        match &one.what {
            Outermost::Directive(_, _) => {}
            Outermost::Part => {
                list.push(List::from_slice(alloc, one.path.as_slice())?)?;
            }
            Outermost::Class(_) => {}
            Outermost::Enumeration(_) => {}
            Outermost::Forward(_) => {}
            Outermost::Template(_) => {}
            Outermost::Function(_) => {}
        }
    }
    Ok(list)
}

/// The full names of the classes.
fn class_keys(alloc: Global, all: &[Standing<'_>]) -> Result<List<Name>, AllocError>
    ensures { IfOk result (λ list. list ≡ spec.class_keys (told_all all.now)) }
{
    let mut list = List::new(alloc);
    for one in all {
        match &one.what {
            Outermost::Directive(_, _) => {}
            Outermost::Part => {}
            Outermost::Class(class) => {
                list.push(within(alloc, one.path.as_slice(), class.name.name.as_slice())?)?;
            }
            Outermost::Enumeration(_) => {}
            Outermost::Forward(_) => {}
            Outermost::Template(_) => {}
            Outermost::Function(_) => {}
        }
    }
    Ok(list)
}

/// A function's full name, its parameter types and its result.
pub(crate) fn function_key(
    alloc: Global,
    path: &[u8],
    function: &Function,
) -> Result<Name, AllocError>
    ensures { IfOk result (λ key. key ≡ spec.function_key path.now function.now) }
{
    let mut key = within(alloc, path, function.name.name.as_slice())?.into_vec();
    signature_into(&mut key, &function.parameters)?;
    key.push(b')')?;
    spell(&mut key, &function.result)?;
    Ok(List::from_vec(key))
}

/// The keys of the functions with bodies.
fn function_keys(alloc: Global, all: &[Standing<'_>]) -> Result<List<Name>, AllocError>
    ensures { IfOk result (λ list. list ≡ spec.function_keys (told_all all.now)) }
{
    let mut list = List::new(alloc);
    for one in all {
        match &one.what {
            Outermost::Directive(_, _) => {}
            Outermost::Part => {}
            Outermost::Class(_) => {}
            Outermost::Enumeration(_) => {}
            Outermost::Forward(_) => {}
            Outermost::Template(_) => {}
            Outermost::Function(function) => match &function.body {
                None => {}
                Some(_) => {
                    list.push(function_key(alloc, one.path.as_slice(), function)?)?;
                }
            },
        }
    }
    Ok(list)
}

/// What the names in a unit may mean, while no class leads to another.
fn named_space(alloc: Global, all: &[Standing<'_>]) -> Result<Space, AllocError>
    ensures { IfOk result (λ made. spaces.space made ≡ spec.named_space (told_all all.now)) }
{
    let Types { types, names } = named_types(alloc, all)?;
    let classes = class_keys(alloc, all)?;
    let functions = function_keys(alloc, all)?;
    Ok(Space {
        types,
        names: Keys::new(alloc, names)?,
        directives: directed(alloc, all)?,
        paths: namespaces(alloc, all)?,
        classes: Keys::new(alloc, classes)?,
        functions: Keys::new(alloc, functions)?,
        bases: no_ways(alloc)?,
        held: no_ways(alloc)?,
    })
}

/// What the names in a unit may mean.
pub(crate) fn space_of(alloc: Global, all: &[Standing<'_>]) -> Result<Space, AllocError>
    ensures { IfOk result (λ made. spaces.space made ≡ spec.space_of (told_all all.now)) }
{
    let mut space = named_space(alloc, all)?;
    let bases = base_ways(alloc, &space, all)?;
    let held = held_ways(alloc, &space, all)?;
    space.bases = bases;
    space.held = held;
    Ok(space)
}
