// The text of a module: its types with their fields, methods and bodies.
ghost use Rattle.std.specs.Prelude.{◌≡◌, ◌<◌, ◌≤◌, ◌+◌, ◌^◌, ◌++◌, ℕ, List, Some, length, codes, slice_get, IfOk, OnOk};
ghost use Rattle.std.specs.List.{All};
ghost use Rattle.std.specs.Option.{ForSome, option_map};
ghost use Rattle.hex.specs.Hex.{encode_lower};
ghost use Rattle.cc_module.specs.Methods.{body_place};
ghost use Rattle.cc_listing.specs.Listing.{ArePlaces, HasShortBodies, ListsBodyAt, ListsField, ListsMethod, ListsModule, ListsType, class_line, field_line, method_line, run_first, run_past};
ghost use Rattle.cc_listing.specs.Rows.{Rows};

use crate::bodies::list_body;
use cc_cil::Body;
use cc_module::{FieldRow, MethodDefRow, Module, TypeDefRow};
use std::alloc::{AllocError, Global};

/// The text of a module: a line for each type, then its fields and its methods with their signatures, and behind each method the lines of its body.
/// A type's fields and methods are those from its row of the list column up to the next type's, or to the table's end.
pub fn list(alloc: Global, module: &Module) -> Result<Vec<u8>, AllocError>
    requires { HasShortBodies «module».now }
    ensures { IfOk result (λ text. ListsModule «module».now text.items) }
{
    let places = body_places(alloc, module.methods.as_slice(), module.bodies.len())?;
    let mut text = Vec::new(alloc);
    for at in 0..module.type_defs.len() {
        list_type(alloc, module, places.as_slice(), at, &mut text)?;
    }
    Ok(text)
}

/// The places of the methods' bodies among the bodies, in the order of the methods.
fn body_places(
    alloc: Global,
    methods: &[MethodDefRow],
    bodies: usize,
) -> Result<Vec<Option<usize>>, AllocError>
    ensures { IfOk result (λ places. ArePlaces methods.now bodies places.items) }
{
    let mut places = Vec::new(alloc);
    let mut before = 0;
    for method in methods {
        places.push(body_place(method, before, bodies))?;
        before += usize::from(method.rva != 0);
    }
    Ok(places)
}

/// The place of a method's body, where so many methods with a body stand before it.
fn body_place(method: &MethodDefRow, before: usize, bodies: usize) -> Option<usize>
    ensures { result ≡ body_place (Some method.now) before bodies }
{
    if method.rva != 0 && before < bodies {
        Some(before)
    } else {
        None
    }
}

/// Adds the lines of the type at a place of TypeDef.
fn list_type(
    alloc: Global,
    module: &Module,
    places: &[Option<usize>],
    at: usize,
    into: &mut Vec<u8>,
) -> Result<(), AllocError>
    requires there { at < length «module».now.type_defs }
    requires places { ArePlaces «module».now.methods (length «module».now.bodies) places.now }
    requires short { HasShortBodies «module».now }
    ensures { OnOk result ((text : List ℕ) × ListsType «module».now at text × (into.new.items ≡ into.old.items ++ text)) }
{
    let types = module.type_defs.as_slice();
    let fields = module.fields.as_slice();
    let methods = module.methods.as_slice();
    let class = &types[at];
    let (next_fields, next_methods) = next_starts(types, at);
    let field_run = run_of(class.fields.0, next_fields, fields.len());
    let method_run = run_of(class.methods.0, next_methods, methods.len());
    let line = class_line(alloc, class)?;
    into.extend_from_slice(line.as_slice())?;
    list_fields(alloc, fields, field_run.first, field_run.past, into)?;
    list_methods(
        alloc,
        module,
        places,
        method_run.first,
        method_run.past,
        into,
    )
}

/// Where the runs of the next type's fields and methods begin.
fn next_starts(types: &[TypeDefRow], at: usize) -> (Option<u32>, Option<u32>)
    requires { at < length types.now }
    ensures fields { result.0 ≡ option_map (λ next. next.fields.0) (slice_get types.now (at + 1)) }
    ensures methods { result.1 ≡ option_map (λ next. next.methods.0) (slice_get types.now (at + 1)) }
{
    match types.get(at + 1) {
        Some(next) => (Some(next.fields.0), Some(next.methods.0)),
        None => (None, None),
    }
}

/// Rows of a table from the first up to, but not including, the one past its last, counted from 1.
#[derive(Clone, Copy)]
struct Run {
    first: usize,
    past: usize,
}

/// The run of a list column over a table of so many rows.
fn run_of(start: u32, next: Option<u32>, count: usize) -> Run
    requires { count < 2 ^ 63 }
    ensures first { result.first ≡ run_first start }
    ensures past { result.past ≡ run_past next count }
{
    let first = (start as usize).max(1);
    let past = match next {
        Some(next) => (next as usize).min(count + 1),
        None => count + 1,
    };
    Run { first, past }
}

/// Adds the lines of the fields from a row on.
fn list_fields(
    alloc: Global,
    fields: &[FieldRow],
    first: usize,
    past: usize,
    into: &mut Vec<u8>,
) -> Result<(), AllocError>
    requires counted { 1 ≤ first }
    requires within { past ≤ length fields.now + 1 }
    ensures { OnOk result ((text : List ℕ) × Rows (ListsField fields.now) first past text × (into.new.items ≡ into.old.items ++ text)) }
{
    for row in first..past {
        let line = field_line(alloc, &fields[row - 1])?;
        into.extend_from_slice(line.as_slice())?;
    }
    Ok(())
}

/// Adds the lines of the methods from a row on, with their bodies.
fn list_methods(
    alloc: Global,
    module: &Module,
    places: &[Option<usize>],
    first: usize,
    past: usize,
    into: &mut Vec<u8>,
) -> Result<(), AllocError>
    requires counted { 1 ≤ first }
    requires within { past ≤ length «module».now.methods + 1 }
    requires places { ArePlaces «module».now.methods (length «module».now.bodies) places.now }
    requires short { HasShortBodies «module».now }
    ensures { OnOk result ((text : List ℕ) × Rows (ListsMethod «module».now) first past text × (into.new.items ≡ into.old.items ++ text)) }
{
    for row in first..past {
        list_method(alloc, module, places, row, into)?;
    }
    Ok(())
}

/// Adds the line of a method and those of its body.
fn list_method(
    alloc: Global,
    module: &Module,
    places: &[Option<usize>],
    row: usize,
    into: &mut Vec<u8>,
) -> Result<(), AllocError>
    requires counted { 1 ≤ row }
    requires within { row ≤ length «module».now.methods }
    requires places { ArePlaces «module».now.methods (length «module».now.bodies) places.now }
    requires short { HasShortBodies «module».now }
    ensures { OnOk result ((text : List ℕ) × ListsMethod «module».now row text × (into.new.items ≡ into.old.items ++ text)) }
{
    let line = method_line(alloc, &module.methods.as_slice()[row - 1])?;
    into.extend_from_slice(line.as_slice())?;
    list_body_at(alloc, module.bodies.as_slice(), places[row - 1], into)
}

/// Adds the lines of the body at a place, if there is one.
fn list_body_at(
    alloc: Global,
    bodies: &[Body],
    place: Option<usize>,
    into: &mut Vec<u8>,
) -> Result<(), AllocError>
    requires within { ForSome place (λ place. place < length bodies.now) }
    requires short { All (λ body. length body.code < 2 ^ 32) bodies.now }
    ensures { OnOk result ((text : List ℕ) × ListsBodyAt bodies.now place text × (into.new.items ≡ into.old.items ++ text)) }
{
    match place {
        Some(place) => list_body(alloc, &bodies[place], into),
        None => Ok(()),
    }
}

fn class_line(alloc: Global, class: &TypeDefRow) -> Result<Vec<u8>, AllocError>
    ensures { IfOk result (λ line. line.items ≡ class_line class.now) }
{
    let mut line = Vec::from_slice(alloc, b"class ")?;
    if !class.namespace.is_empty() {
        line.extend_from_slice(class.namespace.as_slice())?;
        line.push(b'.')?;
    }
    line.extend_from_slice(class.name.as_slice())?;
    line.push(b'\n')?;
    Ok(line)
}

fn field_line(alloc: Global, field: &FieldRow) -> Result<Vec<u8>, AllocError>
    ensures { IfOk result (λ line. line.items ≡ field_line field.now) }
{
    member_line(
        alloc,
        b"  field ",
        field.name.as_slice(),
        field.signature.as_slice(),
    )
}

fn method_line(alloc: Global, method: &MethodDefRow) -> Result<Vec<u8>, AllocError>
    ensures { IfOk result (λ line. line.items ≡ method_line method.now) }
{
    member_line(
        alloc,
        b"  method ",
        method.name.as_slice(),
        method.signature.as_slice(),
    )
}

/// What a member is, its name, and its signature in hexadecimal digits.
fn member_line(
    alloc: Global,
    front: &[u8],
    name: &[u8],
    signature: &[u8],
) -> Result<Vec<u8>, AllocError>
    ensures { IfOk result (λ line. line.items ≡ front.now ++ name.now ++ codes " " ++ encode_lower signature.now ++ codes "\n") }
{
    let digits = hex::encode(alloc, signature)?;
    let mut line = Vec::from_slice(alloc, front)?;
    line.extend_from_slice(name)?;
    line.push(b' ')?;
    line.extend_from_slice(digits.as_bytes())?;
    line.push(b'\n')?;
    Ok(line)
}
