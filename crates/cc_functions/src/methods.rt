// The methods of a program: rows of MethodDef and StandAloneSig, and bodies (ECMA-335, II.22.26, II.22.36 and II.25.4).
ghost use Rattle.std.specs.Prelude.{◌≡◌, ◌<◌, ◌≤◌, ◌^◌, ◌+◌, ◌++◌, ◌∷◌, [], length, IfOk, OnOk};
ghost use Rattle.std.specs.List.{AllByRecursion};
ghost use Rattle.cc_cil.specs.Bodies.{body_bytes};
ghost use Rattle.cc_module.specs.Storable.{FIRST_BODY, aligned};
ghost use Rattle.cc_functions.specs.Program as spec;
ghost use Rattle.cc_functions.specs.Fits.{FitsFunction, HasLocals, size_of, total_size};

use crate::function::Function;
use crate::signatures::blob_of;
use cc_base::List;
use cc_cil::Body;
use cc_module::{MethodDefRow, ParamIndex, Signature, StandAloneSigRow};
use std::alloc::{AllocError, Global};

/// Where the first body begins, behind the header of the loaded section.
const FIRST_BODY: u32 = 0x2048;

/// Public and static (II.23.1.10).
const PUBLIC_STATIC: u16 = 0x16;

/// The number of StandAloneSig, in the highest byte of a token (III.1.9).
const SIGNATURE: u32 = 0x1100_0000;

/// What the methods of a program are made of in its module.
#[derive(Drop)]
pub struct Methods {
    pub rows: List<MethodDefRow>,
    /// The signatures of the local variables of those that have some.
    pub locals: List<StandAloneSigRow>,
    pub bodies: List<Body>,
    /// Where the next body begins.
    pub place: u32,
}

// The size of a body without clauses (II.25.4.2 and II.25.4.3).
fn body_size(body: &Body) -> u32
    requires code { length body.now.code < 2 ^ 29 }
    requires clauses { body.now.clauses ≡ [] }
    ensures { result ≡ length (body_bytes body.now) }
{
    let size = body.code.len() as u32;
    let tiny = size < 64 && body.locals == 0 && body.max_stack == 8;
    if tiny { 1 + size } else { 12 + size }
}

// Where the body behind one begins, which begins at a place and has this size: at a multiple of four.
fn place_behind(place: u32, size: u32) -> u32
    requires { place + size < 2 ^ 30 }
    ensures { result ≡ aligned (place + size) }
{
    let past = place + size;
    past + (4 - past % 4) % 4
}

// The token of the signature of local variables that stands in a row, 0 where there are none.
fn locals_token(row: u32, locals: &Option<Signature>) -> u32
    requires { row < 2 ^ 24 }
    ensures { result ≡ spec.locals_token row locals.now }
{
    match locals {
        None => 0,
        Some(_) => SIGNATURE + row,
    }
}

// Appends the signature of local variables, where there are some.
fn append_locals(
    alloc: Global,
    rows: &mut List<StandAloneSigRow>,
    locals: &Option<Signature>,
) -> Result<(), AllocError>
    requires { HasLocals locals.now }
    ensures { OnOk result (rows.new ≡ rows.old ++ spec.local_row locals.now) }
{
    match locals {
        None => Ok(()),
        Some(signature) => {
            let signature = blob_of(alloc, signature)?;
            rows.push(StandAloneSigRow { signature })?;
            Ok(())
        }
    }
}

// The body of a function, the signature of whose local variables stands in this row.
fn body_of(alloc: Global, row: u32, function: &Function) -> Result<Body, AllocError>
    requires { row < 2 ^ 24 }
    ensures { IfOk result (λ body. body ≡ spec.body row function.now) }
{
    let code = List::from_slice(alloc, function.code.as_slice())?;
    Ok(Body {
        max_stack: function.max_stack,
        locals: locals_token(row, &function.locals),
        code,
        clauses: List::new(alloc),
    })
}

// The row of a function, whose body begins at a place.
fn row_of(alloc: Global, place: u32, function: &Function) -> Result<MethodDefRow, AllocError>
    requires { FitsFunction function.now }
    ensures { IfOk result (λ row. row ≡ spec.method_row place function.now) }
{
    let name = List::from_slice(alloc, function.name.as_slice())?;
    let signature = blob_of(alloc, &function.signature)?;
    Ok(MethodDefRow {
        rva: place,
        flags: PUBLIC_STATIC,
        name,
        signature,
        parameters: ParamIndex(1),
    })
}

impl Methods {
    /// No methods yet.
    fn new(alloc: Global) -> Methods
        ensures { result ≡ record { rows = []; locals = []; bodies = []; place = FIRST_BODY } }
    {
        Methods {
            rows: List::new(alloc),
            locals: List::new(alloc),
            bodies: List::new(alloc),
            place: FIRST_BODY,
        }
    }

    /// Appends a function, whose body stands behind those that are there.
    fn append(&mut self, alloc: Global, function: &Function) -> Result<(), AllocError>
        requires function { FitsFunction function.now }
        requires size { self.old.place + size_of function.now ≤ 2 ^ 29 }
        requires rows { length self.old.locals + 1 < 2 ^ 24 }
        ensures rows { OnOk result (self.new.rows ≡ self.old.rows ++ spec.method_row self.old.place function.now ∷ []) }
        ensures locals { OnOk result (self.new.locals ≡ self.old.locals ++ spec.local_row function.now.locals) }
        ensures bodies { OnOk result (self.new.bodies ≡ self.old.bodies ++ spec.body (length self.old.locals + 1) function.now ∷ []) }
        ensures place { OnOk result (self.new.place ≡ aligned (self.old.place + length (body_bytes (spec.body (length self.old.locals + 1) function.now)))) }
    {
        let row = row_of(alloc, self.place, function)?;
        let body = body_of(alloc, self.locals.len() as u32 + 1, function)?;
        let place = place_behind(self.place, body_size(&body));
        append_locals(alloc, &mut self.locals, &function.locals)?;
        self.rows.push(row)?;
        self.bodies.push(body)?;
        self.place = place;
        Ok(())
    }
}

/// The methods of a program: these functions, and `start` behind them.
pub fn methods_of(
    alloc: Global,
    functions: &[Function],
    start: &Function,
) -> Result<Methods, AllocError>
    requires each { AllByRecursion FitsFunction functions.now }
    requires start { FitsFunction start.now }
    requires size { FIRST_BODY + total_size functions.now + size_of start.now ≤ 2 ^ 29 }
    ensures rows { IfOk result (λ made. made.rows ≡ spec.method_rows (functions.now ++ start.now ∷ [])) }
    ensures locals { IfOk result (λ made. made.locals ≡ spec.local_rows (functions.now ++ start.now ∷ [])) }
    ensures bodies { IfOk result (λ made. made.bodies ≡ spec.bodies 1 (functions.now ++ start.now ∷ [])) }
{
    let mut made = Methods::new(alloc);
    for function in functions {
        made.append(alloc, function)?;
    }
    made.append(alloc, start)?;
    Ok(made)
}
