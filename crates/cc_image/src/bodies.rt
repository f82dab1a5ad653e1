// The bodies of an image, read (ECMA-335, II.25.4).
ghost use Rattle.std.specs.Prelude.{List, ◌≡◌, ◌≢◌, ◌<◌, ◌≤◌, ◌^◌, ◌+◌, ◌%◌, ◌++◌, [], ◌∷◌, length, take, drop, Some, None, Err, IfOk, OnOk};
ghost use Rattle.cc_cil.specs.Bodies.{padding};
ghost use Rattle.cc_module.specs.Methods.{has_rva};
ghost use Rattle.cc_module.specs.Storable.{aligned};
ghost use Rattle.cc_image.specs.ImageFaults.{first, FIRST_BODY_AT, zeros_fault, gap_fault, body_at, past_body, code_error, bodies_in, bodies_end, gaps_fault, method_fault, bodies_fault};
ghost use Rattle.cc_module.specs.declared.rows.MethodDefRow.{MethodDefRow};
ghost use Rattle.cc_image.specs.declared.fault.ImageFault.{ImageFault};
ghost use Rattle.cc_image.specs.declared.fault.ImageFault.TheVariants.{Memory};

use crate::fault::ImageFault;
use crate::ranges::read_numbers;
use cc_base::List;
use cc_cil::{Body, CodeFault, read_body};
use cc_module::MethodDefRow;
use std::alloc::Global;

/// What is loaded from a place of the file is loaded so much later.
pub const SECTION_SHIFT: u32 = 0x1E00;

/// Where the first body is in the file, behind the CLI header.
const FIRST_BODY: u32 = 0x248;

/// The bodies of an image.
#[derive(Debug, Drop)]
pub struct Bodies {
    /// The bodies in order.
    pub items: List<Body>,
    /// The multiple of four at which they end in the file.
    pub end: u32,
    /// The first byte between them that isn't zero.
    pub gap: Option<ImageFault>,
}

/// The first byte that isn't zero, where the bytes stand from a place on.
pub fn zeros_fault(bytes: &[u8], at: u32) -> Option<ImageFault>
    requires { at + length bytes.now < 2 ^ 32 }
    ensures { result ≡ zeros_fault at bytes.now }
{
    let mut place = at;
    for byte in bytes {
        if *byte != 0 {
            return Some(ImageFault::BadField(place));
        }
        place += 1;
    }
    None
}

fn padding(past: u32) -> u32
    ensures padding { result ≡ padding past }
    ensures few { result < 4 }
{
    (4 - past % 4) % 4
}

// The first byte that isn't zero up to a multiple of four.
fn gap_fault(bytes: &[u8], past: u32) -> Option<ImageFault>
    requires within { past ≤ length bytes.now }
    requires room { length bytes.now < 2 ^ 28 }
    ensures { result ≡ gap_fault past bytes.now }
{
    let (_, rest) = bytes.split_at(past as usize);
    let size = (padding(past) as usize).min(rest.len());
    let (gap, _) = rest.split_at(size);
    zeros_fault(gap, past)
}

// The first of two faults.
fn first(fault: Option<ImageFault>, other: Option<ImageFault>) -> Option<ImageFault>
    ensures { result ≡ first fault other }
{
    match fault {
        None => other,
        Some(fault) => Some(fault),
    }
}

// A fault of the body of the method of this row.
fn code_error(row: u32, fault: CodeFault) -> ImageFault
    ensures { result ≡ code_error row fault }
{
    match fault {
        CodeFault::Memory => ImageFault::Memory,
        CodeFault::Short(_)
        | CodeFault::UnknownOpcode(_)
        | CodeFault::BadHeader(_)
        | CodeFault::BadClause(_) => ImageFault::Code(row, fault),
    }
}

// The body of a method, where it is to begin at a place of the file, and the place behind it.
fn read_one(
    alloc: Global,
    row: u32,
    rva: u32,
    bytes: &[u8],
    at: u32,
) -> Result<(Body, u32), ImageFault>
    requires within { at ≤ length bytes.now }
    requires room { length bytes.now < 2 ^ 28 }
    ensures values { IfOk result (λ r. (r.0 ≡ body_at at bytes.now) × (r.1 ≡ past_body at bytes.now)) }
    ensures within { IfOk result (λ r. r.1 ≤ length bytes.now) }
    ensures found { OnOk result (method_fault row rva at bytes.now ≡ None) }
    ensures fault { (f : ImageFault) → result ≡ Err f → f ≢ Memory → method_fault row rva at bytes.now ≡ Some f }
{
    if rva != at + SECTION_SHIFT {
        return Err(ImageFault::BadField(at));
    }
    match read_body(alloc, bytes, at) {
        Ok((body, past)) => {
            read_numbers(&body);
            Ok((body, past))
        }
        Err(fault) => Err(code_error(row, fault)),
    }
}

// The bodies with that of one more method.
fn read_next(
    alloc: Global,
    done: Bodies,
    row: u32,
    rva: u32,
    bytes: &[u8],
) -> Result<Bodies, ImageFault>
    requires within { done.end ≤ length bytes.now }
    requires room { length bytes.now < 2 ^ 28 }
    requires whole { length bytes.now % 4 ≡ 0 }
    ensures items { IfOk result (λ r. r.items ≡ done.items ++ body_at done.end bytes.now ∷ []) }
    ensures end { IfOk result (λ r. r.end ≡ aligned (past_body done.end bytes.now)) }
    ensures gap { IfOk result (λ r. r.gap ≡ first done.gap (gap_fault (past_body done.end bytes.now) bytes.now)) }
    ensures within { IfOk result (λ r. r.end ≤ length bytes.now) }
    ensures found { OnOk result (method_fault row rva done.end bytes.now ≡ None) }
    ensures fault { (f : ImageFault) → result ≡ Err f → f ≢ Memory → method_fault row rva done.end bytes.now ≡ Some f }
{
    let Bodies {
        mut items,
        end,
        gap,
    } = done;
    let (body, past) = read_one(alloc, row, rva, bytes, end)?;
    items.push(body)?;
    Ok(Bodies {
        items,
        end: past + padding(past),
        gap: first(gap, gap_fault(bytes, past)),
    })
}

// The bodies with that of one more method, where it has one.
fn read_method(
    alloc: Global,
    done: Bodies,
    row: u32,
    method: &MethodDefRow,
    bytes: &[u8],
) -> Result<Bodies, ImageFault>
    requires within { done.end ≤ length bytes.now }
    requires room { length bytes.now < 2 ^ 28 }
    requires whole { length bytes.now % 4 ≡ 0 }
    ensures items { (methods : List MethodDefRow) → IfOk result (λ r. done.items ++ bodies_in done.end (method.now ∷ methods) bytes.now ≡ r.items ++ bodies_in r.end methods bytes.now) }
    ensures end { (methods : List MethodDefRow) → IfOk result (λ r. bodies_end done.end (method.now ∷ methods) bytes.now ≡ bodies_end r.end methods bytes.now) }
    ensures gap { (methods : List MethodDefRow) → IfOk result (λ r. first done.gap (gaps_fault done.end (method.now ∷ methods) bytes.now) ≡ first r.gap (gaps_fault r.end methods bytes.now)) }
    ensures within { IfOk result (λ r. r.end ≤ length bytes.now) }
    ensures found { (methods : List MethodDefRow) → IfOk result (λ r. bodies_fault row done.end (method.now ∷ methods) bytes.now ≡ bodies_fault (row + 1) r.end methods bytes.now) }
    ensures fault { (methods : List MethodDefRow) (f : ImageFault) → result ≡ Err f → f ≢ Memory → bodies_fault row done.end (method.now ∷ methods) bytes.now ≡ Some f }
{
    if method.rva == 0 {
        return Ok(done);
    }
    read_next(alloc, done, row, method.rva, bytes)
}

/// The bodies of methods, in order of the methods that have one. It errs at the first method whose body is none, or whose RVA
/// isn't the place of its body.
pub fn read_bodies(
    alloc: Global,
    methods: &[MethodDefRow],
    bytes: &[u8],
) -> Result<Bodies, ImageFault>
    requires rows { length methods.now < 2 ^ 32 }
    requires least { FIRST_BODY_AT ≤ length bytes.now }
    requires room { length bytes.now < 2 ^ 28 }
    requires whole { length bytes.now % 4 ≡ 0 }
    ensures items { IfOk result (λ r. r.items ≡ bodies_in FIRST_BODY_AT methods.now bytes.now) }
    ensures end { IfOk result (λ r. r.end ≡ bodies_end FIRST_BODY_AT methods.now bytes.now) }
    ensures gap { IfOk result (λ r. r.gap ≡ gaps_fault FIRST_BODY_AT methods.now bytes.now) }
    ensures found { OnOk result (bodies_fault 1 FIRST_BODY_AT methods.now bytes.now ≡ None) }
    ensures fault { (f : ImageFault) → result ≡ Err f → f ≢ Memory → bodies_fault 1 FIRST_BODY_AT methods.now bytes.now ≡ Some f }
{
    let mut done = Bodies {
        items: List::new(alloc),
        end: FIRST_BODY,
        gap: None,
    };
    let mut row = 0;
    for method in methods {
        row += 1;
        done = read_method(alloc, done, row, method, bytes)?;
    }
    Ok(done)
}
