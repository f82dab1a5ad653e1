// Method bodies out of bytes.
ghost use Rattle.std.specs.Prelude.{◌≡◌, ◌≢◌, ◌<◌, ◌≤◌, ◌^◌, ◌+◌, ◌*◌, ◌++◌, ℕ, List, length, take, drop, min, true, false, None, Some, Ok, Err, IfOk, IfErr, IsOkUnless};
ghost use Rattle.std.specs.List.{flat_map, AllByRecursion};
ghost use Rattle.cc_layout.specs.Layout.{peeked, fault_of, HasWidth, width_of};
ghost use Rattle.cc_cil.specs.Bodies.{clause_layout, clause_width, section_layout, section_head, padding, zeros, fat_header, body_bytes, HasSpelling, IsInRange};
ghost use Rattle.cc_cil.specs.BodyFaults.{kind_of, clause_in, clauses_in, section_is_small, count_in, section_clauses, has_tiny_header, has_section, flags_in, located, first, code_fault, form_fault, header_fault, section_form_fault, clauses_after, width_after, tail_layout, tail_fault, fault_after, fat_fault, body_fault, body_in, width_in};
ghost use Rattle.cc_cil.specs.declared.body.Body.{Body};
ghost use Rattle.cc_cil.specs.declared.fault.CodeFault.{CodeFault};
ghost use Rattle.cc_cil.specs.declared.fault.CodeFault.TheVariants.{BadHeader, BadClause, Memory};

use crate::body::{Body, Clause, ClauseKind};
use crate::fault::CodeFault;
use crate::layout::{self, FAT, FAT_WITH_SECTION, SMALL_SECTION};
use cc_base::List;
use cc_layout::{Field, FieldFault, first_fault, peek_number};
use std::alloc::Global;

// Whether the bytes have the fields of a header.
fn check_header(fields: &[Field], bytes: &[u8], at: u32) -> Result<(), CodeFault>
    requires widths { AllByRecursion HasWidth fields.now }
    requires room { at + length bytes.now < 2 ^ 32 }
    ensures ok { IfOk result (λ _. located BadHeader (fault_of at fields.now bytes.now) ≡ None) }
    ensures room { IfOk result (λ _. width_of fields.now ≤ length bytes.now) }
    ensures err { IfErr result (λ fault. located BadHeader (fault_of at fields.now bytes.now) ≡ Some fault) }
{
    match first_fault(fields, bytes, at) {
        None => Ok(()),
        Some(FieldFault::Missing(place)) => Err(CodeFault::Short(place)),
        Some(FieldFault::Differs(place)) => Err(CodeFault::BadHeader(place)),
    }
}

// Whether the bytes have the fields of a part of an exception section.
fn check_section(fields: &[Field], bytes: &[u8], at: u32) -> Result<(), CodeFault>
    requires widths { AllByRecursion HasWidth fields.now }
    requires room { at + length bytes.now < 2 ^ 32 }
    ensures ok { IfOk result (λ _. fault_of at fields.now bytes.now ≡ None) }
    ensures room { IfOk result (λ _. width_of fields.now ≤ length bytes.now) }
    ensures err { IfErr result (λ fault. located BadClause (fault_of at fields.now bytes.now) ≡ Some fault) }
{
    match first_fault(fields, bytes, at) {
        None => Ok(()),
        Some(FieldFault::Missing(place)) => Err(CodeFault::Short(place)),
        Some(FieldFault::Differs(place)) => Err(CodeFault::BadClause(place)),
    }
}

fn kind_of(flags: u64) -> ClauseKind
    ensures { result ≡ kind_of flags }
{
    match flags {
        2 => ClauseKind::Finally,
        4 => ClauseKind::Fault,
        _ => ClauseKind::Catch,
    }
}

fn small_clause_in(bytes: &[u8]) -> Clause
    ensures { result ≡ clause_in true bytes.now }
{
    Clause {
        kind: kind_of(peek_number(bytes, 0, 2)),
        try_first: peek_number(bytes, 2, 2) as u32,
        try_length: peek_number(bytes, 4, 1) as u32,
        handler_first: peek_number(bytes, 5, 2) as u32,
        handler_length: peek_number(bytes, 7, 1) as u32,
        class: peek_number(bytes, 8, 4) as u32,
    }
}

fn fat_clause_in(bytes: &[u8]) -> Clause
    ensures { result ≡ clause_in false bytes.now }
{
    Clause {
        kind: kind_of(peek_number(bytes, 0, 4)),
        try_first: peek_number(bytes, 4, 4) as u32,
        try_length: peek_number(bytes, 8, 4) as u32,
        handler_first: peek_number(bytes, 12, 4) as u32,
        handler_length: peek_number(bytes, 16, 4) as u32,
        class: peek_number(bytes, 20, 4) as u32,
    }
}

fn clause_in(small: bool, bytes: &[u8]) -> Clause
    ensures { result ≡ clause_in small bytes.now }
{
    if small {
        small_clause_in(bytes)
    } else {
        fat_clause_in(bytes)
    }
}

fn clause_width(small: bool) -> u32
    ensures { result ≡ clause_width small }
{
    if small { 12 } else { 24 }
}

// So many clauses in a row, and the place after them.
fn read_clauses(
    alloc: Global,
    small: bool,
    count: u32,
    bytes: &[u8],
    at: u32,
) -> Result<(List<Clause>, u32), CodeFault>
    requires { at + length bytes.now < 2 ^ 32 }
    ensures values { IfOk result (λ r. (r.0 ≡ clauses_in small count bytes.now) × (r.1 ≡ at + width_of (flat_map (clause_layout small) (clauses_in small count bytes.now)))) }
    ensures found { IfOk result (λ _. fault_of at (flat_map (clause_layout small) (clauses_in small count bytes.now)) bytes.now ≡ None) }
    ensures fault { (f : CodeFault) → result ≡ Err f → f ≢ Memory → located BadClause (fault_of at (flat_map (clause_layout small) (clauses_in small count bytes.now)) bytes.now) ≡ Some f }
{
    let mut clauses = List::new(alloc);
    let mut rest = bytes;
    let mut place = at;
    for _ in 0..count {
        let clause = clause_in(small, rest);
        check_section(&layout::clause_layout(small, &clause), rest, place)?;
        clauses.push(clause)?;
        let (_, after) = rest.split_at(clause_width(small) as usize);
        rest = after;
        place += clause_width(small);
    }
    Ok((clauses, place))
}

fn count_in(small: bool, bytes: &[u8]) -> u32
    ensures count { result ≡ count_in small bytes.now }
    ensures room { result < 699052 }
{
    if small {
        (peek_number(bytes, 1, 1) as u32 / 12).max(1)
    } else {
        (peek_number(bytes, 1, 3) as u32 / 24).max(1)
    }
}

fn check_head(small: bool, count: u32, bytes: &[u8], at: u32) -> Result<(), CodeFault>
    requires count { count < 699052 }
    requires room { at + length bytes.now < 2 ^ 32 }
    ensures ok { IfOk result (λ _. fault_of at (section_head small count) bytes.now ≡ None) }
    ensures room { IfOk result (λ _. 4 ≤ length bytes.now) }
    ensures err { IfErr result (λ fault. located BadClause (fault_of at (section_head small count) bytes.now) ≡ Some fault) }
{
    if small {
        check_section(&layout::small_head(count), bytes, at)
    } else {
        check_section(&layout::fat_head(count), bytes, at)
    }
}

fn section_is_small(bytes: &[u8]) -> bool
    ensures { result ≡ section_is_small bytes.now }
{
    peek_number(bytes, 0, 1) == SMALL_SECTION
}

// An exception section from its kind on, and the place after it.
fn read_section(alloc: Global, bytes: &[u8], at: u32) -> Result<(List<Clause>, u32), CodeFault>
    requires { at + length bytes.now < 2 ^ 32 }
    ensures values { IfOk result (λ r. (r.0 ≡ section_clauses bytes.now) × (r.1 ≡ at + width_of (section_layout (section_is_small bytes.now) (section_clauses bytes.now)))) }
    ensures found { IfOk result (λ _. fault_of at (section_layout (section_is_small bytes.now) (section_clauses bytes.now)) bytes.now ≡ None) }
    ensures form { IfOk result (λ _. section_form_fault at bytes.now ≡ None) }
    ensures fault { (f : CodeFault) → result ≡ Err f → f ≢ Memory → first (located BadClause (fault_of at (section_layout (section_is_small bytes.now) (section_clauses bytes.now)) bytes.now)) (section_form_fault at bytes.now) ≡ Some f }
{
    let small = section_is_small(bytes);
    let count = count_in(small, bytes);
    check_head(small, count, bytes, at)?;
    let (_, rest) = bytes.split_at(4);
    let (clauses, past) = read_clauses(alloc, small, count, rest, at + 4)?;
    if !small && layout::is_small(clauses.as_slice()) {
        return Err(CodeFault::BadClause(at));
    }
    Ok((clauses, past))
}

// The zeros after code of this size and an exception section, and the place after it.
fn read_tail(
    alloc: Global,
    size: u32,
    bytes: &[u8],
    at: u32,
) -> Result<(List<Clause>, u32), CodeFault>
    requires { at + length bytes.now < 2 ^ 32 }
    ensures values { IfOk result (λ r. (r.0 ≡ clauses_after true size bytes.now) × (r.1 ≡ at + width_after true size bytes.now)) }
    ensures found { IfOk result (λ _. tail_fault at size bytes.now ≡ None) }
    ensures fault { (f : CodeFault) → result ≡ Err f → f ≢ Memory → tail_fault at size bytes.now ≡ Some f }
{
    let count = layout::padding(size);
    let zeros = [
        Field::number(1, 0),
        Field::number(1, 0),
        Field::number(1, 0),
    ];
    let (zeros, _) = zeros.split_at(count as usize);
    check_section(zeros, bytes, at)?;
    let (_, rest) = bytes.split_at(count as usize);
    read_section(alloc, rest, at + count)
}

fn read_after(
    alloc: Global,
    has_section: bool,
    size: u32,
    bytes: &[u8],
    at: u32,
) -> Result<(List<Clause>, u32), CodeFault>
    requires { at + length bytes.now < 2 ^ 32 }
    ensures values { IfOk result (λ r. (r.0 ≡ clauses_after has_section size bytes.now) × (r.1 ≡ at + width_after has_section size bytes.now)) }
    ensures found { IfOk result (λ _. fault_after has_section at size bytes.now ≡ None) }
    ensures fault { (f : CodeFault) → result ≡ Err f → f ≢ Memory → fault_after has_section at size bytes.now ≡ Some f }
{
    if has_section {
        read_tail(alloc, size, bytes, at)
    } else {
        Ok((List::new(alloc), at))
    }
}

// So many bytes of code after so many other bytes.
fn read_code(
    alloc: Global,
    before: u32,
    size: u32,
    bytes: &[u8],
    at: u32,
) -> Result<List<u8>, CodeFault>
    requires { at + length bytes.now < 2 ^ 32 }
    ensures values { IfOk result (λ r. r ≡ take size (drop before bytes.now)) }
    ensures found { IfOk result (λ _. code_fault at before size bytes.now ≡ None) }
    ensures room { IfOk result (λ _. before + size ≤ length bytes.now) }
    ensures fault { (f : CodeFault) → result ≡ Err f → f ≢ Memory → code_fault at before size bytes.now ≡ Some f }
{
    if bytes.len() < before as usize + size as usize {
        return Err(CodeFault::Short(at + bytes.len() as u32));
    }
    let (_, rest) = bytes.split_at(before as usize);
    let (code, _) = rest.split_at(size as usize);
    Ok(List::from_slice(alloc, code)?)
}

fn has_section(bytes: &[u8]) -> bool
    ensures { result ≡ has_section bytes.now }
{
    peek_number(bytes, 0, 2) == FAT_WITH_SECTION as u64
}

fn flags_in(bytes: &[u8]) -> u16
    ensures { result ≡ flags_in bytes.now }
{
    if has_section(bytes) {
        FAT_WITH_SECTION
    } else {
        FAT
    }
}

// A body with a fat header, and the place after it.
fn read_fat(alloc: Global, bytes: &[u8], at: u32) -> Result<(Body, u32), CodeFault>
    requires room { at + length bytes.now < 2 ^ 32 }
    requires fat { has_tiny_header bytes.now ≡ false }
    ensures values { IfOk result (λ r. (r.0 ≡ body_in bytes.now) × (r.1 ≡ at + width_in bytes.now)) }
    ensures found { IfOk result (λ _. body_fault at bytes.now ≡ None) }
    ensures fault { (f : CodeFault) → result ≡ Err f → f ≢ Memory → body_fault at bytes.now ≡ Some f }
{
    let max_stack = peek_number(bytes, 2, 2) as u16;
    let size = peek_number(bytes, 4, 4) as u32;
    let locals = peek_number(bytes, 8, 4) as u32;
    check_header(
        &layout::fat_header(flags_in(bytes), max_stack, size, locals),
        bytes,
        at,
    )?;
    if !has_section(bytes) && layout::is_tiny(max_stack, size, locals) {
        return Err(CodeFault::BadHeader(at));
    }
    let code = read_code(alloc, 12, size, bytes, at)?;
    let (_, rest) = bytes.split_at(12 + size as usize);
    let (clauses, past) = read_after(alloc, has_section(bytes), size, rest, at + 12 + size)?;
    Ok((
        Body {
            max_stack,
            locals,
            code,
            clauses,
        },
        past,
    ))
}

// A body with a tiny header, and the place after it.
fn read_tiny(alloc: Global, bytes: &[u8], at: u32) -> Result<(Body, u32), CodeFault>
    requires room { at + length bytes.now < 2 ^ 32 }
    requires tiny { has_tiny_header bytes.now ≡ true }
    ensures values { IfOk result (λ r. (r.0 ≡ body_in bytes.now) × (r.1 ≡ at + width_in bytes.now)) }
    ensures found { IfOk result (λ _. body_fault at bytes.now ≡ None) }
    ensures fault { (f : CodeFault) → result ≡ Err f → f ≢ Memory → body_fault at bytes.now ≡ Some f }
{
    let size = peek_number(bytes, 0, 1) as u32 / 4;
    let code = read_code(alloc, 1, size, bytes, at)?;
    let clauses = List::new(alloc);
    Ok((
        Body {
            max_stack: 8,
            locals: 0,
            code,
            clauses,
        },
        at + 1 + size,
    ))
}

/// The body at a place of the bytes, and the place after it (ECMA-335, II.25.4); its alignment counts from its first
/// byte. `Short` comes with the length of the bytes where they end inside the body, `BadHeader` and `BadClause` with the
/// first place that differs from the spelling of a body: for a fat header in place of a tiny one its first byte, for a fat
/// exception section in place of a small one its kind. `UnknownOpcode` never comes: the code is not read.
pub fn read_body(alloc: Global, bytes: &[u8], at: u32) -> Result<(Body, u32), CodeFault>
    requires { length bytes.now < 2 ^ 32 }
    ensures found { IfOk result (λ r. HasSpelling r.0 × (rest : List ℕ) × (drop at bytes.now ≡ body_bytes r.0 ++ rest) × (r.1 ≡ at + length (body_bytes r.0))) }
    ensures spelled { (b : Body) (rest : List ℕ) → HasSpelling b → IsInRange b → drop at bytes.now ≡ body_bytes b ++ rest → IfOk result (λ r. r ≡ (b, at + length (body_bytes b))) × IsOkUnless result Memory }
    ensures fault { (f : CodeFault) → result ≡ Err f → f ≢ Memory → body_fault (min at (length bytes.now)) (drop at bytes.now) ≡ Some f }
{
    let at = at.min(bytes.len() as u32);
    let (_, bytes) = bytes.split_at(at as usize);
    if peek_number(bytes, 0, 1) % 4 == 2 {
        read_tiny(alloc, bytes, at)
    } else {
        read_fat(alloc, bytes, at)
    }
}
