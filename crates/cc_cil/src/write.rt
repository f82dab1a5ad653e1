// Method bodies as bytes.
ghost use Rattle.std.specs.Prelude.{◌≡◌, ◌<◌, ◌^◌, ◌+◌, ◌++◌, ℕ, List, length, OnOk, OnErr};
ghost use Rattle.std.specs.List.{flat_map, AllByRecursion};
ghost use Rattle.cc_layout.specs.Numbers.{Extends};
ghost use Rattle.cc_layout.specs.Layout.{bytes_of};
ghost use Rattle.cc_cil.specs.Bodies.{clause_layout, section_head, section_layout, is_small, padding, zeros, fat_header, tiny_header, body_bytes, HasSpelling};

use crate::body::{Body, Clause};
use crate::layout::{self, FAT, FAT_WITH_SECTION};
use cc_layout::{Field, write_fields};
use std::alloc::AllocError;

fn write_tiny(code: &[u8], into: &mut Vec<u8>) -> Result<(), AllocError>
    requires { length code.now < 64 }
    ensures ok { OnOk result (into.new.items ≡ into.old.items ++ (bytes_of (tiny_header (length code.now)) ++ code.now)) }
    ensures err { OnErr result (Extends into.old.items into.new.items (bytes_of (tiny_header (length code.now)) ++ code.now)) }
{
    write_fields(&[Field::number(1, code.len() as u64 * 4 + 2)], into)?;
    into.extend_from_slice(code)?;
    Ok(())
}

fn write_fat(flags: u16, body: &Body, into: &mut Vec<u8>) -> Result<(), AllocError>
    requires { length body.now.code < 2 ^ 32 }
    ensures ok { OnOk result (into.new.items ≡ into.old.items ++ (bytes_of (fat_header flags body.now.max_stack (length body.now.code) body.now.locals) ++ body.now.code)) }
    ensures err { OnErr result (Extends into.old.items into.new.items (bytes_of (fat_header flags body.now.max_stack (length body.now.code) body.now.locals) ++ body.now.code)) }
{
    let size = body.code.len() as u32;
    write_fields(
        &layout::fat_header(flags, body.max_stack, size, body.locals),
        into,
    )?;
    into.extend_from_slice(body.code.as_slice())?;
    Ok(())
}

fn write_zeros(count: u32, into: &mut Vec<u8>) -> Result<(), AllocError>
    requires { count < 4 }
    ensures ok { OnOk result (into.new.items ≡ into.old.items ++ bytes_of (zeros count)) }
    ensures err { OnErr result (into.new.items ≡ into.old.items) }
{
    let (padding, _) = [0; 3].split_at(count as usize);
    into.extend_from_slice(padding)?;
    Ok(())
}

fn write_head(small: bool, count: u32, into: &mut Vec<u8>) -> Result<(), AllocError>
    requires { count < 699052 }
    ensures ok { OnOk result (into.new.items ≡ into.old.items ++ bytes_of (section_head small count)) }
    ensures err { OnErr result (Extends into.old.items into.new.items (bytes_of (section_head small count))) }
{
    if small {
        write_fields(&layout::small_head(count), into)
    } else {
        write_fields(&layout::fat_head(count), into)
    }
}

fn write_clauses(small: bool, clauses: &[Clause], into: &mut Vec<u8>) -> Result<(), AllocError>
    ensures ok { OnOk result (into.new.items ≡ into.old.items ++ bytes_of (flat_map (clause_layout small) clauses.now)) }
    ensures err { OnErr result (Extends into.old.items into.new.items (bytes_of (flat_map (clause_layout small) clauses.now))) }
{
    for clause in clauses {
        write_fields(&layout::clause_layout(small, clause), into)?;
    }
    Ok(())
}

fn write_section(clauses: &[Clause], into: &mut Vec<u8>) -> Result<(), AllocError>
    requires { length clauses.now < 699051 }
    ensures ok { OnOk result (into.new.items ≡ into.old.items ++ bytes_of (section_layout (is_small clauses.now) clauses.now)) }
    ensures err { OnErr result (Extends into.old.items into.new.items (bytes_of (section_layout (is_small clauses.now) clauses.now))) }
{
    let small = layout::is_small(clauses);
    write_head(small, clauses.len() as u32, into)?;
    write_clauses(small, clauses, into)
}

fn write_padded(size: u32, clauses: &[Clause], into: &mut Vec<u8>) -> Result<(), AllocError>
    requires { length clauses.now < 699051 }
    ensures ok { OnOk result (into.new.items ≡ into.old.items ++ bytes_of (zeros (padding size) ++ section_layout (is_small clauses.now) clauses.now)) }
    ensures err { OnErr result (Extends into.old.items into.new.items (bytes_of (zeros (padding size) ++ section_layout (is_small clauses.now) clauses.now))) }
{
    write_zeros(layout::padding(size), into)?;
    write_section(clauses, into)
}

fn write_with_clauses(body: &Body, into: &mut Vec<u8>) -> Result<(), AllocError>
    requires spelled { HasSpelling body.now }
    requires clauses { 0 < length body.now.clauses }
    ensures ok { OnOk result (into.new.items ≡ into.old.items ++ body_bytes body.now) }
    ensures err { OnErr result (Extends into.old.items into.new.items (body_bytes body.now)) }
{
    write_fat(FAT_WITH_SECTION, body, into)?;
    write_padded(body.code.len() as u32, body.clauses.as_slice(), into)
}

/// Appends the spelling of a body (ECMA-335, II.25.4), whose alignment counts from the body's first byte: with a tiny
/// header exactly where it may be, and a small exception section exactly where it may be. The body has fewer than
/// 699,051 clauses, and only a catch has a class. Without memory a prefix of the spelling is appended.
pub fn write_body(body: &Body, into: &mut Vec<u8>) -> Result<(), AllocError>
    requires { HasSpelling body.now }
    ensures ok { OnOk result (into.new.items ≡ into.old.items ++ body_bytes body.now) }
    ensures err { OnErr result (Extends into.old.items into.new.items (body_bytes body.now)) }
{
    if !body.clauses.is_empty() {
        return write_with_clauses(body, into);
    }
    if layout::is_tiny(body.max_stack, body.code.len() as u32, body.locals) {
        write_tiny(body.code.as_slice(), into)
    } else {
        write_fat(FAT, body, into)
    }
}
