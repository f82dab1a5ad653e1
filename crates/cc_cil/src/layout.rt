// The layouts of headers, sections and clauses (ECMA-335, II.25.4).
ghost use Rattle.std.specs.Prelude.{◌≡◌, ◌<◌, ◌*◌, ◌+◌, true, false};
ghost use Rattle.cc_cil.specs.Bodies.{kind_flags, class_of, clause_layout, clause_is_small, is_small, section_head, padding, fat_header, is_tiny};

use crate::body::{Clause, ClauseKind};
use cc_layout::Field;

/// The flags of a fat header without an exception section: twelve bytes, local variables zeroed.
pub const FAT: u16 = 0x3013;

/// The flags of a fat header with an exception section.
pub const FAT_WITH_SECTION: u16 = 0x301B;

/// The kind of a small exception section, and of a fat one.
pub const SMALL_SECTION: u64 = 0x01;

pub const FAT_SECTION: u64 = 0x41;

pub fn fat_header(flags: u16, max_stack: u16, size: u32, locals: u32) -> [Field; 4]
    ensures { result ≡ fat_header flags max_stack size locals }
{
    [
        Field::number(2, flags as u64),
        Field::number(2, max_stack as u64),
        Field::number(4, size as u64),
        Field::number(4, locals as u64),
    ]
}

/// Whether a body without clauses has a tiny header.
pub fn is_tiny(max_stack: u16, size: u32, locals: u32) -> bool
    ensures { result ≡ is_tiny max_stack size locals }
{
    size < 64 && locals == 0 && max_stack == 8
}

/// How many zeros stand between code of this size and the exception section.
pub fn padding(size: u32) -> u32
    ensures { result ≡ padding size }
{
    (4 - size % 4) % 4
}

pub fn small_head(count: u32) -> [Field; 3]
    requires { count < 699052 }
    ensures { result ≡ section_head true count }
{
    [
        Field::number(1, SMALL_SECTION),
        Field::number(1, 12 * count as u64 + 4),
        Field::number(2, 0),
    ]
}

pub fn fat_head(count: u32) -> [Field; 2]
    requires { count < 699052 }
    ensures { result ≡ section_head false count }
{
    [
        Field::number(1, FAT_SECTION),
        Field::number(3, 24 * count as u64 + 4),
    ]
}

fn kind_flags(kind: ClauseKind) -> u64
    ensures { result ≡ kind_flags kind }
{
    match kind {
        ClauseKind::Catch => 0,
        ClauseKind::Finally => 2,
        ClauseKind::Fault => 4,
    }
}

fn class_of(clause: &Clause) -> u64
    ensures { result ≡ class_of clause.now.kind clause.now.class }
{
    match clause.kind {
        ClauseKind::Catch => clause.class as u64,
        ClauseKind::Finally => 0,
        ClauseKind::Fault => 0,
    }
}

fn small_clause(clause: &Clause) -> [Field; 6]
    ensures { result ≡ clause_layout true clause.now }
{
    [
        Field::number(2, kind_flags(clause.kind)),
        Field::number(2, clause.try_first as u64),
        Field::number(1, clause.try_length as u64),
        Field::number(2, clause.handler_first as u64),
        Field::number(1, clause.handler_length as u64),
        Field::number(4, class_of(clause)),
    ]
}

fn fat_clause(clause: &Clause) -> [Field; 6]
    ensures { result ≡ clause_layout false clause.now }
{
    [
        Field::number(4, kind_flags(clause.kind)),
        Field::number(4, clause.try_first as u64),
        Field::number(4, clause.try_length as u64),
        Field::number(4, clause.handler_first as u64),
        Field::number(4, clause.handler_length as u64),
        Field::number(4, class_of(clause)),
    ]
}

pub fn clause_layout(small: bool, clause: &Clause) -> [Field; 6]
    ensures { result ≡ clause_layout small clause.now }
{
    if small {
        small_clause(clause)
    } else {
        fat_clause(clause)
    }
}

fn clause_is_small(clause: &Clause) -> bool
    ensures { result ≡ clause_is_small clause.now }
{
    clause.try_first < 0x10000
        && clause.try_length < 0x100
        && clause.handler_first < 0x10000
        && clause.handler_length < 0x100
}

/// Whether the clauses have a small section.
pub fn is_small(clauses: &[Clause]) -> bool
    ensures { result ≡ is_small clauses.now }
{
    if clauses.len() > 20 {
        return false;
    }
    for clause in clauses {
        if !clause_is_small(clause) {
            return false;
        }
    }
    true
}
