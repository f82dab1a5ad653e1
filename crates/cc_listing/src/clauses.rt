// The lines of the clauses of a body.
ghost use Rattle.std.specs.Prelude.{◌≡◌, ◌++◌, IfOk, OnOk, codes, decimal};
ghost use Rattle.std.specs.String.{string_bytes};
ghost use Rattle.cc_listing.specs.Bodies.{clause_line, clause_lines, hex_word, kind_name};

use crate::lines::word;
use cc_cil::{Clause, ClauseKind};
use std::alloc::{AllocError, Global};

/// Adds a line for each clause.
pub(crate) fn list_clauses(
    alloc: Global,
    clauses: &[Clause],
    into: &mut Vec<u8>,
) -> Result<(), AllocError>
    ensures { OnOk result (into.new.items ≡ into.old.items ++ clause_lines clauses.now) }
{
    for clause in clauses {
        let line = clause_line(alloc, clause)?;
        into.extend_from_slice(line.as_bytes())?;
    }
    Ok(())
}

fn clause_line(alloc: Global, clause: &Clause) -> Result<String, AllocError>
    ensures { IfOk result (λ line. string_bytes line ≡ clause_line clause.now) }
{
    let protected = range(alloc, clause.try_first, clause.try_length)?;
    let handler = range(alloc, clause.handler_first, clause.handler_length)?;
    let class = word(alloc, clause.class)?;
    format_clause(
        alloc,
        kind_name(clause.kind),
        protected.as_str(),
        handler.as_str(),
        class.as_str(),
    )
}

/// An offset and a length.
fn range(alloc: Global, first: u32, length: u32) -> Result<String, AllocError>
    ensures { IfOk result (λ text. string_bytes text ≡ hex_word first ++ codes " " ++ decimal length) }
{
    let first = word(alloc, first)?;
    format_range(alloc, first.as_str(), length)
}

fn format_range(alloc: Global, first: &str, length: u32) -> Result<String, AllocError>
    ensures { IfOk result (λ text. string_bytes text ≡ first.now ++ codes " " ++ decimal length) }
{
    format!(in alloc; "{first} {length}")
}

fn format_clause(
    alloc: Global,
    kind: &str,
    protected: &str,
    handler: &str,
    class: &str,
) -> Result<String, AllocError>
    ensures { IfOk result (λ line. string_bytes line ≡ codes "    clause " ++ kind.now ++ codes " " ++ protected.now ++ codes " " ++ handler.now ++ codes " " ++ class.now ++ codes "\n") }
{
    format!(in alloc; "    clause {kind} {protected} {handler} {class}\n")
}

fn kind_name(kind: ClauseKind) -> &'static str
    ensures { result.now ≡ kind_name kind }
{
    match kind {
        ClauseKind::Catch => "catch",
        ClauseKind::Finally => "finally",
        ClauseKind::Fault => "fault",
    }
}
