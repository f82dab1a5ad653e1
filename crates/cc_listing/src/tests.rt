// Bodies with their lines, from the formats of the CLI.
ghost use Rattle.std.specs.Prelude.{◌≡◌, ◌<◌, length, IfOk};

use crate::bodies::list_body;
use cc_base::List;
use cc_cil::{Body, Clause, ClauseKind};
use std::alloc::{AllocError, Global};
use std::test::Fail;

fn body(alloc: Global, code: &[u8]) -> Result<Body, AllocError>
    ensures { IfOk result (λ body. body.code ≡ code.now) }
{
    let code = List::from_slice(alloc, code)?;
    Ok(Body {
        max_stack: 8,
        locals: 0,
        code,
        clauses: List::new(alloc),
    })
}

// The lines of code, and of a clause behind it where one is wanted.
fn lines(alloc: Global, code: &[u8], has_clause: bool) -> Result<Vec<u8>, AllocError>
    requires { length code.now < 100 }
{
    let mut body = body(alloc, code)?;
    if has_clause {
        body.clauses.push(Clause {
            kind: ClauseKind::Catch,
            try_first: 0,
            try_length: 5,
            handler_first: 0xFF,
            handler_length: 12,
            class: 0x0100_0002,
        })?;
    }
    let mut listing = Vec::new(alloc);
    list_body(alloc, &body, &mut listing)?;
    Ok(listing)
}

#[test]
fn bodies_are_listed_line_by_line(rt: HostRuntime) -> Result<(), Fail> {
    let table: [(&[u8], bool, &[u8]); 5] = [
        (b"", false, b""),
        (b"\x1F\xFF", false, b"    00000000 ldc.i4.s -1\n"),
        (b"\x2B\xFE", false, b"    00000000 br.s 00000000\n"),
        (b"\x24\x2A", false, b"    00000000 bytes 242a\n"),
        (
            b"",
            true,
            b"    clause catch 00000000 5 000000ff 12 01000002\n",
        ),
    ];
    for (code, has_clause, expected) in table {
        assert!(rt; code.len() < 100);
        let listing = lines(rt.alloc(), code, has_clause)?;
        assert_eq!(rt; listing.as_slice(), expected);
    }
    Ok(())
}
