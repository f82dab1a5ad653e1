// The bodies of a straight program (ECMA-335, II.25.4).
ghost use Rattle.std.specs.Prelude.{◌≡◌, ◌≤◌, [], ◌∷◌, length, IfOk};
ghost use Rattle.cc_emit.specs.Program as spec;

use cc_base::List;
use cc_cil::{Body, Instruction, encode_one};
use std::alloc::{AllocError, Global};

/// The token of `main`, the first method.
const MAIN: u32 = 0x0600_0001;

/// Where the first body begins, behind the header of the loaded section.
pub const FIRST_BODY: u32 = 0x2048;

/// The size of a header that has the greatest height of the stack.
const HEADER: u32 = 12;

/// Where the body of `<start>` begins, behind that of `main` with this code: at a multiple of four.
pub fn start_place(code: &[u8]) -> u32
    requires { length code.now ≤ spec.code_limit }
    ensures { result ≡ spec.start_place code.now }
{
    let past = FIRST_BODY + HEADER + code.len() as u32;
    (past + 3) / 4 * 4
}

fn main_body(alloc: Global, code: &[u8]) -> Result<Body, AllocError>
    ensures { IfOk result (λ body. body ≡ spec.main_body code.now) }
{
    let code = List::from_slice(alloc, code)?;
    Ok(Body {
        max_stack: 256,
        locals: 0,
        code,
        clauses: List::new(alloc),
    })
}

fn start_body(alloc: Global) -> Result<Body, AllocError>
    ensures { IfOk result (λ body. body ≡ spec.start_body) }
{
    let mut code = Vec::new(alloc);
    encode_one(&Instruction::Call { method: MAIN }, &mut code)?;
    encode_one(&Instruction::Return, &mut code)?;
    Ok(Body {
        max_stack: 8,
        locals: 0,
        code: List::from_vec(code),
        clauses: List::new(alloc),
    })
}

/// The bodies in the order of the methods.
pub fn bodies(alloc: Global, code: &[u8]) -> Result<List<Body>, AllocError>
    ensures { IfOk result (λ bodies. bodies ≡ spec.main_body code.now ∷ spec.start_body ∷ []) }
{
    let mut bodies = List::new(alloc);
    bodies.push(main_body(alloc, code)?)?;
    bodies.push(start_body(alloc)?)?;
    Ok(bodies)
}
