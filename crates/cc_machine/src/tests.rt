// Bodies with the offset at which they are first wrong, and one that runs.
ghost use Rattle.std.specs.Prelude.{◌<◌, ◌^◌, length};

use crate::{CheckFault, CheckRefusal, Checked, Machine, Stop};
use cc_base::{Ending, Limits, List};
use cc_cil::Body;
use std::alloc::{AllocError, Global};
use std::test::Fail;

fn check(
    alloc: Global,
    max_stack: u16,
    code: &[u8],
) -> Result<Result<Checked, CheckRefusal>, AllocError>
    requires { length code.now < 2 ^ 32 }
{
    let body = Body {
        max_stack,
        locals: 0,
        code: List::from_slice(alloc, code)?,
        clauses: List::new(alloc),
    };
    Ok(Checked::of(alloc, body))
}

#[test]
fn the_first_wrong_offset_is_named(rt: HostRuntime) -> Result<(), Fail> {
    let alloc = rt.alloc();
    let table: [(u16, &[u8], u32); 10] = [
        (8, &[], 0),
        (8, &[0x16], 1),
        (8, &[0x16, 0x00, 0x2A], 1),
        (8, &[0x2A], 0),
        (8, &[0x16, 0x58, 0x2A], 1),
        (8, &[0x16, 0x17, 0x2A], 2),
        (0, &[0x16, 0x2A], 0),
        (1, &[0x16, 0x16, 0x58, 0x2A], 1),
        (8, &[0x16, 0x2A, 0x58, 0x2A], 2),
        (8, &[0x16, 0x28, 0x02, 0x00, 0x00, 0x0A, 0x16, 0x2A], 1),
    ];
    for (max_stack, code, at) in table {
        assert!(rt; code.len() < 100);
        match check(alloc, max_stack, code)? {
            Ok(_) => assert!(rt; false),
            Err(refusal) => assert_eq!(rt; refusal.fault, CheckFault::Bad(at)),
        }
    }
    Ok(())
}

#[test]
fn a_body_runs_in_pieces(rt: HostRuntime) -> Result<(), Fail> {
    let alloc = rt.alloc();
    // 2147483647 + 1 is printed, then 7 is returned.
    let code = [
        0x20, 0xFF, 0xFF, 0xFF, 0x7F, 0x17, 0x58, 0x28, 0x01, 0x00, 0x00, 0x0A, 0x1D, 0x2A,
    ];
    let Ok(checked) = check(alloc, 2, &code)? else {
        assert!(rt; false);
        return Ok(());
    };
    let limits = Limits {
        frames: 2,
        cells: 2,
    };
    let mut machine = Machine::new(alloc, checked, &[], limits)?;
    assert!(rt; matches!(machine.run(&[], 3), Stop::StepLimit));
    assert_eq!(rt; machine.output(), b"".as_slice());
    for _ in 0..2 {
        assert!(rt; matches!(machine.run(&[], 3), Stop::Ended(Ending::Returned(7))));
        assert_eq!(rt; machine.output(), b"-2147483648\n".as_slice());
    }
    Ok(())
}
