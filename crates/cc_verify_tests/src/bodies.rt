// Bodies with the first rule that they break, and bodies that break none.
ghost use Rattle.std.specs.Prelude.{◌<◌, ◌^◌, length};

use cc_base::{ClassId, List};
use cc_cil::{Body, Clause, ClauseKind};
use cc_verify::{Broken, Environment, Frame, MethodType, StackType, body_verdict};
use std::alloc::{AllocError, Global};
use std::test::Fail;

// The types around a method without parameters that gives an int32 and has one int32 variable: the classes Object and
// Exception, no method, and a reference that takes an int32.
fn environment(alloc: Global) -> Result<Environment, AllocError> {
    let mut references = List::new(alloc);
    references.push(MethodType {
        parameters: List::from_slice(alloc, &[Some(StackType::Int32)])?,
        result: None,
    })?;
    Ok(Environment {
        classes: List::from_slice(alloc, &[ClassId(0), ClassId(17)])?,
        methods: List::new(alloc),
        references,
        locals: List::new(alloc),
    })
}

fn first_fault(
    alloc: Global,
    max_stack: u16,
    code: &[u8],
    clauses: &[Clause],
) -> Result<Option<Broken>, AllocError>
    requires { length code.now < 2 ^ 32 }
{
    let frame = Frame {
        arguments: List::new(alloc),
        locals: List::from_slice(alloc, &[StackType::Int32])?,
        result: Some(StackType::Int32),
    };
    let body = Body {
        max_stack,
        locals: 0,
        code: List::from_slice(alloc, code)?,
        clauses: List::from_slice(alloc, clauses)?,
    };
    let (_, found) = body_verdict(alloc, environment(alloc)?, frame, &body)?;
    Ok(found)
}

fn clause(kind: ClauseKind, ranges: [u32; 4], class: u32) -> Clause {
    Clause {
        kind,
        try_first: ranges[0],
        try_length: ranges[1],
        handler_first: ranges[2],
        handler_length: ranges[3],
        class,
    }
}

#[test]
fn the_first_broken_rule_of_code_is_named(rt: HostRuntime) -> Result<(), Fail> {
    let alloc = rt.alloc();
    let table: [(u16, &[u8], u32, u8); 14] = [
        (8, &[], 0, 5),
        (8, &[0x16], 0, 5),
        (8, &[0x2A], 0, 2),
        (0, &[0x16, 0x2A], 0, 2),
        (8, &[0x16, 0xFF], 1, 1),
        (8, &[0x2B, 0x01, 0x20, 0x00, 0x00, 0x00, 0x00, 0x2A], 0, 1),
        (8, &[0x72, 0x01, 0x00, 0x00, 0x70, 0x2A], 0, 0),
        (8, &[0x16, 0x6A, 0x2A], 2, 3),
        (8, &[0x16, 0x2B, 0xFD], 1, 4),
        (8, &[0x16, 0x2D, 0x01, 0x16, 0x16, 0x2A], 4, 4),
        (8, &[0xDC], 0, 8),
        (8, &[0xFE, 0x1A], 0, 8),
        (8, &[0x16, 0x6A, 0x0A, 0x16, 0x2A], 2, 11),
        (8, &[0x16, 0x28, 0x02, 0x00, 0x00, 0x0A, 0x16, 0x2A], 1, 3),
    ];
    for (max_stack, code, at, rule) in table {
        assert!(rt; code.len() < 100);
        let found = first_fault(alloc, max_stack, code, &[])?;
        assert_eq!(rt; found, Some(Broken { at, rule }));
    }
    Ok(())
}

#[test]
fn the_first_broken_rule_on_handlers_is_named(rt: HostRuntime) -> Result<(), Fail> {
    let alloc = rt.alloc();
    // A catch's handler that is entered inside a finally's, whose end finds nothing to end.
    let crossed = [
        clause(ClauseKind::Catch, [0, 2, 5, 3], 0x0100_0002),
        clause(ClauseKind::Finally, [2, 2, 4, 4], 0),
    ];
    let code = [0x14, 0x7A, 0x2B, 0xFE, 0xDC, 0x26, 0xDE, 0xFC];
    let found = first_fault(alloc, 1, &code, &crossed)?;
    assert_eq!(rt; found, Some(Broken { at: 2, rule: 6 }));
    // A method that begins in a handler.
    let first = [clause(ClauseKind::Finally, [1, 2, 0, 1], 0)];
    let found = first_fault(alloc, 1, &[0xDC, 0x2B, 0xFE], &first)?;
    assert_eq!(rt; found, Some(Broken { at: 0, rule: 7 }));
    // A return from protected code.
    let fault = [clause(ClauseKind::Fault, [0, 2, 2, 1], 0)];
    let found = first_fault(alloc, 1, &[0x16, 0x2A, 0xDC], &fault)?;
    assert_eq!(rt; found, Some(Broken { at: 1, rule: 7 }));
    Ok(())
}

#[test]
fn bodies_that_are_right_break_no_rule(rt: HostRuntime) -> Result<(), Fail> {
    let alloc = rt.alloc();
    let fault = [clause(ClauseKind::Fault, [0, 2, 2, 1], 0)];
    let code = [0xDE, 0x01, 0xDC, 0x16, 0x2A];
    assert_eq!(rt; first_fault(alloc, 1, &code, &fault)?, None);
    let catch = [clause(ClauseKind::Catch, [0, 2, 2, 3], 0x0100_0001)];
    let code = [0xDE, 0x03, 0x26, 0xDE, 0x00, 0x16, 0x2A];
    assert_eq!(rt; first_fault(alloc, 1, &code, &catch)?, None);
    // An empty stack behind an unconditional branch that nothing branched past.
    let code = [0x2B, 0x02, 0x16, 0x2A, 0x2B, 0xFC];
    assert_eq!(rt; first_fault(alloc, 1, &code, &[])?, None);
    Ok(())
}
