// Numbers are of their types, which a proof learns where they are read.
ghost use Rattle.std.specs.Prelude.{◌<◌, ◌^◌};
ghost use Rattle.std.specs.List.{AllByRecursion};
ghost use Rattle.cc_layout.specs.Numbers.{AreBytes};
ghost use Rattle.cc_cil.specs.Bodies.{IsClauseInRange, IsInRange};
ghost use Rattle.cc_image.specs.Reading.{HaveRvas};

use cc_cil::{Body, Clause};
use cc_module::MethodDefRow;

fn read_clause(clause: &Clause)
    ensures { IsClauseInRange clause.now }
{
    let _try_first = clause.try_first;
    let _try_length = clause.try_length;
    let _handler_first = clause.handler_first;
    let _handler_length = clause.handler_length;
    let _class = clause.class;
}

fn read_clauses(clauses: &[Clause])
    ensures { AllByRecursion IsClauseInRange clauses.now }
{
    for clause in clauses {
        read_clause(clause);
    }
}

fn read_code(code: &[u8])
    ensures { AreBytes code.now }
{
    let _size = code.len();
}

/// Reads the numbers of a body.
pub fn read_numbers(body: &Body)
    ensures { IsInRange body.now }
{
    let _max_stack = body.max_stack;
    let _locals = body.locals;
    read_code(body.code.as_slice());
    read_clauses(body.clauses.as_slice());
}

fn read_rva(method: &MethodDefRow)
    ensures { method.now.rva < 2 ^ 32 }
{
    let _rva = method.rva;
}

/// Reads the RVAs of methods.
pub fn read_rvas(methods: &[MethodDefRow])
    ensures { HaveRvas methods.now }
{
    for method in methods {
        read_rva(method);
    }
}
