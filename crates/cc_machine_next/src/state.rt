// The state of a run, and what each operation does to it.
ghost use Rattle.std.specs.Prelude.{◌≡◌, ◌++◌, ◌∷◌, [], List, OnOk};
ghost use Rattle.cc_execution.specs.declared.operation.Operation.TheVariants as does;
ghost use Rattle.cc_execution.specs.Handlers.{throw_made};
ghost use Rattle.cc_core.specs.declared.world.Value.{Value};
ghost use Rattle.cc_core.specs.Numbers.{is_true};
ghost use Rattle.cc_execution.specs.Step.{act, goes_to, on_computed, branch_on, print_value, return_to};
ghost use Rattle.cc_execution.specs.Step as execution;
ghost use Rattle.cc_machine_next.specs.Cells.{value_of, computed_of};
ghost use Rattle.cc_execution.specs.Run.{runs};
ghost use Rattle.cc_machine_next.specs.Flows.{Follows, IsAlwaysFine};
ghost use Rattle.cc_machine_next.specs.RunState.{state_of, world_of, IsFine, HasRoom};
ghost use Rattle.cc_machine_next.specs.Tables.{HasNoClauses, IsTable};

use crate::cell::Cell;
use crate::console::printed_argument;
use crate::flow::Flow;
use crate::frames::FrameStack;
use crate::numbers::{Computation, computed_alone, conversion, operated, stored};
use crate::tables::Tables;
use crate::targets::{is_truth, place_after};
use cc_base::ClassId;
use cc_core::{LibraryCall, Operator, Printed, UnaryOperator};
use cc_execution::{Executable, FundamentalType, Operation};
use std::alloc::{AllocError, Global};

/// `System::NullReferenceException`.
const NULL_REFERENCE: ClassId = ClassId(22);

/// The state of a run that goes on.
#[derive(Drop)]
pub struct RunState {
    pub frames: FrameStack,
    /// The classes of the objects of the heap, which are exceptions that the machine made.
    pub heap: Vec<ClassId>,
    /// How many cells of the heap are left.
    pub room: u32,
    /// The bytes that were printed.
    pub output: Vec<u8>,
}

impl RunState {
    // On at an offset, with a value more on the stack.
    #[inline]
    fn push_and_go(&mut self, code: &Executable, cell: Cell, at: u32) -> Flow
        requires fine { IsFine code.now (goes_to (state_of self.old) at (value_of cell ∷ (state_of self.old).now.stack) (world_of self.old)) }
        requires room { HasRoom code.now self.old.frames }
        ensures { Follows code.now result (goes_to (state_of self.old) at (value_of cell ∷ (state_of self.old).now.stack) (world_of self.old)) self.new }
    {
        self.frames.push(cell);
        self.frames.go_to(at);
        Flow::Goes
    }

    // On at an offset.
    #[inline]
    fn go(&mut self, code: &Executable, at: u32) -> Flow
        requires room { HasRoom code.now self.old.frames }
        ensures { Follows code.now result (goes_to (state_of self.old) at (state_of self.old).now.stack (world_of self.old)) self.new }
    {
        self.frames.go_to(at);
        Flow::Goes
    }

    // Pushes a variable.
    #[inline]
    fn load_variable(&mut self, code: &Executable, limit: u32, place: u32, next: u32) -> Flow
        requires fine { IsFine code.now (act code.now limit (does.LoadVariable place) next (state_of self.old)) }
        requires room { HasRoom code.now self.old.frames }
        ensures { Follows code.now result (act code.now limit (does.LoadVariable place) next (state_of self.old)) self.new }
    {
        let cell = self.frames.variable(place as usize);
        self.push_and_go(code, cell, next)
    }

    // Pops a value into a variable.
    #[inline]
    fn store_variable(
        &mut self,
        code: &Executable,
        limit: u32,
        place: u32,
        of: FundamentalType,
        next: u32,
    ) -> Flow
        requires fine { IsFine code.now (act code.now limit (does.StoreVariable place of) next (state_of self.old)) }
        requires room { HasRoom code.now self.old.frames }
        ensures { Follows code.now result (act code.now limit (does.StoreVariable place of) next (state_of self.old)) self.new }
    {
        let cell = self.frames.pop();
        match stored(of, cell) {
            None => unreachable!(),
            Some(held) => {
                self.frames.set_variable(place as usize, held);
                self.frames.go_to(next);
                Flow::Goes
            }
        }
    }

    // Pushes the value on top once more.
    #[inline]
    fn duplicate(&mut self, code: &Executable, limit: u32, next: u32) -> Flow
        requires fine { IsFine code.now (act code.now limit does.Duplicate next (state_of self.old)) }
        requires room { HasRoom code.now self.old.frames }
        ensures { Follows code.now result (act code.now limit does.Duplicate next (state_of self.old)) self.new }
    {
        let cell = self.frames.top();
        self.push_and_go(code, cell, next)
    }

    // Drops the value on top.
    #[inline]
    fn drop_top(&mut self, code: &Executable, limit: u32, next: u32) -> Flow
        requires fine { IsFine code.now (act code.now limit does.Pop next (state_of self.old)) }
        requires room { HasRoom code.now self.old.frames }
        ensures { Follows code.now result (act code.now limit does.Pop next (state_of self.old)) self.new }
    {
        self.frames.pop();
        self.frames.go_to(next);
        Flow::Goes
    }

    // Goes on at a target where the truth of the value on top is this.
    #[inline]
    fn branch_if(
        &mut self,
        code: &Executable,
        limit: u32,
        truth: bool,
        target: u32,
        next: u32,
    ) -> Flow
        requires fine { IsFine code.now (act code.now limit (does.BranchIf truth target) next (state_of self.old)) }
        requires room { HasRoom code.now self.old.frames }
        ensures { Follows code.now result (act code.now limit (does.BranchIf truth target) next (state_of self.old)) self.new }
    {
        let cell = self.frames.pop();
        let at = place_after(is_truth(truth, cell), target, next);
        self.frames.go_to(at);
        Flow::Goes
    }

    // Replaces the value on top by what an operator makes of it.
    #[inline]
    fn compute_alone(
        &mut self,
        code: &Executable,
        limit: u32,
        operator: UnaryOperator,
        next: u32,
    ) -> Flow
        requires fine { IsFine code.now (act code.now limit (does.ComputeAlone operator) next (state_of self.old)) }
        requires room { HasRoom code.now self.old.frames }
        ensures { Follows code.now result (act code.now limit (does.ComputeAlone operator) next (state_of self.old)) self.new }
    {
        let cell = self.frames.top();
        match computed_alone(operator, cell) {
            None => unreachable!(),
            Some(value) => {
                self.frames.replace(value);
                self.frames.go_to(next);
                Flow::Goes
            }
        }
    }

    // Replaces the number on top by one of a type.
    #[inline]
    fn convert(&mut self, code: &Executable, limit: u32, to: FundamentalType, next: u32) -> Flow
        requires fine { IsFine code.now (act code.now limit (does.Convert to) next (state_of self.old)) }
        requires room { HasRoom code.now self.old.frames }
        ensures { Follows code.now result (act code.now limit (does.Convert to) next (state_of self.old)) self.new }
    {
        let cell = self.frames.top();
        match conversion(to, cell) {
            None => unreachable!(),
            Some(value) => {
                self.frames.replace(value);
                self.frames.go_to(next);
                Flow::Goes
            }
        }
    }

    // Makes an exception of a class, for which there is no handler.
    fn throw_made(&mut self, code: &Executable, class: ClassId) -> Flow
        requires { HasNoClauses code.now }
        ensures shows { Follows code.now result (throw_made code.now class (state_of self.old)) self.new }
        ensures frames { self.new.frames ≡ self.old.frames }
    {
        if self.room < 3 {
            return Flow::HeapLimit;
        }
        match self.heap.push(class) {
            Err(_) => Flow::OutOfMemory,
            Ok(()) => {
                self.room -= 3;
                Flow::Aborted(class)
            }
        }
    }

    // Puts what was computed in the place of the value on top.
    #[inline]
    fn give_computed(&mut self, code: &Executable, computation: Computation, next: u32) -> Flow
        requires top { (v : Value) × (rest : List Value) × (self.old.frames.now.stack ≡ v ∷ rest) }
        requires room { HasRoom code.now self.old.frames }
        requires clauses { HasNoClauses code.now }
        ensures { (v : Value) (rest : List Value) → self.old.frames.now.stack ≡ v ∷ rest
            → Follows code.now result (on_computed code.now (state_of self.old) (computed_of computation) (λ u. goes_to (state_of self.old) next (u ∷ rest) (world_of self.old))) self.new }
    {
        match computation {
            Computation::Gives(value) => {
                self.frames.replace(value);
                self.frames.go_to(next);
                Flow::Goes
            }
            Computation::Throws(class) => self.throw_made(code, class),
        }
    }

    // Goes on at a target where what was computed is true.
    #[inline]
    fn branch_computed(
        &mut self,
        code: &Executable,
        computation: Computation,
        target: u32,
        next: u32,
    ) -> Flow
        requires room { HasRoom code.now self.old.frames }
        requires clauses { HasNoClauses code.now }
        ensures { Follows code.now result (on_computed code.now (state_of self.old) (computed_of computation) (λ u. branch_on (state_of self.old) target next (state_of self.old).now.stack (is_true u))) self.new }
    {
        match computation {
            Computation::Gives(value) => {
                let at = place_after(value.is_true(), target, next);
                self.frames.go_to(at);
                Flow::Goes
            }
            Computation::Throws(class) => self.throw_made(code, class),
        }
    }

    // Replaces the two values on top by what an operator makes of them.
    #[inline]
    fn compute(
        &mut self,
        code: &Executable,
        limit: u32,
        operator: Operator,
        signed: bool,
        next: u32,
    ) -> Flow
        requires fine { IsFine code.now (act code.now limit (does.Compute operator signed) next (state_of self.old)) }
        requires room { HasRoom code.now self.old.frames }
        requires clauses { HasNoClauses code.now }
        ensures { Follows code.now result (act code.now limit (does.Compute operator signed) next (state_of self.old)) self.new }
    {
        let right = self.frames.pop();
        let left = self.frames.top();
        match operated(operator, signed, left, right) {
            None => unreachable!(),
            Some(computation) => self.give_computed(code, computation, next),
        }
    }

    // Goes on at a target where the two values on top compare so.
    #[inline]
    fn branch_compare(
        &mut self,
        code: &Executable,
        limit: u32,
        operator: Operator,
        signed: bool,
        target: u32,
        next: u32,
    ) -> Flow
        requires fine { IsFine code.now (act code.now limit (does.BranchCompare operator signed target) next (state_of self.old)) }
        requires room { HasRoom code.now self.old.frames }
        requires clauses { HasNoClauses code.now }
        ensures { Follows code.now result (act code.now limit (does.BranchCompare operator signed target) next (state_of self.old)) self.new }
    {
        let right = self.frames.pop();
        let left = self.frames.pop();
        match operated(operator, signed, left, right) {
            None => unreachable!(),
            Some(computation) => self.branch_computed(code, computation, target, next),
        }
    }

    // Throws the value on top, for which there is no handler.
    fn throw(&mut self, code: &Executable, limit: u32, next: u32) -> Flow
        requires fine { IsFine code.now (act code.now limit does.Throw next (state_of self.old)) }
        requires room { HasRoom code.now self.old.frames }
        requires clauses { HasNoClauses code.now }
        ensures { Follows code.now result (act code.now limit does.Throw next (state_of self.old)) self.new }
    {
        match self.frames.pop() {
            Cell::Null => self.throw_made(code, NULL_REFERENCE),
            Cell::Object(e) => Flow::Aborted(self.heap[e]),
            Cell::Int32(_) => unreachable!(),
            Cell::Int64(_) => unreachable!(),
        }
    }

    // Leaves for a target; there is no handler on the way.
    #[inline]
    fn leave(&mut self, code: &Executable, limit: u32, target: u32, next: u32) -> Flow
        requires room { HasRoom code.now self.old.frames }
        requires clauses { HasNoClauses code.now }
        ensures { Follows code.now result (act code.now limit (does.Leave target) next (state_of self.old)) self.new }
    {
        self.frames.empty();
        self.frames.go_to(target);
        Flow::Goes
    }

    // A text and what stands behind it, at the end of the output.
    fn write(&mut self, text: &str, behind: &[u8]) -> Result<(), AllocError>
        ensures written { OnOk result (self.new.output.items ≡ self.old.output.items ++ (text.now ++ behind.now)) }
        ensures frames { self.new.frames ≡ self.old.frames }
        ensures heap { self.new.heap ≡ self.old.heap }
        ensures cells { self.new.room ≡ self.old.room }
    {
        self.output.extend_from_slice(text.as_bytes())?;
        self.output.extend_from_slice(behind)?;
        Ok(())
    }

    // Prints the value on top, and what stands behind it.
    fn print(
        &mut self,
        alloc: Global,
        code: &Executable,
        of: Printed,
        behind: &[u8],
        next: u32,
    ) -> Flow
        requires fine { IsFine code.now (print_value of behind.now next (state_of self.old)) }
        requires room { HasRoom code.now self.old.frames }
        ensures { Follows code.now result (print_value of behind.now next (state_of self.old)) self.new }
    {
        let cell = self.frames.pop();
        match printed_argument(alloc, of, cell) {
            Err(_) => Flow::OutOfMemory,
            Ok(None) => unreachable!(),
            Ok(Some(text)) => match self.write(&text, behind) {
                Err(_) => Flow::OutOfMemory,
                Ok(()) => {
                    self.frames.go_to(next);
                    Flow::Goes
                }
            },
        }
    }

    // Prints the end of a line.
    fn print_end(&mut self, code: &Executable, limit: u32, next: u32) -> Flow
        requires room { HasRoom code.now self.old.frames }
        ensures { Follows code.now result (act code.now limit (does.CallLibrary LibraryCall.WriteEmptyLine) next (state_of self.old)) self.new }
    {
        match self.write("", b"\n") {
            Err(_) => Flow::OutOfMemory,
            Ok(()) => {
                self.frames.go_to(next);
                Flow::Goes
            }
        }
    }

    // Calls a member of the library.
    fn call_library(
        &mut self,
        alloc: Global,
        code: &Executable,
        limit: u32,
        call: LibraryCall,
        next: u32,
    ) -> Flow
        requires fine { IsFine code.now (act code.now limit (does.CallLibrary call) next (state_of self.old)) }
        requires room { HasRoom code.now self.old.frames }
        ensures { Follows code.now result (act code.now limit (does.CallLibrary call) next (state_of self.old)) self.new }
    {
        match call {
            LibraryCall::Write(of) => self.print(alloc, code, of, &[], next),
            LibraryCall::WriteLine(of) => self.print(alloc, code, of, b"\n", next),
            LibraryCall::WriteEmptyLine => self.print_end(code, limit, next),
        }
    }

    // Calls a method: the values on top are its arguments.
    fn call(&mut self, code: &Executable, tables: &Tables, limit: u32, n: u32, next: u32) -> Flow
        requires fine { IsFine code.now (act code.now limit (does.Call n) next (state_of self.old)) }
        requires room { HasRoom code.now self.old.frames }
        requires table { IsTable code.now tables.now }
        ensures { Follows code.now result (act code.now limit (does.Call n) next (state_of self.old)) self.new }
    {
        let callee = tables.method_at(n as usize);
        let parameters = callee.parameters.as_slice();
        self.frames.store_arguments(parameters);
        if self.frames.callers() + 1 >= limit as usize {
            return Flow::DepthLimit;
        }
        let most = usize::from(callee.max_stack);
        match self.frames.enter(n as usize, parameters.len(), callee.locals.as_slice(), most) {
            Err(_) => Flow::OutOfMemory,
            Ok(()) => Flow::Goes,
        }
    }

    // Returns to the caller without a value.
    fn return_nothing(&mut self, code: &Executable, tables: &Tables) -> Flow
        requires fine { IsFine code.now (return_to code.now (state_of self.old).callers [] (world_of self.old)) }
        requires room { HasRoom code.now self.old.frames }
        requires table { IsTable code.now tables.now }
        ensures { Follows code.now result (return_to code.now (state_of self.old).callers [] (world_of self.old)) self.new }
    {
        if self.frames.callers() == 0 {
            unreachable!();
        }
        self.frames.leave();
        let entry = tables.entry_at(code, self.frames.method(), self.frames.at());
        self.frames.go_to(entry.next);
        Flow::Goes
    }

    // Returns to the caller with a value, or ends the run with it.
    fn return_value(&mut self, code: &Executable, tables: &Tables, value: Cell) -> Flow
        requires fine { IsFine code.now (return_to code.now (state_of self.old).callers (value_of value ∷ []) (world_of self.old)) }
        requires room { HasRoom code.now self.old.frames }
        requires table { IsTable code.now tables.now }
        ensures { Follows code.now result (return_to code.now (state_of self.old).callers (value_of value ∷ []) (world_of self.old)) self.new }
    {
        if self.frames.callers() > 0 {
            self.frames.leave();
            let entry = tables.entry_at(code, self.frames.method(), self.frames.at());
            self.frames.push(value);
            self.frames.go_to(entry.next);
            return Flow::Goes;
        }
        match value {
            Cell::Int32(n) => Flow::Returned(n),
            Cell::Int64(_) => unreachable!(),
            Cell::Null => unreachable!(),
            Cell::Object(_) => unreachable!(),
        }
    }

    // Returns from the method.
    fn return_from(&mut self, code: &Executable, tables: &Tables, limit: u32, next: u32) -> Flow
        requires fine { IsFine code.now (act code.now limit does.Return next (state_of self.old)) }
        requires room { HasRoom code.now self.old.frames }
        requires table { IsTable code.now tables.now }
        ensures { Follows code.now result (act code.now limit does.Return next (state_of self.old)) self.new }
    {
        match tables.method_at(self.frames.method()).result {
            None => self.return_nothing(code, tables),
            Some(of) => {
                let cell = self.frames.top();
                match stored(of, cell) {
                    None => unreachable!(),
                    Some(value) => self.return_value(code, tables, value),
                }
            }
        }
    }

    // Does what an operation does.
    #[inline]
    fn perform(
        &mut self,
        alloc: Global,
        code: &Executable,
        tables: &Tables,
        limit: u32,
        operation: Operation,
        next: u32,
    ) -> Flow
        requires fine { IsFine code.now (act code.now limit operation next (state_of self.old)) }
        requires room { HasRoom code.now self.old.frames }
        requires clauses { HasNoClauses code.now }
        requires table { IsTable code.now tables.now }
        ensures { Follows code.now result (act code.now limit operation next (state_of self.old)) self.new }
    {
        match operation {
            Operation::Nothing => self.go(code, next),
            Operation::LoadVariable(place) => self.load_variable(code, limit, place, next),
            Operation::StoreVariable(place, of) => self.store_variable(
                code, limit, place, of, next,
            ),
            Operation::PushInt32(n) => self.push_and_go(code, Cell::Int32(n), next),
            Operation::PushInt64(n) => self.push_and_go(code, Cell::Int64(n), next),
            Operation::PushNull => self.push_and_go(code, Cell::Null, next),
            Operation::Duplicate => self.duplicate(code, limit, next),
            Operation::Pop => self.drop_top(code, limit, next),
            Operation::Call(n) => self.call(code, tables, limit, n, next),
            Operation::CallLibrary(call) => self.call_library(alloc, code, limit, call, next),
            Operation::Return => self.return_from(code, tables, limit, next),
            Operation::Branch(target) => self.go(code, target),
            Operation::BranchIf(truth, target) => self.branch_if(code, limit, truth, target, next),
            Operation::BranchCompare(operator, signed, target) => {
                self.branch_compare(code, limit, operator, signed, target, next)
            }
            Operation::Compute(operator, signed) => self.compute(
                code, limit, operator, signed, next,
            ),
            Operation::ComputeAlone(operator) => self.compute_alone(code, limit, operator, next),
            Operation::Convert(to) => self.convert(code, limit, to, next),
            Operation::Throw => self.throw(code, limit, next),
            Operation::Rethrow => unreachable!(),
            Operation::EndFinally => unreachable!(),
            Operation::Leave(target) => self.leave(code, limit, target, next),
        }
    }

    /// One step.
    #[inline]
    pub fn step(&mut self, alloc: Global, code: &Executable, tables: &Tables, limit: u32) -> Flow
        requires fine { IsFine code.now (execution.step code.now limit (state_of self.old)) }
        requires room { HasRoom code.now self.old.frames }
        requires clauses { HasNoClauses code.now }
        requires table { IsTable code.now tables.now }
        ensures { Follows code.now result (execution.step code.now limit (state_of self.old)) self.new }
    {
        let entry = tables.entry_at(code, self.frames.method(), self.frames.at());
        self.perform(alloc, code, tables, limit, entry.operation, entry.next)
    }

    /// So many steps, or as many as there are to the end of the run.
    pub fn run(
        &mut self,
        alloc: Global,
        code: &Executable,
        tables: &Tables,
        limit: u32,
        steps: u64,
    ) -> Flow
        requires fine { IsAlwaysFine code.now limit (state_of self.old) }
        requires room { HasRoom code.now self.old.frames }
        requires clauses { HasNoClauses code.now }
        requires table { IsTable code.now tables.now }
        ensures { Follows code.now result (runs code.now limit steps (state_of self.old)) self.new }
    {
        for _ in 0..steps {
            match self.step(alloc, code, tables, limit) {
                Flow::Goes => {}
                last => return last,
            }
        }
        Flow::Goes
    }
}
