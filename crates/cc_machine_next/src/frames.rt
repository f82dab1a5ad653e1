// The frames of the machine, one after another in one vector of cells.
ghost use Rattle.std.specs.Prelude.{◌≡◌, ℕ, ◌+◌, ◌-◌, ◌<◌, ◌≤◌, ◌^◌, length, List, [], ◌∷◌, ◌++◌, reverse, take, Some, slice_get, OnOk, IfOk};
ghost use Rattle.cc_execution.specs.Step.{zeros_of};
ghost use Rattle.cc_execution.specs.Fundamental.{stored_each};
ghost use Rattle.cc_machine_next.specs.Frames.{HeldFrame};
ghost use Rattle.cc_core.specs.declared.world.Value.{Value};
ghost use Rattle.cc_machine_next.specs.Cells.{value_of};
ghost use Rattle.cc_machine_next.specs.Frames as spec;

use crate::cell::Cell;
use crate::numbers::{stored, zero_of};
use cc_execution::FundamentalType;
use std::alloc::{AllocError, Global};
use std::marker::Model;

/// A frame that waits for the one above it: its method, by its place among the methods, the offset of its call, and where
/// its variables and its evaluation stack begin among the cells. The stack ends where the next frame's variables begin.
#[derive(Clone, Copy)]
pub struct Saved {
    pub method: usize,
    pub at: u32,
    pub base: usize,
    pub floor: usize,
}

/// The frames of a run (ECMA-335, I.12.3.2.2).
#[derive(Drop)]
pub struct FrameStack {
    cells: Vec<Cell>,
    saved: Vec<Saved>,
    method: usize,
    at: u32,
    base: usize,
    floor: usize,
    top: usize,
}

impl Model for FrameStack {
    ghost use Rattle.cc_machine_next.specs.Frames.{Frames};
    ghost use Rattle.cc_core.specs.contracts.world.Value as values;
    ghost use Rattle.std.specs.Coded.{codes};

    ghost Value = { Frames };

    ghost coded = { Prim.hlevel (codes, values.the_row.coded) };

    ghost use Rattle.cc_machine_next.specs.Frames.{frames_of, IsLaidOut};

    ghost view = { frames_of };

    ghost invariant = { IsLaidOut };
}

// Room for so many cells in all.
fn reserve(cells: &mut Vec<Cell>, need: usize) -> Result<(), AllocError>
    ensures kept { take (length cells.old.items) cells.new.items ≡ cells.old.items }
    ensures grows { length cells.old.items ≤ length cells.new.items }
    ensures reaches { OnOk result (need ≤ length cells.new.items) }
{
    if cells.len() < need {
        cells.resize(need, Cell::Null)?;
    }
    Ok(())
}

// Zero for each local variable, from a cell on.
fn clear(cells: &mut Vec<Cell>, from: usize, types: &[FundamentalType])
    requires { from + length types.now ≤ length cells.old.items }
    ensures kept { take from cells.new.items ≡ take from cells.old.items }
    ensures zero { spec.values cells.new.items from (from + length types.now) ≡ zeros_of types.now }
    ensures size { length cells.new.items ≡ length cells.old.items }
{
    for i in 0..types.len() {
        cells[from + i] = zero_of(types[i]);
    }
}

// The values of cells from one on, as variables of these types hold them.
fn store_each(cells: &mut Vec<Cell>, from: usize, types: &[FundamentalType])
    requires there { (ws : List Value) × (stored_each types.now (spec.values cells.old.items from (from + length types.now)) ≡ Some ws) }
    requires within { from + length types.now ≤ length cells.old.items }
    ensures kept { take from cells.new.items ≡ take from cells.old.items }
    ensures stored { (ws : List Value) → stored_each types.now (spec.values cells.old.items from (from + length types.now)) ≡ Some ws → spec.values cells.new.items from (from + length types.now) ≡ ws }
    ensures size { length cells.new.items ≡ length cells.old.items }
{
    for i in 0..types.len() {
        let at = from + i;
        let of = types[i];
        let cell = cells[at];
        match stored(of, cell) {
            None => unreachable!(),
            Some(held) => cells[at] = held,
        }
    }
}

impl FrameStack {
    /// The first frame of a run, that of a method without arguments: its local variables are zero.
    pub fn first(
        alloc: Global,
        method: usize,
        locals: &[FundamentalType],
        most: usize,
    ) -> Result<FrameStack, AllocError>
        ensures frame { IfOk result (λ f. f ≡ spec.first method (zeros_of locals.now) f.now.floor f.size) }
        ensures reaches { IfOk result (λ f. f.now.floor + most ≤ f.size) }
    {
        let floor = locals.len();
        let Some(need) = floor.checked_add(most) else {
            return Err(AllocError);
        };
        let mut cells = Vec::new(alloc);
        reserve(&mut cells, need)?;
        clear(&mut cells, 0, locals);
        Ok(FrameStack {
            cells,
            saved: Vec::new(alloc),
            method,
            at: 0,
            base: 0,
            floor,
            top: floor,
        })
    }

    /// The method of the innermost frame, by its place among the methods.
    #[inline]
    pub fn method(&self) -> usize
        ensures { result ≡ self.now.now.method }
    {
        self.method
    }

    /// The offset that the innermost frame is at.
    #[inline]
    pub fn at(&self) -> u32
        ensures { result ≡ self.now.now.at }
    {
        self.at
    }

    /// One value more on the stack.
    #[inline]
    pub fn push(&mut self, cell: Cell)
        requires { self.old.now.floor + length self.old.now.stack < self.old.size }
        ensures { self.new ≡ spec.pushed (value_of cell) self.old }
    {
        self.cells[self.top] = cell;
        self.top += 1;
    }

    /// The value on top, which is taken.
    #[inline]
    pub fn pop(&mut self) -> Cell
        requires { (v : Value) × (rest : List Value) × (self.old.now.stack ≡ v ∷ rest) }
        ensures { self.old ≡ spec.pushed (value_of result) self.new }
    {
        self.top -= 1;
        self.cells[self.top]
    }

    /// The value on top.
    #[inline]
    pub fn top(&self) -> Cell
        requires { (v : Value) × (rest : List Value) × (self.now.now.stack ≡ v ∷ rest) }
        ensures { (rest : List Value) × (self.now.now.stack ≡ value_of result ∷ rest) }
    {
        self.cells[self.top - 1]
    }

    /// Puts a value in the place of the one on top.
    #[inline]
    pub fn replace(&mut self, cell: Cell)
        requires { (v : Value) × (rest : List Value) × (self.old.now.stack ≡ v ∷ rest) }
        ensures { (v : Value) (rest : List Value) → self.old.now.stack ≡ v ∷ rest → self.new ≡ spec.with_stack (value_of cell ∷ rest) self.old }
    {
        let at = self.top - 1;
        self.cells[at] = cell;
    }

    /// Drops all values of the stack.
    #[inline]
    pub fn empty(&mut self)
        ensures { self.new ≡ spec.with_stack [] self.old }
    {
        self.top = self.floor;
    }

    /// The value of a variable.
    #[inline]
    pub fn variable(&self, place: usize) -> Cell
        requires { place < length self.now.now.variables }
        ensures { slice_get self.now.now.variables place ≡ Some (value_of result) }
    {
        self.cells[self.base + place]
    }

    /// Sets a variable.
    #[inline]
    pub fn set_variable(&mut self, place: usize, cell: Cell)
        requires { place < length self.old.now.variables }
        ensures { self.new ≡ spec.with_variable place (value_of cell) self.old }
    {
        let at = self.base + place;
        self.cells[at] = cell;
    }

    /// On at an offset.
    #[inline]
    pub fn go_to(&mut self, at: u32)
        ensures { self.new ≡ spec.gone_to at self.old }
    {
        self.at = at;
    }

    /// The values on top, as parameters of these types hold them.
    pub fn store_arguments(&mut self, types: &[FundamentalType])
        requires there { (vs rest ws : List Value) × (self.old.now.stack ≡ reverse vs ++ rest) × (stored_each types.now vs ≡ Some ws) }
        requires count { length types.now ≤ length self.old.now.stack }
        ensures { (vs rest ws : List Value) → self.old.now.stack ≡ reverse vs ++ rest → stored_each types.now vs ≡ Some ws → self.new ≡ spec.with_stack (reverse ws ++ rest) self.old }
    {
        let from = self.top - types.len();
        store_each(&mut self.cells, from, types);
    }

    /// Enters a frame of a method: so many values on top become its first variables, and its local variables are zero.
    pub fn enter(
        &mut self,
        method: usize,
        arguments: usize,
        locals: &[FundamentalType],
        most: usize,
    ) -> Result<(), AllocError>
        requires { arguments ≤ length self.old.now.stack }
        ensures entered { OnOk result ((vs rest : List Value) → length vs ≡ arguments → self.old.now.stack ≡ reverse vs ++ rest
            → self.new ≡ spec.entered method (vs ++ zeros_of locals.now) rest self.new.now.floor self.new.size self.old) }
        ensures reaches { OnOk result (self.new.now.floor + most ≤ self.new.size) }
        ensures grows { OnOk result (self.old.size ≤ self.new.size) }
    {
        let base = self.top - arguments;
        let Some(floor) = self.top.checked_add(locals.len()) else {
            return Err(AllocError);
        };
        let Some(need) = floor.checked_add(most) else {
            return Err(AllocError);
        };
        reserve(&mut self.cells, need)?;
        clear(&mut self.cells, self.top, locals);
        self.saved.push(Saved {
            method: self.method,
            at: self.at,
            base: self.base,
            floor: self.floor,
        })?;
        self.method = method;
        self.at = 0;
        self.base = base;
        self.floor = floor;
        self.top = floor;
        Ok(())
    }

    /// How many frames wait below the innermost one.
    #[inline]
    pub fn callers(&self) -> usize
        ensures all { result ≡ length self.now.below }
        ensures few { result < 2 ^ 63 }
    {
        self.saved.len()
    }

    /// Drops the innermost frame.
    #[inline]
    pub fn leave(&mut self)
        requires { (now : HeldFrame) × (below : List HeldFrame) × (self.old.below ≡ now ∷ below) }
        ensures { (now : HeldFrame) (below : List HeldFrame) → self.old.below ≡ now ∷ below → self.new ≡ spec.dropped now below self.old }
    {
        match self.saved.pop() {
            None => unreachable!(),
            Some(frame) => {
                self.top = self.base;
                self.method = frame.method;
                self.at = frame.at;
                self.base = frame.base;
                self.floor = frame.floor;
            }
        }
    }
}
