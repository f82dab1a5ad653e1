// Columns of rows as numbers, met one after the other, with the heaps that they use (ECMA-335, II.24.2.6).
ghost use Rattle.std.specs.Prelude.{◌≡◌, ◌<◌, ◌^◌, [], ◌∷◌, ◌++◌, length, IfOk, OnOk};
ghost use Rattle.cc_module.specs.Rows.{u1, u2, u4, name, guid, signature, blob, row, coded};
ghost use Rattle.cc_tables.specs.Numbering.{IsNumbering, Meets, numbered};

use crate::heap::{Heap, HeapKind};
use cc_module::{CodedIndex, Column, Table};
use std::alloc::{AllocError, Global};

/// A column of a row, and the number that it holds.
#[derive(Clone, Copy, Debug, PartialEq, Eq)]
pub(crate) struct Slot {
    pub(crate) column: Column,
    pub(crate) value: u64,
}

/// The columns met so far.
#[derive(Drop)]
pub(crate) struct Numbering {
    pub(crate) names: Heap,
    pub(crate) blobs: Heap,
    pub(crate) slots: Vec<Slot>,
}

impl Numbering {
    pub(crate) fn new(alloc: Global) -> Result<Numbering, AllocError>
        ensures whole { IfOk result IsNumbering }
        ensures empty { IfOk result (λ n. numbered n ≡ record { names = []; blobs = []; slots = [] }) }
    {
        Ok(Numbering {
            names: Heap::new(alloc, HeapKind::Names)?,
            blobs: Heap::new(alloc, HeapKind::Blobs)?,
            slots: Vec::new(alloc),
        })
    }

    // Adds a column that uses no heap.
    fn slot(&mut self, column: Column, value: u64) -> Result<(), AllocError>
        ensures names { OnOk result (self.new.names ≡ self.old.names) }
        ensures blobs { OnOk result (self.new.blobs ≡ self.old.blobs) }
        ensures slots { OnOk result (self.new.slots.items ≡ self.old.slots.items ++ record { column = column; value = value } ∷ []) }
    {
        self.slots.push(Slot { column, value })?;
        Ok(())
    }

    /// A number of one byte.
    pub(crate) fn u1(&mut self, value: u8) -> Result<(), AllocError>
        requires { IsNumbering self.old }
        ensures { OnOk result (Meets self.old self.new (u1 value ∷ [])) }
    {
        self.slot(Column::U1, value as u64)?;
        Ok(())
    }

    /// A number of two bytes.
    pub(crate) fn u2(&mut self, value: u16) -> Result<(), AllocError>
        requires { IsNumbering self.old }
        ensures { OnOk result (Meets self.old self.new (u2 value ∷ [])) }
    {
        self.slot(Column::U2, value as u64)?;
        Ok(())
    }

    /// A number of four bytes.
    pub(crate) fn u4(&mut self, value: u32) -> Result<(), AllocError>
        requires { IsNumbering self.old }
        ensures { OnOk result (Meets self.old self.new (u4 value ∷ [])) }
    {
        self.slot(Column::U4, value as u64)?;
        Ok(())
    }

    /// An index into `#GUID`.
    pub(crate) fn guid(&mut self, index: u32) -> Result<(), AllocError>
        requires { IsNumbering self.old }
        ensures { OnOk result (Meets self.old self.new (guid index ∷ [])) }
    {
        self.slot(Column::Guid, index as u64)?;
        Ok(())
    }

    /// A row of a table.
    pub(crate) fn row(&mut self, table: Table, index: u32) -> Result<(), AllocError>
        requires { IsNumbering self.old }
        ensures { OnOk result (Meets self.old self.new (row table index ∷ [])) }
    {
        self.slot(Column::Row(table), index as u64)?;
        Ok(())
    }

    /// A row of one of several tables, with its tag.
    pub(crate) fn coded(&mut self, kind: CodedIndex, code: u64) -> Result<(), AllocError>
        requires { IsNumbering self.old }
        ensures { OnOk result (Meets self.old self.new (coded kind code ∷ [])) }
    {
        self.slot(Column::Coded(kind), code)?;
        Ok(())
    }

    /// A name.
    pub(crate) fn name(&mut self, alloc: Global, text: &[u8]) -> Result<(), AllocError>
        requires { IsNumbering self.old }
        ensures { OnOk result (Meets self.old self.new (name text.now ∷ [])) }
    {
        let place = self.names.place(alloc, text)?;
        self.slot(Column::Name, place as u64)?;
        Ok(())
    }

    /// A signature or another blob.
    pub(crate) fn blob(&mut self, alloc: Global, text: &[u8]) -> Result<(), AllocError>
        requires whole { IsNumbering self.old }
        requires short { length text.now < 2 ^ 29 }
        ensures signature { OnOk result (Meets self.old self.new (signature text.now ∷ [])) }
        ensures blob { OnOk result (Meets self.old self.new (blob text.now ∷ [])) }
    {
        let place = self.blobs.place(alloc, text)?;
        self.slot(Column::Blob, place as u64)?;
        Ok(())
    }
}
