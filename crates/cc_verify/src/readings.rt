// What the signature columns of a module hold (ECMA-335, II.23.2).
ghost use Rattle.std.specs.Prelude.{IfOk};
ghost use Rattle.cc_verify.specs.Types.{IsReading, AreReadings, Zip};

use crate::sizes::short;
use cc_base::List;
use cc_module::{
    BlobFault, MemberRefRow, MethodDefRow, Module, Signature, StandAloneSigRow, read_signature,
};
use std::alloc::{AllocError, Global};

/// The signatures of the rows of MethodDef, MemberRef and StandAloneSig; none where a blob is no signature.
#[derive(Drop)]
pub struct Readings {
    pub methods: List<Option<Signature>>,
    pub references: List<Option<Signature>>,
    pub locals: List<Option<Signature>>,
}

// The signature that a blob is.
fn reading(alloc: Global, blob: &[u8]) -> Result<Option<Signature>, AllocError>
    ensures { IfOk result (λ read. IsReading blob.now read) }
{
    short(blob.len())?;
    match read_signature(alloc, blob) {
        Ok(signature) => Ok(Some(signature)),
        Err(fault) => match fault {
            BlobFault::Bad(_) => Ok(None),
            BlobFault::Memory => Err(AllocError),
        },
    }
}

fn method_readings(
    alloc: Global,
    rows: &[MethodDefRow],
) -> Result<List<Option<Signature>>, AllocError>
    ensures { IfOk result (λ read. Zip (λ row s. IsReading row.signature s) rows.now read) }
{
    let mut read = List::new(alloc);
    for row in rows {
        read.push(reading(alloc, row.signature.as_slice())?)?;
    }
    Ok(read)
}

fn reference_readings(
    alloc: Global,
    rows: &[MemberRefRow],
) -> Result<List<Option<Signature>>, AllocError>
    ensures { IfOk result (λ read. Zip (λ row s. IsReading row.signature s) rows.now read) }
{
    let mut read = List::new(alloc);
    for row in rows {
        read.push(reading(alloc, row.signature.as_slice())?)?;
    }
    Ok(read)
}

fn locals_readings(
    alloc: Global,
    rows: &[StandAloneSigRow],
) -> Result<List<Option<Signature>>, AllocError>
    ensures { IfOk result (λ read. Zip (λ row s. IsReading row.signature s) rows.now read) }
{
    let mut read = List::new(alloc);
    for row in rows {
        read.push(reading(alloc, row.signature.as_slice())?)?;
    }
    Ok(read)
}

/// What the signature columns of a module hold.
pub fn read_signatures(alloc: Global, module: &Module) -> Result<Readings, AllocError>
    ensures { IfOk result (λ read. AreReadings «module».now read) }
{
    let methods = method_readings(alloc, module.methods.as_slice())?;
    let references = reference_readings(alloc, module.member_refs.as_slice())?;
    let locals = locals_readings(alloc, module.stand_alone_sigs.as_slice())?;
    Ok(Readings {
        methods,
        references,
        locals,
    })
}
