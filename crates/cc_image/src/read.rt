// Images as modules (ECMA-335, II.25).
ghost use Rattle.std.specs.Prelude.{◌≡◌, ◌≢◌, ◌<◌, ◌≤◌, ◌^◌, ◌+◌, ◌%◌, length, take, drop, Some, None, Ok, Err, IfOk, OnOk, IsOkUnless};
ghost use Rattle.cc_module.specs.declared.module.Module.{Module};
ghost use Rattle.cc_module.specs.Storable.{IsStorable, IsInRange};
ghost use Rattle.cc_tables.specs.Reading.{IsTables};
ghost use Rattle.cc_image.specs.Images.{IsImage};
ghost use Rattle.cc_image.specs.Headers.{HEADERS};
ghost use Rattle.cc_image.specs.ImageFaults.{FIRST_BODY_AT, metadata_at, bodies_in};
ghost use Rattle.cc_image.specs.Reading.{tables_error, TablesFault, contents_fault, IsFirstFault};
ghost use Rattle.cc_image.specs.declared.fault.ImageFault.{ImageFault};
ghost use Rattle.cc_image.specs.declared.fault.ImageFault.TheVariants.{Memory};

use crate::bodies::{SECTION_SHIFT, read_bodies};
use crate::ends::ends_fault;
use crate::fault::ImageFault;
use crate::headers::read_headers;
use crate::ranges::read_rvas;
use crate::sizes::Sizes;
use cc_base::List;
use cc_cil::Body;
use cc_module::{MethodDefRow, Module};
use cc_tables::{TableFault, read_metadata};
use std::alloc::Global;

// The metadata, as the CLI header tells them.
fn metadata_at<'a>(sizes: &Sizes, bytes: &'a [u8]) -> &'a [u8]
    ensures { result.now ≡ metadata_at sizes.now bytes.now }
{
    let place = sizes.metadata_place.saturating_sub(SECTION_SHIFT) as usize;
    let start = place.min(bytes.len());
    let (_, rest) = bytes.split_at(start);
    let size = (sizes.metadata_size as usize).min(rest.len());
    let (metadata, _) = rest.split_at(size);
    metadata
}

// What a fault of metadata means here.
fn tables_error(fault: TableFault) -> ImageFault
    ensures { result ≡ tables_error fault }
{
    match fault {
        TableFault::Memory => ImageFault::Memory,
        TableFault::BadRoot(_)
        | TableFault::BadStream(_)
        | TableFault::BadTable(_, _)
        | TableFault::BadBlob(_)
        | TableFault::NotSorted(_) => ImageFault::Metadata(fault),
    }
}

// The tables and the user strings of an image.
fn read_tables(alloc: Global, sizes: &Sizes, bytes: &[u8]) -> Result<Module, ImageFault>
    requires { length bytes.now < 2 ^ 28 }
    ensures found { IfOk result (λ m. IsTables m (metadata_at sizes.now bytes.now)) }
    ensures read { (m : Module) → IsTables m (metadata_at sizes.now bytes.now) → IfOk result (λ r. r ≡ m) × IsOkUnless result Memory }
    ensures fault { (f : ImageFault) → result ≡ Err f → f ≢ Memory → TablesFault sizes.now bytes.now f }
{
    match read_metadata(alloc, metadata_at(sizes, bytes)) {
        Ok(module) => Ok(module),
        Err(fault) => Err(tables_error(fault)),
    }
}

// The bodies of methods, where the ends and the zeros behind them are right.
fn read_contents(
    alloc: Global,
    sizes: &Sizes,
    methods: &[MethodDefRow],
    bytes: &[u8],
) -> Result<List<Body>, ImageFault>
    requires rows { length methods.now < 2 ^ 32 }
    requires least { FIRST_BODY_AT ≤ length bytes.now }
    requires room { length bytes.now < 2 ^ 28 }
    requires whole { length bytes.now % 4 ≡ 0 }
    requires used { HEADERS + sizes.now.used ≤ length bytes.now }
    ensures values { IfOk result (λ r. r ≡ bodies_in FIRST_BODY_AT methods.now bytes.now) }
    ensures found { OnOk result (contents_fault sizes.now methods.now bytes.now ≡ None) }
    ensures fault { (f : ImageFault) → result ≡ Err f → f ≢ Memory → contents_fault sizes.now methods.now bytes.now ≡ Some f }
{
    let bodies = read_bodies(alloc, methods, bytes)?;
    match ends_fault(sizes, &bodies, bytes) {
        None => Ok(bodies.items),
        Some(fault) => Err(fault),
    }
}

/// The module of an image (ECMA-335, II.25). It errs at the first check that fails: the headers field by field, the file's
/// length and the CLI header (`Short` where the file ends too early, else `BadField`, both with the place); the metadata
/// (`Metadata`); each body in the order of the methods (`BadField` at the body's place where the RVA is another, else `Code`
/// with the method's row); then the ends of the bodies and the metadata and the zeros behind them (`BadField`).
pub fn read_image(alloc: Global, bytes: &[u8]) -> Result<Module, ImageFault>
    ensures found { IfOk result (λ m. IsStorable m × IsImage m bytes.now) }
    ensures read { (m : Module) → IsStorable m → IsInRange m → IsImage m bytes.now → IfOk result (λ r. r ≡ m) × IsOkUnless result Memory }
    ensures fault { (f : ImageFault) → result ≡ Err f → f ≢ Memory → IsFirstFault bytes.now f }
{
    let sizes = read_headers(alloc, bytes)?;
    let mut module = read_tables(alloc, &sizes, bytes)?;
    read_rvas(module.methods.as_slice());
    module.bodies = read_contents(alloc, &sizes, module.methods.as_slice(), bytes)?;
    module.entry = sizes.entry;
    Ok(module)
}
