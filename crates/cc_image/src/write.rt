// Modules as images (ECMA-335, II.25).
ghost use Rattle.std.specs.Prelude.{◌≡◌, ◌<◌, ◌≤◌, ◌^◌, ◌+◌, ◌-◌, ◌++◌, replicate, length, OnOk, IfOk};
ghost use Rattle.std.specs.List.{flat_map, AllByRecursion};
ghost use Rattle.cc_cil.specs.Bodies.{body_bytes, HasSpelling};
ghost use Rattle.cc_module.specs.Heaps.{padded};
ghost use Rattle.cc_module.specs.Storable.{IsStorable};
ghost use Rattle.cc_image.specs.Headers.{item_bytes, fields_bytes, cli_bytes};
ghost use Rattle.cc_image.specs.Images.{bodies_bytes, sizes_for, image_bytes};

use crate::layout::{
    CLI, CLI_DIRECTORIES, CLI_DIRECTORY, COFF, DIRECTORIES, DOS, Item, OPTIONAL, SECTION_HEADER,
    SECTION_NAME, ZEROS,
};
use crate::sizes::{Sizes, field_of, written_for};
use cc_cil::{Body, write_body};
use cc_layout::write_number;
use cc_module::Module;
use cc_tables::write_metadata;
use std::alloc::{AllocError, Global};

fn write_items(items: &[Item], sizes: &Sizes, into: &mut Vec<u8>) -> Result<(), AllocError>
    ensures { OnOk result (into.new.items ≡ into.old.items ++ flat_map (item_bytes sizes.now) items.now) }
{
    for item in items {
        let field = field_of(item, sizes);
        let value = field.value.unwrap_or(written_for(item.1));
        write_number(field.width, value, into)?;
    }
    Ok(())
}

fn write_fields(sizes: &Sizes, into: &mut Vec<u8>) -> Result<(), AllocError>
    ensures { OnOk result (into.new.items ≡ into.old.items ++ fields_bytes sizes.now) }
{
    into.extend_from_slice(&DOS)?;
    write_items(&COFF, sizes, into)?;
    write_items(&OPTIONAL, sizes, into)?;
    write_items(&DIRECTORIES, sizes, into)?;
    write_items(&CLI_DIRECTORY, sizes, into)?;
    into.extend_from_slice(&SECTION_NAME)?;
    write_items(&SECTION_HEADER, sizes, into)?;
    into.extend_from_slice(&ZEROS)?;
    Ok(())
}

fn write_cli(sizes: &Sizes, into: &mut Vec<u8>) -> Result<(), AllocError>
    ensures { OnOk result (into.new.items ≡ into.old.items ++ cli_bytes sizes.now) }
{
    write_items(&CLI, sizes, into)?;
    write_items(&CLI_DIRECTORIES, sizes, into)?;
    Ok(())
}

fn write_zeros(count: usize, into: &mut Vec<u8>) -> Result<(), AllocError>
    ensures { OnOk result (into.new.items ≡ into.old.items ++ replicate count 0) }
{
    for _ in 0..count {
        into.push(0)?;
    }
    Ok(())
}

// A body, with zeros up to a multiple of four.
fn write_padded(body: &Body, into: &mut Vec<u8>) -> Result<(), AllocError>
    requires { HasSpelling body.now }
    ensures { OnOk result (into.new.items ≡ into.old.items ++ padded (body_bytes body.now)) }
{
    let start = into.len();
    write_body(body, into)?;
    let size = into.len() - start;
    write_zeros((4 - size % 4) % 4, into)?;
    Ok(())
}

fn write_bodies(bodies: &[Body], into: &mut Vec<u8>) -> Result<(), AllocError>
    requires { AllByRecursion HasSpelling bodies.now }
    ensures { OnOk result (into.new.items ≡ into.old.items ++ bodies_bytes bodies.now) }
{
    for body in bodies {
        write_padded(body, into)?;
    }
    Ok(())
}

// The sizes of an image whose bodies and metadata have so many bytes.
fn sizes_for(bodies: usize, metadata: usize, entry: u32) -> Sizes
    requires { 72 + bodies + metadata < 2 ^ 28 }
    ensures { result ≡ sizes_for bodies metadata entry }
{
    let used = (72 + bodies + metadata) as u32;
    Sizes {
        section: (used + 0x1FF) / 0x200 * 0x200,
        used,
        metadata_place: 0x2048 + bodies as u32,
        metadata_size: metadata as u32,
        entry,
    }
}

/// The image of a module that a file can hold (ECMA-335, II.25): the headers, and a section with the CLI header, the bodies,
/// the metadata and zeros. Each body and the metadata begin at a multiple of four. It errs only where memory does not
/// suffice.
pub fn write_image(alloc: Global, module: &Module) -> Result<Vec<u8>, AllocError>
    requires { IsStorable «module».now }
    ensures { IfOk result (λ bytes. bytes.items ≡ image_bytes «module».now) }
{
    let metadata = write_metadata(alloc, module)?;
    let mut bodies = Vec::new(alloc);
    write_bodies(module.bodies.as_slice(), &mut bodies)?;
    let sizes = sizes_for(bodies.len(), metadata.len(), module.entry);
    let mut bytes = Vec::new(alloc);
    write_fields(&sizes, &mut bytes)?;
    write_cli(&sizes, &mut bytes)?;
    bytes.extend_from_slice(&bodies)?;
    bytes.extend_from_slice(&metadata)?;
    write_zeros((sizes.section - sizes.used) as usize, &mut bytes)?;
    Ok(bytes)
}
