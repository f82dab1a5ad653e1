// The headers of an image, read (ECMA-335, II.25.2 and II.25.3.3).
ghost use Rattle.std.specs.Prelude.{◌≡◌, ◌≢◌, ◌<◌, ◌≤◌, ◌^◌, ◌+◌, ◌%◌, ◌++◌, map, length, take, drop, Some, None, Err, IfOk, OnOk};
ghost use Rattle.std.specs.List.{AllByRecursion};
ghost use Rattle.cc_layout.specs.Layout.{run, peeked, fault_of, HasWidth};
ghost use Rattle.cc_image.specs.Headers.{HEADERS, field_of, header_layout, cli_layout, sizes_in};
ghost use Rattle.cc_image.specs.ImageFaults.{located, length_fault, fields_fault, cli_fault, headers_fault};
ghost use Rattle.cc_image.specs.declared.fault.ImageFault.{ImageFault};
ghost use Rattle.cc_image.specs.declared.fault.ImageFault.TheVariants.{Memory};

use crate::fault::ImageFault;
use crate::layout::{
    CLI, CLI_DIRECTORIES, CLI_DIRECTORY, COFF, DIRECTORIES, DOS, Item, OPTIONAL, SECTION_HEADER,
    SECTION_NAME, ZEROS,
};
use crate::sizes::{Sizes, field_of};
use cc_layout::{Field, FieldFault, first_fault, peek_number};
use std::alloc::{AllocError, Global};

fn push_run(bytes: &[u8], into: &mut Vec<Field>) -> Result<(), AllocError>
    ensures { OnOk result (into.new.items ≡ into.old.items ++ run bytes.now) }
{
    for byte in bytes {
        into.push(Field::number(1, *byte as u64))?;
    }
    Ok(())
}

fn push_items(items: &[Item], sizes: &Sizes, into: &mut Vec<Field>) -> Result<(), AllocError>
    ensures { OnOk result (into.new.items ≡ into.old.items ++ map (field_of sizes.now) items.now) }
{
    for item in items {
        into.push(field_of(item, sizes))?;
    }
    Ok(())
}

fn header_fields(alloc: Global, sizes: &Sizes) -> Result<Vec<Field>, AllocError>
    ensures { IfOk result (λ fields. fields.items ≡ header_layout sizes.now) }
{
    let mut fields = Vec::new(alloc);
    push_run(&DOS, &mut fields)?;
    push_items(&COFF, sizes, &mut fields)?;
    push_items(&OPTIONAL, sizes, &mut fields)?;
    push_items(&DIRECTORIES, sizes, &mut fields)?;
    push_items(&CLI_DIRECTORY, sizes, &mut fields)?;
    push_run(&SECTION_NAME, &mut fields)?;
    push_items(&SECTION_HEADER, sizes, &mut fields)?;
    push_run(&ZEROS, &mut fields)?;
    Ok(fields)
}

fn cli_fields(alloc: Global, sizes: &Sizes) -> Result<Vec<Field>, AllocError>
    ensures { IfOk result (λ fields. fields.items ≡ cli_layout sizes.now) }
{
    let mut fields = Vec::new(alloc);
    push_items(&CLI, sizes, &mut fields)?;
    push_items(&CLI_DIRECTORIES, sizes, &mut fields)?;
    Ok(fields)
}

// The sizes that stand in the headers, 0 where the bytes end before.
#[tactic(auto, unfolding(crate::specs::Headers::sizes_in))]
fn sizes_at(bytes: &[u8]) -> Sizes
    ensures { result ≡ sizes_in bytes.now }
{
    Sizes {
        section: peek_number(bytes, 156, 4) as u32,
        used: peek_number(bytes, 384, 4) as u32,
        metadata_place: peek_number(bytes, 520, 4) as u32,
        metadata_size: peek_number(bytes, 524, 4) as u32,
        entry: peek_number(bytes, 532, 4) as u32,
    }
}

// Whether the bytes have the fields, where they stand from a place on.
fn check_fields(fields: &[Field], bytes: &[u8], at: u32) -> Result<(), ImageFault>
    requires widths { AllByRecursion HasWidth fields.now }
    requires room { at + length bytes.now < 2 ^ 32 }
    ensures found { OnOk result (located (fault_of at fields.now bytes.now) ≡ None) }
    ensures fault { (f : ImageFault) → result ≡ Err f → located (fault_of at fields.now bytes.now) ≡ Some f }
{
    match first_fault(fields, bytes, at) {
        None => Ok(()),
        Some(FieldFault::Missing(place)) => Err(ImageFault::Short(place)),
        Some(FieldFault::Differs(place)) => Err(ImageFault::BadField(place)),
    }
}

fn check_headers(alloc: Global, sizes: &Sizes, bytes: &[u8]) -> Result<(), ImageFault>
    ensures found { OnOk result (fields_fault sizes.now bytes.now ≡ None) }
    ensures fault { (f : ImageFault) → result ≡ Err f → f ≢ Memory → fields_fault sizes.now bytes.now ≡ Some f }
    ensures bounded { OnOk result (HEADERS + sizes.now.section < 2 ^ 28) }
{
    let fields = header_fields(alloc, sizes)?;
    let size = 0x200_usize.min(bytes.len());
    let (head, _) = bytes.split_at(size);
    check_fields(&fields, head, 0)?;
    Ok(())
}

// Whether the file ends at a place.
fn check_length(end: u32, bytes: &[u8]) -> Result<(), ImageFault>
    ensures found { OnOk result (length_fault end bytes.now ≡ None) }
    ensures fault { (f : ImageFault) → result ≡ Err f → length_fault end bytes.now ≡ Some f }
{
    if bytes.len() < end as usize {
        return Err(ImageFault::Short(bytes.len() as u32));
    }
    if (end as usize) < bytes.len() {
        return Err(ImageFault::BadField(end));
    }
    Ok(())
}

fn check_cli(alloc: Global, sizes: &Sizes, bytes: &[u8]) -> Result<(), ImageFault>
    requires least { HEADERS ≤ length bytes.now }
    requires room { length bytes.now < 2 ^ 28 }
    ensures found { OnOk result (cli_fault sizes.now bytes.now ≡ None) }
    ensures fault { (f : ImageFault) → result ≡ Err f → f ≢ Memory → cli_fault sizes.now bytes.now ≡ Some f }
{
    let fields = cli_fields(alloc, sizes)?;
    let (_, section) = bytes.split_at(0x200);
    check_fields(&fields, section, 0x200)?;
    Ok(())
}

/// What the headers tell. It errs at the first field that is missing or differs: of the headers before the section, then at
/// the file's end where it isn't the section's, and then of the CLI header.
pub fn read_headers(alloc: Global, bytes: &[u8]) -> Result<Sizes, ImageFault>
    ensures sizes { IfOk result (λ s. s ≡ sizes_in bytes.now) }
    ensures found { OnOk result (headers_fault bytes.now ≡ None) }
    ensures fault { (f : ImageFault) → result ≡ Err f → f ≢ Memory → headers_fault bytes.now ≡ Some f }
{
    let sizes = sizes_at(bytes);
    check_headers(alloc, &sizes, bytes)?;
    check_length(0x200 + sizes.section, bytes)?;
    check_cli(alloc, &sizes, bytes)?;
    Ok(sizes)
}
