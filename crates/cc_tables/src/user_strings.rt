// User strings (ECMA-335, II.24.2.4).
ghost use Rattle.std.specs.Prelude.{◌≡◌, ◌<◌, ◌^◌, ◌+◌, ◌*◌, ◌++◌, length, IfOk, OnOk};
ghost use Rattle.std.specs.List.{AllByRecursion, flat_map, list_any};
ghost use Rattle.cc_layout.specs.Numbers.{little_endian};
ghost use Rattle.cc_module.specs.Heaps.{is_special, special_mark, text_entry};
ghost use Rattle.cc_module.specs.Metadata.{user_strings_stream};
ghost use Rattle.cc_tables.specs.Numbering.{IsShortText};

use crate::pad::pad;
use cc_base::Text;
use cc_layout::{write_compressed, write_number};
use std::alloc::{AllocError, Global};

fn is_special(unit: u16) -> bool
    ensures { result ≡ is_special unit }
{
    let low = unit % 0x100;
    unit / 0x100 != 0
        || (0x01 <= low && low <= 0x08)
        || (0x0E <= low && low <= 0x1F)
        || low == 0x27
        || low == 0x2D
        || low == 0x7F
}

fn has_special(units: &[u16]) -> bool
    ensures { result ≡ list_any is_special units.now }
{
    units.iter().any(|unit| is_special(*unit))
}

/// The last byte of a user string.
pub(crate) fn special_mark(units: &[u16]) -> u8
    ensures { result ≡ special_mark units.now }
{
    if has_special(units) { 1 } else { 0 }
}

fn write_units(units: &[u16], into: &mut Vec<u8>) -> Result<(), AllocError>
    ensures { OnOk result (into.new.items ≡ into.old.items ++ flat_map (little_endian 2) units.now) }
{
    for unit in units {
        write_number(2, *unit as u64, into)?;
    }
    Ok(())
}

fn write_text(units: &[u16], into: &mut Vec<u8>) -> Result<(), AllocError>
    requires { IsShortText units.now }
    ensures { OnOk result (into.new.items ≡ into.old.items ++ text_entry units.now) }
{
    write_compressed(2 * units.len() as u32 + 1, into)?;
    write_units(units, into)?;
    into.push(special_mark(units))?;
    Ok(())
}

fn write_texts(texts: &[Text], into: &mut Vec<u8>) -> Result<(), AllocError>
    requires { AllByRecursion IsShortText texts.now }
    ensures { OnOk result (into.new.items ≡ into.old.items ++ flat_map text_entry texts.now) }
{
    for text in texts {
        write_text(text.as_slice(), into)?;
    }
    Ok(())
}

/// The stream `#US` with these texts.
pub(crate) fn user_strings_stream(alloc: Global, texts: &[Text]) -> Result<Vec<u8>, AllocError>
    requires { AllByRecursion IsShortText texts.now }
    ensures { IfOk result (λ bytes. bytes.items ≡ user_strings_stream texts.now) }
{
    let mut bytes = vec![in alloc; 0]?;
    write_texts(texts, &mut bytes)?;
    pad(&mut bytes)?;
    Ok(bytes)
}
