// Texts of booleans and characters, two texts joined, and the bytes that a text is printed as.
ghost use Rattle.std.specs.Prelude.{◌≡◌, [], ◌∷◌, ◌++◌, IfOk};
ghost use Rattle.cc_library.specs.Texts.{boolean_text, printed_bytes};

use cc_base::{List, Text};
use std::alloc::{AllocError, Global};

/// The units of an ASCII text, one for each byte.
pub(crate) fn units_of(alloc: Global, ascii: &[u8]) -> Result<Text, AllocError>
    ensures { IfOk result (λ text. text ≡ ascii.now) }
{
    let units: Vec<u16> = ascii.iter().map(|byte| u16::from(*byte)).collect(alloc)?;
    Ok(List::from_vec(units))
}

/// The text of a boolean, `True` or `False` (ECMA-335, IV, `Boolean.ToString`).
pub fn boolean_of(alloc: Global, value: bool) -> Result<Text, AllocError>
    ensures { IfOk result (λ text. text ≡ boolean_text value) }
{
    if value {
        units_of(alloc, b"True")
    } else {
        units_of(alloc, b"False")
    }
}

/// The text of a character, its one unit of UTF-16 (ECMA-335, IV, `Char.ToString`).
pub fn character_of(alloc: Global, unit: u16) -> Result<Text, AllocError>
    ensures { IfOk result (λ text. text ≡ unit ∷ []) }
{
    List::from_slice(alloc, &[unit])
}

/// The second text behind the first (ECMA-335, IV, `String.Concat`).
pub fn concat(alloc: Global, first: &Text, second: &Text) -> Result<Text, AllocError>
    ensures { IfOk result (λ text. text ≡ first.now ++ second.now) }
{
    let mut units = Vec::from_slice(alloc, first.as_slice())?;
    units.extend_from_slice(second.as_slice())?;
    Ok(List::from_vec(units))
}

/// The bytes that a text is printed as (ECMA-335, IV, `Console.Write`): UTF-8, with `EF BF BD` for a surrogate without its partner.
pub fn utf8_of(alloc: Global, text: &Text) -> Result<Vec<u8>, AllocError>
    ensures { IfOk result (λ bytes. bytes.items ≡ printed_bytes text.now) }
{
    let printed = String::from_utf16_lossy(alloc, text.as_slice())?;
    Ok(printed.into_bytes())
}
