// The arguments of a program.
ghost use Rattle.std.specs.Prelude.{◌≡◌, ◌<◌, ◌^◌, ◌++◌, length, map, string_bytes, IfOk, OnOk};
ghost use Rattle.std.specs.Char.Escape.{encode_utf16};
ghost use Rattle.std.specs.List.{All};
ghost use Rattle.cppcli.specs.Answers.{units_of};

use cc_base::{List, Text};
use std::alloc::{AllocError, Global};

// Adds the units of a character.
fn push_character(character: char, units: &mut Vec<u16>) -> Result<(), AllocError>
    ensures { OnOk result (units.new.items ≡ units.old.items ++ encode_utf16 character) }
{
    let mut pair = [0; 2];
    units.extend_from_slice(character.encode_utf16(&mut pair))
}

// A word as units of UTF-16.
fn units_of(alloc: Global, word: &str) -> Result<Vec<u16>, AllocError>
    ensures { IfOk result (λ units. units.items ≡ units_of word.now) }
{
    let mut units = Vec::new(alloc);
    for character in word.chars() {
        push_character(character, &mut units)?;
    }
    Ok(units)
}

// A word as a text. A text has fewer than 2 to the power 32 units: there is no memory for a longer one.
fn text_of(alloc: Global, word: &str) -> Result<Text, AllocError>
    ensures exact { IfOk result (λ text. text ≡ units_of word.now) }
    ensures short { IfOk result (λ text. length text < 2 ^ 32) }
{
    let units = units_of(alloc, word)?;
    if units.len() > 0xFFFF_FFFF {
        return Err(AllocError);
    }
    Ok(List::from_vec(units))
}

/// Words as texts. There are fewer than 2 to the power 32: there is no memory for more.
pub fn texts_of(alloc: Global, words: &[String]) -> Result<Vec<Text>, AllocError>
    ensures exact { IfOk result (λ texts. texts.items ≡ map units_of (map (λ word. string_bytes word) words.now)) }
    ensures few { IfOk result (λ texts. length texts.items < 2 ^ 32) }
    ensures short { IfOk result (λ texts. All (λ text. length text < 2 ^ 32) texts.items) }
{
    if words.len() > 0xFFFF_FFFF {
        return Err(AllocError);
    }
    let mut texts = Vec::new(alloc);
    for word in words {
        texts.push(text_of(alloc, word.as_str())?)?;
    }
    Ok(texts)
}
