// Strings and characters from behind their opening quote (ISO/IEC 14882:2003, 2.13.2 and 2.13.4).
ghost use Rattle.std.specs.Prelude.{◌≡◌, ◌+◌, ◌<◌, ◌≤◌, ◌^◌, false, length, Option, Err, [], ◌∷◌, ◌++◌, IfSome, IfErr, OnOk, OnErr};
ghost use Rattle.cc_lexer.specs.declared.fault.LexFault.TheVariants.{Memory};
ghost use Rattle.cc_lexer.specs.Faults.{refusal, Answers, IsPlaceWithin};
ghost use Rattle.cc_tree.specs.Quotes as spec;

use crate::bytes::{past, span};
use crate::escapes::element_at;
use crate::fault::LexFault;
use cc_base::Text;
use cc_tree::Element;
use std::alloc::Global;

/// The place of the closing quote, if it stands on the line.
pub fn closing(quote: u8, bytes: &[u8]) -> Option<usize>
    ensures value { result ≡ spec.closing quote false 0 bytes.now }
    ensures within { IfSome result (λ at. at < length bytes.now) }
{
    let mut escaped = false;
    let mut at = 0;
    let mut rest = bytes;
    'bytes: while let [b, more @ ..] = rest {
        if *b == b'\n' {
            return None;
        }
        if !escaped && *b == quote {
            return Some(at);
        }
        escaped = !escaped && *b == b'\\';
        at += 1;
        rest = more;
    }
    None
}

fn push(units: &mut Text, unit: u16) -> Result<(), LexFault>
    ensures ok { OnOk result (units.new ≡ units.old ++ unit ∷ []) }
    ensures err { OnErr result (result ≡ Err Memory) }
{
    units.push(unit)?;
    Ok(())
}

fn push_pair(units: &mut Text, high: u16, low: u16) -> Result<(), LexFault>
    ensures ok { OnOk result (units.new ≡ units.old ++ high ∷ low ∷ []) }
    ensures err { OnErr result (result ≡ Err Memory) }
{
    units.push(high)?;
    units.push(low)?;
    Ok(())
}

/// The UTF-16 units that the bytes between two quotes stand for.
pub fn decode(alloc: Global, body: &[u8]) -> Result<Text, LexFault>
    requires short { length body.now < 2 ^ 31 }
    ensures value { Answers result (spec.Decodes 0 body.now) }
    ensures near { IfErr result (λ fault. IsPlaceWithin (length body.now) (refusal fault)) }
{
    let mut units = Text::new(alloc);
    let mut at = 0;
    let mut rest = body;
    'elements: while rest.len() > 0 {
        match element_at(rest) {
            Element::One(unit, n) => {
                push(&mut units, unit)?;
                at += n;
                rest = past(rest, n);
                continue;
            }
            Element::Pair(high, low, n) => {
                push_pair(&mut units, high, low)?;
                at += n;
                rest = past(rest, n);
            }
            Element::BadByte => return Err(LexFault::BadByte(span(at, at + 1))),
            Element::BadEscape(n) => return Err(LexFault::BadLiteral(span(at, at + n))),
        }
    }
    Ok(units)
}
