// The signs (ISO/IEC 14882:2003, 2.12).
ghost use Rattle.std.specs.Prelude.{◌≡◌};
ghost use Rattle.cc_tree.specs.Signs as spec;

use cc_tree::SIGNS;

/// The number of the sign that these bytes spell.
pub fn sign_number(bytes: &[u8]) -> Option<u8>
    ensures { result ≡ spec.sign_number bytes.now }
{
    let mut number: u8 = 0;
    let mut rest: &[&[u8]] = &SIGNS;
    'signs: while let [sign, more @ ..] = rest {
        if *sign == bytes {
            return Some(number);
        }
        number += 1;
        rest = more;
    }
    None
}
