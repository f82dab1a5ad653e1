// Digits and the numbers that they write.
ghost use Rattle.std.specs.Prelude.{◌≡◌, ◌≤◌, length};
ghost use Rattle.std.specs.Char.{digit_value};
ghost use Rattle.cc_tree.specs.Digits as spec;

/// The value of a digit or a letter, from 0 to 35, and 36 for any other byte.
fn digit(b: u8) -> u8
    ensures value { result ≡ digit_value b }
    ensures within { result ≤ 36 }
{
    match b {
        b'0'..=b'9' => b - b'0',
        b'A'..=b'Z' => b - b'A' + 10,
        b'a'..=b'z' => b - b'a' + 10,
        _ => 36,
    }
}

/// How many digits stand at the front, of which at most so many are taken.
pub fn digit_count(radix: u8, most: usize, bytes: &[u8]) -> usize
    ensures value { result ≡ spec.digit_count radix most bytes.now }
    ensures within { result ≤ length bytes.now }
    ensures most { result ≤ most }
{
    let mut count = 0;
    'digits: while count < most && count < bytes.len() && digit(bytes[count]) < radix {
        count += 1;
    }
    count
}

/// The number that the digits write, if 64 bits hold it.
pub fn number(radix: u64, digits: &[u8]) -> Option<u64>
    requires { 1 ≤ radix }
    ensures { result ≡ spec.number radix digits.now }
{
    let mut value: u64 = 0;
    'digits: for b in digits {
        let Some(scaled) = value.checked_mul(radix) else {
            return None;
        };
        let Some(next) = scaled.checked_add(digit(*b) as u64) else {
            return None;
        };
        value = next;
    }
    Some(value)
}
