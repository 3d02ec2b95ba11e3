//! Numbers in decimal digits.

ghost use Rattle.std.specs.Prelude.{◌≡◌, ◌+◌, ◌-◌, ◌*◌, ◌^◌, ◌<◌, ◌≤◌, ◌++◌, IsTrue, IfSome, IfNone, OnOk};
ghost use Rattle.std.specs.Prelude.{OnErr, decimal as digits};
ghost use Rattle.std.specs.Option.{SomeIff};
ghost use Rattle.ws_words.specs.Digits.{is_digit, is_number, value_of};

use itoa::Buffer;
use ws_words::{Bytes, NoMemory};

/// Puts a number at the end of a text, in decimal digits with no leading zeros.
pub fn put_decimal(text: &mut Bytes, word: u64) -> Result<(), NoMemory>
    ensures ok { OnOk result (text.new ≡ text.old ++ digits word) }
    ensures err { OnErr result (text.new ≡ text.old) }
{
    let mut buffer = Buffer::new();
    text.extend(buffer.format(word).as_bytes())
}

/// The number that a text of decimal digits stands for, where it is below 2^64. Leading zeros are
/// allowed.
pub fn decimal(text: &[u8]) -> Option<u64>
    ensures some { IfSome result (λ n. IsTrue (is_number text.now) × (value_of text.now ≡ n)) }
    ensures none { IfNone result (IsTrue (is_number text.now) → 2 ^ 64 ≤ value_of text.now) }
{
    if text.is_empty() {
        return None;
    }
    let mut value: u64 = 0;
    for byte in text {
        if !byte.is_ascii_digit() {
            return None;
        }
        value = with_digit(value, *byte)?;
    }
    Some(value)
}

// The number with one digit more at its end.
fn with_digit(value: u64, digit: u8) -> Option<u64>
    requires { IsTrue (is_digit digit) }
    ensures { let more = 10 * value + (digit - 48) in SomeIff result (more < 2 ^ 64) more }
{
    value.checked_mul(10)?.checked_add(u64::from(digit - b'0'))
}
