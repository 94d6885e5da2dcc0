//! Numbers as text: canonical decimals.

ghost use Rattle.std.specs.Prelude.{◌≡◌, ℕ, ◌+◌, ◌*◌, ◌^◌, ◌<◌, ◌≤◌, ◌↔◌, ◌++◌, true, Some, None, IfSome, OnOk, OnErr, decimal};
ghost use Rattle.at_base.specs.Prelude.{digit_value, is_ascii_digit};
ghost use Rattle.at_base.specs.Numbers.{begins_canonical, number_of};

use std::alloc::AllocError;

/// Whether no sign and no leading zero stands first: such texts are canonical where they are digits alone.
fn begins_canonically(text: &[u8]) -> bool
    ensures { result ≡ begins_canonical text.now }
{
    text.len() == 1 || (!text.is_empty() && text[0] > b'0')
}

/// The number with one more digit at its end, if that fits 64 bits.
fn with_digit(number: u64, digit: u8) -> Option<u64>
    requires { is_ascii_digit digit ≡ true }
    ensures fits { IfSome result (λ n. n ≡ number * 10 + digit_value digit) }
    ensures long { result ≡ None → 2 ^ 64 ≤ number * 10 + digit_value digit }
{
    number.checked_mul(10)?.checked_add(u64::from(digit - b'0'))
}

/// The number that the text is, if it is one.
fn number_in(text: &[u8]) -> Option<u64>
    ensures { result ≡ number_of text.now }
{
    if !begins_canonically(text) {
        return None;
    }
    let mut number = 0;
    for byte in text.iter() {
        if !byte.is_ascii_digit() {
            return None;
        }
        let Some(longer) = with_digit(number, *byte) else {
            return None;
        };
        number = longer;
    }
    Some(number)
}

/// Reads a number. Signs, leading zeros, spaces and an empty text are refused, and so is a number over 64 bits.
pub fn parse_number(text: &[u8]) -> Option<u64>
    ensures value { result ≡ number_of text.now }
    ensures exact { (n : ℕ) → n < 2 ^ 64 → (result ≡ Some n) ↔ (text.now ≡ decimal n) }
{
    number_in(text)
}

/// Appends a number, as its canonical decimal.
pub fn push_number(out: &mut Vec<u8>, n: u64) -> Result<(), AllocError>
    ensures ok { OnOk result (out.new.items ≡ out.old.items ++ decimal n) }
    ensures err { OnErr result (out.new.items ≡ out.old.items) }
{
    out.extend_from_slice(itoa::Buffer::new().format(n).as_bytes())
}
