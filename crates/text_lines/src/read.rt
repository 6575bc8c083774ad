//! Reads a number.
#![tactic(auto, using(crate::proofs::Values::value_least, crate::proofs::Values::value_next))]

ghost use Rattle.std.specs.Prelude.{◌≡◌, ◌+◌, ◌-◌, ◌*◌, ◌≤◌, ◌^◌, ◌↔◌, Err, IsTrue, IfOk, IfSome, IsNone};
ghost use Rattle.std.specs.Str.{all_ascii_digits};
ghost use Rattle.text_lines.specs.Decimals.{value_of, IsDecimal};

/// Why a text was not read as a number.
#[derive(Clone, Copy, Debug, PartialEq, Eq)]
pub enum DecimalFault {
    /// It is no decimal: it has no digit, another byte, or a zero before another digit.
    NotDecimal,
    /// It is a decimal of 2^64 or more.
    TooLarge,
}

/// Reads a decimal number without sign or leading zero.
pub fn read_decimal(bytes: &[u8]) -> Result<u64, DecimalFault>
    ensures number { IfOk result (λ number. IsDecimal bytes.now × (number ≡ value_of bytes.now)) }
    ensures refused { (result ≡ Err DecimalFault.NotDecimal) ↔ (IsDecimal bytes.now → ⊥) }
    ensures large { (result ≡ Err DecimalFault.TooLarge)
        ↔ (IsDecimal bytes.now × (2 ^ 64 ≤ value_of bytes.now)) }
{
    if !is_decimal(bytes) {
        return Err(DecimalFault::NotDecimal);
    }
    match value(bytes) {
        Some(number) => Ok(number),
        None => Err(DecimalFault::TooLarge),
    }
}

fn is_decimal(bytes: &[u8]) -> bool
    ensures { IsTrue result ↔ IsDecimal bytes.now }
{
    match bytes {
        [] => false,
        [b'0', _, ..] => false,
        _ => all_digits(bytes),
    }
}

fn all_digits(bytes: &[u8]) -> bool
    ensures { result ≡ all_ascii_digits bytes.now }
{
    for byte in bytes {
        if *byte < b'0' || b'9' < *byte {
            return false;
        }
    }
    true
}

// The number that digits write; none where it is 2^64 or more.
fn value(digits: &[u8]) -> Option<u64>
    ensures some { IfSome result (λ number. number ≡ value_of digits.now) }
    ensures none { IsNone result → 2 ^ 64 ≤ value_of digits.now }
{
    let mut number = 0;
    for digit in digits {
        match with_digit(number, *digit) {
            Some(longer) => number = longer,
            None => return None,
        }
    }
    Some(number)
}

fn with_digit(number: u64, digit: u8) -> Option<u64>
    ensures some { IfSome result (λ longer. longer ≡ 10 * number + (digit - 48)) }
    ensures none { IsNone result → 2 ^ 64 ≤ 10 * number + (digit - 48) }
{
    number
        .checked_mul(10)?
        .checked_add(digit.saturating_sub(b'0') as u64)
}
