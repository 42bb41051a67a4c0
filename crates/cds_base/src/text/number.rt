//! Reading of numbers in digits.

ghost use Rattle.std.specs.Prelude.{◌≡◌, ◌≤◌, ◌^◌};
ghost use Rattle.cds_base.specs.Number.{number_in_below, number_below, plain_below, has_leading_zero};

/// Returns the value of a run of ASCII digits; leading zeros are accepted. `None` comes exactly if there is no byte, if a byte is
/// no digit, or if the value is above `u32::MAX`.
pub fn read_u32(digits: &[u8]) -> Option<u32>
    ensures { result ≡ number_below (2 ^ 32) digits.now }
{
    match read_digits(10, digits) {
        Some(value) if value <= u64::from(u32::MAX) => Some(value as u32),
        _ => None,
    }
}

/// Returns the value of a run of ASCII digits; leading zeros are accepted. `None` comes exactly if there is no byte, if a byte is
/// no digit, or if the value is above `u64::MAX`.
pub fn read_u64(digits: &[u8]) -> Option<u64>
    ensures { result ≡ number_below (2 ^ 64) digits.now }
{
    read_digits(10, digits)
}

/// Returns the value of a number in plain decimal: ASCII digits without a sign or a leading zero, below 2^64.
pub fn read_plain(digits: &[u8]) -> Option<u64>
    ensures { result ≡ plain_below (2 ^ 64) digits.now }
{
    if begins_with_zero(digits) {
        None
    } else {
        read_digits(10, digits)
    }
}

fn begins_with_zero(digits: &[u8]) -> bool
    ensures { result ≡ has_leading_zero digits.now }
{
    digits.len() > 1 && digits[0] == b'0'
}

/// Returns the value of a run of ASCII digits to a base, below 2^64; leading zeros are accepted. Letters may be of either case.
pub fn read_digits(base: u32, digits: &[u8]) -> Option<u64>
    requires low { 2 ≤ base }
    requires high { base ≤ 36 }
    ensures { result ≡ number_in_below base (2 ^ 64) digits.now }
{
    if digits.is_empty() {
        return None;
    }
    let mut value: u64 = 0;
    for byte in digits {
        let digit = char::from(*byte).to_digit(base)?;
        value = value
            .checked_mul(u64::from(base))?
            .checked_add(u64::from(digit))?;
    }
    Some(value)
}
