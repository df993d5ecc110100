//! Numbers in tokens and in names.
ghost use Rattle.std.specs.Prelude.{◌≡◌, ◌^◌, true};
ghost use Rattle.std.specs.Str.{all_ascii_digits};
ghost use Rattle.std.specs.Str.Parse.{digits_value};
ghost use Rattle.c_scan.specs.Names.{hex_address, decimal_number, when_below, hex_digit_value, hex_number};

use c_text::hex_of;
use itoa::Buffer;

/// The number of the digits, where it is below 2^64.
pub fn value_of(digits: &[u8]) -> Option<u64>
    requires { all_ascii_digits digits.now ≡ true }
    ensures { result ≡ when_below (2 ^ 64) (digits_value 10 digits.now) }
{
    let mut value: u64 = 0;
    for digit in digits {
        let tens = value.checked_mul(10)?;
        value = tens.checked_add((*digit - b'0') as u64)?;
    }
    Some(value)
}

fn are_digits(bytes: &[u8]) -> bool
    ensures { result ≡ all_ascii_digits bytes.now }
{
    bytes.iter().all(|byte| byte.is_ascii_digit())
}

/// The number that the digits spell without a zero in front, where it is below 2^64.
pub fn number_of(digits: &[u8]) -> Option<u64>
    ensures { result ≡ decimal_number (2 ^ 64) digits.now }
{
    if !are_digits(digits) {
        return None;
    }
    let value = value_of(digits)?;
    let mut buffer = Buffer::new();
    if buffer.format(value).as_bytes() != digits {
        return None;
    }
    Some(value)
}

/// The same below a bound.
pub fn number_below(digits: &[u8], bound: u64) -> Option<u64>
    ensures { result ≡ decimal_number bound digits.now }
{
    let value = number_of(digits)?;
    if value < bound { Some(value) } else { None }
}

/// The value of an upper-case hexadecimal digit; of any other byte some number.
fn hex_digit_value(byte: u8) -> u8
    ensures { result ≡ hex_digit_value byte }
{
    if byte < 58 {
        byte.saturating_sub(48)
    } else {
        byte - 55
    }
}

/// The number of hexadecimal digits, where it is below 2^32.
fn hex_value(digits: &[u8]) -> Option<u32>
    ensures { result ≡ when_below (2 ^ 32) (hex_number 0 digits.now) }
{
    let mut value: u64 = 0;
    for digit in digits {
        value = value * 16 + u64::from(hex_digit_value(*digit));
        if value >= 1 << 32 {
            return None;
        }
    }
    Some(value as u32)
}

/// The address that eight upper-case hexadecimal digits spell.
pub fn hex_address(digits: &[u8]) -> Option<u32>
    ensures { result ≡ hex_address digits.now }
{
    let value = hex_value(digits)?;
    if hex_of(value).as_slice() != digits {
        return None;
    }
    Some(value)
}
