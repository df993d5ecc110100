//! Numbers, as words.
ghost use Rattle.std.specs.Prelude.{◌≡◌, ◌<◌, ◌≤◌, ◌^◌, length, true};
ghost use Rattle.std.specs.Char.{is_digit};
ghost use Rattle.std.specs.List.{list_all};
ghost use Rattle.std.specs.Str.Parse.{digits_value};
ghost use Rattle.command_words.specs.Numbers.{are_digits, count_of, number_of, steps_of};

/// The number of steps that a word of 1 to 19 decimal digits writes.
pub fn steps_of(word: &[u8]) -> Option<u64>
    ensures { result ≡ steps_of word.now }
{
    if are_digits(word, 19) {
        Some(value_of(word) as u64)
    } else {
        None
    }
}

/// The number below 2^64 that a word of 1 to 20 decimal digits writes.
pub fn number_of(word: &[u8]) -> Option<u64>
    ensures { result ≡ number_of word.now }
{
    if !are_digits(word, 20) {
        return None;
    }
    let number = value_of(word);
    if number <= 18_446_744_073_709_551_615 {
        Some(number as u64)
    } else {
        None
    }
}

/// The count from 1 to 20,000 that a word of 1 to 5 decimal digits writes.
pub fn count_of(word: &[u8]) -> Option<u32>
    ensures { result ≡ count_of word.now }
{
    if !are_digits(word, 5) {
        return None;
    }
    let count = value_of(word);
    if 1 <= count && count <= 20_000 {
        Some(count as u32)
    } else {
        None
    }
}

/// Whether a word is 1 to `most` decimal digits.
fn are_digits(word: &[u8], most: usize) -> bool
    ensures { result ≡ are_digits most word.now }
{
    1 <= word.len() && word.len() <= most && all_digits(word)
}

fn all_digits(word: &[u8]) -> bool
    ensures { result ≡ list_all (λ b. is_digit b 10) word.now }
{
    word.iter().all(|b| char::from(*b).is_digit(10))
}

/// The number that digits write; each number of 20 digits fits.
fn value_of(digits: &[u8]) -> u128
    requires few { length digits.now ≤ 20 }
    requires digits { list_all (λ b. is_digit b 10) digits.now ≡ true }
    ensures value { result ≡ digits_value 10 digits.now }
    ensures below { result < 10 ^ length digits.now }
{
    let mut value: u128 = 0;
    for byte in digits {
        value = value * 10 + u128::from(byte - b'0');
    }
    value
}
