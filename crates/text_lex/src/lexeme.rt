ghost use Rattle.std.specs.Prelude.{◌≡◌, ◌+◌, ◌-◌, ◌<◌, ◌≤◌, ℕ, List, length, take, drop, slice_get, slice_index, true, false};
ghost use Rattle.std.specs.Char.{is_digit};
ghost use Rattle.std.specs.List.{list_all, prefix_len};
ghost use Rattle.std.specs.Str.Parse.{digits_value};
ghost use Rattle.text_lex.specs.Bytes.{is_blank, is_letter, is_decimal, is_name_byte, any_next};
ghost use Rattle.text_lex.specs.Tokens.{is_hexadecimal_number, is_joined, number_token, sign_at, sign_of};
ghost use Rattle.text_lex.specs.Lexemes.{value_below, token_as, IsFront};

use super::bytes::{is_letter, is_name_byte};
use super::signs::sign_index;

/// How many bytes the longest sign has.
const LONGEST_SIGN: usize = 5;

/// What a word is, before its letters are copied.
#[derive(Clone, Copy, Debug)]
pub enum Kind {
    Name,
    Number(u64),
    Sign(u8),
    Bad,
}

/// The token at the front of a text, and how many bytes it has.
#[derive(Clone, Copy, Debug)]
pub struct Lexeme {
    pub kind: Kind,
    pub len: usize,
}

fn name_len(text: &[u8]) -> usize
    ensures { result ≡ prefix_len is_name_byte text.now }
{
    let mut len = 0;
    while len < text.len() && is_name_byte(text[len]) {
        len += 1;
    }
    len
}

fn digits_len(text: &[u8], radix: u32) -> usize
    requires low { 2 ≤ radix }
    requires high { radix ≤ 36 }
    ensures { result ≡ prefix_len (λ b. is_digit b radix) text.now }
{
    let mut len = 0;
    while len < text.len() && char::from(text[len]).is_digit(radix) {
        len += 1;
    }
    len
}

/// The number that digits write, where it is below 2^64.
fn value_of(digits: &[u8], radix: u32) -> Option<u64>
    requires low { 2 ≤ radix }
    requires high { radix ≤ 36 }
    requires digits { list_all (λ b. is_digit b radix) digits.now ≡ true }
    ensures { result ≡ value_below (digits_value radix digits.now) }
{
    let mut value: u64 = 0;
    for byte in digits {
        let digit = char::from(*byte).to_digit(radix)?;
        let shifted = value.checked_mul(u64::from(radix))?;
        value = shifted.checked_add(u64::from(digit))?;
    }
    Some(value)
}

fn byte_at(text: &[u8], at: usize) -> Option<u8>
    ensures { result ≡ slice_get text.now at }
{
    text.get(at).copied()
}

fn is_letter_next(next: Option<u8>) -> bool
    ensures { result ≡ any_next is_letter next }
{
    match next {
        Some(b) => is_letter(b),
        None => false,
    }
}

fn is_name_byte_next(next: Option<u8>) -> bool
    ensures { result ≡ any_next is_name_byte next }
{
    match next {
        Some(b) => is_name_byte(b),
        None => false,
    }
}

fn number_kind(value: Option<u64>, next: Option<u8>) -> Kind
    ensures { (n : ℕ) → (word : List ℕ) → value ≡ value_below n → token_as result word ≡ number_token n next }
{
    match value {
        Some(value) if !is_letter_next(next) => Kind::Number(value),
        _ => Kind::Bad,
    }
}

/// A number whose digits begin behind `skip` bytes.
fn numeral(text: &[u8], skip: usize, radix: u32) -> Lexeme
    requires low { 2 ≤ radix }
    requires high { radix ≤ 36 }
    requires within { skip ≤ length text.now }
    ensures len { result.len ≡ skip + prefix_len (λ b. is_digit b radix) (drop skip text.now) }
    ensures kind { (word : List ℕ) → token_as result.kind word ≡ number_token (digits_value radix (take (result.len - skip) (drop skip text.now))) (slice_get text.now result.len) }
{
    let (_, behind) = text.split_at(skip);
    let (digits, _) = behind.split_at(digits_len(behind, radix));
    let len = skip + digits.len();
    Lexeme {
        kind: number_kind(value_of(digits, radix), byte_at(text, len)),
        len,
    }
}

fn begins_hexadecimal(text: &[u8]) -> bool
    ensures { result ≡ is_hexadecimal_number (take 3 text.now) }
{
    match text {
        [b'0', b'x', digit, ..] => char::from(*digit).is_digit(16),
        _ => false,
    }
}

/// `%pc` and `%next` are no signs before a byte of a name.
fn is_joined(word: &[u8], next: Option<u8>) -> bool
    requires { 0 < length word.now }
    ensures { result ≡ is_joined word.now next }
{
    word[0] == b'%' && is_name_byte_next(next)
}

/// The sign that the first bytes are.
fn sign_at(text: &[u8], len: usize) -> Option<u8>
    requires some { 0 < len }
    requires within { len ≤ length text.now }
    ensures { sign_at result ≡ sign_of (take len text.now) (slice_get text.now len) }
{
    let (word, _) = text.split_at(len);
    if is_joined(word, byte_at(text, len)) {
        return None;
    }
    sign_index(word)
}

fn number(text: &[u8]) -> Lexeme
    requires letter { is_letter (slice_index text.now 0) ≡ false }
    requires digit { is_decimal (slice_index text.now 0) ≡ true }
    requires some { 0 < length text.now }
    ensures { IsFront result text.now }
{
    if begins_hexadecimal(text) {
        numeral(text, 2, 16)
    } else {
        numeral(text, 0, 10)
    }
}

/// A sign, or a byte that begins no token.
fn sign(text: &[u8]) -> Lexeme
    requires letter { is_letter (slice_index text.now 0) ≡ false }
    requires digit { is_decimal (slice_index text.now 0) ≡ false }
    requires blank { is_blank (slice_index text.now 0) ≡ false }
    requires some { 0 < length text.now }
    ensures { IsFront result text.now }
{
    let mut len = text.len().min(LONGEST_SIGN);
    while len > 1 {
        if let Some(index) = sign_at(text, len) {
            return Lexeme {
                kind: Kind::Sign(index),
                len,
            };
        }
        len -= 1;
    }
    match sign_at(text, 1) {
        Some(index) => Lexeme {
            kind: Kind::Sign(index),
            len: 1,
        },
        None => Lexeme {
            kind: Kind::Bad,
            len: 1,
        },
    }
}

/// The longest token at the front.
pub fn front(text: &[u8]) -> Lexeme
    requires some { 0 < length text.now }
    requires blank { is_blank (slice_index text.now 0) ≡ false }
    ensures { IsFront result text.now }
{
    if is_letter(text[0]) {
        return Lexeme {
            kind: Kind::Name,
            len: name_len(text),
        };
    }
    if char::from(text[0]).is_digit(10) {
        return number(text);
    }
    sign(text)
}
