//! The longest token at the front of some bytes.
ghost use Rattle.std.specs.Prelude.{◌≡◌, ◌<◌, ◌≤◌, IfSome, Some, false, length, slice_index, take, true};
ghost use Rattle.std.specs.Char.{is_ascii_digit};
ghost use Rattle.scan.specs.Scan.{front};
ghost use Rattle.c_text.specs.Tokens.{digit_count, is_letter, sign, token_of};
ghost use Rattle.c_scan.specs.Found.{HasDigits, measured};

use super::bytes::{digit_len, is_letter, is_pair, is_point, word_len};

/// The kinds of tokens: names, numbers without a suffix and with it, and signs.
#[derive(Clone, Copy, Debug, PartialEq, Eq)]
pub enum Kind {
    Name,
    Plain,
    Long,
    Sign,
}

/// A token: its kind, its bytes (of a number its digits alone), and how many bytes it has in all.
#[derive(Clone, Copy, Debug)]
pub struct Found<'a> {
    pub kind: Kind,
    pub bytes: &'a [u8],
    pub len: usize,
}

/// The number that begins with the first byte, a digit.
fn number(bytes: &[u8]) -> Found<'_>
    requires first { 0 < digit_count bytes.now }
    requires letter { is_letter (slice_index bytes.now 0) ≡ false }
    ensures longest { measured (Some result) ≡ front token_of bytes.now }
    ensures digits { HasDigits result }
{
    let len = digit_len(bytes);
    let (digits, behind) = bytes.split_at(len);
    if behind.starts_with(b"ull") {
        return Found {
            kind: Kind::Long,
            bytes: digits,
            len: len + 3,
        };
    }
    Found {
        kind: Kind::Plain,
        bytes: digits,
        len,
    }
}

/// The sign that begins with the first byte, where one does.
fn sign(bytes: &[u8]) -> Option<Found<'_>>
    requires first { 0 < length bytes.now }
    requires letter { is_letter (slice_index bytes.now 0) ≡ false }
    requires digit { is_ascii_digit (slice_index bytes.now 0) ≡ false }
    ensures longest { measured result ≡ front token_of bytes.now }
    ensures digits { IfSome result HasDigits }
{
    if bytes.len() >= 2 && is_pair(bytes[0], bytes[1]) {
        return Some(found_sign(bytes, 2));
    }
    if is_point(bytes[0]) {
        return Some(found_sign(bytes, 1));
    }
    None
}

/// The sign of so many bytes.
fn found_sign(bytes: &[u8], len: usize) -> Found<'_>
    requires { len ≤ length bytes.now }
    ensures found { measured (Some result) ≡ Some (len, sign (take len bytes.now)) }
    ensures digits { HasDigits result }
{
    let (bytes, _) = bytes.split_at(len);
    Found {
        kind: Kind::Sign,
        bytes,
        len,
    }
}

/// The name at the front.
fn name(bytes: &[u8]) -> Found<'_>
    requires first { 0 < length bytes.now }
    requires letter { is_letter (slice_index bytes.now 0) ≡ true }
    ensures longest { measured (Some result) ≡ front token_of bytes.now }
    ensures digits { HasDigits result }
{
    let (_, behind) = bytes.split_at(1);
    let len = 1 + word_len(behind);
    let (bytes, _) = bytes.split_at(len);
    Found {
        kind: Kind::Name,
        bytes,
        len,
    }
}

/// The longest token that some bytes begin with.
#[tactic(auto, using(crate::proofs::Longest::end_in_front, crate::proofs::Longest::digits_in_front))]
pub fn front(bytes: &[u8]) -> Option<Found<'_>>
    ensures longest { measured result ≡ front token_of bytes.now }
    ensures digits { IfSome result HasDigits }
{
    if bytes.is_empty() {
        return None;
    }
    if is_letter(bytes[0]) {
        return Some(name(bytes));
    }
    if bytes[0].is_ascii_digit() {
        return Some(number(bytes));
    }
    sign(bytes)
}
