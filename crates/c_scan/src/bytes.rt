//! Kinds of bytes, and how many of a kind stand in front.
ghost use Rattle.std.specs.Prelude.{◌≡◌, ◌∷◌, []};
ghost use Rattle.std.specs.List.{prefix_len};
ghost use Rattle.c_text.specs.Tokens.{digit_count, is_blank, is_letter, is_sign, is_word};

/// A space, a tab or a line feed.
pub fn is_blank(byte: u8) -> bool
    ensures { result ≡ is_blank byte }
{
    byte == b' ' || byte == b'\t' || byte == b'\n'
}

/// A letter or `_`.
pub fn is_letter(byte: u8) -> bool
    ensures { result ≡ is_letter byte }
{
    byte.is_ascii_alphabetic() || byte == b'_'
}

/// A letter, `_` or a digit.
fn is_word(byte: u8) -> bool
    ensures { result ≡ is_word byte }
{
    is_letter(byte) || byte.is_ascii_digit()
}

/// The length of the front of letters, `_` and digits.
pub fn word_len(bytes: &[u8]) -> usize
    ensures { result ≡ prefix_len is_word bytes.now }
{
    let mut len = 0;
    while len < bytes.len() && is_word(bytes[len]) {
        len += 1;
    }
    len
}

/// The length of the front of digits.
pub fn digit_len(bytes: &[u8]) -> usize
    ensures { result ≡ digit_count bytes.now }
{
    let mut len = 0;
    while len < bytes.len() && bytes[len].is_ascii_digit() {
        len += 1;
    }
    len
}

/// Whether a byte is a sign by itself.
#[tactic(auto, using(crate::proofs::Signs::sign_laws))]
pub fn is_point(byte: u8) -> bool
    ensures { result ≡ is_sign (byte ∷ []) }
{
    match byte {
        b'('
        | b')'
        | b'{'
        | b'}'
        | b'['
        | b']'
        | b';'
        | b','
        | b':'
        | b'?'
        | b'='
        | b'<'
        | b'+'
        | b'-'
        | b'*'
        | b'/'
        | b'%'
        | b'&'
        | b'|'
        | b'^' => true,
        _ => false,
    }
}

/// Whether two bytes are a sign together.
#[tactic(auto, using(crate::proofs::Signs::sign_laws))]
pub fn is_pair(first: u8, second: u8) -> bool
    ensures { result ≡ is_sign (first ∷ second ∷ []) }
{
    match first {
        b'=' | b'!' => second == b'=',
        b'<' => second == b'=' || second == b'<',
        b'>' => second == b'>',
        _ => false,
    }
}
