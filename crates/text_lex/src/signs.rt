ghost use Rattle.std.specs.Prelude.{◌≡◌, ◌<◌, [], slice_index_or};
ghost use Rattle.text_lex.specs.Tokens.{signs, sign_index};

/// The bytes of a sign, by its place.
pub fn sign_bytes(index: u8) -> &'static [u8]
    requires { index < 32 }
    ensures { result.now ≡ slice_index_or signs index [] }
{
    match index {
        0 => b"...",
        1 => b"<=!",
        2 => b">>!",
        3 => b"//!",
        4 => b"%next",
        5 => b"%pc",
        6 => b":=",
        7 => b"!=",
        8 => b"=>",
        9 => b"<=",
        10 => b"<!",
        11 => b"<<",
        12 => b">>",
        13 => b"//",
        14 => b"/!",
        15 => b"(",
        16 => b")",
        17 => b"[",
        18 => b"]",
        19 => b",",
        20 => b";",
        21 => b":",
        22 => b"=",
        23 => b"&",
        24 => b"|",
        25 => b"+",
        26 => b"-",
        27 => b"*",
        28 => b"/",
        29 => b"<",
        30 => b"^",
        _ => b"~",
    }
}

/// The place of a word among the signs.
pub fn sign_index(word: &[u8]) -> Option<u8>
    ensures { result ≡ sign_index word.now }
{
    for index in 0..32 {
        if sign_bytes(index) == word {
            return Some(index);
        }
    }
    None
}
