ghost use Rattle.std.specs.Prelude.{◌≡◌};
ghost use Rattle.text_lex.specs.Bytes.{is_blank, is_plain, is_letter, is_decimal, is_name_byte};

pub fn is_blank(b: u8) -> bool
    ensures { result ≡ is_blank b }
{
    b == b' ' || b == b'\t'
}

pub fn is_plain(b: u8) -> bool
    ensures { result ≡ is_plain b }
{
    b == b'\t' || (b >= 0x20 && b <= 0x7E)
}

pub fn is_letter(b: u8) -> bool
    ensures { result ≡ is_letter b }
{
    b.is_ascii_alphabetic() || b == b'_'
}

pub fn is_name_byte(b: u8) -> bool
    ensures { result ≡ is_name_byte b }
{
    is_letter(b) || char::from(b).is_digit(10)
}
