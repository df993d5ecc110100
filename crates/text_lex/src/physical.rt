ghost use Rattle.std.specs.Prelude.{◌≡◌, ◌<◌, ◌≤◌, ◌∷◌, ◌==◌, not, length, IfSome};
ghost use Rattle.std.specs.List.{list_all, prefix_len};
ghost use Rattle.std.specs.Option.{option_map};
ghost use Rattle.text_lex.specs.Bytes.{is_blank, is_plain};
ghost use Rattle.text_lex.specs.Lines.{begins_with, physical_lines, uncommented};
ghost use Rattle.text_lex.specs.Splits.{without_return, lines_behind};

use super::bytes::{is_blank, is_plain};

/// A physical line without its end, and what is behind the end, where it has one.
#[derive(Clone, Copy, Debug)]
pub struct Split<'a> {
    pub line: &'a [u8],
    pub behind: Option<&'a [u8]>,
}

/// How many bytes come before the first of this kind.
fn len_before(bytes: &[u8], end: u8) -> usize
    ensures within { result ≤ length bytes.now }
    ensures value { result ≡ prefix_len (λ b. not (b == end)) bytes.now }
{
    let mut len = 0;
    while len < bytes.len() && bytes[len] != end {
        len += 1;
    }
    len
}

/// A line feed's line without the carriage return just before it.
fn without_return(line: &[u8]) -> &[u8]
    ensures { result.now ≡ without_return line.now }
{
    let len = line.len();
    if len > 0 && line[len - 1] == b'\r' {
        let (front, _) = line.split_at(len - 1);
        return front;
    }
    line
}

/// The first physical line.
pub fn split_line(text: &[u8]) -> Split<'_>
    ensures lines { physical_lines text.now ≡ result.line.now ∷ lines_behind (option_map (λ behind. behind.now) result.behind) }
    ensures shorter { IfSome result.behind (λ behind. length behind.now < length text.now) }
{
    let len = len_before(text, b'\n');
    if len == text.len() {
        return Split {
            line: text,
            behind: None,
        };
    }
    let (line, end) = text.split_at(len);
    let (_, behind) = end.split_at(1);
    Split {
        line: without_return(line),
        behind: Some(behind),
    }
}

/// What stands before a comment.
pub fn uncommented(line: &[u8]) -> &[u8]
    ensures { result.now ≡ uncommented line.now }
{
    let (bytes, _) = line.split_at(len_before(line, b'#'));
    bytes
}

pub fn all_blank(bytes: &[u8]) -> bool
    ensures { result ≡ list_all is_blank bytes.now }
{
    bytes.iter().all(|b| is_blank(*b))
}

pub fn all_plain(bytes: &[u8]) -> bool
    ensures { result ≡ list_all is_plain bytes.now }
{
    bytes.iter().all(|b| is_plain(*b))
}

pub fn begins_blank(bytes: &[u8]) -> bool
    ensures { result ≡ begins_with is_blank bytes.now }
{
    match bytes.first() {
        Some(b) => is_blank(*b),
        None => false,
    }
}
