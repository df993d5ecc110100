//! The words with which lines begin.
ghost use Rattle.std.specs.Prelude.{◌≡◌};
ghost use Rattle.conv_syntax.specs.Words.{line_word, word_bytes};

/// The word with which a line begins, or Other for any other name.
#[derive(Clone, Copy, Debug)]
pub enum LineWord {
    Elf,
    Stack,
    Heap,
    Service,
    Exit,
    Read,
    Write,
    Brk,
    Errors,
    Link,
    Call,
    Return,
    Entry,
    Whole,
    Pad,
    Args,
    Other,
}

/// Which word a name is.
#[tactic(auto, unfolding(crate::specs::Words::line_word))]
pub fn line_word(name: &[u8]) -> LineWord
    ensures { result ≡ line_word name.now }
{
    if name == b"elf".as_slice() {
        LineWord::Elf
    } else if name == b"stack".as_slice() {
        LineWord::Stack
    } else if name == b"heap".as_slice() {
        LineWord::Heap
    } else if name == b"service".as_slice() {
        LineWord::Service
    } else if name == b"exit".as_slice() {
        LineWord::Exit
    } else if name == b"read".as_slice() {
        LineWord::Read
    } else if name == b"write".as_slice() {
        LineWord::Write
    } else if name == b"brk".as_slice() {
        LineWord::Brk
    } else if name == b"errors".as_slice() {
        LineWord::Errors
    } else if name == b"link".as_slice() {
        LineWord::Link
    } else if name == b"call".as_slice() {
        LineWord::Call
    } else if name == b"return".as_slice() {
        LineWord::Return
    } else if name == b"entry".as_slice() {
        LineWord::Entry
    } else if name == b"whole".as_slice() {
        LineWord::Whole
    } else if name == b"pad".as_slice() {
        LineWord::Pad
    } else if name == b"args".as_slice() {
        LineWord::Args
    } else {
        LineWord::Other
    }
}

/// The letters of a word.
pub fn word_bytes(word: LineWord) -> &'static [u8]
    ensures { result.now ≡ word_bytes word }
{
    match word {
        LineWord::Elf => b"elf",
        LineWord::Stack => b"stack",
        LineWord::Heap => b"heap",
        LineWord::Service => b"service",
        LineWord::Exit => b"exit",
        LineWord::Read => b"read",
        LineWord::Write => b"write",
        LineWord::Brk => b"brk",
        LineWord::Errors => b"errors",
        LineWord::Link => b"link",
        LineWord::Call => b"call",
        LineWord::Return => b"return",
        LineWord::Entry => b"entry",
        LineWord::Whole => b"whole",
        LineWord::Pad => b"pad",
        LineWord::Args => b"args",
        LineWord::Other => b"",
    }
}
