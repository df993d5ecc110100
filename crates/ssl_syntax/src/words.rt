//! The reserved words of expressions and acts, and the words with which lines begin.
ghost use Rattle.std.specs.Prelude.{◌≡◌};
ghost use Rattle.ssl_syntax.specs.Words.{act_word, is_free, line_word, word_of};

/// A reserved word, or Plain for any other name.
#[derive(Clone, Copy, Debug)]
pub enum Word {
    /// `m8` to `m64`, by its bits.
    Load(u8),
    Zext,
    Sext,
    Bits,
    If,
    Jump,
    Annul,
    Trap,
    Service,
    WinSave,
    WinRestore,
    /// `none`.
    Nothing,
    Plain,
}

/// Which reserved word a name is.
#[tactic(auto, unfolding(crate::specs::Words::word_of))]
pub fn word_of(name: &[u8]) -> Word
    ensures { result ≡ word_of name.now }
{
    if name == b"m8".as_slice() {
        Word::Load(8)
    } else if name == b"m16".as_slice() {
        Word::Load(16)
    } else if name == b"m32".as_slice() {
        Word::Load(32)
    } else if name == b"m64".as_slice() {
        Word::Load(64)
    } else if name == b"zx".as_slice() {
        Word::Zext
    } else if name == b"sx".as_slice() {
        Word::Sext
    } else if name == b"bits".as_slice() {
        Word::Bits
    } else if name == b"if".as_slice() {
        Word::If
    } else {
        act_word(name)
    }
}

/// Which word of an act a name is, where it is none of an expression.
#[tactic(auto, unfolding(crate::specs::Words::act_word))]
fn act_word(name: &[u8]) -> Word
    ensures { result ≡ act_word name.now }
{
    if name == b"jump".as_slice() {
        Word::Jump
    } else if name == b"annul".as_slice() {
        Word::Annul
    } else if name == b"trap".as_slice() {
        Word::Trap
    } else if name == b"service".as_slice() {
        Word::Service
    } else if name == b"wsave".as_slice() {
        Word::WinSave
    } else if name == b"wrestore".as_slice() {
        Word::WinRestore
    } else if name == b"none".as_slice() {
        Word::Nothing
    } else {
        Word::Plain
    }
}

/// The name is no reserved word.
#[tactic(auto, unfolding(crate::specs::Words::is_free))]
pub fn is_free(name: &[u8]) -> bool
    ensures { result ≡ is_free name.now }
{
    matches!(word_of(name), Word::Plain)
}

/// The word with which a line begins, or Other for any other name.
#[derive(Clone, Copy, Debug)]
pub enum LineWord {
    Align,
    Delay,
    Cell,
    Cells,
    View,
    Zero,
    Windows,
    Function,
    Operand,
    Instruction,
    Other,
}

/// Which word of lines a name is.
#[tactic(auto, unfolding(crate::specs::Words::line_word))]
pub fn line_word(name: &[u8]) -> LineWord
    ensures { result ≡ line_word name.now }
{
    if name == b"align".as_slice() {
        LineWord::Align
    } else if name == b"delay".as_slice() {
        LineWord::Delay
    } else if name == b"cell".as_slice() {
        LineWord::Cell
    } else if name == b"cells".as_slice() {
        LineWord::Cells
    } else if name == b"view".as_slice() {
        LineWord::View
    } else if name == b"zero".as_slice() {
        LineWord::Zero
    } else if name == b"windows".as_slice() {
        LineWord::Windows
    } else if name == b"function".as_slice() {
        LineWord::Function
    } else if name == b"operand".as_slice() {
        LineWord::Operand
    } else if name == b"instruction".as_slice() {
        LineWord::Instruction
    } else {
        LineWord::Other
    }
}
