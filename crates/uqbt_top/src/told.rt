//! How faults and stops are told: a word, and the numbers behind it.
ghost use Rattle.std.specs.Prelude.{◌≡◌, codes};
ghost use Rattle.uqbt_top.specs.Told.{conv_words, desc_words, elf_words, exe_words, lexical_words, said_at, said_widths, said_with, sled_words, ssl_words, stop_words, told_words};

use crate::ExeFault;
use conventions::ConvFault;
use descriptions::DescFault;
use elf32::ElfFault;
use rtl_core::Stop;
use sled_rules::SledFault;
use ssl_rules::SslFault;
use text_lex::LexFault;

/// The numbers behind a word.
#[derive(Clone, Copy, Debug)]
pub enum Numbers {
    Nothing,
    One(u128),
    /// A line, and two widths.
    Three(u64, u64, u64),
    Address(u32),
}

/// A word, and numbers behind it.
#[derive(Clone, Copy, Debug)]
pub struct Told {
    pub word: &'static [u8],
    pub numbers: Numbers,
}

fn alone(word: &'static [u8]) -> Told
    ensures { told_words result ≡ word.now }
{
    Told {
        word,
        numbers: Numbers::Nothing,
    }
}

fn with(word: &'static [u8], number: u64) -> Told
    ensures { told_words result ≡ said_with word.now number }
{
    Told {
        word,
        numbers: Numbers::One(u128::from(number)),
    }
}

fn at(word: &'static [u8], address: u32) -> Told
    ensures { told_words result ≡ said_at word.now address }
{
    Told {
        word,
        numbers: Numbers::Address(address),
    }
}

fn widths(line: u32, left: u8, right: u8) -> Told
    ensures { told_words result ≡ said_widths (codes "width-differs") line left right }
{
    Told {
        word: b"width-differs",
        numbers: Numbers::Three(u64::from(line), u64::from(left), u64::from(right)),
    }
}

/// How a place is told where two outputs differ.
pub fn difference(at: u128) -> Told
    ensures { told_words result ≡ said_with (codes "differs") at }
{
    Told {
        word: b"differs",
        numbers: Numbers::One(at),
    }
}

fn lexical(fault: &LexFault) -> Told
    ensures { told_words result ≡ lexical_words fault.now }
{
    match fault {
        LexFault::BadByte { line } => with(b"bad-byte", u64::from(*line)),
        LexFault::LongLine { line } => with(b"long-line", u64::from(*line)),
        LexFault::ManyLines => alone(b"many-lines"),
        LexFault::NoMemory => alone(b"no-memory"),
    }
}

fn sled(fault: &SledFault) -> Told
    ensures { told_words result ≡ sled_words fault.now }
{
    match fault {
        SledFault::Unknown { line } => with(b"unknown", u64::from(*line)),
        SledFault::Twice { line } => with(b"twice", u64::from(*line)),
        SledFault::FieldRange { line } => with(b"field-range", u64::from(*line)),
        SledFault::TokenMixed { line } => with(b"token-mixed", u64::from(*line)),
        SledFault::TypeOrder { line } => with(b"type-order", u64::from(*line)),
        SledFault::TooManyOperands { line } => with(b"too-many-operands", u64::from(*line)),
        SledFault::TooMany { line } => with(b"too-many", u64::from(*line)),
        SledFault::NoMemory => alone(b"no-memory"),
    }
}

fn ssl(fault: &SslFault) -> Told
    ensures { told_words result ≡ ssl_words fault.now }
{
    match fault {
        SslFault::Unknown { line } => with(b"unknown", u64::from(*line)),
        SslFault::Twice { line } => with(b"twice", u64::from(*line)),
        SslFault::TooMany { line } => with(b"too-many", u64::from(*line)),
        SslFault::OperandCount { line } => with(b"operand-count", u64::from(*line)),
        SslFault::IndexRange { line } => with(b"index-range", u64::from(*line)),
        SslFault::NotPlace { line } => with(b"not-place", u64::from(*line)),
        SslFault::WidthDiffers { line, left, right } => widths(*line, *left, *right),
        SslFault::TwoJumps { line } => with(b"two-jumps", u64::from(*line)),
        SslFault::TooWide { line } => with(b"too-wide", u64::from(*line)),
        SslFault::Missing { constructor } => with(b"missing", u64::from(*constructor)),
        SslFault::NoMemory => alone(b"no-memory"),
    }
}

fn conv(fault: &ConvFault) -> Told
    ensures { told_words result ≡ conv_words fault.now }
{
    match fault {
        ConvFault::Unknown { line } => with(b"unknown", u64::from(*line)),
        ConvFault::Twice { line } => with(b"twice", u64::from(*line)),
        ConvFault::FieldRange { line } => with(b"field-range", u64::from(*line)),
        ConvFault::WidthDiffers { line, left, right } => widths(*line, *left, *right),
        ConvFault::Missing { kind } => with(b"missing", u64::from(*kind)),
        ConvFault::NoMemory => alone(b"no-memory"),
    }
}

/// How a fault of a description is told.
pub fn description(fault: &DescFault) -> Told
    ensures { told_words result ≡ desc_words fault.now }
{
    match fault {
        DescFault::Lex(fault) => lexical(fault),
        DescFault::BadLine { line } => with(b"bad-line", u64::from(*line)),
        DescFault::Sled(fault) => sled(fault),
        DescFault::Ssl(fault) => ssl(fault),
        DescFault::Conv(fault) => conv(fault),
    }
}

fn elf(fault: &ElfFault) -> Told
    ensures { told_words result ≡ elf_words fault.now }
{
    match fault {
        ElfFault::Short => alone(b"short"),
        ElfFault::Magic => alone(b"magic"),
        ElfFault::Class => alone(b"class"),
        ElfFault::Order => alone(b"order"),
        ElfFault::FileType { found } => with(b"file-type", u64::from(*found)),
        ElfFault::MachineKind { found } => with(b"machine-kind", u64::from(*found)),
        ElfFault::HeadersCut => alone(b"headers-cut"),
        ElfFault::Interp { index } => with(b"interp", u64::from(*index)),
        ElfFault::SegmentCut { index } => with(b"segment-cut", u64::from(*index)),
        ElfFault::SegmentSizes { index } => with(b"segment-sizes", u64::from(*index)),
        ElfFault::SegmentRange { index } => with(b"segment-range", u64::from(*index)),
        ElfFault::SegmentOverlap { index } => with(b"segment-overlap", u64::from(*index)),
        ElfFault::NoLoad => alone(b"no-load"),
        ElfFault::ImageTooLarge { total } => with(b"image-too-large", *total),
        ElfFault::EntryOutside { entry } => at(b"entry-outside", *entry),
        ElfFault::NoMemory => alone(b"no-memory"),
    }
}

/// How a fault of an executable is told.
pub fn executable(fault: &ExeFault) -> Told
    ensures { told_words result ≡ exe_words fault.now }
{
    match fault {
        ExeFault::Elf(fault) => elf(fault),
        ExeFault::AreaOverlap { index } => with(b"area-overlap", u64::from(*index)),
        ExeFault::TooLarge { points } => with(b"too-large", u64::from(*points)),
    }
}

/// How a stop is told.
pub fn stop(stop: &Stop) -> Told
    ensures { told_words result ≡ stop_words stop.now }
{
    match stop {
        Stop::Exit(status) => with(b"exit", u64::from(*status)),
        Stop::Illegal(a) => at(b"illegal", *a),
        Stop::MemoryFault(a) => at(b"memory", *a),
        Stop::Misaligned(a) => at(b"misaligned", *a),
        Stop::Divide(a) => at(b"divide", *a),
        Stop::Trap(number) => with(b"trap", u64::from(*number)),
        Stop::WindowFull => alone(b"window-full"),
        Stop::WindowEmpty => alone(b"window-empty"),
        Stop::Undiscovered(a) => at(b"undiscovered", *a),
        Stop::ReturnMismatch(a) => at(b"return-mismatch", *a),
        Stop::CallDepth => alone(b"call-depth"),
        Stop::Couple(a) => at(b"couple", *a),
        Stop::Undefined(item) => with(b"undefined", u64::from(*item)),
    }
}
