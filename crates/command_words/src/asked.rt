//! The commands, each with its words.
use edge_io::Word;

/// The machine of a sample.
#[derive(Clone, Copy, Debug, PartialEq, Eq)]
pub enum Kind {
    /// SPARC V8, by the word `sparc`.
    Sparc,
    /// The 80386, by the word `i386`.
    I386,
}

/// The files of three descriptions.
#[derive(Clone, Copy)]
pub struct TextWords<'a> {
    /// How instructions are encoded.
    pub sled: &'a Word,
    /// What instructions do.
    pub ssl: &'a Word,
    /// Where programs live, and how they call services.
    pub conv: &'a Word,
}

/// The files of three descriptions and an executable.
#[derive(Clone, Copy)]
pub struct FileWords<'a> {
    /// How instructions are encoded.
    pub sled: &'a Word,
    /// What instructions do.
    pub ssl: &'a Word,
    /// Where programs live, and how they call services.
    pub conv: &'a Word,
    /// The executable.
    pub exe: &'a Word,
}

/// A command and its words. A number of steps is one of at most 19 digits.
#[derive(Clone, Copy)]
pub enum Command<'a> {
    /// `translate SLED SSL CONV EXE`
    Translate(FileWords<'a>),
    /// `run SLED SSL CONV EXE N`
    Run(FileWords<'a>, u64),
    /// `runc PROG N`
    RunC(&'a Word, u64),
    /// `both SLED SSL CONV EXE N`
    Both(FileWords<'a>, u64),
    /// `versus SLED SSL CONV EXE PROG N`
    Versus(FileWords<'a>, &'a Word, u64),
    /// `list SLED SSL CONV EXE`
    ListAll(FileWords<'a>),
    /// `check SLED SSL CONV`
    Check(TextWords<'a>),
    /// `sample KIND NUMBER COUNT`, with COUNT from 1 to 20,000
    Sample(Kind, u64, u32),
    /// `text NAME`
    Text(&'a Word),
}
