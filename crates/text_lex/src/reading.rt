ghost use Rattle.std.specs.Prelude.{◌≡◌, ◌<◌, ◌≤◌, min};

use super::line_tokens::push_tokens;
use super::physical::{all_blank, begins_blank};
use super::token::{LexFault, LogicalLine};
use sqlite_items::Items;
use std::alloc::Global;

/// One more than the most bytes that a logical line may have.
const TOO_LONG: usize = 65536;

/// The logical lines of the physical lines that were read so far.
#[derive(Drop)]
pub struct Reading {
    pub lines: Vec<LogicalLine>,
    /// How many bytes the last line has, or `TOO_LONG` where it has more.
    pub last_len: usize,
    /// The number of the first line that is too long.
    pub long: Option<u32>,
    ghost capped: { last_len ≤ 65536 },
}

impl Reading {
    ghost use Rattle.std.specs.Prelude.{ℕ, List, [], ◌++◌, ◌∷◌, length, OnOk, IfErr};
    ghost use Rattle.text_lex.specs.Lines.{Line, line_at, continued, with_line};
    ghost use Rattle.text_lex.specs.Readings.{Shows, first_of, long_at};

    pub fn new(alloc: Global) -> Reading
        ensures { Shows result [] }
    {
        Reading {
            lines: Vec::new(alloc),
            last_len: 0,
            long: None,
        }
    }

    /// Takes one more physical line, without its comment. After an `Err` the reading is of no use.
    pub fn add(&mut self, alloc: Global, number: u32, bytes: &[u8]) -> Result<(), LexFault>
        ensures ok { OnOk result ((lines : List Line) → Shows self.old lines → Shows self.new (with_line lines (line_at number bytes.now))) }
        ensures err { IfErr result (λ fault. fault ≡ LexFault.NoMemory) }
    {
        if all_blank(bytes) {
            return Ok(());
        }
        if begins_blank(bytes) && !self.lines.is_empty() {
            self.go_on(alloc, bytes)
        } else {
            self.begin(alloc, number, bytes)
        }
    }

    /// Begins a logical line.
    fn begin(&mut self, alloc: Global, number: u32, bytes: &[u8]) -> Result<(), LexFault>
        ensures ok { OnOk result ((lines : List Line) → Shows self.old lines → Shows self.new (lines ++ line_at number bytes.now ∷ [])) }
        ensures err { IfErr result (λ fault. fault ≡ LexFault.NoMemory) }
    {
        let mut tokens = Items::new(alloc);
        push_tokens(alloc, bytes, &mut tokens)?;
        self.lines.push(LogicalLine { number, tokens })?;
        self.measure(number, bytes.len());
        Ok(())
    }

    /// Goes on with the last logical line.
    fn go_on(&mut self, alloc: Global, bytes: &[u8]) -> Result<(), LexFault>
        requires { 0 < length self.old.lines.items }
        ensures ok { OnOk result ((n : ℕ) → (lines : List Line) → Shows self.old lines → Shows self.new (continued lines (line_at n bytes.now))) }
        ensures err { IfErr result (λ fault. fault ≡ LexFault.NoMemory) }
    {
        let at = self.lines.len() - 1;
        let last = &mut self.lines[at];
        let number = last.number;
        push_tokens(alloc, bytes, &mut last.tokens)?;
        self.measure(number, self.last_len + 1 + bytes.len());
        Ok(())
    }

    /// Notes how long the last line is.
    fn measure(&mut self, number: u32, len: usize)
        ensures lines { self.new.lines ≡ self.old.lines }
        ensures last_len { self.new.last_len ≡ min len 65536 }
        ensures long { self.new.long ≡ first_of self.old.long (long_at number len) }
    {
        self.last_len = len.min(TOO_LONG);
        if self.long.is_none() && len >= TOO_LONG {
            self.long = Some(number);
        }
    }
}
