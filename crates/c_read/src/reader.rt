//! The reader of C texts.
ghost use Rattle.std.specs.Prelude.{◌≡◌, ◌<◌, ◌^◌, ◌-◌, ◌+◌, ◌==◌, take, length, not};
ghost use Rattle.std.specs.List.{count_by};
ghost use Rattle.c_read.specs.Texts.{IsReadAs, line_of};

use super::fault::CFault;
use super::program::program_of;
use super::texts::read_parts;
use c_lang::Program;
use c_rules::static_fault;
use c_scan::{Cursor, first_unlexed};
use std::alloc::Global;

/// The first line of each C text.
const FIRST_LINE: &[u8] = b"#include \"uqbt.h\"";

/// How many bytes stand before the first line feed.
fn line_len(text: &[u8]) -> usize
    ensures { result ≡ length (line_of text.now) }
{
    let mut len = 0;
    while len < text.len() && text[len] != b'\n' {
        len += 1;
    }
    len
}

/// How many line feeds stand in a text.
fn line_feeds(text: &[u8]) -> usize
    ensures { result ≡ count_by (λ b. b == 10) text.now }
{
    text.iter().filter(|byte| **byte == b'\n').count()
}

/// Reads a C text. The program that it spells, where it keeps the static rules, or its first fault.
pub fn read_c(alloc: Global, text: &[u8]) -> Result<Program, CFault>
    requires { length text.now < 2 ^ 32 - 1 }
    ensures { IsReadAs text.now result }
{
    let (first, behind) = text.split_at(line_len(text));
    let (_, rest) = behind.split_at(behind.len().min(1));
    if let Some(at) = first_unlexed(rest) {
        let (before, _) = rest.split_at(at);
        return Err(CFault::Lex {
            line: 2 + line_feeds(before) as u32,
        });
    }
    if first != FIRST_LINE {
        return Err(CFault::BadItem { index: 0 });
    }
    let mut cursor = Cursor::new(rest, 0);
    let parts = read_parts(alloc, &mut cursor)?;
    if let Some(broken) = static_fault(alloc, &parts)? {
        return Err(CFault::Static {
            index: broken.item,
            rule: broken.rule,
        });
    }
    Ok(program_of(alloc, parts)?)
}
