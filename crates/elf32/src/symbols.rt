//! The symbols of an executable.
ghost use Rattle.std.specs.Prelude.{◌≡◌, ◌≤◌, ◌+◌, if◌then◌else◌, [], ◌∷◌, ◌++◌, length, IfOk, OnOk, IfSome};
ghost use Rattle.std.specs.List.{find};
ghost use Rattle.elf32.specs.Symbols.{section_from, sections, is_whole_table, symbol_from, is_function, functions_of, symbols};

use super::numbers::{half, word};
use rtl_core::Order;
use sqlite_items::Items;
use std::alloc::{AllocError, Global};

/// `SHT_SYMTAB` and `STT_FUNC`.
const SYMBOL_TABLE: u32 = 2;

const FUNCTION: u8 = 2;

/// The bytes of a section header and of a symbol.
const SECTION_HEADER: usize = 40;

const SYMBOL: usize = 16;

/// A section header, as far as it matters here.
#[derive(Clone, Copy, Debug)]
struct Section {
    kind: u32,
    offset: u32,
    size: u32,
}

/// A symbol, as far as it matters here.
#[derive(Clone, Copy, Debug)]
struct Symbol {
    value: u32,
    info: u8,
    section: u16,
}

/// The section header at a place.
#[tactic(auto, unfolding(crate::specs::Symbols::section_from))]
fn section_from(order: Order, file: &[u8], at: usize) -> Section
    requires { at + 40 ≤ length file.now }
    ensures { result ≡ section_from order file.now at }
{
    Section {
        kind: word(order, file, at + 4),
        offset: word(order, file, at + 16),
        size: word(order, file, at + 20),
    }
}

/// The symbol at a place.
#[tactic(auto, unfolding(crate::specs::Symbols::symbol_from))]
fn symbol_from(order: Order, file: &[u8], at: usize) -> Symbol
    requires { at + 16 ≤ length file.now }
    ensures { result ≡ symbol_from order file.now at }
{
    Symbol {
        value: word(order, file, at + 4),
        info: file[at + 12],
        section: half(order, file, at + 14),
    }
}

impl Section {
    /// Whether it is a symbol table that lies in a file of so many bytes.
    fn is_whole_table(&self, len: usize) -> bool
        ensures { result ≡ is_whole_table len self.now }
    {
        self.kind == SYMBOL_TABLE && self.offset as usize + self.size as usize <= len
    }
}

impl Symbol {
    /// Whether it is a function that some section holds.
    fn is_function(&self) -> bool
        ensures { result ≡ is_function self.now }
    {
        self.info & 15 == FUNCTION && self.section != 0
    }
}

/// The section headers; none where they are cut.
#[tactic(auto, unfolding(crate::specs::Symbols::sections))]
fn sections(alloc: Global, order: Order, file: &[u8]) -> Result<Vec<Section>, AllocError>
    requires { 52 ≤ length file.now }
    ensures { IfOk result (λ found. found.items ≡ sections order file.now) }
{
    let start = word(order, file, 32) as usize;
    let count = half(order, file, 48) as usize;
    let mut found = Vec::new(alloc);
    if half(order, file, 46) as usize != SECTION_HEADER
        || start + SECTION_HEADER * count > file.len()
    {
        return Ok(found);
    }
    for i in 0..count {
        found.push(section_from(order, file, start + SECTION_HEADER * i))?;
    }
    Ok(found)
}

/// The values of a table's functions.
#[tactic(auto, unfolding(crate::specs::Symbols::symbols_in))]
fn functions_of(
    alloc: Global,
    order: Order,
    file: &[u8],
    table: Section,
) -> Result<Vec<u32>, AllocError>
    requires { table.offset + table.size ≤ length file.now }
    ensures { IfOk result (λ found. found.items ≡ functions_of order file.now table) }
{
    let start = table.offset as usize;
    let mut found = Vec::new(alloc);
    for i in 0..table.size as usize / SYMBOL {
        push_function(&mut found, symbol_from(order, file, start + SYMBOL * i))?;
    }
    Ok(found)
}

/// Takes the value of a function, and nothing of another symbol.
fn push_function(found: &mut Vec<u32>, symbol: Symbol) -> Result<(), AllocError>
    ensures { OnOk result (found.new.items ≡ found.old.items ++ (if is_function symbol then symbol.value ∷ [] else [])) }
{
    if symbol.is_function() {
        found.push(symbol.value)?;
    }
    Ok(())
}

/// The first symbol table that lies in a file of so many bytes.
fn whole_table(len: usize, sections: &[Section]) -> Option<Section>
    ensures first { result ≡ find (is_whole_table len) sections.now }
    ensures whole { IfSome result (λ table. table.offset + table.size ≤ len) }
{
    sections.iter().copied().find(|s| s.is_whole_table(len))
}

/// The addresses of the functions that the first whole symbol table defines.
#[tactic(auto, unfolding(crate::specs::Symbols::symbols))]
pub fn symbols(alloc: Global, order: Order, file: &[u8]) -> Result<Items<u32>, AllocError>
    requires { 52 ≤ length file.now }
    ensures { IfOk result (λ found. found ≡ symbols order file.now) }
{
    let sections = sections(alloc, order, file)?;
    match whole_table(file.len(), &sections) {
        Some(table) => Ok(Items::from_vec(functions_of(alloc, order, file, table)?)),
        None => Ok(Items::new(alloc)),
    }
}
