//! Readers of functions.
ghost use Rattle.std.specs.Prelude.{◌≡◌, ◌≤◌, IfOk, drop, length, slice_get};
ghost use Rattle.c_text.specs.Tokens.{mark};
ghost use Rattle.c_scan.specs.Names.{cell_in};
ghost use Rattle.c_scan.specs.Readings.{Tells};
ghost use Rattle.c_read.specs.Combined.{before, comma_rest, many_until};
ghost use Rattle.c_read.specs.Blocks.{block_syntax};
ghost use Rattle.c_read.specs.Functions.{AreCells, IsDeclared, declared, local, locals, param, read_body, read_head, temps_from};

use super::blocks::read_block;
use c_lang::{CBlock, Var};
use c_rules::{Prototype, Routine};
use c_scan::{Cursor, Stop};
use sqlite_items::Items;
use std::alloc::{AllocError, Global};

/// `, u64 cI`
#[tactic(auto, using(crate::proofs::Exits::early_exits))]
fn next_param(cursor: &mut Cursor<'_>) -> Result<u8, Stop>
    ensures { Tells result cursor.new ((before (mark ",") param).read cursor.old) }
{
    cursor.sign(b",")?;
    cursor.word(b"u64")?;
    cursor.cell()
}

/// `{, u64 cI} )`
#[tactic(auto, using(crate::proofs::Exits::early_exits))]
fn read_params(alloc: Global, cursor: &mut Cursor<'_>) -> Result<Items<u8>, Stop>
    ensures { Tells result cursor.new ((comma_rest param (mark ")")).read cursor.old) }
{
    let mut params = Items::new(alloc);
    'more: while cursor.at_sign(b",") {
        let next = next_param(cursor)?;
        params.push(next)?;
    }
    cursor.sign(b")")?;
    Ok(params)
}

/// `f_X(u64 ra, u64 cI, ..)`
#[tactic(auto, using(crate::proofs::Exits::early_exits), unfolding(crate::specs::Functions::read_head))]
pub fn read_head(alloc: Global, cursor: &mut Cursor<'_>) -> Result<Prototype, Stop>
    ensures { Tells result cursor.new (read_head cursor.old) }
{
    let entry = cursor.function()?;
    cursor.sign(b"(")?;
    cursor.word(b"u64")?;
    cursor.word(b"ra")?;
    let params = read_params(alloc, cursor)?;
    Ok(Prototype::new(entry, params))
}

/// `u64 V;`
#[tactic(auto, using(crate::proofs::Exits::early_exits))]
fn read_local(cursor: &mut Cursor<'_>) -> Result<Var, Stop>
    ensures { Tells result cursor.new (local.read cursor.old) }
{
    cursor.word(b"u64")?;
    let variable = cursor.variable()?;
    cursor.sign(b";")?;
    Ok(variable)
}

/// `{BLOCK} }`
#[tactic(auto, using(crate::proofs::Exits::early_exits))]
fn read_blocks(alloc: Global, cursor: &mut Cursor<'_>) -> Result<Items<CBlock>, Stop>
    ensures { Tells result cursor.new ((many_until (mark "}") block_syntax).read cursor.old) }
{
    let mut blocks = Items::new(alloc);
    'more: while !cursor.at_sign(b"}") {
        let block = read_block(alloc, cursor)?;
        blocks.push(block)?;
    }
    cursor.sign(b"}")?;
    Ok(blocks)
}

/// `{u64 V;} {BLOCK} }`
#[tactic(auto, using(crate::proofs::Exits::early_exits))]
fn read_locals(alloc: Global, cursor: &mut Cursor<'_>) -> Result<(Items<Var>, Items<CBlock>), Stop>
    ensures { Tells result cursor.new (locals.read cursor.old) }
{
    let mut variables = Items::new(alloc);
    'more: while cursor.at_word(b"u64") {
        let variable = read_local(cursor)?;
        variables.push(variable)?;
    }
    let blocks = read_blocks(alloc, cursor)?;
    Ok((variables, blocks))
}

/// How many temporaries the variables from a place on are, if they are temporaries in order from 0 on.
fn temps_of(variables: &[Var], from: usize) -> Option<u32>
    requires { from ≤ length variables.now }
    ensures { result ≡ temps_from 0 (drop from variables.now) }
{
    let mut temps = 0;
    let mut at = from;
    while at < variables.len() {
        match variables[at] {
            Var::Temp(temp) if u32::from(temp) == temps => temps += 1,
            _ => return None,
        }
        at += 1;
    }
    Some(temps)
}

/// The cell that stands at a place.
fn cell_at(variables: &[Var], at: usize) -> Option<u8>
    ensures { result ≡ cell_in (slice_get variables.now at) }
{
    match variables.get(at) {
        Some(Var::Cell(cell)) => Some(*cell),
        _ => None,
    }
}

/// The cells in front of some variables.
fn cells_of(alloc: Global, variables: &[Var]) -> Result<Items<u8>, AllocError>
    ensures { IfOk result (λ cells. AreCells variables.now cells) }
{
    let mut cells = Items::new(alloc);
    'more: loop {
        match cell_at(variables, cells.len()) {
            Some(cell) => cells.push(cell)?,
            None => return Ok(cells),
        }
    }
}

/// The cells and the number of temporaries that the variables declare.
#[tactic(auto, using(crate::proofs::DeclaredLaws::declared_laws))]
fn declared(alloc: Global, variables: &[Var]) -> Result<(Items<u8>, u32), Stop>
    ensures { IsDeclared result (declared variables.now) }
{
    let cells = cells_of(alloc, variables)?;
    match temps_of(variables, cells.len()) {
        Some(temps) => Ok((cells, temps)),
        None => Err(Stop::Malformed),
    }
}

/// `{ u64 pt; {u64 V;} {BLOCK} }`, behind a head.
#[tactic(auto, using(crate::proofs::Exits::early_exits), unfolding(crate::specs::Functions::read_body))]
pub fn read_body(alloc: Global, head: Prototype, cursor: &mut Cursor<'_>) -> Result<Routine, Stop>
    ensures { Tells result cursor.new (read_body head cursor.old) }
{
    cursor.sign(b"{")?;
    cursor.word(b"u64")?;
    cursor.word(b"pt")?;
    cursor.sign(b";")?;
    let (variables, blocks) = read_locals(alloc, cursor)?;
    let (cells, temps) = declared(alloc, variables.as_slice())?;
    Ok(Routine::new(head, cells, temps, blocks))
}
