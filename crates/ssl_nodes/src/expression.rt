//! The nodes of an expression of a line.
ghost use Rattle.std.specs.Prelude.{◌≡◌, ◌≤◌, IfOk, map, unwrap_or, option_map};
ghost use Rattle.ssl_rules.specs.LineScope.{scope};
ghost use Rattle.ssl_rules.specs.Formulas.{expanded, nodes, lone_formula, part_formula, nothing};
ghost use Rattle.ssl_nodes.specs.Sums.{few, nodes_with};

use crate::body::{body_count, few};
use rtl_core::CellPart;
use sqlite_items::Items;
use ssl_rules::{Function, LineNames, Lone, Own, Tables};
use ssl_syntax::SslExpr;
use std::alloc::{AllocError, Global};

/// The nodes of an expression with calls expanded; more than 256 are told as 257.
#[cycle(count)]
#[tactic(auto, using(crate::proofs::CountLaws::count_laws))]
pub fn node_count(alloc: Global, names: &LineNames, e: &SslExpr) -> Result<u32, AllocError>
    ensures exact { IfOk result (λ n. n ≡ few (nodes (expanded (scope names.now) e.now))) }
    ensures most { IfOk result (λ n. n ≤ 257) }
{
    match e {
        SslExpr::Number(_, _) => Ok(1),
        SslExpr::Named(name) => Ok(lone_count(names.lone(name.as_slice()))),
        SslExpr::At(name, index) => {
            Ok(part_count(names.tables, names.tables.part(name.as_slice(), *index)))
        }
        SslExpr::AtOp(_, _) => Ok(1),
        SslExpr::Load(_, a) => Ok(few(1 + node_count(alloc, names, a.get())?)),
        SslExpr::Not(a) => Ok(few(1 + node_count(alloc, names, a.get())?)),
        SslExpr::Neg(a) => Ok(few(1 + node_count(alloc, names, a.get())?)),
        SslExpr::Bin(_, a, b) => {
            let left = node_count(alloc, names, a.get())?;
            Ok(few(1 + left + node_count(alloc, names, b.get())?))
        }
        SslExpr::Bits(a, _, _) => Ok(few(1 + node_count(alloc, names, a.get())?)),
        SslExpr::Zext(_, a) => Ok(few(1 + node_count(alloc, names, a.get())?)),
        SslExpr::Sext(_, a) => Ok(few(1 + node_count(alloc, names, a.get())?)),
        SslExpr::If(c, a, b) => {
            let condition = node_count(alloc, names, c.get())?;
            let first = node_count(alloc, names, a.get())?;
            let second = node_count(alloc, names, b.get())?;
            Ok(few(1 + condition + first + second))
        }
        SslExpr::Call(name, args) => match names.tables.function(name.as_slice()) {
            None => Ok(1),
            Some(function) => call_count(alloc, names, function, args.as_slice()),
        },
        SslExpr::Pc => Ok(1),
        SslExpr::Next => Ok(1),
    }
}

/// The nodes of a call: those of the body, by those of the arguments.
#[cycle(count)]
fn call_count(
    alloc: Global,
    names: &LineNames,
    function: &Function,
    args: &[SslExpr],
) -> Result<u32, AllocError>
    ensures exact { IfOk result (λ n. n ≡ few (nodes_with (map (λ e. few (nodes (expanded (scope names.now) e))) args.now) function.now.body)) }
    ensures most { IfOk result (λ n. n ≤ 257) }
{
    let mut counts = Items::new(alloc);
    for e in args {
        counts.push(node_count(alloc, names, e)?)?;
    }
    Ok(body_count(&function.body, counts.as_slice()))
}

/// The nodes of what a name without brackets stands for.
#[tactic(auto, using(crate::proofs::CountLaws::leaf_laws))]
fn lone_count(lone: Option<Lone>) -> u32
    ensures exact { result ≡ few (nodes (unwrap_or (option_map lone_formula lone) nothing)) }
    ensures most { result ≤ 257 }
{
    match lone {
        None => 1,
        Some(Lone::Cell(_)) => 1,
        Some(Lone::Own(Own::Field { .. })) => 1,
        Some(Lone::Own(Own::Param { .. })) => 1,
        Some(Lone::Own(Own::Typed { operand: _, stands })) => few(stands.read),
    }
}

/// The nodes of a part of a file: one where it is a whole cell.
#[tactic(auto, using(crate::proofs::CountLaws::leaf_laws))]
fn part_count(tables: &Tables, part: Option<CellPart>) -> u32
    ensures exact { result ≡ few (nodes (unwrap_or (option_map (part_formula tables.now) part) nothing)) }
    ensures most { result ≤ 257 }
{
    match part {
        Some(part) => { if tables.is_whole(part) { 1 } else { 2 } }
        None => 1,
    }
}
