//! Nodes of small expressions, where a function is `f ( x : 8 ) := ( x + x )`.
use rtl_core::Bin;
use sqlite_items::{Boxed, Items};
use ssl_nodes::node_count;
use ssl_rules::{Formula, Function, LineNames, Meaning, NameTable, Tables};
use ssl_syntax::{SslExpr, read_expression};
use std::alloc::{AllocError, Global};
use std::test::Fail;
use text_lex::{LogicalLine, lines};

fn doubling(alloc: Global) -> Result<Function, AllocError> {
    let params = Items::from_slice(alloc, [8].as_slice())?;
    let left = Boxed::new(alloc, Formula::Param(0))?;
    let right = Boxed::new(alloc, Formula::Param(0))?;
    Ok(Function {
        params,
        width: 8,
        body: Formula::Bin(Bin::Add, left, right),
    })
}

fn give_function(names: &mut NameTable<Meaning>) -> Result<(), AllocError> {
    if names.get(b"f").is_none() {
        names.add(b"f", Meaning::Function(0))?;
    }
    Ok(())
}

fn tables(alloc: Global) -> Result<Tables, AllocError> {
    let mut tables = Tables::new(alloc);
    tables.functions.push(doubling(alloc)?)?;
    give_function(&mut tables.names)?;
    Ok(tables)
}

fn count(alloc: Global, e: &SslExpr) -> Result<u32, AllocError> {
    let tables = tables(alloc)?;
    let own = NameTable::new(alloc);
    let names = LineNames {
        tables: &tables,
        own: &own,
    };
    node_count(alloc, &names, e)
}

/// The nodes of a line's expression; a line that is none has no nodes.
fn count_line(alloc: Global, line: &LogicalLine) -> Result<u32, Fail> {
    match read_expression(alloc, line.tokens.as_slice())? {
        Some(e) => Ok(count(alloc, &e)?),
        None => Ok(0),
    }
}

/// The nodes of the expression of a text, which is one line.
fn count_text(alloc: Global, text: &[u8]) -> Result<u32, Fail> {
    if text.len() > 1_000_000 {
        return Ok(0);
    }
    let found = lines(alloc, text)?;
    match found.as_slice() {
        [line] => count_line(alloc, line),
        _ => Ok(0),
    }
}

#[test]
fn each_node_counts_one(rt: HostRuntime) -> Result<(), Fail> {
    let table: [(&[u8], u32); 4] = [
        (b"if(%pc, %next, ~1:1)", 5),
        (b"m32[(%pc + 4:32)]", 4),
        (b"(%pc + (%pc * %pc))", 5),
        (b"bits(zx(8, sx(4, -%pc)), 0, 7)", 5),
    ];
    for (text, want) in table {
        assert_eq!(rt; count_text(rt.alloc(), text)?, want);
    }
    Ok(())
}

/// Puts a text so many times.
fn put_times(text: &mut Vec<u8>, part: &[u8], times: usize) -> Result<(), AllocError> {
    for _ in 0..times {
        text.extend_from_slice(part)?;
    }
    Ok(())
}

/// `%pc` inside so many others.
fn nested(alloc: Global, front: &[u8], back: &[u8], levels: usize) -> Result<Vec<u8>, AllocError> {
    let mut text = Vec::new(alloc);
    put_times(&mut text, front, levels)?;
    text.extend_from_slice(b"%pc")?;
    put_times(&mut text, back, levels)?;
    Ok(text)
}

#[test]
fn calls_count_as_their_bodies(rt: HostRuntime) -> Result<(), Fail> {
    for (levels, want) in [(1, 3), (2, 7), (3, 15), (7, 255), (8, 257), (9, 257)] {
        let text = nested(rt.alloc(), b"f(", b")", levels)?;
        assert_eq!(rt; count_text(rt.alloc(), &text)?, want);
    }
    Ok(())
}

#[test]
fn a_thousand_nodes_are_many(rt: HostRuntime) -> Result<(), Fail> {
    let text = nested(rt.alloc(), b"~", b"", 1000)?;
    assert_eq!(rt; count_text(rt.alloc(), &text)?, 257);
    Ok(())
}
