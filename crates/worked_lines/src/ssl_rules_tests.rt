//! The tables on small descriptions.
use rtl_core::{Bin, Width};
use ssl_rules::{LineNames, Lone, Meaning, NameTable, Own, Tables, operator};
use std::test::Fail;

#[test]
fn cells_are_numbered_in_order(rt: HostRuntime) -> Result<(), Fail> {
    let alloc = rt.alloc();
    let mut tables = Tables::new(alloc);
    tables.add_cell(b"y", Width::WORD)?;
    assert_eq!(rt; tables.names.get(b"y"), Some(Meaning::Cell(0)));
    assert_eq!(rt; tables.names.get(b"z"), None);
    assert_eq!(rt; tables.cell_width(0), 32);
    assert_eq!(rt; tables.cell_width(1), 0);
    Ok(())
}

#[test]
fn an_operand_stands_alone(rt: HostRuntime) -> Result<(), Fail> {
    let alloc = rt.alloc();
    let tables = Tables::new(alloc);
    let mut own = NameTable::new(alloc);
    let field = Own::Field {
        operand: 1,
        width: 5,
    };
    own.add(b"rd", field)?;
    let names = LineNames {
        tables: &tables,
        own: &own,
    };
    assert_eq!(rt; names.lone(b"rd"), Some(Lone::Own(field)));
    assert_eq!(rt; names.field(b"rd"), Some((1, 5)));
    assert_eq!(rt; names.lone(b"rs"), None);
    Ok(())
}

#[test]
fn operators_by_their_signs(rt: HostRuntime) {
    for (sign, op) in [
        (1, Bin::LeS),
        (13, Bin::RemU),
        (22, Bin::Eq),
        (25, Bin::Add),
        (30, Bin::Xor),
    ] {
        assert_eq!(rt; operator(sign), op);
    }
}
