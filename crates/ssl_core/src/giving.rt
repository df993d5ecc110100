//! What cells, files, views and functions add to the tables.
ghost use Rattle.std.specs.Prelude.{◌≡◌, true, is_some, IfOk, OnOk, map};
ghost use Rattle.std.specs.List.{list_all};
ghost use Rattle.ssl_rules.specs.LineScope.{scope};
ghost use Rattle.ssl_rules.specs.Counted.{is_counted_expr};
ghost use Rattle.ssl_rules.specs.Widths.{is_width, measured};
ghost use Rattle.ssl_rules.specs.Views.{are_parts_in_range, part_bits};
ghost use Rattle.ssl_rules.specs.TableGrowth.{with_cell, with_cells, with_function, with_view};
ghost use Rattle.ssl_rules.specs.Given.{part_of};
ghost use Rattle.ssl_core.specs.Fresh.{is_fresh};
ghost use Rattle.ssl_core.specs.Limits.{has_place_in, has_room_in};
ghost use Rattle.ssl_core.specs.Functions.{function_in};
ghost use Rattle.ssl_core.specs.State.{AreCellsNamed};

use rtl_core::{CellPart, Width};
use sqlite_items::Items;
use ssl_checks::measure;
use ssl_rules::{Function, LineNames, Tables};
use ssl_syntax::{CellName, Param, SslExpr, ViewPart};
use ssl_templates::expand;
use std::alloc::{AllocError, Global};

/// A width that a value can have.
fn width_of(width: u64) -> Width
    requires { is_width width ≡ true }
    ensures { result ≡ width }
{
    Width::new(width as u8).unwrap()
}

/// One cell more.
pub fn give_cell(tables: &mut Tables, name: &[u8], width: u64) -> Result<(), AllocError>
    requires fresh { is_fresh tables.old.names name.now ≡ true }
    requires cells { AreCellsNamed tables.old }
    requires room { has_room_in tables.old 1 ≡ true }
    requires width { is_width width ≡ true }
    ensures { OnOk result (tables.new ≡ with_cell tables.old name.now width) }
{
    tables.add_cell(name, width_of(width))
}

/// A file of so many cells more.
pub fn give_cells(
    alloc: Global,
    tables: &mut Tables,
    name: &[u8],
    count: u64,
    width: u64,
) -> Result<(), AllocError>
    requires fresh { is_fresh tables.old.names name.now ≡ true }
    requires cells { AreCellsNamed tables.old }
    requires room { has_room_in tables.old count ≡ true }
    requires place { has_place_in tables.old ≡ true }
    requires width { is_width width ≡ true }
    ensures { OnOk result (tables.new ≡ with_cells tables.old name.now count width) }
{
    tables.add_cells(alloc, name, count as u8, width_of(width))
}

/// The bits of a cell from one number to another.
fn bits_of(tables: &Tables, cell: &CellName, lo: u64, hi: u64) -> CellPart
    requires { is_some (part_bits tables.now (ViewPart.Bits cell.now lo hi)) ≡ true }
    ensures { result ≡ part_of tables.now (ViewPart.Bits cell.now lo hi) }
{
    let cell = tables.cell_number(cell).unwrap_or(0);
    let _width = tables.cell_width(usize::from(cell));
    CellPart {
        cell,
        lo: lo as u8,
        hi: hi as u8,
    }
}

/// The part of a view that a line spells.
fn part_of(tables: &Tables, part: &ViewPart) -> CellPart
    requires { is_some (part_bits tables.now part.now) ≡ true }
    ensures { result ≡ part_of tables.now part.now }
{
    match part {
        ViewPart::Whole(cell) => {
            let cell = tables.cell_number(cell).unwrap_or(0);
            let hi = tables.cell_width(usize::from(cell)).saturating_sub(1);
            CellPart { cell, lo: 0, hi }
        },
        ViewPart::Bits(cell, lo, hi) => bits_of(tables, cell, *lo, *hi),
    }
}

/// The parts of a view.
fn parts_of(
    alloc: Global,
    tables: &Tables,
    parts: &[ViewPart],
) -> Result<Items<CellPart>, AllocError>
    requires { are_parts_in_range tables.now parts.now ≡ true }
    ensures { IfOk result (λ all. all ≡ map (part_of tables.now) parts.now) }
{
    let mut all = Items::new(alloc);
    for part in parts {
        all.push(part_of(tables, part))?;
    }
    Ok(all)
}

/// One view more.
pub fn give_view(
    alloc: Global,
    tables: &mut Tables,
    name: &[u8],
    parts: &[ViewPart],
) -> Result<(), AllocError>
    requires fresh { is_fresh tables.old.names name.now ≡ true }
    requires place { has_place_in tables.old ≡ true }
    requires ranged { are_parts_in_range tables.old parts.now ≡ true }
    ensures { OnOk result (tables.new ≡ with_view tables.old name.now (map (part_of tables.old) parts.now)) }
{
    let all = parts_of(alloc, tables, parts)?;
    tables.add_view(name, all)
}

/// The widths of parameters.
fn widths_of(alloc: Global, params: &[Param]) -> Result<Items<u8>, AllocError>
    requires { list_all (λ p. is_width p.width) params.now ≡ true }
    ensures { IfOk result (λ widths. widths ≡ map (λ p. p.width) params.now) }
{
    let mut widths = Items::new(alloc);
    for param in params {
        widths.push(param.width as u8)?;
    }
    Ok(widths)
}

/// The function that a line spells.
pub fn function_of(
    alloc: Global,
    names: &LineNames,
    params: &[Param],
    e: &SslExpr,
) -> Result<Function, AllocError>
    requires counted { is_counted_expr (scope names.now) e.now ≡ true }
    requires ranged { is_some (measured (scope names.now) e.now).width ≡ true }
    requires widths { list_all (λ p. is_width p.width) params.now ≡ true }
    ensures { IfOk result (λ f. f ≡ function_in (scope names.now) params.now e.now) }
{
    Ok(Function {
        params: widths_of(alloc, params)?,
        width: measure(names, e).width.unwrap_or(0),
        body: expand(alloc, names, e)?,
    })
}

/// One function more.
pub fn give_function(tables: &mut Tables, name: &[u8], function: Function) -> Result<(), AllocError>
    requires fresh { is_fresh tables.old.names name.now ≡ true }
    requires place { has_place_in tables.old ≡ true }
    ensures { OnOk result (tables.new ≡ with_function tables.old name.now function) }
{
    tables.add_function(name, function)
}
