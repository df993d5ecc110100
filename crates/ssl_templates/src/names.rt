//! What the names of an expression or a place stand for.
ghost use Rattle.std.specs.Prelude.{◌≡◌, ◌==◌, unwrap_or, option_map};
ghost use Rattle.ssl_rules.specs.LineScope.{scope};
ghost use Rattle.ssl_rules.specs.Formulas.{nothing, lone_formula, part_formula, chosen_part};

use rtl_core::{CellPart, Width};
use ssl_rules::{Formula, Leaf, LineNames, Lone, Own, Tables};

/// What stands where nothing is known.
pub fn nothing() -> Formula
    ensures { result ≡ nothing }
{
    Formula::Leaf(Leaf::Const(Width::FLAG, 0))
}

/// What a name without brackets stands for.
pub fn lone_formula(lone: Option<Lone>) -> Formula
    ensures { result ≡ unwrap_or (option_map lone_formula lone) nothing }
{
    match lone {
        None => nothing(),
        Some(Lone::Cell(cell)) => Formula::Leaf(Leaf::Cell(cell)),
        Some(Lone::Own(Own::Field { operand, width: _ })) => Formula::Leaf(Leaf::Field(operand)),
        Some(Lone::Own(Own::Typed { operand, stands })) => {
            Formula::Leaf(Leaf::Typed(operand, stands))
        }
        Some(Lone::Own(Own::Param { place, width: _ })) => Formula::Param(place),
    }
}

/// A part of a file: a cell where it is a whole one.
pub fn part_formula(tables: &Tables, part: Option<CellPart>) -> Formula
    ensures { result ≡ unwrap_or (option_map (part_formula tables.now) part) nothing }
{
    match part {
        Some(part) => {
            if tables.is_whole(part) {
                Formula::Leaf(Leaf::Cell(part.cell))
            } else {
                Formula::Leaf(Leaf::Part(part))
            }
        }
        None => nothing(),
    }
}

/// The part of a file that a field operand chooses.
pub fn chosen_formula(names: &LineNames, name: &[u8], op: &[u8]) -> Formula
    ensures { result ≡ unwrap_or (option_map (λ p. Formula.Leaf (Leaf.FileAt p.0 p.1)) (chosen_part (scope names.now) name.now op.now)) nothing }
{
    match chosen_part(names, name, op) {
        Some((file, operand)) => Formula::Leaf(Leaf::FileAt(file, operand)),
        None => nothing(),
    }
}

/// The file and the operand of such a part.
pub fn chosen_part(names: &LineNames, name: &[u8], op: &[u8]) -> Option<(u16, u8)>
    ensures { result ≡ chosen_part (scope names.now) name.now op.now }
{
    let file = names.tables.file(name)?;
    let field = names.field(op)?;
    Some((file, field.0))
}
