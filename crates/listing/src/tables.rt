//! The table of a jump.
ghost use Rattle.std.specs.Prelude.{◌≡◌, ◌∷◌, []};
ghost use Rattle.listing.specs.Lists.{tables_at, shows_table};
ghost use Rattle.listing.specs.Listable.{HasOneTable};

use points::{Block, JumpKind, JumpTable, Node, Slot};
use sqlite_items::at;

/// Whether a computed plain jump stands at a node, with nothing to come there.
pub fn shows_table(node: &Node) -> bool
    ensures { result ≡ shows_table node.now }
{
    match (&node.point.slot, &node.block) {
        (Slot::Seq, Block::Inst(_, JumpKind::Dyn)) => true,
        _ => false,
    }
}

/// The only table of the jump at an address. It is found by halving where the tables ascend, as those of graphs do.
pub fn table_at<'a>(tables: &'a [JumpTable], a: u32) -> &'a JumpTable
    requires { HasOneTable tables.now a }
    ensures { tables_at tables.now a ≡ result.now ∷ [] }
{
    let place = tables.partition_point(|t| t.at < a);
    match at(tables, place) {
        Some(table) if table.at == a => table,
        _ => first_table_at(tables, a),
    }
}

/// The same, found by going through all tables.
fn first_table_at<'a>(tables: &'a [JumpTable], a: u32) -> &'a JumpTable
    requires { HasOneTable tables.now a }
    ensures { tables_at tables.now a ≡ result.now ∷ [] }
{
    for table in tables {
        if table.at == a {
            return table;
        }
    }
    unreachable!()
}
