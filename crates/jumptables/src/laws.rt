//! Laws of tables and of the runs that they come from.
ghost use Rattle.jumptables.specs.Mentions.{UnmentionedIsIdle};
ghost use Rattle.jumptables.specs.OneTable.{TableIsOne, TablesExist, TargetsAreAddresses};

/// A chain that does not mention a cell comes to the same for each number that fits the cell, so no search has to
/// try its numbers.
pub fn unmentioned_is_idle()
    ensures { UnmentionedIsIdle }
{}

/// At most one list is the table of a jump.
pub fn table_is_one()
    ensures { TableIsOne }
{}

/// Each computed plain jump has a table: `has_tables` of the proofs names a function that gives them all.
pub fn tables_exist()
    ensures { TablesExist }
{}

/// The targets of a table have 32 bits, over sound descriptions.
pub fn targets_are_addresses()
    ensures { TargetsAreAddresses }
{}
