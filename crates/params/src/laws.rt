//! What follows of summaries.
ghost use Rattle.params.specs.ByEntry.{summaries_are_closed, whole_summaries_are_closed};
ghost use Rattle.params.specs.SummaryLaws.{assigned_is_named, named_are_cells, summaries_are_lawful, summaries_hold_cells, summaries_are_one, whole_summaries_are_one};

/// What a block may assign is among what it names.
pub fn assigned_is_named()
    ensures { assigned_is_named }
{}

/// On a sound triple each cell that a block names is a cell of the machine.
pub fn named_are_cells()
    ensures { named_are_cells }
{}

/// What a procedure reads or assigns, each that enters it does; what it may assign is among what it may read or assign;
/// what a point of its body names is there; the zero cell is not.
pub fn summaries_are_lawful()
    ensures { summaries_are_lawful }
{}

/// The summaries of the procedures of a sound triple hold cells of the machine alone.
pub fn summaries_hold_cells()
    ensures { summaries_hold_cells }
{}

/// A graph has one list of summaries.
pub fn summaries_are_one()
    ensures { summaries_are_one }
{}

/// A graph has one list of summaries of whole registers.
pub fn whole_summaries_are_one()
    ensures { whole_summaries_are_one }
{}

/// The summaries of a graph hold together, as a translation asks: with all cells but the zero cell where no procedure is.
pub fn summaries_are_closed()
    ensures { summaries_are_closed }
{}

/// So do the summaries of whole registers.
pub fn whole_summaries_are_closed()
    ensures { whole_summaries_are_closed }
{}
