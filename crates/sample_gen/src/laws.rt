//! Where the parts of the code stand.
ghost use Rattle.sample_gen.specs.Places.{CallsStandInOrder, CallsLeadToProcedures};

/// Each call stands at the place from which its displacement is counted.
pub fn calls_stand_in_order()
    ensures { CallsStandInOrder }
{}

/// Where a call leads, the procedure of its number starts.
pub fn calls_lead_to_procedures()
    ensures { CallsLeadToProcedures }
{}
