//! Laws over the definitions alone.
ghost use Rattle.rtl_core.specs.GroundLaw.{GroundsSound};

/// The transfers of a sound machine's instruction are sound once its operands and addresses are put in.
pub fn ground_law()
    ensures { GroundsSound }
{}
