//! Where a variable lies.
ghost use Rattle.std.specs.Prelude.{◌≡◌, ◌<◌, true};
ghost use Rattle.c_lang.specs.State.{is_global as is_shared};
ghost use Rattle.c_frames.specs.Slots.{slot_of as place_of};

use c_lang::Var;

/// Whether a variable is shared by all calls.
#[inline(always)]
pub fn is_global(v: Var) -> bool
    ensures { result ≡ is_shared v }
{
    matches!(
        v,
        Var::Result(_) | Var::Wn | Var::Depth | Var::ServeR | Var::ServeE
    )
}

/// Where a variable lies, among those of its call or among those that all calls share.
#[inline(always)]
pub fn slot_of(v: Var) -> usize
    ensures place { result ≡ place_of v }
    ensures shared { is_shared v ≡ true → result < 260 }
    ensures small { result < 131074 }
{
    match v {
        Var::Ra => 0,
        Var::Pt => 1,
        Var::Cell(c) => 2 * c as usize + 2,
        Var::Temp(k) => 2 * k as usize + 3,
        Var::Wn => 0,
        Var::Depth => 1,
        Var::ServeR => 2,
        Var::ServeE => 3,
        Var::Result(c) => c as usize + 4,
    }
}
