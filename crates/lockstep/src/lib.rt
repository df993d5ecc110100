//! Runs of deterministic systems, and the theorem that two systems in lockstep have the same runs.
#![tactic(auto)]

ghost use Rattle.std.specs.Prelude.{List, ℕ, ◌<◌};
ghost use Rattle.lockstep.specs.Runs.{Next, Goes, Fate, after, machine_view, target_view, Same};
ghost use Rattle.lockstep.specs.Meets.{InLockstep, InLockstepOnCredit};

/// A machine, and a target that is to follow it: one step and the output so far of each, and when
/// their states are related. `Self` holds the machine's states, `C` the target's and `S` its stops.
pub trait Follows<C, S> {
    ghost mstep: { Self → Next Self S };

    ghost cstep: { C → Next C (Fate S) };

    ghost mout: { Self → List ℕ };

    ghost cout: { C → List ℕ };

    ghost related: { Self → C → Type 0 };
}

/// A target in lockstep with a machine has the same run as the machine: it shows all that the
/// machine shows, within `bound` steps for each step of the machine, and nothing else; and it is
/// never stuck. Here `stretch` bounds what the target takes for one step of the machine beyond its
/// first step, and any `bound` above `stretch` will do.
pub fn simulates<M: Follows<C, S>, C, S>(machine: &M, target: &C)
    ensures { (stretch bound : ℕ) → stretch < bound →
        InLockstep M.mstep M.cstep M.mout M.cout M.related stretch machine.now target.now →
        Same {S = S} bound
        (λ n. machine_view M.mout (after M.mstep n (Goes machine.now)))
        (λ k. target_view M.cout (after M.cstep k (Goes target.now))) }
{}

/// The same where the target keeps pace on average alone: `credit` is what the steps of the machine so far
/// left over for later ones, so a step may take more of the target where the credit falls by as much.
pub fn simulates_on_credit<M: Follows<C, S>, C, S>(machine: &M, target: &C)
    ensures { (credit : M → ℕ) → (stretch bound : ℕ) → stretch < bound →
        InLockstepOnCredit M.mstep M.cstep M.mout M.cout M.related credit stretch machine.now target.now →
        Same {S = S} bound
        (λ n. machine_view M.mout (after M.mstep n (Goes machine.now)))
        (λ k. target_view M.cout (after M.cstep k (Goes target.now))) }
{}

#[cfg(test)]
mod tests;
