//! Calls and returns.
ghost use Rattle.std.specs.Prelude.{◌≡◌, ℕ, ◌∷◌, [], IfOk, OnOk, option_map};
ghost use Rattle.rtl_core.specs.Contents.{Contents};
ghost use Rattle.c_lang.specs.declared.tree.Program.{Program};
ghost use Rattle.c_lang.specs.State.{with_var};
ghost use Rattle.c_lang.specs.Step as step;
ghost use Rattle.c_eval.specs.Plain.{state_of, frame_of, place_of, moment, entered, shown};

use crate::places::first_place;
use crate::state::{PlainFrame, PlainState, Setting, Taken};
use c_lang::{Function, Program, Var};
use sqlite_items::Items;
use std::alloc::{AllocError, Global};
use std::mem;

/// How many calls can stand below the one on top.
const MOST_BELOW: usize = 65_536;

/// Calls the first function of an address; sticks where there is none, where the number of arguments differs, and where
/// 65,537 calls are open.
pub fn call(
    alloc: Global,
    program: &Program,
    state: &mut PlainState,
    entry: u32,
    values: &[u64],
) -> Result<Taken, AllocError>
    ensures { IfOk result (λ t. (m : Contents) →
        moment t program.now (state_of state.old m) (state_of state.new m) ≡ step.called program.now (state_of state.old m) (place_of state.old.top.place) entry values.now) }
{
    match function_of(program.functions.as_slice(), entry) {
        None => Ok(Taken::Sticks),
        Some((index, f)) => match parameters(alloc, f, values)? {
            None => Ok(Taken::Sticks),
            Some(vars) => enter(alloc, state, index, f, vars),
        },
    }
}

/// The first function of an address, with its place among all.
fn function_of(functions: &[Function], entry: u32) -> Option<(usize, &Function)>
    ensures { option_map (λ r. record { index = r.0; function = r.1.now }) result ≡ step.function_from 0 functions.now entry }
{
    for (i, f) in functions.iter().enumerate() {
        if f.entry == entry {
            return Some((i, f));
        }
    }
    None
}

/// The parameters set from the arguments, of which the first is `ra`; `None` where their numbers differ.
fn parameters(
    alloc: Global,
    f: &Function,
    values: &[u64],
) -> Result<Option<Items<Setting>>, AllocError>
    ensures { IfOk result (λ o. option_map (shown step.no_vars) o ≡ step.parameters f.now values.now) }
{
    match values {
        [] => Ok(None),
        [ra, values @ ..] => {
            let cells = cells_set(alloc, f.params.as_slice(), values)?;
            with_setting(cells, Var::Ra, *ra)
        }
    }
}

/// The cells set from the arguments; `None` where their numbers differ.
fn cells_set(
    alloc: Global,
    cells: &[u8],
    values: &[u64],
) -> Result<Option<Items<Setting>>, AllocError>
    ensures { IfOk result (λ o. option_map (shown step.no_vars) o ≡ step.cells_set cells.now values.now) }
{
    match cells {
        [] => Ok(no_cells(alloc, values)),
        [c, cells @ ..] => match values {
            [] => Ok(None),
            [n, values @ ..] => {
                let behind = cells_set(alloc, cells, values)?;
                with_setting(behind, Var::Cell(*c), *n)
            }
        },
    }
}

/// No cells set, where no argument is left.
#[tactic(auto, using(crate::proofs::CallLaws::shown_none))]
fn no_cells(alloc: Global, values: &[u64]) -> Option<Items<Setting>>
    ensures { option_map (shown step.no_vars) result ≡ step.cells_set [] values.now }
{
    match values {
        [] => Some(Items::new(alloc)),
        [_, ..] => None,
    }
}

/// One more variable set, where there are any.
#[tactic(auto, using(crate::proofs::PlainLaws::shown_push))]
fn with_setting(
    vars: Option<Items<Setting>>,
    var: Var,
    value: u64,
) -> Result<Option<Items<Setting>>, AllocError>
    ensures { IfOk result (λ o. option_map (shown step.no_vars) o ≡ option_map (λ vs. with_var vs var value) (option_map (shown step.no_vars) vars)) }
{
    match vars {
        None => Ok(None),
        Some(mut vars) => {
            vars.push(Setting { var, value })?;
            Ok(Some(vars))
        }
    }
}

/// Puts a call on top, if one more can be open.
#[tactic(auto, using(crate::proofs::PlainLaws::below_length))]
fn enter(
    alloc: Global,
    state: &mut PlainState,
    index: usize,
    f: &Function,
    vars: Items<Setting>,
) -> Result<Taken, AllocError>
    ensures { IfOk result (λ t. (p : Program) (m : Contents) → moment t p (state_of state.old m) (state_of state.new m)
        ≡ entered p (state_of state.old m) (record { index = index; function = f.now }) (shown step.no_vars vars)) }
{
    if state.below.len() >= MOST_BELOW {
        return Ok(Taken::Sticks);
    }
    let first = first_place(alloc, f.blocks.as_slice())?;
    let callee = PlainFrame {
        function: index,
        place: first,
        vars,
    };
    push_frame(state, callee)?;
    Ok(Taken::Went)
}

/// Puts a frame on top.
#[tactic(auto, using(crate::proofs::PlainLaws::below_push))]
fn push_frame(state: &mut PlainState, callee: PlainFrame) -> Result<(), AllocError>
    ensures { OnOk result ((m : Contents) → state_of state.new m ≡ record {
      top = frame_of callee;
      below = frame_of state.old.top ∷ (state_of state.old m).below;
      outer = (state_of state.old m).outer;
    }) }
{
    let caller = mem::replace(&mut state.top, callee);
    state.below.push(caller)
}

/// Gives the frame below back; sticks in the first function.
#[tactic(auto, using(crate::proofs::PlainLaws::below_push))]
pub fn return_to_caller(state: &mut PlainState) -> Taken
    ensures { (p : Program) (m : Contents) →
        moment result p (state_of state.old m) (state_of state.new m) ≡ step.returned p (state_of state.old m) (state_of state.old m).below }
{
    match state.below.pop() {
        None => Taken::Sticks,
        Some(frame) => {
            state.top = frame;
            Taken::Went
        }
    }
}
