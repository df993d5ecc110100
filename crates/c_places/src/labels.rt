//! Labels as the numbers of their blocks.
ghost use Rattle.std.specs.Prelude.{◌≡◌, ◌<◌, ◌+◌, ◌-◌, ◌^◌, ◌++◌, ◌∷◌, [], length, map, slice_get, OnOk};
ghost use Rattle.std.specs.Option.{option_and_then};
ghost use Rattle.c_lang.specs.Step.{same_point, same_slot, block_of};
ghost use Rattle.c_places.specs.Labels.{points_of, index_from, ways_from};

use c_lang::{CBlock, Case, End};
use rtl_core::{Point, Slot};
use sqlite_items::Items;
use std::alloc::AllocError;

/// Whether two points are one.
fn is_same_point(a: &Point, b: &Point) -> bool
    ensures { result ≡ same_point a.now b.now }
{
    a.pc == b.pc && is_same_slot(a.slot, b.slot)
}

/// Whether two slots are one.
fn is_same_slot(a: Slot, b: Slot) -> bool
    ensures { result ≡ same_slot a b }
{
    match (a, b) {
        (Slot::Seq, Slot::Seq) | (Slot::Ret, Slot::Ret) => true,
        (Slot::To(t), Slot::To(u)) => t == u,
        (Slot::Dyn(t), Slot::Dyn(u)) => t == u,
        (Slot::CallTo(t, r), Slot::CallTo(u, q)) => t == u && r == q,
        (Slot::CallDyn(r), Slot::CallDyn(q)) => r == q,
        _ => false,
    }
}

/// The number, counted from `start` on, of the first block of a label.
pub fn number_of(blocks: &[CBlock], start: usize, to: &Point) -> Option<usize>
    requires { start + length blocks.now < 2 ^ 64 }
    ensures number { result ≡ index_from start blocks.now to.now }
    ensures block { block_of blocks.now to.now ≡ option_and_then (λ k. slice_get blocks.now (k - start)) result }
{
    index_of(blocks, start, to)
}

/// The same number.
fn index_of(blocks: &[CBlock], start: usize, to: &Point) -> Option<usize>
    requires { start + length blocks.now < 2 ^ 64 }
    ensures { result ≡ index_from start blocks.now to.now }
{
    for (i, b) in blocks.iter().enumerate() {
        if is_same_point(&b.label, to) {
            return Some(start + i);
        }
    }
    None
}

/// Adds the number of the block that each label of an end leads to, where the blocks are numbered from `start` on.
pub fn add_ways(
    ways: &mut Items<Option<usize>>,
    blocks: &[CBlock],
    start: usize,
    end: &End,
) -> Result<(), AllocError>
    requires { start + length blocks.now < 2 ^ 64 }
    ensures { OnOk result (ways.new ≡ ways.old ++ ways_from start blocks.now (points_of end.now)) }
{
    match end {
        End::Goto(to) => ways.push(number_of(blocks, start, to)),
        End::Branch(_, first, second) => add_two(ways, blocks, start, first, second),
        End::Switch(_, cases, _, _) => add_cases(ways, blocks, start, cases.as_slice()),
        End::Return => Ok(()),
        End::Finish(_, _) => Ok(()),
    }
}

/// Adds the numbers of the blocks that two labels lead to.
fn add_two(
    ways: &mut Items<Option<usize>>,
    blocks: &[CBlock],
    start: usize,
    first: &Point,
    second: &Point,
) -> Result<(), AllocError>
    requires { start + length blocks.now < 2 ^ 64 }
    ensures { OnOk result (ways.new ≡ ways.old ++ ways_from start blocks.now (first.now ∷ second.now ∷ [])) }
{
    ways.push(number_of(blocks, start, first))?;
    ways.push(number_of(blocks, start, second))
}

/// Adds the number of the block that each case leads to.
fn add_cases(
    ways: &mut Items<Option<usize>>,
    blocks: &[CBlock],
    start: usize,
    cases: &[Case],
) -> Result<(), AllocError>
    requires { start + length blocks.now < 2 ^ 64 }
    ensures { OnOk result (ways.new ≡ ways.old ++ ways_from start blocks.now (map (λ c. c.to) cases.now)) }
{
    for c in cases {
        ways.push(number_of(blocks, start, &c.to))?;
    }
    Ok(())
}
