//! The search for the table of a jump.
ghost use Rattle.std.specs.Prelude.{ℕ, ◌≡◌, ◌≤◌, ◌<◌, ◌^◌, ◌++◌, ◌||◌, ◌↔◌, false, length, nat_lt, replicate, slice_index, slice_index_or, slice_set, option_to_list, option_map, true, IfNone, IfOk, IfSome, IsTrue, None, Some, OnOk};
ghost use Rattle.points.specs.PartialRuns.{all_partly_done};
ghost use Rattle.points.specs.Tables.{IsLeaving, StaysWithin, IsBounded, GivesCode, EndsAt, AreTargets, most_before};
ghost use Rattle.rtl_core.specs.SoundTerms.{AreWidths};
ghost use Rattle.points.specs.Bundles.{setting_of};
ghost use Rattle.jumptables.specs.Influence.{way_decides};
ghost use Rattle.jumptables.specs.Links.{link_at, walked, counted, mention};
ghost use Rattle.jumptables.specs.Runs.{state, end_of, HasRoom, IsWhole};
ghost use Rattle.jumptables.specs.Search.{sought, IsSearchable, IsTried, runs, idle_of, FindsLeast, FindsBound, known_below, StaysInCode, Suits, SuitsIdly, Works, IsGood, FindsFirstOf, FindsFirst, Ends, IsTableBy, FindsTable, IsTableFound};

use crate::influence::spread;
use crate::links::{Link, farthest};
use crate::partial_run::{PartialRun, RunEnd};
use crate::values::flag;
use decode::Bundle;
use sqlite_items::Items;
use std::alloc::{AllocError, Global};
use worklist::ascending;

/// The most instructions of a chain before its jump.
const MOST_BEFORE: usize = 11;

/// The greatest number that is tried for a bound.
const MOST_TRIED: u64 = 1024;

/// The most targets of a table without a bound.
const MOST_OPEN: u64 = 256;

/// What a chain with a cell may be: bounded by the numbers in its cell, or open.
#[derive(Clone, Copy, PartialEq, Eq)]
pub enum Kind {
    Bounded,
    Open,
}

/// The start of a chain, and a cell.
#[derive(Clone, Copy)]
pub struct Choice {
    pub start: u32,
    pub cell: u8,
}

/// What the search for one table reads: the jump at an address, and by the number of bytes before it the instructions
/// that may stand in a chain.
#[derive(Drop)]
pub struct Search<'a> {
    pub on: Bundle<'a>,
    pub at: u32,
    pub jump: Link,
    pub links: Items<Option<Link>>,
}

impl<'a> Search<'a> {
    /// The table: that of the first chain with a cell that is bounded; where none is, that of the first that is open;
    /// else an empty one.
    pub fn table(&self, alloc: Global) -> Result<Vec<u32>, AllocError>
        requires searchable { IsSearchable (sought self.now) }
        ensures { IfOk result (λ v. IsTableFound (sought self.now) v.items) }
    {
        let mut run = PartialRun::new(alloc, self.on.machine)?;
        if let Some(table) = self.table_by(alloc, Kind::Bounded, &mut run)? {
            return Ok(table);
        }
        if let Some(table) = self.table_by(alloc, Kind::Open, &mut run)? {
            return Ok(table);
        }
        Ok(Vec::new(alloc))
    }

    /// The table of the first chain with a cell of a kind, where there is one.
    fn table_by(
        &self,
        alloc: Global,
        kind: Kind,
        run: &mut PartialRun,
    ) -> Result<Option<Vec<u32>>, AllocError>
        requires searchable { IsSearchable (sought self.now) }
        requires room { HasRoom self.now.on.machine.now (state run.old) }
        ensures table { IfOk result (λ o. FindsTable (sought self.now) kind (option_map (λ v. v.items) o)) }
        ensures room { HasRoom self.now.on.machine.now (state run.new) }
    {
        match self.first(kind, run) {
            Some(choice) => {
                let end = self.end(kind, choice.start, choice.cell, run);
                let table = self.targets(alloc, choice.start, choice.cell, end, run)?;
                Ok(Some(table))
            }
            None => Ok(None),
        }
    }

    /// The first chain with a cell of a kind: the shortest, then the nearest to the jump, then with the lowest cell.
    fn first(&self, kind: Kind, run: &mut PartialRun) -> Option<Choice>
        requires searchable { IsSearchable (sought self.now) }
        requires room { HasRoom self.now.on.machine.now (state run.old) }
        ensures first { FindsFirst (sought self.now) kind result }
        ensures room { HasRoom self.now.on.machine.now (state run.new) }
    {
        for count in 0..MOST_BEFORE + 1 {
            if let Some(choice) = self.first_of(kind, count, run) {
                return Some(choice);
            }
        }
        None
    }

    /// The first chain with a cell of a kind among those of so many instructions before the jump.
    fn first_of(&self, kind: Kind, count: usize, run: &mut PartialRun) -> Option<Choice>
        requires searchable { IsSearchable (sought self.now) }
        requires room { HasRoom self.now.on.machine.now (state run.old) }
        ensures first { FindsFirstOf (sought self.now) kind count result }
        ensures room { HasRoom self.now.on.machine.now (state run.new) }
    {
        for back in 0..farthest(self.at) + 1 {
            let start = self.at - back;
            if let Some(cell) = self.cell_of(kind, count, start, run) {
                return Some(Choice { start, cell });
            }
        }
        None
    }

    /// The lowest cell with which the chain from a start is of a kind, where it has so many instructions before the jump.
    fn cell_of(&self, kind: Kind, count: usize, start: u32, run: &mut PartialRun) -> Option<u8>
        requires searchable { IsSearchable (sought self.now) }
        requires room { HasRoom self.now.on.machine.now (state run.old) }
        ensures least { FindsLeast (IsGood (sought self.now) kind count start) result }
        ensures room { HasRoom self.now.on.machine.now (state run.new) }
    {
        let Some(found) = self.count(start) else {
            return None;
        };
        if found != count {
            return None;
        }
        self.first_cell(kind, start, run)
    }

    /// The lowest cell with which the way from a start is of a kind.
    fn first_cell(&self, kind: Kind, start: u32, run: &mut PartialRun) -> Option<u8>
        requires searchable { IsSearchable (sought self.now) }
        requires room { HasRoom self.now.on.machine.now (state run.old) }
        ensures least { FindsLeast (Works (sought self.now) kind start) result }
        ensures room { HasRoom self.now.on.machine.now (state run.new) }
    {
        let idly = self.suits_idly(kind, start, run);
        for cell in 0..self.on.machine.widths.len() as u8 {
            if self.works(kind, start, cell, idly, run) {
                return Some(cell);
            }
        }
        None
    }

    /// Whether the way from a start is of a kind with a cell, which is not the zero cell.
    fn works(&self, kind: Kind, start: u32, cell: u8, idly: bool, run: &mut PartialRun) -> bool
        requires searchable { IsSearchable (sought self.now) }
        requires cell { cell < length self.now.on.machine.now.widths }
        requires idly { IsTrue idly ↔ SuitsIdly self.now.on.frozen.now kind (idle_of (sought self.now) start) }
        requires room { HasRoom self.now.on.machine.now (state run.old) }
        ensures works { IsTrue result ↔ Works (sought self.now) kind start cell }
        ensures room { HasRoom self.now.on.machine.now (state run.new) }
    {
        self.on.machine.zero != Some(cell) && self.suits_with(kind, start, cell, idly, run)
    }

    /// Whether the way from a start is of a kind with a cell, given whether it is with a cell that it does not mention.
    fn suits_with(&self, kind: Kind, start: u32, cell: u8, idly: bool, run: &mut PartialRun) -> bool
        requires searchable { IsSearchable (sought self.now) }
        requires cell { IsTried (sought self.now) cell }
        requires idly { IsTrue idly ↔ SuitsIdly self.now.on.frozen.now kind (idle_of (sought self.now) start) }
        requires room { HasRoom self.now.on.machine.now (state run.old) }
        ensures suits { IsTrue result ↔ Suits self.now.on.frozen.now kind (runs (sought self.now) start cell) }
        ensures room { HasRoom self.now.on.machine.now (state run.new) }
    {
        if self.mentions(start, cell) {
            self.suits(kind, start, cell, run)
        } else {
            idly
        }
    }

    /// Whether the way from a start is of a kind with a cell.
    fn suits(&self, kind: Kind, start: u32, cell: u8, run: &mut PartialRun) -> bool
        requires searchable { IsSearchable (sought self.now) }
        requires cell { IsTried (sought self.now) cell }
        requires room { HasRoom self.now.on.machine.now (state run.old) }
        ensures suits { IsTrue result ↔ Suits self.now.on.frozen.now kind (runs (sought self.now) start cell) }
        ensures room { HasRoom self.now.on.machine.now (state run.new) }
    {
        match kind {
            Kind::Bounded => self.bound(start, cell, run).is_some(),
            Kind::Open => {
                let first = self.run(start, cell, 0, run);
                self.stays_in_code(&first)
            }
        }
    }

    /// Whether the way from a start is of a kind with a cell that it does not mention; none is bounded.
    fn suits_idly(&self, kind: Kind, start: u32, run: &mut PartialRun) -> bool
        requires searchable { IsSearchable (sought self.now) }
        requires room { HasRoom self.now.on.machine.now (state run.old) }
        ensures suits { IsTrue result ↔ SuitsIdly self.now.on.frozen.now kind (idle_of (sought self.now) start) }
        ensures room { HasRoom self.now.on.machine.now (state run.new) }
    {
        match kind {
            Kind::Bounded => false,
            Kind::Open => {
                let end = self.run_idly(start, run);
                self.stays_in_code(&end)
            }
        }
    }

    /// The least number for which the run leaves, where the run for 0 stays within.
    fn bound(&self, start: u32, cell: u8, run: &mut PartialRun) -> Option<u64>
        requires searchable { IsSearchable (sought self.now) }
        requires cell { IsTried (sought self.now) cell }
        requires room { HasRoom self.now.on.machine.now (state run.old) }
        ensures bound { FindsBound (runs (sought self.now) start cell) result }
        ensures room { HasRoom self.now.on.machine.now (state run.new) }
    {
        let first = self.run(start, cell, 0, run);
        if !stays_within(&first) {
            return None;
        }
        if !self.influences(start, cell, run) {
            return None;
        }
        self.leaving(start, cell, run)
    }

    /// Whether the number in a cell can decide what is done on the way from a start; where it can not, the runs leave for
    /// each number or for none.
    fn influences(&self, start: u32, cell: u8, run: &mut PartialRun) -> bool
        requires room { HasRoom self.now.on.machine.now (state run.old) }
        requires cell { IsTried (sought self.now) cell }
        ensures influences { result ≡ way_decides self.now.links self.now.at most_before start (slice_set (replicate (length self.now.on.machine.now.widths) false) cell true) }
        ensures room { HasRoom self.now.on.machine.now (state run.new) }
    {
        run.flag_only(cell);
        self.decides(start, &mut run.known)
    }

    /// Whether cells with a flag decide what is done on the way from a start; flags are spent.
    fn decides(&self, start: u32, flags: &mut Items<bool>) -> bool
        ensures decides { result ≡ way_decides self.now.links self.now.at most_before start flags.old }
        ensures count { length flags.new ≡ length flags.old }
    {
        let mut pc = start;
        for k in 0..MOST_BEFORE {
            let Some(link) = self.link(pc) else {
                return false;
            };
            if spread(flags, link.inst.transfers.as_slice()) {
                return true;
            }
            pc = link.inst.next;
        }
        false
    }

    /// The least number, up to the greatest that is tried, for which the run leaves.
    fn leaving(&self, start: u32, cell: u8, run: &mut PartialRun) -> Option<u64>
        requires searchable { IsSearchable (sought self.now) }
        requires cell { IsTried (sought self.now) cell }
        requires room { HasRoom self.now.on.machine.now (state run.old) }
        ensures least { FindsLeast (IsLeaving (runs (sought self.now) start cell)) result }
        ensures room { HasRoom self.now.on.machine.now (state run.new) }
    {
        for x in 0..MOST_TRIED + 1 {
            if self.run(start, cell, x, run).leaves {
                return Some(x);
            }
        }
        None
    }

    /// The first number without a known target in code, or the most.
    fn open_end(&self, start: u32, cell: u8, run: &mut PartialRun) -> u64
        requires searchable { IsSearchable (sought self.now) }
        requires cell { IsTried (sought self.now) cell }
        requires room { HasRoom self.now.on.machine.now (state run.old) }
        ensures ends { EndsAt self.now.on.frozen.now (runs (sought self.now) start cell) result }
        ensures room { HasRoom self.now.on.machine.now (state run.new) }
    {
        for x in 0..MOST_OPEN {
            let end = self.run(start, cell, x, run);
            if !self.gives_code(&end) {
                return x;
            }
        }
        MOST_OPEN
    }

    /// Where the table of a start with a cell ends: its numbers are those below.
    fn end(&self, kind: Kind, start: u32, cell: u8, run: &mut PartialRun) -> u64
        requires searchable { IsSearchable (sought self.now) }
        requires works { Works (sought self.now) kind start cell }
        requires room { HasRoom self.now.on.machine.now (state run.old) }
        ensures ends { Ends self.now.on.frozen.now kind (runs (sought self.now) start cell) result }
        ensures room { HasRoom self.now.on.machine.now (state run.new) }
    {
        match kind {
            Kind::Bounded => self.bound(start, cell, run).unwrap_or(0),
            Kind::Open => self.open_end(start, cell, run),
        }
    }

    /// The known targets for the numbers below one, ascending, each once.
    fn targets(
        &self,
        alloc: Global,
        start: u32,
        cell: u8,
        end: u64,
        run: &mut PartialRun,
    ) -> Result<Vec<u32>, AllocError>
        requires searchable { IsSearchable (sought self.now) }
        requires cell { IsTried (sought self.now) cell }
        requires room { HasRoom self.now.on.machine.now (state run.old) }
        ensures targets { IfOk result (λ v. AreTargets (runs (sought self.now) start cell) end v.items) }
        ensures room { HasRoom self.now.on.machine.now (state run.new) }
    {
        let known = self.known_targets(alloc, start, cell, end, run)?;
        let targets = ascending(alloc, &known)?;
        Ok(targets)
    }

    /// The known targets for the numbers below one, in the order of the numbers.
    fn known_targets(
        &self,
        alloc: Global,
        start: u32,
        cell: u8,
        end: u64,
        run: &mut PartialRun,
    ) -> Result<Vec<u32>, AllocError>
        requires searchable { IsSearchable (sought self.now) }
        requires cell { IsTried (sought self.now) cell }
        requires room { HasRoom self.now.on.machine.now (state run.old) }
        ensures known { IfOk result (λ v. v.items ≡ known_below (runs (sought self.now) start cell) end) }
        ensures room { HasRoom self.now.on.machine.now (state run.new) }
    {
        let mut known = Vec::new(alloc);
        for x in 0..end {
            push_known(&mut known, self.run(start, cell, x, run).target)?;
        }
        Ok(known)
    }

    /// Whether a run stays and gives a target in code.
    fn stays_in_code(&self, end: &RunEnd) -> bool
        ensures { IsTrue result ↔ StaysInCode self.now.on.frozen.now (end_of end.now) }
    {
        !end.leaves && self.gives_code(end)
    }

    /// Whether a run gives a target in code.
    fn gives_code(&self, end: &RunEnd) -> bool
        ensures { IsTrue result ↔ GivesCode self.now.on.frozen.now (end_of end.now) }
    {
        match end.target {
            Some(target) => self.on.frozen.in_code(target),
            None => false,
        }
    }

    /// What the run from a start comes to with a number in a cell; one that does not fit the cell leads nowhere.
    #[tactic(auto, unfolding(points::specs::PartialRuns::partial_end))]
    fn run(&self, start: u32, cell: u8, x: u64, run: &mut PartialRun) -> RunEnd
        requires searchable { IsSearchable (sought self.now) }
        requires cell { IsTried (sought self.now) cell }
        requires room { HasRoom self.now.on.machine.now (state run.old) }
        ensures is { end_of result ≡ runs (sought self.now) start cell x }
        ensures room { HasRoom self.now.on.machine.now (state run.new) }
    {
        if !self.fits(cell, x) {
            return RunEnd {
                leaves: false,
                untaken: false,
                target: None,
            };
        }
        run.begin(&self.on, cell, x);
        self.lead_up(start, run);
        run.end(&self.on, &self.jump.inst)
    }

    /// What the run from a start comes to with a cell that it does not mention.
    fn run_idly(&self, start: u32, run: &mut PartialRun) -> RunEnd
        requires searchable { IsSearchable (sought self.now) }
        requires room { HasRoom self.now.on.machine.now (state run.old) }
        ensures is { end_of result ≡ idle_of (sought self.now) start }
        ensures room { HasRoom self.now.on.machine.now (state run.new) }
    {
        run.begin_idly(&self.on);
        self.lead_up(start, run);
        run.end(&self.on, &self.jump.inst)
    }

    /// Whether a number fits a cell.
    fn fits(&self, cell: u8, x: u64) -> bool
        requires widths { AreWidths self.now.on.machine.now.widths }
        requires cell { IsTried (sought self.now) cell }
        ensures { result ≡ nat_lt x (2 ^ slice_index self.now.on.machine.now.widths cell) }
    {
        let bits = self.on.machine.widths.as_slice()[usize::from(cell)].bits();
        u128::from(x) < 1 << bits
    }

    /// The instructions on the way from a start, one after another.
    fn lead_up(&self, start: u32, run: &mut PartialRun)
        requires searchable { IsSearchable (sought self.now) }
        requires whole { IsWhole self.now.on.machine.now (state run.old) }
        ensures leads { state run.new ≡ all_partly_done (setting_of self.now.on) (walked self.now.links self.now.at most_before start) (state run.old) }
        ensures whole { IsWhole self.now.on.machine.now (state run.new) }
    {
        let mut pc = start;
        for k in 0..MOST_BEFORE {
            let Some(link) = self.link(pc) else {
                return;
            };
            run.pass_or_do(&self.on, &link.inst);
            pc = link.inst.next;
        }
    }

    /// How many instructions stand before the jump on the way from a start; `None` where it does not lead to the jump.
    fn count(&self, start: u32) -> Option<usize>
        ensures { result ≡ counted self.now.links self.now.at most_before start }
    {
        let mut pc = start;
        for k in 0..MOST_BEFORE {
            if pc == self.at {
                return Some(k);
            }
            let Some(link) = self.link(pc) else {
                return None;
            };
            pc = link.inst.next;
        }
        if pc == self.at {
            Some(MOST_BEFORE)
        } else {
            None
        }
    }

    /// Whether the jump or an instruction on the way from a start mentions a cell.
    fn mentions(&self, start: u32, cell: u8) -> bool
        ensures { result ≡ (slice_index_or self.now.jump.mentioned cell false || mention self.now.links self.now.at cell most_before start) }
    {
        if flag(self.jump.mentioned.as_slice(), cell) {
            return true;
        }
        let mut pc = start;
        for k in 0..MOST_BEFORE {
            let Some(link) = self.link(pc) else {
                return false;
            };
            if flag(link.mentioned.as_slice(), cell) {
                return true;
            }
            pc = link.inst.next;
        }
        false
    }

    /// The instruction kept for an address before the jump.
    fn link(&self, pc: u32) -> Option<&Link>
        ensures none { IfNone result (link_at self.now.links self.now.at pc ≡ None) }
        ensures some { IfSome result (λ link. link_at self.now.links self.now.at pc ≡ Some link.now) }
    {
        if pc >= self.at {
            return None;
        }
        let back = (self.at - pc) as usize;
        if back >= self.links.len() {
            return None;
        }
        match &self.links.as_slice()[back] {
            Some(link) => Some(link),
            None => None,
        }
    }
}

/// Whether a run stays, with a jump known untaken and a known target.
fn stays_within(end: &RunEnd) -> bool
    ensures { IsTrue result ↔ StaysWithin (end_of end.now) }
{
    !end.leaves && end.untaken && end.target.is_some()
}

/// Puts a known target at the end of a list.
fn push_known(known: &mut Vec<u32>, target: Option<u32>) -> Result<(), AllocError>
    ensures { OnOk result (known.new.items ≡ known.old.items ++ option_to_list target) }
{
    if let Some(address) = target {
        known.push(address)?;
    }
    Ok(())
}
