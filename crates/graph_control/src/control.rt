//! Where control goes behind an instruction: along the ways of its node, and by the call list.
ghost use Rattle.std.specs.Prelude.{◌≡◌, ◌==◌, ◌∷◌, Some, List, ℕ, slice_get};
ghost use Rattle.std.specs.List.{All, list_any};
ghost use Rattle.std.specs.Ordering.{nat_cmp};
ghost use Rattle.points.specs.declared.block.Member.TheVariants.{Call};
ghost use Rattle.points.specs.declared.block.Next.TheVariants.{Table};
ghost use Rattle.points.specs.declared.graph.JumpTable.{JumpTable};
ghost use Rattle.points.specs.Control.{Flow, followed, arrived, jumped, entered_any, returned, is_return_point, is_second};
ghost use Rattle.points.specs.Courses.{arrival_next, course_next};
ghost use Rattle.graph_control.specs.Finding.{IsPlace};
ghost use Rattle.graph_control.specs.Programs.{ComesBack, IsFlowOf, IsOpen, program_of, Steers, IsSteered};
ghost use Rattle.graph_control.specs.Charts.{control_of, chart_of};
ghost use Rattle.graph_control.specs.Ways.{IsLookup, IsCoursePlace, IsArrivalPlace, jumps_in};

use crate::charted::Charted;
use crate::position::Position;
use crate::ways::Way;
use points::{Course, Member};
use rtl_core::{Slot, Stop};

impl<'a> Charted<'a> {
    /// Control takes a way.
    pub fn follow(&self, position: &mut Position, way: &Way) -> Option<Stop>
        requires { IsLookup (chart_of self.now) self.now.lookup.now }
        ensures { (f : Flow) (roots : List ℕ) → Steers (chart_of self.now) f roots position.old (course_next way.now.course) → IsCoursePlace self.now.graph.now way.now.course way.now.place →
            IsSteered (chart_of self.now) (followed f way.now.course (control_of position.old)) result position.new }
    {
        match way.course {
            Course::On(point) => {
                position.go(point, way.place);
                None
            }
            Course::Arrives(slot) => self.arrive(position, slot, way.place),
            Course::Couples => Some(Stop::Couple(position.point.pc)),
        }
    }

    /// The arrival of a jump, with the place that is kept for it.
    fn arrive(&self, position: &mut Position, slot: Slot, place: usize) -> Option<Stop>
        requires { IsLookup (chart_of self.now) self.now.lookup.now }
        ensures { (f : Flow) (roots : List ℕ) → Steers (chart_of self.now) f roots position.old (arrival_next slot) → IsArrivalPlace self.now.graph.now slot place →
            IsSteered (chart_of self.now) (arrived f slot (control_of position.old)) result position.new }
    {
        match slot {
            Slot::Seq => Some(Stop::Couple(position.point.pc)),
            Slot::To(t) => {
                position.go_at(t, place);
                None
            }
            Slot::Dyn(_) => self.jump(position, place),
            Slot::CallTo(t, back) => position.enter(t, place, Member::Call(back)),
            Slot::CallDyn(back) => self.enter_any(position, Member::Call(back)),
            Slot::Ret => self.return_back(position),
        }
    }

    /// A computed plain jump, by the place of its table: to a target in the table, or, where that is empty, into a procedure that
    /// returns in its place.
    fn jump(&self, position: &mut Position, place: usize) -> Option<Stop>
        requires { IsLookup (chart_of self.now) self.now.lookup.now }
        ensures { (f : Flow) (roots : List ℕ) (a : ℕ) → Steers (chart_of self.now) f roots position.old (Table a) → IsPlace nat_cmp (jumps_in self.now.graph.now) a place →
            IsSteered (chart_of self.now) (jumped f (f.table a) (control_of position.old)) result position.new }
    {
        let targets = self.table(place);
        if targets.is_empty() {
            return self.enter_any(position, Member::Tail);
        }
        let target = position.target;
        if has(targets, target) {
            position.go_at(target, self.lookup.place_of(target));
            return None;
        }
        Some(Stop::Undiscovered(target))
    }

    /// The targets in the table at a place; none where there is no table.
    fn table(&self, place: usize) -> &'a [u32]
        ensures { (t : JumpTable) → slice_get self.now.graph.now.tables place ≡ Some t → result.now ≡ t.targets }
    {
        match self.graph.tables.get(place) {
            Some(table) => table.targets.as_slice(),
            None => &[],
        }
    }

    /// The procedure at a computed target is entered, where one begins there.
    fn enter_any(&self, position: &mut Position, member: Member) -> Option<Stop>
        requires { IsLookup (chart_of self.now) self.now.lookup.now }
        ensures { (f : Flow) (roots : List ℕ) → IsFlowOf (chart_of self.now) roots f →
            IsSteered (chart_of self.now) (entered_any f member (control_of position.old)) result position.new }
    {
        let target = position.target;
        if self.lookup.is_entry(target) {
            return position.enter(target, self.lookup.place_of(target), member);
        }
        Some(Stop::Undiscovered(target))
    }

    /// A return: it ends the last open call and all that was entered for it since.
    fn return_back(&self, position: &mut Position) -> Option<Stop>
        requires { IsLookup (chart_of self.now) self.now.lookup.now }
        ensures { (f : Flow) (roots : List ℕ) → IsFlowOf (chart_of self.now) roots f → All (IsOpen (program_of f) roots) position.old.calls →
            IsSteered (chart_of self.now) (returned f.setting position.old.calls (control_of position.old)) result position.new }
    {
        match position.calls.pop_call() {
            Some(back) => self.return_to(position, back),
            None => Some(Stop::ReturnMismatch(position.target)),
        }
    }

    /// A return to one of the return points of an open call that is taken off the list.
    fn return_to(&self, position: &mut Position, back: u32) -> Option<Stop>
        requires { IsLookup (chart_of self.now) self.now.lookup.now }
        ensures { (f : Flow) (roots : List ℕ) → IsFlowOf (chart_of self.now) roots f → ComesBack (program_of f) roots back →
            IsSteered (chart_of self.now) (returned f.setting (Call back ∷ position.old.calls) (control_of position.old)) result position.new }
    {
        let target = position.target;
        if self.is_return_point(back, target) {
            position.go_at(target, self.lookup.place_of(target));
            return None;
        }
        Some(Stop::ReturnMismatch(target))
    }

    /// Whether a target is a return address or the second return point of it.
    fn is_return_point(&self, back: u32, target: u32) -> bool
        requires { IsLookup (chart_of self.now) self.now.lookup.now }
        ensures { (f : Flow) (roots : List ℕ) → IsFlowOf (chart_of self.now) roots f → ComesBack (program_of f) roots back → result ≡ is_return_point f.setting back target }
    {
        back == target || is_second(self.lookup.second(&self.graph.pads, back), target)
    }
}

/// Whether the second return point is this target.
fn is_second(second: Option<u32>, target: u32) -> bool
    ensures { result ≡ is_second second target }
{
    match second {
        None => false,
        Some(address) => address == target,
    }
}

/// Whether a target stands in a table.
fn has(targets: &[u32], target: u32) -> bool
    ensures { result ≡ list_any (λ u. u == target) targets.now }
{
    targets.iter().any(|u| *u == target)
}
