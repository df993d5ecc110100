//! Where control is: the point with its place among the nodes, the target of the last jump, and the open calls.
ghost use Rattle.std.specs.Prelude.{◌≡◌, None};
ghost use Rattle.rtl_core.specs.declared.point.Slot.TheVariants.{Seq};
ghost use Rattle.points.specs.Control.{entered, kept};
ghost use Rattle.points.specs.Courses.{point as point_of};
ghost use Rattle.graph_control.specs.Charts.{control_of, led};

use crate::calls::{Calls, MOST_CALLS};
use points::Member;
use rtl_core::{Point, Slot, Stop};

/// Where control is. The place is that of the point among the nodes of the graph.
#[derive(Drop)]
pub struct Position {
    pub point: Point,
    pub place: usize,
    pub target: u32,
    pub calls: Calls,
}

impl Position {
    /// Control goes on at a point.
    pub fn go(&mut self, point: Point, place: usize)
        ensures { self.new ≡ record self.old { point = point; place = place } }
    {
        self.point = point;
        self.place = place;
    }

    /// Control goes on at an address, with nothing to come.
    pub fn go_at(&mut self, pc: u32, place: usize)
        ensures { self.new ≡ record self.old { point = point_of pc Seq; place = place } }
    {
        self.go(
            Point {
                pc,
                slot: Slot::Seq,
            },
            place,
        );
    }

    /// A procedure is entered for a member of the call list. `CallDepth` comes exactly where that has 65,536 members.
    pub fn enter(&mut self, pc: u32, place: usize, member: Member) -> Option<Stop>
        ensures moved { led result (control_of self.new) ≡ entered pc member (control_of self.old) }
        ensures place { result ≡ None → self.new.place ≡ place }
    {
        if self.calls.len() == MOST_CALLS {
            return Some(Stop::CallDepth);
        }
        self.calls.push(member);
        self.go_at(pc, place);
        None
    }

    /// A jump that was done leaves its target.
    pub fn keep(&mut self, jump: Option<u32>)
        ensures moved { control_of self.new ≡ kept jump (control_of self.old) }
        ensures place { self.new.place ≡ self.old.place }
    {
        self.target = jump.unwrap_or(self.target);
    }
}
