//! Where the steps of the graph's nodes lead, found once: a step looks nothing up.
ghost use Rattle.std.specs.Prelude.{◌≡◌, IfOk};
ghost use Rattle.points.specs.declared.graph.Graph.{Graph};
ghost use Rattle.points.specs.declared.block.Block.TheVariants.{Inst};
ghost use Rattle.points.specs.Courses.{course as course_at};
ghost use Rattle.points.specs.Graphs.{points_of};
ghost use Rattle.graph_control.specs.Ways.{IsWay, IsCoursePlace, IsArrivalPlace, IsNodePlace, AreWaysOf, AreWays, way_of, jumps_in};

use crate::finding::place_in;
use points::{Block, Course, JumpKind, Node, course_of, sequential};
use rtl_core::{GroundInst, Machine, Point, Slot};
use std::alloc::{AllocError, Global};

/// A course, with the place of the node where it leads whatever the machine holds, or of the table of its computed jump.
#[derive(Clone, Copy, Debug, PartialEq, Eq)]
pub struct Way {
    pub course: Course,
    pub place: usize,
}

/// The ways of an instruction at a point, by whether it jumps and whether it annuls.
#[derive(Clone, Copy, Debug, PartialEq, Eq)]
pub struct Ways {
    pub stays: Way,
    pub annuls: Way,
    pub jumps: Way,
    pub both: Way,
}

impl Ways {
    /// The way of a step.
    pub fn of(&self, jumps: bool, annuls: bool) -> Way
        ensures { result ≡ way_of self.now jumps annuls }
    {
        match (jumps, annuls) {
            (false, false) => self.stays,
            (false, true) => self.annuls,
            (true, false) => self.jumps,
            (true, true) => self.both,
        }
    }
}

/// What the ways of a graph are found in: its points, and the addresses of its tables.
#[derive(Clone, Copy)]
pub struct Places<'a> {
    pub machine: &'a Machine,
    pub points: &'a [Point],
    pub jumps: &'a [u32],
}

impl<'a> Places<'a> {
    /// The ways of a node.
    fn ways_at(&self, node: &Node) -> Ways
        ensures { (g : Graph) → self.now.points.now ≡ points_of g.nodes → self.now.jumps.now ≡ jumps_in g →
            AreWaysOf self.now.machine.now g node.now.point node.now.block result }
    {
        match &node.block {
            Block::Inst(inst, kind) => self.ways_of(&node.point, inst, *kind),
            Block::Outside | Block::Illegal => no_ways(),
        }
    }

    /// The ways of an instruction that jumps so.
    fn ways_of(&self, point: &Point, inst: &GroundInst, kind: JumpKind) -> Ways
        ensures { (g : Graph) → self.now.points.now ≡ points_of g.nodes → self.now.jumps.now ≡ jumps_in g →
            AreWaysOf self.now.machine.now g point.now (Inst inst.now kind) result }
    {
        Ways {
            stays: self.way(point, inst.next, kind, false, false),
            annuls: self.way(point, inst.next, kind, false, true),
            jumps: self.way(point, inst.next, kind, true, false),
            both: self.way(point, inst.next, kind, true, true),
        }
    }

    /// One of them.
    fn way(&self, point: &Point, next: u32, kind: JumpKind, jumps: bool, annuls: bool) -> Way
        ensures { (g : Graph) → self.now.points.now ≡ points_of g.nodes → self.now.jumps.now ≡ jumps_in g →
            IsWay g (course_at self.now.machine.now point.now next kind jumps annuls) result }
    {
        let course = course_of(self.machine, point, next, kind, jumps, annuls);
        Way {
            course,
            place: self.course_place(course),
        }
    }

    /// The place that is kept for a course.
    fn course_place(&self, course: Course) -> usize
        ensures { (g : Graph) → self.now.points.now ≡ points_of g.nodes → self.now.jumps.now ≡ jumps_in g → IsCoursePlace g course result }
    {
        match course {
            Course::On(point) => place_in(self.points, &point),
            Course::Arrives(slot) => self.arrival_place(slot),
            Course::Couples => 0,
        }
    }

    /// The place that is kept for an arrival.
    fn arrival_place(&self, slot: Slot) -> usize
        ensures { (g : Graph) → self.now.points.now ≡ points_of g.nodes → self.now.jumps.now ≡ jumps_in g → IsArrivalPlace g slot result }
    {
        match slot {
            Slot::To(t) => place_in(self.points, &sequential(t)),
            Slot::CallTo(t, _) => place_in(self.points, &sequential(t)),
            Slot::Dyn(at) => place_in(self.jumps, &at),
            Slot::Seq | Slot::CallDyn(_) | Slot::Ret => 0,
        }
    }

    /// The ways of nodes, in their order. The error is want of memory.
    pub fn all(&self, alloc: Global, nodes: &[Node]) -> Result<Vec<Ways>, AllocError>
        ensures { (g : Graph) → self.now.points.now ≡ points_of g.nodes → self.now.jumps.now ≡ jumps_in g →
            IfOk result (λ v. AreWays self.now.machine.now g nodes.now v.items) }
    {
        let mut ways = Vec::with_capacity(alloc, nodes.len())?;
        for node in nodes {
            ways.push(self.ways_at(node))?;
        }
        Ok(ways)
    }
}

/// The ways of a node without an instruction, which makes no step.
fn no_ways() -> Ways {
    let nowhere = Way {
        course: Course::Couples,
        place: 0,
    };
    Ways {
        stays: nowhere,
        annuls: nowhere,
        jumps: nowhere,
        both: nowhere,
    }
}
