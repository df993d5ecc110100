//! The nodes of a graph, and the return addresses of their calls.
ghost use Rattle.std.specs.Prelude.{◌≡◌, ◌++◌, ◌∷◌, [], map, IfOk, OnOk};
ghost use Rattle.std.specs.List.{flat_map};
ghost use Rattle.points.specs.Courses.{arrival_next};
ghost use Rattle.discover.specs.Parts.{node_at, backs_in, backs_at};
ghost use Rattle.discover.specs.Seen.{IsLook, AreLooks};

use crate::program::Program;
use crate::search::{Look, look_at};
use indexmap::IndexMap;
use points::{Next, Node, Point, Slot};
use std::alloc::{AllocError, Global};

/// Nodes, and the return addresses of the calls that are to come there or that control can make.
#[derive(Drop)]
pub struct Nodes {
    pub nodes: Vec<Node>,
    pub backs: Vec<u32>,
}

/// What was seen at a point; it is forgotten.
fn take_look<P: Program>(
    alloc: Global,
    program: &P,
    looks: &mut IndexMap<Point, Look>,
    point: &Point,
) -> Result<Look, AllocError>
    requires sound { P.sound program.now }
    requires looks { AreLooks (P.code program.now) looks.old.entries }
    ensures look { IfOk result (IsLook (P.code program.now) point.now) }
    ensures looks { AreLooks (P.code program.now) looks.new.entries }
{
    match looks.swap_remove(point) {
        Some(known) => Ok(known),
        None => look_at(alloc, program, point),
    }
}

/// Puts the return address of a call.
fn push_return(into: &mut Vec<u32>, next: Next) -> Result<(), AllocError>
    ensures { OnOk result (into.new.items ≡ into.old.items ++ backs_in next) }
{
    match next {
        Next::Calls(_, back) | Next::CallsAny(back) => {
            into.push(back)?;
            Ok(())
        }
        _ => Ok(()),
    }
}

/// Puts the return addresses of calls.
fn push_returns(into: &mut Vec<u32>, nexts: &[Next]) -> Result<(), AllocError>
    ensures { OnOk result (into.new.items ≡ into.old.items ++ flat_map backs_in nexts.now) }
{
    for next in nexts {
        push_return(into, *next)?;
    }
    Ok(())
}

/// Puts the return address of a call that is to come.
fn push_waiting(into: &mut Vec<u32>, slot: Slot) -> Result<(), AllocError>
    ensures { OnOk result (into.new.items ≡ into.old.items ++ backs_in (arrival_next slot)) }
{
    match slot {
        Slot::CallTo(_, back) | Slot::CallDyn(back) => {
            into.push(back)?;
            Ok(())
        }
        _ => Ok(()),
    }
}

/// Puts the node of a point, and the return addresses of the calls that are to come there or that control can make.
fn push_node(into: &mut Nodes, point: &Point, look: Look) -> Result<(), AllocError>
    ensures nodes { OnOk result (into.new.nodes.items ≡ into.old.nodes.items ++ (record { point = point.now; block = look.block }) ∷ []) }
    ensures backs { OnOk result (into.new.backs.items ≡ into.old.backs.items ++ flat_map backs_in (arrival_next point.now.slot ∷ look.nexts)) }
{
    push_waiting(&mut into.backs, point.slot)?;
    push_returns(&mut into.backs, look.nexts.as_slice())?;
    into.nodes.push(Node {
        point: *point,
        block: look.block,
    })?;
    Ok(())
}

/// The nodes of points.
pub fn nodes_of<P: Program>(
    alloc: Global,
    program: &P,
    looks: &mut IndexMap<Point, Look>,
    points: &[Point],
) -> Result<Nodes, AllocError>
    requires sound { P.sound program.now }
    requires looks { AreLooks (P.code program.now) looks.old.entries }
    ensures nodes { IfOk result (λ n. n.nodes.items ≡ map (node_at (P.code program.now)) points.now) }
    ensures backs { IfOk result (λ n. n.backs.items ≡ flat_map (backs_at (P.code program.now)) points.now) }
{
    let mut into = Nodes {
        nodes: Vec::new(alloc),
        backs: Vec::new(alloc),
    };
    for point in points {
        let look = take_look(alloc, program, looks, point)?;
        push_node(&mut into, point, look)?;
    }
    Ok(into)
}
