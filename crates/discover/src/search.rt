//! The search over places. It looks at each point once, and asks for each table once.
ghost use Rattle.std.specs.Prelude.{◌≡◌, ◌++◌, map, IfOk, OnOk};
ghost use Rattle.std.specs.List.{flat_map};
ghost use Rattle.discover.specs.Places.{place_at as seq_place, second_places, back_places, places_of, waiting_places, behind};
ghost use Rattle.discover.specs.Seen.{IsLook, AreLooks, AreTables};

use crate::place::{Place, place_at, start};
use crate::program::Program;
use indexmap::IndexMap;
use points::{Block, Next, Point, Slot};
use sqlite_items::Items;
use std::alloc::{AllocError, Global};
use worklist::Successors;

/// What stands at a point, and all that control can do there.
#[derive(Debug, Drop)]
pub struct Look {
    pub block: Block,
    pub nexts: Items<Next>,
}

/// A search through a program, with what it has seen.
#[derive(Drop)]
pub struct Search<'a, P> {
    pub program: &'a P,
    pub looks: IndexMap<Point, Look>,
    pub tables: IndexMap<u32, Items<u32>>,
}

/// A search that has seen nothing.
pub fn new_search<'a, P: Program>(alloc: Global, program: &'a P) -> Search<'a, P>
    ensures program { result.program.now ≡ program.now }
    ensures looks { AreLooks (P.code program.now) result.looks.entries }
    ensures tables { AreTables (P.code program.now) result.tables.entries }
{
    Search {
        program,
        looks: IndexMap::new(alloc),
        tables: IndexMap::new(alloc),
    }
}

/// Looks at a point.
pub fn look_at<P: Program>(alloc: Global, program: &P, point: &Point) -> Result<Look, AllocError>
    requires sound { P.sound program.now }
    ensures { IfOk result (IsLook (P.code program.now) point.now) }
{
    let block = program.block_at(alloc, point.pc)?;
    let nexts = program.after(alloc, point, &block)?;
    Ok(Look { block, nexts })
}

/// Puts the place of each target of a table.
fn push_targets(into: &mut Vec<Place>, entry: u32, targets: &[u32]) -> Result<(), AllocError>
    ensures { OnOk result (into.new.items ≡ into.old.items ++ map (seq_place entry) targets.now) }
{
    for target in targets {
        into.push(place_at(entry, *target))?;
    }
    Ok(())
}

/// Puts the places of the targets of a jump; its table is remembered.
fn push_table<P: Program>(
    alloc: Global,
    program: &P,
    tables: &mut IndexMap<u32, Items<u32>>,
    into: &mut Vec<Place>,
    entry: u32,
    at: u32,
) -> Result<(), AllocError>
    requires sound { P.sound program.now }
    requires tables { AreTables (P.code program.now) tables.old.entries }
    ensures places { OnOk result (into.new.items ≡ into.old.items ++ map (seq_place entry) ((P.code program.now).table at)) }
    ensures tables { AreTables (P.code program.now) tables.new.entries }
{
    if let Some(known) = tables.get(&at) {
        return push_targets(into, entry, known.as_slice());
    }
    let targets = program.table(alloc, at)?;
    push_targets(into, entry, targets.as_slice())?;
    tables.insert(at, targets)?;
    Ok(())
}

/// Puts the places behind a call with this return address.
fn push_back<P: Program>(
    program: &P,
    into: &mut Vec<Place>,
    entry: u32,
    back: u32,
) -> Result<(), AllocError>
    requires sound { P.sound program.now }
    ensures { OnOk result (into.new.items ≡ into.old.items ++ back_places (P.code program.now) entry back) }
{
    into.push(place_at(entry, back))?;
    if let Some(second) = program.second(back) {
        into.push(place_at(entry, second))?;
    }
    Ok(())
}

/// Puts the places to which one thing that control can do leads.
fn push_places<P: Program>(
    alloc: Global,
    program: &P,
    tables: &mut IndexMap<u32, Items<u32>>,
    into: &mut Vec<Place>,
    entry: u32,
    next: Next,
) -> Result<(), AllocError>
    requires sound { P.sound program.now }
    requires tables { AreTables (P.code program.now) tables.old.entries }
    ensures places { OnOk result (into.new.items ≡ into.old.items ++ places_of (P.code program.now) entry next) }
    ensures tables { AreTables (P.code program.now) tables.new.entries }
{
    match next {
        Next::Goes(point) => {
            into.push(Place { entry, point })?;
            Ok(())
        }
        Next::Table(at) => push_table(alloc, program, tables, into, entry, at),
        Next::Calls(target, back) => {
            into.push(start(target))?;
            push_back(program, into, entry, back)
        }
        Next::CallsAny(back) => push_back(program, into, entry, back),
        Next::Returns | Next::Couples => Ok(()),
    }
}

/// Puts the places to which all that control can do leads.
fn push_all_places<P: Program>(
    alloc: Global,
    program: &P,
    tables: &mut IndexMap<u32, Items<u32>>,
    into: &mut Vec<Place>,
    entry: u32,
    nexts: &[Next],
) -> Result<(), AllocError>
    requires sound { P.sound program.now }
    requires tables { AreTables (P.code program.now) tables.old.entries }
    ensures places { OnOk result (into.new.items ≡ into.old.items ++ flat_map (places_of (P.code program.now) entry) nexts.now) }
    ensures tables { AreTables (P.code program.now) tables.new.entries }
{
    for next in nexts {
        push_places(alloc, program, tables, into, entry, *next)?;
    }
    Ok(())
}

/// Puts the place that a call enters which is to come.
fn push_waiting(into: &mut Vec<Place>, slot: Slot) -> Result<(), AllocError>
    ensures { OnOk result (into.new.items ≡ into.old.items ++ waiting_places slot) }
{
    if let Slot::CallTo(target, _) = slot {
        into.push(start(target))?;
    }
    Ok(())
}

/// The places behind a place at which control can do this.
fn places_behind<P: Program>(
    alloc: Global,
    program: &P,
    tables: &mut IndexMap<u32, Items<u32>>,
    place: &Place,
    nexts: &[Next],
) -> Result<Vec<Place>, AllocError>
    requires sound { P.sound program.now }
    requires tables { AreTables (P.code program.now) tables.old.entries }
    ensures places { IfOk result (λ v. v.items ≡ waiting_places place.now.point.slot ++ flat_map (places_of (P.code program.now) place.now.entry) nexts.now) }
    ensures tables { AreTables (P.code program.now) tables.new.entries }
{
    let mut places = Vec::new(alloc);
    push_waiting(&mut places, place.point.slot)?;
    push_all_places(alloc, program, tables, &mut places, place.entry, nexts)?;
    Ok(places)
}

impl<'a, P: Program> Successors<Place> for Search<'a, P> {
    ghost next = { λ s place. behind (P.code s.program.now) place };

    ghost ready = { λ s. P.sound s.program.now × AreLooks (P.code s.program.now) s.looks.entries × AreTables (P.code s.program.now) s.tables.entries };

    ghost stays = { λ earlier s. s.program.now ≡ earlier.program.now };

    fn successors(&mut self, alloc: Global, place: &Place) -> Result<Vec<Place>, AllocError> {
        if let Some(known) = self.looks.get(&place.point) {
            let nexts = known.nexts.as_slice();
            return places_behind(alloc, self.program, &mut self.tables, place, nexts);
        }
        let look = look_at(alloc, self.program, &place.point)?;
        let nexts = look.nexts.as_slice();
        let places = places_behind(alloc, self.program, &mut self.tables, place, nexts)?;
        self.looks.insert(place.point, look)?;
        Ok(places)
    }
}
