// A sink in memory.
ghost use Rattle.std.specs.Prelude.{◌≡◌, ◌≤◌, ◌<◌, [], length, IfOk};
ghost use Rattle.edge_io.specs.Counts.{HasCause};
ghost use Rattle.edge_io.specs.Output.{Takes};
ghost use Rattle.edge_io.specs.SinkState.{SinkState, output_of, sink_answer, sink_after};

use crate::{Failed, Sink};
use std::alloc::{AllocError, Global};
use std::marker::Model;

/// Keeps the bytes that its puts took, up to a room that it has from the start, with calls that fail
/// by their number.
#[derive(Drop)]
pub struct MemSink {
    taken: Vec<u8>,
    room: usize,
    piece: usize,
    fails: Vec<u64>,
    calls: u64,
    faults: u64,
}

impl Model for MemSink {
    ghost use Rattle.std.specs.Prelude.{◌≤◌, length, vec_capacity};
    ghost use Rattle.edge_io.specs.SinkState.{SinkState};

    ghost Value = { SinkState };

    ghost view = { λ s. record {
      taken = s.taken.items;
      room = s.room;
      piece = s.piece;
      fails = s.fails.items;
      calls = s.calls;
      faults = s.faults;
    } };

    ghost invariant = { λ s. record {
      within : length s.taken.items ≤ s.room;
      held : s.room ≤ vec_capacity s.taken;
      moves : 1 ≤ s.piece;
    } };
}

impl MemSink {
    /// A sink that has room for `room` bytes, of which a call moves at most `piece`. It takes memory
    /// for them now and none later. The calls whose numbers, from 1, are in `fails` fail, and so do
    /// those that find no room.
    pub fn new(
        alloc: Global,
        room: usize,
        piece: usize,
        fails: Vec<u64>,
    ) -> Result<MemSink, AllocError>
        requires { 1 ≤ piece }
        ensures { IfOk result (λ s. s ≡ record {
          taken = [];
          room = room;
          piece = piece;
          fails = fails.items;
          calls = 0;
          faults = 0;
        }) }
    {
        Ok(MemSink {
            taken: Vec::with_capacity(alloc, room)?,
            room,
            piece,
            fails,
            calls: 0,
            faults: 0,
        })
    }

    /// The bytes that its puts took.
    pub fn bytes(&self) -> &[u8]
        ensures { result.now ≡ self.now.taken }
    {
        self.taken.as_slice()
    }
}

impl Sink for MemSink {
    ghost output = { output_of };

    fn put(&mut self, piece: &[u8]) -> Result<usize, Failed>
        requires { 0 < length piece.now }
        ensures some { IfOk result (λ n. 0 < n) }
        ensures bound { IfOk result (λ n. n ≤ length piece.now) }
        ensures bytes { Takes (output_of self.old).taken (output_of self.new).taken result piece.now }
        ensures cause { HasCause self.old.faults self.new.faults result }

        // Exactly this.
        ensures answer { result ≡ sink_answer self.old piece.now }
        ensures after { self.new ≡ sink_after self.old piece.now }
    {
        self.calls = self.calls.saturating_add(1);
        if self.fails.as_slice().contains(&self.calls) || self.room <= self.taken.len() {
            self.faults = self.faults.saturating_add(1);
            return Err(Failed);
        }
        let room_left = self.room - self.taken.len();
        let count = piece.len().min(self.piece.min(room_left));
        let (front, _) = piece.split_at(count);
        match self.taken.extend_from_slice(front) {
            Ok(()) => Ok(count),
            Err(_) => unreachable!(),
        }
    }
}
