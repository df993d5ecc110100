// A source in memory.
ghost use Rattle.std.specs.Prelude.{◌≡◌, ◌≤◌, ◌<◌, length, drop, IfOk, OnErr};
ghost use Rattle.edge_io.specs.Counts.{HasCause};
ghost use Rattle.edge_io.specs.Input.{Gives, given_after, EndsAt};
ghost use Rattle.edge_io.specs.SourceState.{SourceState, input_of, source_answer, source_after};

use crate::{Failed, Source};
use std::marker::Model;

/// Gives bytes in memory, with calls that fail by their number.
#[derive(Drop)]
pub struct MemSource {
    bytes: Vec<u8>,
    at: usize,
    piece: usize,
    fails: Vec<u64>,
    calls: u64,
    given: u64,
    faults: u64,
}

impl Model for MemSource {
    ghost use Rattle.std.specs.Prelude.{◌≤◌, length, drop};
    ghost use Rattle.edge_io.specs.SourceState.{SourceState};

    ghost Value = { SourceState };

    ghost view = { λ s. record {
      left = drop s.at s.bytes.items;
      piece = s.piece;
      fails = s.fails.items;
      calls = s.calls;
      given = s.given;
      faults = s.faults;
    } };

    ghost invariant = { λ s. (s.at ≤ length s.bytes.items) × (1 ≤ s.piece) };
}

impl MemSource {
    /// A source of these bytes, of which a call moves at most `piece`. The calls whose numbers, from
    /// 1, are in `fails` fail.
    pub fn new(bytes: Vec<u8>, piece: usize, fails: Vec<u64>) -> MemSource
        requires { 1 ≤ piece }
        ensures { result ≡ record {
          left = bytes.items;
          piece = piece;
          fails = fails.items;
          calls = 0;
          given = 0;
          faults = 0;
        } }
    {
        MemSource {
            bytes,
            at: 0,
            piece,
            fails,
            calls: 0,
            given: 0,
            faults: 0,
        }
    }
}

impl Source for MemSource {
    ghost input = { input_of };

    fn take(&mut self, buf: &mut [u8]) -> Result<usize, Failed>
        requires { 0 < length buf.old }
        ensures bound { IfOk result (λ n. n ≤ length buf.old) }
        ensures bytes { Gives (input_of self.old).left (input_of self.new).left result buf.new }
        ensures others { IfOk result (λ n. drop n buf.new ≡ drop n buf.old) }
        ensures end { IfOk result (EndsAt (input_of self.old).left) }
        ensures given { self.new.given ≡ given_after self.old.given result }
        ensures cause { HasCause self.old.faults self.new.faults result }
        ensures failed { OnErr result (buf.new ≡ buf.old) }

        // Exactly this.
        ensures answer { result ≡ source_answer self.old (length buf.old) }
        ensures after { self.new ≡ source_after self.old (length buf.old) }
    {
        self.calls = self.calls.saturating_add(1);
        if self.fails.as_slice().contains(&self.calls) {
            self.faults = self.faults.saturating_add(1);
            return Err(Failed);
        }
        let count = buf.len().min(self.piece.min(self.bytes.len() - self.at));
        buf[..count].copy_from_slice(&self.bytes[self.at..self.at + count]);
        self.at += count;
        self.given = self.given.saturating_add(count as u64);
        Ok(count)
    }
}
