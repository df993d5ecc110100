// A sink that gathers, and all of it put into another.
ghost use Rattle.std.specs.Prelude.{◌≡◌, ◌<◌, ◌≤◌, [], length, IfOk, OnOk, OnErr};
ghost use Rattle.edge_io.specs.Counts.{HasCause};
ghost use Rattle.edge_io.specs.Told.{followed};
ghost use Rattle.edge_io.specs.Output.{Takes, TookPart, TookFront};
ghost use Rattle.gathering.specs.Gathered.{Gathered, output_of, gathered_after};

use edge_io::{Failed, Sink, WriteFault, put_all};
use std::alloc::Global;
use std::marker::Model;

/// Keeps all that is put into it, until it is put on. A put fails only where no memory is found for it.
#[derive(Drop)]
pub struct Gather {
    kept: Vec<u8>,
    faults: u64,
}

impl Model for Gather {
    ghost use Rattle.gathering.specs.Gathered.{Gathered};

    ghost Value = { Gathered };

    ghost view = { λ s. record { bytes = s.kept.items; faults = s.faults } };
}

impl Gather {
    /// A sink that has gathered nothing yet. It takes memory as bytes come.
    pub fn new(alloc: Global) -> Gather
        ensures { result ≡ record { bytes = []; faults = 0 } }
    {
        Gather {
            kept: Vec::new(alloc),
            faults: 0,
        }
    }

    /// Puts on all that was gathered, in pieces as large as `out` takes. It takes no memory.
    pub fn finish<K: Sink>(self, out: &mut K) -> Result<(), WriteFault>
        ensures whole { OnOk result ((K.output out.new).taken ≡ followed (K.output out.old).taken self.bytes) }
        ensures part { OnErr result (TookPart (K.output out.old) (K.output out.new) self.bytes) }

        // What a caller knows that doesn't look at the answer.
        ensures front { TookFront (K.output out.old) (K.output out.new) self.bytes }
    {
        put_all(out, self.kept.as_slice())
    }
}

impl Sink for Gather {
    ghost output = { output_of };

    fn put(&mut self, piece: &[u8]) -> Result<usize, Failed>
        requires { 0 < length piece.now }
        ensures some { IfOk result (λ n. 0 < n) }
        ensures bound { IfOk result (λ n. n ≤ length piece.now) }
        ensures bytes { Takes (output_of self.old).taken (output_of self.new).taken result piece.now }
        ensures cause { HasCause self.old.faults self.new.faults result }

        // Exactly this: the whole piece, or no memory.
        ensures whole { IfOk result (λ n. n ≡ length piece.now) }
        ensures after { self.new ≡ gathered_after self.old piece.now result }
    {
        match self.kept.extend_from_slice(piece) {
            Ok(()) => Ok(piece.len()),
            Err(_) => {
                self.faults = self.faults.saturating_add(1);
                Err(Failed)
            }
        }
    }
}
