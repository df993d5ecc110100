// Sinks of bytes, and a whole piece put into one.
ghost use Rattle.std.specs.Prelude.{◌≡◌, ◌<◌, ◌≤◌, [], length, IfOk, OnOk, OnErr};
ghost use Rattle.edge_io.specs.Counts.{HasCause};
ghost use Rattle.edge_io.specs.Told.{followed};
ghost use Rattle.edge_io.specs.Output.{Output, Takes, TookPart, TookFront};

use crate::Failed;

/// What takes bytes in order.
pub trait Sink {
    /// The bytes taken, where the sink tells them, and how often a put failed.
    ghost output: { Self → Output };

    /// Takes the front of `piece`, at least one byte, and says how many.
    fn put(&mut self, piece: &[u8]) -> Result<usize, Failed>
        requires { 0 < length piece.now }
        ensures some { IfOk result (λ n. 0 < n) }
        ensures bound { IfOk result (λ n. n ≤ length piece.now) }
        ensures bytes { Takes (output self.old).taken (output self.new).taken result piece.now }
        ensures cause { HasCause (output self.old).faults (output self.new).faults result };
}

/// A sink failed before it had taken a whole piece.
#[derive(Clone, Copy, Debug, PartialEq, Eq)]
pub struct WriteFault;

/// Puts the whole piece. It takes no memory, and makes no call for an empty piece.
pub fn put_all<K: Sink>(out: &mut K, piece: &[u8]) -> Result<(), WriteFault>
    ensures whole { OnOk result ((K.output out.new).taken ≡ followed (K.output out.old).taken piece.now) }
    ensures part { OnErr result (TookPart (K.output out.old) (K.output out.new) piece.now) }
    ensures empty { piece.now ≡ [] → out.new ≡ out.old }

    // What a caller knows that doesn't look at the answer.
    ensures front { TookFront (K.output out.old) (K.output out.new) piece.now }
{
    let mut done = 0;
    while done < piece.len() {
        let (_, rest) = piece.split_at(done);
        match out.put(rest) {
            Ok(count) => done += count,
            Err(_) => return Err(WriteFault),
        }
    }
    Ok(())
}
