// Sources of bytes, and all the bytes of one.
ghost use Rattle.std.specs.Prelude.{◌≡◌, ◌+◌, ◌≤◌, ◌<◌, length, drop, IfOk, OnOk, OnErr, IfSome, IsErrOf};
ghost use Rattle.edge_io.specs.Counts.{HasCause, Rose};
ghost use Rattle.edge_io.specs.Told.{IsNothing};
ghost use Rattle.edge_io.specs.Input.{Input, Gives, given_after, EndsAt, Gave, Came, GaveMore};

use crate::Failed;
use std::alloc::{AllocError, Global};

/// Bytes that come in order.
pub trait Source {
    /// The bytes left, where the source tells them; how many were given, up to 2^64 - 1; how often a
    /// take failed.
    ghost input: { Self → Input };

    /// Fills the front of `buf` with the next bytes, and says how many. The others stay. 0 is the
    /// end.
    fn take(&mut self, buf: &mut [u8]) -> Result<usize, Failed>
        requires { 0 < length buf.old }
        ensures bound { IfOk result (λ n. n ≤ length buf.old) }
        ensures bytes { Gives (input self.old).left (input self.new).left result buf.new }
        ensures others { IfOk result (λ n. drop n buf.new ≡ drop n buf.old) }
        ensures end { IfOk result (EndsAt (input self.old).left) }
        ensures given { (input self.new).given ≡ given_after (input self.old).given result }
        ensures cause { HasCause (input self.old).faults (input self.new).faults result }
        ensures failed { OnErr result (buf.new ≡ buf.old) };
}

/// Why all the bytes of a source aren't given.
#[derive(Clone, Copy, Debug, PartialEq, Eq)]
pub enum ReadEnd {
    /// A take failed.
    Fault,
    /// More bytes came than the limit.
    TooLong,
    /// No memory was found for the bytes.
    NoMemory,
}

impl From<AllocError> for ReadEnd {
    ghost use Rattle.edge_io.specs.declared.source.ReadEnd.TheVariants.{NoMemory};

    ghost from_gives = { λ _ end. end ≡ NoMemory };

    fn from(_: AllocError) -> Self {
        ReadEnd::NoMemory
    }
}

const CHUNK: usize = 4096;

/// All bytes up to the end of the source, of which there are at most `limit`.
pub fn read_all<S: Source>(alloc: Global, src: &mut S, limit: u64) -> Result<Vec<u8>, ReadEnd>
    ensures bytes { IfOk result (λ v. Gave (S.input src.old) (S.input src.new) v.items) }
    ensures end { OnOk result (IsNothing (S.input src.new).left) }
    ensures within { IfOk result (λ v. length v.items ≤ limit) }
    ensures later { (S.input src.old).faults ≤ (S.input src.new).faults }
    ensures fault { IsErrOf result ReadEnd.Fault →
        Rose (S.input src.old).faults (S.input src.new).faults }

    // What came and what is left are known whatever the answer.
    ensures came { Came limit (S.input src.old) (S.input src.new) result }

    // Too long exactly where more than the limit came: by the bytes told, and by the number given.
    ensures told { IsErrOf result ReadEnd.TooLong →
        IfSome (S.input src.old).left (λ bytes. limit < length bytes) }
    ensures too_long { IsErrOf result ReadEnd.TooLong →
        GaveMore limit (S.input src.old).given (S.input src.new).given }
    ensures only_too_long { (S.input src.old).given + limit < (S.input src.new).given →
        IsErrOf result ReadEnd.TooLong }
{
    let mut bytes = Vec::new(alloc);
    let mut room = limit;
    let mut chunk = [0; CHUNK];
    // Each turn takes a byte or ends, so `limit` + 1 turns that take one are enough.
    loop {
        let Ok(count) = src.take(&mut chunk) else {
            return Err(ReadEnd::Fault);
        };
        if count == 0 {
            return Ok(bytes);
        }
        let count_wide = count as u64;
        if count_wide > room {
            return Err(ReadEnd::TooLong);
        }
        bytes.extend_from_slice(&chunk[..count])?;
        room -= count_wide;
    }
}
