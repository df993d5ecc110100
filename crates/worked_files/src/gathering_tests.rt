//! What is gathered in small pieces comes in one put, or breaks off where the sink fails.
ghost use Rattle.std.specs.Prelude.{◌≤◌};

use edge_io::{MemSink, Sink, WriteFault, put_all};
use gathering::Gather;
use std::alloc::Global;
use std::test::Fail;

// Puts three small pieces, through the bound.
fn put_pieces<K: Sink>(out: &mut K) -> Result<(), WriteFault> {
    put_all(out, b"uq")?;
    put_all(out, b"b")?;
    put_all(out, b"t!\n")
}

// A sink that moves at most `piece` bytes a call, and the call of that number fails.
fn sink(alloc: Global, piece: usize, failing: u64) -> Result<MemSink, Fail>
    requires { 1 ≤ piece }
{
    Ok(MemSink::new(alloc, 9, piece, [failing].to_vec(alloc)?)?)
}

#[test]
fn small_pieces_come_in_one_put(rt: HostRuntime) -> Result<(), Fail> {
    let mut gather = Gather::new(rt.alloc());
    assert_eq!(rt; put_pieces(&mut gather), Ok(()));
    let mut out = sink(rt.alloc(), 9, 2)?;
    assert_eq!(rt; gather.finish(&mut out), Ok(()));
    assert_eq!(rt; out.bytes(), b"uqbt!\n".as_slice());
    Ok(())
}

#[test]
fn what_is_put_on_breaks_off_at_a_fault(rt: HostRuntime) -> Result<(), Fail> {
    let mut gather = Gather::new(rt.alloc());
    assert_eq!(rt; put_pieces(&mut gather), Ok(()));
    let mut out = sink(rt.alloc(), 4, 2)?;
    assert_eq!(rt; gather.finish(&mut out), Err(WriteFault));
    assert_eq!(rt; out.bytes(), b"uqbt".as_slice());
    Ok(())
}
