//! The streams of a run: input, output and the break.
ghost use Rattle.std.specs.Prelude.{◌≡◌, ◌≤◌, [], length, take, drop, IfOk};
ghost use Rattle.rtl_core.specs.Contents.{bytes_from};
ghost use Rattle.sysemu.specs.Streams.{Flow};

use rtl_core::{Memory, copy_out};
use std::alloc::{AllocError, Global};
use std::marker::Model;

/// The most bytes that one write takes.
pub const MOST_WRITTEN: u32 = 65_536;

/// The rest of the input, a buffer for the bytes of one write, and the break.
///
/// All memory is taken at the start and none later.
#[derive(Drop)]
pub struct Streams {
    input: Vec<u8>,
    read: usize,
    buffer: Vec<u8>,
    written: usize,
    heap_end: u32,
}

impl Model for Streams {
    ghost use Rattle.std.specs.Prelude.{◌≡◌, ◌≤◌, length, take, drop};
    ghost use Rattle.sysemu.specs.Streams.{Flow};

    ghost Value = { Flow };

    ghost view = { λ s. record {
      input = drop s.read s.input.items;
      pending = take s.written s.buffer.items;
      heap_end = s.heap_end;
    } };

    ghost invariant = { λ s. record {
      read_part : s.read ≤ length s.input.items;
      whole_buffer : length s.buffer.items ≡ 65536;
      written_part : s.written ≤ 65536;
    } };
}

impl Streams {
    /// Streams with this input, nothing pending, and the break at the start of the heap.
    pub fn new(alloc: Global, input: &[u8], heap_base: u32) -> Result<Streams, AllocError>
        ensures { IfOk result (λ s. s ≡ record { input = input.now; pending = []; heap_end = heap_base }) }
    {
        Ok(Streams {
            input: Vec::from_slice(alloc, input)?,
            read: 0,
            buffer: vec![in alloc; 0; MOST_WRITTEN as usize]?,
            written: 0,
            heap_end: heap_base,
        })
    }

    /// The bytes that the last write left here.
    pub fn pending(&self) -> &[u8]
        ensures { result.now ≡ self.now.pending }
    {
        &self.buffer[..self.written]
    }

    /// Empties the buffer, once what was pending has gone out.
    pub fn drained(&mut self)
        ensures { self.new ≡ record self.old { pending = [] } }
    {
        self.written = 0;
    }

    /// The input that is not read yet.
    pub fn rest(&self) -> &[u8]
        ensures { result.now ≡ self.now.input }
    {
        &self.input[self.read..]
    }

    /// Takes the first `count` bytes of the input.
    pub fn skip(&mut self, count: u32)
        requires { count ≤ length self.old.input }
        ensures { self.new ≡ record self.old { input = drop count self.old.input } }
    {
        self.read += count as usize;
    }

    /// Puts `count` bytes of a memory from `a` on in place of what is pending, 0 where none is mapped.
    pub fn fill<M: Memory>(&mut self, mem: &M, a: u32, count: u32)
        requires whole { M.whole mem.now }
        requires room { count ≤ 65536 }
        ensures { self.new ≡ record self.old { pending = bytes_from (M.contents mem.now) a count } }
    {
        let count = count as usize;
        copy_front(mem, a, &mut self.buffer, count);
        self.written = count;
    }

    /// The break: the end of the heap that is in use.
    pub fn heap_end(&self) -> u32
        ensures { result ≡ self.now.heap_end }
    {
        self.heap_end
    }

    /// Moves the break.
    pub fn set_heap_end(&mut self, heap_end: u32)
        ensures { self.new ≡ record self.old { heap_end = heap_end } }
    {
        self.heap_end = heap_end;
    }
}

/// Reads `count` bytes of a memory from `a` on into the front of a buffer, 0 where none is mapped.
fn copy_front<M: Memory>(mem: &M, a: u32, into: &mut [u8], count: usize)
    requires whole { M.whole mem.now }
    requires room { count ≤ length into.old }
    ensures { take count into.new ≡ bytes_from (M.contents mem.now) a count }
{
    copy_out(mem, a, &mut into[..count]);
}
