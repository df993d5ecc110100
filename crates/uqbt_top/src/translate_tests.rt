// The command `translate` over files and sinks in memory.
use crate::tests::{EXE, FINE, Texts, answer, plainly, sink, source};
use crate::{ExeFault, Outcome};
use edge_io::MemSink;
use elf32::ElfFault;
use std::test::Fail;

#[test]
fn the_small_program_is_translated(rt: HostRuntime) -> Result<(), Fail> {
    let alloc = rt.alloc();
    assert_eq!(rt;
        plainly(alloc, b"translate", b"abcd", b"", &FINE)?,
        Outcome::Done
    );
    Ok(())
}

#[test]
fn an_executable_cut_short_is_refused(rt: HostRuntime) -> Result<(), Fail> {
    let alloc = rt.alloc();
    let texts = Texts {
        exe: EXE.split_at(51).0,
        ..FINE
    };
    assert_eq!(rt;
        plainly(alloc, b"translate", b"abcd", b"", &texts)?,
        Outcome::Executable(ExeFault::Elf(ElfFault::Short))
    );
    Ok(())
}

#[test]
fn a_full_output_is_a_write_fault(rt: HostRuntime) -> Result<(), Fail> {
    let alloc = rt.alloc();
    let mut out = MemSink::new(alloc, 64, 3, Vec::new(alloc))?;
    let mut messages = sink(alloc)?;
    assert_eq!(rt;
        answer(
            alloc,
            b"translate",
            b"abcd",
            b"",
            &FINE,
            &mut source(alloc, b"", Vec::new(alloc))?,
            &mut out,
            &mut messages
        )?,
        Outcome::WriteFault
    );
    assert_eq!(rt; messages.bytes(), b"uqbt: write-fault\n".as_slice());
    Ok(())
}
