// The command `run` over files, a source and sinks in memory.
use crate::tests::{EXE, FINE, Texts, answer, plainly, sink, source};
use crate::{ExeFault, Outcome};
use edge_io::MemSink;
use elf32::ElfFault;
use rtl_core::Stop;
use std::alloc::Global;
use std::test::Fail;

// The executable of the small machine with this code of so many bytes.
fn executable(alloc: Global, len: u8, code: &[u8]) -> Result<Vec<u8>, Fail> {
    let mut exe = Vec::new(alloc);
    exe.extend_from_slice(EXE.split_at(68).0)?;
    exe.extend_from_slice(&[0, 0, 0, len, 0, 0, 0, len])?;
    exe.extend_from_slice(b"\0\0\0\x05\0\0\0\x04")?;
    exe.extend_from_slice(code)?;
    Ok(exe)
}

// The answer for a code of the small machine, some steps and an input.
fn run_code(
    alloc: Global,
    len: u8,
    code: &[u8],
    steps: &[u8],
    input: &[u8],
    out: &mut MemSink,
    messages: &mut MemSink,
) -> Result<Outcome, Fail> {
    let exe = executable(alloc, len, code)?;
    let texts = Texts { exe: &exe, ..FINE };
    answer(
        alloc,
        b"run",
        b"abcd",
        steps,
        &texts,
        &mut source(alloc, input, Vec::new(alloc))?,
        out,
        messages,
    )
}

fn exit(status: u32) -> Outcome {
    Outcome::Ran(Stop::Exit(status))
}

const EXIT: &[u8] = b"\x82\x10\x20\x01\x90\x10\x20\x03\x91\xD0\x20\x10";

// A write from address 0, and an exit with its answer.
const UNMAPPED: &[u8] =
    b"\x82\x10\x20\x04\x90\x10\x20\x01\x92\x10\x20\x00\x94\x10\x20\x01\x91\xD0\x20\x10\x82\x10\x20\x01\x91\xD0\x20\x10";

// Three bytes of the input into the stack, the same as output, and an exit.
const ECHO: &[u8] =
    b"\x82\x10\x20\x03\x90\x10\x20\x00\x92\x13\xA0\x00\x94\x10\x20\x03\x91\xD0\x20\x10\x82\x10\x20\x04\x90\x10\x20\x01\x91\xD0\x20\x10\x82\x10\x20\x01\x90\x10\x20\x00\x91\xD0\x20\x10";

#[test]
fn programs_run_to_their_exit_or_until_the_steps_are_spent(rt: HostRuntime) -> Result<(), Fail> {
    let alloc = rt.alloc();
    let table: [(u8, &[u8], &[u8], Outcome, &[u8], &[u8]); 5] = [
        (12, EXIT, b"3", exit(3), b"", b"uqbt: ran exit 3\n"),
        (12, EXIT, b"2", Outcome::Spent, b"", b"uqbt: spent\n"),
        (28, UNMAPPED, b"7", exit(14), b"", b"uqbt: ran exit 14\n"),
        (44, ECHO, b"8", Outcome::Spent, b"abc", b"uqbt: spent\n"),
        (
            44,
            ECHO,
            b"9999999999999999999",
            exit(0),
            b"abc",
            b"uqbt: ran exit 0\n",
        ),
    ];
    for (len, code, steps, want, written, line) in table {
        let mut out = sink(alloc)?;
        let mut messages = sink(alloc)?;
        let got = run_code(alloc, len, code, steps, b"abcd", &mut out, &mut messages)?;
        assert_eq!(rt; got, want);
        assert_eq!(rt; out.bytes(), written);
        assert_eq!(rt; messages.bytes(), line);
    }
    assert_eq!(rt; exit(3).status(), 3);
    assert_eq!(rt; exit(4_294_967_282).status(), 242);
    assert_eq!(rt; Outcome::Spent.status(), 75);
    Ok(())
}

#[test]
fn a_sink_that_fails_holds_a_front_of_the_output(rt: HostRuntime) -> Result<(), Fail> {
    let alloc = rt.alloc();
    let mut fails = Vec::new(alloc);
    fails.push(2)?;
    let mut out = MemSink::new(alloc, 64, 2, fails)?;
    let mut messages = sink(alloc)?;
    let got = run_code(alloc, 44, ECHO, b"11", b"abc", &mut out, &mut messages)?;
    assert_eq!(rt; got, Outcome::WriteFault);
    assert_eq!(rt; out.bytes(), b"ab".as_slice());
    Ok(())
}

#[test]
fn input_of_over_sixteen_mebibytes_is_too_long(rt: HostRuntime) -> Result<(), Fail> {
    let alloc = rt.alloc();
    let input = vec![in alloc; 0; 16_777_217]?;
    let mut out = sink(alloc)?;
    let mut messages = sink(alloc)?;
    let got = run_code(alloc, 12, EXIT, b"3", &input, &mut out, &mut messages)?;
    assert_eq!(rt; got, Outcome::InputTooLong);
    assert_eq!(rt; got.status(), 68);
    assert_eq!(rt; messages.bytes(), b"uqbt: input-too-long\n".as_slice());
    Ok(())
}

#[test]
fn input_that_fails_is_a_read_fault(rt: HostRuntime) -> Result<(), Fail> {
    let alloc = rt.alloc();
    let mut fails = Vec::new(alloc);
    fails.push(1)?;
    let mut input = source(alloc, b"abc", fails)?;
    let mut out = sink(alloc)?;
    let mut messages = sink(alloc)?;
    let got = answer(
        alloc,
        b"run",
        b"abcd",
        b"3",
        &FINE,
        &mut input,
        &mut out,
        &mut messages,
    )?;
    assert_eq!(rt; got, Outcome::ReadFault);
    assert_eq!(rt; messages.bytes(), b"uqbt: read-fault\n".as_slice());
    Ok(())
}

#[test]
fn words_that_are_no_number_of_steps_are_usage(rt: HostRuntime) -> Result<(), Fail> {
    let alloc = rt.alloc();
    for steps in [b"".as_slice(), b"x", b"+3", b"0x3", b"00000000000000000003"] {
        let mut out = sink(alloc)?;
        let mut messages = sink(alloc)?;
        let got = run_code(alloc, 12, EXIT, steps, b"", &mut out, &mut messages)?;
        assert_eq!(rt; got, Outcome::Usage);
    }
    Ok(())
}

const TWO: Texts<'static> = Texts {
    sled: b"order big\nfields of w (32) op 30:31 all 0:31\nconstructor A is op = 0\nconstructor B is all = 0x01000000",
    ssl: b"cell a 32\ninstruction A () := trap 1:32\ninstruction B () := trap 2:32",
    conv: b"elf 2\nstack a 0x00800000 4096 256\nheap 0x00900000 4096",
    exe: EXE,
};

#[test]
fn the_first_constructor_that_matches_is_the_instruction(rt: HostRuntime) -> Result<(), Fail> {
    let alloc = rt.alloc();
    let exe = executable(alloc, 4, b"\x01\0\0\0")?;
    let texts = Texts { exe: &exe, ..TWO };
    let got = plainly(alloc, b"run", b"abcd", b"1", &texts)?;
    assert_eq!(rt; got, Outcome::Ran(Stop::Trap(1)));
    assert_eq!(rt; got.status(), 37);
    let sled =
        b"order big\nfields of w (32) op 30:31 all 0:31\nconstructor B is all = 0x01000000\nconstructor A is op = 0";
    let texts = Texts { sled, ..texts };
    let got = plainly(alloc, b"run", b"abcd", b"1", &texts)?;
    assert_eq!(rt; got, Outcome::Ran(Stop::Trap(2)));
    Ok(())
}

// The line for an executable with another byte at one place, or cut there.
fn damaged(alloc: Global, at: usize, byte: Option<u8>) -> Result<Vec<u8>, Fail> {
    let mut exe = Vec::new(alloc);
    for (place, old) in EXE.iter().enumerate() {
        if place == at {
            match byte {
                Some(new) => exe.push(new)?,
                None => return Ok(exe),
            }
        } else {
            exe.push(*old)?;
        }
    }
    Ok(exe)
}

#[test]
fn damaged_executables_are_told_by_their_first_fault(rt: HostRuntime) -> Result<(), Fail> {
    let alloc = rt.alloc();
    let table: [(usize, Option<u8>, ElfFault, &[u8]); 5] = [
        (51, None, ElfFault::Short, b"uqbt: executable short\n"),
        (
            60,
            None,
            ElfFault::HeadersCut,
            b"uqbt: executable headers-cut\n",
        ),
        (
            75,
            Some(11),
            ElfFault::SegmentSizes { index: 0 },
            b"uqbt: executable segment-sizes 0\n",
        ),
        (
            19,
            Some(3),
            ElfFault::MachineKind { found: 3 },
            b"uqbt: executable machine-kind 3\n",
        ),
        (
            79,
            Some(7),
            ElfFault::EntryOutside { entry: 0x10000 },
            b"uqbt: executable entry-outside 0x00010000\n",
        ),
    ];
    for (at, byte, fault, line) in table {
        let exe = damaged(alloc, at, byte)?;
        let texts = Texts { exe: &exe, ..FINE };
        let mut out = sink(alloc)?;
        let mut messages = sink(alloc)?;
        let got = answer(
            alloc,
            b"run",
            b"abcd",
            b"3",
            &texts,
            &mut source(alloc, b"", Vec::new(alloc))?,
            &mut out,
            &mut messages,
        )?;
        assert_eq!(rt; got, Outcome::Executable(ExeFault::Elf(fault)));
        assert_eq!(rt; got.status(), 67);
        assert_eq!(rt; messages.bytes(), line);
    }
    Ok(())
}
