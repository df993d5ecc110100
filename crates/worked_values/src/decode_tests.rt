//! What stands at the addresses of a small image.
ghost use Rattle.std.specs.Prelude.{IfOk};
ghost use Rattle.decode.specs.At.{AreShort};

use crate::sled_match_tests::overlapping_words;
use crate::test_items::one;
use decode::{Bundle, Found, inst_at};
use rtl_core::{Conv, Frozen, FrozenPart, Machine, Order};
use sled_match::Matcher;
use sqlite_items::Items;
use std::alloc::{AllocError, Global};
use std::test::Fail;

fn machine(alloc: Global) -> Machine {
    Machine {
        order: Order::Big,
        align: true,
        delay: None,
        widths: Items::new(alloc),
        zero: None,
        windows: None,
        files: Items::new(alloc),
        forms: Items::new(alloc),
        types: Items::new(alloc),
        most_nodes: 0,
    }
}

fn conv(alloc: Global) -> Conv {
    Conv {
        elf: 2,
        stack_cell: 0,
        stack_base: 0x0080_0000,
        stack_size: 4096,
        room: 256,
        heap_base: 0x0090_0000,
        heap_size: 4096,
        service: None,
        link: None,
        calls: Items::new(alloc),
        returns: Items::new(alloc),
        entries: Items::new(alloc),
        wholes: Items::new(alloc),
        pads: Items::new(alloc),
        args: None,
    }
}

fn image(alloc: Global) -> Result<Frozen, AllocError>
    ensures { IfOk result AreShort }
{
    let code = FrozenPart {
        base: 0x0001_0000,
        code: true,
        bytes: Items::from_slice(alloc, &[1, 0, 0, 0, 0x80, 0, 0, 0, 1])?,
    };
    Ok(Frozen {
        parts: one(alloc, code)?,
    })
}

#[test]
#[tactic(auto, using(crate::proofs::SoundSamples::sound_samples))]
fn each_answer(rt: HostRuntime) -> Result<(), Fail> {
    let encodings = overlapping_words(rt.alloc())?;
    let matcher = Matcher::build(rt.alloc(), &encodings)?;
    let machine = machine(rt.alloc());
    let conv = conv(rt.alloc());
    let frozen = image(rt.alloc())?;
    let on = Bundle {
        machine: &machine,
        matcher: &matcher,
        conv: &conv,
        frozen: &frozen,
    };
    match inst_at(&on, 0x0001_0000) {
        Found::Inst(found) => assert_eq!(rt; (found.inst.constructor, found.len), (0, 4)),
        _ => assert!(rt; false, "an instruction"),
    }
    assert!(rt; inst_at(&on, 0x0001_0004) == Found::Illegal);
    assert!(rt;
        inst_at(&on, 0x0001_0008) == Found::Illegal,
        "one byte is too few"
    );
    assert!(rt; inst_at(&on, 0x0001_0009) == Found::Outside);
    Ok(())
}
