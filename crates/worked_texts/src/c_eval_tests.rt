//! A program with a statement of each kind, gone through step by step; and steps that cannot be made.
use c_eval::{PlainFrame, PlainPlace, PlainState, Setting, Taken, Word, plain_step};
use c_lang::{CBlock, CExpr, COp, End, Function, Header, Order, Point, Program, Slot, Stmt, Var};
use rtl_core::Stop;
use space::{Range, Space};
use sqlite_items::{Boxed, Items};
use std::alloc::{AllocError, Global};
use std::test::Fail;
use sysemu::Streams;

const HEADER: Header = Header {
    order: Order::Big,
    align: true,
    heap_base: 0x2000_0000,
    heap_size: 0x0100_0000,
    stack_base: 0xEF00_0000,
    stack_size: 0x0080_0000,
    exit: 1,
    read: 3,
    write: 4,
    brk: 17,
    fault: 14,
    descriptor: 9,
    unknown: 90,
    carry: true,
};

/// `L_pc: ;`
fn label(pc: u32) -> Point {
    Point {
        pc,
        slot: Slot::Seq,
    }
}

/// `(a OP b)`
fn binary(alloc: Global, op: COp, a: CExpr, b: CExpr) -> Result<CExpr, AllocError> {
    Ok(CExpr::Bin(op, Boxed::new(alloc, a)?, Boxed::new(alloc, b)?))
}

/// `t0 = (1 - 2); uq_store(4, 4, 0x111223344); t1 = uq_load(2, 6); uq_w[3] = t1; t0 = uq_w[3];`
fn moves(alloc: Global) -> Result<Items<Stmt>, AllocError> {
    let difference = binary(alloc, COp::Sub, CExpr::Num(1), CExpr::Num(2))?;
    let stmts = vec![in alloc;
        Stmt::Set(Var::Temp(0), difference),
        Stmt::Store(4, CExpr::Num(4), CExpr::Num(0x1_1122_3344)),
        Stmt::Load(Var::Temp(1), 2, CExpr::Num(6)),
        Stmt::PutW(CExpr::Num(3), CExpr::Of(Var::Temp(1))),
        Stmt::TakeW(Var::Temp(0), CExpr::Num(3)),
    ]?;
    Ok(Items::from_vec(stmts))
}

/// `f_00002000(0, 5);`
fn call(alloc: Global) -> Result<Stmt, AllocError> {
    let arguments = vec![in alloc; CExpr::Num(0), CExpr::Num(5)]?;
    Ok(Stmt::Call(0x2000, Items::from_vec(arguments)))
}

/// `if (t1) { uq_stop(0, 0x100000007) }`
fn stop_by_t1(alloc: Global) -> Result<Stmt, AllocError> {
    let body = vec![in alloc; Stmt::Stop(0, CExpr::Num(0x1_0000_0007))]?;
    Ok(Stmt::If(CExpr::Of(Var::Temp(1)), Items::from_vec(body)))
}

/// `uq_serve(4, 1, 4, 2);`, the call and the stop.
fn controls(alloc: Global) -> Result<Items<Stmt>, AllocError> {
    let mut stmts = Items::new(alloc);
    stmts.push(Stmt::Serve(CExpr::Num(4), CExpr::Num(1), CExpr::Num(4), CExpr::Num(2)))?;
    stmts.push(call(alloc)?)?;
    stmts.push(stop_by_t1(alloc)?)?;
    Ok(stmts)
}

fn block(pc: u32, stmts: Items<Stmt>, end: End) -> CBlock {
    CBlock {
        label: label(pc),
        stmts,
        end,
    }
}

/// The moves and a goto, then the controls.
fn main_blocks(alloc: Global) -> Result<Items<CBlock>, AllocError> {
    let first = block(0x1000, moves(alloc)?, End::Goto(label(0x1004)));
    let second = block(0x1004, controls(alloc)?, End::Return);
    let mut blocks = Items::new(alloc);
    blocks.push(first)?;
    blocks.push(second)?;
    Ok(blocks)
}

/// A return.
fn back_blocks(alloc: Global) -> Result<Items<CBlock>, AllocError> {
    let back = block(0x2000, Items::new(alloc), End::Return);
    Ok(Items::from_vec(vec![in alloc; back]?))
}

/// A function of some blocks.
fn function(
    alloc: Global,
    entry: u32,
    params: &[u8],
    blocks: Items<CBlock>,
) -> Result<Function, AllocError> {
    Ok(Function {
        entry,
        params: Items::from_slice(alloc, params)?,
        cells: Items::new(alloc),
        temps: 2,
        blocks,
    })
}

/// The first function, and one of one parameter that returns.
fn functions(alloc: Global) -> Result<Items<Function>, AllocError> {
    let first = function(alloc, 0x1000, &[], main_blocks(alloc)?)?;
    let second = function(alloc, 0x2000, &[8], back_blocks(alloc)?)?;
    let mut functions = Items::new(alloc);
    functions.push(first)?;
    functions.push(second)?;
    Ok(functions)
}

fn program(alloc: Global) -> Result<Program, AllocError> {
    Ok(Program {
        header: HEADER,
        segments: Items::new(alloc),
        functions: functions(alloc)?,
        entry: 0x1000,
        first: Items::new(alloc),
    })
}

/// The first function before some statements and a return.
fn before(alloc: Global, stmts: Items<Stmt>, end: End) -> Result<PlainState, AllocError> {
    Ok(PlainState {
        top: PlainFrame {
            function: 0,
            place: PlainPlace::At(stmts, end),
            vars: Items::new(alloc),
        },
        below: Items::new(alloc),
        globals: Items::new(alloc),
        words: Items::new(alloc),
        output: Items::new(alloc),
        streams: Streams::new(alloc, &[], HEADER.heap_base)?,
    })
}

/// Eight zeros from address 0 on, which may be written.
fn eight_bytes(alloc: Global) -> Result<Space, Fail> {
    let range = Range {
        base: 0,
        len: 8,
        write: true,
        bytes: Items::new(alloc),
    };
    let ranges = [range];
    Ok(Space::build(alloc, &ranges)?)
}

#[test]
fn a_statement_of_each_kind_does_its_step(rt: HostRuntime) -> Result<(), Fail> {
    let alloc = rt.alloc();
    let program = program(alloc)?;
    let mut mem = eight_bytes(alloc)?;
    let mut state = before(alloc, Items::new(alloc), End::Goto(label(0x1000)))?;
    for k in 0..11 {
        let taken = plain_step(alloc, &program, &mut state, &mut mem)?;
        assert_eq!(rt; taken, Taken::Went, "step {k}");
        // The call is open behind the ninth step alone, and its parameters are set.
        assert_eq!(rt; state.below.len(), usize::from(k == 8), "step {k}");
    }
    let last = plain_step(alloc, &program, &mut state, &mut mem)?;
    assert_eq!(rt; last, Taken::Stops(Stop::Exit(7)));
    assert_eq!(rt; mem.load(Order::Big, 8, 0), Ok(0x1122_3344));
    assert!(rt; state.output.as_slice() == [0x11, 0x22].as_slice());
    assert!(rt;
        state.words.as_slice()
            == [Word {
                index: 3,
                value: 0x3344
            }]
            .as_slice()
    );
    assert!(rt;
        state.top.vars.as_slice()
            == [
                Setting {
                    var: Var::Temp(0),
                    value: 0xFFFF_FFFF_FFFF_FFFF
                },
                Setting {
                    var: Var::Temp(1),
                    value: 0x3344
                },
                Setting {
                    var: Var::Temp(0),
                    value: 0x3344
                },
            ]
            .as_slice()
    );
    assert!(rt;
        state.globals.as_slice()
            == [
                Setting {
                    var: Var::ServeR,
                    value: 2
                },
                Setting {
                    var: Var::ServeE,
                    value: 0
                },
            ]
            .as_slice()
    );
    Ok(())
}

/// One step before an end comes to this.
fn end_taken(alloc: Global, program: &Program, end: End) -> Result<Taken, Fail> {
    let mut mem = eight_bytes(alloc)?;
    let mut state = before(alloc, Items::new(alloc), end)?;
    Ok(plain_step(alloc, program, &mut state, &mut mem)?)
}

#[test]
fn steps_without_a_meaning_stick(rt: HostRuntime) -> Result<(), Fail> {
    let alloc = rt.alloc();
    let program = program(alloc)?;
    assert_eq!(rt; end_taken(alloc, &program, End::Return)?, Taken::Sticks);
    let no_kind = End::Finish(12, CExpr::Num(0));
    assert_eq!(rt; end_taken(alloc, &program, no_kind)?, Taken::Sticks);
    let not_set = End::Finish(0, CExpr::Of(Var::Pt));
    assert_eq!(rt; end_taken(alloc, &program, not_set)?, Taken::Sticks);
    let nowhere = End::Goto(label(0x2000));
    assert_eq!(rt; end_taken(alloc, &program, nowhere)?, Taken::Sticks);
    Ok(())
}
