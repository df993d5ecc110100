//! The text of programs, as they are printed.
ghost use Rattle.std.specs.Prelude.{◌≡◌, [], IfOk};
ghost use Rattle.worked_texts.specs.PrintedPrograms.{inner_if, layout_blocks, layout_call, layout_program, layout_stmts, layout_switch, moves, outer_if, small_program};

use c_lang::{
    CBlock, CExpr, COp, Case, End, Function, Header, Order, Point, Program, Slot, Stmt, Var,
};
use c_text::write_c;
use edge_io::MemSink;
use sqlite_items::{Boxed, Items};
use std::alloc::{AllocError, Global};

const TEXT: &[u8] = b"#include \"uqbt.h\"
const u64 uq_machine[14] = { 1, 1, 536870912, 16777216, 4009754624, 8388608, 1, 3, 4, 17, 14, 9, 90, 1 };
const u64 uq_segs[1] = { 0 };

void uq_main(void) {
    f_00010000(4294967296ull, 0ull, 7ull);
}
";

const LAYOUT: &[u8] = b"#include \"uqbt.h\"
const u64 uq_machine[14] = { 1, 1, 536870912, 16777216, 4009754624, 8388608, 1, 3, 4, 17, 14, 9, 90, 1 };
const u64 uq_segs[1] = { 0 };
void f_00002000(u64 ra, u64 c8, u64 c9);

void f_00002000(u64 ra, u64 c8, u64 c9) {
    u64 pt;
    u64 c10;
    u64 t0;
    u64 t1;
L_00002000: ;
    t0 = (c8 + 1ull);
    t1 = uq_load(4, t0);
    uq_store(4, t0, t1);
    c10 = uq_w[uq_wn];
    uq_w[3ull] = c10;
    uq_serve(c8, c9, c10, 0ull);
    f_00002000(0ull, 5ull, t1);
    if (t0) {
        if (uq_e) {
            uq_stop(5, uq_r);
        }
        t1 = ra;
    }
    if (t1) goto L_00002004;
    goto L_00002008_T_00003000;
L_00002004: ;
    switch ((t0 ? pt : q8)) {
        case 5ull: goto L_00002008_T_00003000;
        case 6ull: goto L_0000200C_R;
        default: uq_end(8, t0);
    }
L_00002008_T_00003000: ;
    goto L_0000200C_R;
L_0000200C_R: ;
    return;
L_00002010_C_00003000_00002018: ;
    uq_end(0, uq_depth);
}

void uq_main(void) {
    f_00002000(4294967296ull);
}
";

const HEADER: Header = Header {
    order: Order::Big,
    align: true,
    heap_base: 0x2000_0000,
    heap_size: 0x0100_0000,
    stack_base: 0xEF00_0000,
    stack_size: 0x0080_0000,
    exit: 1,
    read: 3,
    write: 4,
    brk: 17,
    fault: 14,
    descriptor: 9,
    unknown: 90,
    carry: true,
};

fn small(alloc: Global) -> Result<Program, AllocError>
    ensures { IfOk result (λ p. p ≡ small_program) }
{
    Ok(Program {
        header: HEADER,
        segments: Items::new(alloc),
        functions: Items::new(alloc),
        entry: 0x1_0000,
        first: Items::from_slice(alloc, &[0, 7])?,
    })
}

/// `if (uq_e) { uq_stop(5, uq_r); }`
fn inner(alloc: Global) -> Result<Stmt, AllocError>
    ensures { IfOk result (λ s. s ≡ inner_if) }
{
    let mut stmts = Items::new(alloc);
    stmts.push(Stmt::Stop(5, CExpr::Of(Var::ServeR)))?;
    Ok(Stmt::If(CExpr::Of(Var::ServeE), stmts))
}

/// An `if` in an `if`, and a statement behind it.
fn outer(alloc: Global) -> Result<Stmt, AllocError>
    ensures { IfOk result (λ s. s ≡ outer_if) }
{
    let mut stmts = Items::new(alloc);
    stmts.push(inner(alloc)?)?;
    stmts.push(Stmt::Set(Var::Temp(1), CExpr::Of(Var::Ra)))?;
    Ok(Stmt::If(CExpr::Of(Var::Temp(0)), stmts))
}

/// `f_00002000(0ull, 5ull, t1);`
fn call(alloc: Global) -> Result<Stmt, AllocError>
    ensures { IfOk result (λ s. s ≡ layout_call) }
{
    let mut args = Items::new(alloc);
    args.push(CExpr::Num(0))?;
    args.push(CExpr::Num(5))?;
    args.push(CExpr::Of(Var::Temp(1)))?;
    Ok(Stmt::Call(0x2000, args))
}

/// A sum, a load and a store, and words of windows.
fn moves(alloc: Global) -> Result<Items<Stmt>, AllocError>
    ensures { IfOk result (λ ss. ss ≡ moves) }
{
    let cell = Boxed::new(alloc, CExpr::Of(Var::Cell(8)))?;
    let sum = CExpr::Bin(COp::Add, cell, Boxed::new(alloc, CExpr::Num(1))?);
    let mut stmts = Items::new(alloc);
    stmts.push(Stmt::Set(Var::Temp(0), sum))?;
    stmts.push(Stmt::Load(Var::Temp(1), 4, CExpr::Of(Var::Temp(0))))?;
    stmts.push(Stmt::Store(4, CExpr::Of(Var::Temp(0)), CExpr::Of(Var::Temp(1))))?;
    stmts.push(Stmt::TakeW(Var::Cell(10), CExpr::Of(Var::Wn)))?;
    stmts.push(Stmt::PutW(CExpr::Num(3), CExpr::Of(Var::Cell(10))))?;
    Ok(stmts)
}

/// The statements of each form.
fn statements(alloc: Global) -> Result<Items<Stmt>, AllocError>
    ensures { IfOk result (λ ss. ss ≡ layout_stmts) }
{
    let mut stmts = moves(alloc)?;
    stmts.push(Stmt::Serve(
        CExpr::Of(Var::Cell(8)),
        CExpr::Of(Var::Cell(9)),
        CExpr::Of(Var::Cell(10)),
        CExpr::Num(0),
    ))?;
    stmts.push(call(alloc)?)?;
    stmts.push(outer(alloc)?)?;
    Ok(stmts)
}

/// `switch ((t0 ? pt : q8)) { .. }`
fn switch(alloc: Global) -> Result<End, AllocError>
    ensures { IfOk result (λ e. e ≡ layout_switch) }
{
    let test = Boxed::new(alloc, CExpr::Of(Var::Temp(0)))?;
    let left = Boxed::new(alloc, CExpr::Of(Var::Pt))?;
    let right = Boxed::new(alloc, CExpr::Of(Var::Result(8)))?;
    let mut cases = Items::new(alloc);
    cases.push(Case {
        value: 5,
        to: at(0x2008, Slot::To(0x3000)),
    })?;
    cases.push(Case {
        value: 6,
        to: at(0x200C, Slot::Ret),
    })?;
    Ok(End::Switch(
        CExpr::Choose(test, left, right),
        cases,
        8,
        CExpr::Of(Var::Temp(0)),
    ))
}

fn at(pc: u32, slot: Slot) -> Point
    ensures { result ≡ record { pc = pc; slot = slot } }
{
    Point { pc, slot }
}

fn without_stmts(alloc: Global, label: Point, end: End) -> CBlock
    ensures { result ≡ record { label = label; stmts = []; end = end } }
{
    CBlock {
        label,
        stmts: Items::new(alloc),
        end,
    }
}

/// The blocks, with an end of each form.
fn blocks(alloc: Global) -> Result<Items<CBlock>, AllocError>
    ensures { IfOk result (λ bs. bs ≡ layout_blocks) }
{
    let mut blocks = Items::new(alloc);
    blocks.push(CBlock {
        label: at(0x2000, Slot::Seq),
        stmts: statements(alloc)?,
        end: End::Branch(
            CExpr::Of(Var::Temp(1)),
            at(0x2004, Slot::Seq),
            at(0x2008, Slot::To(0x3000)),
        ),
    })?;
    blocks.push(without_stmts(alloc, at(0x2004, Slot::Seq), switch(alloc)?))?;
    blocks.push(without_stmts(
        alloc,
        at(0x2008, Slot::To(0x3000)),
        End::Goto(at(0x200C, Slot::Ret)),
    ))?;
    blocks.push(without_stmts(alloc, at(0x200C, Slot::Ret), End::Return))?;
    blocks.push(without_stmts(
        alloc,
        at(0x2010, Slot::CallTo(0x3000, 0x2018)),
        End::Finish(0, CExpr::Of(Var::Depth)),
    ))?;
    Ok(blocks)
}

fn layout(alloc: Global) -> Result<Program, AllocError>
    ensures { IfOk result (λ p. p ≡ layout_program) }
{
    let mut functions = Items::new(alloc);
    functions.push(Function {
        entry: 0x2000,
        params: Items::from_slice(alloc, &[8, 9])?,
        cells: Items::from_slice(alloc, &[10])?,
        temps: 2,
        blocks: blocks(alloc)?,
    })?;
    Ok(Program {
        header: HEADER,
        segments: Items::new(alloc),
        functions,
        entry: 0x2000,
        first: Items::new(alloc),
    })
}

#[test]
#[tactic(auto, using(crate::proofs::PrintedSpelled::small_spelled))]
fn text_of_no_functions(rt: HostRuntime) {
    let alloc = rt.alloc();
    let program = small(alloc).expect(&rt, "memory");
    let mut out = MemSink::new(alloc, 4096, 7, Vec::new(alloc)).expect(&rt, "memory");
    assert!(&rt; write_c(&program, &mut out).is_ok());
    assert!(&rt; out.bytes() == TEXT);
}

#[test]
#[tactic(auto, using(crate::proofs::PrintedSpelled::layout_spelled))]
fn text_with_each_form(rt: HostRuntime) {
    let alloc = rt.alloc();
    let program = layout(alloc).expect(&rt, "memory");
    let mut out = MemSink::new(alloc, 4096, 7, Vec::new(alloc)).expect(&rt, "memory");
    assert!(&rt; write_c(&program, &mut out).is_ok());
    assert!(&rt; out.bytes() == LAYOUT);
}
