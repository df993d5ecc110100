//! Trees of the C text: a small subset of C99 with fixed items, over unsigned numbers of 64 bits.
use rtl_core::{Order, Point};
use sqlite_items::{Boxed, Items};

/// A variable of the C text.
#[derive(Clone, Copy, Debug, PartialEq, Eq)]
pub enum Var {
    /// `ra`: the return address that a call passed.
    Ra,
    /// `pt`: the target of a jump that is still to come.
    Pt,
    /// `cI`: the machine's cell I.
    Cell(u8),
    /// `tK`: a temporary.
    Temp(u16),
    /// `qI`: the result that a procedure hands back for the cell I.
    Result(u8),
    /// `uq_wn`: how many windows are saved.
    Wn,
    /// `uq_depth`: how many calls are open.
    Depth,
    /// `uq_r`: the result of a service.
    ServeR,
    /// `uq_e`: 1 where a service failed, else 0.
    ServeE,
}

/// Operators of C99 on unsigned numbers of 64 bits.
#[derive(Clone, Copy, Debug, PartialEq, Eq)]
pub enum COp {
    Add,
    Sub,
    Mul,
    Div,
    Rem,
    And,
    Or,
    Xor,
    Shl,
    Shr,
    Eq,
    Ne,
    Lt,
    Le,
}

/// An expression; it reads variables, and neither memory nor `uq_w`.
#[derive(Debug, Drop)]
pub enum CExpr {
    Num(u64),
    Of(Var),
    Bin(COp, Boxed<CExpr>, Boxed<CExpr>),
    /// `(c ? a : b)`, which evaluates one of its branches.
    Choose(Boxed<CExpr>, Boxed<CExpr>, Boxed<CExpr>),
}

/// A statement.
#[derive(Debug, Drop)]
pub enum Stmt {
    /// `V = E;`
    Set(Var, CExpr),
    /// `V = uq_load(N, E);`
    Load(Var, u64, CExpr),
    /// `uq_store(N, E, E);`: the size, the address, the value.
    Store(u64, CExpr, CExpr),
    /// `V = uq_w[E];`
    TakeW(Var, CExpr),
    /// `uq_w[E] = E;`
    PutW(CExpr, CExpr),
    /// `uq_serve(E, E, E, E);`: the number and three arguments.
    Serve(CExpr, CExpr, CExpr, CExpr),
    /// `f_X(E, ..);`
    Call(u32, Items<CExpr>),
    /// `if (E) { .. }`
    If(CExpr, Items<Stmt>),
    /// `uq_stop(N, E);`: a stop's number and value.
    Stop(u64, CExpr),
}

/// `case N: goto L;`
#[derive(Clone, Copy, Debug, PartialEq, Eq)]
pub struct Case {
    pub value: u64,
    pub to: Point,
}

/// The end of a block.
#[derive(Debug, Drop)]
pub enum End {
    /// `goto L;`
    Goto(Point),
    /// `if (E) goto L; goto L;`
    Branch(CExpr, Point, Point),
    /// `switch (E) { case N: goto L; .. default: uq_end(N, E); }`: the last two are the default's.
    Switch(CExpr, Items<Case>, u64, CExpr),
    /// `return;`
    Return,
    /// `uq_end(N, E);`
    Finish(u64, CExpr),
}

/// `LABEL: ;`, statements, and an end.
#[derive(Debug, Drop)]
pub struct CBlock {
    pub label: Point,
    pub stmts: Items<Stmt>,
    pub end: End,
}

/// `void f_X(u64 ra, u64 cI, ..) { .. }`: the cells that are parameters, those that are declared besides,
/// and how many temporaries are declared.
#[derive(Debug, Drop)]
pub struct Function {
    pub entry: u32,
    pub params: Items<u8>,
    pub cells: Items<u8>,
    pub temps: u16,
    pub blocks: Items<CBlock>,
}

/// A segment of the first memory: its bytes from the base on, and zeros behind them up to `len`.
#[derive(Debug, Drop)]
pub struct CSeg {
    pub base: u32,
    pub write: bool,
    pub len: u32,
    pub bytes: Items<u8>,
}

/// The array `uq_machine`: byte order, alignment, heap, stack, the numbers of services and of their errors,
/// and whether an error's number is carried as it is, beside an error flag.
#[derive(Clone, Copy, Debug, PartialEq, Eq)]
pub struct Header {
    pub order: Order,
    pub align: bool,
    pub heap_base: u32,
    pub heap_size: u32,
    pub stack_base: u32,
    pub stack_size: u32,
    pub exit: u32,
    pub read: u32,
    pub write: u32,
    pub brk: u32,
    pub fault: u32,
    pub descriptor: u32,
    pub unknown: u32,
    pub carry: bool,
}

/// A C text: its header, the first memory, its functions, and the first call with its arguments behind `ra`.
#[derive(Debug, Drop)]
pub struct Program {
    pub header: Header,
    pub segments: Items<CSeg>,
    pub functions: Items<Function>,
    pub entry: u32,
    pub first: Items<u64>,
}
