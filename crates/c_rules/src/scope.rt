//! What a function may name, and the walk over what it mentions.
ghost use Rattle.std.specs.Prelude.{◌≡◌, ◌∷◌, [], map};
ghost use Rattle.c_lang.specs.Items.{Access, Calling, Label, Name, block_mentions, end_mentions, mentions_in, names_in, together};
ghost use Rattle.c_rules.specs.Scopes.{kept, noted};

use c_lang::{CBlock, CExpr, Case, End, Point, Stmt, Var};
use indexmap::{IndexMap, IndexSet};

/// What a function may name: its cells, so many temporaries, its labels, and functions with so many parameters behind `ra`.
#[derive(Clone, Copy)]
pub struct Scope<'a> {
    pub cells: &'a IndexSet<u8>,
    pub temps: u32,
    pub labels: &'a IndexSet<Point>,
    pub calls: &'a IndexMap<u32, usize>,
}

/// Whether what a function mentions keeps the rules so far: 2 on names, 3 on arguments, 4 on sizes.
#[derive(Clone, Copy)]
pub struct Kept {
    pub known: bool,
    pub counted: bool,
    pub sized: bool,
}

/// A variable.
#[tactic(auto, using(crate::proofs::ScopeLaws::note_laws), unfolding(crate::specs::Scopes::noted))]
fn note_name(scope: &Scope<'_>, variable: Var, kept: &mut Kept)
    ensures { kept.new ≡ noted scope.now kept.old (Name variable ∷ []) }
{
    let known = match variable {
        Var::Cell(cell) => scope.cells.contains(&cell),
        Var::Temp(temp) => u32::from(temp) < scope.temps,
        _ => true,
    };
    kept.known = kept.known && known;
}

/// An access of so many bytes.
#[tactic(auto, using(crate::proofs::ScopeLaws::note_laws), unfolding(crate::specs::Scopes::noted))]
fn note_size(scope: &Scope<'_>, size: u64, kept: &mut Kept)
    ensures { kept.new ≡ noted scope.now kept.old (Access size ∷ []) }
{
    kept.sized = kept.sized && (size == 1 || size == 2 || size == 4 || size == 8);
}

/// A label.
#[tactic(auto, using(crate::proofs::ScopeLaws::note_laws), unfolding(crate::specs::Scopes::noted))]
fn note_label(scope: &Scope<'_>, to: Point, kept: &mut Kept)
    ensures { kept.new ≡ noted scope.now kept.old (Label to ∷ []) }
{
    kept.known = kept.known && scope.labels.contains(&to);
}

/// A call with so many arguments.
#[tactic(auto, using(crate::proofs::ScopeLaws::note_laws), unfolding(crate::specs::Scopes::noted))]
fn note_call(scope: &Scope<'_>, entry: u32, arguments: usize, kept: &mut Kept)
    ensures { kept.new ≡ noted scope.now kept.old (Calling entry arguments ∷ []) }
{
    match scope.calls.get(&entry) {
        Some(count) => kept.counted = kept.counted && arguments > 0 && arguments - 1 == *count,
        None => {
            kept.known = false;
            kept.counted = kept.counted && arguments > 0;
        },
    }
}

/// An expression.
#[tactic(auto, using(crate::proofs::ScopeLaws::walk_laws, crate::proofs::MentionLaws::mention_laws))]
fn note_expr(scope: &Scope<'_>, expr: &CExpr, kept: &mut Kept)
    ensures { kept.new ≡ noted scope.now kept.old (names_in expr.now) }
{
    match expr {
        CExpr::Num(_) => {},
        CExpr::Of(variable) => note_name(scope, *variable, kept),
        CExpr::Bin(_, left, right) => {
            note_expr(scope, left.get(), kept);
            note_expr(scope, right.get(), kept);
        },
        CExpr::Choose(condition, left, right) => {
            note_expr(scope, condition.get(), kept);
            note_expr(scope, left.get(), kept);
            note_expr(scope, right.get(), kept);
        },
    }
}

/// Expressions.
#[tactic(auto, using(crate::proofs::ScopeLaws::loop_laws))]
fn note_exprs(scope: &Scope<'_>, exprs: &[CExpr], kept: &mut Kept)
    ensures { kept.new ≡ noted scope.now kept.old (together (map names_in exprs.now)) }
{
    for expr in exprs {
        note_expr(scope, expr, kept);
    }
}

/// A statement.
#[cycle(noting)]
#[tactic(auto, using(crate::proofs::ScopeLaws::walk_laws, crate::proofs::MentionLaws::mention_laws))]
fn note_stmt(scope: &Scope<'_>, stmt: &Stmt, kept: &mut Kept)
    ensures { kept.new ≡ noted scope.now kept.old (mentions_in stmt.now) }
{
    match stmt {
        Stmt::Set(variable, value) => {
            note_name(scope, *variable, kept);
            note_expr(scope, value, kept);
        },
        Stmt::Load(variable, size, address) => {
            note_name(scope, *variable, kept);
            note_size(scope, *size, kept);
            note_expr(scope, address, kept);
        },
        Stmt::Store(size, address, value) => {
            note_size(scope, *size, kept);
            note_expr(scope, address, kept);
            note_expr(scope, value, kept);
        },
        Stmt::TakeW(variable, place) => {
            note_name(scope, *variable, kept);
            note_expr(scope, place, kept);
        },
        Stmt::PutW(place, value) => {
            note_expr(scope, place, kept);
            note_expr(scope, value, kept);
        },
        Stmt::Serve(number, x, y, z) => {
            note_expr(scope, number, kept);
            note_expr(scope, x, kept);
            note_expr(scope, y, kept);
            note_expr(scope, z, kept);
        },
        Stmt::Call(entry, arguments) => {
            note_call(scope, *entry, arguments.len(), kept);
            note_exprs(scope, arguments.as_slice(), kept);
        },
        Stmt::If(condition, inner) => {
            note_expr(scope, condition, kept);
            note_stmts(scope, inner.as_slice(), kept);
        },
        Stmt::Stop(_, value) => note_expr(scope, value, kept),
    }
}

/// Statements.
#[cycle(noting)]
#[tactic(auto, using(crate::proofs::ScopeLaws::loop_laws))]
fn note_stmts(scope: &Scope<'_>, stmts: &[Stmt], kept: &mut Kept)
    ensures { kept.new ≡ noted scope.now kept.old (together (map mentions_in stmts.now)) }
{
    for stmt in stmts {
        note_stmt(scope, stmt, kept);
    }
}

/// The labels of cases.
#[tactic(auto, using(crate::proofs::ScopeLaws::loop_laws))]
fn note_cases(scope: &Scope<'_>, cases: &[Case], kept: &mut Kept)
    ensures { kept.new ≡ noted scope.now kept.old (map (λ c. Label c.to) cases.now) }
{
    for case in cases {
        note_label(scope, case.to, kept);
    }
}

/// The end of a block.
#[tactic(auto, using(crate::proofs::ScopeLaws::walk_laws))]
fn note_end(scope: &Scope<'_>, end: &End, kept: &mut Kept)
    ensures { kept.new ≡ noted scope.now kept.old (end_mentions end.now) }
{
    match end {
        End::Goto(to) => note_label(scope, *to, kept),
        End::Branch(condition, to, or_to) => {
            note_expr(scope, condition, kept);
            note_label(scope, *to, kept);
            note_label(scope, *or_to, kept);
        },
        End::Switch(chosen, cases, _, value) => {
            note_expr(scope, chosen, kept);
            note_cases(scope, cases.as_slice(), kept);
            note_expr(scope, value, kept);
        },
        End::Return => {},
        End::Finish(_, value) => note_expr(scope, value, kept),
    }
}

/// Blocks.
#[tactic(auto, using(crate::proofs::ScopeLaws::walk_laws, crate::proofs::ScopeLaws::loop_laws))]
fn note_blocks(scope: &Scope<'_>, blocks: &[CBlock], kept: &mut Kept)
    ensures { kept.new ≡ noted scope.now kept.old (together (map block_mentions blocks.now)) }
{
    for block in blocks {
        note_stmts(scope, block.stmts.as_slice(), kept);
        note_end(scope, &block.end, kept);
    }
}

/// Whether what blocks mention keeps the rules.
#[tactic(auto, unfolding(crate::specs::Scopes::noted))]
pub fn kept_by(scope: &Scope<'_>, blocks: &[CBlock]) -> Kept
    ensures { result ≡ kept scope.now (together (map block_mentions blocks.now)) }
{
    let mut kept = Kept {
        known: true,
        counted: true,
        sized: true,
    };
    note_blocks(scope, blocks, &mut kept);
    kept
}
