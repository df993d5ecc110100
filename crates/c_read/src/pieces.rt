//! The items of a C text, and which may stand next.
ghost use Rattle.std.specs.Prelude.{◌≡◌, MatchBool};
ghost use Rattle.c_read.specs.Pieces.{IsNear, next};
ghost use Rattle.c_read.specs.declared.pieces.Stage.TheVariants as stages;

use c_rules::{Array, Prototype, Routine};
use sqlite_items::Items;

/// An item behind the first line.
#[derive(Drop)]
pub enum Piece {
    /// `uq_machine`
    Machine(Array),
    /// `uq_seg_K`: its place K and its bytes.
    Segment(u64, Array),
    /// `uq_segs`
    Table(Array),
    /// A prototype.
    Declared(Prototype),
    /// A function.
    Defined(Routine),
    /// `uq_main`: the address of the first function, and its arguments behind `ra`.
    Main(u32, Items<u64>),
}

/// What stands so far of a text.
#[derive(Clone, Copy, Debug, PartialEq, Eq)]
pub enum Stage {
    Start,
    /// `uq_machine` and so many segments.
    Segments(u64),
    Declaring,
    Defining,
    Over,
}

/// Whether nothing may stand behind.
pub fn is_over(stage: Stage) -> bool
    ensures { MatchBool result (stage ≡ stages.Over) (stage ≡ stages.Over → ⊥) }
{
    match stage {
        Stage::Over => true,
        _ => false,
    }
}

/// What stands with one item more, if the item may stand there.
pub fn next(stage: Stage, piece: &Piece) -> Option<Stage>
    requires { IsNear stage }
    ensures { result ≡ next stage piece.now }
{
    match (stage, piece) {
        (Stage::Start, Piece::Machine(_)) => Some(Stage::Segments(0)),
        (Stage::Segments(count), Piece::Segment(place, _)) if *place == count => {
            Some(Stage::Segments(count + 1))
        },
        (Stage::Segments(_), Piece::Table(_)) => Some(Stage::Declaring),
        (Stage::Declaring, Piece::Declared(_)) => Some(Stage::Declaring),
        (Stage::Declaring | Stage::Defining, Piece::Defined(_)) => Some(Stage::Defining),
        (Stage::Declaring | Stage::Defining, Piece::Main(_, _)) => Some(Stage::Over),
        _ => None,
    }
}
