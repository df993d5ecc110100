//! Acts that come once at most.

/// What an instruction does once at most: a jump, an annul, a service, a window move.
#[derive(Clone, Copy)]
pub enum Once {
    Jump,
    Annul,
    Service,
    Move,
}
