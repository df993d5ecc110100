ghost use Rattle.std.specs.Prelude.{◌≡◌};
ghost use Rattle.ssl_syntax.specs.Operators.{is_binary};

/// The sign is a binary operator.
#[tactic(auto, unfolding(crate::specs::Operators::is_binary))]
pub fn is_binary(index: u8) -> bool
    ensures { result ≡ is_binary index }
{
    match index {
        1 | 2 | 3 | 7 => true,
        9 | 10 | 11 | 12 | 13 | 14 => true,
        22 | 23 | 24 | 25 | 26 | 27 | 28 | 29 | 30 => true,
        _ => false,
    }
}
