//! The operators of expressions.
ghost use Rattle.std.specs.Prelude.{◌≡◌};
ghost use Rattle.ssl_rules.specs.Operators.{operator};

use rtl_core::Bin;

/// The operator of a sign, by its place in the list of signs; of a sign that is none, addition.
#[tactic(auto, unfolding(crate::specs::Operators::operator))]
pub fn operator(sign: u8) -> Bin
    ensures { result ≡ operator sign }
{
    match sign {
        1 => Bin::LeS,
        2 => Bin::ShrS,
        3 => Bin::RemS,
        7 => Bin::Ne,
        9 => Bin::LeU,
        10 => Bin::LtS,
        11 => Bin::Shl,
        12 => Bin::ShrU,
        13 => Bin::RemU,
        14 => Bin::DivS,
        22 => Bin::Eq,
        23 => Bin::And,
        24 => Bin::Or,
        26 => Bin::Sub,
        27 => Bin::Mul,
        28 => Bin::DivU,
        29 => Bin::LtU,
        30 => Bin::Xor,
        _ => Bin::Add,
    }
}
