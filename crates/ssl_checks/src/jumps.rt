//! One jump, one annul, one service, which is last, and one window move.
ghost use Rattle.std.specs.Prelude.{◌≡◌};
ghost use Rattle.ssl_rules.specs.Acts.{is_act, acts_of, is_service_last, are_single};

use ssl_rules::Once;
use ssl_syntax::{SslAct, SslTransfer};

/// Whether an act is of a kind.
fn is_act(kind: Once, act: &SslAct) -> bool
    ensures { result ≡ is_act kind act.now }
{
    match (kind, act) {
        (Once::Jump, SslAct::Jump(_)) => true,
        (Once::Annul, SslAct::Annul) => true,
        (Once::Service, SslAct::Service) => true,
        (Once::Move, SslAct::WinSave) => true,
        (Once::Move, SslAct::WinRestore) => true,
        _ => false,
    }
}

/// How many transfers do an act of a kind.
fn acts_of(kind: Once, transfers: &[SslTransfer]) -> usize
    ensures { result ≡ acts_of kind transfers.now }
{
    transfers.iter().filter(|t| is_act(kind, &t.act)).count()
}

/// Whether none but the last is a service.
fn is_service_last(transfers: &[SslTransfer]) -> bool
    ensures { result ≡ is_service_last transfers.now }
{
    match transfers.split_last() {
        None => true,
        Some((_, front)) => acts_of(Once::Service, front) == 0,
    }
}

/// Whether at most one jump, one annul, one service, which is last, and one window move are among them.
pub fn are_single(transfers: &[SslTransfer]) -> bool
    ensures { result ≡ are_single transfers.now }
{
    acts_of(Once::Jump, transfers) <= 1
        && acts_of(Once::Annul, transfers) <= 1
        && acts_of(Once::Service, transfers) <= 1
        && acts_of(Once::Move, transfers) <= 1
        && is_service_last(transfers)
}
