//! The checks of all transfers of an instruction.
ghost use Rattle.std.specs.Prelude.{◌≡◌};
ghost use Rattle.std.specs.List.{list_all};
ghost use Rattle.ssl_rules.specs.LineScope.{scope};
ghost use Rattle.ssl_rules.specs.Known.{is_known_transfer};
ghost use Rattle.ssl_rules.specs.Counted.{is_counted_transfer};
ghost use Rattle.ssl_rules.specs.Places.{act_assigns_place};
ghost use Rattle.ssl_rules.specs.Widths.{is_transfer_in_range, transfer_differs, first_differing};

use crate::counted::is_counted_transfer;
use crate::known::is_known_transfer;
use crate::known_names::KnownNames;
use crate::measures::or;
use crate::places::act_assigns_place;
use crate::transfers::{is_transfer_in_range, transfer_differs};
use ssl_rules::{LineNames, Mismatch};
use ssl_syntax::SslTransfer;

/// Whether every name is known.
pub fn are_known_transfers(names: &KnownNames, windows: bool, transfers: &[SslTransfer]) -> bool
    ensures { result ≡ list_all (is_known_transfer names.now.surplus.now (scope names.now.line) windows) transfers.now }
{
    for transfer in transfers {
        if !is_known_transfer(names, windows, transfer) {
            return false;
        }
    }
    true
}

/// Whether every call has the right number of arguments.
pub fn are_counted_transfers(names: &LineNames, transfers: &[SslTransfer]) -> bool
    ensures { result ≡ list_all (is_counted_transfer (scope names.now)) transfers.now }
{
    for transfer in transfers {
        if !is_counted_transfer(names, transfer) {
            return false;
        }
    }
    true
}

/// Whether all numbers are in range.
pub fn are_transfers_in_range(names: &LineNames, transfers: &[SslTransfer]) -> bool
    ensures { result ≡ list_all (is_transfer_in_range (scope names.now)) transfers.now }
{
    for transfer in transfers {
        if !is_transfer_in_range(names, transfer) {
            return false;
        }
    }
    true
}

/// Whether all that is assigned is a place.
pub fn are_places_assigned(names: &LineNames, transfers: &[SslTransfer]) -> bool
    ensures { result ≡ list_all (λ t. act_assigns_place (scope names.now) t.act) transfers.now }
{
    for transfer in transfers {
        if !act_assigns_place(names, &transfer.act) {
            return false;
        }
    }
    true
}

/// The first two widths that differ.
pub fn transfers_differ(names: &LineNames, transfers: &[SslTransfer]) -> Option<Mismatch>
    ensures { result ≡ first_differing (transfer_differs (scope names.now)) transfers.now }
{
    let mut differs = None;
    for transfer in transfers {
        differs = or(differs, transfer_differs(names, transfer));
    }
    differs
}
