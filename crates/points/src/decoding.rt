//! What stands at an address, with all put in.
ghost use Rattle.std.specs.Prelude.{◌≡◌, IfOk};
ghost use Rattle.points.specs.Bundles.{setting_of, IsSoundBundle};
ghost use Rattle.points.specs.Machine.{standing};

use crate::block::Standing;
use decode::{Bundle, Found, inst_at};
use rtl_core::ground;
use std::alloc::{AllocError, Global};

/// What stands at an address: `Outside` exactly where it is not code, `Illegal` exactly where it is and no
/// instruction matches, else the instruction with its operands and addresses put in. The error is want of memory.
pub fn standing_at(alloc: Global, on: &Bundle, pc: u32) -> Result<Standing, AllocError>
    requires { IsSoundBundle on.now }
    ensures { IfOk result (λ s. s ≡ standing (setting_of on.now) pc) }
{
    match inst_at(on, pc) {
        Found::Outside => Ok(Standing::Outside),
        Found::Illegal => Ok(Standing::Illegal),
        Found::Inst(found) => {
            let inst = ground(alloc, on.machine, &found.inst, pc, found.len)?;
            Ok(Standing::Stands(inst))
        }
    }
}
