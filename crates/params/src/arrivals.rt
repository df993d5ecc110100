//! The jumps that arrive at a node: the one that is to come there, and the one that its step can make arrive at once.
ghost use Rattle.std.specs.Prelude.{◌≡◌};
ghost use Rattle.std.specs.List.{list_any};
ghost use Rattle.rtl_core.specs.SoundTerms.{is_jump, is_annul};
ghost use Rattle.points.specs.Courses.{does_always, halts, is_trap, pending};
ghost use Rattle.params.specs.Parts.{can_arrive, jump_at_once};

use points::{Block, JumpKind, Node, Slot};
use rtl_core::{Act, Machine, Transfer};

/// The jump that the step at a node can make arrive at once: `Seq` for none.
pub fn jump_at_once(machine: &Machine, node: &Node) -> Slot
    ensures { result ≡ jump_at_once machine.now node.now.point node.now.block }
{
    match (node.point.slot, &node.block) {
        (Slot::Seq, Block::Inst(inst, kind)) => {
            if can_arrive(machine.delay, inst.transfers.as_slice()) {
                pending(node.point.pc, *kind)
            } else {
                Slot::Seq
            }
        }
        _ => Slot::Seq,
    }
}

/// Whether transfers can jump so that the jump arrives at once.
fn can_arrive(delay: Option<u8>, transfers: &[Transfer]) -> bool
    ensures { result ≡ can_arrive delay transfers.now }
{
    !halts(transfers) && jumps(transfers) && (delay.is_none() || annuls(transfers))
}

fn halts(transfers: &[Transfer]) -> bool
    ensures { result ≡ halts transfers.now }
{
    transfers
        .iter()
        .any(|t| t.guard.is_none() && is_trap(&t.act))
}

fn jumps(transfers: &[Transfer]) -> bool
    ensures { result ≡ list_any (λ t. is_jump t.act) transfers.now }
{
    transfers.iter().any(|t| is_jump(&t.act))
}

fn annuls(transfers: &[Transfer]) -> bool
    ensures { result ≡ list_any (λ t. is_annul t.act) transfers.now }
{
    transfers.iter().any(|t| is_annul(&t.act))
}

fn is_trap(act: &Act) -> bool
    ensures { result ≡ is_trap act.now }
{
    matches!(act, Act::Trap(_))
}

fn is_jump(act: &Act) -> bool
    ensures { result ≡ is_jump act.now }
{
    matches!(act, Act::Jump(_))
}

fn is_annul(act: &Act) -> bool
    ensures { result ≡ is_annul act.now }
{
    matches!(act, Act::Annul)
}

/// The jump that is still to come behind a jump at an address.
fn pending(pc: u32, kind: JumpKind) -> Slot
    ensures { result ≡ pending pc kind }
{
    match kind {
        JumpKind::Never => Slot::Seq,
        JumpKind::To(t) => Slot::To(t),
        JumpKind::Dyn => Slot::Dyn(pc),
        JumpKind::CallTo(t, back) => Slot::CallTo(t, back),
        JumpKind::CallDyn(back) => Slot::CallDyn(back),
        JumpKind::Ret => Slot::Ret,
    }
}
