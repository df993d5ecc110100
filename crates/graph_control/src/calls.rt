//! The call list.
ghost use Rattle.std.specs.Prelude.{◌≡◌, ◌<◌, ◌≤◌, [], ◌∷◌, length, Some, None, MatchOption, IfOk};
ghost use Rattle.points.specs.Control.{most_calls};
ghost use Rattle.graph_control.specs.OpenCalls.{open_call};

use points::Member;
use std::alloc::{AllocError, Global};
use std::marker::Model;

/// How many members the call list may have.
pub const MOST_CALLS: usize = 65_536;

/// The call list, with room for 65,536 members. Contracts see it as a list, the latest member first.
#[derive(Drop)]
pub struct Calls {
    members: Vec<Member>,
}

impl Model for Calls {
    ghost use Rattle.std.specs.Prelude.{List, ◌≤◌, reverse, length, vec_capacity};
    ghost use Rattle.points.specs.declared.block.Member.{Member};

    ghost Value = { List Member };

    ghost view = { λ s. reverse s.members.items };

    ghost invariant = { λ s. (length s.members.items ≤ 65536) × (65536 ≤ vec_capacity s.members) };
}

impl Calls {
    /// No members. The error is want of memory.
    pub fn reserve(alloc: Global) -> Result<Calls, AllocError>
        ensures { IfOk result (λ calls. calls ≡ []) }
    {
        Ok(Calls {
            members: Vec::with_capacity(alloc, MOST_CALLS)?,
        })
    }

    /// How many members there are.
    pub fn len(&self) -> usize
        ensures exact { result ≡ length self.now }
        ensures most { result ≤ most_calls }
    {
        self.members.len()
    }

    /// Puts a member first; takes no memory.
    pub fn push(&mut self, member: Member)
        requires { length self.old < most_calls }
        ensures { self.new ≡ member ∷ self.old }
    {
        self.members.push_reserved(member);
    }

    /// Takes the last open call away, and all that was entered for it since: its return address. `None` exactly where no call is open.
    pub fn pop_call(&mut self) -> Option<u32>
        ensures { MatchOption result (open_call self.old ≡ None) (λ back. open_call self.old ≡ Some (record { back = back; rest = self.new })) }
    {
        while let Some(member) = self.pop() {
            match member {
                Member::Call(back) => return Some(back),
                Member::Tail => {}
            }
        }
        None
    }

    /// Takes the first member away; `None` exactly where there is none.
    fn pop(&mut self) -> Option<Member>
        ensures { MatchOption result ((self.old ≡ []) × (self.new ≡ [])) (λ member. self.old ≡ member ∷ self.new) }
    {
        self.members.pop()
    }
}
