//! The bytes of an image that no store changes.
ghost use Rattle.std.specs.Prelude.{◌≡◌, IfNone, IfSome, true};
ghost use Rattle.std.specs.Option.{option_copied};
ghost use Rattle.rtl_core.specs.Code.{part_of, is_in, frozen_byte, code_from, is_code};

use sqlite_items::Items;

/// Bytes from an address on, and whether they are code.
#[derive(Debug, Drop)]
pub struct FrozenPart {
    pub base: u32,
    pub code: bool,
    pub bytes: Items<u8>,
}

impl FrozenPart {
    /// Whether an address lies in this part.
    fn holds(&self, a: u32) -> bool
        ensures { result ≡ is_in self.now a }
    {
        self.base <= a && ((a - self.base) as usize) < self.bytes.len()
    }
}

/// An image's bytes that are mapped without the right to write.
#[derive(Debug, Drop)]
pub struct Frozen {
    pub parts: Items<FrozenPart>,
}

impl Frozen {
    /// The byte at an address; `None` exactly where it is not frozen.
    #[tactic(auto, unfolding(crate::specs::Code::frozen_byte))]
    pub fn byte(&self, a: u32) -> Option<u8>
        ensures { result ≡ frozen_byte self.now a }
    {
        let part = self.part(a)?;
        part.bytes.get((a - part.base) as usize).copied()
    }

    /// Whether an address is code.
    #[tactic(auto, unfolding(crate::specs::Code::code_from))]
    pub fn in_code(&self, a: u32) -> bool
        ensures { result ≡ is_code self.now a }
    {
        match self.part(a) {
            Some(part) => part.code,
            None => false,
        }
    }

    /// The bytes of code from an address to the end of its part; `None` exactly where it is not code.
    #[tactic(auto, unfolding(crate::specs::Code::code_from))]
    pub fn rest(&self, a: u32) -> Option<&[u8]>
        ensures none { IfNone result (code_from self.now a ≡ None) }
        ensures some { IfSome result (λ bytes. code_from self.now a ≡ Some bytes.now) }
    {
        let part = self.part(a)?;
        if !part.code {
            return None;
        }
        Some(&part.bytes.as_slice()[(a - part.base) as usize..])
    }

    /// The first part in which an address lies.
    fn part(&self, a: u32) -> Option<&FrozenPart>
        ensures part { option_copied result ≡ part_of self.now.parts a }
        ensures holds { IfSome result (λ p. is_in p.now a ≡ true) }
    {
        for part in self.parts.as_slice() {
            if part.holds(a) {
                return Some(part);
            }
        }
        None
    }
}
