//! The table of names.
ghost use Rattle.std.specs.Prelude.{◌≡◌, [], ◌∷◌, ◌++◌, OnOk, IfSome, false, length, nat_eq};
ghost use Rattle.std.specs.List.{list_any};
ghost use Rattle.std.specs.Cmp.Lexicographic.{pointwise};
ghost use Rattle.std.specs.Option.{option_copied};
ghost use Rattle.sled_rules.specs.Meanings.{named, is_given, is_reserved, is_taken, expression_words, act_words};
ghost use Rattle.sled_rules.specs.Ranges.{IsMeaning};

use crate::meaning::Meaning;
use indexmap::IndexMap;
use std::alloc::{AllocError, Global};
use std::marker::Model;

/// Names with what each stands for, in the order in which they are given.
#[derive(Debug, Drop)]
pub struct Names {
    entries: IndexMap<Vec<u8>, Meaning>,
    alloc: Global,
}

impl Model for Names {
    ghost use Rattle.std.specs.Prelude.{List, ℕ, map, All};
    ghost use Rattle.sled_rules.specs.declared.meaning.Meaning.{Meaning};
    ghost use Rattle.sled_rules.specs.Ranges.{IsMeaning};

    ghost Value = { List (List ℕ × Meaning) };

    ghost view = { λ s. map (λ e. (e.0.items, e.1)) s.entries.entries };

    ghost invariant = { λ s. All (λ e. IsMeaning e.1) s.entries.entries };
}

impl Names {
    /// No names.
    pub fn new(alloc: Global) -> Names
        ensures { result ≡ [] }
    {
        Names {
            entries: IndexMap::new(alloc),
            alloc,
        }
    }

    /// How many names are given.
    pub fn len(&self) -> usize
        ensures { result ≡ length self.now }
    {
        self.entries.len()
    }

    /// What a name stands for.
    pub fn named(&self, name: &[u8]) -> Option<&Meaning>
        ensures exact { option_copied result ≡ named self.now name.now }
        ensures within { IfSome result (λ m. IsMeaning m.now) }
    {
        self.entries.get(name)
    }

    pub fn is_given(&self, name: &[u8]) -> bool
        ensures { result ≡ is_given self.now name.now }
    {
        self.named(name).is_some()
    }

    /// The name is given already or reserved.
    pub fn is_taken(&self, name: &[u8]) -> bool
        ensures { result ≡ is_taken self.now name.now }
    {
        self.is_given(name) || is_reserved(name)
    }

    /// Gives a name.
    pub fn give(&mut self, name: &[u8], meaning: Meaning) -> Result<(), AllocError>
        requires fresh { is_given self.old name.now ≡ false }
        requires within { IsMeaning meaning }
        ensures { OnOk result (self.new ≡ self.old ++ (name.now, meaning) ∷ []) }
    {
        let bytes = Vec::from_slice(self.alloc, name)?;
        self.entries.insert(bytes, meaning)?;
        Ok(())
    }
}

/// A word that stands for nothing else.
fn is_reserved(name: &[u8]) -> bool
    ensures { result ≡ is_reserved name.now }
{
    is_expression_word(name) || is_act_word(name)
}

fn is_expression_word(name: &[u8]) -> bool
    ensures { result ≡ list_any (pointwise nat_eq name.now) expression_words }
{
    name == b"m8".as_slice()
        || name == b"m16".as_slice()
        || name == b"m32".as_slice()
        || name == b"m64".as_slice()
        || name == b"zx".as_slice()
        || name == b"sx".as_slice()
        || name == b"bits".as_slice()
        || name == b"if".as_slice()
}

fn is_act_word(name: &[u8]) -> bool
    ensures { result ≡ list_any (pointwise nat_eq name.now) act_words }
{
    name == b"jump".as_slice()
        || name == b"annul".as_slice()
        || name == b"trap".as_slice()
        || name == b"service".as_slice()
        || name == b"wsave".as_slice()
        || name == b"wrestore".as_slice()
        || name == b"none".as_slice()
}
