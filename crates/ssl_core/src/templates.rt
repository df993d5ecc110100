//! The templates so far, by their constructors.
ghost use Rattle.std.specs.Prelude.{◌≡◌, [], ◌∷◌, ◌++◌, None, OnOk, MatchOption, option_map};
ghost use Rattle.ssl_core.specs.Shown.{facts_of, made_of, made_for, made_list};
ghost use Rattle.rtl_core.specs.SoundTemplates.{is_place};

use indexmap::IndexMap;
use rtl_core::Template;
use std::alloc::{AllocError, Global};

/// A template: its width where it is an operand's, and its nodes, read and assigned.
#[derive(Drop)]
pub struct Built {
    pub width: u8,
    pub template: Template,
    pub read: u32,
    pub assigned: u32,
}

/// What lines that name a constructor ask of its template.
#[derive(Clone, Copy, Debug, PartialEq, Eq)]
pub struct Facts {
    pub place: bool,
    pub read: u32,
    pub assigned: u32,
}

/// Templates, in the order in which they were added.
#[derive(Drop)]
pub struct Templates {
    built: IndexMap<u16, Built>,
}

/// Whether a template is a place.
fn is_place(template: &Template) -> bool
    ensures { result ≡ is_place template.now }
{
    match template {
        Template::Place(_) => true,
        _ => false,
    }
}

impl Templates {
    /// None.
    pub fn new(alloc: Global) -> Templates
        ensures { made_list result ≡ [] }
    {
        Templates {
            built: IndexMap::new(alloc),
        }
    }

    /// One more, of a constructor that has none.
    pub fn add(&mut self, constructor: u16, built: Built) -> Result<(), AllocError>
        requires { made_for (made_list self.old) constructor ≡ None }
        ensures { OnOk result (made_list self.new ≡ made_list self.old ++ made_of constructor built ∷ []) }
    {
        self.built.insert(constructor, built)?;
        Ok(())
    }

    /// What is asked of the template of a constructor.
    pub fn facts(&self, constructor: u16) -> Option<Facts>
        ensures { result ≡ option_map facts_of (made_for (made_list self.now) constructor) }
    {
        let built = self.built.get(&constructor)?;
        Some(Facts {
            place: is_place(&built.template),
            read: built.read,
            assigned: built.assigned,
        })
    }

    /// Takes the last out, with its constructor.
    pub fn pop(&mut self) -> Option<(u16, Built)>
        ensures { MatchOption result (made_list self.old ≡ []) (λ last. made_list self.old ≡ made_list self.new ++ made_of last.0 last.1 ∷ []) }
    {
        self.built.pop()
    }
}
