//! What the lines so far give.
ghost use Rattle.std.specs.Prelude.{◌≡◌, None, IfOk, replicate};
ghost use Rattle.rtl_core.specs.SoundEncodings.{IsSoundEncodings};
ghost use Rattle.ssl_rules.specs.Given.{nothing_given};
ghost use Rattle.ssl_core.specs.State.{shown, Holds};

use crate::constructors::type_table;
use crate::templates::Templates;
use rtl_core::{Encodings, WinShape};
use sqlite_items::Items;
use ssl_rules::{Stands, Tables};
use std::alloc::{AllocError, Global};

/// What the lines so far give; for each constructor its type; for each type the width of its first template, and what
/// its constructors stand for, where that was asked and each has a template.
#[derive(Drop)]
pub struct Given {
    pub align: Option<bool>,
    pub delay: Option<Option<u8>>,
    pub zeroed: Option<u8>,
    pub windows: Option<WinShape>,
    pub tables: Tables,
    pub templates: Templates,
    pub types: Items<usize>,
    pub widths: Items<Option<u8>>,
    pub stands: Items<Option<Stands>>,
}

/// No width for so many types.
fn no_widths(alloc: Global, count: usize) -> Result<Items<Option<u8>>, AllocError>
    ensures { IfOk result (λ widths. widths ≡ replicate count None) }
{
    let mut widths = Items::new(alloc);
    for _k in 0..count {
        widths.push(None)?;
    }
    Ok(widths)
}

/// Nothing known of so many types.
fn no_stands(alloc: Global, count: usize) -> Result<Items<Option<Stands>>, AllocError>
    ensures { IfOk result (λ stands. stands ≡ replicate count None) }
{
    let mut stands = Items::new(alloc);
    for _k in 0..count {
        stands.push(None)?;
    }
    Ok(stands)
}

impl Given {
    /// Before the first line.
    pub fn new(alloc: Global, enc: &Encodings) -> Result<Given, AllocError>
        requires { IsSoundEncodings enc.now }
        ensures shown { IfOk result (λ g. shown g ≡ nothing_given) }
        ensures holds { IfOk result (λ g. Holds enc.now g) }
    {
        Ok(Given {
            align: None,
            delay: None,
            zeroed: None,
            windows: None,
            tables: Tables::new(alloc),
            templates: Templates::new(alloc),
            types: type_table(alloc, enc)?,
            widths: no_widths(alloc, enc.types.len())?,
            stands: no_stands(alloc, enc.types.len())?,
        })
    }
}
