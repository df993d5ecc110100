//! Templates, and what is known of them.
ghost use Rattle.std.specs.Prelude.{◌≡◌, ◌<◌, ℕ, None, true, nat_le, is_some, IfOk, OnOk, length};
ghost use Rattle.std.specs.List.{list_all};
ghost use Rattle.rtl_core.specs.SoundEncodings.{IsSoundEncodings};
ghost use Rattle.ssl_rules.specs.LineScope.{scope};
ghost use Rattle.ssl_rules.specs.Counted.{is_counted_expr, is_counted_transfer};
ghost use Rattle.ssl_rules.specs.Widths.{measured, is_transfer_in_range};
ghost use Rattle.ssl_rules.specs.Places.{act_assigns_place};
ghost use Rattle.ssl_rules.specs.Formulas.{expanded, nodes};
ghost use Rattle.ssl_rules.specs.Templates.{transfers_nodes};
ghost use Rattle.ssl_rules.specs.Given.{operand_made, instruction_made};
ghost use Rattle.ssl_core.specs.Shown.{made_of, made_for, made_list};
ghost use Rattle.ssl_core.specs.State.{shown, Holds};
ghost use Rattle.ssl_core.specs.TypeTables.{with_width};
ghost use Rattle.ssl_core.specs.MoreTemplates.{with_made};

use crate::given::Given;
use crate::stands::type_of;
use crate::templates::Built;
use rtl_core::Encodings;
use sqlite_items::Items;
use ssl_checks::measure;
use ssl_nodes::node_count;
use ssl_rules::LineNames;
use ssl_syntax::{SslExpr, SslTransfer};
use ssl_templates::{
    assigned_count, expand, instruction_template, operand_template, transfers_count,
};
use std::alloc::{AllocError, Global};

/// The template of a typed constructor.
#[tactic(auto, using(crate::proofs::FewLemmas::few_is))]
pub fn operand_built(alloc: Global, names: &LineNames, e: &SslExpr) -> Result<Built, AllocError>
    requires counted { is_counted_expr (scope names.now) e.now ≡ true }
    requires ranged { is_some (measured (scope names.now) e.now).width ≡ true }
    requires small { nat_le (nodes (expanded (scope names.now) e.now)) 256 ≡ true }
    ensures { IfOk result (λ built. (c : ℕ) → made_of c built ≡ operand_made (scope names.now) c e.now) }
{
    let formula = expand(alloc, names, e)?;
    let read = node_count(alloc, names, e)?;
    Ok(Built {
        width: measure(names, e).width.unwrap_or(0),
        template: operand_template(alloc, &formula)?,
        read,
        assigned: assigned_count(&formula, read),
    })
}

/// The template of an instruction.
#[tactic(auto, using(crate::proofs::FewLemmas::few_is))]
pub fn instruction_built(
    alloc: Global,
    names: &LineNames,
    transfers: &[SslTransfer],
) -> Result<Built, AllocError>
    requires counted { list_all (is_counted_transfer (scope names.now)) transfers.now ≡ true }
    requires ranged { list_all (is_transfer_in_range (scope names.now)) transfers.now ≡ true }
    requires places { list_all (λ t. act_assigns_place (scope names.now) t.act) transfers.now ≡ true }
    requires small { nat_le (transfers_nodes (scope names.now) transfers.now) 256 ≡ true }
    ensures { IfOk result (λ built. (c : ℕ) → made_of c built ≡ instruction_made (scope names.now) c transfers.now) }
{
    Ok(Built {
        width: 0,
        template: instruction_template(alloc, names, transfers)?,
        read: transfers_count(alloc, names, transfers)?,
        assigned: 0,
    })
}

/// Notes the width of the first template of a type.
fn note_width(widths: &mut Items<Option<u8>>, kind: usize, width: u8)
    ensures { widths.new ≡ with_width widths.old kind width }
{
    if let Some(None) = widths.get(kind) {
        widths.set(kind, Some(width));
    }
}

/// One template more, of a constructor that has none.
pub fn add_template(
    enc: &Encodings,
    given: &mut Given,
    constructor: u16,
    built: Built,
) -> Result<(), AllocError>
    requires sound { IsSoundEncodings enc.now }
    requires holds { Holds enc.now given.old }
    requires there { constructor < length enc.now.constructors }
    requires first { made_for (made_list given.old.templates) constructor ≡ None }
    ensures gives { OnOk result (shown given.new ≡ with_made (shown given.old) (made_of constructor built)) }
    ensures holds { OnOk result (Holds enc.now given.new) }
{
    let kind = type_of(enc, given, constructor);
    let width = built.width;
    given.templates.add(constructor, built)?;
    note_width(&mut given.widths, kind, width);
    Ok(())
}
