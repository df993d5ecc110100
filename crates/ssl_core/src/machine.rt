//! The machine that lines give.
ghost use Rattle.std.specs.Prelude.{◌≡◌, [], IfOk};
ghost use Rattle.ssl_rules.specs.Machines.{named_machine};
ghost use Rattle.ssl_core.specs.State.{shown};
ghost use Rattle.ssl_core.specs.Forms.{made_forms, with_template};
ghost use Rattle.ssl_core.specs.Shown.{made_list};

use crate::constructors::constructors_of;
use crate::given::Given;
use crate::stands::most_nodes;
use crate::templates::Templates;
use rtl_core::{Coded, Encodings, Form, Machine, NamedMachine, Template};
use sqlite_items::Items;
use std::alloc::{AllocError, Global};

/// The forms of constructors, without a template.
fn bare_forms(alloc: Global, constructors: &[Coded]) -> Result<Vec<Form>, AllocError>
    ensures { IfOk result (λ forms. forms.items ≡ made_forms [] 0 constructors.now) }
{
    let mut forms = Vec::new(alloc);
    for coded in constructors {
        let kinds = Items::from_slice(alloc, coded.kinds.as_slice())?;
        let template = Template::Acts(Items::new(alloc));
        forms.push(Form { kinds, template })?;
    }
    Ok(forms)
}

/// Puts a template into the form of its constructor.
fn put_template(forms: &mut Vec<Form>, constructor: usize, template: Template)
    ensures { forms.new.items ≡ with_template forms.old.items constructor template }
{
    if constructor < forms.len() {
        forms[constructor].template = template;
    }
}

/// The forms of constructors by their templates.
fn forms_of(
    alloc: Global,
    constructors: &[Coded],
    templates: Templates,
) -> Result<Items<Form>, AllocError>
    ensures { IfOk result (λ forms. forms ≡ made_forms (made_list templates) 0 constructors.now) }
{
    let mut forms = bare_forms(alloc, constructors)?;
    let mut rest = templates;
    while let Some((constructor, built)) = rest.pop() {
        put_template(&mut forms, usize::from(constructor), built.template);
    }
    Ok(Items::from_vec(forms))
}

/// The constructors of each type.
fn types_of(alloc: Global, types: &[Items<u16>]) -> Result<Items<Items<u16>>, AllocError>
    ensures { IfOk result (λ all. all ≡ types.now) }
{
    let mut all = Items::new(alloc);
    for constructors in types {
        all.push(Items::from_slice(alloc, constructors.as_slice())?)?;
    }
    Ok(all)
}

/// The machine that lines give, and the names of its cells.
pub fn named_machine(
    alloc: Global,
    enc: &Encodings,
    given: Given,
) -> Result<NamedMachine, AllocError>
    ensures { IfOk result (λ named. named ≡ named_machine enc.now (shown given)) }
{
    let nodes = most_nodes(&given, constructors_of(enc, 0));
    let types = types_of(alloc, enc.types.as_slice())?;
    let Given {
        align,
        delay,
        zeroed,
        windows,
        tables,
        templates,
        types: _,
        widths: _,
        stands: _,
    } = given;
    let machine = Machine {
        order: enc.order,
        align: align.unwrap_or(false),
        delay: delay.unwrap_or(None),
        widths: tables.widths,
        zero: zeroed,
        windows,
        files: tables.files,
        forms: forms_of(alloc, enc.constructors.as_slice(), templates)?,
        types,
        most_nodes: nodes.read,
    };
    Ok(NamedMachine {
        machine,
        names: tables.cells,
    })
}
