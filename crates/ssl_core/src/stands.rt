//! What the constructors of a type stand for.
ghost use Rattle.std.specs.Prelude.{◌≡◌, false, unwrap_or, option_map};
ghost use Rattle.rtl_core.specs.SoundTemplates.{is_place};
ghost use Rattle.std.specs.List.{list_all};
ghost use Rattle.ssl_rules.specs.Given.{has_template, is_place_type, most_of, stands_for, template_for, type_of, type_width};
ghost use Rattle.ssl_core.specs.State.{shown, Holds};

use crate::constructors::constructors_of;
use crate::given::Given;
use rtl_core::Encodings;
use ssl_rules::Stands;

/// Whether a constructor has a template.
pub fn has_template(given: &Given, constructor: u16) -> bool
    ensures { result ≡ has_template (shown given.now) constructor }
{
    given.templates.facts(constructor).is_some()
}

/// Whether each of these constructors has a template.
pub fn are_made(given: &Given, constructors: &[u16]) -> bool
    ensures { result ≡ list_all (has_template (shown given.now)) constructors.now }
{
    for constructor in constructors {
        if !has_template(given, *constructor) {
            return false;
        }
    }
    true
}

/// The type of a constructor; that of instructions is 0.
pub fn type_of(enc: &Encodings, given: &Given, constructor: u16) -> usize
    requires { Holds enc.now given.now }
    ensures { result ≡ type_of enc.now constructor }
{
    match given.types.get(usize::from(constructor)) {
        Some(kind) => *kind,
        None => 0,
    }
}

/// The width of the first template of a type.
pub fn type_width(enc: &Encodings, given: &Given, kind: usize) -> Option<u8>
    requires { Holds enc.now given.now }
    ensures { result ≡ type_width (shown given.now) enc.now kind }
{
    match given.widths.get(kind) {
        Some(width) => *width,
        None => None,
    }
}

/// Whether the template of a constructor is there and a place.
fn is_place(given: &Given, constructor: u16) -> bool
    ensures { result ≡ unwrap_or (option_map (λ m. is_place m.template) (template_for (shown given.now) constructor)) false }
{
    match given.templates.facts(constructor) {
        Some(facts) => facts.place,
        None => false,
    }
}

/// Whether the template of each of these constructors is there and a place.
fn are_places(given: &Given, constructors: &[u16]) -> bool
    ensures { result ≡ is_place_type (shown given.now) constructors.now }
{
    for constructor in constructors {
        if !is_place(given, *constructor) {
            return false;
        }
    }
    true
}

/// Numbers of nodes, read and assigned.
#[derive(Clone, Copy)]
pub struct Nodes {
    pub read: u32,
    pub assigned: u32,
}

/// The nodes of the template of a constructor, where there is one.
fn nodes_of(given: &Given, constructor: u16) -> Nodes
    ensures read { result.read ≡ unwrap_or (option_map (λ m. m.read) (template_for (shown given.now) constructor)) 0 }
    ensures assigned { result.assigned ≡ unwrap_or (option_map (λ m. m.assigned) (template_for (shown given.now) constructor)) 0 }
{
    match given.templates.facts(constructor) {
        Some(facts) => Nodes {
            read: facts.read,
            assigned: facts.assigned,
        },
        None => Nodes {
            read: 0,
            assigned: 0,
        },
    }
}

/// The most nodes of the templates of these constructors.
pub fn most_nodes(given: &Given, constructors: &[u16]) -> Nodes
    ensures read { result.read ≡ most_of (λ m. m.read) (shown given.now) constructors.now }
    ensures assigned { result.assigned ≡ most_of (λ m. m.assigned) (shown given.now) constructors.now }
{
    let mut read = 0;
    let mut assigned = 0;
    for constructor in constructors {
        let nodes = nodes_of(given, *constructor);
        read = nodes.read.max(read);
        assigned = nodes.assigned.max(assigned);
    }
    Nodes { read, assigned }
}

/// What the constructors of a type stand for.
pub fn stands_for(enc: &Encodings, given: &Given, kind: usize) -> Stands
    requires { Holds enc.now given.now }
    ensures { result ≡ stands_for (shown given.now) enc.now kind }
{
    let constructors = constructors_of(enc, kind);
    let nodes = most_nodes(given, constructors);
    Stands {
        width: type_width(enc, given, kind).unwrap_or(0),
        place: are_places(given, constructors),
        read: nodes.read,
        assigned: nodes.assigned,
    }
}
