//! The nodes of a function's body, where a parameter counts as its argument does.
ghost use Rattle.std.specs.Prelude.{◌≡◌, ◌≤◌, slice_get, unwrap_or};
ghost use Rattle.ssl_rules.specs.Formulas.{leaf_nodes};
ghost use Rattle.ssl_nodes.specs.Sums.{few, nodes_with};

use ssl_rules::{Formula, Leaf};

/// A number of nodes; more than 256 are told as 257.
pub fn few(n: u32) -> u32
    ensures exact { result ≡ few n }
    ensures most { result ≤ 257 }
{
    n.min(257)
}

/// The nodes of a part without parts.
pub fn leaf_count(leaf: Leaf) -> u32
    ensures exact { result ≡ few (leaf_nodes leaf) }
    ensures most { result ≤ 257 }
{
    match leaf {
        Leaf::Part(_) => 2,
        Leaf::Typed(_, stands) => few(stands.read),
        _ => 1,
    }
}

/// The nodes of the argument at a place.
fn argument_count(args: &[u32], place: usize) -> u32
    ensures { result ≡ unwrap_or (slice_get args.now place) 1 }
{
    match args.get(place) {
        Some(count) => *count,
        None => 1,
    }
}

/// The nodes of a body, by those of the arguments.
#[cycle(body)]
#[tactic(auto, using(crate::proofs::BodyLaws::body_laws))]
pub fn body_count(body: &Formula, args: &[u32]) -> u32
    ensures exact { result ≡ few (nodes_with args.now body.now) }
    ensures most { result ≤ 257 }
{
    match body {
        Formula::Param(place) => few(argument_count(args, *place)),
        Formula::Leaf(leaf) => leaf_count(*leaf),
        Formula::Load(_, a) => few(1 + body_count(a.get(), args)),
        Formula::Un(_, a) => few(1 + body_count(a.get(), args)),
        Formula::Bin(_, a, b) => {
            let left = body_count(a.get(), args);
            few(1 + left + body_count(b.get(), args))
        }
        Formula::Slice(a, _, _) => few(1 + body_count(a.get(), args)),
        Formula::Zext(_, a) => few(1 + body_count(a.get(), args)),
        Formula::Sext(_, a) => few(1 + body_count(a.get(), args)),
        Formula::If(c, a, b) => {
            let condition = body_count(c.get(), args);
            let first = body_count(a.get(), args);
            few(1 + condition + first + body_count(b.get(), args))
        }
    }
}
