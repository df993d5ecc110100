//! Spans of addresses that lie apart.
ghost use Rattle.std.specs.Prelude.{◌≡◌, map, nat_le, sum_by};
ghost use Rattle.std.specs.List.{All};
ghost use Rattle.std.specs.List.Sorted.{IsNonDecreasingBy, IsPermutation};
ghost use Rattle.c_lang.specs.StaticRules.{is_below_end, most_image, no_two, share_byte};
ghost use Rattle.c_rules.specs.Spans.{EndsBelow, are_apart, range};

/// The end of all addresses.
const END: u64 = 1 << 32;

/// So many bytes from a base on.
#[derive(Clone, Copy)]
pub struct Span {
    pub base: u64,
    pub len: u64,
}

/// Whether a span ends at 2^32 or before.
pub fn is_below_end(span: Span) -> bool
    ensures { result ≡ is_below_end (range span) }
{
    span.base <= END && span.len <= END - span.base
}

/// Whether two spans share an address.
pub fn share_byte(one: Span, other: Span) -> bool
    requires one { EndsBelow one }
    requires other { EndsBelow other }
    ensures { result ≡ share_byte (range one) (range other) }
{
    one.base.max(other.base) < (one.base + one.len).min(other.base + other.len)
}

/// The bytes that all segments may have together.
const MOST_IMAGE: u64 = 16777216;

/// Whether the spans have no more bytes together than all segments may have.
#[tactic(auto, using(crate::proofs::Spread::sum_laws))]
pub fn is_small(spans: &[Span]) -> bool
    ensures { result ≡ nat_le (sum_by (λ s. s.len) spans.now) most_image }
{
    let mut room = MOST_IMAGE;
    for span in spans {
        if span.len > room {
            return false;
        }
        room -= span.len;
    }
    true
}

/// Whether spans in the order of their bases lie apart.
#[tactic(auto, using(crate::proofs::Spread::span_laws))]
fn are_apart(spans: &[Span]) -> bool
    requires { All EndsBelow spans.now }
    ensures { result ≡ are_apart 0 (map range spans.now) }
{
    let mut end = 0;
    for span in spans {
        if span.len > 0 {
            if span.base < end {
                return false;
            }
            end = span.base + span.len;
        }
    }
    true
}

/// The spans in the order of their bases.
fn in_order(spans: Vec<Span>) -> Vec<Span>
    ensures moved { IsPermutation spans.items result.items }
    ensures rising { IsNonDecreasingBy (λ s. s.base) result.items }
{
    let mut order = spans;
    order.sort_unstable_by_key(|span| span.base);
    order
}

/// Whether no two of the spans share an address.
pub fn lie_apart(spans: Vec<Span>) -> bool
    requires { All EndsBelow spans.items }
    ensures { result ≡ no_two share_byte (map range spans.items) }
{
    are_apart(&in_order(spans))
}
