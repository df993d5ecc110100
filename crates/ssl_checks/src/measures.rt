//! The widths of expressions: whether all numbers are in range, and the first two widths that differ.
ghost use Rattle.std.specs.Prelude.{◌≡◌, Some, None, map, is_some, option_map, option_and_then, ◌&&◌, drop};
ghost use Rattle.std.specs.Option.{option_or};
ghost use Rattle.std.specs.List.{list_all};
ghost use Rattle.ssl_rules.specs.LineScope.{scope};
ghost use Rattle.ssl_checks.specs.Arguments.{argument_differs};
ghost use Rattle.rtl_core.specs.Arithmetic.{result_width};
ghost use Rattle.ssl_rules.specs.Operators.{operator};
ghost use Rattle.ssl_rules.specs.Widths.{measured, behind, paired, asked, asked_of, args_differ, called_width, slice_width, extended_width};

use crate::named_widths::{at_op_width, at_width, named_width};
use crate::ranges::{constant_width, extended_width, slice_width};
use rtl_core::Bin;
use ssl_rules::{Function, LineNames, Measure, Mismatch, operator};
use ssl_syntax::SslExpr;

/// The width of an expression, and the first two widths in it that differ.
#[cycle(measure)]
#[tactic(auto, using(ssl_syntax::proofs::FoldLaws::fold_laws, crate::proofs::CallLaws::measured_call))]
pub fn measure(names: &LineNames, e: &SslExpr) -> Measure
    ensures { result ≡ measured (scope names.now) e.now }
{
    match e {
        SslExpr::Number(value, width) => leaf(constant_width(*value, *width)),
        SslExpr::Named(name) => leaf(named_width(names, name.as_slice())),
        SslExpr::At(name, index) => leaf(at_width(names.tables, name.as_slice(), *index)),
        SslExpr::AtOp(name, op) => leaf(at_op_width(names, name.as_slice(), op.as_slice())),
        SslExpr::Load(bits, a) => load(*bits, measure(names, a.get())),
        SslExpr::Not(a) => measure(names, a.get()),
        SslExpr::Neg(a) => measure(names, a.get()),
        SslExpr::Bin(op, a, b) => {
            let left = measure(names, a.get());
            sides(operator(*op), left, measure(names, b.get()))
        }
        SslExpr::Bits(a, lo, hi) => slice(measure(names, a.get()), *lo, *hi),
        SslExpr::Zext(width, a) => extension(*width, measure(names, a.get())),
        SslExpr::Sext(width, a) => extension(*width, measure(names, a.get())),
        SslExpr::If(c, a, b) => {
            let condition = measure(names, c.get());
            let first = measure(names, a.get());
            choice(condition, first, measure(names, b.get()))
        }
        SslExpr::Call(name, args) => match names.tables.function(name.as_slice()) {
            None => leaf(None),
            Some(function) => call(names, function, args.as_slice()),
        },
        SslExpr::Pc => leaf(Some(32)),
        SslExpr::Next => leaf(Some(32)),
    }
}

/// A call: its arguments, and then the width of the function.
#[cycle(measure)]
fn call(names: &LineNames, function: &Function, args: &[SslExpr]) -> Measure
    ensures width { result.width ≡ called_width (list_all (λ e. is_some (measured (scope names.now) e).width) args.now) function.now }
    ensures differs { result.differs ≡ args_differ function.now.params (map (measured (scope names.now)) args.now) }
{
    let mut params = function.params.as_slice();
    let mut ranged = true;
    let mut differs = None;
    for e in args {
        let arg = measure(names, e);
        ranged = both(ranged, arg.width);
        differs = or(differs, argument(params, arg));
        params = behind_first(params);
    }
    call_measure(function, ranged, differs)
}

/// The width of a function whose arguments are in range.
fn call_measure(function: &Function, ranged: bool, differs: Option<Mismatch>) -> Measure
    ensures { result ≡ record { width = called_width ranged function.now; differs = differs } }
{
    if ranged {
        Measure {
            width: Some(function.width),
            differs,
        }
    } else {
        Measure {
            width: None,
            differs,
        }
    }
}

/// Whether a width is there besides.
fn both(ranged: bool, width: Option<u8>) -> bool
    ensures { result ≡ (ranged && is_some width) }
{
    ranged && width.is_some()
}

/// An argument against the first of these parameters.
fn argument(params: &[u8], arg: Measure) -> Option<Mismatch>
    ensures { result ≡ argument_differs params.now arg }
{
    match params.first() {
        Some(want) => asked_of(*want, arg),
        None => None,
    }
}

/// What is behind the first.
fn behind_first(params: &[u8]) -> &[u8]
    ensures { result.now ≡ drop 1 params.now }
{
    match params.split_first() {
        Some((_, rest)) => rest,
        None => params,
    }
}

/// A load of so many bits.
pub fn load(bits: u8, address: Measure) -> Measure
    ensures { result ≡ record { width = option_map (λ _. bits) address.width; differs = asked_of 32 address } }
{
    Measure {
        width: address.width.map(|_| bits),
        differs: asked_of(32, address),
    }
}

/// The two sides of an operator.
fn sides(op: Bin, a: Measure, b: Measure) -> Measure
    ensures { result ≡ record { width = behind b.width (option_map (result_width op) a.width); differs = option_or a.differs (option_or b.differs (paired a.width b.width)) } }
{
    Measure {
        width: sides_width(op, a.width, b.width),
        differs: or(a.differs, or(b.differs, paired(a.width, b.width))),
    }
}

/// The width of an operator's result, from those of its sides.
fn sides_width(op: Bin, a: Option<u8>, b: Option<u8>) -> Option<u8>
    ensures { result ≡ behind b (option_map (result_width op) a) }
{
    match (a, b) {
        (Some(width), Some(_)) => Some(result_width(op, width)),
        _ => None,
    }
}

/// The width of an operator's result.
fn result_width(op: Bin, width: u8) -> u8
    ensures { result ≡ result_width op width }
{
    match op {
        Bin::Eq | Bin::Ne | Bin::LtU | Bin::LtS | Bin::LeU | Bin::LeS => 1,
        _ => width,
    }
}

/// Bits of something.
fn slice(a: Measure, lo: u64, hi: u64) -> Measure
    ensures { result ≡ record { width = option_and_then (slice_width lo hi) a.width; differs = a.differs } }
{
    let width = match a.width {
        Some(width) => slice_width(lo, hi, width),
        None => None,
    };
    Measure {
        width,
        differs: a.differs,
    }
}

/// An extension of something.
fn extension(to: u64, a: Measure) -> Measure
    ensures { result ≡ record { width = option_and_then (extended_width to) a.width; differs = a.differs } }
{
    let width = match a.width {
        Some(width) => extended_width(to, width),
        None => None,
    };
    Measure {
        width,
        differs: a.differs,
    }
}

/// A choice: its condition, and its two branches.
fn choice(c: Measure, a: Measure, b: Measure) -> Measure
    ensures { result ≡ record { width = behind c.width (behind b.width a.width); differs = option_or c.differs (option_or (asked 1 c.width) (option_or a.differs (option_or b.differs (paired a.width b.width)))) } }
{
    Measure {
        width: if c.width.is_some() && b.width.is_some() {
            a.width
        } else {
            None
        },
        differs: or(
            asked_of(1, c),
            or(a.differs, or(b.differs, paired(a.width, b.width))),
        ),
    }
}

/// Something without parts.
pub fn leaf(width: Option<u8>) -> Measure
    ensures { result ≡ record { width = width; differs = None } }
{
    Measure {
        width,
        differs: None,
    }
}

/// The first mismatch, else the second.
pub fn or(first: Option<Mismatch>, second: Option<Mismatch>) -> Option<Mismatch>
    ensures { result ≡ option_or first second }
{
    match first {
        Some(mismatch) => Some(mismatch),
        None => second,
    }
}

/// A width that its place asks for, and one that is there.
pub fn asked(want: u8, width: Option<u8>) -> Option<Mismatch>
    ensures { result ≡ asked want width }
{
    match width {
        Some(width) if width != want => Some(Mismatch {
            left: want,
            right: width,
        }),
        _ => None,
    }
}

/// Two widths of which none is asked for.
fn paired(first: Option<u8>, second: Option<u8>) -> Option<Mismatch>
    ensures { result ≡ paired first second }
{
    asked(first?, second)
}

/// An expression whose place asks for a width.
pub fn asked_of(want: u8, m: Measure) -> Option<Mismatch>
    ensures { result ≡ asked_of want m }
{
    or(m.differs, asked(want, m.width))
}
