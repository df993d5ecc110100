//! Which numbers are in range.
ghost use Rattle.std.specs.Prelude.{◌≡◌, ◌≤◌, ◌^◌, nat_lt, IfSome};
ghost use Rattle.ssl_rules.specs.Widths.{is_width, in_width, slice_width, constant_width, extended_width};

/// Whether a value can have so many bits.
pub fn is_width(width: u64) -> bool
    ensures { result ≡ is_width width }
{
    1 <= width && width <= 64
}

/// A width, where a value can have it.
pub fn in_width(width: u64) -> Option<u8>
    ensures exact { result ≡ in_width width }
    ensures most { IfSome result (λ w. w ≤ 64) }
{
    if is_width(width) {
        Some(width as u8)
    } else {
        None
    }
}

/// The width of the bits `lo` to `hi` of something of so many bits.
pub fn slice_width(lo: u64, hi: u64, width: u8) -> Option<u8>
    ensures { result ≡ slice_width lo hi width }
{
    if lo <= hi && hi < u64::from(width) {
        Some((hi + 1 - lo) as u8)
    } else {
        None
    }
}

/// The width of a constant that fits it.
pub fn constant_width(value: u64, width: u64) -> Option<u8>
    ensures { result ≡ constant_width value width }
{
    if is_width(width) && fits(value, width as u8) {
        Some(width as u8)
    } else {
        None
    }
}

/// Whether a number has at most so many bits.
fn fits(value: u64, width: u8) -> bool
    ensures { result ≡ nat_lt value (2 ^ width) }
{
    if width >= 64 {
        return true;
    }
    value < 1u64 << width
}

/// The width of an extension of something of so many bits.
pub fn extended_width(width: u64, from: u8) -> Option<u8>
    ensures { result ≡ extended_width width from }
{
    if u64::from(from) <= width && is_width(width) {
        Some(width as u8)
    } else {
        None
    }
}
