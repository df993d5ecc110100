//! The texts that are shipped with the program: descriptions of machines, and the header that a C text includes.
#![tactic(auto)]

mod i386_conv;
mod i386_sled;
mod i386_ssl;
mod sparc_conv;
mod sparc_sled;
mod sparc_ssl;
mod uqbt_h;

ghost use Rattle.std.specs.Prelude.{◌≡◌, ◌↔◌, Some, IsSome, codes, option_copied};
ghost use Rattle.desc_texts.specs.Names.{IsShipped};

pub use i386_conv::I386_CONV;
pub use i386_sled::I386_SLED;
pub use i386_ssl::I386_SSL;
pub use sparc_conv::SPARC_CONV;
pub use sparc_sled::SPARC_SLED;
pub use sparc_ssl::SPARC_SSL;
pub use uqbt_h::UQBT_H;

/// The text that is shipped under a name; None exactly where none is.
///
/// `sparc.sled`, `sparc.ssl` and `sparc.conv` describe SPARC V8, user level, integers, and `i386.sled`, `i386.ssl` and `i386.conv` the
/// 80386, the same. `uqbt.h` is the header for gcc and clang.
pub fn shipped(name: &[u8]) -> Option<&'static [u8]>
    ensures sparc_sled { name.now ≡ codes "sparc.sled" → option_copied result ≡ Some SPARC_SLED.now }
    ensures sparc_ssl { name.now ≡ codes "sparc.ssl" → option_copied result ≡ Some SPARC_SSL.now }
    ensures sparc_conv { name.now ≡ codes "sparc.conv" → option_copied result ≡ Some SPARC_CONV.now }
    ensures i386_sled { name.now ≡ codes "i386.sled" → option_copied result ≡ Some I386_SLED.now }
    ensures i386_ssl { name.now ≡ codes "i386.ssl" → option_copied result ≡ Some I386_SSL.now }
    ensures i386_conv { name.now ≡ codes "i386.conv" → option_copied result ≡ Some I386_CONV.now }
    ensures uqbt_h { name.now ≡ codes "uqbt.h" → option_copied result ≡ Some UQBT_H.now }
    ensures other { IsSome result ↔ IsShipped name.now }
{
    if name == b"sparc.sled".as_slice() {
        return Some(SPARC_SLED);
    }
    if name == b"sparc.ssl".as_slice() {
        return Some(SPARC_SSL);
    }
    if name == b"sparc.conv".as_slice() {
        return Some(SPARC_CONV);
    }
    if name == b"i386.sled".as_slice() {
        return Some(I386_SLED);
    }
    if name == b"i386.ssl".as_slice() {
        return Some(I386_SSL);
    }
    if name == b"i386.conv".as_slice() {
        return Some(I386_CONV);
    }
    if name == b"uqbt.h".as_slice() {
        return Some(UQBT_H);
    }
    None
}
