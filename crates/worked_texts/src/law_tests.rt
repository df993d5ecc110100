//! The laws of texts need nothing of their callers.
use c_unique::{no_two_spellings, one_program};
use scan::{blanks_separate, pieces_compose};

#[test]
fn laws_need_nothing() {
    blanks_separate::<u8>();
    pieces_compose::<u8>();
    no_two_spellings();
    one_program();
}
