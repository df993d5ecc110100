//! What a text is read as, as a law.
ghost use Rattle.c_read.specs.Texts.{ReadsBack};

/// A text that spells a program which keeps the static rules is read as that program, where there is memory; so is what
/// `c_text::write_c` wrote of it.
pub fn reads_back()
    ensures { ReadsBack }
{}
