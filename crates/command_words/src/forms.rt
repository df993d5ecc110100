//! The forms of words.
ghost use Rattle.std.specs.Prelude.{◌≡◌, option_map};
ghost use Rattle.command_words.specs.Forms.{as_command, file_names, form_of, kind_of, sample_of, with_files, with_name, with_prog, with_rival, with_steps, with_three};

use crate::numbers::{count_of, number_of, steps_of};
use crate::{Command, FileWords, Kind, TextWords};
use edge_io::Word;

/// What words ask for: a command where they have its form, and else None.
pub fn form_of<'a>(words: &'a [Word]) -> Option<Command<'a>>
    ensures { option_map as_command result ≡ form_of words.now }
{
    match words {
        [word, name] => with_name(word, name),
        [word, prog, steps] => with_prog(word, prog, steps),
        [word, first, second, third] => with_three(word, first, second, third),
        [word, sled, ssl, conv, exe] => {
            let files = FileWords {
                sled,
                ssl,
                conv,
                exe,
            };
            with_files(word, &files)
        }
        [word, sled, ssl, conv, exe, steps] => {
            let files = FileWords {
                sled,
                ssl,
                conv,
                exe,
            };
            with_steps(word, &files, steps)
        }
        [word, sled, ssl, conv, exe, prog, steps] => {
            let files = FileWords {
                sled,
                ssl,
                conv,
                exe,
            };
            with_rival(word, &files, prog, steps)
        }
        _ => None,
    }
}

/// `text NAME`
fn with_name<'a>(word: &Word, name: &'a Word) -> Option<Command<'a>>
    ensures { option_map as_command result ≡ with_name word.now name.now }
{
    if word.bytes() == b"text".as_slice() {
        return Some(Command::Text(name));
    }
    None
}

/// `runc PROG N`
fn with_prog<'a>(word: &Word, prog: &'a Word, steps: &Word) -> Option<Command<'a>>
    ensures { option_map as_command result ≡ with_prog word.now prog.now steps.now }
{
    if word.bytes() == b"runc".as_slice() {
        return Some(Command::RunC(prog, steps_of(steps.bytes())?));
    }
    None
}

/// `check SLED SSL CONV` or `sample KIND NUMBER COUNT`
fn with_three<'a>(
    word: &Word,
    first: &'a Word,
    second: &'a Word,
    third: &'a Word,
) -> Option<Command<'a>>
    ensures { option_map as_command result ≡ with_three word.now first.now second.now third.now }
{
    if word.bytes() == b"check".as_slice() {
        let texts = TextWords {
            sled: first,
            ssl: second,
            conv: third,
        };
        return Some(Command::Check(texts));
    }
    if word.bytes() == b"sample".as_slice() {
        return sample_of(first, second, third);
    }
    None
}

/// KIND NUMBER COUNT
fn sample_of<'a>(kind: &Word, number: &Word, count: &Word) -> Option<Command<'a>>
    ensures { option_map as_command result ≡ sample_of kind.now number.now count.now }
{
    let kind = kind_of(kind)?;
    let number = number_of(number.bytes())?;
    let count = count_of(count.bytes())?;
    Some(Command::Sample(kind, number, count))
}

/// `sparc` or `i386`
fn kind_of(word: &Word) -> Option<Kind>
    ensures { result ≡ kind_of word.now }
{
    if word.bytes() == b"sparc".as_slice() {
        return Some(Kind::Sparc);
    }
    if word.bytes() == b"i386".as_slice() {
        return Some(Kind::I386);
    }
    None
}

/// `translate SLED SSL CONV EXE` or `list SLED SSL CONV EXE`
fn with_files<'a>(word: &Word, files: &FileWords<'a>) -> Option<Command<'a>>
    ensures { option_map as_command result ≡ with_files word.now (file_names files.now) }
{
    if word.bytes() == b"translate".as_slice() {
        return Some(Command::Translate(*files));
    }
    if word.bytes() == b"list".as_slice() {
        return Some(Command::ListAll(*files));
    }
    None
}

/// `run SLED SSL CONV EXE N` or `both SLED SSL CONV EXE N`
fn with_steps<'a>(word: &Word, files: &FileWords<'a>, steps: &Word) -> Option<Command<'a>>
    ensures { option_map as_command result ≡ with_steps word.now (file_names files.now) steps.now }
{
    if word.bytes() == b"run".as_slice() {
        return Some(Command::Run(*files, steps_of(steps.bytes())?));
    }
    if word.bytes() == b"both".as_slice() {
        return Some(Command::Both(*files, steps_of(steps.bytes())?));
    }
    None
}

/// `versus SLED SSL CONV EXE PROG N`
fn with_rival<'a>(
    word: &Word,
    files: &FileWords<'a>,
    prog: &'a Word,
    steps: &Word,
) -> Option<Command<'a>>
    ensures { option_map as_command result ≡ with_rival word.now (file_names files.now) prog.now steps.now }
{
    if word.bytes() == b"versus".as_slice() {
        return Some(Command::Versus(*files, prog, steps_of(steps.bytes())?));
    }
    None
}
