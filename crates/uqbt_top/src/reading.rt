//! The files of a command.
ghost use Rattle.std.specs.Prelude.{◌≡◌, map, All, IfOk, IfErr, OnOk};
ghost use Rattle.c_control.specs.Programs.{AreBytes};
ghost use Rattle.edge_io.specs.Files.{IsFile};
ghost use Rattle.uqbt_top.specs.Message.{limit_of};
ghost use Rattle.command_words.specs.Forms.{file_names, text_names};
ghost use Rattle.uqbt_top.specs.Command.{four_files, three_files};
ghost use Rattle.uqbt_top.specs.Wanted.{wanted, AreFiles};
ghost use Rattle.uqbt_top.specs.Causes.{FetchStopped, ReadStopped};

use crate::{FileName, Outcome};
use command_words::{FileWords, TextWords};
use edge_io::{Fetch, Store, Word};
use std::alloc::Global;
use std::marker::Model;

/// The bytes of a file.
#[derive(Drop)]
pub struct Text {
    bytes: Vec<u8>,
}

impl Model for Text {
    ghost use Rattle.std.specs.Prelude.{List, ℕ};

    ghost Value = { List ℕ };

    ghost view = { λ t. t.bytes.items };
}

impl Text {
    /// The text of these bytes.
    pub fn new(bytes: Vec<u8>) -> Text
        ensures { result ≡ bytes.items }
    {
        Text { bytes }
    }

    /// Its bytes.
    pub fn bytes(&self) -> &[u8]
        ensures { result.now ≡ self.now }
    {
        self.bytes.as_slice()
    }
}

/// A file word, and which file it names.
#[derive(Clone, Copy)]
pub struct FileWord<'a> {
    /// The file.
    pub file: FileName,
    /// The word.
    pub name: &'a Word,
}

/// The items of a slice of bytes are below 256.
pub fn are_bytes(bytes: &[u8])
    ensures { AreBytes bytes.now }
{}

fn read_file<F: Store>(alloc: Global, files: &mut F, word: &FileWord<'_>) -> Result<Text, Outcome>
    ensures small { IfOk result (λ text. AreBytes text) }
    ensures read { IfOk result (λ text. IsFile (F.files files.old) word.now.name.now (limit_of word.now.file) text) }
    ensures kept { OnOk result (F.names files.new ≡ F.names files.old) }
    ensures stopped { IfErr result (FetchStopped (F.files files.old) (wanted word.now) (F.names files.old) (F.names files.new)) }
    ensures files { F.files files.new ≡ F.files files.old }
{
    match files.fetch(alloc, word.name, word.file.limit()) {
        Ok(bytes) => {
            are_bytes(bytes.as_slice());
            Ok(Text::new(bytes))
        }
        Err(Fetch::Failed) => Err(Outcome::ReadFault),
        Err(Fetch::TooLong) => Err(Outcome::FileTooLong { file: word.file }),
        Err(Fetch::NoMemory) => Err(Outcome::NoMemory),
    }
}

/// Reads the files in order, each with its limit, up to the first that isn't given.
pub fn read_files<F: Store>(
    alloc: Global,
    files: &mut F,
    words: &[FileWord<'_>],
) -> Result<Vec<Text>, Outcome>
    ensures small { IfOk result (λ texts. All AreBytes texts.items) }
    ensures read { IfOk result (λ texts. AreFiles (F.files files.old) (map wanted words.now) texts.items) }
    ensures kept { OnOk result (F.names files.new ≡ F.names files.old) }
    ensures stopped { IfErr result (ReadStopped (F.files files.old) (map wanted words.now) (F.names files.old) (F.names files.new)) }
    ensures files { F.files files.new ≡ F.files files.old }
{
    let mut texts = Vec::new(alloc);
    for word in words {
        let text = read_file(alloc, files, word)?;
        texts.push(text)?;
    }
    Ok(texts)
}

/// Reads three descriptions, up to the first that isn't given.
pub fn read_three<F: Store>(
    alloc: Global,
    files: &mut F,
    names: &TextWords<'_>,
) -> Result<Vec<Text>, Outcome>
    ensures small { IfOk result (λ texts. All AreBytes texts.items) }
    ensures read { IfOk result (λ texts. AreFiles (F.files files.old) (three_files (text_names names.now)) texts.items) }
    ensures kept { OnOk result (F.names files.new ≡ F.names files.old) }
    ensures stopped { IfErr result (ReadStopped (F.files files.old) (three_files (text_names names.now)) (F.names files.old) (F.names files.new)) }
    ensures files { F.files files.new ≡ F.files files.old }
{
    let words = [
        FileWord {
            file: FileName::Sled,
            name: names.sled,
        },
        FileWord {
            file: FileName::Ssl,
            name: names.ssl,
        },
        FileWord {
            file: FileName::Conv,
            name: names.conv,
        },
    ];
    read_files(alloc, files, &words)
}

/// Reads three descriptions and an executable, up to the first that isn't given.
pub fn read_four<F: Store>(
    alloc: Global,
    files: &mut F,
    names: &FileWords<'_>,
) -> Result<Vec<Text>, Outcome>
    ensures small { IfOk result (λ texts. All AreBytes texts.items) }
    ensures read { IfOk result (λ texts. AreFiles (F.files files.old) (four_files (file_names names.now)) texts.items) }
    ensures kept { OnOk result (F.names files.new ≡ F.names files.old) }
    ensures stopped { IfErr result (ReadStopped (F.files files.old) (four_files (file_names names.now)) (F.names files.old) (F.names files.new)) }
    ensures files { F.files files.new ≡ F.files files.old }
{
    let words = [
        FileWord {
            file: FileName::Sled,
            name: names.sled,
        },
        FileWord {
            file: FileName::Ssl,
            name: names.ssl,
        },
        FileWord {
            file: FileName::Conv,
            name: names.conv,
        },
        FileWord {
            file: FileName::Exe,
            name: names.exe,
        },
    ];
    read_files(alloc, files, &words)
}
