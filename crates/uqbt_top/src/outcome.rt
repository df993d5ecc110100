//! What a run of the program answers.
ghost use Rattle.std.specs.Prelude.{◌≡◌};
ghost use Rattle.uqbt_top.specs.Message.{status_of, stop_status, file_word, limit_of};

use descriptions::DescFault;
use elf32::ElfFault;
use rtl_core::Stop;
use std::alloc::{AllocError, AllocFailed};

/// A file of a command.
#[derive(Clone, Copy, Debug, PartialEq, Eq)]
pub enum FileName {
    /// How instructions are encoded.
    Sled,
    /// What instructions do.
    Ssl,
    /// Where programs live, and how they call services.
    Conv,
    /// The executable.
    Exe,
    /// A C text.
    Prog,
}

/// What refuses an executable.
#[derive(Clone, Copy, Debug, PartialEq, Eq)]
pub enum ExeFault {
    /// The file has this fault.
    Elf(ElfFault),
    /// The segment of this program header, counted from 0, shares a byte with the stack or the heap; none before it does.
    AreaOverlap {
        /// The header's number.
        index: u32,
    },
    /// The entry's procedure has more than 131,072 points; the number told is 131,073.
    TooLarge {
        /// The number told.
        points: u32,
    },
}

/// What a run of the program answers.
#[derive(Clone, Copy, Debug, PartialEq, Eq)]
pub enum Outcome {
    /// All was done.
    Done,
    /// The machine, or the C text, stopped so within the steps.
    Ran(Stop),
    /// The machine stopped so within the steps, and the C text did the same.
    Agreed(Stop),
    /// The machine stopped within the steps, and the C text did something else.
    Differs {
        /// The length of the longest common front of the two outputs.
        at: u128,
    },
    /// The machine, or the C text, did not stop within the steps.
    Spent,
    /// The words have none of the forms of a command.
    Usage,
    /// The first file that has more bytes than its limit.
    FileTooLong {
        /// That file.
        file: FileName,
    },
    /// The first of the three descriptions that has a fault, and its first fault.
    Description {
        /// The description.
        file: FileName,
        /// Its fault.
        fault: DescFault,
    },
    /// The first fault of the executable.
    Executable(ExeFault),
    /// More than 16 MiB of input came.
    InputTooLong,
    /// No memory was found.
    NoMemory,
    /// The output failed.
    WriteFault,
    /// A file or the input could not be read.
    ReadFault,
}

impl From<AllocError> for Outcome {
    ghost use Rattle.uqbt_top.specs.declared.outcome.Outcome.TheVariants.{NoMemory};

    ghost from_gives = { λ _ e. e ≡ NoMemory };

    fn from(_: AllocError) -> Self {
        Outcome::NoMemory
    }
}

impl<T: Drop> From<AllocFailed<T>> for Outcome {
    ghost use Rattle.uqbt_top.specs.declared.outcome.Outcome.TheVariants.{NoMemory};

    ghost from_gives = { λ _ e. e ≡ NoMemory };

    fn from(_: AllocFailed<T>) -> Self {
        Outcome::NoMemory
    }
}

impl FileName {
    /// The most bytes that it may have: 4 MiB for a description, 16 MiB for an executable, 512 MiB for a C
    /// text.
    pub fn limit(&self) -> u64
        ensures { result ≡ limit_of self.now }
    {
        match self {
            FileName::Sled | FileName::Ssl | FileName::Conv => 4_194_304,
            FileName::Exe => 16_777_216,
            FileName::Prog => 536_870_912,
        }
    }

    /// The word for it in messages.
    pub fn word(&self) -> &'static [u8]
        ensures { result.now ≡ file_word self.now }
    {
        match self {
            FileName::Sled => b"sled",
            FileName::Ssl => b"ssl",
            FileName::Conv => b"conv",
            FileName::Exe => b"exe",
            FileName::Prog => b"prog",
        }
    }
}

impl Outcome {
    /// The status that the program ends with.
    pub fn status(&self) -> u8
        ensures { result ≡ status_of self.now }
    {
        match self {
            Outcome::Done => 0,
            Outcome::Ran(stop) | Outcome::Agreed(stop) => stop_status(stop),
            Outcome::Usage => 64,
            Outcome::Description { .. } => 65,
            Outcome::Executable(_) => 67,
            Outcome::FileTooLong { .. } | Outcome::InputTooLong => 68,
            Outcome::NoMemory => 71,
            Outcome::WriteFault => 73,
            Outcome::ReadFault => 74,
            Outcome::Spent => 75,
            Outcome::Differs { .. } => 78,
        }
    }
}

/// The status of a run that stopped: the low byte of an exit's own, and 32 and more for the other stops.
fn stop_status(stop: &Stop) -> u8
    ensures { result ≡ stop_status stop.now }
{
    match stop {
        Stop::Exit(status) => (status % 256) as u8,
        Stop::Illegal(_) => 33,
        Stop::MemoryFault(_) => 34,
        Stop::Misaligned(_) => 35,
        Stop::Divide(_) => 36,
        Stop::Trap(_) => 37,
        Stop::WindowFull => 38,
        Stop::WindowEmpty => 39,
        Stop::Undiscovered(_) => 40,
        Stop::ReturnMismatch(_) => 41,
        Stop::CallDepth => 42,
        Stop::Couple(_) => 43,
        Stop::Undefined(_) => 44,
    }
}
