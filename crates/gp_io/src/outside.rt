//! What a program sees of the outside: files that it reads whole, and sinks that take bytes.

ghost use Rattle.std.specs.Prelude.{◌≡◌, ◌≤◌};
ghost use Rattle.gp_io.specs.Outside.{KnownFiles, KnownSink, ReadAnswers, WriteAnswers, raised};
ghost use Rattle.gp_io.specs.declared.outside.ReadRefusal.TheVariants as refusal;

use std::alloc::{AllocError, Global};

/// Why a file was not read.
#[derive(Clone, Copy, PartialEq, Eq)]
pub enum ReadRefusal {
    /// The file could not be read, or is not there.
    Failed,
    /// The file has more bytes than the limit.
    TooLong,
    /// Memory was refused.
    NoMemory,
}

impl From<AllocError> for ReadRefusal {
    ghost from_gives = { λ _ e. e ≡ refusal.NoMemory };

    fn from(_: AllocError) -> Self {
        ReadRefusal::NoMemory
    }
}

/// A write that failed.
#[derive(Clone, Copy, PartialEq, Eq)]
pub struct Failed;

/// Files that are read whole, by their names.
pub trait Files {
    /// What is known of them: the bytes of the files by their names, where these are known, and how often a
    /// read failed. No call changes the content, and the count never falls.
    ghost known: { Self → KnownFiles };

    /// All bytes of the file of that name, where these are at most `limit`. `TooLong` comes where the
    /// file has more, and `Failed` where the count of faults rose or the known content lacks the name.
    fn read(&mut self, alloc: Global, name: &str, limit: u64) -> Result<Vec<u8>, ReadRefusal>
        ensures answer { ReadAnswers (known self.old) (known self.new) name.now limit result }
        ensures later { (known self.old).faults ≤ (known self.new).faults }
        ensures same { (known self.new).content ≡ (known self.old).content };
}

/// What takes bytes, piece by piece.
pub trait Sink {
    /// What is known of it: the pieces that went out, where these are known, how many writes there were, and how many
    /// of them failed. No count falls.
    ghost known: { Self → KnownSink };

    /// Writes the whole piece, or a prefix of it and then counts a fault. It takes no memory.
    fn write(&mut self, piece: &[u8]) -> Result<(), Failed>
        ensures answer { WriteAnswers (known self.old) (known self.new) piece.now result }
        ensures writes { (known self.new).writes ≡ raised (known self.old).writes }
        ensures later { (known self.old).faults ≤ (known self.new).faults };
}
