//! Files in memory.

ghost use Rattle.std.specs.Prelude.{◌≡◌, ◌≤◌, Some, IsErrOf, Contains};
ghost use Rattle.std.specs.Option.{option_copied};
ghost use Rattle.std.specs.FinMap as map;
ghost use Rattle.gp_io.specs.Outside.{ReadAnswers, LacksFile, raised};
ghost use Rattle.gp_io.specs.Stored.{content_of, known_files};

use crate::outside::{Files, ReadRefusal};
use std::alloc::Global;
use std::marker::Model;

/// Files in memory, some of whose reads fail.
#[derive(Drop)]
pub struct MemFiles {
    files: Vec<(String, Vec<u8>)>,
    failing: Vec<u64>,
    calls: u64,
    faults: u64,
}

impl Model for MemFiles {
    ghost use Rattle.gp_io.specs.Stored.{StoredFiles, files_code, content_of};

    ghost Value = { StoredFiles };

    ghost coded = { files_code };

    ghost view = { λ m. record {
      content = content_of m.files.items;
      failing = m.failing.items;
      calls = m.calls;
      faults = m.faults;
    } };
}

impl MemFiles {
    /// Files of these names and bytes. The reads whose numbers, counted from 0, are in `failing` fail.
    /// Of two files of one name the first counts.
    pub fn new(files: Vec<(String, Vec<u8>)>, failing: Vec<u64>) -> MemFiles
        ensures content { result.content ≡ content_of files.items }
        ensures failing { result.failing ≡ failing.items }
        ensures calls { result.calls ≡ 0 }
        ensures faults { result.faults ≡ 0 }
    {
        MemFiles {
            files,
            failing,
            calls: 0,
            faults: 0,
        }
    }

    /// How many reads failed.
    pub fn faults(&self) -> u64
        ensures { result ≡ self.now.faults }
    {
        self.faults
    }
}

// The bytes of the first file of that name.
fn bytes_of<'a>(files: &'a [(String, Vec<u8>)], name: &str) -> Option<&'a [u8]>
    ensures { option_copied result ≡ map.get (content_of files.now) name.now }
{
    for (known, bytes) in files {
        if known.as_str() == name {
            return Some(bytes.as_slice());
        }
    }
    None
}

impl Files for MemFiles {
    ghost known = { known_files };

    fn read(&mut self, alloc: Global, name: &str, limit: u64) -> Result<Vec<u8>, ReadRefusal>
        ensures answer { ReadAnswers (known_files self.old) (known_files self.new) name.now limit result }
        ensures later { self.old.faults ≤ self.new.faults }
        ensures same { self.new.content ≡ self.old.content }

        // The listed calls count a fault, and no others do: so with an empty list the count never rises.
        ensures listed { Contains self.old.failing self.old.calls →
            IsErrOf result ReadRefusal.Failed × (self.new.faults ≡ raised self.old.faults) }
        ensures unlisted { (¬ Contains self.old.failing self.old.calls) →
            self.new.faults ≡ self.old.faults }
        ensures missing { (¬ Contains self.old.failing self.old.calls) →
            IsErrOf result ReadRefusal.Failed → LacksFile (Some self.old.content) name.now }

        ensures failing { self.new.failing ≡ self.old.failing }
        ensures calls { self.new.calls ≡ raised self.old.calls }
    {
        let call = self.calls;
        self.calls = call.saturating_add(1);
        if self.failing.contains(&call) {
            self.faults = self.faults.saturating_add(1);
            return Err(ReadRefusal::Failed);
        }
        match bytes_of(&self.files, name) {
            None => Err(ReadRefusal::Failed),
            Some(bytes) if bytes.len() as u64 > limit => Err(ReadRefusal::TooLong),
            Some(bytes) => Ok(bytes.to_vec(alloc)?),
        }
    }
}
