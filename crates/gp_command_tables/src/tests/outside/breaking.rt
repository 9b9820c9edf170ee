//! Files of a system whose reads fail midway.

use super::check_system;
use std::alloc::Allocator;
use std::fs::{Files, Metadata, OpenFile, OpenOptions};
use std::io::{self, ErrorKind, Read, Seek, SeekFrom, Write};
use std::test::Fail;

// A system whose files give two bytes at the first read, and fail so at the second.
#[derive(Drop)]
struct Breaking {
    kind: ErrorKind,
}

// Such a file, before or after its first read.
#[derive(Drop)]
struct BreakingFile {
    kind: ErrorKind,
    is_read: bool,
}

fn refused<T>() -> io::Result<T> {
    Err(io::Error::from(ErrorKind::Unsupported))
}

impl Read for BreakingFile {
    fn read(&mut self, buf: &mut [u8]) -> io::Result<usize> {
        if self.is_read {
            return Err(io::Error::from(self.kind));
        }
        self.is_read = true;
        Ok(buf.len().min(2))
    }
}

impl Write for BreakingFile {
    fn write(&mut self, _buf: &[u8]) -> io::Result<usize> {
        Err(io::Error::from(ErrorKind::Unsupported))
    }

    fn flush(&mut self) -> io::Result<()> {
        refused()
    }
}

impl Seek for BreakingFile {
    fn seek(&mut self, _to: SeekFrom) -> io::Result<u64> {
        refused()
    }
}

impl OpenFile for BreakingFile {
    fn metadata(&self) -> io::Result<Metadata> {
        refused()
    }

    fn set_len(&self, _size: u64) -> io::Result<()> {
        refused()
    }

    fn sync_all(&self) -> io::Result<()> {
        refused()
    }

    fn sync_data(&self) -> io::Result<()> {
        refused()
    }
}

impl Files for Breaking {
    type File = BreakingFile;

    type Dir = BreakingFile;

    fn open_file(&self, _how: &OpenOptions, _path: &str) -> io::Result<BreakingFile> {
        Ok(BreakingFile {
            kind: self.kind,
            is_read: false,
        })
    }

    fn open_dir(&self, _path: &str) -> io::Result<BreakingFile> {
        refused()
    }

    fn metadata(&self, _path: &str) -> io::Result<Metadata> {
        refused()
    }

    fn symlink_metadata(&self, _path: &str) -> io::Result<Metadata> {
        refused()
    }

    fn copy(&self, _from: &str, _to: &str) -> io::Result<u64> {
        refused()
    }

    fn rename(&self, _from: &str, _to: &str) -> io::Result<()> {
        refused()
    }

    fn remove_file(&self, _path: &str) -> io::Result<()> {
        refused()
    }

    fn create_dir(&self, _path: &str) -> io::Result<()> {
        refused()
    }

    fn remove_dir(&self, _path: &str) -> io::Result<()> {
        refused()
    }

    fn remove_dir_all<B: Allocator>(&self, _alloc: B, _path: &str) -> io::Result<()> {
        refused()
    }
}

const BREAKS: [(ErrorKind, &str); 3] = [
    (ErrorKind::BrokenPipe, "p 9 Failed 1"),
    (ErrorKind::PermissionDenied, "p 9 Failed 1"),
    (ErrorKind::OutOfMemory, "p 9 NoMemory 0"),
];

#[test]
fn a_read_that_fails_midway_is_a_fault_or_want_of_memory(rt: HostRuntime) -> Result<(), Fail> {
    for (kind, row) in &BREAKS {
        check_system(Breaking { kind: *kind }, rt.alloc(), row)?;
    }
    Ok(())
}
