//! The files of the system. Contracts know nothing of their content.

ghost use Rattle.std.specs.Prelude.{◌≡◌, ◌≢◌, ◌≤◌, ◌<◌, None, IfOk, IsErrOf, IfSome, length, vec_len};
ghost use Rattle.std.specs.IoError.{error_kind};

use crate::outside::{Files, ReadRefusal};
use std::alloc::{AllocError, Global};
use std::fs::File;
use std::io::{self, ErrorKind, Read};
use std::marker::Model;
use std::rt;

// How many bytes one read asks for.
const CHUNK: usize = 65536;

/// The files of the system, by their paths. Each read opens the file anew. A path that can't be opened, a
/// folder and a read that fails count a fault, unless the system says that it had no memory for it. Contracts
/// see the count of the faults.
#[derive(Drop)]
pub struct DiskFiles<R: rt::Files> {
    rt: R,
    faults: u64,
}

impl<R: rt::Files> Model for DiskFiles<R> {
    ghost use Rattle.std.specs.Prelude.{ℕ};

    ghost Value = { ℕ };

    ghost view = { λ f. f.faults };
}

impl<R: rt::Files> DiskFiles<R> {
    /// The files that the runtime reaches, with no fault so far.
    pub fn new(rt: R) -> DiskFiles<R>
        ensures { result ≡ 0 }
    {
        DiskFiles { rt, faults: 0 }
    }

    /// How many reads failed.
    pub fn faults(&self) -> u64
        ensures { result ≡ self.now }
    {
        self.faults
    }
}

// Room for one read.
fn chunk_of(alloc: Global) -> Result<Vec<u8>, AllocError>
    ensures { IfOk result (λ chunk. 0 < vec_len chunk) }
{
    vec![in alloc; 0u8; CHUNK]
}

// What an open or a read that failed comes to.
fn refusal_of(error: io::Error) -> ReadRefusal
    ensures memory { error_kind error ≡ ErrorKind.OutOfMemory → result ≡ ReadRefusal.NoMemory }
    ensures other { error_kind error ≢ ErrorKind.OutOfMemory → result ≡ ReadRefusal.Failed }
{
    match error.kind() {
        ErrorKind::OutOfMemory => ReadRefusal::NoMemory,
        _ => ReadRefusal::Failed,
    }
}

// The bytes that a reader has left, where these are at most `limit`. No more than these are kept.
pub(crate) fn read_all<R: Read>(
    alloc: Global,
    reader: &mut R,
    limit: u64,
) -> Result<Vec<u8>, ReadRefusal>
    ensures within { IfOk result (λ bytes. length bytes.items ≤ limit) }
    ensures bytes { IfOk result (λ bytes. IfSome (R.remaining reader.old) (λ left. bytes.items ≡ left)) }
    ensures longer { IsErrOf result ReadRefusal.TooLong →
        IfSome (R.remaining reader.old) (λ left. limit < length left) }
{
    let mut chunk = chunk_of(alloc)?;
    let mut bytes = Vec::new(alloc);
    'each: loop {
        match reader.read(&mut chunk) {
            Err(error) => return Err(refusal_of(error)),
            Ok(0) => return Ok(bytes),
            Ok(count) => {
                if count as u64 > limit - bytes.len() as u64 {
                    return Err(ReadRefusal::TooLong);
                }
                bytes.extend_from_slice(&chunk[..count])?;
            }
        }
    }
}

// The bytes of the file at a path, where these are at most `limit`.
fn read_file<R: rt::Files>(
    rt: &R,
    alloc: Global,
    name: &str,
    limit: u64,
) -> Result<Vec<u8>, ReadRefusal>
    ensures { IfOk result (λ bytes. length bytes.items ≤ limit) }
{
    match File::open(rt, name) {
        Ok(mut file) => read_all(alloc, &mut file, limit),
        Err(error) => Err(refusal_of(error)),
    }
}

impl<R: rt::Files> Files for DiskFiles<R> {
    ghost known = { λ count. record { content = None; faults = count } };

    fn read(&mut self, alloc: Global, name: &str, limit: u64) -> Result<Vec<u8>, ReadRefusal> {
        match read_file(&self.rt, alloc, name, limit) {
            Ok(bytes) => Ok(bytes),
            Err(ReadRefusal::TooLong) => Err(ReadRefusal::TooLong),
            Err(ReadRefusal::NoMemory) => Err(ReadRefusal::NoMemory),
            Err(ReadRefusal::Failed) => {
                self.faults = self.faults.saturating_add(1);
                Err(ReadRefusal::Failed)
            }
        }
    }
}
