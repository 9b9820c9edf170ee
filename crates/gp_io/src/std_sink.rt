//! The standard streams. Contracts know nothing of what was written to them.

ghost use Rattle.std.specs.Prelude.{◌≡◌, ◌≤◌};
ghost use Rattle.gp_io.specs.Outside.{WriteAnswers, raised};
ghost use Rattle.gp_io.specs.Streams.{known_stream, Takes};

use crate::outside::{Failed, Sink};
use std::io::Write;
use std::marker::Model;

/// Standard output or standard error, or any other stream of the system. A write that fails or takes
/// nothing counts a fault. Contracts see the stream and the counts.
#[derive(Drop)]
pub struct StdSink<W: Write> {
    stream: W,
    writes: u64,
    faults: u64,
}

impl<W: Write> Model for StdSink<W> {
    ghost use Rattle.gp_io.specs.Streams.{CountedStream, stream_code};

    ghost Value = { CountedStream W };

    ghost coded = { stream_code W.code };

    ghost view = { λ s. record { stream = s.stream; writes = s.writes; faults = s.faults } };
}

impl<W: Write> StdSink<W> {
    /// A sink over the stream, with no write so far.
    pub fn new(stream: W) -> StdSink<W>
        ensures stream { result.stream ≡ stream }
        ensures writes { result.writes ≡ 0 }
        ensures faults { result.faults ≡ 0 }
    {
        StdSink {
            stream,
            writes: 0,
            faults: 0,
        }
    }

    /// How many writes failed.
    pub fn faults(&self) -> u64
        ensures { result ≡ self.now.faults }
    {
        self.faults
    }
}

// Writes the whole piece to the stream, or a prefix of it.
fn write_whole<W: Write>(stream: &mut W, piece: &[u8]) -> Result<(), Failed>
    ensures { Takes (W.contents stream.old) (W.contents stream.new) piece.now result }
{
    let mut done = 0;
    while done < piece.len() {
        match stream.write(&piece[done..]) {
            Err(_) | Ok(0) => return Err(Failed),
            Ok(count) => done += count,
        }
    }
    match stream.flush() {
        Ok(()) => Ok(()),
        Err(_) => Err(Failed),
    }
}

impl<W: Write> Sink for StdSink<W> {
    ghost known = { known_stream };

    fn write(&mut self, piece: &[u8]) -> Result<(), Failed>
        ensures answer { WriteAnswers (known_stream self.old) (known_stream self.new) piece.now result }
        ensures writes { self.new.writes ≡ raised self.old.writes }
        ensures later { self.old.faults ≤ self.new.faults }

        // A stream whose bytes are known gains the whole piece, or a prefix of it.
        ensures stream { Takes (W.contents self.old.stream) (W.contents self.new.stream) piece.now result }
    {
        self.writes = self.writes.saturating_add(1);
        let answer = write_whole(&mut self.stream, piece);
        if answer.is_err() {
            self.faults = self.faults.saturating_add(1);
        }
        answer
    }
}
