//! A sink in memory.

ghost use Rattle.std.specs.Prelude.{◌≡◌, ◌≤◌, ◌↔◌, ◌++◌, [], None, IfOk, IsOk, OnErr, map, length, take};
ghost use Rattle.std.specs.List.{concat};
ghost use Rattle.gp_io.specs.Outside.{WriteAnswers, piece_of, raised};
ghost use Rattle.gp_io.specs.Stored.{known_bytes, bytes_before_failure, bytes_let_out, room_left};

use crate::outside::{Failed, Sink};
use gp_memory::NoMemory;
use std::alloc::Global;
use std::marker::Model;

/// A sink in memory with room for so many bytes, some of whose writes fail.
#[derive(Drop)]
pub struct MemSink {
    bytes: Vec<u8>,
    /// The lengths of the pieces. An empty one is none, so there are no more of them than bytes.
    lengths: Vec<u64>,
    room: u64,
    failing: Vec<(u64, u64)>,
    calls: u64,
    faults: u64,
}

impl Model for MemSink {
    ghost use Rattle.std.specs.Prelude.{◌≡◌, ◌≤◌, length, sum, vec_len, vec_capacity};
    ghost use Rattle.gp_io.specs.Stored.{StoredBytes, cut_by};

    ghost Value = { StoredBytes };

    ghost view = { λ m. record {
      written = m.bytes.items;
      pieces = cut_by m.lengths.items m.bytes.items;
      room = m.room;
      failing = m.failing.items;
      calls = m.calls;
      faults = m.faults;
    } };

    ghost invariant = { λ m. (vec_len m.bytes ≤ m.room) × (m.room ≤ vec_capacity m.bytes)
        × (vec_len m.lengths ≤ vec_len m.bytes) × (m.room ≤ vec_capacity m.lengths) × (sum m.lengths.items ≡ length m.bytes.items) };
}

impl MemSink {
    /// An empty sink, with room made for `room` bytes. `failing` has the numbers of the writes that
    /// fail, counted from 0, each with the number of bytes that go out before.
    pub fn new(alloc: Global, room: u64, failing: Vec<(u64, u64)>) -> Result<MemSink, NoMemory>
        ensures written { IfOk result (λ sink. sink.written ≡ []) }
        ensures pieces { IfOk result (λ sink. sink.pieces ≡ []) }
        ensures room { IfOk result (λ sink. sink.room ≡ room) }
        ensures failing { IfOk result (λ sink. sink.failing ≡ failing.items) }
        ensures calls { IfOk result (λ sink. sink.calls ≡ 0) }
        ensures faults { IfOk result (λ sink. sink.faults ≡ 0) }
    {
        let bytes = Vec::with_capacity(alloc, room as usize)?;
        let lengths = Vec::with_capacity(alloc, room as usize)?;
        Ok(MemSink {
            bytes,
            lengths,
            room,
            failing,
            calls: 0,
            faults: 0,
        })
    }

    /// The bytes that were written: the pieces, one after another.
    pub fn bytes(&self) -> &[u8]
        ensures written { result.now ≡ self.now.written }
        ensures pieces { result.now ≡ concat self.now.pieces }
    {
        self.bytes.as_slice()
    }

    /// How many bytes each piece has.
    pub fn lengths(&self) -> &[u64]
        ensures { result.now ≡ map length self.now.pieces }
    {
        self.lengths.as_slice()
    }

    /// How many writes failed.
    pub fn faults(&self) -> u64
        ensures { result ≡ self.now.faults }
    {
        self.faults
    }

    // For how many more bytes there is room.
    fn left(&self) -> u64
        ensures { result ≡ room_left self.now }
    {
        self.room - self.bytes.len() as u64
    }

    // Counts a write, and answers how many bytes go out before it fails, where it is listed.
    fn begin(&mut self) -> Option<u64>
        ensures cut { result ≡ bytes_before_failure self.old.failing self.old.calls }
        ensures same { self.new ≡ record self.old { calls = raised self.old.calls } }
    {
        let call = self.calls;
        self.calls = call.saturating_add(1);
        cut_of(&self.failing, call)
    }

    // Puts these bytes behind the others, as one piece.
    fn keep(&mut self, bytes: &[u8])
        requires { length bytes.now ≤ room_left self.old }
        ensures { self.new ≡ record self.old { written = self.old.written ++ bytes.now; pieces = self.old.pieces ++ piece_of bytes.now } }
    {
        if !bytes.is_empty() {
            self.bytes.extend_from_slice(bytes).unwrap();
            self.lengths.push(bytes.len() as u64).unwrap();
        }
    }

    // Counts a fault.
    fn fail(&mut self)
        ensures counted { self.new ≡ record self.old { faults = raised self.old.faults } }
        ensures later { self.old.faults ≤ self.new.faults }
    {
        self.faults = self.faults.saturating_add(1);
    }
}

// How many bytes the write of that number lets out before it fails.
fn cut_of(failing: &[(u64, u64)], call: u64) -> Option<u64>
    ensures { result ≡ bytes_before_failure failing.now call }
{
    let mut rest = failing;
    while let [(number, cut), after @ ..] = rest {
        if *number == call {
            return Some(*cut);
        }
        rest = after;
    }
    None
}

impl Sink for MemSink {
    ghost known = { known_bytes };

    fn write(&mut self, piece: &[u8]) -> Result<(), Failed>
        ensures answer { WriteAnswers (known_bytes self.old) (known_bytes self.new) piece.now result }
        ensures writes { self.new.calls ≡ raised self.old.calls }
        ensures later { self.old.faults ≤ self.new.faults }

        // It fails exactly where the call is listed or the piece does not fit: so with an empty list the
        // count never rises while all pieces fit. Where it fails, as many bytes go out as the call lists,
        // of those that fit.
        ensures ok { IsOk result ↔ ((bytes_before_failure self.old.failing self.old.calls ≡ None)
            × (length piece.now ≤ room_left self.old)) }
        ensures prefix { OnErr result
            (self.new.written ≡ self.old.written ++ take (bytes_let_out self.old) piece.now) }
        ensures cut { OnErr result
            (self.new.pieces ≡ self.old.pieces ++ piece_of (take (bytes_let_out self.old) piece.now)) }
        ensures counted { OnErr result (self.new.faults ≡ raised self.old.faults) }
        ensures room { self.new.room ≡ self.old.room }
        ensures failing { self.new.failing ≡ self.old.failing }
    {
        let cut = self.begin();
        let left = self.left();
        if cut.is_none() && piece.len() as u64 <= left {
            self.keep(piece);
            return Ok(());
        }
        let out = (piece.len() as u64).min(left).min(cut.unwrap_or(left));
        self.keep(&piece[..out as usize]);
        self.fail();
        Err(Failed)
    }
}
