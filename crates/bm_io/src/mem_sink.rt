//! A sink in memory.

ghost use Rattle.std.specs.Prelude.{◌≡◌, ◌≤◌, ◌↔◌, ◌+◌, IfOk, IsOk, length, vec_len, min};
ghost use Rattle.std.specs.List.{concat};
ghost use Rattle.bm_io.specs.Counts.{HasCause};
ghost use Rattle.bm_io.specs.Sink.{Writes, room_of, room_left, empty_sink, after_write};

use crate::piece_log::{NewPiece, PieceLog};
use crate::sink::{Sink, WriteFault};
use spec_data::OutOfMemory;
use std::alloc::Global;
use std::marker::Model;

/// A sink in memory, which takes no memory after it was made.
#[derive(Drop)]
pub struct MemSink {
    held: Vec<u8>,
    room: usize,
    faults: u64,
    log: PieceLog,
}

impl Model for MemSink {
    ghost use Rattle.std.specs.Prelude.{◌≡◌, ◌≤◌, vec_len, vec_capacity};
    ghost use Rattle.std.specs.List.{concat};
    ghost use Rattle.bm_io.specs.Sink.{SinkInMemory};

    ghost Value = { SinkInMemory };

    ghost view = { λ s. record { pieces = s.log.pieces; room = s.room; faults = s.faults } };

    ghost invariant = { λ s. (s.room ≤ vec_capacity s.held) × (vec_len s.held ≤ s.room) × (s.held.items ≡ concat s.log.pieces) };
}

impl MemSink {
    /// An empty sink that takes at most `capacity` bytes, and at most `fail_after` if that is given.
    pub fn new(
        alloc: Global,
        capacity: usize,
        fail_after: Option<usize>,
    ) -> Result<MemSink, OutOfMemory>
        ensures { IfOk result (λ sink. sink ≡ empty_sink (room_of capacity fail_after)) }
    {
        let held = Vec::with_capacity(alloc, capacity)?;
        let room = match fail_after {
            Some(most) => most.min(capacity),
            None => capacity,
        };
        Ok(MemSink {
            held,
            room,
            faults: 0,
            log: PieceLog::new(),
        })
    }

    /// The bytes written.
    pub fn written(&self) -> &[u8]
        ensures { result.now ≡ concat self.now.pieces }
    {
        self.held.as_slice()
    }
}

impl Sink for MemSink {
    ghost pieces = { λ s. s.pieces };

    ghost faults = { λ s. s.faults };

    fn write_all(&mut self, piece: &[u8]) -> Result<(), WriteFault>
        ensures cause { HasCause self.old.faults self.new.faults result }
        ensures writes { Writes self.old.pieces self.new.pieces piece.now result }
        ensures ok { IsOk result ↔ (length piece.now ≤ room_left self.old) }
        ensures after { self.new ≡ after_write self.old piece.now }
    {
        let count = (self.room - self.held.len()).min(piece.len());
        match self.held.extend_from_slice(&piece[..count]) {
            Ok(()) => {}
            Err(_) => unreachable!(),
        }
        self.log = self.log.and(&NewPiece::of(&piece[..count]));
        if count == piece.len() {
            return Ok(());
        }
        self.faults = self.faults.saturating_add(1);
        Err(WriteFault)
    }
}
