//! A sink over a writer.

ghost use Rattle.std.specs.Prelude.{◌≡◌, ◌≤◌, length};
ghost use Rattle.bm_io.specs.Sink.{unwritten};

use crate::piece_log::{NewPiece, PieceLog};
use crate::sink::{Sink, WriteFault};
use std::io::Write;
use std::marker::Model;

/// A sink over a writer, as standard output. What it took stands in the log.
#[derive(Drop)]
pub struct StdSink<W> {
    writer: W,
    faults: u64,
    log: PieceLog,
}

impl<W> Model for StdSink<W> {
    ghost use Rattle.bm_io.specs.Sink.{SinkOfWriter};

    ghost Value = { SinkOfWriter };

    ghost view = { λ s. record { pieces = s.log.pieces; faults = s.faults } };
}

impl<W: Write> StdSink<W> {
    /// A sink over this writer, to which nothing was written.
    pub fn new(writer: W) -> StdSink<W>
        ensures { result ≡ unwritten }
    {
        StdSink {
            writer,
            faults: 0,
            log: PieceLog::new(),
        }
    }
}

/// Writes a piece, and answers how many of its bytes the writer took. A writer that takes 0 bytes of a piece that isn't empty has
/// failed.
fn put<W: Write>(writer: &mut W, piece: &[u8]) -> usize
    ensures { result ≤ length piece.now }
{
    let mut at = 0;
    while at < piece.len() {
        match writer.write(&piece[at..]) {
            Ok(0) => return at,
            Ok(count) => at += count,
            Err(_) => return at,
        }
    }
    at
}

impl<W: Write> Sink for StdSink<W> {
    ghost pieces = { λ s. s.pieces };

    ghost faults = { λ s. s.faults };

    fn write_all(&mut self, piece: &[u8]) -> Result<(), WriteFault> {
        let count = put(&mut self.writer, piece);
        self.log = self.log.and(&NewPiece::of(&piece[..count]));
        if count == piece.len() {
            return Ok(());
        }
        self.faults = self.faults.saturating_add(1);
        Err(WriteFault)
    }
}
