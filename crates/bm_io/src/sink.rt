//! A sink of bytes.

ghost use Rattle.std.specs.Prelude.{ℕ, List};
ghost use Rattle.bm_io.specs.Counts.{HasCause};
ghost use Rattle.bm_io.specs.Sink.{Writes};

/// A write that failed.
#[derive(Clone, Copy, Debug, PartialEq, Eq)]
pub struct WriteFault;

/// What takes bytes.
pub trait Sink {
    /// The pieces that it took, one for each write: all of it, or a prefix where the write failed.
    ghost pieces: { Self → List (List ℕ) };

    /// How often a write has failed.
    ghost faults: { Self → ℕ };

    /// Writes the whole piece, or fails after a prefix of it. It takes no memory.
    fn write_all(&mut self, piece: &[u8]) -> Result<(), WriteFault>
        ensures cause { HasCause (faults self.old) (faults self.new) result }
        ensures writes { Writes (pieces self.old) (pieces self.new) piece.now result };
}
