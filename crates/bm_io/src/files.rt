//! Files, by their names.

ghost use Rattle.std.specs.Prelude.{◌≡◌, ℕ, ◌≤◌, List, [], ◌∷◌, ◌++◌, length, IfOk, Option};
ghost use Rattle.bm_io.specs.Files.{Told, Reads, CausesTooLong, Causes, shown};
ghost use Rattle.bm_io.specs.Logs.{Reply, reply_of};

use std::alloc::Global;

/// Why a file wasn't read.
#[derive(Clone, Copy, Debug, PartialEq, Eq)]
pub enum ReadError {
    /// It isn't there, or the read failed.
    Failed,
    /// It has more bytes than were asked for.
    TooLong,
    /// Out of memory.
    Memory,
}

/// Files that are read by name.
pub trait Files {
    /// What they tell of themselves, if they do.
    ghost told: { Self → Option Told };

    /// The reads so far, with what each answered.
    ghost log: { Self → List Reply };

    /// How often a read has failed.
    ghost faults: { Self → ℕ };

    /// How many bytes were taken.
    ghost taken: { Self → ℕ };

    /// The bytes of a file, at most `limit` of them.
    fn read(&mut self, alloc: Global, name: &str, limit: usize) -> Result<Vec<u8>, ReadError>
        ensures few { IfOk result (λ v. length v.items ≤ limit) }
        ensures cause { Causes (faults self.old) (faults self.new) result }
        ensures taken { taken self.old ≤ taken self.new }
        ensures too_long { CausesTooLong (taken self.old) (taken self.new) limit result }
        ensures logged { log self.new ≡ log self.old ++ reply_of name.now limit (shown (λ v. v.items) result) ∷ [] }
        ensures reads { Reads (told self.old) (told self.new) name.now limit (shown (λ v. v.items) result) };
}
