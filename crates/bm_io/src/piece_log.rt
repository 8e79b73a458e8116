//! What a sink took as proofs alone see it. It takes no memory, and its methods do nothing at run time.

ghost use Rattle.std.specs.Prelude.{◌≡◌, ℕ, List, [], ◌∷◌, ◌++◌};
ghost use Rattle.std.specs.Borrow.{ftrue};

use std::marker::Model;

/// The pieces that were taken, in order.
#[derive(Drop)]
pub struct PieceLog {
    pub ghost pieces: { List (List ℕ) },
}

impl Model for PieceLog {
    ghost also_owns = { λ _. ftrue };
}

/// A piece that is taken.
#[derive(Clone, Copy, Drop)]
pub struct NewPiece<'a> {
    pub bytes: &'a [u8],
}

impl<'a> NewPiece<'a> {
    /// These bytes.
    pub fn of(bytes: &'a [u8]) -> NewPiece<'a>
        ensures { result.bytes.now ≡ bytes.now }
    {
        NewPiece { bytes }
    }
}

impl PieceLog {
    /// No piece yet.
    pub fn new() -> PieceLog
        ensures { result.pieces ≡ [] }
    {
        PieceLog {}
    }

    /// One piece more.
    pub fn and(&self, _new: &NewPiece<'_>) -> PieceLog
        ensures { result.pieces ≡ self.now.pieces ++ _new.now.bytes.now ∷ [] }
    {
        PieceLog {}
    }
}
