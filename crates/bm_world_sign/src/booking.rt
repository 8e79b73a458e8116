//! Pairs that are put into the book.

ghost use Rattle.std.specs.Prelude.{◌≡◌, [], ℕ, List, None, IfOk, OnOk};
ghost use Rattle.bm_hash.specs.Messages.{evidence_of};
ghost use Rattle.spec_run.specs.Pending.{done};
ghost use Rattle.spec_run.specs.Signing.{signed_all, with_pairs};
ghost use Rattle.bm_world_board.specs.Prepares.{world_of, Prepares, Signs, IsPrefix};

use bm_book::Book;
use bm_honest::Pair;
use bm_world_board::{Board, Change, PendingChange};
use spec_data::OutOfMemory;
use std::alloc::Global;

/// Signs these pairs in turn. After an error some of them may be in the book.
#[tactic(auto, using(crate::proofs::Prefixes::prefix_longer))]
pub fn sign_all(book: &mut Book, pairs: &[Pair]) -> Result<(), OutOfMemory>
    ensures signed { OnOk result (book.new ≡ signed_all book.old pairs.now) }
    ensures prefix { IsPrefix book.old book.new }
{
    for (key, digest) in pairs {
        book.sign(*key, *digest)?;
    }
    Ok(())
}

/// The pending effect of an event that signs these pairs; it hashes nothing. The pairs are then in the book.
pub(crate) fn pending_pairs(
    alloc: Global,
    board: &mut Board,
    pairs: &[Pair],
) -> Result<PendingChange, OutOfMemory>
    ensures board { Signs board.old board.new }
    ensures ok { IfOk result (λ d. (hash : List ℕ → List ℕ) (messages : List (List ℕ)) → evidence_of hash messages ≡ None
        → Prepares hash (world_of board.new messages) messages messages (done (with_pairs (world_of board.old messages) pairs.now) []) d) }
{
    sign_all(&mut board.book, pairs)?;
    Ok(PendingChange::done(alloc, Change::Nothing))
}
