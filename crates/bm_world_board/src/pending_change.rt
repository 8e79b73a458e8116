//! What an event is to come to, where nothing collides and nothing is guessed.

ghost use Rattle.std.specs.Prelude.{◌≡◌, ℕ, List, [], None};
ghost use Rattle.spec_run.specs.World.{World};
ghost use Rattle.spec_run.specs.Pending.{refused, done};
ghost use Rattle.bm_world_board.specs.declared.pending_change.Change.TheVariants.{Nothing};
ghost use Rattle.bm_world_board.specs.Prepares.{as_pending, changed, tx_in};

use bm_world_coins::NewPositions;
use spec_bitcoin::Tx;
use spec_calculus::Advertised;
use spec_data::{Boxed, Bytes, Name, Seq};
use spec_run::{Outcome, Reason};
use std::alloc::Global;

/// What a transaction is to the contracts: what its outputs stand for, and the contract that it begins.
pub struct Purpose {
    pub positions: NewPositions,
    pub begins: Option<u32>,
}

impl Drop for Purpose {
    fn drop(self) {
        let Purpose {
            positions: _,
            begins: _,
        } = self;
    }
}

/// A transaction that is accepted, the numbers of what it spends, and what it is to the contracts.
pub struct Appending {
    pub tx: Boxed<Tx>,
    pub txid: [u8; 32],
    pub spent: Seq<u32>,
    pub purpose: Purpose,
}

impl Drop for Appending {
    fn drop(self) {
        let Appending {
            tx: _,
            txid: _,
            spent: _,
            purpose: _,
        } = self;
    }
}

impl Appending {
    // The transaction, taken out.
    fn into_tx(self) -> Boxed<Tx>
        ensures { result ≡ self.tx }
    {
        let Appending {
            tx,
            txid: _,
            spent: _,
            purpose: _,
        } = self;
        tx
    }
}

/// A party's commitment for a contract, its digests in the precondition's order.
pub struct Promising {
    pub contract: u32,
    pub party: Name,
    pub digests: Seq<(Name, [u8; 32])>,
}

impl Drop for Promising {
    fn drop(self) {
        let Promising {
            contract: _,
            party: _,
            digests: _,
        } = self;
    }
}

/// What an event changes last, besides what it posts.
pub enum Change {
    Nothing,
    /// So many blocks come.
    Blocks(u32),
    /// A contract is advertised, with its bindings.
    Advertise(Advertised),
    /// A party commits its secrets.
    Commit(Promising),
    /// A transaction is appended to the ledger.
    Append(Boxed<Appending>),
}

impl Drop for Change {
    fn drop(self) {
        match self {
            Change::Nothing
            | Change::Blocks(_)
            | Change::Advertise(_)
            | Change::Commit(_)
            | Change::Append(_) => {}
        }
    }
}

impl Change {
    // The transaction that is appended, if one is, taken out.
    fn into_tx(self) -> Option<Boxed<Tx>>
        ensures { result ≡ tx_in self }
    {
        match self {
            Change::Append(appending) => Some(appending.into_value().into_tx()),
            Change::Nothing | Change::Blocks(_) | Change::Advertise(_) | Change::Commit(_) => None,
        }
    }
}

/// What an event is to come to.
pub struct PendingChange {
    pub outcome: Outcome,
    /// The strings that it posts, in order.
    pub posts: Seq<Bytes>,
    /// The secret that it may post, by its owner and its name.
    pub allowed: Option<(Name, Name)>,
    pub change: Change,
}

impl Drop for PendingChange {
    fn drop(self) {
        let PendingChange {
            outcome: _,
            posts: _,
            allowed: _,
            change: _,
        } = self;
    }
}

impl PendingChange {
    /// Refused for a reason.
    pub fn refused(alloc: Global, reason: Reason) -> PendingChange
        ensures same { (w : World) (hashes : List (List ℕ)) → as_pending w hashes result ≡ refused w hashes reason }
        ensures change { result.change ≡ Nothing }
    {
        PendingChange {
            outcome: Outcome::Refused(reason),
            posts: Seq::new(alloc),
            allowed: None,
            change: Change::Nothing,
        }
    }

    /// Done, with this change, which appends no transaction.
    pub fn done(alloc: Global, change: Change) -> PendingChange
        requires { tx_in change ≡ None }
        ensures change { result.change ≡ change }
        ensures same { (w : World) (hashes : List (List ℕ)) → as_pending w hashes result ≡ done (changed w change) hashes }
    {
        PendingChange {
            outcome: Outcome::Done,
            posts: Seq::new(alloc),
            allowed: None,
            change,
        }
    }

    /// What a record keeps of it, taken out: the outcome, and the transaction, if one is appended.
    pub fn into_kept(self) -> (Outcome, Option<Boxed<Tx>>)
        ensures outcome { result.0 ≡ self.outcome }
        ensures tx { result.1 ≡ tx_in self.change }
    {
        let PendingChange {
            outcome,
            posts: _,
            allowed: _,
            change,
        } = self;
        (outcome, change.into_tx())
    }

    /// The outcome, taken out.
    pub fn into_outcome(self) -> Outcome
        ensures { result ≡ self.outcome }
    {
        let PendingChange {
            outcome,
            posts: _,
            allowed: _,
            change: _,
        } = self;
        outcome
    }
}
