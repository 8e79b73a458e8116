//! What an event comes to: done, accepted by the ledger, or refused for a reason.

ghost use Rattle.std.specs.Prelude.{◌≡◌, IfOk};

use crate::event::Event;
use spec_bitcoin::{Refusal, Tx};
use spec_data::{Boxed, Name, OutOfMemory, Seq};
use spec_terms::Path;
use std::alloc::Global;

/// Why an event is refused, with the values that are shown. Places in lists count from 0.
pub enum Reason {
    NoContract,
    AdvertFull,
    WrongNames,
    DepositRepeated(Name),
    NotLive(Name),
    WrongDeposit(Name),
    NoHonest,
    NotAdvertised,
    NotParticipant,
    AlreadyCommitted,
    NoSecret(Name),
    BadSecretLength(Name),
    HashRepeated(Name),
    NotAllCommitted,
    NotEndorsed(Boxed<Path>, Boxed<Name>),
    NotActive,
    NoBranch,
    NotAsked,
    NotHonest,
    NotCommitted,
    NotBegun,
    AlreadyRevealed,
    Honest,
    NotOwner,
    NotLiveOutput(u32),
    NotOwnerOutput(u32),
    BadTx(usize),
    NotCompiled,
    SecretUnknown(Name),
    TimeLimit,
    /// The ledger refuses the transaction, or a gift that it would refuse so isn't made.
    Ledger(Refusal),
}

impl Drop for Reason {
    fn drop(self) {
        match self {
            Reason::NoContract
            | Reason::AdvertFull
            | Reason::WrongNames
            | Reason::DepositRepeated(_)
            | Reason::NotLive(_)
            | Reason::WrongDeposit(_)
            | Reason::NoHonest
            | Reason::NotAdvertised
            | Reason::NotParticipant
            | Reason::AlreadyCommitted
            | Reason::NoSecret(_)
            | Reason::BadSecretLength(_)
            | Reason::HashRepeated(_)
            | Reason::NotAllCommitted
            | Reason::NotEndorsed(_, _)
            | Reason::NotActive
            | Reason::NoBranch
            | Reason::NotAsked
            | Reason::NotHonest
            | Reason::NotCommitted
            | Reason::NotBegun
            | Reason::AlreadyRevealed
            | Reason::Honest
            | Reason::NotOwner
            | Reason::NotLiveOutput(_)
            | Reason::NotOwnerOutput(_)
            | Reason::BadTx(_)
            | Reason::NotCompiled
            | Reason::SecretUnknown(_)
            | Reason::TimeLimit
            | Reason::Ledger(_) => {}
        }
    }
}

/// What an event came to.
pub enum Outcome {
    Done,
    /// The spent outputs in the order of the inputs, the new ones with their values, and the
    /// transaction's lock.
    Accepted {
        spent: Boxed<Seq<u32>>,
        made: Boxed<Seq<(u32, u64)>>,
        lock: u32,
    },
    Refused(Reason),
}

impl Drop for Outcome {
    fn drop(self) {
        match self {
            Outcome::Done
            | Outcome::Accepted {
                spent: _,
                made: _,
                lock: _,
            }
            | Outcome::Refused(_) => {}
        }
    }
}

/// An event, what it came to, and the accepted transaction with its witnesses.
pub struct Record {
    pub event: Event,
    pub outcome: Outcome,
    pub tx: Option<Boxed<Tx>>,
}

impl Drop for Record {
    fn drop(self) {
        let Record {
            event: _,
            outcome: _,
            tx: _,
        } = self;
    }
}

impl Reason {
    /// An equal reason.
    pub fn copy(&self, alloc: Global) -> Result<Reason, OutOfMemory>
        ensures { IfOk result (λ reason. reason ≡ self.now) }
    {
        Ok(match self {
            Reason::NoContract => Reason::NoContract,
            Reason::AdvertFull => Reason::AdvertFull,
            Reason::WrongNames => Reason::WrongNames,
            Reason::DepositRepeated(name) => Reason::DepositRepeated(*name),
            Reason::NotLive(name) => Reason::NotLive(*name),
            Reason::WrongDeposit(name) => Reason::WrongDeposit(*name),
            Reason::NoHonest => Reason::NoHonest,
            Reason::NotAdvertised => Reason::NotAdvertised,
            Reason::NotParticipant => Reason::NotParticipant,
            Reason::AlreadyCommitted => Reason::AlreadyCommitted,
            Reason::NoSecret(name) => Reason::NoSecret(*name),
            Reason::BadSecretLength(name) => Reason::BadSecretLength(*name),
            Reason::HashRepeated(name) => Reason::HashRepeated(*name),
            Reason::NotAllCommitted => Reason::NotAllCommitted,
            Reason::NotEndorsed(path, party) => {
                let path = Boxed::new(alloc, path.value().copy(alloc)?)?;
                Reason::NotEndorsed(path, Boxed::new(alloc, *party.value())?)
            }
            Reason::NotActive => Reason::NotActive,
            Reason::NoBranch => Reason::NoBranch,
            Reason::NotAsked => Reason::NotAsked,
            Reason::NotHonest => Reason::NotHonest,
            Reason::NotCommitted => Reason::NotCommitted,
            Reason::NotBegun => Reason::NotBegun,
            Reason::AlreadyRevealed => Reason::AlreadyRevealed,
            Reason::Honest => Reason::Honest,
            Reason::NotOwner => Reason::NotOwner,
            Reason::NotLiveOutput(number) => Reason::NotLiveOutput(*number),
            Reason::NotOwnerOutput(number) => Reason::NotOwnerOutput(*number),
            Reason::BadTx(place) => Reason::BadTx(*place),
            Reason::NotCompiled => Reason::NotCompiled,
            Reason::SecretUnknown(name) => Reason::SecretUnknown(*name),
            Reason::TimeLimit => Reason::TimeLimit,
            Reason::Ledger(refusal) => Reason::Ledger(*refusal),
        })
    }
}

impl Outcome {
    /// An equal outcome.
    pub fn copy(&self, alloc: Global) -> Result<Outcome, OutOfMemory>
        ensures { IfOk result (λ outcome. outcome ≡ self.now) }
    {
        Ok(match self {
            Outcome::Done => Outcome::Done,
            Outcome::Accepted { spent, made, lock } => Outcome::Accepted {
                spent: Boxed::new(alloc, spent.value().copy(alloc)?)?,
                made: Boxed::new(alloc, made.value().copy(alloc)?)?,
                lock: *lock,
            },
            Outcome::Refused(reason) => Outcome::Refused(reason.copy(alloc)?),
        })
    }
}

impl Record {
    /// An equal record.
    pub fn copy(&self, alloc: Global) -> Result<Record, OutOfMemory>
        ensures { IfOk result (λ new. new ≡ self.now) }
    {
        Ok(Record {
            event: self.event.copy(alloc)?,
            outcome: self.outcome.copy(alloc)?,
            tx: copy_tx(alloc, &self.tx)?,
        })
    }
}

/// An equal transaction, if there is one.
fn copy_tx(alloc: Global, tx: &Option<Boxed<Tx>>) -> Result<Option<Boxed<Tx>>, OutOfMemory>
    ensures { IfOk result (λ new. new ≡ tx.now) }
{
    match tx {
        None => Ok(None),
        Some(tx) => Ok(Some(Boxed::new(alloc, tx.value().copy(alloc)?)?)),
    }
}
