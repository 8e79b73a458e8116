//! The events of a run: each line of a run file after its header is one.

ghost use Rattle.std.specs.Prelude.{◌≡◌, IfOk};

use crate::header::Header;
use spec_bitcoin::Label;
use spec_data::{Boxed, Bytes, Name, OutOfMemory, Seq};
use std::alloc::Global;

/// One atomic step of a run. Contracts have their number, outputs their birth number, counted
/// from the header's deposits on; values are in satoshi.
pub enum Event {
    /// The contract is posted with its deposits.
    Advertise {
        contract: u32,
        bindings: Seq<(Name, u32)>,
    },
    /// The party commits the hashes of its secrets; an honest party's line has no digests.
    Commit {
        contract: u32,
        party: Name,
        digests: Seq<(Name, [u8; 32])>,
    },
    /// The party signs the branches that don't ask it, and its deposits in puts.
    Endorse {
        contract: u32,
        party: Name,
    },
    /// The party signs its deposits of the initial transaction.
    Init {
        contract: u32,
        party: Name,
    },
    /// The party signs a branch that asks it.
    Authorise {
        party: Name,
        output: u32,
        branch: u32,
    },
    /// An honest party posts its secret.
    Reveal {
        contract: u32,
        party: Name,
        secret: Name,
    },
    /// Some bytes are posted.
    Post {
        bytes: Bytes,
    },
    /// A party that isn't honest signs a digest by a key of its own.
    Sign {
        party: Name,
        label: Boxed<Label>,
        digest: [u8; 32],
    },
    /// A party's deposits go to new owners.
    Give {
        party: Name,
        inputs: Seq<u32>,
        outputs: Boxed<Seq<(Name, u64)>>,
    },
    /// A raw transaction is handed to the ledger.
    Append {
        bytes: Bytes,
    },
    /// The initial transaction of a contract is handed to the ledger.
    FireInit {
        contract: u32,
    },
    /// The compiled transaction of a branch is handed to the ledger.
    Fire {
        output: u32,
        branch: u32,
    },
    /// So many blocks come.
    Mine {
        blocks: u32,
    },
}

impl Drop for Event {
    fn drop(self) {
        match self {
            Event::Advertise {
                contract: _,
                bindings: _,
            }
            | Event::Commit {
                contract: _,
                party: _,
                digests: _,
            }
            | Event::Endorse {
                contract: _,
                party: _,
            }
            | Event::Init {
                contract: _,
                party: _,
            }
            | Event::Authorise {
                party: _,
                output: _,
                branch: _,
            }
            | Event::Reveal {
                contract: _,
                party: _,
                secret: _,
            }
            | Event::Post { bytes: _ }
            | Event::Sign {
                party: _,
                label: _,
                digest: _,
            }
            | Event::Give {
                party: _,
                inputs: _,
                outputs: _,
            }
            | Event::Append { bytes: _ }
            | Event::FireInit { contract: _ }
            | Event::Fire {
                output: _,
                branch: _,
            }
            | Event::Mine { blocks: _ } => {}
        }
    }
}

/// A header and the events after it.
pub struct Run {
    pub header: Header,
    pub events: Seq<Event>,
}

impl Drop for Run {
    fn drop(self) {
        let Run {
            header: _,
            events: _,
        } = self;
    }
}

impl Event {
    /// An equal event.
    pub fn copy(&self, alloc: Global) -> Result<Event, OutOfMemory>
        ensures { IfOk result (λ event. event ≡ self.now) }
    {
        Ok(match self {
            Event::Advertise { contract, bindings } => Event::Advertise {
                contract: *contract,
                bindings: bindings.copy(alloc)?,
            },
            Event::Commit {
                contract,
                party,
                digests,
            } => Event::Commit {
                contract: *contract,
                party: *party,
                digests: digests.copy(alloc)?,
            },
            Event::Endorse { contract, party } => Event::Endorse {
                contract: *contract,
                party: *party,
            },
            Event::Init { contract, party } => Event::Init {
                contract: *contract,
                party: *party,
            },
            Event::Authorise {
                party,
                output,
                branch,
            } => Event::Authorise {
                party: *party,
                output: *output,
                branch: *branch,
            },
            Event::Reveal {
                contract,
                party,
                secret,
            } => Event::Reveal {
                contract: *contract,
                party: *party,
                secret: *secret,
            },
            Event::Post { bytes } => Event::Post {
                bytes: bytes.copy(alloc)?,
            },
            Event::Sign {
                party,
                label,
                digest,
            } => Event::Sign {
                party: *party,
                label: Boxed::new(alloc, label.value().copy(alloc)?)?,
                digest: *digest,
            },
            Event::Give {
                party,
                inputs,
                outputs,
            } => Event::Give {
                party: *party,
                inputs: inputs.copy(alloc)?,
                outputs: Boxed::new(alloc, outputs.value().copy(alloc)?)?,
            },
            Event::Append { bytes } => Event::Append {
                bytes: bytes.copy(alloc)?,
            },
            Event::FireInit { contract } => Event::FireInit {
                contract: *contract,
            },
            Event::Fire { output, branch } => Event::Fire {
                output: *output,
                branch: *branch,
            },
            Event::Mine { blocks } => Event::Mine { blocks: *blocks },
        })
    }
}

impl Run {
    /// An equal run.
    pub fn copy(&self, alloc: Global) -> Result<Run, OutOfMemory>
        ensures { IfOk result (λ run. run ≡ self.now) }
    {
        Ok(Run {
            header: self.header.copy(alloc)?,
            events: copy_events(alloc, self.events.as_slice())?,
        })
    }
}

/// Equal events, in the same order.
pub fn copy_events(alloc: Global, events: &[Event]) -> Result<Seq<Event>, OutOfMemory>
    ensures { IfOk result (λ list. list ≡ events.now) }
{
    let mut list = Seq::new(alloc);
    for event in events {
        list.push(event.copy(alloc)?)?;
    }
    Ok(list)
}
