//! What is missing for an event that can't come now.

ghost use Rattle.std.specs.Prelude.{◌≡◌, IfOk};

use spec_data::{Name, OutOfMemory, Seq};
use std::alloc::Global;

/// What is missing. Heights are in blocks.
pub enum Requirement {
    /// The contract isn't advertised.
    Advert(u32),
    /// No live deposit fits the one of this name.
    Deposit(Name),
    /// The deposit that is bound to this name is gone.
    Gone(Name),
    /// Nobody who takes part is honest.
    NobodyHonest,
    /// The secret of an honest party isn't there.
    Missing(Name),
    /// It is shorter than 16 bytes or longer than 520.
    BadLength(Name),
    /// Its digest was committed before.
    Repeated(Name),
    /// The digest of a secret that its party, which isn't honest, is to commit.
    Digest {
        party: Name,
        contract: u32,
        secret: Name,
    },
    /// The party hasn't committed.
    Commitment {
        party: Name,
        contract: u32,
    },
    /// The party hasn't signed all that it endorses.
    Endorsement {
        party: Name,
        contract: u32,
    },
    /// The party hasn't signed its deposits of the initial transaction.
    Start {
        party: Name,
        contract: u32,
    },
    /// The contract hasn't begun.
    Beginning(u32),
    /// The height isn't reached; so many blocks lead to it.
    Height {
        height: u32,
        blocks: u32,
    },
    /// The party hasn't authorised the branch.
    Authorisation {
        party: Name,
        output: u32,
        branch: u32,
    },
    /// The deposit that is put in is gone.
    Put(Name),
    /// The party, which is honest, hasn't revealed the secret.
    Secret {
        party: Name,
        contract: u32,
        secret: Name,
    },
    /// The secret of a party that isn't honest isn't posted.
    Posted {
        party: Name,
        secret: Name,
    },
    /// The predicate is false of the revealed lengths, so nothing can be done.
    Predicate,
}

impl Drop for Requirement {
    fn drop(self) {
        match self {
            Requirement::Advert(_)
            | Requirement::Deposit(_)
            | Requirement::Gone(_)
            | Requirement::NobodyHonest
            | Requirement::Missing(_)
            | Requirement::BadLength(_)
            | Requirement::Repeated(_)
            | Requirement::Digest {
                party: _,
                contract: _,
                secret: _,
            }
            | Requirement::Commitment {
                party: _,
                contract: _,
            }
            | Requirement::Endorsement {
                party: _,
                contract: _,
            }
            | Requirement::Start {
                party: _,
                contract: _,
            }
            | Requirement::Beginning(_)
            | Requirement::Height {
                height: _,
                blocks: _,
            }
            | Requirement::Authorisation {
                party: _,
                output: _,
                branch: _,
            }
            | Requirement::Put(_)
            | Requirement::Secret {
                party: _,
                contract: _,
                secret: _,
            }
            | Requirement::Posted {
                party: _,
                secret: _,
            }
            | Requirement::Predicate => {}
        }
    }
}

impl Requirement {
    /// An equal one.
    pub fn copy(&self) -> Requirement
        ensures { result ≡ self.now }
    {
        match self {
            Requirement::Advert(contract) => Requirement::Advert(*contract),
            Requirement::Deposit(name) => Requirement::Deposit(*name),
            Requirement::Gone(name) => Requirement::Gone(*name),
            Requirement::NobodyHonest => Requirement::NobodyHonest,
            Requirement::Missing(secret) => Requirement::Missing(*secret),
            Requirement::BadLength(secret) => Requirement::BadLength(*secret),
            Requirement::Repeated(secret) => Requirement::Repeated(*secret),
            Requirement::Digest {
                party,
                contract,
                secret,
            } => Requirement::Digest {
                party: *party,
                contract: *contract,
                secret: *secret,
            },
            Requirement::Commitment { party, contract } => Requirement::Commitment {
                party: *party,
                contract: *contract,
            },
            Requirement::Endorsement { party, contract } => Requirement::Endorsement {
                party: *party,
                contract: *contract,
            },
            Requirement::Start { party, contract } => Requirement::Start {
                party: *party,
                contract: *contract,
            },
            Requirement::Beginning(contract) => Requirement::Beginning(*contract),
            Requirement::Height { height, blocks } => Requirement::Height {
                height: *height,
                blocks: *blocks,
            },
            Requirement::Authorisation {
                party,
                output,
                branch,
            } => Requirement::Authorisation {
                party: *party,
                output: *output,
                branch: *branch,
            },
            Requirement::Put(name) => Requirement::Put(*name),
            Requirement::Secret {
                party,
                contract,
                secret,
            } => Requirement::Secret {
                party: *party,
                contract: *contract,
                secret: *secret,
            },
            Requirement::Posted { party, secret } => Requirement::Posted {
                party: *party,
                secret: *secret,
            },
            Requirement::Predicate => Requirement::Predicate,
        }
    }
}

/// Equal ones, in the same order.
pub fn copy_requirements(
    alloc: Global,
    requirements: &[Requirement],
) -> Result<Seq<Requirement>, OutOfMemory>
    ensures { IfOk result (λ list. list ≡ requirements.now) }
{
    let mut list = Seq::new(alloc);
    for requirement in requirements {
        list.push(requirement.copy())?;
    }
    Ok(list)
}
