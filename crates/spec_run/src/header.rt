//! The header of a run: who takes part, who is honest, and what is there at first.

ghost use Rattle.std.specs.Prelude.{◌≡◌, IfOk};

use spec_data::{Bytes, Name, OutOfMemory, Seq};
use std::alloc::Global;

/// A secret of an honest party, held from the start.
pub struct HeldSecret {
    pub party: Name,
    pub name: Name,
    pub bytes: Bytes,
}

impl Drop for HeldSecret {
    fn drop(self) {
        let HeldSecret {
            party: _,
            name: _,
            bytes: _,
        } = self;
    }
}

/// What stands before the events of a run, each list in the order of its lines. A deposit has
/// its owner and its value in satoshi.
pub struct Header {
    pub parties: Seq<Name>,
    pub honest: Seq<Name>,
    pub secrets: Seq<HeldSecret>,
    pub deposits: Seq<(Name, u64)>,
}

impl Drop for Header {
    fn drop(self) {
        let Header {
            parties: _,
            honest: _,
            secrets: _,
            deposits: _,
        } = self;
    }
}

impl HeldSecret {
    /// An equal secret.
    pub fn copy(&self, alloc: Global) -> Result<HeldSecret, OutOfMemory>
        ensures { IfOk result (λ secret. secret ≡ self.now) }
    {
        Ok(HeldSecret {
            party: self.party,
            name: self.name,
            bytes: self.bytes.copy(alloc)?,
        })
    }
}

impl Header {
    /// An equal header.
    pub fn copy(&self, alloc: Global) -> Result<Header, OutOfMemory>
        ensures { IfOk result (λ header. header ≡ self.now) }
    {
        Ok(Header {
            parties: self.parties.copy(alloc)?,
            honest: self.honest.copy(alloc)?,
            secrets: copy_secrets(alloc, self.secrets.as_slice())?,
            deposits: self.deposits.copy(alloc)?,
        })
    }
}

/// A list of equal secrets.
fn copy_secrets(alloc: Global, secrets: &[HeldSecret]) -> Result<Seq<HeldSecret>, OutOfMemory>
    ensures { IfOk result (λ list. list ≡ secrets.now) }
{
    let mut list = Seq::new(alloc);
    for secret in secrets {
        list.push(secret.copy(alloc)?)?;
    }
    Ok(list)
}
