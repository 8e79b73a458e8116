//! Adverts that passed the check.

ghost use Rattle.std.specs.Prelude.{◌≡◌, IfOk};
ghost use Rattle.spec_terms.specs.Faults.{IsWellFormed};
ghost use Rattle.spec_terms.specs.Parties.{participants as participants_of};

use bm_syntax::{Advert, Name};
use spec_data::OutOfMemory;
use std::alloc::Global;
use std::marker::Model;

/// An advert that may have come from the reader, without a fault and within all limits. Contracts see it as the advert.
pub struct Checked {
    advert: Advert,
    parties: Vec<Name>,
}

impl Model for Checked {
    ghost use Rattle.std.specs.Prelude.{◌≡◌};
    ghost use Rattle.std.specs.Coded.{codes};
    ghost use Rattle.spec_terms.specs.Advert.{Advert as Terms};
    ghost use Rattle.spec_terms.specs.Faults.{IsWellFormed};
    ghost use Rattle.spec_terms.specs.Parties.{participants};
    ghost use Rattle.spec_terms.specs.TermCode.{coded_choice};

    ghost Value = { Terms };

    ghost coded = { Prim.hlevel (codes, coded_choice) };

    ghost view = { λ c. c.advert };

    ghost invariant = { λ c. IsWellFormed c.advert × (c.parties.items ≡ participants c.advert) };
}

impl Drop for Checked {
    fn drop(self) {
        let Checked {
            advert: _,
            parties: _,
        } = self;
    }
}

impl Checked {
    /// The advert, of which the check found no fault and no limit exceeded.
    pub(crate) fn of(advert: Advert, parties: Vec<Name>) -> Checked
        requires well_formed { IsWellFormed advert }
        requires parties { parties.items ≡ participants_of advert }
        ensures { result ≡ advert }
    {
        Checked { advert, parties }
    }

    /// The advert that passed the check.
    pub fn advert(&self) -> &Advert
        ensures value { result.now ≡ self.now }
        ensures well_formed { IsWellFormed self.now }
    {
        &self.advert
    }

    /// The participants in the order of first appearance in the text.
    pub fn parties(&self) -> &[Name]
        ensures { result.now ≡ participants_of self.now }
    {
        &self.parties
    }

    /// An equal checked advert.
    pub fn copy(&self, alloc: Global) -> Result<Checked, OutOfMemory>
        ensures { IfOk result (λ new. new ≡ self.now) }
    {
        Ok(Checked {
            advert: self.advert.copy(alloc)?,
            parties: Vec::from_slice(alloc, &self.parties)?,
        })
    }
}
