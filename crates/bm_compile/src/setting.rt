//! What a contract is compiled with.

ghost use Rattle.std.specs.Prelude.{◌≡◌, true};
ghost use Rattle.std.specs.List.{list_all};
ghost use Rattle.spec_terms.specs.Faults.{IsWellFormed};
ghost use Rattle.spec_terms.specs.Precondition.{deposits};
ghost use Rattle.spec_compiler.specs.Instance.{people};
ghost use Rattle.bm_compile.specs.Seen.{is_bound};

use bm_syntax::{Advert, Name};
use spec_bitcoin::OutPoint;
use std::marker::Model;

/// A checked contract of this number, with the places of its deposits, each of which is bound, and the digests of its secrets.
#[derive(Drop)]
pub(crate) struct Setting<'a> {
    contract: u32,
    advert: &'a Advert,
    parties: &'a [Name],
    bound: &'a [(Name, OutPoint)],
    hashes: &'a [(Name, [u8; 32])],
}

impl<'a> Model for Setting<'a> {
    ghost use Rattle.std.specs.Prelude.{◌≡◌, true};
    ghost use Rattle.std.specs.List.{list_all};
    ghost use Rattle.std.specs.Coded.{codes};
    ghost use Rattle.spec_terms.specs.Faults.{IsWellFormed};
    ghost use Rattle.spec_terms.specs.Precondition.{deposits};
    ghost use Rattle.spec_terms.specs.TermCode.{coded_choice};
    ghost use Rattle.bm_compile.specs.Seen.{is_bound};
    ghost use Rattle.spec_compiler.specs.Instance.{Instance};
    ghost use Rattle.spec_terms.specs.Parties.{participants};

    ghost Value = { Instance };

    ghost coded = { Prim.hlevel (codes, coded_choice) };

    ghost view = { λ s. record { contract = s.contract; advert = s.advert.now; bound = s.bound.now; hashes = s.hashes.now } };

    ghost invariant = { λ s. (s.parties.now ≡ participants s.advert.now)
        × IsWellFormed s.advert.now
        × (list_all (λ d. is_bound s.bound.now d.0) (deposits s.advert.now.pre) ≡ true) };
}

impl<'a> Setting<'a> {
    /// The setting of these parts, where the parties are the contract's participants in order.
    pub(crate) fn of(
        contract: u32,
        advert: &'a Advert,
        parties: &'a [Name],
        bound: &'a [(Name, OutPoint)],
        hashes: &'a [(Name, [u8; 32])],
    ) -> Setting<'a>
        requires parties { parties.now
            ≡ people (record { contract = contract; advert = advert.now; bound = bound.now; hashes = hashes.now }) }
        requires well_formed { IsWellFormed advert.now }
        requires bound { list_all (λ d. is_bound bound.now d.0) (deposits advert.now.pre) ≡ true }
        ensures { result ≡ record { contract = contract; advert = advert.now; bound = bound.now; hashes = hashes.now } }
    {
        Setting {
            contract,
            advert,
            parties,
            bound,
            hashes,
        }
    }

    /// What is known of each setting: its advert has passed the check, and its deposits are bound.
    pub(crate) fn is_seen_to(&self)
        ensures well_formed { IsWellFormed self.now.advert }
        ensures bound { list_all (λ d. is_bound self.now.bound d.0) (deposits self.now.advert.pre) ≡ true }
    {
        let _ = &self.contract;
    }

    /// The number of the contract in its run.
    pub(crate) fn contract(&self) -> u32
        ensures { result ≡ self.now.contract }
    {
        self.contract
    }

    pub(crate) fn advert(&self) -> &Advert
        ensures { result.now ≡ self.now.advert }
    {
        self.advert
    }

    /// The participants in order.
    pub(crate) fn parties(&self) -> &[Name]
        ensures { result.now ≡ people self.now }
    {
        self.parties
    }

    /// Where the deposits lie.
    pub(crate) fn bound(&self) -> &[(Name, OutPoint)]
        ensures { result.now ≡ self.now.bound }
    {
        self.bound
    }

    /// The committed digests.
    pub(crate) fn hashes(&self) -> &[(Name, [u8; 32])]
        ensures { result.now ≡ self.now.hashes }
    {
        self.hashes
    }
}
