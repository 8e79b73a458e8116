//! Adverts.

ghost use Rattle.std.specs.Prelude.{◌≡◌, IfOk};

use crate::copies::copy;
use crate::term::Contract;
use spec_data::OutOfMemory;
use spec_terms::Pre;
use std::alloc::Global;
use std::marker::Model;

/// What a contract needs beforehand, the fee that each of its transactions leaves to the miner, in satoshi, and the contract.
pub struct Advert {
    pub pre: Vec<Pre>,
    pub fee: u64,
    pub root: Contract,
}

impl Model for Advert {
    ghost use Rattle.spec_terms.specs.Advert.{Advert as Terms};
    ghost use Rattle.spec_terms.specs.TermCode.{coded_choice};
    ghost use Rattle.bm_syntax.specs.View.{contract};
    ghost use Rattle.std.specs.Coded.{codes};

    ghost Value = { Terms };

    ghost coded = { Prim.hlevel (codes, coded_choice) };

    ghost view = { λ a. record { pre = a.pre.items; fee = a.fee; root = contract a.root } };
}

impl Drop for Advert {
    fn drop(self) {
        let Advert {
            pre: _,
            fee: _,
            root: _,
        } = self;
    }
}

impl Advert {
    /// An equal advert.
    pub fn copy(&self, alloc: Global) -> Result<Advert, OutOfMemory>
        ensures { IfOk result (λ new. new ≡ self.now) }
    {
        Ok(Advert {
            pre: Vec::from_slice(alloc, &self.pre)?,
            fee: self.fee,
            root: copy(alloc, &self.root)?,
        })
    }
}
