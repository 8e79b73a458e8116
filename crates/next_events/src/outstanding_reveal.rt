//! What is missing for a reveal.

ghost use Rattle.std.specs.Prelude.{◌≡◌, ◌++◌, OnOk};
ghost use Rattle.std.specs.Prelude.{◌∷◌, []};
ghost use Rattle.spec_calculus.specs.Beginning as beginning;
ghost use Rattle.spec_next.specs.declared.requirement.Requirement.TheVariants as outstanding;
ghost use Rattle.spec_next.specs.Requirements.{unmet};

use crate::outstanding::put_unless;
use bm_calculus::Config;
use spec_data::{Name, OutOfMemory, Seq};
use spec_next::Requirement;
use std::marker::Model;

/// What is missing of the contract, which has begun or hasn't, for a party to reveal a secret of it.
#[tactic(auto, using(std::proofs::Common::append_assoc, crate::proofs::Unmet::unmet_first))]
pub fn put_begun(
    requirements: &mut Seq<Requirement>,
    config: &Config,
    begun: bool,
    contract: u32,
    party: &Name,
) -> Result<(), OutOfMemory>
    ensures { OnOk result (requirements.new ≡ requirements.old ++ unmet (
        (beginning.is_advertised config.now.advertised contract, outstanding.Advert contract)
        ∷ (beginning.has_committed config.now.committed contract party.now, outstanding.Commitment party.now contract)
        ∷ (begun, outstanding.Beginning contract)
        ∷ [])) }
{
    put_unless(
        requirements,
        config.is_advertised(contract),
        Requirement::Advert(contract),
    )?;
    let requirement = Requirement::Commitment {
        party: *party,
        contract,
    };
    put_unless(
        requirements,
        config.has_committed(contract, party),
        requirement,
    )?;
    put_unless(requirements, begun, Requirement::Beginning(contract))
}
