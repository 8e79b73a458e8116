//! A step that is offered, and the step that a branch is taken by.

ghost use Rattle.std.specs.Prelude.{◌≡◌, ◌∷◌, [], ◌++◌, IfSome, OnOk};
ghost use Rattle.spec_run.specs.Offers.{offers_of};
ghost use Rattle.spec_run.specs.declared.event.Event.TheVariants as events;
ghost use Rattle.spec_calculus.specs.Offers as spec;
ghost use Rattle.bm_syntax.specs.View.{guarded};
ghost use Rattle.bm_offers.specs.Offered.{offered, listed};

use bm_calculus::Config;
use bm_syntax::Guarded;
use spec_calculus::Step;
use spec_data::OutOfMemory;
use spec_run::Event;
use std::marker::Model;

/// A contract step that may be taken now, and the event that it is taken by.
pub struct Offer {
    pub step: Step,
    pub event: Event,
}

impl Model for Offer {
    ghost use Rattle.std.specs.Coded.{codes};
    ghost use Rattle.spec_run.specs.Offers.{Offer as Offered};

    ghost Value = { Offered };

    ghost coded = { Prim.hlevel (codes) };

    ghost view = { λ o. record { step = o.step; event = o.event } };
}

impl Drop for Offer {
    fn drop(self) {
        let Offer { step: _, event: _ } = self;
    }
}

impl Offer {
    /// Its event.
    pub fn into_event(self) -> Event
        ensures { result ≡ self.event }
    {
        let Offer { step: _, event } = self;
        event
    }
}

/// The step that takes a branch with this core.
pub(crate) fn step_of(output: u32, branch: u32, core: &Guarded) -> Option<Step>
    ensures step { listed result ≡ spec.taking output branch (guarded core.now) }
    ensures event { IfSome result (λ step. offers_of step ≡ record { step = step; event = events.Fire output branch } ∷ []) }
{
    match core {
        Guarded::PutReveal { .. } => Some(Step::PutReveal { output, branch }),
        Guarded::Withdraw { .. } => Some(Step::Withdraw { output, branch }),
        Guarded::Split { .. } => Some(Step::Split { output, branch }),
        _ => None,
    }
}

/// Offers the step with its event, if the step may be taken.
#[tactic(auto, using(crate::proofs::Steps::is_one, crate::proofs::Steps::is_none))]
pub(crate) fn add(
    found: &mut Vec<Offer>,
    config: &Config,
    step: Step,
    event: Event,
) -> Result<(), OutOfMemory>
    requires { offers_of step ≡ record { step = step; event = event } ∷ [] }
    ensures { OnOk result (found.new.items ≡ found.old.items ++ offered config.now (step ∷ [])) }
{
    match config.enabled(&step) {
        Ok(()) => {
            found.push(Offer { step, event })?;
            Ok(())
        }
        Err(_) => Ok(()),
    }
}
