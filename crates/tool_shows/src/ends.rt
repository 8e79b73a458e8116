//! The end of a run that wasn't halted.

ghost use Rattle.std.specs.Prelude.{◌≡◌, ◌<◌, ◌^◌, length, map, IfOk};
ghost use Rattle.spec_run.specs.Offers.{offers as all_offers};
ghost use Rattle.spec_text.specs.PlayText.{whole};
ghost use Rattle.bm_report.specs.Endings.{ending_of, IsNumbered};
ghost use Rattle.tool_shows.specs.Live.{number_and_value};

use crate::live::live_outputs;
use bm_calculus::Config;
use bm_ledger::Ledger;
use bm_offers::{Offer, offers};
use bm_report::Ending;
use spec_data::{OutOfMemory, Seq};
use spec_run::Event;
use std::alloc::Global;

// The events of offers.
fn events_of(alloc: Global, offers: Vec<Offer>) -> Result<Vec<Event>, OutOfMemory>
    ensures { IfOk result (λ v. v.items ≡ map (λ o. o.event) offers.items) }
{
    offers
        .into_iter()
        .map(|offer| offer.into_event())
        .collect(alloc)
}

/// The end of a run that left this ledger and this configuration: the height, the live outputs, the configuration, and the events of
/// its offers.
pub fn whole_ending(alloc: Global, ledger: &Ledger, config: Config) -> Result<Ending, OutOfMemory>
    requires { length config.contracts < 2 ^ 32 }
    ensures whole { IfOk result (λ ending. ending_of ending
        ≡ whole ledger.now.tip (map number_and_value ledger.now.live) config (map (λ o. o.event) (all_offers config))) }
    ensures numbered { IfOk result IsNumbered }
{
    let offered = offers(alloc, &config)?;
    let live = live_outputs(alloc, ledger)?;
    let events = events_of(alloc, offered)?;
    Ok(Ending::Whole {
        tip: ledger.tip(),
        live: Seq::of(live),
        config,
        offers: Seq::of(events),
    })
}
