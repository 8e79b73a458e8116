//! How a run ends that left a world.

ghost use Rattle.std.specs.Prelude.{◌≡◌, option_map, Some, IfOk};
ghost use Rattle.spec_run.specs.Translation as run_of;
ghost use Rattle.spec_text.specs.Played.{halted, ending};
ghost use Rattle.bm_report.specs.Endings.{ending_of, IsNumbered};
ghost use Rattle.bm_world.specs.Playing.{setup_in};
ghost use Rattle.bm_world.specs.Halts.{halt_of};
ghost use Rattle.tool_replies.specs.Whole.{IsLeft};

use bm_calculus::Config;
use bm_hash::Hash32;
use bm_report::Ending;
use bm_world::{Halt, World};
use spec_data::OutOfMemory;
use spec_run::Event;
use std::alloc::{AllocError, Global};
use tool_shows::whole_ending;

// The end of a run whose event was halted by this.
fn halted_by(event: Event, halt: Halt) -> Result<Ending, OutOfMemory>
    ensures ending { IfOk result (λ ending. Some (ending_of ending) ≡ option_map (halted event) (halt_of halt)) }
    ensures numbered { IfOk result IsNumbered }
{
    match halt {
        Halt::Collided(first, second) => Ok(Ending::Collided {
            event: Some(event),
            first,
            second,
        }),
        Halt::Guessed { party, secret } => Ok(Ending::Guessed {
            event,
            party,
            secret,
        }),
        Halt::Memory => Err(AllocError),
    }
}

/// The end of a run whose event was halted.
pub(crate) fn halted_ending(alloc: Global, event: &Event, halt: Halt) -> Result<Ending, OutOfMemory>
    ensures ending { IfOk result (λ ending. Some (ending_of ending) ≡ option_map (halted event.now) (halt_of halt)) }
    ensures numbered { IfOk result IsNumbered }
{
    let event = event.copy(alloc)?;
    halted_by(event, halt)
}

/// The end of a run of these events that left this world. `bitml_draw` draws it.
pub fn ending_by<H: Hash32 + Drop>(
    alloc: Global,
    world: &World<H>,
    events: &[Event],
    last: Config,
    stop: Option<(usize, Halt)>,
) -> Result<Ending, OutOfMemory>
    requires left { IsLeft H.digest_of (setup_in H.digest_of world.now) events.now world.now stop }
    requires last { last ≡ run_of.last_configuration (setup_in H.digest_of world.now) events.now }
    ensures ending { IfOk result (λ end. ending_of end ≡ ending (setup_in H.digest_of world.now) events.now) }
    ensures numbered { IfOk result IsNumbered }
{
    match stop {
        None => whole_ending(alloc, world.ledger(), last),
        Some((number, halt)) => halted_ending(alloc, &events[number], halt),
    }
}
