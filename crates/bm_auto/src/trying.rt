//! One rule is tried.

ghost use Rattle.std.specs.Prelude.{◌≡◌, ◌<◌, length, IfOk, IfErr};
ghost use Rattle.bm_world.specs.Playing.{most_records};
ghost use Rattle.theory_auto.specs.OwnRules.{IsHonest};
ghost use Rattle.bm_auto.specs.Trying.{Tries, StopsTrying};

use crate::ruling::rule_event;
use bm_hash::Hash32;
use bm_world::{Halt, World};
use spec_run::Event;
use spec_tool::Rule;
use std::alloc::Global;

/// Tries the event of a rule in this world, where it has one; the event is played if it is done or accepted, and only then.
pub(crate) fn take_rule<H: Hash32 + Drop>(
    alloc: Global,
    world: &mut World<H>,
    rule: &Rule,
) -> Result<Option<Event>, Halt>
    requires honest { IsHonest world.old.header rule.now }
    requires few { length world.old.trace < most_records }
    ensures tries { IfOk result (Tries H.digest_of world.old world.new rule.now) }
    ensures stops { IfErr result (StopsTrying H.digest_of world.old world.new rule.now) }
{
    let Some(event) = rule_event(alloc, world.board(), rule) else {
        return Ok(None);
    };
    let passes = world.test(&event)?;
    if !passes {
        return Ok(None);
    }
    let _outcome = world.event(&event)?;
    Ok(Some(event))
}
