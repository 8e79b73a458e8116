//! All rounds.

ghost use Rattle.std.specs.Prelude.{◌≡◌, ◌+◌, ◌≤◌, length, map, IfOk, IfErr};
ghost use Rattle.std.specs.List.{AllByRecursion};
ghost use Rattle.bm_world.specs.Playing.{most_records};
ghost use Rattle.theory_auto.specs.OwnRules.{IsHonest};
ghost use Rattle.bm_auto.specs.Extending.{Extends, StopsExtending};

use crate::turning::round;
use bm_hash::Hash32;
use bm_world::{Halt, World};
use spec_data::OutOfMemory;
use spec_run::Event;
use spec_tool::Rule;
use std::alloc::Global;

// All rules, in order.
fn all_of<'a>(alloc: Global, rules: &'a [Rule]) -> Result<Vec<&'a Rule>, OutOfMemory>
    ensures { IfOk result (λ list. map (λ r. r.now) list.items ≡ rules.now) }
{
    let mut list = Vec::new(alloc);
    for rule in rules {
        list.push(rule)?;
    }
    Ok(list)
}

/// Goes on with a run by the rules of a strategy: rounds follow one another until one takes no rule. The events of the rules that were
/// taken are given, in order, and they stand in the trace, after a halt too. A halt is that of the first event that is tried and halts,
/// an earlier one of the world, or out of memory.
pub fn extend<H: Hash32 + Drop>(
    alloc: Global,
    world: &mut World<H>,
    rules: &[Rule],
) -> Result<Vec<Event>, Halt>
    requires honest { AllByRecursion (IsHonest world.old.header) rules.now }
    requires few { length world.old.trace + length rules.now ≤ most_records }
    ensures extends { IfOk result (λ events. Extends H.digest_of world.old world.new rules.now events.items) }
    ensures stops { IfErr result (StopsExtending H.digest_of world.old world.new rules.now) }
{
    let mut events = Vec::new(alloc);
    let mut left = all_of(alloc, rules)?;
    for _ in 0..rules.len() + 1 {
        let before = events.len();
        left = round(alloc, world, left.as_slice(), &mut events)?;
        if events.len() == before {
            return Ok(events);
        }
    }
    Ok(events)
}
