//! One round.

ghost use Rattle.std.specs.Prelude.{◌≡◌, ◌+◌, ◌≤◌, ◌++◌, ◌∷◌, [], length, map, IfOk, IfErr, OnOk};
ghost use Rattle.std.specs.List.{AllByRecursion};
ghost use Rattle.bm_world.specs.Playing.{most_records};
ghost use Rattle.theory_auto.specs.OwnRules.{IsHonest};
ghost use Rattle.bm_auto.specs.Trying.{taken_by, kept_by};
ghost use Rattle.bm_auto.specs.Turning.{Turns, StopsTurning};

use crate::trying::take_rule;
use bm_hash::Hash32;
use bm_world::{Halt, World};
use spec_data::OutOfMemory;
use spec_run::Event;
use spec_tool::Rule;
use std::alloc::Global;

// One more behind the others.
fn add<T: Drop>(list: &mut Vec<T>, one: T) -> Result<(), OutOfMemory>
    ensures { OnOk result (list.new.items ≡ list.old.items ++ one ∷ []) }
{
    list.push(one)?;
    Ok(())
}

// A rule that wasn't taken is left, and the event of another comes behind the others.
fn put<'a>(
    taken: Option<Event>,
    rule: &'a Rule,
    left: &mut Vec<&'a Rule>,
    events: &mut Vec<Event>,
) -> Result<(), OutOfMemory>
    ensures left { OnOk result (map (λ r. r.now) left.new.items ≡ map (λ r. r.now) left.old.items ++ kept_by rule.now taken) }
    ensures events { OnOk result (events.new.items ≡ events.old.items ++ taken_by taken) }
{
    match taken {
        Some(event) => add(events, event),
        None => add(left, rule),
    }
}

/// Tries these rules in order. The events of those that are taken come behind the others; the rules that aren't are given back.
pub(crate) fn round<'a, H: Hash32 + Drop>(
    alloc: Global,
    world: &mut World<H>,
    rules: &[&'a Rule],
    events: &mut Vec<Event>,
) -> Result<Vec<&'a Rule>, Halt>
    requires honest { AllByRecursion (IsHonest world.old.header) (map (λ r. r.now) rules.now) }
    requires few { length world.old.trace + length rules.now ≤ most_records }
    ensures turns { IfOk result (λ left. Turns H.digest_of world.old world.new (map (λ r. r.now) rules.now)
        (map (λ r. r.now) left.items) events.old.items events.new.items) }
    ensures stops { IfErr result (StopsTurning H.digest_of world.old world.new (map (λ r. r.now) rules.now)) }
{
    let mut left = Vec::new(alloc);
    for rule in rules {
        let taken = take_rule(alloc, world, rule)?;
        put(taken, rule, &mut left, events)?;
    }
    Ok(left)
}
