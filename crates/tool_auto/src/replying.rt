//! The reply of `auto`.

ghost use Rattle.std.specs.Prelude.{◌≡◌, ◌+◌, ◌≤◌, length, IfOk};
ghost use Rattle.std.specs.List.{AllByRecursion};
ghost use Rattle.spec_data.specs.Ranges.{most_contracts};
ghost use Rattle.spec_text.specs.Limits.{most_events};
ghost use Rattle.theory_text.specs.RunFiles.{IsReadRun};
ghost use Rattle.spec_tool.specs.Commands.{setup_of};
ghost use Rattle.spec_tool.specs.Answers.{if_whole, rules_judged};
ghost use Rattle.spec_tool.specs.AutoText as spec;
ghost use Rattle.theory_auto.specs.OwnRules.{IsHonest};
ghost use Rattle.spec_tool.specs.Replies.{printed};
ghost use Rattle.bm_auto.specs.Judged.{judged};
ghost use Rattle.tool_auto.specs.Continued.{ContinuesIfWhole, GoesOnBeside};

use crate::continuing::continued_reply;
use bm_auto::{StrategyJudgement, judge_strategy, strategy_refused};
use bm_hash::Hash32;
use bm_wellformed::Checked;
use spec_data::{Bytes, OutOfMemory};
use spec_run::Run;
use spec_tool::{Reply, Rule};
use std::alloc::Global;
use theory_auto::{longer_runs_are_spelled, strategies_are_honest};
use tool_replies::{halt_reply, leak, play_to_end};

// What is replied to a run, which goes on by these rules unless it is halted.
fn rules_reply<H: Hash32 + Drop>(
    alloc: Global,
    hash: H,
    run: &Run,
    contracts: Vec<Checked>,
    rules: &[Rule],
) -> Result<Reply, OutOfMemory>
    requires run { IsReadRun run.now }
    requires few { length contracts.items ≤ most_contracts }
    requires honest { AllByRecursion (IsHonest run.now.header) rules.now }
    requires room { length run.now.events + length rules.now ≤ most_events }
    ensures reply { IfOk result (λ reply. printed reply
        ≡ if_whole (spec.auto_answer rules.now) (setup_of (H.digest_of hash) run.now contracts.items) run.now.events) }
    ensures continued { IfOk result (ContinuesIfWhole (setup_of (H.digest_of hash) run.now contracts.items) run.now rules.now) }
{
    match play_to_end(alloc, hash, run, contracts) {
        Err(halt) => halt_reply(alloc, &halt),
        Ok(world) => {
            let mut world = world;
            let reply = continued_reply(alloc, &mut world, run, rules);
            leak(world);
            reply
        }
    }
}

// How the file of a strategy is judged beside a run.
fn judge(
    alloc: Global,
    run: &Run,
    run_bytes: usize,
    strategy: &Option<Bytes>,
) -> Result<StrategyJudgement, OutOfMemory>
    ensures { IfOk result (λ j. judged j ≡ spec.strategy_in run_bytes run.now.header run.now.events strategy.now) }
{
    judge_strategy(
        alloc,
        run_bytes,
        &run.header,
        run.events.as_slice(),
        strategy,
    )
}

// What is replied where the file is refused for this.
fn refused_reply(alloc: Global, why: &Bytes) -> Result<Reply, OutOfMemory>
    ensures { IfOk result (λ reply. printed reply ≡ spec.strategy_refused why.now) }
{
    strategy_refused(alloc, why.as_slice())
}

/// What `auto` replies to a run, which was read from a file of so many bytes, to its contracts and to the file of a strategy, of which
/// nothing is given where it is too long. A text with the status 0 is that of the run with the events of the rules behind its own, and
/// is read as it.
pub fn auto_reply<H: Hash32 + Drop>(
    alloc: Global,
    hash: H,
    run: &Run,
    contracts: Vec<Checked>,
    run_bytes: usize,
    strategy: &Option<Bytes>,
) -> Result<Reply, OutOfMemory>
    requires run { IsReadRun run.now }
    requires few { length contracts.items ≤ most_contracts }
    ensures reply { IfOk result (λ reply. printed reply
        ≡ rules_judged (spec.strategy_in run_bytes run.now.header run.now.events strategy.now)
        (setup_of (H.digest_of hash) run.now contracts.items) run.now.events) }
    ensures continued { IfOk result (GoesOnBeside (setup_of (H.digest_of hash) run.now contracts.items) run.now run_bytes strategy.now) }
{
    strategies_are_honest();
    longer_runs_are_spelled();
    let judgement = judge(alloc, run, run_bytes, strategy)?;
    match judgement {
        StrategyJudgement::Refused(why) => refused_reply(alloc, &why),
        StrategyJudgement::Taken(rules) => {
            rules_reply(alloc, hash, run, contracts, rules.as_slice())
        }
    }
}
