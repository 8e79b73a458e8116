//! The events of a generated run.

ghost use Rattle.std.specs.Prelude.{◌≡◌, ◌<◌, ◌≤◌, ◌+◌, ◌*◌, ◌^◌, ◌++◌, OnOk};
ghost use Rattle.spec_run.specs.declared.event.Event.TheVariants as events;
ghost use Rattle.spec_text.specs.Generator as spec;
ghost use Rattle.bm_make.specs.Lines.{line, lines};
ghost use Rattle.bm_make.specs.Stages.{stage_with, stages_with};

use crate::contract::put_name;
use crate::draws::Draws;
use crate::going::Going;
use bm_text::{put, put_decimal};
use spec_data::OutOfMemory;
use std::alloc::Global;

/// How many gifts each stage has.
const GIFTS: u64 = 300;

/// The events up to the beginning of the contract.
fn put_first(out: &mut Vec<u8>) -> Result<(), OutOfMemory>
    ensures { OnOk result (out.new.items ≡ out.old.items ++ lines spec.first_events) }
{
    put(
        out,
        b"advertise 0 x=#0 y=#1\ncommit 0 A\ncommit 0 B\nendorse 0 A\nendorse 0 B\ninit 0 A\ninit 0 B\nfire init 0\n",
    )
}

#[tactic(auto, using(std::proofs::Common::append_assoc, crate::proofs::EventLines::reveal_line))]
fn put_reveal(alloc: Global, out: &mut Vec<u8>, number: u64) -> Result<(), OutOfMemory>
    ensures { OnOk result (out.new.items ≡ out.old.items
        ++ line (events.Reveal 0 spec.party_a (spec.secret_name number))) }
{
    put(out, b"reveal 0 A ")?;
    put_name(alloc, out, number)?;
    put(out, b"\n")
}

/// The first branch of the contract's output is taken.
#[tactic(auto, using(std::proofs::Common::append_assoc, crate::proofs::EventLines::fire_line))]
fn put_fire(alloc: Global, out: &mut Vec<u8>, output: u64) -> Result<(), OutOfMemory>
    ensures { OnOk result (out.new.items ≡ out.old.items ++ line (events.Fire output 0)) }
{
    put(out, b"fire #")?;
    put_decimal(alloc, out, output)?;
    put(out, b" 0\n")
}

/// A stage: the secret of this number is revealed, the branch is taken, and so many gifts follow.
#[tactic(auto, using(std::proofs::Common::append_assoc))]
fn put_stage(
    alloc: Global,
    out: &mut Vec<u8>,
    going: &mut Going,
    number: u64,
    gifts: u64,
) -> Result<(), OutOfMemory>
    requires { going.old.next + 2 * gifts + 1 < 2 ^ 64 }
    ensures text { OnOk result (out.new.items ≡ out.old.items ++ lines (stage_with gifts number going.old).0) }
    ensures going { OnOk result (going.new ≡ (stage_with gifts number going.old).1) }
    ensures next { OnOk result (going.new.next ≤ going.old.next + 2 * gifts + 1) }
{
    put_reveal(alloc, out, number)?;
    put_fire(alloc, out, going.contract())?;
    going.take();
    going.put_gifts(alloc, out, gifts)
}

/// So many stages, each with so many gifts, and the withdrawal.
#[tactic(auto, using(std::proofs::Common::append_assoc, crate::proofs::GiftSteps::stage_lines))]
fn put_stages(
    alloc: Global,
    out: &mut Vec<u8>,
    going: &mut Going,
    size: u64,
    gifts: u64,
) -> Result<(), OutOfMemory>
    requires gifts { gifts ≤ 300 }
    requires room { going.old.next + 601 * size < 2 ^ 64 }
    ensures { OnOk result (out.new.items ≡ out.old.items ++ lines (stages_with gifts size 1 going.old)) }
{
    for i in 0..size {
        put_stage(alloc, out, going, i + 1, gifts)?;
    }
    put_fire(alloc, out, going.contract())
}

/// The canonical lines of the events of so many stages.
#[tactic(auto, using(std::proofs::Common::append_assoc, crate::proofs::EventLines::event_lines))]
pub(crate) fn put_events(
    alloc: Global,
    out: &mut Vec<u8>,
    draws: Draws,
    size: u64,
) -> Result<(), OutOfMemory>
    requires { size ≤ 30 }
    ensures { OnOk result (out.new.items ≡ out.old.items ++ lines (spec.generated_events size draws.state)) }
{
    let mut going = Going::begun(alloc, draws)?;
    put_first(out)?;
    put_stages(alloc, out, &mut going, size, GIFTS)
}
