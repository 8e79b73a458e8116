//! The lines of the end of a run.

ghost use Rattle.std.specs.Prelude.{◌≡◌, ◌++◌, codes, flat_map, OnOk};
ghost use Rattle.std.specs.Fmt.{decimal};
ghost use Rattle.spec_text.specs.RunText.{output_text, newline};
ghost use Rattle.spec_text.specs.PlayText as spec;

use crate::piece::put_made;
use crate::step::owner_text;
use bm_keys::put_path;
use bm_runfile::{Event, put_event, put_output};
use bm_text::{put, put_decimal, put_hex};
use spec_calculus::{ActiveContract, Deposit};
use spec_data::{Name, OutOfMemory};
use std::alloc::Global;
use std::collections::VecDeque;

#[tactic(auto, using(std::proofs::Common::append_assoc))]
fn put_live(alloc: Global, out: &mut Vec<u8>, number: u32, value: u64) -> Result<(), OutOfMemory>
    ensures { OnOk result (out.new.items ≡ out.old.items ++ spec.live_line (number, value)) }
{
    put(out, b"live")?;
    put_made(alloc, out, number, value)?;
    put(out, b"\n")
}

fn put_lives(alloc: Global, out: &mut Vec<u8>, live: &[(u32, u64)]) -> Result<(), OutOfMemory>
    ensures { OnOk result (out.new.items ≡ out.old.items ++ flat_map spec.live_line live.now) }
{
    for (number, value) in live {
        put_live(alloc, out, *number, *value)?;
    }
    Ok(())
}

#[tactic(auto, using(std::proofs::Common::append_assoc))]
fn put_deposit(alloc: Global, out: &mut Vec<u8>, deposit: &Deposit) -> Result<(), OutOfMemory>
    ensures { OnOk result (out.new.items ≡ out.old.items ++ spec.deposit_line deposit.now) }
{
    put(out, b"deposit ")?;
    put_output(alloc, out, deposit.number)?;
    put(out, b" ")?;
    put(out, owner_text(&deposit.owner))?;
    put(out, b" ")?;
    put_decimal(alloc, out, deposit.value)?;
    put(out, b"\n")
}

fn put_deposits(
    alloc: Global,
    out: &mut Vec<u8>,
    deposits: &VecDeque<Deposit>,
) -> Result<(), OutOfMemory>
    ensures { OnOk result (out.new.items ≡ out.old.items ++ flat_map spec.deposit_line deposits.now.items) }
{
    for deposit in deposits {
        put_deposit(alloc, out, deposit)?;
    }
    Ok(())
}

#[tactic(auto, using(std::proofs::Common::append_assoc))]
fn put_place(
    alloc: Global,
    out: &mut Vec<u8>,
    number: u32,
    contract: u32,
) -> Result<(), OutOfMemory>
    ensures { OnOk result (out.new.items ≡ out.old.items ++ (codes "contract "
        ++ (output_text number ++ (codes " " ++ decimal contract)))) }
{
    put(out, b"contract ")?;
    put_output(alloc, out, number)?;
    put(out, b" ")?;
    put_decimal(alloc, out, contract as u64)
}

#[tactic(auto, using(std::proofs::Common::append_assoc))]
fn put_contract(
    alloc: Global,
    out: &mut Vec<u8>,
    active: &ActiveContract,
) -> Result<(), OutOfMemory>
    ensures { OnOk result (out.new.items ≡ out.old.items ++ spec.contract_line active.now) }
{
    put_place(alloc, out, active.number, active.contract)?;
    put(out, b" ")?;
    put_path(alloc, out, active.position.steps())?;
    put(out, b" ")?;
    put_decimal(alloc, out, active.balance)?;
    put(out, b"\n")
}

fn put_contracts(
    alloc: Global,
    out: &mut Vec<u8>,
    contracts: &[ActiveContract],
) -> Result<(), OutOfMemory>
    ensures { OnOk result (out.new.items ≡ out.old.items ++ flat_map spec.contract_line contracts.now) }
{
    for active in contracts {
        put_contract(alloc, out, active)?;
    }
    Ok(())
}

#[tactic(auto, using(std::proofs::Common::append_assoc))]
fn put_offer(alloc: Global, out: &mut Vec<u8>, event: &Event) -> Result<(), OutOfMemory>
    ensures { OnOk result (out.new.items ≡ out.old.items ++ spec.offer_line event.now) }
{
    put(out, b"offer ")?;
    put_event(alloc, out, event)?;
    put(out, b"\n")
}

/// A line for each event that is offered.
pub(crate) fn put_offers(
    alloc: Global,
    out: &mut Vec<u8>,
    offers: &[Event],
) -> Result<(), OutOfMemory>
    ensures { OnOk result (out.new.items ≡ out.old.items ++ flat_map spec.offer_line offers.now) }
{
    for event in offers {
        put_offer(alloc, out, event)?;
    }
    Ok(())
}

/// A word with a number, as a line.
#[tactic(auto, using(std::proofs::Common::append_assoc))]
fn put_number_line(
    alloc: Global,
    out: &mut Vec<u8>,
    word: &[u8],
    number: u32,
) -> Result<(), OutOfMemory>
    ensures { OnOk result (out.new.items ≡ out.old.items ++ (word.now ++ (decimal number ++ newline))) }
{
    put(out, word)?;
    put_decimal(alloc, out, number as u64)?;
    put(out, b"\n")
}

/// The end of a run that wasn't halted, up to the live outputs with their values in satoshi.
#[tactic(auto, using(std::proofs::Common::append_assoc))]
pub(crate) fn put_tip(
    alloc: Global,
    out: &mut Vec<u8>,
    tip: u32,
    live: &[(u32, u64)],
) -> Result<(), OutOfMemory>
    ensures { OnOk result (out.new.items ≡ out.old.items ++ (codes "end" ++ (newline
        ++ (codes "tip " ++ (decimal tip ++ (newline ++ flat_map spec.live_line live.now)))))) }
{
    put(out, b"end\n")?;
    put_number_line(alloc, out, b"tip ", tip)?;
    put_lives(alloc, out, live)
}

/// The last configuration up to its contracts; what is left of it are the lines of the secrets.
#[tactic(auto, using(std::proofs::Common::append_assoc))]
pub(crate) fn put_moment(
    alloc: Global,
    out: &mut Vec<u8>,
    time: u32,
    deposits: &VecDeque<Deposit>,
    active: &[ActiveContract],
) -> Result<(), OutOfMemory>
    ensures { OnOk result (out.new.items ≡ out.old.items ++ (codes "time " ++ (decimal time ++ (newline
        ++ (flat_map spec.deposit_line deposits.now.items ++ flat_map spec.contract_line active.now))))) }
{
    put_number_line(alloc, out, b"time ", time)?;
    put_deposits(alloc, out, deposits)?;
    put_contracts(alloc, out, active)
}

/// The last line of a run in which a secret is guessed.
#[tactic(auto, using(std::proofs::Common::append_assoc))]
pub fn put_guessed(out: &mut Vec<u8>, party: &Name, secret: &Name) -> Result<(), OutOfMemory>
    ensures { OnOk result (out.new.items ≡ out.old.items ++ spec.guessed_line party.now secret.now) }
{
    put(out, b"guessed ")?;
    put(out, party.bytes())?;
    put(out, b" ")?;
    put(out, secret.bytes())?;
    put(out, b"\n")
}

/// The last line of a run in which two strings collide.
#[tactic(auto, using(std::proofs::Common::append_assoc))]
pub fn put_collided(
    alloc: Global,
    out: &mut Vec<u8>,
    earlier: &[u8],
    later: &[u8],
) -> Result<(), OutOfMemory>
    ensures { OnOk result (out.new.items ≡ out.old.items ++ spec.collided_line earlier.now later.now) }
{
    put(out, b"collided ")?;
    put_hex(alloc, out, earlier)?;
    put(out, b" ")?;
    put_hex(alloc, out, later)?;
    put(out, b"\n")
}
