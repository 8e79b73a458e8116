//! The strings of secrets that an event posted.

ghost use Rattle.std.specs.Prelude.{◌≡◌, ◌++◌, ◌∷◌, [], IfOk, OnOk};
ghost use Rattle.std.specs.List.{flat_map};
ghost use Rattle.spec_run.specs.Setup.{held_among, bytes_or_none};
ghost use Rattle.bm_translate.specs.Shown as spec;

use crate::strings_shown::Shown;
use crate::watching::Secrets;
use bm_exchange::held_secret;
use spec_bitcoin::{Tx, TxIn};
use spec_data::{Boxed, Bytes, Name, OutOfMemory};
use spec_run::{Event, HeldSecret, Outcome, Record};
use std::alloc::Global;

// Shows the string, if it is that of a secret.
fn put_string<'a>(
    shown: &mut Shown<'a>,
    secrets: &Secrets,
    string: &'a [u8],
) -> Result<(), OutOfMemory>
    ensures { OnOk result (shown.new ≡ shown.old ++ spec.told_of secrets.now (string.now ∷ [])) }
{
    if secrets.has(string) {
        shown.add(string)
    } else {
        Ok(())
    }
}

// Shows what these items tell.
fn put_items<'a>(
    shown: &mut Shown<'a>,
    secrets: &Secrets,
    items: &'a [Bytes],
) -> Result<(), OutOfMemory>
    ensures { OnOk result (shown.new ≡ shown.old ++ spec.told_of secrets.now items.now) }
{
    for item in items {
        put_string(shown, secrets, item.as_slice())?;
    }
    Ok(())
}

// Shows what the items of these inputs tell.
#[tactic(auto, using(crate::proofs::Known::told_append))]
fn put_inputs<'a>(
    shown: &mut Shown<'a>,
    secrets: &Secrets,
    inputs: &'a [TxIn],
) -> Result<(), OutOfMemory>
    ensures { OnOk result (shown.new ≡ shown.old ++ spec.told_of secrets.now (flat_map (λ i. i.witness) inputs.now)) }
{
    for input in inputs {
        put_items(shown, secrets, input.witness.as_slice())?;
    }
    Ok(())
}

// Shows what a transaction tells, where there is one.
fn put_tx<'a>(
    shown: &mut Shown<'a>,
    secrets: &Secrets,
    tx: &'a Option<Boxed<Tx>>,
) -> Result<(), OutOfMemory>
    ensures { OnOk result (shown.new ≡ shown.old ++ spec.told_of secrets.now (spec.tx_posts tx.now)) }
{
    match tx {
        Some(tx) => put_inputs(shown, secrets, tx.value().inputs.as_slice()),
        None => Ok(()),
    }
}

// The party's secret, or the empty string, where it isn't held.
fn own_string<'a>(held: &'a [HeldSecret], party: &Name, name: &Name) -> &'a [u8]
    ensures { result.now ≡ bytes_or_none (held_among party.now name.now held.now) }
{
    match held_secret(held, party, name) {
        Some(bytes) => bytes,
        None => &[],
    }
}

// Shows what an event tells that was done.
fn put_done<'a>(
    shown: &mut Shown<'a>,
    secrets: &Secrets,
    held: &'a [HeldSecret],
    event: &'a Event,
) -> Result<(), OutOfMemory>
    ensures { OnOk result (shown.new ≡ shown.old ++ spec.told_of secrets.now (spec.done_posts held.now event.now)) }
{
    match event {
        Event::Post { bytes } => put_string(shown, secrets, bytes.as_slice()),
        Event::Reveal { party, secret, .. } => {
            put_string(shown, secrets, own_string(held, party, secret))
        }
        _ => Ok(()),
    }
}

// Shows what the event of this record tells.
fn put_posts<'a>(
    shown: &mut Shown<'a>,
    secrets: &Secrets,
    held: &'a [HeldSecret],
    recorded: &'a Record,
) -> Result<(), OutOfMemory>
    ensures { OnOk result (shown.new ≡ shown.old ++ spec.told_of secrets.now (spec.posts_of held.now recorded.now)) }
{
    match &recorded.outcome {
        Outcome::Done => put_done(shown, secrets, held, &recorded.event),
        Outcome::Accepted { .. } => put_tx(shown, secrets, &recorded.tx),
        Outcome::Refused(_) => Ok(()),
    }
}

/// Those of the strings that the event of this record posted which are strings of secrets. Each is looked up once, and none where no
/// secret has a string.
#[tactic(auto, using(crate::proofs::Known::told_none))]
pub fn posted_by<'a>(
    alloc: Global,
    secrets: &Secrets,
    held: &'a [HeldSecret],
    recorded: &'a Record,
) -> Result<Shown<'a>, OutOfMemory>
    ensures { IfOk result (λ shown. shown ≡ spec.told_of secrets.now (spec.posts_of held.now recorded.now)) }
{
    let mut shown = Shown::new(alloc);
    if secrets.has_none() {
        return Ok(shown);
    }
    put_posts(&mut shown, secrets, held, recorded)?;
    Ok(shown)
}
