//! The live outputs, and what a transaction does to them.

ghost use Rattle.std.specs.Prelude.{◌≡◌, ◌++◌, ◌∷◌, [], None, IfOk, OnOk, OnErr, map, length, ◌+◌, ◌<◌, ◌^◌};
ghost use Rattle.spec_bitcoin.specs.Verdict as spec;
ghost use Rattle.std.specs.Option.{option_map_or};
ghost use Rattle.spec_bitcoin.specs.Live.{at_place, born, without, IsNewTxid};
ghost use Rattle.bm_ledger.specs.Ordered.{AreInOrder};

mod indexed;
mod numbers;

pub(crate) use indexed::Live;
pub(crate) use numbers::Entry;
use spec_bitcoin::{OutPoint, Tx, TxIn, TxOut};
use spec_data::{OutOfMemory, Seq};
use std::alloc::Global;

/// The value of the output at a place, 0 where there is none.
pub(crate) fn value_of(live: &Live, place: &OutPoint) -> u64
    ensures { result ≡ option_map_or (λ p. p.1.value) (at_place live.now place.now) 0 }
{
    match live.find(place) {
        Some(entry) => entry.1.value,
        None => 0,
    }
}

// The birth number of the output that an input spends, 0 where it isn't live.
fn spent_number(live: &Live, input: &TxIn) -> u32
    ensures { result ≡ spec.spent_number live.now input.now }
{
    live.number(&input.prev).unwrap_or(0)
}

/// The birth numbers of the outputs that are spent, in the order of the inputs.
pub(crate) fn spent_numbers(
    alloc: Global,
    live: &Live,
    inputs: &[TxIn],
) -> Result<Seq<u32>, OutOfMemory>
    ensures { IfOk result (λ numbers. numbers ≡ map (spec.spent_number live.now) inputs.now) }
{
    let mut numbers = Seq::with_capacity(alloc, inputs.len())?;
    for input in inputs {
        numbers.push(spent_number(live, input))?;
    }
    Ok(numbers)
}

/// The birth numbers of new outputs in their order, where this is the first one's.
pub(crate) fn made_numbers(
    alloc: Global,
    births: u32,
    outputs: &[TxOut],
) -> Result<Seq<u32>, OutOfMemory>
    requires { births + length outputs.now < 2 ^ 32 }
    ensures { IfOk result (λ numbers. numbers ≡ spec.numbers_from births outputs.now) }
{
    let mut numbers = Seq::new(alloc);
    let mut next = births;
    for _output in outputs {
        numbers.push(next)?;
        next += 1;
    }
    Ok(numbers)
}

fn add_output(
    alloc: Global,
    live: &mut Live,
    births: u32,
    txid: &[u8; 32],
    vout: u32,
    output: &TxOut,
) -> Result<(), OutOfMemory>
    requires room { births + vout < 2 ^ 32 }
    requires order { AreInOrder 0 (births + vout) live.old }
    requires new { at_place live.old (record { txid = txid.now; vout = vout }) ≡ None }
    ensures ok { OnOk result (live.new ≡ live.old
        ++ (record { txid = txid.now; vout = vout }, (births + vout, output.now)) ∷ []) }
    ensures err { OnErr result (live.new ≡ live.old) }
{
    let place = OutPoint { txid: *txid, vout };
    let copied = output.copy(alloc)?;
    live.add(place, births + vout, copied)?;
    Ok(())
}

/// Adds the outputs of a transaction at the end, the first with this birth number. Where memory is refused for one of them, those
/// before it are cut off again.
pub(crate) fn add_outputs(
    alloc: Global,
    live: &mut Live,
    births: u32,
    txid: &[u8; 32],
    outputs: &[TxOut],
) -> Result<(), OutOfMemory>
    requires room { births + length outputs.now < 2 ^ 32 }
    requires order { AreInOrder 0 births live.old }
    requires new { IsNewTxid live.old txid.now }
    ensures ok { OnOk result (live.new ≡ live.old ++ born births txid.now 0 outputs.now) }
    ensures err { OnErr result (live.new ≡ live.old) }
{
    let len = live.len();
    for (k, output) in outputs.iter().enumerate() {
        if let Err(error) = add_output(alloc, live, births, txid, k as u32, output) {
            live.truncate(len);
            return Err(error);
        }
    }
    Ok(())
}

// What a pass over all outputs takes for each of them, counted in outputs that are moved.
const MOVES_IN_PASS: usize = 32;

// Removes the outputs that are spent; the others keep their order. They go one by one until that has moved so many others that one pass
// would have taken no longer, and then those that are left go in one pass. So it never takes much longer than the faster of the two.
fn remove_spent(live: &mut Live, inputs: &[TxIn])
    ensures { live.new ≡ without live.old (map (λ i. i.prev) inputs.now) }
{
    let mut moves = live.len().saturating_mul(MOVES_IN_PASS);
    for (k, input) in inputs.iter().enumerate() {
        if moves == 0 {
            live.remove_all(&inputs[k..]);
            return;
        }
        moves = moves.saturating_sub(live.remove(&input.prev));
    }
}

/// Puts the outputs of a transaction in place of those that it spends. The spent ones are removed last, which takes no memory.
pub(crate) fn replace_spent(
    alloc: Global,
    live: &mut Live,
    births: u32,
    txid: &[u8; 32],
    tx: &Tx,
) -> Result<(), OutOfMemory>
    requires room { births + length tx.now.outputs < 2 ^ 32 }
    requires order { AreInOrder 0 births live.old }
    requires new { IsNewTxid live.old txid.now }
    ensures ok { OnOk result (live.new
        ≡ without (live.old ++ born births txid.now 0 tx.now.outputs) (map (λ i. i.prev) tx.now.inputs)) }
    ensures err { OnErr result (live.new ≡ live.old) }
{
    add_outputs(alloc, live, births, txid, tx.outputs.as_slice())?;
    remove_spent(live, tx.inputs.as_slice());
    Ok(())
}
