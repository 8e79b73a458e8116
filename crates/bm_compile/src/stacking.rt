//! The choices whose branches are still to come, the next one last.

ghost use Rattle.std.specs.Prelude.{◌≡◌, ◌<◌, ◌≤◌, List, ℕ, ◌+◌, ◌^◌, ◌++◌, ◌∷◌, length, OnOk, replicate, reverse};
ghost use Rattle.spec_terms.specs.Precondition.{volatile, value_of_puts};
ghost use Rattle.spec_bitcoin.specs.Digests.{txid as txid_of};
ghost use Rattle.spec_compiler.specs.declared.unsigned.Unsigned.{Unsigned as Made};
ghost use Rattle.spec_compiler.specs.Transactions.{tx_of, continued_value};
ghost use Rattle.theory_nodes.specs.Walk as spec;
ghost use Rattle.bm_arena.specs.NodeView.{deed_view};
ghost use Rattle.bm_compile.specs.Seen.{deed_parts};

use crate::setting::Setting;
use crate::unsigned::continued_value;
use bm_arena::Core;
use bm_syntax::Name;
use spec_bitcoin::OutPoint;
use spec_data::OutOfMemory;
use theory_nodes::Waiting;

pub(crate) fn push(stack: &mut Vec<Waiting>, waiting: Waiting) -> Result<(), OutOfMemory>
    ensures { OnOk result (reverse stack.new.items ≡ waiting ∷ reverse stack.old.items) }
{
    stack.push(waiting)?;
    Ok(())
}

/// A choice, once for each of its branches.
pub(crate) fn push_copies(
    stack: &mut Vec<Waiting>,
    waiting: Waiting,
    count: usize,
) -> Result<(), OutOfMemory>
    ensures { OnOk result (reverse stack.new.items ≡ replicate count waiting ++ reverse stack.old.items) }
{
    for _ in 0..count {
        push(stack, waiting)?;
    }
    Ok(())
}

// The choices of a split's parts, which are the outputs of this transaction.
fn push_parts(
    stack: &mut Vec<Waiting>,
    txid: [u8; 32],
    parts: &[(u64, u32)],
) -> Result<(), OutOfMemory>
    requires { length parts.now ≤ 1024 }
    ensures { (hash : List ℕ → List ℕ) (d : Made) → txid ≡ txid_of hash (tx_of d)
        → OnOk result (reverse stack.new.items ≡ spec.parts_wait hash d 0 parts.now ++ reverse stack.old.items) }
{
    let mut rest = parts;
    while let Some(((value, choice), others)) = rest.split_last() {
        let outpoint = OutPoint {
            txid,
            vout: others.len() as u32,
        };
        push(
            stack,
            Waiting {
                outpoint,
                choice: *choice,
                value: *value,
            },
        )?;
        rest = others;
    }
    Ok(())
}

// The choice that a put goes on with, which is the output of this transaction.
fn push_next(
    setting: &Setting,
    stack: &mut Vec<Waiting>,
    txid: [u8; 32],
    balance: u64,
    puts: &[Name],
    next: u32,
) -> Result<(), OutOfMemory>
    requires { balance + value_of_puts (volatile setting.now.advert.pre) puts.now < 2 ^ 64 }
    ensures { let value = continued_value setting.now balance puts.now in
        OnOk result (reverse stack.new.items
        ≡ record { outpoint = record { txid = txid; vout = 0 }; choice = next; value = value } ∷ reverse stack.old.items) }
{
    let value = continued_value(setting, balance, puts);
    let outpoint = OutPoint { txid, vout: 0 };
    push(
        stack,
        Waiting {
            outpoint,
            choice: next,
            value,
        },
    )
}

/// The choices that wait once the transaction of a branch that does this is made, where its position has this balance in
/// satoshi.
pub(crate) fn push_waits(
    setting: &Setting,
    stack: &mut Vec<Waiting>,
    txid: [u8; 32],
    balance: u64,
    core: &Core,
) -> Result<(), OutOfMemory>
    requires sum { balance + value_of_puts (volatile setting.now.advert.pre) (spec.deed_puts (deed_view core.now)) < 2 ^ 64 }
    requires parts { length (deed_parts (deed_view core.now)) ≤ 1024 }
    ensures { (hash : List ℕ → List ℕ) (d : Made) → txid ≡ txid_of hash (tx_of d)
        → OnOk result (reverse stack.new.items
        ≡ spec.deed_waits hash setting.now d balance (deed_view core.now) ++ reverse stack.old.items) }
{
    match core {
        Core::PutReveal { puts, next, .. } => push_next(setting, stack, txid, balance, puts, *next),
        Core::Withdraw { .. } => Ok(()),
        Core::Split { parts } => push_parts(stack, txid, parts),
    }
}
