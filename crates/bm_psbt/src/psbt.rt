//! A partially signed transaction.

ghost use Rattle.std.specs.Prelude.{◌≡◌, true, IfSome};
ghost use Rattle.spec_tool.specs.Psbt.{is_psbt};
ghost use Rattle.spec_text.specs.Words.{given};

use crate::order;
use spec_bitcoin::Tx;
use spec_data::Seq;
use spec_tool::PsbtInput;
use std::marker::Model;

/// A transaction without scripts and witnesses at its inputs, of which it has at least one, and what
/// is known of each input, with its signatures in ascending order of their keys.
#[derive(Drop)]
pub struct Psbt {
    tx: Tx,
    inputs: Seq<PsbtInput>,
}

impl Model for Psbt {
    ghost use Rattle.std.specs.Prelude.{◌≡◌, true};
    ghost use Rattle.spec_tool.specs.Psbt.{Psbt as Said, is_psbt};

    ghost Value = { Said };

    ghost view = { λ p. record { tx = p.tx; inputs = p.inputs } };

    ghost invariant = { λ p. is_psbt (record { tx = p.tx; inputs = p.inputs }) ≡ true };
}

impl Psbt {
    /// One of a transaction and of what is known of its inputs, in their order; `None` where the
    /// transaction has no input, a script or a witness, where there aren't as many entries as inputs,
    /// or where the signatures of an input don't ascend strictly by their keys. It takes no memory.
    pub fn of(tx: Tx, inputs: Vec<PsbtInput>) -> Option<Psbt>
        ensures value { result ≡ given (is_psbt (record { tx = tx; inputs = inputs.items })) (record { tx = tx; inputs = inputs.items }) }
        ensures is { IfSome result (λ p. is_psbt p ≡ true) }
    {
        if order::is_psbt(&tx, &inputs) {
            Some(Psbt::made(tx, Seq::of(inputs)))
        } else {
            None
        }
    }

    // The parts of one, which are one.
    pub(crate) fn made(tx: Tx, inputs: Seq<PsbtInput>) -> Psbt
        requires { is_psbt (record { tx = tx; inputs = inputs }) ≡ true }
        ensures { result ≡ record { tx = tx; inputs = inputs } }
    {
        Psbt { tx, inputs }
    }

    /// The transaction, without scripts and witnesses.
    pub fn tx(&self) -> &Tx
        ensures tx { result.now ≡ self.now.tx }
        ensures is { is_psbt self.now ≡ true }
    {
        &self.tx
    }

    /// What is known of each input, in the order of the transaction's.
    pub fn inputs(&self) -> &[PsbtInput]
        ensures inputs { result.now ≡ self.now.inputs }
        ensures is { is_psbt self.now ≡ true }
    {
        self.inputs.as_slice()
    }
}
