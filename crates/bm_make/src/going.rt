//! What the events of a generated run go on from, and the gifts.

ghost use Rattle.std.specs.Prelude.{◌≡◌, ◌<◌, ◌≤◌, ◌+◌, ◌*◌, ◌^◌, ◌++◌, IfOk, OnOk};
ghost use Rattle.spec_text.specs.Generator as spec;
ghost use Rattle.bm_make.specs.Lines.{line, lines};

use crate::draws::Draws;
use bm_text::{put, put_decimal};
use spec_data::OutOfMemory;
use std::alloc::Global;
use std::collections::VecDeque;
use std::marker::Model;

/// What the events go on from: the draws, the number of the next output, B's outputs that gifts take, the oldest
/// first, with their values in satoshi, and the contract's output.
#[derive(Drop)]
pub(crate) struct Going {
    draws: Draws,
    next: u64,
    queue: VecDeque<(u64, u64)>,
    contract: u64,
}

impl Model for Going {
    ghost use Rattle.spec_text.specs.Generator.{Going};

    ghost Value = { Going };

    ghost view = { λ g. record {
      state = g.draws.state;
      next = g.next;
      queue = g.queue.items;
      contract = g.contract;
    } };
}

/// The line of a gift of an output, of which two values in satoshi are new outputs.
#[tactic(auto, using(std::proofs::Common::append_assoc))]
fn put_gift_line(
    alloc: Global,
    out: &mut Vec<u8>,
    number: u64,
    given: u64,
    kept: u64,
) -> Result<(), OutOfMemory>
    ensures { OnOk result (out.new.items ≡ out.old.items ++ line (spec.gift number (given + kept) given)) }
{
    put(out, b"give B #")?;
    put_decimal(alloc, out, number)?;
    put(out, b" -> B ")?;
    put_decimal(alloc, out, given)?;
    put(out, b" B ")?;
    put_decimal(alloc, out, kept)?;
    put(out, b"\n")
}

impl Going {
    /// Where the events go on once the contract has begun.
    pub(crate) fn begun(alloc: Global, draws: Draws) -> Result<Going, OutOfMemory>
        ensures { IfOk result (λ g. g ≡ spec.begun draws.state) }
    {
        let mut queue = VecDeque::new(alloc);
        queue.push_back((2, 1_000_000_000))?;
        Ok(Going {
            draws,
            next: 4,
            queue,
            contract: 3,
        })
    }

    /// The contract's output.
    pub(crate) fn contract(&self) -> u64
        ensures { result ≡ self.now.contract }
    {
        self.contract
    }

    /// A branch of the contract is taken: its output is the next one.
    pub(crate) fn take(&mut self)
        requires { self.old.next + 1 < 2 ^ 64 }
        ensures { self.new ≡ spec.taken self.old }
    {
        self.contract = self.next;
        self.next += 1;
    }

    /// The oldest of B's outputs is given away, as two new ones; nothing where there is none.
    fn put_gift(&mut self, alloc: Global, out: &mut Vec<u8>) -> Result<(), OutOfMemory>
        requires { self.old.next + 2 < 2 ^ 64 }
        ensures text { OnOk result (out.new.items ≡ out.old.items ++ lines (spec.gift_from self.old.queue self.old).0) }
        ensures going { OnOk result (self.new ≡ (spec.gift_from self.old.queue self.old).1) }
        ensures next { OnOk result (self.new.next ≤ self.old.next + 2) }
    {
        let Some((number, value)) = self.queue.pop_front() else {
            return Ok(());
        };
        let given = self.draws.up_to(value);
        let kept = value - given;
        self.queue.push_back((self.next, given))?;
        self.queue.push_back((self.next + 1, kept))?;
        self.next += 2;
        put_gift_line(alloc, out, number, given, kept)
    }

    /// So many gifts.
    #[tactic(auto, using(std::proofs::Common::append_assoc, crate::proofs::GiftSteps::gift_lines, crate::proofs::GiftSteps::gift_going))]
    pub(crate) fn put_gifts(
        &mut self,
        alloc: Global,
        out: &mut Vec<u8>,
        count: u64,
    ) -> Result<(), OutOfMemory>
        requires { self.old.next + 2 * count < 2 ^ 64 }
        ensures text { OnOk result (out.new.items ≡ out.old.items ++ lines (spec.gifts count self.old).0) }
        ensures going { OnOk result (self.new ≡ (spec.gifts count self.old).1) }
        ensures next { OnOk result (self.new.next ≤ self.old.next + 2 * count) }
    {
        for i in 0..count {
            self.put_gift(alloc, out)?;
        }
        Ok(())
    }
}
