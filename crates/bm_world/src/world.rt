//! The world of a run.

ghost use Rattle.std.specs.Prelude.{◌≡◌, ◌≤◌, ◌<◌, ◌^◌, length, option_map, None, IfOk, IfErr};
ghost use Rattle.spec_data.specs.Ranges.{most_contracts};
ghost use Rattle.spec_run.specs.Conditions.{IsHeader, IsEvent};
ghost use Rattle.spec_run.specs.Compiled.{compiled_instance};
ghost use Rattle.spec_run.specs.Ledger.{chain_of};
ghost use Rattle.spec_run.specs.World.{live_position_at};
ghost use Rattle.bm_compile.specs.Numbered.{numbered};
ghost use Rattle.bm_world.specs.Playing.{most_records, setup_in, IsWorld, Went, Stopped, Tested, Judged, StoppedJudging};
ghost use Rattle.bm_world.specs.Reached.{IsReached};
ghost use Rattle.bm_world.specs.Standing.{node_in};
ghost use Rattle.bm_world_board.specs.Prepares.{setup_of, world_of};
ghost use Rattle.bm_world_opening.specs.Opening.{setup_with};
ghost use Rattle.bm_world.specs.Starting.{Opens, Unopened};

mod foreseeing;

use crate::evidence::trail_halt;
use crate::halt::{Halt, keep};
use crate::playing::{play, test};
use crate::standing::node_at;
use bm_book::Book;
use bm_compile::Compiled;
use bm_exchange::Exchange;
use bm_hash::{Hash32, Trail};
use bm_ledger::Ledger;
use bm_wellformed::Checked;
use bm_world_board::Board;
use bm_world_opening::open_board;
use spec_bitcoin::{Refusal, Tx};
use spec_data::{OutOfMemory, Seq};
use spec_run::{Event, Header, Outcome, Record};
use std::alloc::Global;
use std::marker::Model;
use theory_nodes::choices_are_found;

/// The world of a run: the ledger with its contract outputs, what is signed, what the parties have told each other, and the records so far.
pub struct World<H: Hash32> {
    alloc: Global,
    trail: Trail<H>,
    board: Board,
    trace: Seq<Record>,
    halt: Option<Halt>,
}

impl<H: Hash32> Model for World<H> {
    ghost use Rattle.std.specs.Coded.{codes};
    ghost use Rattle.spec_terms.specs.TermCode.{coded_choice};
    ghost use Rattle.bm_world.specs.Playing.{Played, IsWorld};

    ghost Value = { Played H };

    ghost coded = { Prim.hlevel (codes, coded_choice) };

    ghost use Rattle.bm_world_board.specs.Prepares.{setup_of, world_of};

    ghost view = { λ w. record {
      hasher = w.trail.hasher;
      header = w.board.header;
      contracts = w.board.contracts;
      world = world_of w.board w.trail.messages;
      trace = w.trace;
      halt = w.halt;
    } };

    ghost invariant = { λ w. IsWorld (setup_of (H.digest_of w.trail.hasher) w.board) w.board w.trail.messages w.trace w.halt };
}

impl<H: Hash32 + Drop> Drop for World<H> {
    fn drop(self) {
        let World {
            alloc: _,
            trail: _,
            board: _,
            trace: _,
            halt: _,
        } = self;
    }
}

impl<H: Hash32 + Drop> World<H> {
    /// The world before any event. It hashes the labels and the scripts of the declared parties' deposits, and the opening transaction.
    /// Where two different of these collide, they are what halts the run. A halt drops the contracts and the hash.
    pub fn start(
        alloc: Global,
        header: &Header,
        contracts: Vec<Checked>,
        hash: H,
    ) -> Result<World<H>, Halt>
        requires header { IsHeader header.now }
        requires few { length contracts.items ≤ most_contracts }
        ensures opens { IfOk result (Opens H.digest_of hash header.now contracts.items) }
        ensures unopened { IfErr result (Unopened (setup_with (H.digest_of hash) header.now contracts.items)) }
    {
        let mut trail = Trail::new(alloc, hash);
        match open_board(alloc, &mut trail, header, contracts) {
            Ok(board) => Ok(World {
                alloc,
                trail,
                board,
                trace: Seq::new(alloc),
                halt: None,
            }),
            Err(error) => Err(trail_halt(alloc, &trail, error)),
        }
    }

    /// The records so far: they are those of a run that led to this world.
    pub fn trace(&self) -> &[Record]
        ensures trace { result.now ≡ self.now.trace }
        ensures reached { IsReached (setup_in H.digest_of self.now) self.now.world result.now }
    {
        self.trace.as_slice()
    }

    /// What the parties see, and what the contracts are compiled to.
    pub fn board(&self) -> &Board
        ensures same { world_of result.now self.now.world.hashed ≡ self.now.world }
        ensures header { result.now.header ≡ self.now.header }
        ensures contracts { result.now.contracts ≡ self.now.contracts }
        ensures is { IsWorld (setup_of (H.digest_of self.now.hasher) result.now) result.now
            self.now.world.hashed self.now.trace self.now.halt }
    {
        &self.board
    }

    /// The header and the records. What else the world holds is dropped.
    pub fn into_records(self) -> (Header, Seq<Record>)
        ensures header { result.0 ≡ self.header }
        ensures records { result.1 ≡ self.trace }
    {
        let World {
            alloc: _,
            trail: _,
            board,
            trace,
            halt: _,
        } = self;
        (board.into_header(), trace)
    }

    /// The ledger.
    pub fn ledger(&self) -> &Ledger
        ensures { result.now ≡ chain_of self.now.world }
    {
        self.board.coins.ledger()
    }

    /// The messages that were hashed, with the hash.
    pub fn trail(&self) -> &Trail<H>
        ensures { result.now ≡ record { hasher = self.now.hasher; messages = self.now.world.hashed } }
    {
        &self.trail
    }

    /// What the parties have told each other.
    pub fn exchange(&self) -> &Exchange
        ensures { result.now
            ≡ record { posted = self.now.world.posted; advertised = self.now.world.advertised; promises = self.now.world.promises } }
    {
        &self.board.exchange
    }

    /// The signatures.
    pub fn book(&self) -> &Book
        ensures { result.now ≡ self.now.world.book }
    {
        &self.board.book
    }

    /// What halted the run, if anything did: every later call answers it.
    pub fn halt(&self) -> Option<&Halt>
        ensures { option_map (λ h. h.now) result ≡ self.now.halt }
    {
        self.halt.as_ref()
    }

    /// The header of the run.
    pub fn header(&self) -> &Header
        ensures { result.now ≡ self.now.header }
    {
        &self.board.header
    }

    /// The contracts by their number.
    pub fn contracts(&self) -> &[Checked]
        ensures { result.now ≡ self.now.contracts }
    {
        self.board.contracts.as_slice()
    }

    /// What the contract of this number is compiled to: there from the event on with which all its participants have committed.
    pub fn compiled(&self, contract: u32) -> Option<&Compiled>
        ensures { option_map (λ c. c.now) result ≡ option_map (numbered (setup_in H.digest_of self.now).hash)
            (compiled_instance (setup_in H.digest_of self.now) self.now.world contract) }
    {
        self.board.compiled(contract)
    }

    /// The contract of the live contract output of this number, and the number of its position's choice among the contract's nodes:
    /// both are found by number, without a search of the outputs. `None` comes exactly where there is no such output.
    pub fn node(&self, output: u32) -> Option<(u32, u32)>
        ensures node { result ≡ node_in (setup_in H.digest_of self.now) (live_position_at self.now.world output) }
        ensures none { result ≡ None → live_position_at self.now.world output ≡ None }
    {
        choices_are_found();
        node_at(&self.board, output)
    }

    /// Room for the records of so many events, where none has come yet. Nothing changes.
    pub fn make_room(&mut self, events: usize) -> Result<(), OutOfMemory>
        ensures { self.new ≡ self.old }
    {
        if self.trace.is_empty() {
            self.trace = Seq::with_capacity(self.alloc, events)?;
        }
        Ok(())
    }

    /// One event: what came of it, which is then recorded, or what halted the run. After a halt nothing but the trail has changed,
    /// and every later call answers the same, or out of memory where there is none for a copy of the colliding messages.
    pub fn event(&mut self, event: &Event) -> Result<Outcome, Halt>
        requires is { IsEvent (setup_in H.digest_of self.old) event.now }
        requires few { length self.old.trace < most_records }
        ensures went { IfOk result (Went H.digest_of self.old self.new event.now) }
        ensures stopped { IfErr result (Stopped H.digest_of self.old self.new event.now) }
    {
        if let Some(halt) = &self.halt {
            return Err(halt.again(self.alloc));
        }
        match play(
            self.alloc,
            &mut self.trail,
            &mut self.board,
            &mut self.trace,
            event,
        ) {
            Ok(outcome) => Ok(outcome),
            Err(halt) => Err(keep(self.alloc, &mut self.halt, halt)),
        }
    }

    /// Whether an event would go on here and be done or accepted. Nothing but the trail changes, and after a halt nothing but the
    /// trail has changed, and every later call answers the same.
    pub fn test(&mut self, event: &Event) -> Result<bool, Halt>
        requires is { IsEvent (setup_in H.digest_of self.old) event.now }
        requires few { length self.old.trace < most_records }
        ensures tested { IfOk result (Tested H.digest_of self.old self.new event.now) }
        ensures stopped { IfErr result (Stopped H.digest_of self.old self.new event.now) }
    {
        if let Some(halt) = &self.halt {
            return Err(halt.again(self.alloc));
        }
        match test(self.alloc, &mut self.trail, &mut self.board, event) {
            Ok(passes) => Ok(passes),
            Err(halt) => Err(keep(self.alloc, &mut self.halt, halt)),
        }
    }

    /// Why the ledger would refuse a transaction here, if it would. Nothing but the trail changes, which hashes the strings of the
    /// transaction; after a halt every later call answers the same.
    pub fn judge(&mut self, tx: &Tx) -> Result<Option<Refusal>, Halt>
        requires few { length tx.now.inputs < 2 ^ 32 }
        ensures judged { IfOk result (Judged H.digest_of self.old self.new tx.now) }
        ensures stopped { IfErr result (StoppedJudging H.digest_of self.old self.new tx.now) }
    {
        if let Some(halt) = &self.halt {
            return Err(halt.again(self.alloc));
        }
        match self
            .board
            .coins
            .examine(&mut self.trail, &self.board.book, tx)
        {
            Ok(judged) => Ok(judged.refusal),
            Err(error) => {
                let halt = trail_halt(self.alloc, &self.trail, error);
                Err(keep(self.alloc, &mut self.halt, halt))
            }
        }
    }
}
