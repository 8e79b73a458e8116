//! What an event would come to in the world of a run.

ghost use Rattle.std.specs.Prelude.{◌≡◌, ◌<◌, length, IfOk, IfErr};
ghost use Rattle.spec_run.specs.Conditions.{IsEvent};
ghost use Rattle.bm_world.specs.Playing.{most_records, setup_in};
ghost use Rattle.bm_world.specs.Foreseeing.{Foresees, StoppedForeseeing};

use crate::evidence::trail_halt;
use crate::foretelling::foretell;
use crate::halt::{Halt, keep};
use crate::world::World;
use bm_hash::Hash32;
use spec_run::{Event, Outcome};
use std::marker::Model;

impl<H: Hash32 + Drop> World<H> {
    /// What an event would come to here, none where it would guess a secret: that would halt a run, but halts nothing here. Nothing but
    /// the trail changes. After a collision nothing but the trail has changed, and every later call answers the same.
    pub fn foresee(&mut self, event: &Event) -> Result<Option<Outcome>, Halt>
        requires is { IsEvent (setup_in H.digest_of self.old) event.now }
        requires few { length self.old.trace < most_records }
        ensures foresees { IfOk result (Foresees H.digest_of self.old self.new event.now) }
        ensures stopped { IfErr result (StoppedForeseeing H.digest_of self.old self.new event.now) }
    {
        if let Some(halt) = &self.halt {
            return Err(halt.again(self.alloc));
        }
        match foretell(self.alloc, &mut self.trail, &mut self.board, event) {
            Ok(outcome) => Ok(outcome),
            Err(error) => {
                let halt = trail_halt(self.alloc, &self.trail, error);
                Err(keep(self.alloc, &mut self.halt, halt))
            }
        }
    }
}
