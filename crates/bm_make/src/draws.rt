//! Numbers that look random, by a linear congruence modulo 2^64 whose upper bits are shown.

ghost use Rattle.std.specs.Prelude.{◌≡◌, ◌+◌, ◌<◌, ◌≤◌, ◌^◌, ◌++◌, OnOk};
ghost use Rattle.spec_text.specs.Generator.{next_state, drawn, draw_below, draw_bytes};

use spec_data::OutOfMemory;

const MULTIPLIER: u128 = 6_364_136_223_846_793_005;

const INCREMENT: u128 = 1_442_695_040_888_963_407;

const MODULUS: u128 = 18_446_744_073_709_551_616;

const HIDDEN: u64 = 8_589_934_592;

/// Where the draws stand.
#[derive(Clone, Copy)]
pub(crate) struct Draws {
    pub state: u64,
}

impl Draws {
    /// The next draw, below 2^31.
    fn draw(&mut self) -> u64
        ensures value { result ≡ drawn (next_state self.old.state) }
        ensures state { self.new.state ≡ next_state self.old.state }
    {
        let next = (self.state as u128 * MULTIPLIER + INCREMENT) % MODULUS;
        self.state = next as u64;
        self.state / HIDDEN
    }

    /// A draw from 0 to this number.
    pub(crate) fn up_to(&mut self, most: u64) -> u64
        ensures value { result ≡ (draw_below (most + 1) self.old.state).0 }
        ensures state { self.new.state ≡ next_state self.old.state }
        ensures within { result ≤ most }
    {
        (self.draw() as u128 % (most as u128 + 1)) as u64
    }

    /// Draws so many bytes.
    #[tactic(auto, using(std::proofs::Common::append_assoc, crate::proofs::DrawSteps::bytes_step))]
    pub(crate) fn push_bytes(&mut self, bytes: &mut Vec<u8>, count: u64) -> Result<(), OutOfMemory>
        ensures bytes { OnOk result (bytes.new.items ≡ bytes.old.items ++ (draw_bytes count self.old.state).0) }
        ensures state { OnOk result (self.new.state ≡ (draw_bytes count self.old.state).1) }
    {
        for i in 0..count {
            bytes.push(self.up_to(255) as u8)?;
        }
        Ok(())
    }
}
