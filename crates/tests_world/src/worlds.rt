//! Runs that are read and played, and the worlds that they leave.

ghost use Rattle.std.specs.Prelude.{IfOk};
ghost use Rattle.tool_command.specs.Judges.{IsTaken, IsTakenIfAny};

use bm_hash::{Hash32, Sha};
use bm_wellformed::Checked;
use bm_world::{Halt, World};
use spec_data::{Bytes, OutOfMemory};
use spec_run::Run;
use std::alloc::Global;
use tool_command::{Judgement, judge_both};
use tool_replies::play;

/// A timed commitment: A's secret or the time decides to whom the deposit goes.
pub const CONTRACT: &[u8] =
    b"{A:! 100000000 @ x | B:! 0 @ y | A: secret a} (reveal a . withdraw A + after 1000 : withdraw B)";

/// Its run before any event.
pub const OPENING: &[u8] =
    b"party A\nparty B\nhonest A\nsecret A a 00112233445566778899aabbccddeeff\ndeposit A 100000000\ndeposit B 0\n--\n";

/// Its run up to the secret, by which output 2 goes to output 3, at the node 2 of the contract.
pub const SHOWN: &[u8] =
    b"party A\nparty B\nhonest A\nsecret A a 00112233445566778899aabbccddeeff\ndeposit A 100000000\ndeposit B 0\n--
advertise 0 x=#0 y=#1\ncommit 0 A\ncommit 0 B\nendorse 0 A\nendorse 0 B\ninit 0 A\ninit 0 B\nfire init 0\nreveal 0 A a\nfire #2 0\n";

// How these texts of a run and of its contracts are judged.
fn judged(alloc: Global, run: &[u8], contracts: &[Option<Bytes>]) -> Result<Judgement, OutOfMemory>
    ensures { IfOk result IsTakenIfAny }
{
    let run = Some(Bytes::from_slice(alloc, run)?);
    judge_both(alloc, &run, contracts)
}

/// What is played of a run: the world that it leaves, and which event was halted by what, if one was; or what halts its opening.
pub type Played<H> = Result<(World<H>, Option<(usize, Halt)>), Halt>;

// Plays a run that is taken.
fn play_taken<H: Hash32 + Drop>(
    alloc: Global,
    hash: H,
    run: &Run,
    contracts: Vec<Checked>,
) -> Option<Played<H>>
    requires { IsTaken run.now }
{
    if contracts.len() > 16 {
        return None;
    }
    Some(play(alloc, hash, run, contracts))
}

/// What is played of these texts of a run and of its contracts, if they are taken.
pub fn played<H: Hash32 + Drop>(
    alloc: Global,
    hash: H,
    run: &[u8],
    contracts: &[Option<Bytes>],
) -> Option<Played<H>> {
    match judged(alloc, run, contracts) {
        Ok(Judgement::Taken(run, contracts)) => play_taken(alloc, hash, &run, contracts),
        _ => None,
    }
}

// The world, where nothing halted its run.
fn whole(played: Played<Sha>) -> Option<World<Sha>> {
    match played {
        Ok((world, None)) => Some(world),
        _ => None,
    }
}

/// The world that a run of the timed commitment leaves, where nothing halts it.
pub fn left(alloc: Global, run: &[u8]) -> Option<World<Sha>> {
    let contract = Bytes::from_slice(alloc, CONTRACT).ok()?;
    let played = played(alloc, Sha, run, &[Some(contract)])?;
    whole(played)
}

/// The world that a run without contracts leaves, where nothing halts it.
pub fn left_alone(alloc: Global, run: &[u8]) -> Option<World<Sha>> {
    let played = played(alloc, Sha, run, &[])?;
    whole(played)
}
