//! The secrets of a generated contract: for each how long it is, and its bytes.

ghost use Rattle.std.specs.Prelude.{◌≡◌, ◌≤◌, length, IfOk, OnOk};
ghost use Rattle.spec_text.specs.Generator.{draw_secret, draw_secrets};

use crate::draws::Draws;
use spec_data::{Bytes, OutOfMemory};
use std::alloc::Global;

/// The length of a secret that the contract asks for, and the secret's bytes, which are 16 more.
pub(crate) type Generated = (u64, Bytes);

/// Draws the secret of this number.
fn secret(alloc: Global, draws: &mut Draws, number: u8) -> Result<Generated, OutOfMemory>
    ensures secret { IfOk result (λ m. m ≡ (draw_secret number draws.old.state).0) }
    ensures state { OnOk result (draws.new.state ≡ (draw_secret number draws.old.state).1) }
{
    let length = draws.up_to(16);
    let mut bytes = Vec::new(alloc);
    bytes.push(number)?;
    draws.push_bytes(&mut bytes, 15 + length)?;
    Ok((length, Bytes::of(bytes)))
}

/// Draws so many secrets.
#[tactic(auto, using(std::proofs::Common::append_assoc, crate::proofs::DrawSteps::secrets_step))]
pub(crate) fn secrets(
    alloc: Global,
    draws: &mut Draws,
    size: u8,
) -> Result<Vec<Generated>, OutOfMemory>
    requires { size ≤ 30 }
    ensures list { IfOk result (λ v. v.items ≡ (draw_secrets size 1 draws.old.state).0) }
    ensures state { OnOk result (draws.new.state ≡ (draw_secrets size 1 draws.old.state).1) }
    ensures count { IfOk result (λ v. length v.items ≡ size) }
{
    let mut list = Vec::new(alloc);
    for i in 0..size {
        let made = secret(alloc, draws, i + 1)?;
        list.push(made)?;
    }
    Ok(list)
}
