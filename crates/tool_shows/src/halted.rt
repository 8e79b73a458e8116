//! What is replied to a run that was halted, in place of any text.

ghost use Rattle.std.specs.Prelude.{◌≡◌, IfOk};
ghost use Rattle.spec_text.specs.PlayText as spec;
ghost use Rattle.spec_tool.specs.Commands.{prints};
ghost use Rattle.spec_tool.specs.Replies.{printed};

use bm_report::{put_collided, put_guessed};
use spec_data::{Name, OutOfMemory};
use spec_tool::Reply;
use std::alloc::Global;

/// A run whose opening or event collides: the two strings, the earlier one first.
pub fn collided_reply(alloc: Global, earlier: &[u8], later: &[u8]) -> Result<Reply, OutOfMemory>
    ensures { IfOk result (λ reply. printed reply ≡ prints 8 (spec.collided_line earlier.now later.now)) }
{
    let mut text = Vec::new(alloc);
    put_collided(alloc, &mut text, earlier, later)?;
    Ok(Reply::new(8, text))
}

/// A run whose event guesses: the party and the name of its secret.
pub fn guessed_reply(alloc: Global, party: &Name, secret: &Name) -> Result<Reply, OutOfMemory>
    ensures { IfOk result (λ reply. printed reply ≡ prints 7 (spec.guessed_line party.now secret.now)) }
{
    let mut text = Vec::new(alloc);
    put_guessed(&mut text, party, secret)?;
    Ok(Reply::new(7, text))
}
