//! What is replied where a run halts.

ghost use Rattle.std.specs.Prelude.{◌≡◌, Some, IfOk};
ghost use Rattle.spec_tool.specs.Replies.{printed};
ghost use Rattle.tool_replies.specs.Halting.{halt_printed};

use bm_world::Halt;
use spec_data::OutOfMemory;
use spec_tool::Reply;
use std::alloc::{AllocError, Global};
use tool_shows::{collided_reply, guessed_reply};

/// What is replied where this halts a run: the line of the two messages that collide, or of the secret that is guessed.
pub fn halt_reply(alloc: Global, halt: &Halt) -> Result<Reply, OutOfMemory>
    ensures { IfOk result (λ reply. Some (printed reply) ≡ halt_printed halt.now) }
{
    match halt {
        Halt::Collided(earlier, later) => {
            collided_reply(alloc, earlier.as_slice(), later.as_slice())
        }
        Halt::Guessed { party, secret } => guessed_reply(alloc, party, secret),
        Halt::Memory => Err(AllocError),
    }
}
