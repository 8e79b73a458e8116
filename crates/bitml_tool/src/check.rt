//! What `check` replies.

ghost use Rattle.std.specs.Prelude.{◌≡◌, length, IfOk};
ghost use Rattle.spec_tool.specs.Reads.{text_at};
ghost use Rattle.spec_tool.specs.Commands.{check_judged};
ghost use Rattle.spec_tool.specs.Answers.{contract_in};
ghost use Rattle.spec_tool.specs.Replies.{printed};

use spec_data::{Bytes, OutOfMemory};
use spec_tool::Reply;
use std::alloc::Global;
use tool_command::check_reply;

/// What `check` replies to the text of its file.
pub(crate) fn check_texts(alloc: Global, texts: &[Option<Bytes>]) -> Result<Reply, OutOfMemory>
    requires { length texts.now ≡ 1 }
    ensures { IfOk result (λ reply. printed reply ≡ check_judged (contract_in (text_at texts.now 0))) }
{
    check_reply(alloc, &texts[0])
}
