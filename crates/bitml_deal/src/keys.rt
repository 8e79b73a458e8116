//! What `keys` replies.

ghost use Rattle.std.specs.Prelude.{◌≡◌, length, IfOk};
ghost use Rattle.spec_tool.specs.Answers.{contract_in};
ghost use Rattle.spec_tool.specs.Commands.{prints};
ghost use Rattle.spec_tool.specs.Reads.{text_at};
ghost use Rattle.spec_deal.specs.Answers.{with_advert};
ghost use Rattle.spec_deal.specs.DealText as shown;
ghost use Rattle.spec_tool.specs.Replies.{printed};

use bm_wellformed::Checked;
use deal_file::keys_text;
use spec_data::{Bytes, OutOfMemory};
use spec_tool::Reply;
use std::alloc::{AllocError, Global};
use tool_command::{JudgeError, contract_in, contract_refused};

// The lines that a deal file of this contract needs.
fn keys_reply(alloc: Global, contract: &Checked) -> Result<Reply, OutOfMemory>
    ensures { IfOk result (λ reply. printed reply ≡ prints 0 (shown.keys_text contract.now)) }
{
    Ok(Reply {
        status: 0,
        text: Bytes::of(keys_text(alloc, contract)?),
    })
}

/// What `keys` replies to the text of its contract.
pub(crate) fn keys_texts(alloc: Global, texts: &[Option<Bytes>]) -> Result<Reply, OutOfMemory>
    requires { length texts.now ≡ 1 }
    ensures { IfOk result (λ reply. printed reply
        ≡ with_advert (λ advert. prints 0 (shown.keys_text advert)) (contract_in (text_at texts.now 0))) }
{
    match contract_in(alloc, &texts[0]) {
        Ok(contract) => keys_reply(alloc, &contract),
        Err(JudgeError::Refused(why)) => contract_refused(alloc, 0, why.as_slice()),
        Err(JudgeError::Memory) => Err(AllocError),
    }
}
