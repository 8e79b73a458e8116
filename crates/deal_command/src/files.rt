//! The files that a command reads.

ghost use Rattle.std.specs.Prelude.{◌≡◌, map, IfOk};
ghost use Rattle.spec_chain.specs.Commands as spec;
ghost use Rattle.tool_shell.specs.Asked.{asked};
ghost use Rattle.deal_command.specs.Seen.{command};

use crate::command::DealCommand;
use spec_data::{MOST_TEXT_BYTES, OutOfMemory};
use std::alloc::Global;

/// The most bytes of a deal file.
const MOST_DEAL_BYTES: usize = 8_388_608;

/// The most bytes of a chain file.
const MOST_CHAIN_BYTES: usize = 8_388_608;

/// The most bytes of a file of signatures.
const MOST_SIGNATURE_BYTES: usize = 8_388_608;

/// The most bytes of a file of secrets.
const MOST_SECRETS_BYTES: usize = 1_048_576;

/// These files.
fn list_of<'a>(
    alloc: Global,
    files: &[(&'a str, usize)],
) -> Result<Vec<(&'a str, usize)>, OutOfMemory>
    ensures { IfOk result (λ v. v.items ≡ files.now) }
{
    Vec::from_slice(alloc, files)
}

/// The files that a command reads, each with the most bytes that it may have, in the order of the words.
pub fn files_of<'a>(
    alloc: Global,
    call: &DealCommand<'a>,
) -> Result<Vec<(&'a str, usize)>, OutOfMemory>
    ensures { IfOk result (λ v. map asked v.items ≡ spec.chain_files (command call.now)) }
{
    match call {
        DealCommand::Keys(contract) => list_of(alloc, &[(contract, MOST_TEXT_BYTES)]),
        DealCommand::Plan(contract, deal)
        | DealCommand::Psbts(contract, deal)
        | DealCommand::Psbt(contract, deal, _)
        | DealCommand::Show(contract, deal)
        | DealCommand::Fund(contract, deal)
        | DealCommand::Warn(contract, deal)
        | DealCommand::Endorse(contract, deal, _) => {
            list_of(
                alloc,
                &[(contract, MOST_TEXT_BYTES), (deal, MOST_DEAL_BYTES)],
            )
        }
        DealCommand::Hashes(contract, secrets) => {
            list_of(
                alloc,
                &[(contract, MOST_TEXT_BYTES), (secrets, MOST_SECRETS_BYTES)],
            )
        }
        DealCommand::WarnWith(contract, deal, secrets) => {
            list_of(
                alloc,
                &[
                    (contract, MOST_TEXT_BYTES),
                    (deal, MOST_DEAL_BYTES),
                    (secrets, MOST_SECRETS_BYTES),
                ],
            )
        }
        DealCommand::Missing(contract, deal, signatures)
        | DealCommand::Held(contract, deal, signatures)
        | DealCommand::Finish(contract, deal, _, signatures)
        | DealCommand::Ready(contract, deal, signatures) => {
            list_of(
                alloc,
                &[
                    (contract, MOST_TEXT_BYTES),
                    (deal, MOST_DEAL_BYTES),
                    (signatures, MOST_SIGNATURE_BYTES),
                ],
            )
        }
        DealCommand::FinishWith(contract, deal, _, signatures, secrets)
        | DealCommand::ReadyWith(contract, deal, signatures, secrets) => {
            list_of(
                alloc,
                &[
                    (contract, MOST_TEXT_BYTES),
                    (deal, MOST_DEAL_BYTES),
                    (signatures, MOST_SIGNATURE_BYTES),
                    (secrets, MOST_SECRETS_BYTES),
                ],
            )
        }
        DealCommand::State(contract, deal, chain, signatures) => {
            list_of(
                alloc,
                &[
                    (contract, MOST_TEXT_BYTES),
                    (deal, MOST_DEAL_BYTES),
                    (chain, MOST_CHAIN_BYTES),
                    (signatures, MOST_SIGNATURE_BYTES),
                ],
            )
        }
        DealCommand::StateWith(contract, deal, chain, signatures, secrets) => {
            list_of(
                alloc,
                &[
                    (contract, MOST_TEXT_BYTES),
                    (deal, MOST_DEAL_BYTES),
                    (chain, MOST_CHAIN_BYTES),
                    (signatures, MOST_SIGNATURE_BYTES),
                    (secrets, MOST_SECRETS_BYTES),
                ],
            )
        }
    }
}
