//! What is missing, in words.

ghost use Rattle.std.specs.Prelude.{◌≡◌, ◌++◌, codes, OnOk};
ghost use Rattle.std.specs.Fmt.{decimal};
ghost use Rattle.spec_text.specs.StepText.{branch_text};
ghost use Rattle.spec_next.specs.RequirementText as spec;
ghost use Rattle.spec_next.specs.declared.requirement.Requirement.TheVariants as requirements;

use bm_runfile::{put_branch, put_word_number};
use bm_text::put;
use spec_data::{Name, OutOfMemory};
use spec_next::Requirement;
use std::alloc::Global;

// A word and a name.
#[tactic(auto, using(std::proofs::Common::append_assoc))]
fn put_name(out: &mut Vec<u8>, word: &[u8], name: &Name) -> Result<(), OutOfMemory>
    ensures { OnOk result (out.new.items ≡ out.old.items ++ (word.now ++ name.now)) }
{
    put(out, word)?;
    put(out, name.bytes())
}

// What a party is to do with a contract.
#[tactic(auto, using(std::proofs::Common::append_assoc))]
fn put_doing(
    alloc: Global,
    out: &mut Vec<u8>,
    party: &Name,
    verb: &[u8],
    contract: u32,
) -> Result<(), OutOfMemory>
    ensures { OnOk result (out.new.items ≡ out.old.items
        ++ (codes "needs " ++ (party.now ++ (verb.now ++ decimal contract)))) }
{
    put_name(out, b"needs ", party)?;
    put_word_number(alloc, out, verb, contract)
}

// What is missing of a party's secret, and by which event it is given.
#[tactic(auto, using(std::proofs::Common::append_assoc))]
fn put_of(
    out: &mut Vec<u8>,
    word: &[u8],
    secret: &Name,
    party: &Name,
    by: &[u8],
) -> Result<(), OutOfMemory>
    ensures { OnOk result (out.new.items ≡ out.old.items
        ++ (word.now ++ (secret.now ++ (codes " of " ++ (party.now ++ by.now))))) }
{
    put_name(out, word, secret)?;
    put_name(out, b" of ", party)?;
    put(out, by)
}

// A party's digest.
#[tactic(auto, using(std::proofs::Common::append_assoc))]
fn put_digest(
    alloc: Global,
    out: &mut Vec<u8>,
    party: &Name,
    contract: u32,
    secret: &Name,
) -> Result<(), OutOfMemory>
    ensures { OnOk result (out.new.items ≡ out.old.items
        ++ spec.requirement_text (requirements.Digest party.now contract secret.now)) }
{
    put_of(out, b"needs digest ", secret, party, b" by commit ")?;
    put_word_number(alloc, out, b"", contract)?;
    put_name(out, b" ", party)
}

// An honest party's secret.
#[tactic(auto, using(std::proofs::Common::append_assoc))]
fn put_secret(
    alloc: Global,
    out: &mut Vec<u8>,
    party: &Name,
    contract: u32,
    secret: &Name,
) -> Result<(), OutOfMemory>
    ensures { OnOk result (out.new.items ≡ out.old.items
        ++ spec.requirement_text (requirements.Secret party.now contract secret.now)) }
{
    put_of(out, b"needs secret ", secret, party, b" by reveal ")?;
    put_word_number(alloc, out, b"", contract)?;
    put_name(out, b" ", party)?;
    put_name(out, b" ", secret)
}

#[tactic(auto, using(std::proofs::Common::append_assoc))]
fn put_height(alloc: Global, out: &mut Vec<u8>, height: u32, blocks: u32) -> Result<(), OutOfMemory>
    ensures { OnOk result (out.new.items ≡ out.old.items
        ++ (codes "needs height " ++ (decimal height ++ (codes " by mine " ++ decimal blocks)))) }
{
    put_word_number(alloc, out, b"needs height ", height)?;
    put_word_number(alloc, out, b" by mine ", blocks)
}

#[tactic(auto, using(std::proofs::Common::append_assoc))]
fn put_authorises(
    alloc: Global,
    out: &mut Vec<u8>,
    party: &Name,
    output: u32,
    branch: u32,
) -> Result<(), OutOfMemory>
    ensures { OnOk result (out.new.items ≡ out.old.items
        ++ (codes "needs " ++ (party.now ++ (codes " authorises " ++ branch_text output branch)))) }
{
    put_name(out, b"needs ", party)?;
    put(out, b" authorises ")?;
    put_branch(alloc, out, output, branch)
}

// A name between words.
#[tactic(auto, using(std::proofs::Common::append_assoc))]
fn put_between(out: &mut Vec<u8>, word: &[u8], name: &Name, end: &[u8]) -> Result<(), OutOfMemory>
    ensures { OnOk result (out.new.items ≡ out.old.items ++ (word.now ++ (name.now ++ end.now))) }
{
    put_name(out, word, name)?;
    put(out, end)
}

/// What is missing, in words.
pub fn put_requirement(
    alloc: Global,
    out: &mut Vec<u8>,
    requirement: &Requirement,
) -> Result<(), OutOfMemory>
    ensures { OnOk result (out.new.items ≡ out.old.items ++ spec.requirement_text requirement.now) }
{
    match requirement {
        Requirement::Advert(contract) => put_word_number(
            alloc,
            out,
            b"needs advertise ",
            *contract,
        ),
        Requirement::Deposit(name) => put_name(out, b"needs deposit ", name),
        Requirement::Gone(name) => put_between(out, b"never: deposit ", name, b" gone"),
        Requirement::NobodyHonest => put(out, b"never: nobody honest"),
        Requirement::Missing(secret) => put_between(out, b"never: secret ", secret, b" missing"),
        Requirement::BadLength(secret) => {
            put_between(out, b"never: secret ", secret, b" not of 16 to 520 bytes")
        }
        Requirement::Repeated(secret) => {
            put_between(out, b"never: secret ", secret, b" committed before")
        }
        Requirement::Digest {
            party,
            contract,
            secret,
        } => put_digest(alloc, out, party, *contract, secret),
        Requirement::Commitment { party, contract } => {
            put_doing(alloc, out, party, b" commits ", *contract)
        }
        Requirement::Endorsement { party, contract } => {
            put_doing(alloc, out, party, b" endorses ", *contract)
        }
        Requirement::Start { party, contract } => put_doing(
            alloc, out, party, b" inits ", *contract,
        ),
        Requirement::Beginning(contract) => put_word_number(
            alloc,
            out,
            b"needs fire init ",
            *contract,
        ),
        Requirement::Height { height, blocks } => put_height(alloc, out, *height, *blocks),
        Requirement::Authorisation {
            party,
            output,
            branch,
        } => put_authorises(alloc, out, party, *output, *branch),
        Requirement::Put(name) => put_between(out, b"never: put ", name, b" gone"),
        Requirement::Secret {
            party,
            contract,
            secret,
        } => put_secret(alloc, out, party, *contract, secret),
        Requirement::Posted { party, secret } => {
            put_of(out, b"needs secret ", secret, party, b" by post")
        }
        Requirement::Predicate => put(out, b"never: predicate false"),
    }
}
