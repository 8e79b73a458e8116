//! What a branch waits for.

ghost use Rattle.std.specs.Prelude.{◌≡◌, ◌≤◌, ◌++◌, [], length, drop, map, IfOk, OnOk};
ghost use Rattle.spec_data.specs.Lists.{look_up};
ghost use Rattle.spec_terms.specs.Core.{core as core_of, asks, lock as lock_of, puts_of, reveals_of, test_of};
ghost use Rattle.spec_terms.specs.Parties.{add_all};
ghost use Rattle.spec_terms.specs.Precondition.{holding, volatile, secrets};
ghost use Rattle.spec_text.specs.Canonical.{heading_text};
ghost use Rattle.bm_syntax.specs.View.{guarded, test as test_view};
ghost use Rattle.spec_page.specs.declared.way_row.Condition.TheVariants.{Agrees};
ghost use Rattle.spec_page.specs.Ways as spec;

use bm_print::put_heading;
use bm_syntax::{Advert, Guarded, Name, Pre, Pred, add_new, core, lock, puts, reveals};
use spec_data::{Bytes, OutOfMemory, Seq};
use spec_page::Condition;
use std::alloc::{AllocError, Global};

// Adds the parties that a branch asks, each once.
fn add_asked(names: &mut Vec<Name>, branch: &Guarded) -> Result<(), OutOfMemory>
    ensures { OnOk result (names.new.items ≡ add_all names.old.items (asks (guarded branch.now))) }
{
    match branch {
        Guarded::Auth { party, body } => {
            add_new(names, party)?;
            add_asked(names, body)
        }
        Guarded::After { body, .. } => add_asked(names, body),
        _ => Ok(()),
    }
}

#[tactic(auto, using(std::proofs::Common::append_assoc))]
fn put_agreeing(conditions: &mut Seq<Condition>, names: &[Name]) -> Result<(), OutOfMemory>
    ensures { OnOk result (conditions.new ≡ conditions.old ++ map Agrees names.now) }
{
    for name in names {
        conditions.push(Condition::Agrees(*name))?;
    }
    Ok(())
}

// A height that is 0 is no condition.
fn put_height(conditions: &mut Seq<Condition>, height: u32) -> Result<(), OutOfMemory>
    ensures { OnOk result (conditions.new ≡ conditions.old ++ spec.block_conditions height) }
{
    if height == 0 {
        return Ok(());
    }
    conditions.push(Condition::Block(height))?;
    Ok(())
}

// The deposit of this name that is put in. A contract that passed the check has it; another counts as out of memory.
fn puts_condition(pre: &[Pre], deposit: &Name) -> Result<Condition, OutOfMemory>
    ensures { IfOk result (λ c. c ≡ spec.puts_condition deposit.now (look_up deposit.now (volatile pre.now))) }
{
    for entry in pre {
        if let Pre::Volatile { party, value, name } = entry
            && *name == *deposit
        {
            return Ok(Condition::Puts {
                party: *party,
                value: *value,
                deposit: *deposit,
            });
        }
    }
    Err(AllocError)
}

#[tactic(auto, using(std::proofs::Common::append_assoc))]
fn put_puts(conditions: &mut Seq<Condition>, pre: &[Pre], names: &[Name]) -> Result<(), OutOfMemory>
    ensures { OnOk result (conditions.new
        ≡ conditions.old ++ map (λ x. spec.puts_condition x (look_up x (volatile pre.now))) names.now) }
{
    for name in names {
        let condition = puts_condition(pre, name)?;
        conditions.push(condition)?;
    }
    Ok(())
}

// The party whose secret this is. A contract that passed the check has one; another counts as out of memory.
fn shower(pre: &[Pre], secret: &Name) -> Result<Name, OutOfMemory>
    ensures { IfOk result (λ party. party ≡ spec.owner_or_nobody (look_up secret.now (secrets pre.now))) }
{
    for entry in pre {
        if let Pre::Secret { party, name } = entry
            && *name == *secret
        {
            return Ok(*party);
        }
    }
    Err(AllocError)
}

#[tactic(auto, using(std::proofs::Common::append_assoc))]
fn put_shows(
    conditions: &mut Seq<Condition>,
    pre: &[Pre],
    names: &[Name],
) -> Result<(), OutOfMemory>
    ensures { OnOk result (conditions.new ≡ conditions.old
        ++ map (λ x. Condition.Shows (spec.owner_or_nobody (look_up x (secrets pre.now))) x) names.now) }
{
    for name in names {
        let party = shower(pre, name)?;
        conditions.push(Condition::Shows {
            party,
            secret: *name,
        })?;
    }
    Ok(())
}

// What stands behind so many bytes of a text, which has as many.
fn behind(text: &[u8], count: usize) -> &[u8]
    requires { count ≤ length text.now }
    ensures { result.now ≡ drop count text.now }
{
    &text[count..]
}

// The text of a predicate: what stands behind `reveal  if ` in the heading of a branch that reveals nothing.
fn holds_text(alloc: Global, test: &Pred) -> Result<Bytes, OutOfMemory>
    ensures { IfOk result (λ text. text ≡ drop 11 (heading_text [] [] (test_view test.now))) }
{
    let mut text = Vec::new(alloc);
    put_heading(&mut text, &[], &[], test)?;
    if text.len() < 11 {
        return Err(AllocError);
    }
    Bytes::from_slice(alloc, behind(&text, 11))
}

// A predicate that is always true is no condition.
fn put_test(alloc: Global, conditions: &mut Seq<Condition>, test: &Pred) -> Result<(), OutOfMemory>
    ensures { OnOk result (conditions.new ≡ conditions.old ++ spec.test_conditions (test_view test.now)) }
{
    match test {
        Pred::True => Ok(()),
        _ => {
            let text = holds_text(alloc, test)?;
            conditions.push(Condition::Holds(text))?;
            Ok(())
        }
    }
}

fn put_core_test(
    alloc: Global,
    conditions: &mut Seq<Condition>,
    core: &Guarded,
) -> Result<(), OutOfMemory>
    ensures { OnOk result (conditions.new ≡ conditions.old ++ spec.test_conditions (test_of (guarded core.now))) }
{
    match core {
        Guarded::PutReveal { test, .. } => put_test(alloc, conditions, test),
        _ => Ok(()),
    }
}

/// Who agrees, each once; the height; the deposits; the secrets; the predicate.
#[tactic(auto, using(std::proofs::Common::append_assoc))]
pub(crate) fn conditions_of(
    alloc: Global,
    advert: &Advert,
    branch: &Guarded,
) -> Result<Seq<Condition>, OutOfMemory>
    ensures { IfOk result (λ c. c ≡ spec.conditions_of advert.now (guarded branch.now)) }
{
    let mut names = Vec::new(alloc);
    add_asked(&mut names, branch)?;
    let mut conditions = Seq::new(alloc);
    put_agreeing(&mut conditions, &names)?;
    put_height(&mut conditions, lock(branch))?;
    put_puts(&mut conditions, &advert.pre, puts(branch))?;
    put_shows(&mut conditions, &advert.pre, reveals(branch))?;
    put_core_test(alloc, &mut conditions, core(branch))?;
    Ok(conditions)
}
