//! A party's key of a branch, of those that a compiled contract has.

ghost use Rattle.std.specs.Prelude.{◌≡◌, ℕ, List, IfSome};
ghost use Rattle.std.specs.Option.{option_and_then};
ghost use Rattle.spec_terms.specs.Parties.{participants};
ghost use Rattle.spec_bitcoin.specs.Keys.{key_of};
ghost use Rattle.spec_compiler.specs.Instance.{Instance, branch_label};
ghost use Rattle.theory_script.specs.Listed.{at_path};
ghost use Rattle.bm_compile.specs.Numbered.{numbered, keyed_paths};
ghost use Rattle.bm_honest.specs.Beside.{key_beside};

use bm_compile::Compiled;
use bm_wellformed::Checked;
use spec_data::Name;
use spec_terms::Path;

// The party's key, of these participants, who have these keys of a branch.
fn key_beside(people: &[Name], keys: &[[u8; 33]], party: &Name) -> Option<[u8; 33]>
    ensures { result ≡ key_beside party.now people.now keys.now }
{
    let mut rest = keys;
    for person in people {
        let Some((key, others)) = rest.split_first() else {
            return None;
        };
        if *person == *party {
            return Some(*key);
        }
        rest = others;
    }
    None
}

/// A party's key of the branch at a path of a contract of this number, `None` where the party isn't a participant or no branch is
/// there. The contract is compiled to `compiled`, which has the participants' keys of each path, so that none is hashed anew: the key
/// is the plan's where it was compiled by the plan.
pub fn known_key(
    checked: &Checked,
    contract: u32,
    compiled: &Compiled,
    party: &Name,
    path: &Path,
) -> Option<[u8; 33]>
    ensures listed { result ≡ option_and_then (key_beside party.now (participants checked.now))
        (at_path path.now (keyed_paths compiled.now.paths compiled.now.keys)) }
    ensures defined { (hash : List ℕ → List ℕ) (s : Instance) → compiled.now ≡ numbered hash s → s.contract ≡ contract → s.advert ≡ checked.now
        → IfSome result (λ key. key ≡ key_of hash (branch_label contract path.now party.now)) }
{
    let keys = compiled.keys_at(path)?;
    key_beside(checked.parties(), keys, party)
}
