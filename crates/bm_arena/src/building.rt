//! The nodes of a contract, one after the other.

ghost use Rattle.std.specs.Prelude.{◌≡◌, ◌+◌, ◌<◌, ◌^◌, [], ◌∷◌, ◌++◌, length, map, IfOk, OnOk};
ghost use Rattle.spec_terms.specs.Core as core;
ghost use Rattle.spec_terms.specs.Parties.{add_all};
ghost use Rattle.bm_syntax.specs.View.{guarded, contract, choice_of, parts_of, part_view};
ghost use Rattle.spec_nodes.specs.Nodes.{choice_count, branches_count, branch_count, parts_count};
ghost use Rattle.spec_nodes.specs.Nodes.{nodes_of, choice_nodes, branches_nodes, branch_nodes, parts_nodes};
ghost use Rattle.spec_nodes.specs.Nodes.{branch_numbers, part_numbers, asks_once, choice_node, branch_node, splits};
ghost use Rattle.bm_arena.specs.NodeView.{deed_view};

use crate::arena::Arena;
use crate::node::{Core, Node};
use bm_syntax::copies::copy_test;
use bm_syntax::{Contract, Guarded, Name, Part, Path, PathStep, add_new, lock, longer};
use spec_data::OutOfMemory;
use std::alloc::Global;

// The parties that a branch asks, each that is new.
fn add_asked(names: &mut Vec<Name>, branch: &Guarded) -> Result<(), OutOfMemory>
    ensures { OnOk result (names.new.items ≡ add_all names.old.items (core.asks (guarded branch.now))) }
{
    match branch {
        Guarded::Auth { party, body } => {
            add_new(names, party)?;
            add_asked(names, body)
        }
        Guarded::After { body, .. } => add_asked(names, body),
        _ => Ok(()),
    }
}

// The parties that a branch asks, each once, outermost first.
fn asked_once(alloc: Global, branch: &Guarded) -> Result<Vec<Name>, OutOfMemory>
    ensures { IfOk result (λ names. names.items ≡ asks_once (guarded branch.now)) }
{
    let mut names = Vec::new(alloc);
    add_asked(&mut names, branch)?;
    Ok(names)
}

// The choice at a position, and all that stands under it.
#[cycle(build)]
fn put_choice(
    alloc: Global,
    arena: &mut Arena,
    position: &Path,
    choice: &Contract,
) -> Result<(), OutOfMemory>
    requires { length arena.old + choice_count (contract choice.now) < 2 ^ 32 }
    ensures made { OnOk result (arena.new ≡ arena.old ++ choice_nodes position.now (length arena.old) (contract choice.now)) }
    ensures count { OnOk result (length arena.new ≡ length arena.old + choice_count (contract choice.now)) }
{
    let number = arena.len();
    put_place(alloc, arena)?;
    let branches = put_branches(alloc, arena, position, &choice.branches)?;
    arena.set(
        number,
        Node::Choice {
            position: position.copy(alloc)?,
            branches,
        },
    );
    Ok(())
}

// The branches of the choice at a position, with all that stands under them, and the branches' numbers.
#[cycle(build)]
fn put_branches(
    alloc: Global,
    arena: &mut Arena,
    position: &Path,
    branches: &[Guarded],
) -> Result<Vec<u32>, OutOfMemory>
    requires { length arena.old + branches_count (choice_of (map guarded branches.now)) < 2 ^ 32 }
    ensures made { let terms = choice_of (map guarded branches.now) in
        OnOk result (arena.new ≡ arena.old ++ branches_nodes position.now 0 (length arena.old) terms) }
    ensures count { OnOk result (length arena.new ≡ length arena.old + branches_count (choice_of (map guarded branches.now))) }
    ensures numbers { IfOk result (λ numbers. numbers.items ≡ branch_numbers (length arena.old) (choice_of (map guarded branches.now))) }
{
    let mut numbers = Vec::new(alloc);
    for (i, branch) in branches.iter().enumerate() {
        numbers.push(arena.len())?;
        let path = longer(alloc, position, PathStep::Branch(i as u32))?;
        let asked = asked_once(alloc, branch)?;
        put_branch(alloc, arena, &path, asked, lock(branch), branch)?;
    }
    Ok(numbers)
}

// The branch at a path, which asks these parties and has this lock.
#[cycle(build)]
fn put_branch(
    alloc: Global,
    arena: &mut Arena,
    path: &Path,
    asked: Vec<Name>,
    height: u32,
    branch: &Guarded,
) -> Result<(), OutOfMemory>
    requires { length arena.old + branch_count (guarded branch.now) < 2 ^ 32 }
    ensures made { let term = guarded branch.now in
        OnOk result (arena.new ≡ arena.old ++ branch_nodes path.now (length arena.old) asked.items height term) }
    ensures count { OnOk result (length arena.new ≡ length arena.old + branch_count (guarded branch.now)) }
{
    match branch {
        Guarded::Auth { body, .. } => put_branch(alloc, arena, path, asked, height, body),
        Guarded::After { body, .. } => put_branch(alloc, arena, path, asked, height, body),
        Guarded::PutReveal {
            puts,
            reveals,
            test,
            next,
        } => {
            let core = Core::PutReveal {
                puts: Vec::from_slice(alloc, puts)?,
                reveals: Vec::from_slice(alloc, reveals)?,
                test: copy_test(alloc, test)?,
                next: arena.len() + 1,
            };
            put_node(alloc, arena, path, asked, height, core)?;
            put_choice(alloc, arena, path, next)
        }
        Guarded::Withdraw { party } => {
            let core = Core::Withdraw { party: *party };
            put_node(alloc, arena, path, asked, height, core)
        }
        Guarded::Split { parts } => put_split(alloc, arena, path, asked, height, parts),
    }
}

// A branch's node.
fn put_node(
    alloc: Global,
    arena: &mut Arena,
    path: &Path,
    asks: Vec<Name>,
    lock: u32,
    core: Core,
) -> Result<(), OutOfMemory>
    requires { length arena.old + 1 < 2 ^ 32 }
    ensures { OnOk result (arena.new ≡ arena.old ++ branch_node path.now asks.items lock (deed_view core) ∷ []) }
{
    arena.push(Node::Branch {
        path: path.copy(alloc)?,
        asks,
        lock,
        core,
    })
}

// The split at a path, with its parts and all that stands under them.
#[cycle(build)]
fn put_split(
    alloc: Global,
    arena: &mut Arena,
    path: &Path,
    asked: Vec<Name>,
    height: u32,
    parts: &[Part],
) -> Result<(), OutOfMemory>
    requires { length arena.old + (1 + parts_count (parts_of (map part_view parts.now))) < 2 ^ 32 }
    ensures made { let terms = parts_of (map part_view parts.now) in
        let first = length arena.old + 1 in
        OnOk result (arena.new ≡ arena.old
        ++ branch_node path.now asked.items height (splits (part_numbers first terms)) ∷ parts_nodes path.now 0 first terms) }
    ensures count { OnOk result (length arena.new ≡ length arena.old + (1 + parts_count (parts_of (map part_view parts.now)))) }
{
    let number = arena.len();
    put_place(alloc, arena)?;
    let numbers = put_parts(alloc, arena, path, parts)?;
    arena.set(
        number,
        Node::Branch {
            path: path.copy(alloc)?,
            asks: asked,
            lock: height,
            core: Core::Split { parts: numbers },
        },
    );
    Ok(())
}

// A node that is written later.
fn put_place(alloc: Global, arena: &mut Arena) -> Result<(), OutOfMemory>
    requires { length arena.old + 1 < 2 ^ 32 }
    ensures { OnOk result (arena.new ≡ arena.old ++ choice_node [] [] ∷ []) }
{
    arena.push(Node::Choice {
        position: Path::of(Vec::new(alloc)),
        branches: Vec::new(alloc),
    })
}

// The parts of the split at a path, each with its value and the number of its choice.
#[cycle(build)]
fn put_parts(
    alloc: Global,
    arena: &mut Arena,
    path: &Path,
    parts: &[Part],
) -> Result<Vec<(u64, u32)>, OutOfMemory>
    requires { length arena.old + parts_count (parts_of (map part_view parts.now)) < 2 ^ 32 }
    ensures made { let terms = parts_of (map part_view parts.now) in
        OnOk result (arena.new ≡ arena.old ++ parts_nodes path.now 0 (length arena.old) terms) }
    ensures count { OnOk result (length arena.new ≡ length arena.old + parts_count (parts_of (map part_view parts.now))) }
    ensures numbers { IfOk result (λ numbers. numbers.items ≡ part_numbers (length arena.old) (parts_of (map part_view parts.now))) }
{
    let mut numbers = Vec::new(alloc);
    for (k, part) in parts.iter().enumerate() {
        numbers.push((part.value, arena.len()))?;
        let position = longer(alloc, path, PathStep::Part(k as u32))?;
        put_choice(alloc, arena, &position, &part.next)?;
    }
    Ok(numbers)
}

impl Arena {
    /// The nodes of a contract. One that was checked has at most 1,024.
    pub fn of(alloc: Global, root: &Contract) -> Result<Arena, OutOfMemory>
        requires { choice_count (contract root.now) < 2 ^ 32 }
        ensures { IfOk result (λ arena. arena ≡ nodes_of (contract root.now)) }
    {
        let mut arena = Arena::new(alloc);
        put_choice(alloc, &mut arena, &Path::of(Vec::new(alloc)), root)?;
        Ok(arena)
    }
}
