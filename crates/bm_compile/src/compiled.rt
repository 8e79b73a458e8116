//! What a contract is compiled to.

ghost use Rattle.std.specs.Prelude.{◌≡◌, ℕ, List, length, map, Some, true, false, IfOk, IfSome, option_map, slice_get};
ghost use Rattle.std.specs.Option.{option_and_then};
ghost use Rattle.spec_compiler.specs.Instance.{Instance, branch_keys};
ghost use Rattle.spec_compiler.specs.ByPath.{prepared_at};
ghost use Rattle.theory_script.specs.Listed.{at_path, are_once};
ghost use Rattle.bm_compile.specs.Numbered as spec;

use crate::finding::{entry, find_keys, find_path, is_branch_at, row};
use crate::tables::places;
use bm_arena::Arena;
use bm_syntax::Path;
use spec_compiler::Prepared;
use spec_data::{Bytes, OutOfMemory, Seq};
use std::alloc::Global;
use std::marker::Model;
use theory_script::{paths_are_listed, scripts_are_listed};

/// A contract's nodes, its initial transaction, the transaction of each path and the witness script (BIP 141) of each
/// position, both in the order of the text, and the keys of each path, so that no key is worked out a second time. What a node is
/// compiled to is found by the node's number, without a search.
pub struct Compiled {
    arena: Arena,
    init: Prepared,
    paths: Seq<(Path, Prepared)>,
    scripts: Seq<(Path, Bytes)>,
    keys: Seq<Seq<[u8; 33]>>,
    branches: Seq<Option<u32>>,
    choices: Seq<Option<u32>>,
}

impl Model for Compiled {
    ghost use Rattle.std.specs.Coded.{codes};
    ghost use Rattle.spec_terms.specs.TermCode.{coded_test};
    ghost use Rattle.bm_compile.specs.Numbered.{Numbered, IsIndexed};

    ghost Value = { Numbered };

    ghost coded = { Prim.hlevel (codes, coded_test) };

    ghost view = { λ c. record { nodes = c.arena; init = c.init; paths = c.paths; scripts = c.scripts; keys = c.keys } };

    ghost invariant = { λ c. IsIndexed c.arena c.paths c.scripts c.keys c.branches c.choices };
}

impl Drop for Compiled {
    fn drop(self) {
        let Compiled {
            arena: _,
            init: _,
            paths: _,
            scripts: _,
            keys: _,
            branches: _,
            choices: _,
        } = self;
    }
}

impl Compiled {
    /// The whole of these parts: the transactions of all branches, the scripts of all positions and the keys of all branches, in the
    /// order of the nodes.
    pub(crate) fn of(
        alloc: Global,
        arena: Arena,
        init: Prepared,
        paths: Seq<(Path, Prepared)>,
        scripts: Seq<(Path, Bytes)>,
        keys: Seq<Seq<[u8; 33]>>,
    ) -> Result<Compiled, OutOfMemory>
        requires paths { map (λ p. p.0) paths ≡ spec.named true arena }
        requires paths_once { are_once (map (λ p. p.0) paths) ≡ true }
        requires scripts { map (λ p. p.0) scripts ≡ spec.named false arena }
        requires scripts_once { are_once (map (λ p. p.0) scripts) ≡ true }
        requires keys { length keys ≡ length paths }
        ensures { IfOk result (λ c. c ≡ record { nodes = arena; init = init; paths = paths; scripts = scripts; keys = keys }) }
    {
        let _ = arena.len();
        let branches = places(alloc, arena.nodes(), true)?;
        let choices = places(alloc, arena.nodes(), false)?;
        Ok(Compiled {
            arena,
            init,
            paths,
            scripts,
            keys,
            branches,
            choices,
        })
    }

    /// The numbered nodes of the contract.
    pub fn arena(&self) -> &Arena
        ensures { result.now ≡ self.now.nodes }
    {
        &self.arena
    }

    /// The initial transaction.
    pub fn init(&self) -> &Prepared
        ensures { result.now ≡ self.now.init }
    {
        &self.init
    }

    /// The transaction of each path, in the order of the text.
    pub fn paths(&self) -> &[(Path, Prepared)]
        ensures { result.now ≡ self.now.paths }
    {
        self.paths.as_slice()
    }

    /// The script of each position, in the order of the text.
    pub fn scripts(&self) -> &[(Path, Bytes)]
        ensures { result.now ≡ self.now.scripts }
    {
        self.scripts.as_slice()
    }

    /// The keys of each path, in the order of the text, each participant's in order.
    pub fn keys(&self) -> &[Seq<[u8; 33]>]
        ensures { result.now ≡ self.now.keys }
    {
        self.keys.as_slice()
    }

    /// The transaction of the branch whose node has this number, `None` where the node is a choice or isn't there.
    pub fn transaction(&self, number: u32) -> Option<&Prepared>
        ensures by_node { option_map (λ p. p.now) result
            ≡ option_and_then (spec.transaction_of self.now.paths) (slice_get self.now.nodes number) }
        ensures compiled { (hash : List ℕ → List ℕ) (s : Instance) → self.now ≡ spec.numbered hash s
            → option_map (λ p. p.now) result ≡ option_and_then (spec.compiled_transaction hash s) (slice_get self.now.nodes number) }
    {
        paths_are_listed();
        entry(self.paths.as_slice(), self.branches.as_slice(), number)
    }

    // Each participant's key of the branch whose node has this number.
    fn keys_of(&self, number: u32) -> Option<&[[u8; 33]]>
        ensures { option_map (λ row. row.now) result
            ≡ option_and_then (spec.keys_of self.now.paths self.now.keys) (slice_get self.now.nodes number) }
    {
        row(self.keys.as_slice(), self.branches.as_slice(), number)
    }

    // The number of the branch at this path, where its steps lead to the node.
    fn number_at(&self, path: &Path) -> Option<u32>
        ensures { IfSome result (λ n. option_map (spec.is_branch_at path.now) (slice_get self.now.nodes n) ≡ Some true) }
    {
        let number = self.arena.find(path)?;
        let node = self.arena.node(number)?;
        if is_branch_at(node, path) {
            return Some(number);
        }
        None
    }

    /// The script of the position whose choice has this number, `None` where the node is a branch or isn't there.
    pub fn script(&self, number: u32) -> Option<&Bytes>
        ensures by_node { option_map (λ b. b.now) result
            ≡ option_and_then (spec.script_of self.now.scripts) (slice_get self.now.nodes number) }
        ensures compiled { (hash : List ℕ → List ℕ) (s : Instance) → self.now ≡ spec.numbered hash s
            → option_map (λ b. b.now) result ≡ option_and_then (spec.compiled_script hash s) (slice_get self.now.nodes number) }
    {
        scripts_are_listed();
        entry(self.scripts.as_slice(), self.choices.as_slice(), number)
    }

    /// The transaction of the branch at this path, `None` where there is no branch. It is found in as many steps as the path has.
    pub fn transaction_at(&self, path: &Path) -> Option<&Prepared>
        ensures by_list { option_map (λ p. p.now) result ≡ at_path path.now self.now.paths }
        ensures compiled { (hash : List ℕ → List ℕ) (s : Instance) → self.now ≡ spec.numbered hash s
            → option_map (λ p. p.now) result ≡ prepared_at hash s path.now }
    {
        paths_are_listed();
        match self.number_at(path) {
            Some(number) => self.transaction(number),
            None => find_path(self.paths.as_slice(), path),
        }
    }

    /// Each participant's key of the branch at this path, in order, `None` where there is no branch. It is found in as many steps
    /// as the path has.
    pub fn keys_at(&self, path: &Path) -> Option<&[[u8; 33]]>
        ensures by_list { option_map (λ row. row.now) result ≡ at_path path.now (spec.keyed_paths self.now.paths self.now.keys) }
        ensures compiled { (hash : List ℕ → List ℕ) (s : Instance) → self.now ≡ spec.numbered hash s
            → option_map (λ row. row.now) result ≡ option_map (λ made. branch_keys hash s path.now) (prepared_at hash s path.now) }
    {
        paths_are_listed();
        match self.number_at(path) {
            Some(number) => self.keys_of(number),
            None => find_keys(self.paths.as_slice(), self.keys.as_slice(), path),
        }
    }

    /// The script of the output at this position, `None` where there is no position.
    pub fn script_at(&self, position: &Path) -> Option<&Bytes>
        ensures by_list { option_map (λ b. b.now) result ≡ at_path position.now self.now.scripts }
        ensures compiled { (hash : List ℕ → List ℕ) (s : Instance) → self.now ≡ spec.numbered hash s
            → option_map (λ b. b.now) result ≡ spec.script_at hash s position.now }
    {
        scripts_are_listed();
        find_path(self.scripts.as_slice(), position)
    }
}
