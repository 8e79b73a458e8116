//! The label that a text is of.

ghost use Rattle.std.specs.Prelude.{◌≡◌, IfOk, IfSome, IfNone, Err, ◌∷◌};
ghost use Rattle.spec_bitcoin.specs.declared.label.Label.TheVariants.{Deposit, Branch};
ghost use Rattle.bm_keys.specs.declared.reading.LabelError.TheVariants.{Memory};
ghost use Rattle.bm_keys.specs.Pieces.{IsPathAt, NoPathAt};
ghost use Rattle.bm_keys.specs.Labels as spec;

use crate::pieces::{behind, number_at, step_at};
use spec_bitcoin::Label;
use spec_data::Name;
use spec_terms::Path;
use std::alloc::{AllocError, AllocFailed, Global};

/// Why a text gave no label.
#[derive(Clone, Copy, Debug, PartialEq, Eq)]
pub enum LabelError {
    /// No label has this text.
    Bad,
    /// Out of memory.
    Memory,
}

impl From<AllocError> for LabelError {
    ghost from_gives = { λ _ e. e ≡ Memory };

    fn from(_error: AllocError) -> LabelError {
        LabelError::Memory
    }
}

impl<T: Drop> From<AllocFailed<T>> for LabelError {
    ghost from_gives = { λ _ e. e ≡ Memory };

    fn from(_error: AllocFailed<T>) -> LabelError {
        LabelError::Memory
    }
}

// The number of a contract, behind which stand a colon and r; and what stands behind them.
fn contract_at(text: &[u8]) -> Option<(u32, &[u8])>
    ensures some { IfSome result (λ p. spec.IsContractAt text.now p.0 p.1.now) }
    ensures none { IfNone result (spec.NoContractAt text.now) }
{
    let (contract, rest) = number_at(text)?;
    let rest = behind(b':', rest)?;
    let rest = behind(b'r', rest)?;
    Some((contract, rest))
}

// The steps of a path up to a colon, and what stands behind it.
fn path_at(alloc: Global, text: &[u8]) -> Result<(Path, &[u8]), LabelError>
    ensures ok { IfOk result (λ p. IsPathAt text.now p.0 p.1.now) }
    ensures bad { result ≡ Err LabelError.Bad → NoPathAt text.now }
{
    let mut steps = Vec::new(alloc);
    let mut rest = text;
    loop {
        if let Some(after) = behind(b':', rest) {
            return Ok((Path::of(steps), after));
        }
        let Some((step, after)) = step_at(rest) else {
            return Err(LabelError::Bad);
        };
        steps.push(step)?;
        rest = after;
    }
}

// The label of a deposit of this party.
#[tactic(auto, using(crate::proofs::LabelLemmas::deposit_read, crate::proofs::LabelLemmas::no_deposit))]
fn deposit_label(text: &[u8]) -> Result<Label, LabelError>
    ensures ok { IfOk result (λ label. spec.IsTextOf (68 ∷ (58 ∷ text.now)) label) }
    ensures bad { result ≡ Err LabelError.Bad → spec.NoLabel (68 ∷ (58 ∷ text.now)) }
{
    match Name::new(text) {
        Some(party) => Ok(Label::Deposit { party }),
        None => Err(LabelError::Bad),
    }
}

// The label of a branch, by what stands behind its two first bytes.
#[tactic(auto, using(crate::proofs::LabelLemmas::branch_read, crate::proofs::LabelLemmas::no_contract, crate::proofs::LabelLemmas::no_branch_path, crate::proofs::LabelLemmas::no_branch_party))]
fn branch_label(alloc: Global, text: &[u8]) -> Result<Label, LabelError>
    ensures ok { IfOk result (λ label. spec.IsTextOf (66 ∷ (58 ∷ text.now)) label) }
    ensures bad { result ≡ Err LabelError.Bad → spec.NoLabel (66 ∷ (58 ∷ text.now)) }
{
    let Some((contract, rest)) = contract_at(text) else {
        return Err(LabelError::Bad);
    };
    match path_at(alloc, rest) {
        Ok((path, rest)) => match Name::new(rest) {
            Some(party) => Ok(Label::Branch {
                contract,
                path,
                party,
            }),
            None => Err(LabelError::Bad),
        },
        Err(error) => Err(error),
    }
}

// What stands behind the kind of a label and a colon.
fn behind_kind(kind: u8, text: &[u8]) -> Option<&[u8]>
    ensures some { IfSome result (λ rest. text.now ≡ kind ∷ (58 ∷ rest.now)) }
    ensures none { IfNone result (spec.NoKind kind text.now) }
{
    let rest = behind(kind, text)?;
    let rest = behind(b':', rest)?;
    Some(rest)
}

/// The label with this text; a party there is any 1 to 32 bytes. `Bad` exactly where no label has this text.
#[tactic(auto, using(crate::proofs::LabelLemmas::no_kind))]
pub fn read_label(alloc: Global, text: &[u8]) -> Result<Label, LabelError>
    ensures ok { IfOk result (λ label. spec.IsTextOf text.now label) }
    ensures bad { result ≡ Err LabelError.Bad → spec.NoLabel text.now }
{
    if let Some(rest) = behind_kind(b'D', text) {
        return deposit_label(rest);
    }
    if let Some(rest) = behind_kind(b'B', text) {
        return branch_label(alloc, rest);
    }
    Err(LabelError::Bad)
}
