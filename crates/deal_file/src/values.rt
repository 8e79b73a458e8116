//! What is given, of the kind that is asked for.

ghost use Rattle.std.specs.Prelude.{◌≡◌, option_map};
ghost use Rattle.spec_deal.specs.DealFile as spec;
ghost use Rattle.deal_file.specs.Building as building;

use spec_bitcoin::OutPoint;
use spec_data::Name;
use spec_deal::Value;

/// The key that is given to a label.
pub(crate) fn key_in(value: Option<&Value>) -> Option<[u8; 33]>
    ensures { result ≡ building.key_given (option_map (λ v. v.now) value.entry) }
{
    match value {
        Some(Value::Key(key)) => Some(*key),
        Some(_) => Some([0; 33]),
        None => None,
    }
}

/// The place that is given to a deposit.
pub(crate) fn place_in(value: Option<&Value>) -> Option<OutPoint>
    ensures { result ≡ building.place_given (option_map (λ v. v.now) value.entry) }
{
    match value {
        Some(Value::Place(outpoint)) => Some(*outpoint),
        Some(Value::Wallet(outpoint, _)) => Some(*outpoint),
        _ => None,
    }
}

/// The hash that is given to a secret, and zeros without one.
pub(crate) fn hash_in(value: Option<&Value>) -> [u8; 32]
    ensures { result ≡ spec.hash_or_none (option_map (λ v. v.now) value.entry) }
{
    match value {
        Some(Value::Hash(digest)) => *digest,
        _ => [0; 32],
    }
}

/// The network that is given.
pub(crate) fn network_in(value: Option<&Value>) -> Option<Name>
    ensures { result ≡ spec.network_given (option_map (λ v. v.now) value.entry) }
{
    match value {
        Some(Value::Network(hrp)) => Some(*hrp),
        _ => None,
    }
}

/// The script of the wallet that brings a deposit.
pub(crate) fn wallet_script(value: Option<&Value>) -> Option<&[u8]>
    ensures { option_map (λ s. s.now) result ≡ spec.wallet_given (option_map (λ v. v.now) value.entry) }
{
    match value {
        Some(Value::Wallet(_, script)) => Some(script.as_slice()),
        _ => None,
    }
}

/// The script where a participant is paid.
pub(crate) fn payee_script(value: Option<&Value>) -> Option<&[u8]>
    ensures { option_map (λ s. s.now) result ≡ spec.script_given (option_map (λ v. v.now) value.entry) }
{
    match value {
        Some(Value::Script(script)) => Some(script.as_slice()),
        _ => None,
    }
}
