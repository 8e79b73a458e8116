//! Deposits and secrets of a precondition.

ghost use Rattle.std.specs.Prelude.{◌≡◌, ◌+◌, ◌≤◌, ◌<◌, ◌^◌, ◌*◌, ◌≤ℤ◌, ◌-ℤ◌, ◌+ℤ◌, pos, neg_ℤ, ℕ, [], ◌∷◌, map, length, All};
ghost use Rattle.spec_data.specs.Lists.{is_among, look_up};
ghost use Rattle.spec_terms.specs.Precondition as spec;
ghost use Rattle.spec_terms.specs.Balance as balances;
ghost use Rattle.spec_terms.specs.Faults as faults;
ghost use Rattle.bm_wellformed.specs.Small.{value_in, IsBalance};

use bm_syntax::{Advert, Name, Pre};

fn is_volatile(pre: &[Pre], name: &Name) -> bool
    ensures { result ≡ is_among name.now (spec.names_of (spec.volatile pre.now)) }
{
    for entry in pre {
        if let Pre::Volatile { name: known, .. } = entry {
            if *known == *name {
                return true;
            }
        }
    }
    false
}

/// Whether each name is that of a volatile deposit.
pub fn are_volatile(pre: &[Pre], names: &[Name]) -> bool
    ensures { result ≡ faults.are_among names.now (spec.names_of (spec.volatile pre.now)) }
{
    for name in names {
        if !is_volatile(pre, name) {
            return false;
        }
    }
    true
}

fn is_secret(pre: &[Pre], name: &Name) -> bool
    ensures { result ≡ is_among name.now (spec.names_of (spec.secrets pre.now)) }
{
    for entry in pre {
        if let Pre::Secret { name: known, .. } = entry {
            if *known == *name {
                return true;
            }
        }
    }
    false
}

/// Whether each name is that of a secret.
pub fn are_secrets(pre: &[Pre], names: &[Name]) -> bool
    ensures { result ≡ faults.are_among names.now (spec.names_of (spec.secrets pre.now)) }
{
    for name in names {
        if !is_secret(pre, name) {
            return false;
        }
    }
    true
}

/// Whether the party has a persistent deposit.
pub fn has_persistent(pre: &[Pre], party: &Name) -> bool
    ensures { result ≡ is_among party.now (spec.owners_of (spec.persistent pre.now)) }
{
    for entry in pre {
        if let Pre::Persistent { party: owner, .. } = entry {
            if *owner == *party {
                return true;
            }
        }
    }
    false
}

/// The number of the first entry whose name stands earlier.
pub fn repeated_entry(pre: &[Pre]) -> Option<u32>
    requires { length pre.now < 2 ^ 32 }
    ensures { result ≡ faults.first_repeated 0 [] (map spec.name_in pre.now) }
{
    let mut number: u32 = 0;
    for entry in pre {
        if is_named(&pre[..number as usize], name_in(entry)) {
            return Some(number);
        }
        number += 1;
    }
    None
}

fn name_in(entry: &Pre) -> &Name
    ensures { result.now ≡ spec.name_in entry.now }
{
    match entry {
        Pre::Persistent { name, .. } => name,
        Pre::Volatile { name, .. } => name,
        Pre::Secret { name, .. } => name,
    }
}

fn is_named(pre: &[Pre], name: &Name) -> bool
    ensures { result ≡ is_among name.now (map spec.name_in pre.now) }
{
    for entry in pre {
        if *name_in(entry) == *name {
            return true;
        }
    }
    false
}

// ---- values

fn persistent_value(entry: &Pre) -> u64
    ensures { result ≡ spec.total_of (spec.persistent (entry.now ∷ [])) }
{
    match entry {
        Pre::Persistent { value, .. } => *value,
        _ => 0,
    }
}

// The sum of the persistent deposits.
fn persistent_total(pre: &[Pre]) -> i128
    requires { All (λ e. value_in e ≤ 2 ^ 51) pre.now }
    ensures exact { result ≡ pos (spec.total_of (spec.persistent pre.now)) }
    ensures high { result ≤ℤ pos (2 ^ 114) }
{
    let mut total: i128 = 0;
    for entry in pre {
        total += i128::from(persistent_value(entry));
    }
    total
}

// The value of the volatile deposit of this name, 0 without one.
fn volatile_value(pre: &[Pre], name: &Name) -> u64
    requires { All (λ e. value_in e ≤ 2 ^ 51) pre.now }
    ensures exact { result ≡ spec.value_of (look_up name.now (spec.volatile pre.now)) }
    ensures high { result ≤ 2 ^ 51 }
{
    for entry in pre {
        if let Pre::Volatile {
            value,
            name: known,
            ..
        } = entry
        {
            if *known == *name {
                return *value;
            }
        }
    }
    0
}

// What the volatile deposits of these names bring.
fn value_of_puts(pre: &[Pre], puts: &[Name]) -> i128
    requires { All (λ e. value_in e ≤ 2 ^ 51) pre.now }
    ensures exact { result ≡ pos (spec.value_of_puts (spec.volatile pre.now) puts.now) }
    ensures high { result ≤ℤ pos (2 ^ 114) }
{
    let mut total: i128 = 0;
    for name in puts {
        total += i128::from(volatile_value(pre, name));
    }
    total
}

/// The static balance of the root.
pub fn root_balance(advert: &Advert) -> i128
    requires { All (λ e. value_in e ≤ 2 ^ 51) advert.now.pre }
    ensures exact { result ≡ balances.root_balance advert.now }
    ensures low { neg_ℤ (pos (2 ^ 64)) ≤ℤ result }
    ensures high { result ≤ℤ pos (2 ^ 114) }
{
    persistent_total(&advert.pre) - i128::from(advert.fee)
}

// The balance and what the volatile deposits of these names bring.
fn with_puts(pre: &[Pre], balance: i128, puts: &[Name]) -> i128
    requires values { All (λ e. value_in e ≤ 2 ^ 51) pre.now }
    requires low { neg_ℤ (pos (2 ^ 80)) ≤ℤ balance }
    requires high { balance ≤ℤ pos (2 ^ 124) }
    ensures exact { result ≡ balance +ℤ pos (spec.value_of_puts (spec.volatile pre.now) puts.now) }
    ensures high { result ≤ℤ (balance +ℤ pos (2 ^ 114)) }
{
    balance + value_of_puts(pre, puts)
}

// The balance with the puts, less the fee.
fn with_puts_less_fee(advert: &Advert, balance: i128, puts: &[Name]) -> i128
    requires values { All (λ e. value_in e ≤ 2 ^ 51) advert.now.pre }
    requires low { neg_ℤ (pos (2 ^ 80)) ≤ℤ balance }
    requires high { balance ≤ℤ pos (2 ^ 124) }
    ensures exact { result ≡ balances.after_put (spec.volatile advert.now.pre) advert.now.fee balance puts.now }
    ensures low { (balance -ℤ pos (2 ^ 64)) ≤ℤ result }
    ensures high { result ≤ℤ (balance +ℤ pos (2 ^ 114)) }
{
    with_puts(&advert.pre, balance, puts) - i128::from(advert.fee)
}

/// The static balance after a put of these deposits.
pub fn after_put(advert: &Advert, balance: i128, puts: &[Name]) -> i128
    requires values { All (λ e. value_in e ≤ 2 ^ 51) advert.now.pre }
    requires low { neg_ℤ (pos (2 ^ 80)) ≤ℤ balance }
    requires high { balance ≤ℤ pos (2 ^ 124) }
    ensures exact { result ≡ balances.after_put (spec.volatile advert.now.pre) advert.now.fee balance puts.now }
    ensures next { (n : ℕ) → IsBalance n balance → IsBalance (n + 1) result }
{
    with_puts_less_fee(advert, balance, puts)
}
