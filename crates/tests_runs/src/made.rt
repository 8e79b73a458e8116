//! The contract and the run that a number makes. The digests are those of texts that a program of its own made, by the
//! published constants.

use bm_hash::{Hash32, Sha};
use bm_make::make;
use spec_data::OutOfMemory;
use std::alloc::Global;
use std::test::Fail;

const CONTRACT: &[u8] =
    b"{A:! 1000000 @ x | B:! 0 @ y | A: secret a1} (reveal a1 if |a1| = 15 . withdraw A + after 10 : withdraw B)";

const BEGINNING: &[u8] = b"party A
party B
honest A
honest B
secret A a1 013f3191e903e814db7603b34070dda2fd732c9fd8a136325d7058d9c570e8
deposit A 1000000
deposit B 0
deposit B 1000000000
--
advertise 0 x=#0 y=#1
commit 0 A
commit 0 B
endorse 0 A
endorse 0 B
init 0 A
init 0 B
fire init 0
reveal 0 A a1
fire #3 0
give B #2 -> B 348975517 B 651024483
give B #5 -> B 264077832 B 84897685
";

#[test]
fn a_small_run_begins_as_calculated_apart(rt: HostRuntime) -> Result<(), Fail> {
    let (contract, run) = make(rt.alloc(), 7, 1)?;
    assert!(rt; contract.as_slice() == CONTRACT);
    assert!(rt; run.as_slice().starts_with(BEGINNING));
    Ok(())
}

// The digests of both texts.
fn digests_of(alloc: Global, size: u32) -> Result<Option<(String, String)>, OutOfMemory> {
    if size > 30 {
        return Ok(None);
    }
    let (contract, run) = make(alloc, 7, size)?;
    let contract = hex::encode(alloc, &Sha.hash32(&contract))?;
    let run = hex::encode(alloc, &Sha.hash32(&run))?;
    Ok(Some((contract, run)))
}

#[test]
fn digests_are_those_of_texts_made_apart(rt: HostRuntime) -> Result<(), Fail> {
    let digests = [
        (
            1,
            "94b61fb3807dd2780ff0ac5b11e8be01ea42a32fc10b54b91a526fac6c94034e",
            "40de2dac09e6188df6735d74980d4f8bc209c49d276e8fd138968ba78ec1a031",
        ),
        (
            30,
            "3e3cbd90b5e623a6d94b90bee25f782da9a444ffd143b33228e0e47cd090c8f8",
            "e9685c7e5d2d8021fd8e98ed085b98c08fa5eb95ca64c3867e1e37999f780803",
        ),
    ];
    for (size, contract_digest, run_digest) in &digests {
        let (contract, run) = digests_of(rt.alloc(), *size)?.ok_or("too large")?;
        assert_eq!(rt; contract.as_str(), *contract_digest);
        assert_eq!(rt; run.as_str(), *run_digest);
    }
    Ok(())
}
