//! Partially signed transactions as text, decoded, encoded again and combined.

use base64::engine::general_purpose::STANDARD;
use bm_psbt::{CombineError, Psbt, PsbtError, combine, decode, encode};
use std::alloc::Global;
use std::test::Fail;

// The initial transaction of `{A:! 10 @ x} withdraw A`, signed: 298 bytes.
const SIGNED: &str = "\
     cHNidP8BAF4CAAAAAUvUeTgBNa8u5cxrXIp+KepvtYEyFPQZAns95ZQGYCB0AAAAAAD+////AQoAAAAAAAAAIgAg\
     d4n0jft8Y/KycXvmgf7GAN22nACu/VOlhyJhaRLLG0kAAAAAAAEBKwoAAAAAAAAAIgAgi1nX6cHE+24WT77w00EH\
     GPEq4TnMOPGT4qCxj483zi0iAgJyKfR1KuG6S3We92lS8MjfQNGjlqTHk2N1144OIPn5U0ICcin0dSrhukt1nvdp\
     UvDI30DRo5akx5NjddeODiD5+VN5jqiDiyoxXOPEC/ml29KVx/QECMClsVDBh2ltyaV9xgEBAwQBAAAAAQUjIQJy\
     KfR1KuG6S3We92lS8MjfQNGjlqTHk2N1144OIPn5U6wAAA==";

// The same without its signature: 196 bytes.
const UNSIGNED: &str = "\
     cHNidP8BAF4CAAAAAUvUeTgBNa8u5cxrXIp+KepvtYEyFPQZAns95ZQGYCB0AAAAAAD+////AQoAAAAAAAAAIgAg\
     d4n0jft8Y/KycXvmgf7GAN22nACu/VOlhyJhaRLLG0kAAAAAAAEBKwoAAAAAAAAAIgAgi1nX6cHE+24WT77w00EH\
     GPEq4TnMOPGT4qCxj483zi0BAwQBAAAAAQUjIQJyKfR1KuG6S3We92lS8MjfQNGjlqTHk2N1144OIPn5U6wAAA==";

// The transaction of its only branch, signed.
const OTHER: &str = "\
     cHNidP8BAF4CAAAAAZoxycWH+XshXzr6PldYvPXCXweovGy71Vf9jb6lDIMeAAAAAAD+////AQoAAAAAAAAAIgAg\
     i1nX6cHE+24WT77w00EHGPEq4TnMOPGT4qCxj483zi0AAAAAAAEBKwoAAAAAAAAAIgAgd4n0jft8Y/KycXvmgf7G\
     AN22nACu/VOlhyJhaRLLG0kiAgLDBI64pj7UHqe5/VX7B6h3NuYfQZDGYD5IvUaVF4n9uEICwwSOuKY+1B6nuf1V\
     +weodzbmH0GQxmA+SL1GlReJ/bhqqb9u2ZW1ORD8iQinOAxHpKcBlWkJ/PvetvFPWtDmdgEBAwQBAAAAAQUjIQLD\
     BI64pj7UHqe5/VX7B6h3NuYfQZDGYD5IvUaVF4n9uKwAAA==";

fn read(alloc: Global, text: &str) -> Result<Psbt, Fail> {
    let bytes = STANDARD.decode(alloc, text.as_bytes())?;
    Ok(decode(alloc, &bytes).map_err(|_| "no partially signed transaction")?)
}

fn written(alloc: Global, psbt: &Psbt) -> Result<String, Fail> {
    let bytes = encode(alloc, psbt)?;
    Ok(STANDARD.encode(alloc, &bytes)?)
}

#[test]
fn texts_are_read_and_written_again(rt: HostRuntime) -> Result<(), Fail> {
    let alloc = rt.alloc();
    for (text, size) in [(SIGNED, 298), (UNSIGNED, 196), (OTHER, 298)] {
        let psbt = read(alloc, text)?;
        assert_eq!(rt; encode(alloc, &psbt)?.len(), size);
        let again = written(alloc, &psbt)?;
        assert_eq!(rt; again.as_str(), text);
    }
    Ok(())
}

#[test]
fn a_signature_is_joined_both_ways_round(rt: HostRuntime) -> Result<(), Fail> {
    let alloc = rt.alloc();
    for (first, second) in [(SIGNED, UNSIGNED), (UNSIGNED, SIGNED)] {
        let both = combine(alloc, &read(alloc, first)?, &read(alloc, second)?);
        let both = both.map_err(|_| "not combined")?;
        let again = written(alloc, &both)?;
        assert_eq!(rt; again.as_str(), SIGNED);
    }
    Ok(())
}

#[test]
fn other_transactions_and_bad_bytes_are_refused(rt: HostRuntime) -> Result<(), Fail> {
    let alloc = rt.alloc();
    let answer = combine(alloc, &read(alloc, SIGNED)?, &read(alloc, OTHER)?);
    assert!(rt; matches!(answer, Err(CombineError::OtherTx)));
    let magic = STANDARD.decode(alloc, b"cHNidP8=")?;
    assert!(rt; matches!(decode(alloc, &magic), Err(PsbtError::BadPsbt)));
    Ok(())
}
