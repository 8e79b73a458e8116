//! Signatures of which an outside library has told whether they are good, one a line in hexadecimal: a
//! key, a digest and the bytes of a signature. The table is the input, the outside verdicts are the
//! output: random signatures, each spoilt in key, digest, R and S; R and S about 0 and the order;
//! digests 0 and the order; a sum at infinity and one of equal points; an R whose point has a first
//! coordinate of the order or more; multiples of the base point as keys; other spellings; and keys that
//! are no points.
#![tactic(auto)]

use curve_verify::verify;
use hex::FromHex;
use std::alloc::Global;
use std::io;

// The verdict on the signature of a line, and none where it isn't read.
fn verdict_of(alloc: Global, line: &str) -> Option<bool> {
    let mut words = line.split_whitespace();
    let key = hex::decode(alloc, words.next()?).ok()?;
    let digest = <[u8; 32] as FromHex>::from_hex(words.next()?).ok()?;
    let signature = hex::decode(alloc, words.next()?).ok()?;
    Some(verify(key.as_slice(), &digest, signature.as_slice()))
}

fn main(rt: HostRuntime) -> io::Result<()> {
    for line in rt.lines(rt.alloc()) {
        let text = line?;
        let word = match verdict_of(rt.alloc(), text.as_str()) {
            Some(true) => "good",
            Some(false) => "bad",
            None => "unread",
        };
        println!(rt; "{word}")?;
    }
    Ok(())
}
