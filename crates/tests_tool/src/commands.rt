//! Each command answers where memory is ample.

use crate::calls::{files_of, status_of};
use bm_hash::Sha;
use bm_io::{MemFiles, MemSink};
use std::alloc::Global;
use std::test::Fail;

const CONTRACT: &[u8] = b"{A:! 10 @ x} withdraw A";

const ACCEPTED: &[u8] = b"contract 0 accepted\n{A:! 10 @ x} withdraw A\n";

const NO_EVENTS: &[u8] = b"\
party A
honest A
deposit A 10
--
";

const ADVERTISED: &[u8] = b"\
party A
honest A
deposit A 10
--
advertise 0 x=#0
";

// What A does last comes first, so that each round takes one of the rules.
const RULES: &[u8] = b"\
A init 0
A endorse 0
A commit 0
";

const SIGNED_RUN: &[u8] = b"\
party A
honest A
deposit A 10
--
advertise 0 x=#0
commit 0 A
endorse 0 A
init 0 A
";

// The initial transaction with A's signature, and without it.
const SIGNED: &[u8] = b"\
    cHNidP8BAF4CAAAAAUvUeTgBNa8u5cxrXIp+KepvtYEyFPQZAns95ZQGYCB0AAAAAAD+////AQoAAAAAAAAAIgAg\
    d4n0jft8Y/KycXvmgf7GAN22nACu/VOlhyJhaRLLG0kAAAAAAAEBKwoAAAAAAAAAIgAgi1nX6cHE+24WT77w00EH\
    GPEq4TnMOPGT4qCxj483zi0iAgJyKfR1KuG6S3We92lS8MjfQNGjlqTHk2N1144OIPn5U0ICcin0dSrhukt1nvdp\
    UvDI30DRo5akx5NjddeODiD5+VN5jqiDiyoxXOPEC/ml29KVx/QECMClsVDBh2ltyaV9xgEBAwQBAAAAAQUjIQJy\
    KfR1KuG6S3We92lS8MjfQNGjlqTHk2N1144OIPn5U6wAAA==\n";

const UNSIGNED: &[u8] = b"\
    cHNidP8BAF4CAAAAAUvUeTgBNa8u5cxrXIp+KepvtYEyFPQZAns95ZQGYCB0AAAAAAD+////AQoAAAAAAAAAIgAg\
    d4n0jft8Y/KycXvmgf7GAN22nACu/VOlhyJhaRLLG0kAAAAAAAEBKwoAAAAAAAAAIgAgi1nX6cHE+24WT77w00EH\
    GPEq4TnMOPGT4qCxj483zi0BAwQBAAAAAQUjIQJyKfR1KuG6S3We92lS8MjfQNGjlqTHk2N1144OIPn5U6wAAA==\n";

// What the signed one says, and so do both together.
const SHOWN: &[u8] = b"\
    tx 02000000014bd479380135af2ee5cc6b5c8a7e29ea6fb5813214f419027b3de594066020740000000000feffffff010a00000000000\
    0002200207789f48dfb7c63f2b2717be681fec600ddb69c00aefd53a58722616912cb1b4900000000\n\
    input 0 spent 10 00208b59d7e9c1c4fb6e164fbef0d3410718f12ae139cc38f193e2a0b18f8f37ce2d\n\
    input 0 signature 027229f4752ae1ba4b759ef76952f0c8df40d1a396a4c7936375d78e0e20f9f953 027229f4752ae1ba4b759ef76\
    952f0c8df40d1a396a4c7936375d78e0e20f9f953798ea8838b2a315ce3c40bf9a5dbd295c7f40408c0a5b150c187696dc9a57dc601\n\
    input 0 all\n\
    input 0 script 21027229f4752ae1ba4b759ef76952f0c8df40d1a396a4c7936375d78e0e20f9f953ac\n\
";

const NO_TRANSACTIONS: &[u8] = b"zz\n02000000\n";

// Of the contract's two transactions none is named, and no signature is missing.
const AUDITED: &[u8] = b"\
line 1 nothex
line 2 bad 4
absent init
absent r.0
";

const MADE: &[u8] = b"\
events 311
steps 609
deposits 302
contracts 0
value 1001000000
";

fn all_files(alloc: Global) -> Result<MemFiles, Fail> {
    let list: [(&str, &[u8]); 8] = [
        ("contract", CONTRACT),
        ("none", NO_EVENTS),
        ("advertised", ADVERTISED),
        ("run", SIGNED_RUN),
        ("rules", RULES),
        ("signed", SIGNED),
        ("unsigned", UNSIGNED),
        ("lines", NO_TRANSACTIONS),
    ];
    files_of(alloc, &list)
}

// Whether a call ends with the status 0 and this text.
fn answers(alloc: Global, line: &str, text: &[u8]) -> Result<bool, Fail> {
    let mut files = all_files(alloc)?;
    let mut out = MemSink::new(alloc, 1024, None)?;
    let status = status_of(alloc, Sha, line, &mut files, &mut out)?;
    Ok(status == 0 && out.written() == text)
}

#[test]
fn each_command_answers(rt: HostRuntime) -> Result<(), Fail> {
    let cases: [(&str, &[u8]); 10] = [
        ("check contract", ACCEPTED),
        (
            "play none",
            b"start #0 A 10\nend\ntip 0\nlive #0 10\ntime 0\ndeposit #0 A 10\n",
        ),
        ("plan none contract", b"contract 0 not compiled\n"),
        (
            "weigh none contract",
            b"{\"contract\":0,\"transactions\":[]}\n",
        ),
        ("make 7 1", MADE),
        ("auto advertised contract rules", SIGNED_RUN),
        ("psbt run contract init", SIGNED),
        ("psbt signed", SHOWN),
        ("psbt unsigned signed", SHOWN),
        ("audit run contract lines", AUDITED),
    ];
    for (line, text) in cases {
        assert!(rt; answers(rt.alloc(), line, text)?, "{line}");
    }
    Ok(())
}
