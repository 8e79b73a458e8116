//! A script is written, read and run.

use bm_hash::Sha;
use bm_interp::{SigCheck, eval};
use bm_ops::{Op, decode_script, encode_script, item_of, push_number};
use std::test::Fail;

struct Never;

impl SigCheck for Never {
    ghost use Rattle.std.specs.Prelude.{false};

    ghost valid = { λ c signature key. false };

    fn check(&self, _signature: &[u8], _key: &[u8]) -> bool {
        false
    }
}

#[test]
fn a_script_is_written_read_and_run(rt: HostRuntime) -> Result<(), Fail> {
    let alloc = rt.alloc();
    // 521 pushed by its shortest item, and by bytes; NUMEQUAL.
    let item = item_of(alloc, 521)?;
    assert!(rt; item.as_slice() == [9, 2].as_slice());
    let ops = [push_number(alloc, 521)?, Op::Push(item), Op::Code(0x9c)];
    let script = encode_script(alloc, &ops)?;
    assert!(rt; script.as_slice() == [2, 9, 2, 2, 9, 2, 0x9c].as_slice());
    let read = decode_script(alloc, &script).map_err(|_| "no script")?;
    assert_eq!(rt; read.len(), 3);
    assert!(rt; eval(alloc, &Sha, &script, &[], &Never)?);
    Ok(())
}
