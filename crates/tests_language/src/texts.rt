//! Words and contracts are read and written.

use bm_lex::tokens;
use bm_print::print_advert;
use bm_reader::read_advert;
use bm_text::{put_decimal, put_hex, read_hex};
use std::test::Fail;

#[test]
fn words_are_read_and_written(rt: HostRuntime) -> Result<(), Fail> {
    let alloc = rt.alloc();
    let bytes = read_hex(alloc, b"00fFA9")?;
    let mut out = Vec::new(alloc);
    put_decimal(alloc, &mut out, 2_100)?;
    put_hex(alloc, &mut out, &bytes)?;
    assert!(rt; out.as_slice() == b"210000ffa9".as_slice());
    Ok(())
}

#[test]
fn a_contract_is_read_and_printed(rt: HostRuntime) -> Result<(), Fail> {
    let text = b"{A:! 10 @ x | A: secret a} fee 2 reveal a if |a| < 2 . withdraw A";
    let advert = read_advert(rt.alloc(), text).map_err(|_| "refused")?;
    let printed = print_advert(rt.alloc(), &advert)?;
    assert!(rt; printed.as_slice() == text.as_slice());
    assert!(rt; tokens(rt.alloc(), text).is_ok());
    Ok(())
}
