// Spellings that are known from elsewhere, written.

use leb_binary::{put_s32, put_s33, put_s64, put_u32};
use std::test::Fail;

#[test]
fn writes_shortest(rt: HostRuntime) -> Result<(), Fail> {
    let mut out = Vec::new(rt.alloc());
    put_u32(&mut out, 624_485)?;
    put_u32(&mut out, u32::MAX)?;
    put_s32(&mut out, -123_456)?;
    put_s33(&mut out, 4_294_967_295)?;
    put_s64(&mut out, 64)?;
    let want = [
        0xE5, 0x8E, 0x26, 0xFF, 0xFF, 0xFF, 0xFF, 0x0F, 0xC0, 0xBB, 0x78, 0xFF, 0xFF, 0xFF, 0xFF,
        0x0F, 0xC0, 0x00,
    ];
    assert_eq!(rt; out.as_slice(), want.as_slice());
    Ok(())
}
