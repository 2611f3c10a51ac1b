//! A stream that fails.

use cmm_outside::MemSink;
use cmm_report::put_kind;
use std::test::Fail;

/// The second write of a kind fails: what came before it stays.
#[test]
fn a_failed_write_is_answered(rt: HostRuntime) -> Result<(), Fail> {
    let mut sink = MemSink::new(rt.alloc(), 64, [1u64].to_vec(rt.alloc())?)?;
    assert!(rt; put_kind(&mut sink, b"ab").is_err());
    assert_eq!(rt; sink.bytes(), b"a".as_slice());
    Ok(())
}
