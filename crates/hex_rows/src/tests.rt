use crate::{RowFault, bytes_of};
use std::test::Fail;

#[test]
fn a_row_is_read_without_its_spaces(rt: HostRuntime) -> Result<(), Fail> {
    let bytes = bytes_of(rt.alloc(), "80 00 0001  dEaD")?;
    assert_eq!(rt; bytes.as_slice(), [0x80, 0, 0, 1, 0xde, 0xad].as_slice());
    assert_eq!(rt; bytes_of(rt.alloc(), "")?.len(), 0);
    assert!(rt; matches!(bytes_of(rt.alloc(), "80 0"), Err(RowFault::NotHex)));
    assert!(rt; matches!(bytes_of(rt.alloc(), "8x"), Err(RowFault::NotHex)));
    Ok(())
}
