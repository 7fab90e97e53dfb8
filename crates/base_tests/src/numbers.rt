//! Big-endian numbers in bytes.

use byte_numbers::{be16_at, be32_at};

#[test]
fn reads_numbers(rt: HostRuntime) {
    let bytes = [0, 1, 2, 3, 4];
    assert_eq!(rt; be16_at(&bytes, 1), 0x0102);
    assert_eq!(rt; be32_at(&bytes, 1), 0x0102_0304);
}
