//! Numbers in bytes.

use byte_numbers::{le16_at, le32_at, le64_at};

#[test]
fn reads_numbers(rt: HostRuntime) {
    let bytes = [0, 1, 2, 3, 4, 5, 6, 7, 8];
    assert_eq!(rt; le16_at(&bytes, 1), 0x0201);
    assert_eq!(rt; le32_at(&bytes, 1), 0x0403_0201);
    assert_eq!(rt; le64_at(&bytes, 1), 0x0807_0605_0403_0201);
}
