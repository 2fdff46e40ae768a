//! Worked checksums.

use qx_super::checksum;

/// The format's three worked values, and the check value of CRC-32/CKSUM without its last complement.
#[test]
fn bytes_have_the_checksums_that_others_give(rt: HostRuntime) {
    for (last, want) in [(0, 0), (1, 0x04C1_1DB7), (2, 0x0982_3B6E)] {
        let mut bytes = [0; 504];
        bytes[503] = last;
        assert_eq!(rt; checksum(&bytes), want, "503 bytes 0 and {last}");
    }
    assert_eq!(rt; checksum(b"123456789"), 0x89A1_897F);
}
