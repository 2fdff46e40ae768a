//! Numbers of 16, 32 and 64 bits, read and put.
ghost use Rattle.std.specs.Prelude.{◌≡◌, ◌+◌, ◌*◌, ◌^◌, ◌<◌, ◌≤◌, length, All};
ghost use Rattle.qx_fields.specs.Number.{field, fields, put_field, put_fields};

use crate::Order;
use byteorder::{BigEndian, ByteOrder, LittleEndian};

/// The number of 2 bytes at a place.
#[tactic(auto, unfolding(crate::specs::Number::field))]
pub fn get16(order: Order, bytes: &[u8], at: usize) -> u16
    requires { at + 2 ≤ length bytes.now }
    ensures { result ≡ field order 2 bytes.now at }
{
    let part = &bytes[at..at + 2];
    match order {
        Order::Little => LittleEndian::read_u16(part),
        Order::Big => BigEndian::read_u16(part),
    }
}

/// The number of 4 bytes at a place.
#[tactic(auto, unfolding(crate::specs::Number::field))]
pub fn get32(order: Order, bytes: &[u8], at: usize) -> u32
    requires { at + 4 ≤ length bytes.now }
    ensures { result ≡ field order 4 bytes.now at }
{
    let part = &bytes[at..at + 4];
    match order {
        Order::Little => LittleEndian::read_u32(part),
        Order::Big => BigEndian::read_u32(part),
    }
}

/// The number of 8 bytes at a place.
#[tactic(auto, unfolding(crate::specs::Number::field))]
pub fn get64(order: Order, bytes: &[u8], at: usize) -> u64
    requires { at + 8 ≤ length bytes.now }
    ensures { result ≡ field order 8 bytes.now at }
{
    let part = &bytes[at..at + 8];
    match order {
        Order::Little => LittleEndian::read_u64(part),
        Order::Big => BigEndian::read_u64(part),
    }
}

/// Fills a slice with the numbers of 4 bytes each that stand one after another from a place on.
pub fn get32s(order: Order, bytes: &[u8], at: usize, into: &mut [u32])
    requires { at + 4 * length into.old ≤ length bytes.now }
    ensures { into.new ≡ fields order 4 (length into.old) bytes.now at }
{
    let part = &bytes[at..at + 4 * into.len()];
    match order {
        Order::Little => LittleEndian::read_u32_into(part, into),
        Order::Big => BigEndian::read_u32_into(part, into),
    }
}

/// Puts a number of 2 bytes at a place.
#[tactic(auto, unfolding(crate::specs::Number::put_field))]
pub fn put16(order: Order, into: &mut [u8], at: usize, value: u16)
    requires { at + 2 ≤ length into.old }
    ensures { into.new ≡ put_field order 2 into.old at value }
{
    let part = &mut into[at..at + 2];
    match order {
        Order::Little => LittleEndian::write_u16(part, value),
        Order::Big => BigEndian::write_u16(part, value),
    }
}

/// Puts a number of 4 bytes at a place.
#[tactic(auto, unfolding(crate::specs::Number::put_field))]
pub fn put32(order: Order, into: &mut [u8], at: usize, value: u32)
    requires { at + 4 ≤ length into.old }
    ensures { into.new ≡ put_field order 4 into.old at value }
{
    let part = &mut into[at..at + 4];
    match order {
        Order::Little => LittleEndian::write_u32(part, value),
        Order::Big => BigEndian::write_u32(part, value),
    }
}

/// Puts a number of 8 bytes at a place.
#[tactic(auto, unfolding(crate::specs::Number::put_field))]
pub fn put64(order: Order, into: &mut [u8], at: usize, value: u64)
    requires { at + 8 ≤ length into.old }
    ensures { into.new ≡ put_field order 8 into.old at value }
{
    let part = &mut into[at..at + 8];
    match order {
        Order::Little => LittleEndian::write_u64(part, value),
        Order::Big => BigEndian::write_u64(part, value),
    }
}

/// Puts the numbers of a slice, of 4 bytes each, one after another from a place on.
#[tactic(auto, unfolding(crate::specs::Number::put_fields))]
pub fn put32s(order: Order, into: &mut [u8], at: usize, values: &[u32])
    requires { at + 4 * length values.now ≤ length into.old }
    ensures bytes { into.new ≡ put_fields order 4 into.old at values.now }

    // A caller knows no range of a whole slice, and needs it to say that the numbers are read back.
    ensures fit { All (λ value. value < 256 ^ 4) values.now }
{
    let part = &mut into[at..at + 4 * values.len()];
    match order {
        Order::Little => LittleEndian::write_u32_into(values, part),
        Order::Big => BigEndian::write_u32_into(values, part),
    }
}

#[cfg(test)]
mod tests {
    use super::*;

    /// The magic of a superblock as its two orders show it, and a number of 8 bytes.
    #[test]
    fn bytes_stand_in_the_order_that_was_asked(rt: HostRuntime) {
        let cases = [
            (
                Order::Little,
                [0x22, 0x11, 0x19, 0x68, 0xEF, 0xCD, 0xAB, 0x89],
            ),
            (Order::Big, [0x68, 0x19, 0x11, 0x22, 0x89, 0xAB, 0xCD, 0xEF]),
        ];
        for (order, bytes) in cases {
            assert_eq!(rt; get32(order, &bytes, 0), 0x6819_1122, "{order:?}");
            assert_eq!(rt; get32(order, &bytes, 4), 0x89AB_CDEF, "{order:?}");
            let mut copy = [0xFF; 8];
            put32(order, &mut copy, 0, 0x6819_1122);
            put32(order, &mut copy, 4, 0x89AB_CDEF);
            assert_eq!(rt; copy, bytes, "{order:?}");
            let mut copy = [0xFF; 8];
            put32s(order, &mut copy, 0, &[0x6819_1122, 0x89AB_CDEF]);
            assert_eq!(rt; copy, bytes, "{order:?}");
        }
        let little = [0xFF, 0x08, 0x07, 0x06, 0x05, 0x04, 0x03, 0x02, 0x01];
        assert_eq!(rt; get64(Order::Little, &little, 1), 0x0102_0304_0506_0708);
        assert_eq!(rt; get64(Order::Big, &little, 1), 0x0807_0605_0403_0201);
        assert_eq!(rt; get16(Order::Little, &little, 0), 0x08FF);
        assert_eq!(rt; get16(Order::Big, &little, 0), 0xFF08);
        let mut copy = [0xFF; 9];
        put64(Order::Little, &mut copy, 1, 0x0102_0304_0506_0708);
        assert_eq!(rt; copy, little);
        put16(Order::Big, &mut copy, 7, 0x1234);
        assert_eq!(rt;
            copy,
            [0xFF, 0x08, 0x07, 0x06, 0x05, 0x04, 0x03, 0x12, 0x34]
        );
        put16(Order::Little, &mut copy, 7, 0x1234);
        put64(Order::Big, &mut copy, 0, 0xFF08_0706_0504_0334);
        assert_eq!(rt;
            copy,
            [0xFF, 0x08, 0x07, 0x06, 0x05, 0x04, 0x03, 0x34, 0x12]
        );
    }
}
