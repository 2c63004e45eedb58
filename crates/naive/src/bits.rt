// Numbers bit by bit, the most significant bit of the first byte first.
use crate::terms::Denial;
use std::alloc::{AllocError, Global};

// Bit i of some bytes; 0 beyond them.
pub fn bit(bytes: &[u8], i: usize) -> u8 {
    let below = 7 - i % 8;
    bytes.get(i / 8).map_or(0, |byte| (*byte >> below) & 1)
}

// A number with one more bit at its end.
fn with_bit(value: i64, bit: u8) -> i64 {
    value.wrapping_mul(2).wrapping_add(i64::from(bit))
}

// The number that the bits from one place on say.
pub fn number(bytes: &[u8], from: usize, width: usize) -> i64 {
    (from..from.saturating_add(width)).fold(0, |value, i| with_bit(value, bit(bytes, i)))
}

// The same in two's complement of 16 bits: the first bit counts −32,768 and not 32,768.
pub fn height(bytes: &[u8], from: usize) -> i64 {
    let value = number(bytes, from, 16);
    if bit(bytes, from) == 1 {
        value.wrapping_sub(65_536)
    } else {
        value
    }
}

// Adds a number of some bits at the end, in two's complement where it is negative.
pub fn push_number(bits: &mut Vec<bool>, value: i64, width: u32) -> Result<(), AllocError> {
    bits.extend((0..width).rev().map(|k| value.wrapping_shr(k) & 1 == 1))
}

// The byte of up to eight bits, 0 bits filling it up.
fn byte(bits: &[bool]) -> u8 {
    (0..8).fold(0, |value: u8, k| {
        let one = bits.get(k).copied().unwrap_or(false);
        value.wrapping_mul(2).wrapping_add(u8::from(one))
    })
}

// The bytes of some bits.
pub fn bytes_of(heap: Global, bits: &[bool]) -> Result<Vec<u8>, AllocError> {
    bits.chunks(8).map(byte).collect(heap)
}

// Puts the bytes to the front of a buffer and answers how many; 21 where it is too short, and then it is left as it was.
pub fn put_front(buffer: &mut [u8], bytes: &[u8]) -> Result<u64, Denial> {
    let length = bytes.len();
    if buffer.len() < length {
        return Err(Denial::bare(21));
    }
    buffer[..length].copy_from_slice(bytes);
    Ok(length as u64)
}
