// Records that are damaged, and sheets that are.
use crate::chance::Chance;
use std::alloc::AllocError;

// Where a record is damaged: data, since the kinds of cases are constants and those can hold no closure.
#[derive(Clone, Copy, PartialEq, Eq, Debug)]
pub enum Damage {
    // Nowhere.
    Nowhere,
    // Cut off somewhere, often within the first six bytes.
    Cut,
    // More bytes at the end.
    Longer,
    // Any value in the field, of these four.
    Last,
    Slope,
    Slack,
    Height,
    // A bit after the last height.
    Pad,
    // Some bytes changed.
    Bytes,
    // All bytes changed, but in half of the cases the first six.
    All,
}

// A height that is out of range, a mark, at an edge, or near another one.
pub fn draw_odd_height(chance: &mut Chance, height: i64) -> i64 {
    match chance.below(10) {
        0 => 20_001,
        1 => -20_001,
        2 => -32_768,
        3 => -32_767,
        4 => 20_000,
        5 => -20_000,
        6 => 32_767,
        7 => i64::from(chance.swing(20_000)),
        _ => height.wrapping_add(i64::from(chance.swing(300))),
    }
}

// Sets bit i, the most significant bit of the first byte first.
fn set_bit(bytes: &mut [u8], i: usize, one: bool) {
    if let Some(byte) = bytes.get_mut(i / 8) {
        let mask = 128u8 >> (i % 8);
        *byte = if one { *byte | mask } else { *byte & !mask };
    }
}

// Sets the bits of a field to a value.
fn set_field(bytes: &mut [u8], from: usize, width: u32, value: u32) {
    for (k, i) in (0..width).rev().zip(from..) {
        set_bit(bytes, i, value.wrapping_shr(k) & 1 == 1);
    }
}

// Changes some bytes.
fn change_bytes(chance: &mut Chance, bytes: &mut [u8], changes: u16) {
    for _ in 0..changes {
        let place = chance.below(u32::try_from(bytes.len()).unwrap_or(0)) as usize;
        if let Some(byte) = bytes.get_mut(place) {
            *byte = chance.byte();
        }
    }
}

// Changes every byte from a place on.
fn change_all(chance: &mut Chance, bytes: &mut [u8], from: usize) {
    for byte in bytes.iter_mut().skip(from) {
        *byte = chance.byte();
    }
}

// Adds some bytes, half of the time 0.
fn lengthen(chance: &mut Chance, bytes: &mut Vec<u8>) -> Result<(), AllocError> {
    let count = chance.between(1, 5);
    bytes.extend((0..count).map(|_| if chance.once_in(2) { 0 } else { chance.byte() }))
}

// Cuts a record off.
fn shorten(chance: &mut Chance, bytes: &mut Vec<u8>) {
    let most = if chance.once_in(2) {
        8
    } else {
        u32::try_from(bytes.len()).unwrap_or(0)
    };
    bytes.truncate(chance.below(most) as usize);
}

// Sets the height of some position to an odd one, as its 16 bits.
fn spoil_height(chance: &mut Chance, bytes: &mut [u8]) {
    let count = u32::try_from(bytes.len().saturating_sub(6) / 2).unwrap_or(0);
    let at = 44usize.wrapping_add(16usize.wrapping_mul(chance.below(count) as usize));
    let height = naive::bits::height(bytes, at);
    let odd = draw_odd_height(chance, height)
        .wrapping_add(65_536)
        .checked_rem(65_536);
    set_field(bytes, at, 16, u32::try_from(odd.unwrap_or(0)).unwrap_or(0));
}

// Damages a record.
pub fn spoil(chance: &mut Chance, damage: Damage, bytes: &mut Vec<u8>) -> Result<(), AllocError> {
    match damage {
        Damage::Nowhere => {}
        Damage::Cut => shorten(chance, bytes),
        Damage::Longer => lengthen(chance, bytes)?,
        Damage::Last => set_field(bytes, 0, 12, chance.about(4_000)),
        Damage::Slope => set_field(bytes, 12, 16, chance.about(40_000)),
        Damage::Slack => set_field(bytes, 28, 16, chance.about(40_000)),
        Damage::Height => spoil_height(chance, bytes),
        Damage::Pad => {
            let pad = bytes.len().wrapping_mul(8).wrapping_sub(1);
            set_bit(bytes, pad.wrapping_sub(chance.below(4) as usize), true);
        }
        Damage::Bytes => {
            let changes = chance.between(1, 3);
            change_bytes(chance, bytes, changes);
        }
        Damage::All => {
            let from = if chance.once_in(2) { 0 } else { 6 };
            change_all(chance, bytes, from);
        }
    }
    Ok(())
}
