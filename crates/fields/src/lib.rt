// Fields of bits, packed one after another, most significant bit first.
#![tactic(auto)]

ghost use Rattle.std.specs.Prelude.{◌≡◌, ℕ, ◌+◌, ◌-◌, ◌*◌, ◌/◌, ◌%◌, ◌^◌, ◌<◌, ◌≤◌, length, pos, slice_index, slice_set};
ghost use Rattle.fields.specs.Bits.{bit, field_of, stamped, signed_of, complement_of, Stored, Packing};

// Where a field lies: its first bit, and how many bits it has.
#[derive(Clone, Copy)]
pub struct Field {
    pub at: usize,
    pub width: usize,
    ghost some: { 0 < width },
    ghost narrow: { width ≤ 32 },
    ghost near: { at < 2 ^ 60 },
}

impl Field {
    // The number that the bits of the field write.
    pub fn read(self, bytes: &[u8]) -> u32
        requires { (self.width ≤ 17) × (self.at + self.width ≤ 8 * length bytes.now) }
        ensures { (result ≡ field_of bytes.now self.at self.width) × (result < 2 ^ self.width) }
    {
        let start = self.at / 8;
        let offset = self.at % 8;
        let count = (offset + self.width).div_ceil(8);
        let whole = whole_bytes(&bytes[start..start + count]);
        (whole >> (8 * count - offset - self.width)) & ((1 << self.width) - 1)
    }

    // The number that the bits of the field write in two's complement.
    pub fn read_signed(self, bytes: &[u8]) -> i32
        requires { (self.width ≤ 17) × (self.at + self.width ≤ 8 * length bytes.now) }
        ensures { result ≡ signed_of self.width (field_of bytes.now self.at self.width) }
    {
        let raw = self.read(bytes) as i32;
        if raw < power(self.width - 1) {
            raw
        } else {
            raw - power(self.width)
        }
    }

    // Writes `value` in the bits of the field, and 0 bits up to the end of the last byte that it writes.
    pub fn put(self, buf: &mut [u8], value: u32)
        requires { (self.at + self.width ≤ 8 * length buf.old) × (value < 2 ^ self.width) }
        ensures stored { Stored buf.old buf.new self.at self.width value }
        ensures packing { Packing }
    {
        for k in 0..self.width {
            put_bit(buf, self.at + k, bit_of(value, self.width, k));
        }
    }

    // Writes `value` in two's complement, as `put` does.
    pub fn put_signed(self, buf: &mut [u8], value: i32)
        requires { (self.width ≤ 17) × (self.at + self.width ≤ 8 * length buf.old) }
        ensures { Stored buf.old buf.new self.at self.width (complement_of self.width value) }
    {
        self.put(buf, complement(value, self.width));
    }
}

// The bytes as one number, the first byte highest.
fn whole_bytes(bytes: &[u8]) -> u32
    requires { length bytes.now ≤ 4 }
    ensures { result ≡ field_of bytes.now 0 (8 * length bytes.now) }
{
    bytes
        .iter()
        .fold(0, |whole, byte| whole << 8 | u32::from(*byte))
}

// The byte with its first `place` bits as they are, then the bit `one`, then 0 bits.
fn stamp(byte: u8, place: usize, one: u32) -> u8
    requires { (place < 8) × (one < 2) }
    ensures { result ≡ stamped byte place one }
{
    let kept = u32::from(byte) >> (8 - place);
    ((kept * 2 + one) << (7 - place)) as u8
}

// Bit k of the low `width` bits of `value`, most significant bit first.
fn bit_of(value: u32, width: usize, k: usize) -> u32
    requires { (k < width) × (width ≤ 32) }
    ensures is { result ≡ value / 2 ^ (width - 1 - k) % 2 }
    ensures bit { result < 2 }
{
    (value >> (width - 1 - k)) % 2
}

// Writes one bit at the bit `at`, and 0 bits up to the end of its byte.
fn put_bit(buf: &mut [u8], at: usize, one: u32)
    requires { (at < 8 * length buf.old) × (one < 2) }
    ensures { buf.new ≡ slice_set buf.old (at / 8) (stamped (slice_index buf.old (at / 8)) (at % 8) one) }
{
    buf[at / 8] = stamp(buf[at / 8], at % 8, one);
}

// How many numbers have `width` bits.
fn power(width: usize) -> i32
    requires { width ≤ 17 }
    ensures { (result ≡ pos (2 ^ width)) × (2 ^ width ≤ 131072) }
{
    1 << width
}

// The bits of `value` in two's complement.
fn complement(value: i32, width: usize) -> u32
    requires { width ≤ 17 }
    ensures { (result ≡ complement_of width value) × (result < 2 ^ width) }
{
    value.rem_euclid(power(width)) as u32
}
