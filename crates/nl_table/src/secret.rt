//! The hash of a name, which has a secret: two numbers that whoever chooses names doesn't know.
ghost use Rattle.std.specs.{Prelude.{◌≡◌, ◌+◌, ◌≤◌, length}, Hash.FoldHasher.{folded_multiply, read_short, read_u32, read_u64}};
ghost use Rattle.nl_table.specs.Hash.{mixed, hashed};

use std::hash::{BuildHasher, Hasher};

/// The hasher of names too: std's `FoldHasher`, but with both numbers of each multiplication joined with a part of the secret.
#[derive(Clone, Copy)]
pub struct Secret {
    state: u64,
    factor: u64,
}

/// For a caller without random numbers: whoever knows this program can then choose names of one hash.
pub const NO_SECRET: Secret = Secret {
    state: 0x243f_6a88_85a3_08d3,
    factor: 0x9e37_79b9_7f4a_7c15,
};

impl Secret {
    /// Of two random numbers.
    pub fn of(key0: u64, key1: u64) -> Secret {
        Secret {
            state: key0 ^ NO_SECRET.state,
            factor: key1 ^ NO_SECRET.factor,
        }
    }
}

impl BuildHasher for Secret {
    type Hasher = Secret;

    ghost build_hasher = { λ secret. secret };

    fn build_hasher(&self) -> Secret {
        *self
    }
}

impl Hasher for Secret {
    ghost write = { hashed };

    ghost finish = { λ secret. secret.state };

    fn finish(&self) -> u64 {
        self.state
    }

    // The length is multiplied by what nobody knows, because otherwise names of two lengths could be chosen to have one hash.
    fn write(&mut self, bytes: &[u8]) {
        let len = bytes.len();
        let factor = self.factor;
        let mut state = self.state.wrapping_add(factor.wrapping_mul(len as u64));
        if len <= 8 {
            self.state = folded_multiply(state ^ read_short(bytes), factor);
            return;
        }
        let mut at = 0;
        while len - at > 16 {
            state = mix(bytes, state, factor, at, at + 8);
            at += 16;
        }
        self.state = mix(bytes, state, factor, len.saturating_sub(16), len - 8);
    }
}

#[inline(always)]
fn mix(bytes: &[u8], state: u64, factor: u64, at: usize, then: usize) -> u64
    requires first { at + 8 ≤ length bytes.now }
    requires second { then + 8 ≤ length bytes.now }
    ensures { result ≡ mixed bytes.now factor state at then }
{
    folded_multiply(read_u64(bytes, at) ^ state, read_u64(bytes, then) ^ factor)
}

// The two halves of the 128 bits of a product, joined.
#[inline(always)]
fn folded_multiply(a: u64, b: u64) -> u64
    ensures { result ≡ folded_multiply a b }
{
    let product = a as u128 * b as u128;
    (product & 0xFFFF_FFFF_FFFF_FFFF) as u64 ^ (product >> 64) as u64
}

#[inline(always)]
fn read_u32(bytes: &[u8], at: usize) -> u64
    requires { at + 4 ≤ length bytes.now }
    ensures { result ≡ read_u32 bytes.now at }
{
    u32::from_le_bytes([bytes[at], bytes[at + 1], bytes[at + 2], bytes[at + 3]]) as u64
}

#[inline(always)]
fn read_u64(bytes: &[u8], at: usize) -> u64
    requires { at + 8 ≤ length bytes.now }
    ensures { result ≡ read_u64 bytes.now at }
{
    read_u32(bytes, at) | read_u32(bytes, at + 4) << 32
}

// Up to 8 bytes as one number, by reads that may overlap.
#[inline(always)]
fn read_short(bytes: &[u8]) -> u64
    ensures { result ≡ read_short bytes.now }
{
    let len = bytes.len();
    if len >= 4 {
        read_u32(bytes, 0) | read_u32(bytes, len - 4) << 32
    } else if len > 0 {
        bytes[0] as u64 | (bytes[len / 2] as u64) << 8 | (bytes[len - 1] as u64) << 16
    } else {
        0
    }
}
