//! The hash of a command in logs of version 7.
ghost use Rattle.std.specs.Prelude.{◌≡◌, ◌+◌, ◌<◌, ◌≤◌, ◌/◌, ◌^◌, ◌*◌, length};
ghost use Rattle.nl_fields.specs.{CommandHash.{xor}, RapidHash.{folded, wide_at, narrow_at, with_sixteen, with_first, with_last, over_bytes, end_first, end_last, begun, rapid_hash_of}};

const SEED: u64 = 0xbdd8_9aa9_8270_4029;

const SECRET_0: u64 = 0x2d35_8dcc_aa6c_78a5;

const SECRET_1: u64 = 0x8bb8_4b93_962e_acc9;

const SECRET_2: u64 = 0x4b33_a62e_d433_d4a3;

fn joined(a: u64, b: u64) -> u64
    ensures { result ≡ xor a b }
{
    a ^ b
}

fn folded(x: u64, y: u64) -> u64
    ensures { result ≡ folded x y }
{
    let (low, high) = x.carrying_mul(y, 0);
    joined(low, high)
}

fn wide_at(bytes: &[u8], at: usize) -> u64
    requires { at + 8 ≤ length bytes.now }
    ensures { result ≡ wide_at at bytes.now }
{
    u64::from_le_bytes(bytes[at..at + 8].try_into().unwrap())
}

fn narrow_at(bytes: &[u8], at: usize) -> u32
    requires { at + 4 ≤ length bytes.now }
    ensures { result ≡ narrow_at at bytes.now }
{
    u32::from_le_bytes(bytes[at..at + 4].try_into().unwrap())
}

// Two numbers of 4 bytes as one, the first as its upper half.
fn narrow_pair(bytes: &[u8], at: usize, then: usize) -> u64
    requires first { at + 4 ≤ length bytes.now }
    requires second { then + 4 ≤ length bytes.now }
    ensures { result ≡ narrow_at at bytes.now * 2 ^ 32 + narrow_at then bytes.now }
{
    u64::from(narrow_at(bytes, at)) * (1 << 32) + u64::from(narrow_at(bytes, then))
}

fn with_sixteen(secret: u64, at: usize, hash: u64, bytes: &[u8]) -> u64
    requires { at + 16 ≤ length bytes.now }
    ensures { result ≡ with_sixteen secret at hash bytes.now }
{
    folded(
        joined(wide_at(bytes, at), secret),
        joined(wide_at(bytes, at + 8), hash),
    )
}

fn with_rest(hash: u64, rest: &[u8]) -> u64
    ensures { result ≡ with_last (with_first hash rest.now) rest.now }
{
    if rest.len() <= 16 {
        return hash;
    }
    let first = with_sixteen(SECRET_2, 0, joined(hash, SECRET_1), rest);
    if rest.len() > 32 {
        with_sixteen(SECRET_2, 16, first, rest)
    } else {
        first
    }
}

fn over_bytes(hash: u64, bytes: &[u8]) -> u64
    ensures { result ≡ over_bytes hash bytes.now }
{
    if bytes.len() <= 48 {
        return with_rest(hash, bytes);
    }
    let (groups, rest) = bytes.as_chunks::<48>();
    let mut first = hash;
    let mut second = hash;
    let mut third = hash;
    for group in groups {
        first = with_sixteen(SECRET_0, 0, first, group);
        second = with_sixteen(SECRET_1, 16, second, group);
        third = with_sixteen(SECRET_2, 32, third, group);
    }
    with_rest(joined(joined(first, second), third), rest)
}

// The two numbers of the end.
fn ends(bytes: &[u8]) -> (u64, u64)
    ensures first { result.0 ≡ end_first bytes.now }
    ensures last { result.1 ≡ end_last bytes.now }
{
    let len = bytes.len();
    if len > 16 {
        (wide_at(bytes, len - 16), wide_at(bytes, len - 8))
    } else if len > 3 {
        let inset = if len < 8 { 0 } else { 4 };
        let last = narrow_pair(bytes, inset, len - 4 - inset);
        (narrow_pair(bytes, 0, len - 4), last)
    } else if len > 0 {
        let first = u64::from(bytes[0]);
        let middle = u64::from(bytes[len / 2]);
        let last = u64::from(bytes[len - 1]);
        (first * (1 << 56) + middle * (1 << 32) + last, 0)
    } else {
        (0, 0)
    }
}

/// The hash of a command in logs of version 7: rapidhash, in its first version, with its own seed and secret.
pub fn command_hash_v7(command: &[u8]) -> u64
    ensures value { result ≡ rapid_hash_of command.now }
{
    let len = command.len() as u64;
    let begun = joined(joined(SEED, folded(joined(SEED, SECRET_0), SECRET_1)), len);
    let hash = over_bytes(begun, command);
    let (first, last) = ends(command);
    let (low, high) = joined(first, SECRET_1).carrying_mul(joined(last, hash), 0);
    folded(joined(joined(low, SECRET_0), len), joined(high, SECRET_1))
}
