//! The hash of a command.
ghost use Rattle.std.specs.Prelude.{◌≡◌, ◌<◌, ◌-◌, ◌++◌, length, replicate};
ghost use Rattle.nl_fields.specs.CommandHash.{IsHash, hash_of, times, mixed};

const SEED: u64 = 0xDECA_FBAD_DECA_FBAD;

const MULTIPLIER: u64 = 0xc6a4_a793_5bd1_e995;

fn times(n: u64) -> u64
    ensures { result ≡ times n }
{
    n.wrapping_mul(MULTIPLIER)
}

fn mixed(n: u64) -> u64
    ensures { result ≡ mixed n }
{
    n ^ (n >> 47)
}

fn padded(rest: &[u8]) -> [u8; 8]
    requires { length rest.now < 8 }
    ensures { result ≡ rest.now ++ replicate (8 - length rest.now) 0 }
{
    let mut group = [0; 8];
    group[..rest.len()].copy_from_slice(rest);
    group
}

/// MurmurHash64A of the command's bytes.
pub fn command_hash(command: &[u8]) -> u64
    ensures value { result ≡ hash_of command.now }
    ensures hash { IsHash command.now result }
{
    let (groups, rest) = command.as_chunks::<8>();
    let mut hash = SEED ^ times(command.len() as u64);
    for group in groups {
        hash = times(hash ^ times(mixed(times(u64::from_le_bytes(*group)))));
    }
    if !rest.is_empty() {
        hash = times(hash ^ u64::from_le_bytes(padded(rest)));
    }
    mixed(times(mixed(hash)))
}
