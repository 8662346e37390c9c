//! Names of outputs.
ghost use Rattle.std.specs.Prelude.{◌≡◌, ◌≢◌, ◌↔◌, ◌++◌, ◌∷◌, List, ℕ, IsOk, IfOk, IfErr, IfSome, IsSome, IsNone, position};
ghost use Rattle.nl_fields.specs.Name.{HasFault, IsName, is_forbidden};

use crate::header::MAX_NAME;
use memchr::memchr3;
use std::alloc::{AllocError, Global};
use std::marker::Model;
use thiserror::Error;

#[derive(Clone, Copy, Debug, PartialEq, Eq, Error)]
pub enum NameFault {
    #[error("a name has at least one byte")]
    Empty,
    #[error("a name cannot have the byte at {0}")]
    BadByte(usize),
    #[error("a name has at most 65536 bytes")]
    TooLong,
    #[error("no memory for the name")]
    OutOfMemory,
}

/// The path of an output, as bytes: it needn't be UTF-8.
#[derive(Drop)]
pub struct Name {
    bytes: Vec<u8>,
}

impl Model for Name {
    ghost Value = { List ℕ };

    ghost view = { λ name. name.bytes.items };

    ghost invariant = { λ name. IsName name.bytes.items };
}

fn first_forbidden(bytes: &[u8]) -> Option<usize>
    ensures { result ≡ position is_forbidden bytes.now }
{
    memchr3(0, b'\t', b'\n', bytes)
}

/// Never want of memory, because it takes none.
pub fn name_fault(bytes: &[u8]) -> Option<NameFault>
    ensures accepts { IsNone result ↔ IsName bytes.now }
    ensures fault { IfSome result (HasFault bytes.now) }
{
    if bytes.is_empty() {
        return Some(NameFault::Empty);
    }
    if let Some(at) = first_forbidden(bytes) {
        return Some(NameFault::BadByte(at));
    }
    if bytes.len() > MAX_NAME {
        return Some(NameFault::TooLong);
    }
    None
}

#[inline(always)]
pub(crate) fn split_name(bytes: &[u8]) -> Option<(&[u8], &[u8])>
    ensures found { IfSome result (λ r. IsName r.0.now × (bytes.now ≡ r.0.now ++ 9 ∷ r.1.now)) }
    ensures accepts { (name rest : List ℕ) → IsName name → bytes.now ≡ name ++ 9 ∷ rest → IsSome result }
{
    let at = first_forbidden(bytes)?;
    if bytes[at] != b'\t' || at == 0 || at > MAX_NAME {
        return None;
    }
    Some((&bytes[..at], &bytes[at + 1..]))
}

impl Name {
    pub(crate) fn from_checked(alloc: Global, bytes: &[u8]) -> Result<Name, AllocError>
        requires { IsName bytes.now }
        ensures value { IfOk result (λ name. name ≡ bytes.now) }
    {
        let bytes = Vec::from_slice(alloc, bytes)?;
        Ok(Name { bytes })
    }

    pub fn read(alloc: Global, bytes: &[u8]) -> Result<Name, NameFault>
        ensures value { IfOk result (λ name. (name ≡ bytes.now) × IsName bytes.now) }
        ensures fault { IfErr result (HasFault bytes.now) }
    {
        if let Some(fault) = name_fault(bytes) {
            return Err(fault);
        }
        Name::from_checked(alloc, bytes).map_err(|_| NameFault::OutOfMemory)
    }

    pub fn bytes(&self) -> &[u8]
        ensures value { result.now ≡ self.now }
        ensures name { IsName self.now }
    {
        self.bytes.as_slice()
    }

    pub fn copy(&self, alloc: Global) -> Result<Name, AllocError>
        ensures value { IfOk result (λ name. name ≡ self.now) }
    {
        Name::from_checked(alloc, self.bytes())
    }

    /// It takes no memory.
    pub fn into_vec(self) -> Vec<u8>
        ensures value { result.items ≡ self }
        ensures name { IsName self }
    {
        let Name { bytes } = self;
        bytes
    }

    /// The name takes the vector's memory. A vector that is refused comes back.
    pub fn from_vec(bytes: Vec<u8>) -> Result<Name, (Vec<u8>, NameFault)>
        ensures accepts { IsOk result ↔ IsName bytes.items }
        ensures value { IfOk result (λ name. name ≡ bytes.items) }
        ensures fault { IfErr result (λ e. (e.0 ≡ bytes) × HasFault bytes.items e.1 × (e.1 ≢ NameFault.OutOfMemory)) }
    {
        match name_fault(bytes.as_slice()) {
            Some(fault) => Err((bytes, fault)),
            None => Ok(Name { bytes }),
        }
    }
}
