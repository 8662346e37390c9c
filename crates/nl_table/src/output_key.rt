//! The key of an output in the map: its name, which is hashed as a whole.
ghost use Rattle.std.specs.{Prelude.{◌≡◌, ◌∷◌, [], nat_eq}, Cmp.{on_per, on_equiv, partial_equiv_from_equiv}, Cmp.Lexicographic.{pointwise, bytes_decides, nat_list_eq_equiv}};
ghost use Rattle.std.proofs.Common.{ap};
ghost use Rattle.nl_table.specs.Keys.{key_bytes};

use indexmap::Equivalent;
use nl_fields::Name;
use std::hash::{Hash, Hasher};

/// A name that a table holds. A `Name` by itself has no hash.
#[derive(Drop)]
pub(crate) struct OutputKey {
    pub name: Name,
}

impl PartialEq for OutputKey {
    ghost eq = { λ x y. pointwise nat_eq (key_bytes x) (key_bytes y) };

    ghost laws = { on_per key_bytes (partial_equiv_from_equiv nat_list_eq_equiv) };

    fn eq(&self, other: &OutputKey) -> bool {
        self.name.bytes() == other.name.bytes()
    }
}

impl Eq for OutputKey {
    ghost laws = { on_equiv key_bytes nat_list_eq_equiv };
}

impl Hash for OutputKey {
    ghost hash_input = { λ key. key_bytes key ∷ [] };

    ghost respects_eq = { λ x y same. ap (λ bytes. bytes ∷ []) ((bytes_decides (key_bytes x) (key_bytes y)).0 same) };

    fn hash<H: Hasher>(&self, state: &mut H) {
        state.write(self.name.bytes());
    }
}

/// A name that is hashed as a whole. A slice is hashed byte by byte, which takes seven instructions for each.
#[derive(Clone, Copy, Drop)]
pub struct NameKey<'a> {
    pub bytes: &'a [u8],
}

impl PartialEq for NameKey<'_> {
    ghost eq = { λ x y. pointwise nat_eq x.bytes.now y.bytes.now };

    ghost laws = { on_per (λ x. x.bytes.now) (partial_equiv_from_equiv nat_list_eq_equiv) };

    fn eq(&self, other: &Self) -> bool {
        self.bytes == other.bytes
    }
}

impl Eq for NameKey<'_> {
    ghost laws = { on_equiv (λ x. x.bytes.now) nat_list_eq_equiv };
}

impl Hash for NameKey<'_> {
    ghost hash_input = { λ name. name.bytes.now ∷ [] };

    ghost respects_eq = { λ x y same. ap (λ bytes. bytes ∷ []) ((bytes_decides x.bytes.now y.bytes.now).0 same) };

    fn hash<H: Hasher>(&self, state: &mut H) {
        state.write(self.bytes);
    }
}

impl Equivalent<OutputKey> for NameKey<'_> {
    ghost equivalent = { λ name key. pointwise nat_eq name.bytes.now (key_bytes key) };

    ghost respects_hash = { λ name key same. ap (λ bytes. bytes ∷ []) ((bytes_decides name.bytes.now (key_bytes key)).0 same) };

    ghost respects_eq = { λ name x y. nat_list_eq_equiv.congr name.bytes.now (key_bytes x) (key_bytes y) };

    fn equivalent(&self, key: &OutputKey) -> bool {
        self.bytes == key.name.bytes()
    }
}
