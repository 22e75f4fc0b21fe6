//! Names of devices.

ghost use Rattle.std.specs.Prelude.{◌≡◌, ◌↔◌, ◌≤◌, ◌++◌, length, take, drop, IfSome, IfNone, IsTrue, true, false, nat_eq};
ghost use Rattle.std.specs.List.{list_all};
ghost use Rattle.std.specs.Int.{w64, from_le_bytes, to_le_bytes};
ghost use Rattle.std.specs.Cmp.Lexicographic.{pointwise, nat_list_eq_equiv};
ghost use Rattle.std.specs.Cmp.{partial_equiv_from_equiv};
ghost use Rattle.fw_script_command.specs.Words.{is_name_byte, name_in};

use crate::words::{is_name_byte, name};
use std::marker::Model;

/// A device's name: 1 to 16 of a to z and 0 to 9, the first a letter, and none of `manager`, `any` and `late`.
/// It is compared as two numbers, and copied without a call.
#[derive(Clone, Copy)]
pub struct Name {
    bytes: [u8; 16],
    count: u8,
}

impl Model for Name {
    ghost use Rattle.std.specs.Prelude.{List, ℕ, ◌≡◌, ◌≤◌, length, take};
    ghost use Rattle.std.proofs.Common.{◌∙◌, ap, sym};
    ghost use Rattle.fw_script_command.specs.Names.{filled};

    ghost Value = { List ℕ };

    ghost view = { λ n. take n.count n.bytes };

    ghost invariant = { λ n. (n.count ≤ 16) × (n.bytes ≡ filled (take n.count n.bytes)) × (length (take n.count n.bytes) ≡ n.count) };

    ghost inverse = { λ xs. record { bytes = filled xs; count = length xs } };

    ghost inverse_ok = { λ a h. ap (λ bs. record { bytes = bs; count = length (take a.count a.bytes) }) (sym h.1) ∙ ap (λ k. record { bytes = a.bytes; count = k }) h.2 };
}

impl Name {
    // The name of these bytes, if each is one of a name's.
    // One loop tests and copies, since names are short: a call that copies takes longer.
    pub(crate) fn from_bytes(word: &[u8]) -> Option<Name>
        requires { length word.now ≤ 16 }
        ensures some { IfSome result (λ n. (list_all is_name_byte word.now ≡ true) × (n ≡ word.now)) }
        ensures none { IfNone result (list_all is_name_byte word.now ≡ false) }
    {
        let mut bytes = [0; 16];
        for (i, b) in word.iter().enumerate() {
            if !is_name_byte(*b) {
                return None;
            }
            bytes[i] = *b;
        }
        Some(Name {
            bytes,
            count: word.len() as u8,
        })
    }

    /// The name that a word is. None exactly if it is no name.
    pub fn from_word(word: &[u8]) -> Option<Name>
        ensures { result ≡ name_in word.now }
    {
        name(word)
    }

    /// The bytes of the name.
    pub fn as_slice(&self) -> &[u8]
        ensures { result.now ≡ self.now }
    {
        &self.bytes[..usize::from(self.count)]
    }
}

/// The bytes as two numbers.
fn numbers(bytes: &[u8; 16]) -> (u64, u64)
    ensures value { result ≡ (from_le_bytes w64 (take 8 bytes.now), from_le_bytes w64 (drop 8 bytes.now)) }
    ensures back { to_le_bytes w64 result.0 ++ to_le_bytes w64 result.1 ≡ bytes.now }
{
    let [a, b, c, d, e, f, g, h, i, j, k, l, m, n, o, p] = *bytes;
    (
        u64::from_le_bytes([a, b, c, d, e, f, g, h]),
        u64::from_le_bytes([i, j, k, l, m, n, o, p]),
    )
}

fn are_same(one: &[u8; 16], other: &[u8; 16]) -> bool
    ensures { IsTrue result ↔ (one.now ≡ other.now) }
{
    let (one_prefix, one_back) = numbers(one);
    let (other_prefix, other_back) = numbers(other);
    one_prefix == other_prefix && one_back == other_back
}

impl PartialEq for Name {
    ghost eq = { λ x y. pointwise nat_eq x y };

    ghost laws = { partial_equiv_from_equiv nat_list_eq_equiv };

    fn eq(&self, other: &Self) -> bool {
        self.count == other.count && are_same(&self.bytes, &other.bytes)
    }
}

impl Eq for Name {
    ghost laws = { nat_list_eq_equiv };
}
