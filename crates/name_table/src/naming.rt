//! What a name is, and the type that keeps one.
ghost use Rattle.std.specs.Prelude.{◌≡◌, IsTrue, SomeIff};
ghost use Rattle.std.specs.List.{list_all};
ghost use Rattle.name_table.specs.Name.{is_name_byte, is_name};

use std::marker::Model;

/// The bytes of the longest name.
const MOST_BYTES: usize = 96;

/// A name of a file or a function: 1 to 96 bytes, each an ASCII letter or digit, `.`, `_` or `-`.
/// It is seen as the list of its bytes.
#[derive(Clone, Copy, Debug)]
pub struct Name {
    /// The bytes of the name, and zeros up to the end.
    bytes: [u8; MOST_BYTES],
    len: usize,
}

impl Model for Name {
    ghost use Rattle.std.specs.Prelude.{◌≡◌, ◌-◌, ◌≤◌, ◌++◌, List, ℕ, IsTrue, length, take, drop, replicate};
    ghost use Rattle.std.proofs.Common.{◌∙◌, ap, sym, arith, take-append-drop, length-take-le};
    ghost use Rattle.name_table.specs.Name.{is_name};

    ghost Value = { List ℕ };

    ghost view = { λ n. take n.len n.bytes };

    ghost invariant = { λ n. (n.len ≤ 96) × (length n.bytes ≡ 96) × (drop n.len n.bytes ≡ replicate (96 - n.len) 0) × IsTrue (is_name (take n.len n.bytes)) };

    ghost inverse = { λ name. record { bytes = name ++ replicate (96 - length name) 0; len = length name } };

    ghost inverse_ok = { λ n h i.
        let front : length (take n.len n.bytes) ≡ n.len = length-take-le n.len n.bytes (omega (arith, h.0, h.1)) in
        record {
          bytes = (ap (λ len. take n.len n.bytes ++ replicate (96 - len) 0) front ∙ ap (λ rest. take n.len n.bytes ++ rest) (sym h.2) ∙ take-append-drop n.len n.bytes) i;
          len = front i;
        } };
}

fn is_name_byte(byte: u8) -> bool
    ensures { result ≡ is_name_byte byte }
{
    byte.is_ascii_alphanumeric() || byte == b'.' || byte == b'_' || byte == b'-'
}

fn has_name_bytes(bytes: &[u8]) -> bool
    ensures { result ≡ list_all is_name_byte bytes.now }
{
    bytes.iter().all(|byte| is_name_byte(*byte))
}

fn is_name(bytes: &[u8]) -> bool
    ensures { result ≡ is_name bytes.now }
{
    let len = bytes.len();
    if len == 0 || len > MOST_BYTES {
        return false;
    }
    has_name_bytes(bytes)
}

impl Name {
    /// The name of these bytes; none exactly where they break the limit on names.
    pub fn of(bytes: &[u8]) -> Option<Self>
        ensures { SomeIff result (IsTrue (is_name bytes.now)) bytes.now }
    {
        if !is_name(bytes) {
            return None;
        }
        let len = bytes.len();
        let mut padded = [0; MOST_BYTES];
        padded[..len].copy_from_slice(bytes);
        Some(Name { bytes: padded, len })
    }

    /// The bytes of the name.
    pub fn as_slice(&self) -> &[u8]
        ensures value { result.now ≡ self.now }
        ensures named { IsTrue (is_name self.now) }
    {
        &self.bytes[..self.len]
    }
}

impl PartialEq for Name {
    ghost use Rattle.std.specs.Prelude.{nat_eq};
    ghost use Rattle.std.specs.Cmp.{partial_equiv_from_equiv};
    ghost use Rattle.std.specs.Cmp.Lexicographic.{pointwise, nat_list_eq_equiv};

    ghost eq = { pointwise nat_eq };

    ghost laws = { partial_equiv_from_equiv nat_list_eq_equiv };

    fn eq(&self, other: &Self) -> bool {
        self.as_slice() == other.as_slice()
    }
}

impl Eq for Name {
    ghost use Rattle.std.specs.Cmp.Lexicographic.{nat_list_eq_equiv};

    ghost laws = { nat_list_eq_equiv };
}

#[cfg(test)]
mod tests {
    use super::*;

    #[test]
    fn names_keep_the_limit(rt: HostRuntime) {
        for text in [b"a".as_slice(), b"Log-2.old_Z9", [b'x'; 96].as_slice()] {
            let name = Name::of(text).expect(&rt, "a name");
            assert!(rt; name.as_slice() == text);
            let copy = name;
            assert!(rt; name == copy);
        }
        for text in [
            b"".as_slice(),
            b"a/b",
            b"a b",
            b"\xc3\xa4",
            [b'x'; 97].as_slice(),
        ] {
            assert!(rt; Name::of(text).is_none());
        }
        assert!(rt; Name::of(b"ab") != Name::of(b"ac"));
    }
}
