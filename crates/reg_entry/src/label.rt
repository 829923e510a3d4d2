ghost use Rattle.std.specs.Prelude.{◌≡◌, ◌≤◌, ◌↔◌, length, Some, IsSome, IfSome};
ghost use Rattle.std.specs.Str.{bytes_eq};
ghost use Rattle.std.specs.Ordering.{nat_cmp};
ghost use Rattle.std.specs.Cmp.{partial_equiv_from_equiv};
ghost use Rattle.std.specs.Cmp.Lexicographic.{slice_cmp, nat_list_eq_equiv, nat_list_cmp_total, texts_ties, texts_po};
ghost use Rattle.std.proofs.Common.{rules};

use std::cmp::Ordering;
use std::marker::Model;

/// A list of at most `N` bytes that is copied as a whole.
#[derive(Clone, Copy)]
pub struct Label<const N: usize> {
    // The bytes past the length are 0, so that the list gives the fields back.
    array: [u8; N],
    len: usize,
}

impl<const N: usize> Model for Label<N> {
    ghost use Rattle.std.specs.Prelude.{List, ℕ, length, take};
    ghost use Rattle.reg_entry.specs.Label.{padded, IsPadded};

    ghost Value = { List ℕ };

    ghost view = { λ l. take l.len l.array };

    ghost invariant = { λ l. IsPadded N l.array l.len };

    ghost inverse = { λ bytes. record { array = padded N bytes; len = length bytes } };
}

impl<const N: usize> Label<N> {
    /// The label of these bytes, or nothing where there are more than `N`.
    pub fn new(bytes: &[u8]) -> Option<Label<N>>
        ensures fits { IsSome result ↔ (length bytes.now ≤ N) }
        ensures label { IfSome result (λ l. l ≡ bytes.now) }
    {
        if bytes.len() > N {
            return None;
        }
        let mut array = [0; N];
        array[..bytes.len()].copy_from_slice(bytes);
        Some(Label {
            array,
            len: bytes.len(),
        })
    }

    pub fn bytes(&self) -> &[u8]
        ensures bytes { result.now ≡ self.now }
        ensures fits { length self.now ≤ N }
    {
        &self.array[..self.len]
    }
}

impl<const N: usize> PartialEq for Label<N> {
    ghost eq = { bytes_eq };

    ghost laws = { partial_equiv_from_equiv nat_list_eq_equiv };

    fn eq(&self, other: &Label<N>) -> bool {
        self.bytes() == other.bytes()
    }
}

impl<const N: usize> Eq for Label<N> {
    ghost laws = { nat_list_eq_equiv };
}

impl<const N: usize> PartialOrd for Label<N> {
    ghost partial_cmp = { λ x y. Some (slice_cmp nat_cmp x y) };

    ghost laws = { texts_po };

    fn partial_cmp(&self, other: &Label<N>) -> Option<Ordering> {
        Some(self.cmp(other))
    }
}

/// Labels are in the order of their bytes.
impl<const N: usize> Ord for Label<N> {
    ghost cmp = { slice_cmp nat_cmp };

    ghost total = { nat_list_cmp_total };

    ghost matches_partial_cmp = { Prim.search rules };

    ghost matches_eq = { texts_ties };

    fn cmp(&self, other: &Label<N>) -> Ordering {
        self.bytes().cmp(other.bytes())
    }
}
