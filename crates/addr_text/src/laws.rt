//! What holds of all texts: what a text spells is one valid value, what is written is read again, and `::` stands for
//! the longest run of zero groups.
ghost use Rattle.std.specs.Prelude.{◌≡◌, ℕ, List, false};
ghost use Rattle.num_range.specs.Number.{PlainNumber, IsNumber};
ghost use Rattle.num_range.specs.Range.{PlainRange, IsRange};
ghost use Rattle.addr_text.specs.Address.{SpellsAddress, groups_of};
ghost use Rattle.addr_text.specs.Block.{SpellsBlock};
ghost use Rattle.addr_text.specs.Number.{SpellsAsn, SpellsNumber, number_text, text_of};
ghost use Rattle.addr_text.specs.Range.{SpellsRange, range_text};
ghost use Rattle.addr_text.specs.Reading.{IsSpelled, number_of, block_of_text, range_of};
ghost use Rattle.addr_text.specs.Shortening.{IsShortened};

use num_range::Space;

/// A text spells at most one address, AS number, number, block and range.
#[tactic(auto, using(crate::proofs::Once::address_once, crate::proofs::Once::asn_once, crate::proofs::Once::number_once))]
pub fn spells_one()
    ensures address { (text : List ℕ) (m n : PlainNumber) → SpellsAddress text m
        → SpellsAddress text n → m ≡ n }
    ensures asn { (text : List ℕ) (m n : PlainNumber) → SpellsAsn text m → SpellsAsn text n → m ≡ n }
    ensures number { (text : List ℕ) (m n : PlainNumber) → SpellsNumber text m
        → SpellsNumber text n → m ≡ n }
    ensures block { (text : List ℕ) (m n : PlainNumber) (k l : ℕ) → SpellsBlock text m k
        → SpellsBlock text n l → (m ≡ n) × (k ≡ l) }
    ensures range { (text : List ℕ) (r s : PlainRange) → SpellsRange text r → SpellsRange text s
        → r ≡ s }
{}

/// What a text spells is a number of its space, and a range of it.
#[tactic(auto, using(crate::proofs::Valid::number_valid))]
pub fn spells_valid()
    ensures number { (text : List ℕ) (n : PlainNumber) → SpellsNumber text n → IsNumber n }
    ensures range { (text : List ℕ) (r : PlainRange) → SpellsRange text r → IsRange r }
{}

/// The text that is written of a number, and of a range without blanks, spells it.
#[tactic(auto, using(crate::proofs::Written::number_written, crate::proofs::Written::range_written))]
pub fn reads_written()
    ensures number { (n : PlainNumber) → IsNumber n → SpellsNumber (number_text n) n }
    ensures range { (r : PlainRange) → IsRange r → SpellsRange (range_text false r) r }
{}

/// An IPv6 address is written as RFC 5952 4.2 shortens it.
#[tactic(auto, using(crate::proofs::Written::shortened))]
pub fn shortens_longest()
    ensures { (value : ℕ) → IsShortened (text_of Space.Ipv6 value) (groups_of value) }
{}

/// The definitions that compute give what a text spells, and nothing where it spells nothing.
#[tactic(auto, using(crate::proofs::Computed::number_spelled, crate::proofs::Computed::block_spelled, crate::proofs::Computed::range_spelled))]
pub fn computes_spelled()
    ensures number { (text : List ℕ) → IsSpelled (SpellsNumber text) (number_of text) }
    ensures block { (text : List ℕ) → IsSpelled (λ b. SpellsBlock text b.0 b.1) (block_of_text text) }
    ensures range { (text : List ℕ) → IsSpelled (SpellsRange text) (range_of text) }
{}
