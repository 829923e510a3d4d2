//! Texts of two parts with a byte between them.
ghost use Rattle.std.specs.Prelude.{◌≡◌, ◌≢◌, ◌∷◌, ◌++◌, All, IfSome, IfNone};
ghost use Rattle.std.specs.Option.{option_map};
ghost use Rattle.addr_text.specs.Reading.{parted_at};

/// What stands before and behind the first such byte.
#[tactic(auto, using(crate::proofs::Separators::parted_nowhere))]
pub fn parted_at(byte: u8, text: &[u8]) -> Option<(&[u8], &[u8])>
    ensures value { option_map (λ parts. (parts.0.now, parts.1.now)) result ≡ parted_at byte text.now }
    ensures parts { IfSome result (λ parts. text.now ≡ parts.0.now ++ byte ∷ parts.1.now) }
    ensures first { IfSome result (λ parts. All (λ b. b ≢ byte) parts.0.now) }
    ensures none { IfNone result (All (λ b. b ≢ byte) text.now) }
{
    let place = text.iter().position(|b| *b == byte)?;
    Some((&text[..place], &text[place + 1..]))
}
