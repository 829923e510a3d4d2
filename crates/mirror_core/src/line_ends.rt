//! Where lines end.
ghost use Rattle.std.specs.Prelude.{◌≡◌, ◌≢◌, ◌++◌, ◌∷◌, All, IfSome, IfNone};

use memchr::memchr;

/// The line that the first LF of the text ends, without the LF, and what stands behind it.
#[tactic(auto, using(crate::proofs::LineEnds::parts_there, crate::proofs::LineEnds::none_before, crate::proofs::LineEnds::none_there))]
pub(crate) fn first_line(text: &[u8]) -> Option<(&[u8], &[u8])>
    ensures parts { IfSome result (λ parts. text.now ≡ parts.0.now ++ 10 ∷ parts.1.now) }
    ensures first { IfSome result (λ parts. All (λ b. b ≢ 10) parts.0.now) }
    ensures none { IfNone result (All (λ b. b ≢ 10) text.now) }
{
    let place = memchr(b'\n', text)?;
    Some((&text[..place], &text[place + 1..]))
}
