//! Which entry may come next.
ghost use Rattle.std.specs.Prelude.{◌≡◌, ◌≤◌, ◌^◌, ◌+◌, ◌-◌, ◌%◌, ◌==◌, ◌&&◌, true, None};
ghost use Rattle.num_range.specs.Space.{top_of};
ghost use Rattle.reg_entry.specs.Blocks.{alignment};
ghost use Rattle.std.specs.List.{list_any};
ghost use Rattle.num_range.specs.declared.space.Space.{Space};
ghost use Rattle.reg_entry.specs.Next.{may_come_next, is_free_block, block_may_be, until_may_be, until_of, start_of, day_may_be, has_free, same_cover, same_painted};
ghost use Rattle.reg_entry.specs.Covers.{cover_for, card_for};
ghost use Rattle.reg_entry.specs.Register.{register_pieces};
ghost use Rattle.reg_entry.specs.Request.{has_size, amount_size};
ghost use Rattle.num_range.specs.Number.{PlainNumber};
ghost use Rattle.reg_entry.specs.declared.request.Request.TheVariants.{Split};
ghost use Rattle.board.specs.Starts.{MayStartAt};
ghost use Rattle.board.specs.Free.{reaches_free};
ghost use Rattle.board.specs.Subject.{IsSubjectOf};
ghost use Rattle.std.specs.Option.{is_none};
ghost use Rattle.reg_entry.specs.Decision.{first_of, early_rules, late_refusal};

use crate::{Board, Subject};
use num_range::{Number, Range, Space};
use reg_entry::{Card, Entry, LAST_DATE, Piece, Request};

/// Where an entry's cover starts.
fn start_of(cover: &Option<Range>) -> Option<u128>
    ensures { result ≡ start_of cover.now }
{
    Some(cover.as_ref()?.first())
}

/// The until of an entry's card, or 0 where it has none.
fn until_of(card: &Option<Card>) -> u32
    ensures { result ≡ until_of card.now }
{
    match card {
        Some(card) => card.until,
        None => 0,
    }
}

/// Whether a returned or transferred piece may be kept up to a day.
fn until_may_be(request: &Request, day: u32, until: u32) -> bool
    ensures { result ≡ until_may_be request.now day until }
{
    match request {
        Request::Return { .. } | Request::Transfer { .. } => day <= until && until <= LAST_DATE,
        _ => true,
    }
}

/// Whether the piece, where there is one, is available and reaches so far.
fn reaches_free(piece: &Option<Piece>, last: u128) -> bool
    ensures { result ≡ reaches_free piece.now last }
{
    match piece {
        Some(piece) => piece.card.status.is_available() && last <= piece.range.last(),
        None => false,
    }
}

fn same_cover(a: &Option<Range>, b: &Option<Range>) -> bool
    ensures { result ≡ same_cover a.now b.now }
{
    match (a, b) {
        (Some(a), Some(b)) => a == b,
        (None, None) => true,
        _ => false,
    }
}

fn same_painted(a: &Option<Card>, b: &Option<Card>) -> bool
    ensures same { result ≡ same_painted a.now b.now }
    ensures none { result ≡ true → b.now ≡ None → a.now ≡ None }
{
    match (a, b) {
        (Some(a), Some(b)) => a == b,
        (None, None) => true,
        _ => false,
    }
}

impl Board {
    fn day_may_be(&self, day: u32) -> bool
        ensures { result ≡ day_may_be self.now.register day }
    {
        1 <= day && self.last_day() <= day && day <= LAST_DATE
    }

    /// Whether one available piece has all numbers from the first to the last.
    fn has_free(&self, space: Space, first: u128, last: u128) -> bool
        requires ordered { first ≤ last }
        requires within { last ≤ top_of space }
        ensures { result ≡ list_any (has_free first last) (register_pieces self.now.register space) }
    {
        self.is_whole();
        reaches_free(&self.piece_of(Number::of(space, first)), last)
    }

    fn is_free_block(&self, space: Space, size: u128, start: u128) -> bool
        requires least { 1 ≤ size }
        requires most { size ≤ 2 ^ 125 }
        ensures free { result ≡ is_free_block (register_pieces self.now.register space) space size start }
        ensures within { result ≡ true → start + (size - 1) ≤ top_of space }
    {
        let behind = size - 1;
        let top = space.top();
        behind <= top
            && start <= top - behind
            && start % space.alignment(size) == 0
            && self.has_free(space, start, start + behind)
    }

    /// Whether an entry may have a block that starts there, if it delegates one.
    fn block_may_be(&self, request: &Request, start: Option<u128>) -> bool
        ensures block { result ≡ block_may_be self.now.register request.now start }
        ensures starts { result ≡ true → MayStartAt request.now start }
    {
        match (request, start) {
            (Request::Delegate { space, amount, .. }, Some(start)) => {
                space.has_size(*amount)
                    && self.is_free_block(*space, space.amount_size(*amount), start)
            }
            (Request::Delegate { .. }, None) => false,
            _ => true,
        }
    }

    /// Whether the entry has the next number, on a day that may follow.
    fn is_in_turn(&self, e: &Entry) -> bool
        ensures { result ≡ ((e.now.seq == self.now.register.entries + 1) && day_may_be self.now.register e.now.day) }
    {
        e.seq == self.entries() + 1 && self.day_may_be(e.day)
    }

    /// Whether the entry covers what its request says.
    fn has_its_cover(&self, e: &Entry, subject: &Subject) -> bool
        requires subject { IsSubjectOf self.now.register e.now.request subject.now }
        requires start { MayStartAt e.now.request (start_of e.now.cover) }
        ensures { result ≡ same_cover e.now.cover (cover_for self.now.register e.now.request (start_of e.now.cover)) }
    {
        let cover = self.cover_for(&e.request, subject, start_of(&e.cover));
        same_cover(&e.cover, &cover)
    }

    /// Whether the entry paints the card that its request says.
    fn has_its_card(&self, e: &Entry, subject: &Subject) -> bool
        requires { IsSubjectOf self.now.register e.now.request subject.now }
        ensures card { result ≡ same_painted e.now.card (card_for self.now.register e.now.request e.now.day (until_of e.now.card)) }
        ensures split { result ≡ true → (at : PlainNumber) → e.now.request ≡ Split at → e.now.card ≡ None }
    {
        let card = self.card_for(&e.request, subject, e.day, until_of(&e.card));
        same_painted(&e.card, &card)
    }

    /// Whether the entry's block, until, cover and card are right, and no rule of the register is against it.
    fn may_follow(&self, e: &Entry, subject: &Subject) -> bool
        requires { IsSubjectOf self.now.register e.now.request subject.now }
        ensures { result ≡ (is_none (first_of (early_rules self.now.register e.now.request))
            && block_may_be self.now.register e.now.request (start_of e.now.cover)
            && until_may_be e.now.request e.now.day (until_of e.now.card) && is_none (late_refusal self.now.register e.now)
            && same_cover e.now.cover (cover_for self.now.register e.now.request (start_of e.now.cover))
            && same_painted e.now.card (card_for self.now.register e.now.request e.now.day (until_of e.now.card))) }
    {
        self.early_refusal(&e.request, subject).is_none()
            && self.block_may_be(&e.request, start_of(&e.cover))
            && until_may_be(&e.request, e.day, until_of(&e.card))
            && self.has_its_cover(e, subject)
            && self.has_its_card(e, subject)
            && self
                .late_refusal(&e.request, subject, e.day, &e.cover, &e.card)
                .is_none()
    }

    /// Whether the entry may come next: its number, day, cover and card are those of its request, and no rule of the
    /// register is against it. The policy isn't asked, since it may have changed since.
    pub fn is_next(&self, e: &Entry) -> bool
        ensures { result ≡ may_come_next self.now.register e.now }
    {
        e.request.has_ranges();
        self.is_in_turn(e) && self.may_follow(e, &self.subject(&e.request))
    }
}
