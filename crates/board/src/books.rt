//! How the books behind a board change with an entry.
ghost use Rattle.std.specs.Prelude.{◌≡◌, ℕ, ◌+◌, ◌<◌, ◌≤◌, ◌^◌, true, List, [], None, Some, length, IsSome, IfSome};
ghost use Rattle.num_range.specs.declared.space.Space.{Space as TheSpace};
ghost use Rattle.num_range.specs.Range.{PlainRange, size_of};
ghost use Rattle.reg_entry.specs.declared.holder.Holder.{Holder as TheHolder};
ghost use Rattle.reg_entry.specs.declared.sub_card.SubCard.{SubCard as TheSubCard};
ghost use Rattle.reg_entry.specs.declared.request.Request.TheVariants.{AddHolder, EditHolder, SubAssign, SubReturn, Return, SetReverse, ClearReverse};
ghost use Rattle.reg_entry.specs.Covers.{first_number};
ghost use Rattle.reg_entry.specs.Holders.{holder_number, edited_holder};
ghost use Rattle.reg_entry.specs.Holdings.{gives_held, held_by, allocated_by, held_by_card, allocated_by_card};
ghost use Rattle.reg_entry.specs.Pieces.{IsPoolRange};
ghost use Rattle.reg_entry.specs.Ranges.{first_meeting, value_of_range, with_range};
ghost use Rattle.reg_entry.specs.Register.{after_entry, card_of, pool_after, holders_after, with_sub, subs_after, reverses_after};
ghost use Rattle.reg_laws.specs.Nobodys.{is_of_nobodys};
ghost use Rattle.op_feed.specs.TouchedBy.{IsTouchedBy};
ghost use Rattle.board.specs.Kept.{Rest, register_with, IsNextFor, AreHeldFor, AreHoldingsIn};
ghost use Rattle.sub_book.specs.Book.{NoneStraddles, PlainRangeBook};
ghost use Rattle.holder_book.specs.HoldingBook.{held_in, allocated_in, used_in, used_of, used_of_card};

use arrayvec::ArrayVec;
use holder_book::{HolderBook, HoldingBook};
use num_range::Range;
use piece_book::PieceBook;
use reg_entry::{Card, Entry, Handle, Holder, Request, Servers, SubCard, Touched};
use reg_laws::holders::next_entries_know_holders;
use reg_laws::holdings::{
    holdings_are_bounded, next_entries_change_holdings, next_entries_take_what_is_held,
};
use reg_laws::next::next_entries_have_covers_and_cards;
use reg_laws::painting::{
    next_entries_can_be_painted, next_entries_join_equal_pieces,
    next_entries_split_delegated_pieces,
};
use reg_laws::subs::next_entries_fit_subs;
use reg_laws::usage::{
    next_entries_change_use, next_entries_take_what_is_used, nobodys_numbers_change_no_holdings,
    use_is_bounded,
};
use reg_laws::whole::next_entry_keeps_whole;
use sub_book::RangeBook;

/// Adds the holder that the entry names, or gives it other fields.
pub(crate) fn change_holders(holders: &mut HolderBook, e: &Entry)
    requires new { (holder : TheHolder) → e.now.request ≡ AddHolder holder → holder_number holders.old.holders holder.handle ≡ None }
    requires room { (holder : TheHolder) → e.now.request ≡ AddHolder holder → length holders.old.holders < holders.old.room }
    requires edited { (holder : TheHolder) → e.now.request ≡ EditHolder holder → IsSome (holder_number holders.old.holders holder.handle) }
    ensures holders { holders.new.holders ≡ holders_after e.now.request e.now.day holders.old.holders }
    ensures room { holders.new.room ≡ holders.old.room }
{
    match &e.request {
        Request::AddHolder { holder } => {
            holders.add(holder, e.day);
        }
        Request::EditHolder { holder } => edit(holders, holder, e.day),
        _ => {}
    }
}

/// Adds the sub that the entry names, or takes it out.
pub(crate) fn change_subs(subs: &mut RangeBook<SubCard>, holders: &HolderBook, e: &Entry)
    requires free { (range : PlainRange) (handle : List ℕ) → e.now.request ≡ SubAssign range handle → first_meeting subs.old.ranges range ≡ None }
    requires room { (range : PlainRange) (handle : List ℕ) → e.now.request ≡ SubAssign range handle → length subs.old.ranges < subs.old.room }
    requires there { (range : PlainRange) → e.now.request ≡ SubReturn range → IsSome (value_of_range subs.old.ranges range) }
    ensures subs { subs.new.ranges ≡ subs_after e.now.request e.now.day holders.now.holders subs.old.ranges }
    ensures room { subs.new.room ≡ subs.old.room }
{
    match &e.request {
        Request::SubAssign { range, handle } => add_sub(subs, holders, range, handle, e.day),
        Request::SubReturn { range } => subs.take_out(range),
        _ => {}
    }
}

/// Splits or joins pieces, or paints the entry's card over its cover, if there are both.
pub(crate) fn change_pieces(pieces: &mut PieceBook, e: &Entry) -> Touched
    requires { (rest : Rest) × (subs : PlainRangeBook TheSubCard) × IsNextFor pieces.old subs e.now rest }
    ensures pieces { pieces.new.partition ≡ pool_after e.now.request e.now.cover e.now.card pieces.old.partition }
    ensures room { pieces.new.room ≡ pieces.old.room }
    ensures touched { IsTouchedBy pieces.old.partition pieces.new.partition result.before.items result.after.items }
{
    // Laws: what the next entry asks of the pieces.
    next_entry_keeps_whole();
    next_entries_have_covers_and_cards();
    next_entries_can_be_painted();
    next_entries_split_delegated_pieces();
    next_entries_join_equal_pieces();
    match &e.request {
        Request::Split { at } => pieces.split(*at),
        Request::Join { at } => pieces.join(*at),
        _ => match &e.card {
            Some(card) => match &e.cover {
                Some(range) => pieces.lay(range, card),
                None => untouched(),
            },
            None => untouched(),
        },
    }
}

fn untouched() -> Touched
    ensures before { result.before.items ≡ [] }
    ensures after { result.after.items ≡ [] }
{
    Touched {
        before: ArrayVec::new(),
        after: ArrayVec::new(),
    }
}

/// Whether the numbers that the request is for are no holder's, before and after.
fn is_of_nobodys(request: &Request) -> bool
    ensures { result ≡ is_of_nobodys request.now }
{
    match request {
        Request::Receive { .. }
        | Request::Reserve { .. }
        | Request::Unreserve { .. }
        | Request::Release { .. } => true,
        _ => false,
    }
}

/// Changes what is held, allocated and used, before the pieces and subs change.
pub(crate) fn change_holdings(
    holdings: &mut HoldingBook,
    pieces: &PieceBook,
    subs: &RangeBook<SubCard>,
    e: &Entry,
)
    requires { (rest : Rest) × AreHeldFor pieces.now subs.now e.now holdings.old rest }
    ensures holdings { (rest : Rest) → AreHeldFor pieces.now subs.now e.now holdings.old rest
        → AreHoldingsIn (after_entry (register_with rest pieces.now subs.now) e.now) holdings.new }
    ensures room { holdings.new.room ≡ holdings.old.room }
{
    // Laws: what the next entry changes of them, and that it has what it takes.
    next_entry_keeps_whole();
    next_entries_have_covers_and_cards();
    next_entries_know_holders();
    next_entries_can_be_painted();
    next_entries_change_holdings();
    next_entries_take_what_is_held();
    holdings_are_bounded();
    next_entries_fit_subs();
    next_entries_change_use();
    next_entries_take_what_is_used();
    use_is_bounded();
    nobodys_numbers_change_no_holdings();
    if is_of_nobodys(&e.request) {
        return;
    }
    match &e.request {
        Request::AddHolder { .. } => holdings.add(),
        Request::SubAssign { range, .. } => {
            let card = card_over(pieces, range);
            use_more(holdings, range, &card, size(range));
        }
        Request::SubReturn { range } => {
            let card = card_over(pieces, range);
            use_less(holdings, range, &card, size(range));
        }
        _ => {
            if let Some(card) = &e.card {
                if let Some(range) = &e.cover {
                    let former = card_over(pieces, range);
                    let used = subs.numbers_inside(range);
                    exchange(holdings, range, &former, card, used);
                }
            }
        }
    }
}

/// Gives the holder of a known handle other fields.
fn edit(holders: &mut HolderBook, holder: &Holder, day: u32)
    requires { IsSome (holder_number holders.old.holders holder.now.handle) }
    ensures holders { holders.new.holders ≡ edited_holder holders.old.holders holder.now day }
    ensures room { holders.new.room ≡ holders.old.room }
{
    if let Some(number) = holders.by_handle(&holder.handle) {
        holders.edit(number, holder, day);
    }
}

/// The card of the piece that holds the first number of the range.
fn card_over(pieces: &PieceBook, range: &Range) -> Option<Card>
    ensures { result ≡ card_of pieces.now.partition (first_number range.now) }
{
    Some(pieces.piece_at(range.first_number())?.card)
}

/// Adds the sub of a known holder.
fn add_sub(
    subs: &mut RangeBook<SubCard>,
    holders: &HolderBook,
    range: &Range,
    handle: &Handle,
    day: u32,
)
    requires free { first_meeting subs.old.ranges range.now ≡ None }
    requires room { length subs.old.ranges < subs.old.room }
    ensures subs { subs.new.ranges ≡ with_sub subs.old.ranges range.now day (holder_number holders.now.holders handle.now) }
    ensures room { subs.new.room ≡ subs.old.room }
{
    if let Some(holder) = holders.by_handle(handle) {
        subs.put(*range, SubCard { holder, day });
    }
}

/// Sets or takes out the reverse entry that the request names, or takes out those inside a range that it returns.
pub(crate) fn change_reverse(reverse: &mut RangeBook<Servers>, request: &Request)
    requires free { (range : PlainRange) (servers : List (List ℕ)) → request.now ≡ SetReverse range servers
        → value_of_range reverse.old.ranges range ≡ None → first_meeting reverse.old.ranges range ≡ None }
    requires room { (range : PlainRange) (servers : List (List ℕ)) → request.now ≡ SetReverse range servers
        → value_of_range reverse.old.ranges range ≡ None → length reverse.old.ranges < reverse.old.room }
    requires there { (range : PlainRange) → request.now ≡ ClearReverse range → IsSome (value_of_range reverse.old.ranges range) }
    requires unstraddled { (range : PlainRange) (handle : List ℕ) → request.now ≡ Return range handle
        → NoneStraddles reverse.old.ranges range }
    ensures reverses { reverse.new.ranges ≡ reverses_after request.now reverse.old.ranges }
    ensures room { reverse.new.room ≡ reverse.old.room }
{
    match request {
        Request::SetReverse { range, servers } => set_servers(reverse, range, servers),
        Request::ClearReverse { range } => reverse.take_out(range),
        Request::Return { range, .. } => reverse.drop_inside(range),
        _ => {}
    }
}

/// Gives the range these servers. It isn't inlined where most entries pass by, as `operations` says.
#[inline(never)]
fn set_servers(reverse: &mut RangeBook<Servers>, range: &Range, servers: &Servers)
    requires free { value_of_range reverse.old.ranges range.now ≡ None → first_meeting reverse.old.ranges range.now ≡ None }
    requires room { value_of_range reverse.old.ranges range.now ≡ None → length reverse.old.ranges < reverse.old.room }
    ensures ranges { reverse.new.ranges ≡ with_range reverse.old.ranges range.now servers.now }
    ensures room { reverse.new.room ≡ reverse.old.room }
{
    reverse.put(*range, *servers);
}

/// So many more numbers of the range, which has the card, are used.
fn use_more(holdings: &mut HoldingBook, range: &Range, card: &Option<Card>, used: u128)
    requires known { IfSome card.now (λ c. (holder : ℕ) → gives_held holder c ≡ true → holder < length holdings.old.holdings) }
    requires fits { (holder : ℕ) (space : TheSpace) → used_in holdings.old holder space + used_of holder space range.now card.now used < 2 ^ 128 }
    ensures held { (holder : ℕ) (space : TheSpace) → held_in holdings.new holder space ≡ held_in holdings.old holder space }
    ensures allocated { (holder : ℕ) (space : TheSpace) → allocated_in holdings.new holder space ≡ allocated_in holdings.old holder space }
    ensures used { (holder : ℕ) (space : TheSpace)
        → used_in holdings.new holder space ≡ used_in holdings.old holder space + used_of holder space range.now card.now used }
    ensures count { length holdings.new.holdings ≡ length holdings.old.holdings }
    ensures room { holdings.new.room ≡ holdings.old.room }
{
    if let Some(card) = card {
        holdings.use_more(card, range, used);
    }
}

/// So many numbers of the range, which has the card, are no longer used.
fn use_less(holdings: &mut HoldingBook, range: &Range, card: &Option<Card>, used: u128)
    requires { (holder : ℕ) (space : TheSpace) → used_of holder space range.now card.now used ≤ used_in holdings.old holder space }
    ensures held { (holder : ℕ) (space : TheSpace) → held_in holdings.new holder space ≡ held_in holdings.old holder space }
    ensures allocated { (holder : ℕ) (space : TheSpace) → allocated_in holdings.new holder space ≡ allocated_in holdings.old holder space }
    ensures used { (holder : ℕ) (space : TheSpace)
        → used_in holdings.new holder space + used_of holder space range.now card.now used ≡ used_in holdings.old holder space }
    ensures count { length holdings.new.holdings ≡ length holdings.old.holdings }
    ensures room { holdings.new.room ≡ holdings.old.room }
{
    if let Some(card) = card {
        holdings.use_less(card, range, used);
    }
}

/// The numbers of the range, which had one card, have another.
fn swap(holdings: &mut HoldingBook, range: &Range, former: &Option<Card>, card: &Card)
    requires known { (holder : ℕ) → gives_held holder card.now ≡ true → holder < length holdings.old.holdings }
    requires held { (holder : ℕ) (space : TheSpace) → held_by holder space range.now former.now ≤ held_in holdings.old holder space }
    requires allocated { (holder : ℕ) (space : TheSpace) → allocated_by holder space range.now former.now ≤ allocated_in holdings.old holder space }
    requires held_fits { (holder : ℕ) (space : TheSpace) → held_in holdings.old holder space + held_by_card holder space range.now card.now < 2 ^ 128 }
    requires allocated_fits { (holder : ℕ) (space : TheSpace)
        → allocated_in holdings.old holder space + allocated_by_card holder space range.now card.now < 2 ^ 128 }
    ensures held { (holder : ℕ) (space : TheSpace)
        → held_in holdings.new holder space + held_by holder space range.now former.now
        ≡ held_in holdings.old holder space + held_by_card holder space range.now card.now }
    ensures allocated { (holder : ℕ) (space : TheSpace)
        → allocated_in holdings.new holder space + allocated_by holder space range.now former.now
        ≡ allocated_in holdings.old holder space + allocated_by_card holder space range.now card.now }
    ensures used { (holder : ℕ) (space : TheSpace) → used_in holdings.new holder space ≡ used_in holdings.old holder space }
    ensures count { length holdings.new.holdings ≡ length holdings.old.holdings }
    ensures room { holdings.new.room ≡ holdings.old.room }
{
    if let Some(former) = former {
        holdings.take(former, range);
    }
    holdings.give(card, range);
}

/// The numbers of the range, of which so many are used, had one card and have another.
fn exchange(
    holdings: &mut HoldingBook,
    range: &Range,
    former: &Option<Card>,
    card: &Card,
    used: u128,
)
    requires known { (holder : ℕ) → gives_held holder card.now ≡ true → holder < length holdings.old.holdings }
    requires held { (holder : ℕ) (space : TheSpace) → held_by holder space range.now former.now ≤ held_in holdings.old holder space }
    requires allocated { (holder : ℕ) (space : TheSpace) → allocated_by holder space range.now former.now ≤ allocated_in holdings.old holder space }
    requires used { (holder : ℕ) (space : TheSpace) → used_of holder space range.now former.now used ≤ used_in holdings.old holder space }
    requires held_fits { (holder : ℕ) (space : TheSpace) → held_in holdings.old holder space + held_by_card holder space range.now card.now < 2 ^ 128 }
    requires allocated_fits { (holder : ℕ) (space : TheSpace)
        → allocated_in holdings.old holder space + allocated_by_card holder space range.now card.now < 2 ^ 128 }
    requires used_fits { (holder : ℕ) (space : TheSpace)
        → used_in holdings.old holder space + used_of_card holder space range.now card.now used < 2 ^ 128 }
    ensures held { (holder : ℕ) (space : TheSpace)
        → held_in holdings.new holder space + held_by holder space range.now former.now
        ≡ held_in holdings.old holder space + held_by_card holder space range.now card.now }
    ensures allocated { (holder : ℕ) (space : TheSpace)
        → allocated_in holdings.new holder space + allocated_by holder space range.now former.now
        ≡ allocated_in holdings.old holder space + allocated_by_card holder space range.now card.now }
    ensures used { (holder : ℕ) (space : TheSpace)
        → used_in holdings.new holder space + used_of holder space range.now former.now used
        ≡ used_in holdings.old holder space + used_of_card holder space range.now card.now used }
    ensures count { length holdings.new.holdings ≡ length holdings.old.holdings }
    ensures room { holdings.new.room ≡ holdings.old.room }
{
    use_less(holdings, range, former, used);
    swap(holdings, range, former, card);
    holdings.use_more(card, range, used);
}

/// How many numbers a range of the pool has.
#[tactic(auto, using(crate::proofs::PoolSizes::size_fits))]
fn size(range: &Range) -> u128
    requires { IsPoolRange range.now }
    ensures { result ≡ size_of range.now }
{
    let _first = range.first();
    range.size()
}
