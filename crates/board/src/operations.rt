//! The operations of the entries, of which a board keeps the last.
//!
//! A function makes room for all of its values when it is entered, whatever way it takes then, and fills that room with zeros.
//! So what has a holder's fields or name servers is noted by functions of their own, which aren't inlined where most entries
//! pass by.
ghost use Rattle.std.specs.Prelude.{◌≡◌, ◌+◌, ◌-◌, ◌<◌, ◌≤◌, ◌^◌, [], ◌∷◌, ◌++◌, find, map, length, slice_get, option_copied, IfOk, IfSome};
ghost use Rattle.std.specs.List.{AllByRecursion, flat_map};
ghost use Rattle.std.specs.Option.{option_map_or};
ghost use Rattle.reg_entry.specs.Holders.{handle_of, has_handle};
ghost use Rattle.reg_entry.specs.Objects.{block_of_piece, blocks_of, sub_of, cuts_of};
ghost use Rattle.reg_entry.specs.declared.object.Act.TheVariants.{Add};
ghost use Rattle.reg_entry.specs.declared.object.Object.TheVariants.{Org, Cut};
ghost use Rattle.reg_entry.specs.Ranges.{ranges_inside, value_of_range};
ghost use Rattle.op_feed.specs.PieceChanges.{pieces_gone, pieces_come};
ghost use Rattle.op_feed.specs.EntryChanges.{dels, adds, edit_changes, server_changes, entry_changes};
ghost use Rattle.board.specs.Noted.{noted, all_noted, HaveHolders};

use cidr_cover::cuts;
use holder_book::HolderBook;
use num_range::Range;
use op_feed::{OpWindow, comes, goes};
use reg_entry::{Act, Entry, Handle, Holder, Op, Piece, Request, Servers, SubCard, Touched};
use std::alloc::{AllocError, Global};
use std::marker::Model;
use sub_book::RangeBook;

/// The last operations, and how many there were in all.
#[derive(Drop)]
pub(crate) struct Operations {
    window: OpWindow,
}

impl Model for Operations {
    ghost use Rattle.board.specs.Noted.{PlainOperations};

    ghost Value = { PlainOperations };

    ghost view = { λ o. o.window };
}

impl Operations {
    /// None yet, and memory for as many as the window says.
    pub(crate) fn with_window(alloc: Global, window: u32) -> Result<Operations, AllocError>
        ensures { IfOk result (λ operations. operations ≡ record { serial = 0; kept = []; window = window }) }
    {
        let window = OpWindow::with_window(alloc, window)?;
        Ok(Operations { window })
    }

    /// The serials of the first and the last operation that is kept.
    pub(crate) fn serials(&self) -> (u64, u64)
        requires { self.now.serial + 1 < 2 ^ 64 }
        ensures first { result.0 ≡ self.now.serial + 1 - length self.now.kept }
        ensures last { result.1 ≡ self.now.serial }
    {
        self.window.serials()
    }

    /// The operation of a serial that comes so many places behind the first.
    pub(crate) fn at(&self, place: u64) -> Option<Op>
        ensures { result ≡ slice_get self.now.kept place }
    {
        self.window.at(place)
    }

    /// Notes that a holder has these fields.
    #[inline(never)]
    fn note_holder(&mut self, holder: &Holder, day: u32)
        requires { self.old.serial + 1 < 2 ^ 64 }
        ensures { self.new ≡ noted self.old (Add, Org holder.now day) }
    {
        self.window.note_org(Act::Add, holder, day);
    }

    /// Notes a cut with its servers.
    fn note_cut(&mut self, act: Act, block: Range, servers: &Servers)
        requires { self.old.serial + 1 < 2 ^ 64 }
        ensures { self.new ≡ noted self.old (act, Cut block servers.now) }
    {
        self.window.note_cut(act, block, servers);
    }

    /// Notes the cuts of a reverse entry.
    fn note_cuts(&mut self, act: Act, range: &Range, servers: &Servers)
        requires { self.old.serial + length (cuts_of (range.now, servers.now)) < 2 ^ 64 }
        ensures { self.new ≡ all_noted self.old (map (λ o. (act, o)) (cuts_of (range.now, servers.now))) }
    {
        for block in cuts(*range) {
            self.note_cut(act, block, servers);
        }
    }

    /// Notes that the reverse entries inside a range go.
    #[inline(never)]
    fn note_dropped(&mut self, reverse: &RangeBook<Servers>, range: &Range)
        requires { self.old.serial + length (flat_map cuts_of (ranges_inside reverse.now.ranges range.now)) < 2 ^ 64 }
        ensures { self.new ≡ all_noted self.old (dels (flat_map cuts_of (ranges_inside reverse.now.ranges range.now))) }
    {
        reverse.are_apart();
        let _first = range.first();
        for (met, servers) in reverse.walk(range) {
            if met.inside(range) {
                self.note_cuts(Act::Del, &met, &servers);
            }
        }
    }

    /// Notes that a range has name servers, where it had none or others.
    #[inline(never)]
    fn note_servers(&mut self, reverse: &RangeBook<Servers>, range: &Range, servers: &Servers)
        requires { self.old.serial + length (server_changes range.now (value_of_range reverse.now.ranges range.now) servers.now) < 2 ^ 64 }
        ensures { self.new ≡ all_noted self.old (server_changes range.now (value_of_range reverse.now.ranges range.now) servers.now) }
    {
        if let Some(former) = &reverse.exact(range) {
            if servers == former {
                return;
            }
        }
        self.note_cuts(Act::Add, range, servers);
    }

    /// Notes a holder's fields, where it had others or had them since another day.
    #[inline(never)]
    fn note_edit(&mut self, holders: &HolderBook, holder: &Holder, day: u32)
        requires { self.old.serial + length (edit_changes (find (has_handle holder.now.handle) holders.now.holders) holder.now day) < 2 ^ 64 }
        ensures { self.new ≡ all_noted self.old (edit_changes (find (has_handle holder.now.handle) holders.now.holders) holder.now day) }
    {
        if let Some((former, former_day)) = &holder_named(holders, &holder.handle) {
            if holder != former || day != *former_day {
                self.note_holder(holder, day);
            }
        }
    }

    /// Notes that a sub goes.
    #[inline(never)]
    fn note_sub_gone(&mut self, holders: &HolderBook, range: &Range, sub: &Option<SubCard>)
        requires known { IfSome sub.now (λ card. card.holder < length holders.now.holders) }
        requires room { self.old.serial + length (option_map_or (λ card. dels (sub_of holders.now.holders (range.now, card) ∷ [])) sub.now []) < 2 ^ 64 }
        ensures { self.new ≡ all_noted self.old (option_map_or (λ card. dels (sub_of holders.now.holders (range.now, card) ∷ [])) sub.now []) }
    {
        if let Some(card) = sub {
            let (holder, _) = holders.holder(card.holder);
            self.window
                .note_sub(Act::Del, *range, holder.handle, card.day);
        }
    }

    /// Notes what an entry changes in the objects, where these pieces are touched, and the holders, subs and reverse entries
    /// are still those of the entries before it.
    pub(crate) fn note_entry(
        &mut self,
        holders: &HolderBook,
        subs: &RangeBook<SubCard>,
        reverse: &RangeBook<Servers>,
        entry: &Entry,
        touched: &Touched,
    )
        requires before { HaveHolders holders.now.holders touched.now.before.items }
        requires after { HaveHolders holders.now.holders touched.now.after.items }
        requires subs { AllByRecursion (λ s. s.1.holder < length holders.now.holders) subs.now.ranges }
        requires room { self.old.serial + length (entry_changes holders.now.holders subs.now.ranges reverse.now.ranges entry.now.day
            touched.now.before.items touched.now.after.items entry.now.request) < 2 ^ 64 }
        ensures { self.new ≡ all_noted self.old (entry_changes holders.now.holders subs.now.ranges reverse.now.ranges entry.now.day
            touched.now.before.items touched.now.after.items entry.now.request) }
    {
        let day = entry.day;
        match &entry.request {
            Request::AddHolder { holder } => self.note_holder(holder, day),
            Request::EditHolder { holder } => self.note_edit(holders, holder, day),
            Request::SubAssign { range, handle } => {
                self.window.note_sub(Act::Add, *range, *handle, day);
            }
            Request::SubReturn { range } => self.note_sub_gone(holders, range, &subs.exact(range)),
            Request::SetReverse { range, servers } => self.note_servers(reverse, range, servers),
            Request::ClearReverse { range } => self.note_cleared(reverse, range),
            Request::Return { range, .. } => self.note_return(holders, reverse, range, touched),
            _ => self.note_pieces(holders, touched),
        }
    }

    /// Notes that the reverse entry of a range goes.
    #[inline(never)]
    fn note_cleared(&mut self, reverse: &RangeBook<Servers>, range: &Range)
        requires { self.old.serial + length (option_map_or (λ servers. dels (cuts_of (range.now, servers))) (value_of_range reverse.now.ranges range.now) []) < 2 ^ 64 }
        ensures { self.new ≡ all_noted self.old (option_map_or (λ servers. dels (cuts_of (range.now, servers))) (value_of_range reverse.now.ranges range.now) []) }
    {
        if let Some(servers) = &reverse.exact(range) {
            self.note_cuts(Act::Del, range, servers);
        }
    }

    /// Notes that a range comes back, and that the reverse entries inside it go.
    #[inline(never)]
    fn note_return(
        &mut self,
        holders: &HolderBook,
        reverse: &RangeBook<Servers>,
        range: &Range,
        touched: &Touched,
    )
        requires before { HaveHolders holders.now.holders touched.now.before.items }
        requires after { HaveHolders holders.now.holders touched.now.after.items }
        requires room { self.old.serial + length (dels (blocks_of holders.now.holders (pieces_gone touched.now.before.items touched.now.after.items))
            ++ (dels (flat_map cuts_of (ranges_inside reverse.now.ranges range.now))
            ++ adds (blocks_of holders.now.holders (pieces_come touched.now.before.items touched.now.after.items)))) < 2 ^ 64 }
        ensures { self.new ≡ all_noted self.old (dels (blocks_of holders.now.holders (pieces_gone touched.now.before.items touched.now.after.items))
            ++ (dels (flat_map cuts_of (ranges_inside reverse.now.ranges range.now))
            ++ adds (blocks_of holders.now.holders (pieces_come touched.now.before.items touched.now.after.items)))) }
    {
        self.note_gone(holders, touched);
        self.note_dropped(reverse, range);
        self.note_come(holders, touched);
    }

    /// Notes the block that is published of a piece.
    fn note_block(&mut self, act: Act, piece: &Piece, holders: &HolderBook)
        requires known { IfSome piece.now.card.holder (λ number. number < length holders.now.holders) }
        requires serial { self.old.serial + 1 < 2 ^ 64 }
        ensures { self.new ≡ noted self.old (act, block_of_piece holders.now.holders piece.now) }
    {
        let handle = handle_of(piece.card.holder, holders);
        self.window.note_block(act, piece, handle);
    }

    /// Notes the pieces that go, and then those that come.
    fn note_pieces(&mut self, holders: &HolderBook, touched: &Touched)
        requires before { HaveHolders holders.now.holders touched.now.before.items }
        requires after { HaveHolders holders.now.holders touched.now.after.items }
        requires room { self.old.serial + length (dels (blocks_of holders.now.holders (pieces_gone touched.now.before.items touched.now.after.items))
            ++ adds (blocks_of holders.now.holders (pieces_come touched.now.before.items touched.now.after.items))) < 2 ^ 64 }
        ensures { self.new ≡ all_noted self.old (dels (blocks_of holders.now.holders (pieces_gone touched.now.before.items touched.now.after.items))
            ++ adds (blocks_of holders.now.holders (pieces_come touched.now.before.items touched.now.after.items))) }
    {
        self.note_gone(holders, touched);
        self.note_come(holders, touched);
    }

    /// Notes the pieces that go.
    fn note_gone(&mut self, holders: &HolderBook, touched: &Touched)
        requires known { HaveHolders holders.now.holders touched.now.before.items }
        requires room { self.old.serial + length (dels (blocks_of holders.now.holders (pieces_gone touched.now.before.items touched.now.after.items))) < 2 ^ 64 }
        ensures { self.new ≡ all_noted self.old (dels (blocks_of holders.now.holders (pieces_gone touched.now.before.items touched.now.after.items))) }
    {
        let after = touched.after.as_slice();
        let mut left = touched.before.as_slice();
        while let [piece, rest @ ..] = left {
            if goes(after, piece) {
                self.note_block(Act::Del, piece, holders);
            }
            left = rest;
        }
    }

    /// Notes the pieces that come.
    fn note_come(&mut self, holders: &HolderBook, touched: &Touched)
        requires known { HaveHolders holders.now.holders touched.now.after.items }
        requires room { self.old.serial + length (adds (blocks_of holders.now.holders (pieces_come touched.now.before.items touched.now.after.items))) < 2 ^ 64 }
        ensures { self.new ≡ all_noted self.old (adds (blocks_of holders.now.holders (pieces_come touched.now.before.items touched.now.after.items))) }
    {
        let before = touched.before.as_slice();
        let mut left = touched.after.as_slice();
        while let [piece, rest @ ..] = left {
            if comes(before, piece) {
                self.note_block(Act::Add, piece, holders);
            }
            left = rest;
        }
    }
}

/// The holder of a handle, and the day on which its fields were last given.
fn holder_named(holders: &HolderBook, handle: &Handle) -> Option<(Holder, u32)>
    ensures { result ≡ find (has_handle handle.now) holders.now.holders }
{
    match holders.by_handle(handle) {
        Some(number) => Some(*holders.holder(number)),
        None => None,
    }
}

/// The handle of a holder.
fn handle_of(holder: Option<u32>, holders: &HolderBook) -> Option<Handle>
    requires { IfSome holder (λ number. number < length holders.now.holders) }
    ensures { result ≡ handle_of holders.now.holders holder }
{
    match holder {
        Some(number) => {
            let (holder, _) = holders.holder(number);
            Some(holder.handle)
        }
        None => None,
    }
}
