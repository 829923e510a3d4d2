//! The register of a list of entries, kept as the definitions have it.
ghost use Rattle.std.specs.Prelude.{◌≡◌, ◌+◌, ◌<◌, ◌≤◌, ◌^◌, ◌==◌, if◌then◌else◌, IfOk, IfSome, length, vec_len, vec_capacity};
ghost use Rattle.reg_entry.specs.Rooms.{AreRooms};
ghost use Rattle.reg_entry.specs.Register.{empty_register, after_entry, register_pieces, piece_of, holders_after, subs_after, reverses_after};
ghost use Rattle.reg_entry.specs.Decision.{entry_day};
ghost use Rattle.reg_entry.specs.Holders.{holder_named};
ghost use Rattle.reg_entry.specs.Next.{IsNextEntry};
ghost use Rattle.reg_entry.specs.Pieces.{ArePieces};
ghost use Rattle.reg_entry.specs.Whole.{IsWholeRegister};
ghost use Rattle.plain_register.specs.FoundPiece.{IsFoundIn};
ghost use Rattle.reg_laws.specs.Reached.{IsReached};

use crate::holders::{edit, holder_named, holder_number};
use crate::pieces::piece_at;
use crate::pool::Pool;
use crate::ranges::{drop_inside, put, take_out};
use num_range::{Number, Range, Space};
use reg_entry::{Entry, Handle, Holder, Piece, Request, Rooms, Servers, SubCard, clamped_day};
use reg_laws::painting::next_entries_can_be_painted;
use reg_laws::reached::{entries_reach_registers, reached_registers_are_whole};
use reg_laws::whole::next_entry_keeps_whole;
use std::alloc::{AllocError, Global};
use std::marker::Model;

/// The register after the entries so far. Making one takes memory, and nothing after that does.
#[derive(Drop)]
pub struct PlainRegister {
    pub(crate) rooms: Rooms,
    pub(crate) entries: u64,
    pub(crate) first_day: u32,
    pub(crate) last_day: u32,
    pub(crate) pool: Pool,
    // In the order of their numbers, each with the day on which its fields were last given.
    pub(crate) holders: Vec<(Holder, u32)>,
    pub(crate) subs: Vec<(Range, SubCard)>,
    pub(crate) reverses: Vec<(Range, Servers)>,
}

impl Model for PlainRegister {
    ghost use Rattle.std.specs.Prelude.{vec_capacity};
    ghost use Rattle.reg_entry.specs.Register.{Register};
    ghost use Rattle.plain_register.specs.Kept.{register_of, IsKept};

    ghost Value = { Register };

    ghost view = { λ r. register_of r.rooms r.entries r.first_day r.last_day r.pool.partition r.holders.items r.subs.items r.reverses.items };

    ghost invariant = { λ r. IsKept (register_of r.rooms r.entries r.first_day r.last_day r.pool.partition r.holders.items r.subs.items r.reverses.items) r.pool.room (vec_capacity r.holders) (vec_capacity r.subs) (vec_capacity r.reverses) };
}

/// The day of the first entry, once there was one more on a day.
fn first_day_after(entries: u64, first_day: u32, day: u32) -> u32
    ensures { result ≡ (if entries == 0 then day else first_day) }
{
    if entries == 0 { day } else { first_day }
}

/// Changes the holders as an entry of the request and the day does.
fn change_holders(holders: &mut Vec<(Holder, u32)>, request: &Request, day: u32)
    requires room { vec_len holders.old < vec_capacity holders.old }
    ensures items { holders.new.items ≡ holders_after request.now day holders.old.items }
    ensures capacity { vec_capacity holders.old ≤ vec_capacity holders.new }
{
    match request {
        Request::AddHolder { holder } => holders.push_reserved((*holder, day)),
        Request::EditHolder { holder } => edit(holders, holder, day),
        Request::Receive { .. }
        | Request::Delegate { .. }
        | Request::Reserve { .. }
        | Request::Unreserve { .. }
        | Request::SubAssign { .. }
        | Request::SubReturn { .. }
        | Request::Return { .. }
        | Request::Release { .. }
        | Request::Split { .. }
        | Request::Join { .. }
        | Request::Transfer { .. }
        | Request::SetReverse { .. }
        | Request::ClearReverse { .. } => {}
    }
}

/// Changes the subs as an entry of the request and the day does.
fn change_subs(
    subs: &mut Vec<(Range, SubCard)>,
    holders: &[(Holder, u32)],
    request: &Request,
    day: u32,
)
    requires known { length holders.now < 2 ^ 32 }
    requires room { vec_len subs.old < vec_capacity subs.old }
    ensures items { subs.new.items ≡ subs_after request.now day holders.now subs.old.items }
    ensures capacity { vec_capacity subs.old ≤ vec_capacity subs.new }
{
    match request {
        Request::SubAssign { range, handle } => {
            if let Some(holder) = holder_number(holders, handle) {
                put(subs, range, SubCard { holder, day });
            }
        }
        Request::SubReturn { range } => take_out(subs, range),
        Request::Receive { .. }
        | Request::AddHolder { .. }
        | Request::EditHolder { .. }
        | Request::Delegate { .. }
        | Request::Reserve { .. }
        | Request::Unreserve { .. }
        | Request::Return { .. }
        | Request::Release { .. }
        | Request::Split { .. }
        | Request::Join { .. }
        | Request::Transfer { .. }
        | Request::SetReverse { .. }
        | Request::ClearReverse { .. } => {}
    }
}

/// Changes the reverse entries as an entry of the request does.
fn change_reverses(reverses: &mut Vec<(Range, Servers)>, request: &Request)
    requires room { vec_len reverses.old < vec_capacity reverses.old }
    ensures items { reverses.new.items ≡ reverses_after request.now reverses.old.items }
    ensures capacity { vec_capacity reverses.old ≤ vec_capacity reverses.new }
{
    match request {
        Request::SetReverse { range, servers } => put(reverses, range, *servers),
        Request::ClearReverse { range } => take_out(reverses, range),
        Request::Return { range, .. } => drop_inside(reverses, range),
        Request::Receive { .. }
        | Request::AddHolder { .. }
        | Request::EditHolder { .. }
        | Request::Delegate { .. }
        | Request::Reserve { .. }
        | Request::Unreserve { .. }
        | Request::SubAssign { .. }
        | Request::SubReturn { .. }
        | Request::Release { .. }
        | Request::Split { .. }
        | Request::Join { .. }
        | Request::Transfer { .. } => {}
    }
}

impl PlainRegister {
    /// The register of no entry.
    pub fn with_room(alloc: Global, rooms: Rooms) -> Result<PlainRegister, AllocError>
        requires { AreRooms rooms }
        ensures { IfOk result (λ register. register ≡ empty_register rooms) }
    {
        // A law: it is that of no entries.
        entries_reach_registers();
        Ok(PlainRegister {
            rooms,
            entries: 0,
            first_day: 0,
            last_day: 0,
            pool: Pool::with_room(alloc, rooms.pieces)?,
            holders: Vec::with_capacity(alloc, rooms.holders as usize + 1)?,
            subs: Vec::with_capacity(alloc, rooms.subs as usize + 1)?,
            reverses: Vec::with_capacity(alloc, rooms.reverse as usize + 1)?,
        })
    }

    /// Tells callers what every register keeps: it is that of a legal list of entries, and so it is whole.
    pub fn is_whole(&self)
        ensures reached { IsReached self.now }
        ensures whole { IsWholeRegister self.now }
        ensures rooms { AreRooms self.now.rooms }
    {
        // A law, for `whole`.
        reached_registers_are_whole();
        let _ = &self.rooms;
    }

    /// Takes in the next entry.
    pub fn apply(&mut self, e: &Entry)
        requires { IsNextEntry self.old e.now }
        ensures { self.new ≡ after_entry self.old e.now }
    {
        // Laws: what the register is and will be, and that an entry paints or reshapes.
        reached_registers_are_whole();
        entries_reach_registers();
        next_entry_keeps_whole();
        next_entries_can_be_painted();
        self.pool.change(e);
        change_subs(&mut self.subs, &self.holders, &e.request, e.day);
        change_holders(&mut self.holders, &e.request, e.day);
        change_reverses(&mut self.reverses, &e.request);
        self.first_day = first_day_after(self.entries, self.first_day, e.day);
        self.last_day = e.day;
        self.entries += 1;
    }

    /// How many entries there are.
    pub fn entries(&self) -> u64
        ensures entries { result ≡ self.now.entries }
        ensures bound { result ≤ 2 ^ 26 }
    {
        self.is_whole();
        self.entries
    }

    /// The day of the next entry: no entry is older than the one before it.
    pub fn entry_day(&self, day: u32) -> u32
        ensures { result ≡ entry_day self.now day }
    {
        clamped_day(day).max(self.last_day)
    }

    /// The holder with this handle.
    pub fn holder_named(&self, handle: &Handle) -> Option<Holder>
        ensures { result ≡ holder_named self.now.holders handle.now }
    {
        holder_named(&self.holders, handle)
    }

    /// The pieces of a space.
    pub(crate) fn pieces_in(&self, space: Space) -> &[Piece]
        ensures pieces { result.now ≡ register_pieces self.now space }
        ensures valid { ArePieces space result.now }
    {
        self.is_whole();
        self.pool.in_space(space)
    }

    /// The piece that holds the number.
    #[tactic(auto, using(crate::proofs::FoundPieces::found_if))]
    pub fn piece_of(&self, n: Number) -> Option<Piece>
        ensures piece { result ≡ piece_of self.now.pool n }
        ensures found { IfSome result (IsFoundIn n.space 0 n.value) }
    {
        piece_at(self.pieces_in(n.space()), n.value())
    }
}
