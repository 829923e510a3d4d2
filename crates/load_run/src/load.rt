//! The register of a load.
ghost use Rattle.std.specs.Prelude.{◌≡◌, ◌≤◌, ◌<◌, ◌+◌, ◌^◌, true, None, IfOk};
ghost use Rattle.reg_entry.specs.Decision.{IfAccepted};
ghost use Rattle.reg_entry.specs.Next.{IsNextEntry};
ghost use Rattle.reg_entry.specs.Request.{IsSizedRequest};
ghost use Rattle.reg_entry.specs.Rooms.{AreRooms};
ghost use Rattle.policy_table.specs.Policy.{first_name};
ghost use Rattle.load_gen.specs.Load.{new_load, after_reply, after_request, after_requests, drawn_piece, after_draw, after_naming, loaded};
ghost use Rattle.board.specs.Subject.{IsSubjectOf};
ghost use Rattle.request_core.specs.Undated.{undated_refusal};
ghost use Rattle.load_gen.specs.Opening.{opening_requests};
ghost use Rattle.load_run.specs.Drawable.{HasAllDrawn};

use board::{Board, Subject};
use load_gen::laws::delegations_name_no_piece;
use load_gen::{Draw, Draws, FIRST_DAY, OPENING_REQUESTS, opening_request};
use num_range::{Number, Range, Space};
use policy_table::Policy;
use reg_entry::{Reply, Request, Rooms};
use reg_laws::reached::next_entries_conserve;
use request_core::{decide_on_day, undated_refusal};
use std::alloc::{AllocError, Global};
use std::marker::Model;

/// The first and the last of the addresses that may be drawn, 10.0.0.0 and 10.3.255.255.
const FIRST_ADDRESS: u128 = 0x0a00_0000;

const LAST_ADDRESS: u128 = 0x0a03_ffff;

/// A load under way, for the first hostmaster of a policy. Making one takes memory, and nothing after that does.
#[derive(Drop)]
pub(crate) struct Load<'a> {
    board: Board,
    refused: u64,
    policy: &'a Policy,
    // Whether each address that may be drawn is in the pool. Where it is so it stays so, and the piece of an address need be
    // looked up for a request alone that names it.
    drawable: bool,
}

impl<'a> Model for Load<'a> {
    ghost use Rattle.policy_table.specs.Policy.{first_name};
    ghost use Rattle.load_gen.specs.Load.{PlainLoad};
    ghost use Rattle.load_run.specs.Drawable.{HasAllDrawn};
    ghost use Rattle.std.specs.Prelude.{◌≡◌, true};

    ghost Value = { PlainLoad };

    ghost view = { λ l. record { register = l.board.register; refused = l.refused; policy = l.policy.now; who = first_name l.policy.now.hostmasters } };

    ghost invariant = { λ l. l.drawable ≡ true → HasAllDrawn l.board.register.pool };
}

impl<'a> Load<'a> {
    /// A load of which nothing is asked yet.
    fn new(alloc: Global, rooms: Rooms, policy: &'a Policy) -> Result<Load<'a>, AllocError>
        requires { AreRooms rooms }
        ensures { IfOk result (λ load. load ≡ new_load rooms policy.now (first_name policy.now.hostmasters)) }
    {
        Ok(Load {
            board: Board::with_room(alloc, rooms)?,
            refused: 0,
            policy,
            drawable: false,
        })
    }

    /// Takes in the entry of an accepted request, and counts a refused one.
    fn take(&mut self, reply: &Reply)
        requires next { IfAccepted reply.now (IsNextEntry self.old.register) }
        requires few { self.old.refused + 1 < 2 ^ 64 }
        ensures load { self.new ≡ after_reply self.old reply.now }
        ensures few { self.new.refused ≤ self.old.refused + 1 }
    {
        // A law, for the addresses that may be drawn: no number leaves the pool.
        next_entries_conserve();
        self.board.is_whole();
        match reply {
            Reply::Accepted(entry) => self.board.apply(entry),
            Reply::Refused(_) => self.refused += 1,
        }
    }

    /// Asks, on the day, what isn't refused whatever the day.
    fn ask_on_day(&mut self, day: u32, request: &Request, subject: &Subject)
        requires subject { IsSubjectOf self.old.register request.now subject.now }
        requires few { self.old.refused + 1 < 2 ^ 64 }
        requires sized { IsSizedRequest request.now }
        requires unopposed { undated_refusal self.old.register self.old.policy self.old.who request.now ≡ None }
        ensures load { self.new ≡ after_request self.old day request.now }
        ensures few { self.new.refused ≤ self.old.refused + 1 }
    {
        let who = self.policy.first_hostmaster();
        let reply = decide_on_day(&self.board, self.policy, day, who, request, subject);
        self.take(&reply);
    }

    /// Asks on the day. Nine requests in ten are refused before there is an entry, which then needn't be made room for.
    fn ask(&mut self, day: u32, request: &Request)
        requires few { self.old.refused + 1 < 2 ^ 64 }
        ensures load { self.new ≡ after_request self.old day request.now }
        ensures few { self.new.refused ≤ self.old.refused + 1 }
    {
        let who = self.policy.first_hostmaster();
        let subject = self.board.subject(request);
        match undated_refusal(&self.board, self.policy, who, request, &subject) {
            Some(_) => self.refused += 1,
            None => self.ask_on_day(day, request, &subject),
        }
    }

    /// The range of the piece whose numbers a draw may name.
    fn piece_of(&self, draw: &Draw) -> Option<Range>
        ensures { result ≡ drawn_piece self.now.register draw.now }
    {
        let piece = self.board.pieces().piece_at(draw.at())?;
        Some(piece.range)
    }

    /// Whether one piece has all addresses that may be drawn.
    fn has_addresses(&self) -> bool
        ensures { result ≡ true → HasAllDrawn self.now.register.pool }
    {
        let first = Number::of(Space::Ipv4, FIRST_ADDRESS);
        match self.board.pieces().piece_at(first) {
            Some(piece) => LAST_ADDRESS <= piece.range.last(),
            None => false,
        }
    }

    /// Looks whether each address that may be drawn is in the pool.
    fn look_for_addresses(&mut self)
        ensures { self.new ≡ self.old }
    {
        self.drawable = self.has_addresses();
    }

    /// Whether it is known that each address that may be drawn is in the pool.
    fn is_drawable(&self) -> bool
        ensures { result ≡ true → HasAllDrawn self.now.register.pool }
    {
        self.drawable
    }

    /// A range with which the request of a draw is asked: any, where it names no piece and the pool is known to have the
    /// address.
    fn named_range(&self, draw: &Draw) -> Option<Range>
        ensures { after_naming self.now draw.now result ≡ after_draw self.now draw.now }
    {
        if self.is_drawable() && !draw.names_piece() {
            // A law: the request is the same whatever the piece.
            delegations_name_no_piece();
            return Some(Range::between(Space::Ipv4, FIRST_ADDRESS, LAST_ADDRESS));
        }
        self.piece_of(draw)
    }

    /// Asks what is drawn.
    fn draw(&mut self, draw: &Draw)
        requires few { self.old.refused + 1 < 2 ^ 64 }
        ensures load { self.new ≡ after_draw self.old draw.now }
        ensures few { self.new.refused ≤ self.old.refused + 1 }
    {
        if let Some(piece) = self.named_range(draw) {
            self.ask(draw.day(), &draw.request(piece));
        }
    }

    /// The register.
    pub(crate) fn board(&self) -> &Board
        ensures { result.now.register ≡ self.now.register }
    {
        &self.board
    }

    /// How many requests were refused.
    pub(crate) fn refused(&self) -> u64
        ensures { result ≡ self.now.refused }
    {
        self.refused
    }
}

/// The load after the requests with which every one begins.
fn open(alloc: Global, rooms: Rooms, policy: &Policy) -> Result<Load<'_>, AllocError>
    requires { AreRooms rooms }
    ensures load { IfOk result (λ load. load ≡ after_requests (new_load rooms policy.now (first_name policy.now.hostmasters)) opening_requests) }
    ensures few { IfOk result (λ load. load.refused ≤ 11) }
{
    let mut load = Load::new(alloc, rooms, policy)?;
    for i in 0..OPENING_REQUESTS {
        load.ask(FIRST_DAY, &opening_request(i));
    }
    load.look_for_addresses();
    Ok(load)
}

/// The load after so many draws of the seed.
pub(crate) fn load_of(
    alloc: Global,
    rooms: Rooms,
    policy: &Policy,
    seed: u64,
    count: u32,
) -> Result<Load<'_>, AllocError>
    requires { AreRooms rooms }
    ensures { IfOk result (λ load. load ≡ loaded rooms policy.now (first_name policy.now.hostmasters) seed count) }
{
    let mut load = open(alloc, rooms, policy)?;
    let mut draws = Draws::new(seed);
    while draws.given() < count {
        load.draw(&draws.next());
    }
    Ok(load)
}
