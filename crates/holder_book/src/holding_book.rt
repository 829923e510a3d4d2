ghost use Rattle.std.specs.Prelude.{◌≡◌, ℕ, ◌+◌, ◌^◌, ◌<◌, ◌≤◌, ◌&&◌, true, nat_eq, if◌then◌else◌, [], length, IfOk};
ghost use Rattle.num_range.specs.declared.space.Space.{Space as TheSpace};
ghost use Rattle.num_range.specs.Space.{same_space};
ghost use Rattle.reg_entry.specs.declared.card.Status.TheVariants.{Allocated};
ghost use Rattle.reg_entry.specs.Card.{same_status};
ghost use Rattle.reg_entry.specs.Holdings.{gives_held, held_by_card, allocated_by_card};
ghost use Rattle.holder_book.specs.HoldingBook.{of_space, with_space, held_in, allocated_in, used_in, used_of_card, holder_of, allocated_to};

use num_range::{Range, Space};
use reg_entry::{Card, Status};
use std::alloc::{AllocError, Global};
use std::marker::Model;

/// Of the numbers of one space that a holder holds: how many they are, how many of them are allocated, and how many of these
/// are used.
#[derive(Clone, Copy)]
pub struct Held {
    pub held: u128,
    pub allocated: u128,
    pub used: u128,
}

/// What a holder holds.
#[derive(Clone, Copy)]
pub struct Holding {
    asn: Held,
    ipv4: Held,
    ipv6: Held,
}

const NOTHING: Held = Held {
    held: 0,
    allocated: 0,
    used: 0,
};

impl Holding {
    fn of(self, space: Space) -> Held
        ensures { result ≡ of_space self space }
    {
        match space {
            Space::Asn => self.asn,
            Space::Ipv4 => self.ipv4,
            Space::Ipv6 => self.ipv6,
        }
    }

    fn with(self, space: Space, held: Held) -> Holding
        ensures { result ≡ with_space self space held }
    {
        match space {
            Space::Asn => Holding { asn: held, ..self },
            Space::Ipv4 => Holding { ipv4: held, ..self },
            Space::Ipv6 => Holding { ipv6: held, ..self },
        }
    }
}

/// The holder of the numbers with this card.
fn holder_of(card: &Card) -> Option<u32>
    ensures { result ≡ holder_of card.now }
{
    match card.status {
        Status::Allocated | Status::Assigned => card.holder,
        _ => None,
    }
}

/// To whom the numbers with this card are allocated.
fn allocated_to(card: &Card) -> Option<u32>
    ensures { result ≡ allocated_to card.now }
{
    match card.status {
        Status::Allocated => card.holder,
        _ => None,
    }
}

/// How many of so many numbers are allocated, where they have the card.
fn allocated_size(card: &Card, size: u128) -> u128
    ensures { result ≡ (if same_status card.now.status Allocated then size else 0) }
{
    match card.status {
        Status::Allocated => size,
        _ => 0,
    }
}

/// How many numbers each holder holds, by the holders' numbers from 0. Making one takes memory, and nothing after that
/// does.
#[derive(Drop)]
pub struct HoldingBook {
    holdings: Vec<Holding>,
    room: u32,
}

impl Model for HoldingBook {
    ghost use Rattle.std.specs.Prelude.{vec_capacity};
    ghost use Rattle.holder_book.specs.HoldingBook.{PlainHoldingBook, IsHoldingBook};

    ghost Value = { PlainHoldingBook };

    ghost view = { λ b. record { holdings = b.holdings.items; room = b.room } };

    ghost invariant = { λ b. IsHoldingBook b.holdings.items b.room (vec_capacity b.holdings) };
}

impl HoldingBook {
    /// A book without holders, for as many as the room says.
    pub fn with_room(alloc: Global, room: u32) -> Result<HoldingBook, AllocError>
        requires least { 1 ≤ room }
        requires most { room ≤ 2 ^ 30 }
        ensures { IfOk result (λ book. book ≡ record { holdings = []; room = room }) }
    {
        Ok(HoldingBook {
            holdings: Vec::with_capacity(alloc, room as usize)?,
            room,
        })
    }

    /// Adds a holder, under the next number, who holds nothing.
    pub fn add(&mut self)
        requires { length self.old.holdings < self.old.room }
        ensures count { length self.new.holdings ≡ length self.old.holdings + 1 }
        ensures held { (holder : ℕ) (space : TheSpace) → held_in self.new holder space ≡ held_in self.old holder space }
        ensures allocated { (holder : ℕ) (space : TheSpace)
            → allocated_in self.new holder space ≡ allocated_in self.old holder space }
        ensures used { (holder : ℕ) (space : TheSpace) → used_in self.new holder space ≡ used_in self.old holder space }
        ensures room { self.new.room ≡ self.old.room }
    {
        self.holdings.push_reserved(Holding {
            asn: NOTHING,
            ipv4: NOTHING,
            ipv6: NOTHING,
        });
    }

    /// How many numbers of the space the holder holds: 0 where there is no holder of this number.
    pub fn held(&self, holder: u32, space: Space) -> u128
        ensures { result ≡ held_in self.now holder space }
    {
        self.numbers(holder, space).held
    }

    /// How many numbers of the space are allocated to the holder: 0 where there is no holder of this number.
    pub fn allocated(&self, holder: u32, space: Space) -> u128
        ensures { result ≡ allocated_in self.now holder space }
    {
        self.numbers(holder, space).allocated
    }

    /// How many of these are used, that is sub-assigned: 0 where there is no holder of this number.
    pub fn used(&self, holder: u32, space: Space) -> u128
        ensures { result ≡ used_in self.now holder space }
    {
        self.numbers(holder, space).used
    }

    /// The numbers of the range have the card from now on.
    pub fn give(&mut self, card: &Card, range: &Range)
        requires known { (holder : ℕ) → gives_held holder card.now ≡ true → holder < length self.old.holdings }
        requires held_fits { (holder : ℕ) (space : TheSpace)
            → held_in self.old holder space + held_by_card holder space range.now card.now < 2 ^ 128 }
        requires allocated_fits { (holder : ℕ) (space : TheSpace)
            → allocated_in self.old holder space + allocated_by_card holder space range.now card.now < 2 ^ 128 }
        ensures held { (holder : ℕ) (space : TheSpace)
            → held_in self.new holder space ≡ held_in self.old holder space + held_by_card holder space range.now card.now }
        ensures allocated { (holder : ℕ) (space : TheSpace)
            → allocated_in self.new holder space
            ≡ allocated_in self.old holder space + allocated_by_card holder space range.now card.now }
        ensures used { (holder : ℕ) (space : TheSpace) → used_in self.new holder space ≡ used_in self.old holder space }
        ensures count { length self.new.holdings ≡ length self.old.holdings }
        ensures room { self.new.room ≡ self.old.room }
    {
        if let Some(holder) = holder_of(card) {
            let space = range.space();
            let mut numbers = self.numbers(holder, space);
            let size = range.size();
            numbers.held += size;
            numbers.allocated += allocated_size(card, size);
            self.put(holder, space, numbers);
        }
    }

    /// The numbers of the range, which had the card, no longer have it.
    pub fn take(&mut self, card: &Card, range: &Range)
        requires held { (holder : ℕ) (space : TheSpace)
            → held_by_card holder space range.now card.now ≤ held_in self.old holder space }
        requires allocated { (holder : ℕ) (space : TheSpace)
            → allocated_by_card holder space range.now card.now ≤ allocated_in self.old holder space }
        ensures held { (holder : ℕ) (space : TheSpace)
            → held_in self.new holder space + held_by_card holder space range.now card.now ≡ held_in self.old holder space }
        ensures allocated { (holder : ℕ) (space : TheSpace)
            → allocated_in self.new holder space + allocated_by_card holder space range.now card.now
            ≡ allocated_in self.old holder space }
        ensures used { (holder : ℕ) (space : TheSpace) → used_in self.new holder space ≡ used_in self.old holder space }
        ensures count { length self.new.holdings ≡ length self.old.holdings }
        ensures room { self.new.room ≡ self.old.room }
    {
        if let Some(holder) = holder_of(card) {
            let space = range.space();
            let mut numbers = self.numbers(holder, space);
            let size = range.size();
            numbers.held -= size;
            numbers.allocated -= allocated_size(card, size);
            self.put(holder, space, numbers);
        }
    }

    /// Of the numbers of the range, which have the card, so many more are used.
    pub fn use_more(&mut self, card: &Card, range: &Range, used: u128)
        requires known { (holder : ℕ) → gives_held holder card.now ≡ true → holder < length self.old.holdings }
        requires fits { (holder : ℕ) (space : TheSpace)
            → used_in self.old holder space + used_of_card holder space range.now card.now used < 2 ^ 128 }
        ensures held { (holder : ℕ) (space : TheSpace) → held_in self.new holder space ≡ held_in self.old holder space }
        ensures allocated { (holder : ℕ) (space : TheSpace)
            → allocated_in self.new holder space ≡ allocated_in self.old holder space }
        ensures used { (holder : ℕ) (space : TheSpace)
            → used_in self.new holder space
            ≡ used_in self.old holder space + used_of_card holder space range.now card.now used }
        ensures count { length self.new.holdings ≡ length self.old.holdings }
        ensures room { self.new.room ≡ self.old.room }
    {
        if let Some(holder) = allocated_to(card) {
            let space = range.space();
            let mut numbers = self.numbers(holder, space);
            numbers.used += used;
            self.put(holder, space, numbers);
        }
    }

    /// Of the numbers of the range, which have the card, so many are no longer used.
    pub fn use_less(&mut self, card: &Card, range: &Range, used: u128)
        requires { (holder : ℕ) (space : TheSpace)
            → used_of_card holder space range.now card.now used ≤ used_in self.old holder space }
        ensures held { (holder : ℕ) (space : TheSpace) → held_in self.new holder space ≡ held_in self.old holder space }
        ensures allocated { (holder : ℕ) (space : TheSpace)
            → allocated_in self.new holder space ≡ allocated_in self.old holder space }
        ensures used { (holder : ℕ) (space : TheSpace)
            → used_in self.new holder space + used_of_card holder space range.now card.now used ≡ used_in self.old holder space }
        ensures count { length self.new.holdings ≡ length self.old.holdings }
        ensures room { self.new.room ≡ self.old.room }
    {
        if let Some(holder) = allocated_to(card) {
            if used > 0 {
                let space = range.space();
                let mut numbers = self.numbers(holder, space);
                numbers.used -= used;
                self.put(holder, space, numbers);
            }
        }
    }

    /// What the holder has of the space.
    fn numbers(&self, holder: u32, space: Space) -> Held
        ensures held { result.held ≡ held_in self.now holder space }
        ensures allocated { result.allocated ≡ allocated_in self.now holder space }
        ensures used { result.used ≡ used_in self.now holder space }
    {
        match self.holdings.get(holder as usize) {
            Some(holding) => holding.of(space),
            None => NOTHING,
        }
    }

    /// Gives the holder so much of the space.
    fn put(&mut self, holder: u32, space: Space, numbers: Held)
        requires { holder < length self.old.holdings }
        ensures held { (other : ℕ) (t : TheSpace)
            → held_in self.new other t
            ≡ (if nat_eq holder other && same_space space t then numbers.held else held_in self.old other t) }
        ensures allocated { (other : ℕ) (t : TheSpace)
            → allocated_in self.new other t
            ≡ (if nat_eq holder other && same_space space t then numbers.allocated else allocated_in self.old other t) }
        ensures used { (other : ℕ) (t : TheSpace)
            → used_in self.new other t
            ≡ (if nat_eq holder other && same_space space t then numbers.used else used_in self.old other t) }
        ensures count { length self.new.holdings ≡ length self.old.holdings }
        ensures room { self.new.room ≡ self.old.room }
    {
        let i = holder as usize;
        self.holdings[i] = self.holdings[i].with(space, numbers);
    }
}
