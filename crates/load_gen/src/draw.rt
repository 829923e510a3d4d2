ghost use Rattle.std.specs.Prelude.{◌≡◌, ◌<◌, ◌^◌, nat_le};
ghost use Rattle.reg_entry.specs.Request.{IsSizedRequest};
ghost use Rattle.load_gen.specs.Draw.{high_bits, asking, kind, rest, draw_day, drawn_address};
ghost use Rattle.load_gen.specs.Drawn.{drawn_request};

use crate::holders::handle;
use num_range::{Number, Range, Space};
use reg_entry::{Delegation, Request};
use std::marker::Model;

/// The day on which a load begins, 2024-01-01.
pub const FIRST_DAY: u32 = 19723;

/// What a load asks next, but for the piece that it may name.
#[derive(Clone, Copy)]
pub struct Draw {
    place: u32,
    number: u64,
}

impl Model for Draw {
    ghost use Rattle.load_gen.specs.Draw.{PlainDraw};

    ghost Value = { PlainDraw };

    ghost view = { λ d. record { place = d.place; number = d.number } };

    ghost inverse = { λ d. record { place = d.place; number = d.number } };
}

impl Draw {
    /// The draw of a place whose number is known.
    pub(crate) fn of(place: u32, number: u64) -> Draw
        ensures { result ≡ record { place = place; number = number } }
    {
        Draw { place, number }
    }

    /// The bits of the number above its lowest 33.
    fn high_bits(&self) -> u64
        ensures bits { result ≡ high_bits self.now }
        ensures few { result < 2 ^ 31 }
    {
        self.number / (1 << 33)
    }

    /// Which holder asks, from 0 to 7.
    fn asking(&self) -> u8
        ensures asking { result ≡ asking self.now }
        ensures few { result < 8 }
    {
        (self.high_bits() % 8) as u8
    }

    /// What is asked for, from 0 to 7.
    fn kind(&self) -> u8
        ensures kind { result ≡ kind self.now }
        ensures few { result < 8 }
    {
        (self.high_bits() / 8 % 8) as u8
    }

    /// What is left of the number.
    fn rest(&self) -> u32
        ensures { result ≡ rest self.now }
    {
        (self.high_bits() / 64) as u32
    }

    /// The day on which it is asked, counted from 1970-01-01.
    pub fn day(&self) -> u32
        ensures { result ≡ draw_day self.now }
    {
        FIRST_DAY + self.place / 16
    }

    /// The address whose piece the request may name.
    pub fn at(&self) -> Number
        ensures { result ≡ drawn_address self.now }
    {
        Number::of(
            Space::Ipv4,
            0x0a00_0000 + u128::from(self.rest() % (1 << 18)),
        )
    }

    /// Whether the request names the piece of the address. A delegation names none.
    pub fn names_piece(&self) -> bool
        ensures { result ≡ nat_le 5 (kind self.now) }
    {
        self.kind() >= 5
    }

    /// What is asked, where this is the piece of the address.
    pub fn request(&self, piece: Range) -> Request
        ensures request { result ≡ drawn_request self.now piece }
        ensures sized { IsSizedRequest result }
    {
        let rest = self.rest();
        let asking = handle(self.asking());
        match self.kind() {
            0..=2 => Request::Delegate {
                space: Space::Ipv4,
                amount: 20 + rest % 9,
                status: Delegation::Allocate,
                handle: asking,
            },
            3 => Request::Delegate {
                space: Space::Ipv6,
                amount: 36 + rest % 13,
                status: Delegation::Allocate,
                handle: asking,
            },
            4 => Request::Delegate {
                space: Space::Asn,
                amount: 1 + rest % 4,
                status: Delegation::Assign,
                handle: asking,
            },
            5 => Request::Return {
                range: piece,
                handle: asking,
            },
            6 => Request::Release { range: piece },
            _ => Request::Transfer {
                range: piece,
                from: asking,
                to: handle((rest % 8) as u8),
            },
        }
    }
}
