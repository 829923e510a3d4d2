//! Those who look.
ghost use Rattle.std.specs.Prelude.{◌≡◌, true, false, length, IfOk, OnOk, OnErr, MatchOption};
ghost use Rattle.left_right.specs.Sides.{view};
ghost use mathlib.Core.List.{IsPrefix};
ghost use Rattle.reg_entry.specs.Operations.{board_after};
ghost use Rattle.reg_entry.specs.Next.{IsLegal};
ghost use Rattle.reader_edge.specs.Refusals.{raised};
ghost use Rattle.snapshot_pub.specs.Pass.{KnowsAll};
ghost use Rattle.snapshot_pub.specs.Faults.{is_shut};

use crate::rule::{Looking, Published};
use crate::shown::Shown;
use crate::view::View;
use crate::{LookFault, Shut, Told};
use board::{Answer, Lens};
use entry_log::Front;
use left_right::reader::Reader;
use op_feed::laws::reached_boards_are_whole;
use reader_edge::EdgeReader;
use reg_entry::Rooms;
use reg_laws::reached::reached_registers_count;
use std::alloc::Global;
use std::marker::Model;

/// One who looks at what is published, and never sees less than it has seen. It may go from thread to thread.
#[derive(Drop)]
pub struct Pass {
    edge: EdgeReader<Shown, View, Published>,
    rooms: Rooms,
    front: Front,
}

impl Model for Pass {
    ghost use Rattle.std.specs.Prelude.{MatchOption};
    ghost use Rattle.left_right.specs.Sides.{view as view_of};
    ghost use Rattle.reg_entry.specs.Next.{IsLegal};
    ghost use Rattle.snapshot_pub.specs.Pass.{PlainPass, KnowsAll};

    ghost Value = { PlainPass };

    ghost view = { λ p. record { book = p.front.book; rooms = p.rooms; entries = p.front.entries; shuts = p.edge.refusals } };

    ghost invariant = { λ p. IsLegal p.rooms p.front.entries × MatchOption p.edge.reader (Unit {0}) (λ r. KnowsAll (view_of r.place) p.rooms p.front) };
}

impl Pass {
    /// A pass that has seen a list, as its reader has, if it has one.
    pub(crate) fn new(
        reader: Option<Reader<Shown, View, Published>>,
        rooms: Rooms,
        front: Front,
    ) -> Pass
        requires legal { IsLegal rooms front.entries }
        requires knows { MatchOption reader (Unit {0}) (λ r. KnowsAll (view r.place) rooms front) }
        ensures { result ≡ record { book = front.book; rooms = rooms; entries = front.entries; shuts = 0 } }
    {
        Pass {
            edge: EdgeReader::new(reader),
            rooms,
            front,
        }
    }

    /// Asks the question of what is published. The list that was looked at begins with all that this pass had seen, and is
    /// what it has seen from then on. Where it is shut nothing changes but the count.
    pub fn look<L: Lens>(&mut self, alloc: Global, lens: &L) -> Result<Answer, LookFault>
        ensures answer { IfOk result (λ a. L.answers lens.now (board_after self.new.rooms self.new.entries) a) }
        ensures entries { IfOk result (λ a. a.entries ≡ length self.new.entries) }
        ensures seen { IsPrefix self.old.entries self.new.entries }
        ensures legal { IsLegal self.new.rooms self.new.entries }
        ensures shut { is_shut result ≡ true → (self.new.shuts ≡ raised self.old.shuts) × (self.new.entries ≡ self.old.entries) }
        ensures open { is_shut result ≡ false → self.new.shuts ≡ self.old.shuts }
        ensures same { (self.new.book ≡ self.old.book) × (self.new.rooms ≡ self.old.rooms) }
    {
        // Laws: the board's register counts the list.
        reached_boards_are_whole();
        reached_registers_count();
        let Some(reading) = self.edge.enter::<Looking>() else {
            return Err(LookFault::Shut);
        };
        let shown = reading.get();
        self.front = shown.front.again();
        let answer = lens.read(alloc, &shown.board);
        self.edge.leave(reading);
        match answer {
            Ok(answer) => Ok(answer),
            Err(_) => Err(LookFault::NoMemory),
        }
    }

    /// Sees what is published, if that begins with what was told. It takes no memory.
    pub fn learn(&mut self, told: Told) -> Result<(), Shut>
        requires book { told.book ≡ self.old.book }
        ensures seen { IsPrefix self.old.entries self.new.entries }
        ensures told { OnOk result (IsPrefix told.entries self.new.entries) }
        ensures legal { IsLegal self.new.rooms self.new.entries }
        ensures shut { OnErr result ((self.new.shuts ≡ raised self.old.shuts) × (self.new.entries ≡ self.old.entries)) }
        ensures open { OnOk result (self.new.shuts ≡ self.old.shuts) }
        ensures same { (self.new.book ≡ self.old.book) × (self.new.rooms ≡ self.old.rooms) }
    {
        let Some(reading) = self.edge.enter::<Looking>() else {
            return Err(Shut);
        };
        let front = reading.get().front.again();
        self.edge.leave(reading);
        if !told.begins(&front) {
            self.edge.refuse();
            return Err(Shut);
        }
        self.front = front;
        Ok(())
    }

    /// Tells callers what every pass keeps: the list that it has seen is legal.
    pub fn is_legal(&self)
        ensures { IsLegal self.now.rooms self.now.entries }
    {
        let _ = &self.rooms;
    }

    /// How often it was shut, up to the greatest number of the type, at which the count stays.
    pub fn shuts(&self) -> u64
        ensures { result ≡ self.now.shuts }
    {
        self.edge.refusals()
    }

    /// How many entries it has seen.
    pub fn entries(&self) -> u64
        ensures { result ≡ length self.now.entries }
    {
        self.front.entries()
    }
}
