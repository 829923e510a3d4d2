//! The list of all entries, the register after them, and the press that publishes it.
ghost use Rattle.std.specs.Prelude.{◌≡◌, ◌≤◌, ◌++◌, ◌∷◌, [], length, All, IsOk, IfOk, IfErr, OnErr, IfSome, MatchResult};
ghost use mathlib.Core.List.{IsPrefix};
ghost use Rattle.reg_entry.specs.Rooms.{AreRooms};
ghost use Rattle.reg_entry.specs.Register.{register_after};
ghost use Rattle.reg_entry.specs.declared.refusal.Refusal.{Refusal};
ghost use Rattle.reg_entry.specs.declared.entry.Reply.TheVariants.{Accepted, Refused};
ghost use Rattle.reg_entry.specs.Decision.{decision, IfAccepted};
ghost use Rattle.reg_entry.specs.Next.{IsNextEntry, IsLegal};
ghost use Rattle.reg_entry.specs.Operations.{empty_board};
ghost use Rattle.op_feed.specs.ReachedBoard.{IsBoardOf};
ghost use Rattle.desk_text.specs.ReplyText.{ReplyHasDate};
ghost use Rattle.desk_book.specs.Faults.{entered_by_submit};
ghost use Rattle.desk_book.specs.Book.{settled, answered, first_pass, IsLeftAt, IsAllButOne};

use crate::SubmitFault;
use board::Board;
use desk_text::laws::replies_have_dates;
use op_feed::laws::{entries_reach_boards, reached_boards_are_whole};
use policy_table::Policy;
use reg_entry::{Entry, Name, Reply, Request, Rooms};
use request_core::decide;
use snapshot_pub::{Pass, Press, Told, open_snapshots};
use std::alloc::{AllocError, Global};
use std::marker::Model;
use std::sync::Wait;

/// All entries, the register after them, and what of them is published: all, or all but the last, which is owed. It isn't
/// dropped: `close` ends it.
pub struct Book {
    // It grows in steps that double.
    list: Vec<Entry>,
    head: Board,
    press: Press,
    // The last entry, where it isn't published yet.
    owed: Option<Entry>,
}

impl Model for Book {
    ghost use Rattle.desk_book.specs.Book.{PlainBook, IsKeptBook};

    ghost Value = { PlainBook };

    ghost view = { λ b. record { book = b.press.book; rooms = b.press.rooms; entries = b.list.items; published = b.press.published } };

    ghost invariant = { λ b. IsKeptBook b.list.items b.head b.press b.owed };
}

impl Book {
    /// A book without entries, and those who look at what it publishes. Three boards take all the memory that their rooms
    /// ask for; the list takes its own as it grows.
    pub fn open<R: Wait>(
        rt: &R,
        alloc: Global,
        rooms: Rooms,
        passes: u32,
    ) -> Result<(Book, Vec<Pass>), AllocError>
        requires rooms { AreRooms rooms }
        requires passes { 1 ≤ passes }
        ensures rooms { IfOk result (λ r. r.0.rooms ≡ rooms) }
        ensures entries { IfOk result (λ r. (r.0.entries ≡ []) × (r.0.published ≡ [])) }
        ensures count { IfOk result (λ r. length r.1.items ≡ passes) }
        ensures passes { IfOk result (λ r. All (λ p. p ≡ first_pass r.0) r.1.items) }
    {
        let head = Board::with_room(alloc, rooms)?;
        let one = Board::with_room(alloc, rooms)?;
        let two = Board::with_room(alloc, rooms)?;
        let (press, passes) = open_snapshots(rt, alloc, one, two, &[], passes)?;
        let book = Book {
            list: Vec::new(alloc),
            head,
            press,
            owed: None,
        };
        Ok((book, passes))
    }

    /// Publishes the entry that is owed, if one is. It wants memory only for that; where there is none nothing changes.
    pub fn settle<R: Wait>(&mut self, rt: &R) -> Result<Told, AllocError>
        ensures settled { MatchResult result (λ told. self.new ≡ settled self.old) (λ fault. self.new ≡ self.old) }
        ensures told { IfOk result (λ told. (told.book ≡ self.old.book) × (told.entries ≡ self.old.entries)) }
        ensures owed { self.old.published ≡ self.old.entries → IsOk result }
    {
        match &self.owed {
            None => Ok(self.press.told()),
            Some(entry) => match self.press.put(entry) {
                Ok(()) => {
                    self.owed = None;
                    Ok(self.press.publish(rt))
                }
                Err(fault) => Err(fault),
            },
        }
    }

    /// Puts the entry of an accepted request behind all entries, of which all are published, and publishes it.
    fn enter<R: Wait>(&mut self, rt: &R, e: &Entry) -> Result<Told, SubmitFault>
        requires next { IsNextEntry (register_after self.old.rooms self.old.entries) e.now }
        requires settled { self.old.published ≡ self.old.entries }
        ensures answered { IfOk result (λ told. self.new ≡ answered self.old (Accepted e.now)) }
        ensures told { IfOk result (λ told. (told.book ≡ self.old.book) × (told.entries ≡ self.old.entries ++ e.now ∷ [])) }
        ensures fault { IfErr result (λ fault. IsLeftAt (entered_by_submit fault) (Accepted e.now) self.old.entries self.new.entries) }
        ensures owed { OnErr result (self.new.published ≡ self.old.published) }
        ensures same { (self.new.book ≡ self.old.book) × (self.new.rooms ≡ self.old.rooms) }
    {
        // Laws: the board after the entry is that of the list with it.
        entries_reach_boards();
        reached_boards_are_whole();
        match self.list.push(*e) {
            Ok(()) => {}
            Err(_) => return Err(SubmitFault::NoMemory { entered: None }),
        }
        self.head.apply(e);
        match self.press.put(e) {
            Ok(()) => Ok(self.press.publish(rt)),
            Err(_) => {
                self.owed = Some(*e);
                let entered = Some(self.list.len() as u64);
                Err(SubmitFault::NoMemory { entered })
            }
        }
    }

    /// Publishes what is owed and decides the request on the register after all entries. The entry that it becomes is put
    /// behind them, and all is published before this returns. A refusal takes no memory but for what was owed.
    pub fn submit<R: Wait>(
        &mut self,
        rt: &R,
        policy: &Policy,
        day: u32,
        who: &Name,
        request: &Request,
    ) -> Result<(Reply, Told), SubmitFault>
        ensures reply { IfOk result (λ r. r.0 ≡ decision (register_after self.old.rooms self.old.entries) policy.now day who.now request.now) }
        ensures answered { IfOk result (λ r. self.new ≡ answered self.old r.0) }
        ensures told { IfOk result (λ r. (r.1.book ≡ self.new.book) × (r.1.entries ≡ self.new.entries)) }
        ensures date { IfOk result (λ r. ReplyHasDate r.0) }
        ensures fault { IfErr result (λ fault. IsLeftAt (entered_by_submit fault) (decision (register_after self.old.rooms self.old.entries) policy.now day who.now request.now) self.old.entries self.new.entries) }
        ensures owed { IfErr result (λ fault. IfSome (entered_by_submit fault) (λ number. self.new.published ≡ self.old.entries)) }
        ensures refused { (refusal : Refusal) → self.old.published ≡ self.old.entries → decision (register_after self.old.rooms self.old.entries) policy.now day who.now request.now ≡ Refused refusal → IsOk result }
        ensures published { IsPrefix self.old.published self.new.published }
        ensures same { (self.new.book ≡ self.old.book) × (self.new.rooms ≡ self.old.rooms) }
    {
        // What every book keeps, for `published`.
        self.is_whole();
        let told = match self.settle(rt) {
            Ok(told) => told,
            Err(_) => return Err(SubmitFault::NoMemory { entered: None }),
        };
        let reply = self.decided(policy, day, who, request);
        match &reply {
            Reply::Refused(_) => Ok((reply, told)),
            Reply::Accepted(entry) => match self.enter(rt, entry) {
                Ok(told) => Ok((reply, told)),
                Err(fault) => Err(fault),
            },
        }
    }

    /// Tells callers what every book keeps: its list is legal, and all of it is published, or all but the last entry.
    pub fn is_whole(&self)
        ensures legal { IsLegal self.now.rooms self.now.entries }
        ensures published { IsAllButOne self.now.published self.now.entries }
    {
        let _ = &self.owed;
    }

    /// The decision on the register after all entries.
    fn decided(&self, policy: &Policy, day: u32, who: &Name, request: &Request) -> Reply
        ensures reply { result ≡ decision (register_after self.now.rooms self.now.entries) policy.now day who.now request.now }
        ensures next { IfAccepted result (IsNextEntry (register_after self.now.rooms self.now.entries)) }
        ensures date { ReplyHasDate result }
    {
        // Laws: the head's register is that of the list, and the date of a reply is one. And what every board keeps.
        reached_boards_are_whole();
        replies_have_dates();
        self.head.is_whole();
        decide(&self.head, policy, day, who, request)
    }

    /// The register after all entries.
    pub fn head(&self) -> &Board
        ensures board { IsBoardOf result.now self.now.entries }
        ensures rooms { result.now.register.rooms ≡ self.now.rooms }
    {
        &self.head
    }

    /// Ends it. From then on its passes are shut. It takes no memory, and waits for those who still look.
    pub fn close<R: Wait>(self, rt: &R) {
        let Book {
            list: _,
            head: _,
            press,
            owed: _,
        } = self;
        press.close(rt);
    }
}
