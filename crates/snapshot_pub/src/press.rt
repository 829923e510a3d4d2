//! The one that publishes.
ghost use Rattle.std.specs.Prelude.{◌≡◌, ◌≤◌, ◌++◌, ◌∷◌, [], drop, fold, IfOk, MatchOption, MatchResult};
ghost use Rattle.left_right.specs.Sides.{view};
ghost use Rattle.reg_entry.specs.Register.{register_after};
ghost use Rattle.reg_entry.specs.Next.{IsNextEntry};
ghost use Rattle.op_feed.specs.ReachedBoard.{IsBoardOf};
ghost use Rattle.snapshot_pub.specs.Shown.{IsOfItsList};
ghost use Rattle.snapshot_pub.specs.Opening.{new_pass};
ghost use Rattle.snapshot_pub.specs.Absorbing.{applied};
ghost use Rattle.snapshot_pub.specs.Rule.{GoesOn, seeing};

use crate::Told;
use crate::pass::Pass;
use crate::put::Put;
use crate::rule::{Learning, Looking, Published, Telling};
use crate::shown::Shown;
use crate::view::View;
use board::Board;
use core::mem::replace_with;
use entry_log::{Front, Log};
use left_right::reader::Reader;
use left_right::writer::Writer;
use op_feed::laws::{entries_reach_boards, reached_boards_are_whole};
use reg_entry::{Entry, Rooms};
use std::alloc::{AllocError, Global};
use std::marker::Model;
use std::sync::Wait;

pub(crate) type PressWriter = Writer<Shown, Put, View, Published>;

/// The one that puts entries behind what is published, and publishes them all at once. It isn't dropped: `close` ends it.
pub struct Press {
    writer: PressWriter,
    log: Log,
    // The last list of the log. Where a put was refused, it has an entry behind those that were put.
    tip: Front,
    put: Front,
    rooms: Rooms,
}

impl Model for Press {
    ghost use Rattle.std.specs.Prelude.{drop};
    ghost use Rattle.left_right.specs.Sides.{view as view_of};
    ghost use Rattle.snapshot_pub.specs.Press.{PlainPress, IsPressed, IsBehind};

    ghost Value = { PlainPress };

    ghost view = { λ p. record { book = p.put.book; rooms = p.rooms; published = p.writer.desk.shown.value.front.entries; put = p.put.entries } };

    ghost invariant = { λ p. IsBehind p.log p.tip p.put × IsPressed p.writer.desk.shown.value (view_of p.writer.desk.place) (drop p.writer.behind p.writer.log.items) p.put p.rooms };
}

/// Publishes what was appended.
pub(crate) fn published<R: Wait>(writer: PressWriter, rt: &R) -> PressWriter
    requires going { IsOfItsList writer.desk.shown.value → GoesOn writer.desk.shown.value (fold applied writer.desk.shown.value (drop writer.behind writer.log.items)) }
    ensures shown { result.desk.shown.value ≡ fold applied writer.desk.shown.value (drop writer.behind writer.log.items) }
    ensures pending { drop result.behind result.log.items ≡ [] }
    ensures view { view result.desk.place ≡ seeing result.desk.shown.value }
{
    let (writer, _published) = writer.publish_as::<Looking, R>(rt);
    writer
}

/// Publishes what was appended, in place.
fn publish_all<R: Wait>(writer: &mut PressWriter, rt: &R)
    requires going { IsOfItsList writer.old.desk.shown.value → GoesOn writer.old.desk.shown.value (fold applied writer.old.desk.shown.value (drop writer.old.behind writer.old.log.items)) }
    ensures shown { writer.new.desk.shown.value ≡ fold applied writer.old.desk.shown.value (drop writer.old.behind writer.old.log.items) }
    ensures pending { drop writer.new.behind writer.new.log.items ≡ [] }
    ensures view { view writer.new.desk.place ≡ seeing writer.new.desk.shown.value }
{
    replace_with(writer, rt, |writer, rt| (published(writer, rt), ()));
}

/// A reader that knows what the writer knows, or none where none can be made.
fn seated(writer: &mut PressWriter) -> Option<Reader<Shown, View, Published>>
    ensures shown { writer.new.desk.shown ≡ writer.old.desk.shown }
    ensures pending { (writer.new.log ≡ writer.old.log) × (writer.new.behind ≡ writer.old.behind) }
    ensures view { view writer.new.desk.place ≡ view writer.old.desk.place }
    ensures knows { MatchOption result (Unit {0}) (λ r. view r.place ≡ view writer.old.desk.place) }
{
    let Ok(mut reader) = writer.factory().reader() else {
        return None;
    };
    reader.learn::<Learning>(writer.tell::<Telling>());
    Some(reader)
}

impl Press {
    /// Publishes the board of the list.
    pub(crate) fn open<R: Wait>(
        rt: &R,
        alloc: Global,
        one: Board,
        two: Board,
        log: Log,
        front: Front,
        passes: u32,
    ) -> Result<Press, AllocError>
        requires passes { 1 ≤ passes }
        requires list { IsBoardOf one front.entries }
        requires alike { two ≡ one }
        requires log { log ≡ front.book }
        ensures { IfOk result (λ p. p ≡ record { book = front.book; rooms = one.register.rooms; published = front.entries; put = front.entries }) }
    {
        let rooms = one.rooms();
        let first = Shown {
            board: one,
            front: front.again(),
        };
        let second = Shown {
            board: two,
            front: front.again(),
        };
        let writer = Writer::new(alloc, first, second, passes as usize)?;
        // Nothing is pending: so the writer gets to know what it publishes, and can tell it.
        let writer = published(writer, rt);
        Ok(Press {
            writer,
            log,
            tip: front.again(),
            put: front,
            rooms,
        })
    }

    /// A pass that has seen what is published. Where there is no place left for it, it is shut for ever.
    pub(crate) fn pass(&mut self) -> Pass
        ensures pass { result ≡ new_pass self.old }
        ensures same { self.new ≡ self.old }
    {
        let front = self.writer.published().front.again();
        let reader = seated(&mut self.writer);
        Pass::new(reader, self.rooms, front)
    }

    /// Tells of what is published.
    pub fn told(&self) -> Told
        ensures { (result.book ≡ self.now.book) × (result.entries ≡ self.now.published) }
    {
        Told::over(self.writer.published().front.again())
    }

    /// Puts the next entry behind those that were put. Nothing is published by it, and a refusal changes nothing.
    pub fn put(&mut self, e: &Entry) -> Result<(), AllocError>
        requires next { IsNextEntry (register_after self.old.rooms self.old.put) e.now }
        ensures put { MatchResult result (λ _. self.new.put ≡ self.old.put ++ e.now ∷ []) (λ _. self.new.put ≡ self.old.put) }
        ensures published { self.new.published ≡ self.old.published }
        ensures same { (self.new.book ≡ self.old.book) × (self.new.rooms ≡ self.old.rooms) }
    {
        // Laws: the board after the entry is that of the list with it.
        entries_reach_boards();
        reached_boards_are_whole();
        let mut tip = self.tip.again();
        if !tip.add(&self.log, self.put.entries(), e) {
            return Err(AllocError);
        }
        self.tip = tip.again();
        let put = Put {
            entry: *e,
            front: tip.again(),
        };
        match self.writer.append(put) {
            Ok(()) => {
                self.put = tip;
                Ok(())
            }
            Err(_) => Err(AllocError),
        }
    }

    /// Publishes all that was put, at once, and tells of it. It takes no memory and isn't refused; it waits for those who
    /// still look at the copy from before the last publication.
    pub fn publish<R: Wait>(&mut self, rt: &R) -> Told
        ensures told { (result.book ≡ self.old.book) × (result.entries ≡ self.old.put) }
        ensures published { self.new.published ≡ self.old.put }
        ensures put { self.new.put ≡ self.old.put }
        ensures same { (self.new.book ≡ self.old.book) × (self.new.rooms ≡ self.old.rooms) }
    {
        publish_all(&mut self.writer, rt);
        Told::over(self.put.again())
    }

    /// Ends it. From then on its passes are shut. It takes no memory, and waits for those who still look.
    pub fn close<R: Wait>(self, rt: &R) {
        let Press {
            writer,
            log: _,
            tip: _,
            put: _,
            rooms: _,
        } = self;
        writer.take(rt);
    }
}
