//! The course on vectors: each event is answered and done as the definitions say.
ghost use Rattle.std.specs.Prelude.{◌≡◌, ◌↔◌, ◌+◌, ◌<◌, ◌≤◌, true, length, IfOk, OnOk, OnErr};
ghost use Rattle.reg_entry.specs.declared.entry.Reply.TheVariants.{Accepted};
ghost use Rattle.reg_entry.specs.Rooms.{AreRooms};
ghost use Rattle.reg_entry.specs.Next.{IsNextEntry};
ghost use Rattle.reg_entry.specs.Operations.{changes_of};
ghost use Rattle.reg_entry.specs.Register.{after_entry};
ghost use Rattle.course_core.specs.declared.event.Event.TheVariants.{Submit, Publish, Look, Tell, Pull};
ghost use Rattle.course_core.specs.Course.{new_course, decided, seen_by, serial_of, with_seen, with_fed, after_event, said};
ghost use Rattle.course_core.specs.Promises.{KeepsPromises, NothingFalls};
ghost use Rattle.course_core.specs.Kept.{IsReached, kept_serial, HasIds};

use crate::decision::decide;
use crate::{Event, Said};
use plain_register::PlainRegister;
use policy_table::Policy;
use reg_entry::{Entry, Name, Reply, Request, Rooms};
use std::alloc::{AllocError, Global};
use std::marker::Model;

/// A register's journal, what of it is published, what each pass has seen of that, and how far each mirror was fed. But for
/// the journal's list, which grows by `reserve` alone, nothing takes memory once it is made.
#[derive(Drop)]
pub struct Course {
    policy: Policy,
    // Both are the register of the journal. While an entry comes in, they are those before and after it.
    before: PlainRegister,
    after: PlainRegister,
    journal: Vec<Entry>,
    published: u64,
    // The serials of the last operation, and of the last that is published, or the greatest number of the type.
    serial: u64,
    published_serial: u64,
    seen: Vec<u64>,
    serials: Vec<u64>,
}

impl Model for Course {
    ghost use Rattle.std.specs.Prelude.{◌-◌, vec_len, vec_capacity};
    ghost use Rattle.course_core.specs.Kept.{RoomyCourse, IsKeptAs};

    ghost Value = { RoomyCourse };

    ghost view = { λ c. record { course = record { rooms = c.before.rooms; policy = c.policy; journal = c.journal.items; published = c.published; seen = c.seen.items; serials = c.serials.items }; spare = vec_capacity c.journal - vec_len c.journal } };

    ghost invariant = { λ c. IsKeptAs (record { rooms = c.before.rooms; policy = c.policy; journal = c.journal.items; published = c.published; seen = c.seen.items; serials = c.serials.items }) c.before c.after c.serial c.published_serial };
}

/// Takes the next entry into both registers, and counts the changes from the one before it to the one after it.
fn take_in(before: &mut PlainRegister, after: &mut PlainRegister, e: &Entry) -> u64
    requires next { IsNextEntry before.old e.now }
    requires same { after.old ≡ before.old }
    ensures before { before.new ≡ after_entry before.old e.now }
    ensures after { after.new ≡ after_entry before.old e.now }
    ensures changes { result ≡ kept_serial (length (changes_of before.old e.now)) }
{
    after.apply(e);
    let changes = before.changes_to(after);
    before.apply(e);
    changes
}

impl Course {
    /// The course of no event, with no room in its list.
    pub fn new(
        alloc: Global,
        rooms: Rooms,
        policy: Policy,
        passes: u32,
        mirrors: u32,
    ) -> Result<Course, AllocError>
        requires { AreRooms rooms }
        ensures { IfOk result (λ c. c.course ≡ new_course rooms policy passes mirrors) }
    {
        policy.is_well_formed();
        let before = PlainRegister::with_room(alloc, rooms)?;
        let after = PlainRegister::with_room(alloc, rooms)?;
        let seen = vec![in alloc; 0; passes as usize]?;
        let serials = vec![in alloc; 0; mirrors as usize]?;
        Ok(Course {
            policy,
            before,
            after,
            journal: Vec::new(alloc),
            published: 0,
            serial: 0,
            published_serial: 0,
            seen,
            serials,
        })
    }

    /// Makes room for so many entries more. Where it fails, the room stays as it was.
    pub fn reserve(&mut self, n: u32) -> Result<(), AllocError>
        ensures course { self.new.course ≡ self.old.course }
        ensures room { OnOk result (n ≤ self.new.spare) }
        ensures spare { self.old.spare ≤ self.new.spare }
        ensures failed { OnErr result (self.new.spare ≡ self.old.spare) }
    {
        self.journal.reserve(n as usize)
    }

    /// For how many entries more there is room in the list.
    pub fn spare(&self) -> usize
        ensures { result ≡ self.now.spare }
    {
        self.journal.capacity() - self.journal.len()
    }

    /// Whether the pass or the mirror that the event names is one of the course's.
    pub fn has_ids(&self, e: &Event) -> bool
        ensures { (result ≡ true) ↔ HasIds self.now.course e.now }
    {
        match e {
            Event::Submit { .. } | Event::Publish => true,
            Event::Look { pass } | Event::Tell { pass } => (*pass as usize) < self.seen.len(),
            Event::Pull { mirror, .. } => (*mirror as usize) < self.serials.len(),
        }
    }

    /// Tells that the course is that of some list of events.
    fn is_reached(&self)
        ensures { IsReached self.now.course }
    {
        let _ = &self.policy;
    }

    /// Tells callers what every course keeps at every moment.
    pub fn keeps_promises(&self)
        ensures { KeepsPromises self.now.course }
    {
        let _ = &self.policy;
    }

    /// Decides a request on the register of the journal, and enters what is accepted.
    fn submit(&mut self, day: u32, who: &Name, request: &Request) -> Reply
        requires spare { 1 ≤ self.old.spare }
        ensures course { self.new.course ≡ after_event self.old.course (Submit day who.now request.now) }
        ensures reply { result ≡ decided self.old.course day who.now request.now }
        ensures spare { self.old.spare ≤ self.new.spare + 1 }
    {
        request.has_ranges();
        let reply = decide(&mut self.before, &self.policy, day, who, request);
        if let Reply::Accepted(e) = &reply {
            let changes = take_in(&mut self.before, &mut self.after, e);
            self.serial = self.serial.saturating_add(changes);
            self.journal.push_reserved(*e);
        }
        reply
    }

    /// Publishes all entries so far, and tells how many there are.
    fn publish(&mut self) -> u64
        ensures course { self.new.course ≡ after_event self.old.course Publish }
        ensures count { result ≡ self.new.course.published }
        ensures spare { self.new.spare ≡ self.old.spare }
    {
        self.published = self.journal.len() as u64;
        self.published_serial = self.serial;
        self.published
    }

    /// Lets the pass see all that is published, and tells how much that is.
    fn show(&mut self, pass: u32) -> u64
        requires id { pass < length self.old.course.seen }
        ensures course { self.new.course ≡ with_seen self.old.course pass }
        ensures count { result ≡ seen_by self.new.course pass }
        ensures spare { self.new.spare ≡ self.old.spare }
    {
        self.seen[pass as usize] = self.published;
        self.published
    }

    /// Feeds the mirror up to the serial or to the last that is published, and tells its serial.
    fn feed(&mut self, mirror: u32, upto: u64) -> u64
        requires id { mirror < length self.old.course.serials }
        ensures course { self.new.course ≡ with_fed self.old.course mirror upto }
        ensures count { result ≡ serial_of self.new.course mirror }
        ensures spare { self.new.spare ≡ self.old.spare }
    {
        let own = self.serials[mirror as usize];
        let serial = own.max(upto.min(self.published_serial));
        self.serials[mirror as usize] = serial;
        serial
    }

    /// Does what the event says, and answers it.
    fn take(&mut self, e: &Event) -> Said
        requires spare { 1 ≤ self.old.spare }
        requires ids { HasIds self.old.course e.now }
        ensures course { self.new.course ≡ after_event self.old.course e.now }
        ensures said { result ≡ said self.old.course e.now }
        ensures spare { self.old.spare ≤ self.new.spare + 1 }
    {
        match e {
            Event::Submit { day, who, request } => Said::Decided(self.submit(*day, who, request)),
            Event::Publish => Said::Count(self.publish()),
            Event::Look { pass } | Event::Tell { pass } => Said::Count(self.show(*pass)),
            Event::Pull { mirror, upto } => Said::Count(self.feed(*mirror, *upto)),
        }
    }

    /// Does what the event says, and answers it. No entry goes by it, and no count falls.
    pub fn step(&mut self, e: &Event) -> Said
        requires spare { 1 ≤ self.old.spare }
        requires ids { HasIds self.old.course e.now }
        ensures course { self.new.course ≡ after_event self.old.course e.now }
        ensures said { result ≡ said self.old.course e.now }
        ensures spare { self.old.spare ≤ self.new.spare + 1 }
        ensures nothing_falls { NothingFalls self.old.course self.new.course }
    {
        self.is_reached();
        self.take(e)
    }
}
