//! The life of a block that is delegated, transferred and transferred back, with two passes and a mirror: what each event is
//! answered.
ghost use Rattle.reg_entry.specs.Rooms.{AreRooms};

use crate::policies::POLICY;
use course_core::{Course, Event, Said};
use num_range::{Range, Space};
use policy_table::Policy;
use reg_entry::{Cc, Delegation, Handle, Holder, Kind, Name, Refusal, Reply, Request, Rooms, Text};
use std::test::Fail;

const ROOMS: Rooms = Rooms {
    pieces: 10,
    holders: 2,
    subs: 2,
    reverse: 2,
    entries: 10,
    window: 1,
};

/// 2024-03-01, the same day a year before, and a year behind it.
const TODAY: u32 = 19783;

const BEFORE: u32 = 19417;

const BEHIND: u32 = 20148;

/// What is compared of an answer: a count, the number of an accepted entry, or a refusal.
#[derive(Clone, Copy, Debug, PartialEq, Eq)]
enum Answer {
    Count(u64),
    Entry(u64),
    Refused(Refusal),
}

fn answer_of(said: &Said) -> Answer {
    match said {
        Said::Count(count) => Answer::Count(*count),
        Said::Decided(reply) => match reply {
            Reply::Accepted(entry) => Answer::Entry(entry.seq),
            Reply::Refused(refusal) => Answer::Refused(*refusal),
        },
    }
}

fn submitted(day: u32, request: Request) -> Option<Event> {
    let who = Name::read(b"local")?;
    Some(Event::Submit { day, who, request })
}

fn added(handle: &[u8], cc: &[u8], name: &[u8], email: &[u8]) -> Option<Event> {
    let holder = Holder {
        handle: Handle::read(handle)?,
        kind: Kind::Lir,
        cc: Cc::read(cc)?,
        name: Text::read(name)?,
        email: Text::read(email)?,
    };
    submitted(TODAY, Request::AddHolder { holder })
}

fn transferred(day: u32, from: &[u8], to: &[u8]) -> Option<Event> {
    let range = Range::between(Space::Ipv4, 0xc000_0200, 0xc000_023f);
    let (from, to) = (Handle::read(from)?, Handle::read(to)?);
    submitted(day, Request::Transfer { range, from, to })
}

/// Up to the transfer, which is entry 5 and operation 7.
fn first_events() -> Option<[(Event, Answer); 8]> {
    let range = Range::between(Space::Ipv4, 0xc000_0200, 0xc000_02ff);
    let delegate = Request::Delegate {
        space: Space::Ipv4,
        amount: 26,
        status: Delegation::Allocate,
        handle: Handle::read(b"ORG-A")?,
    };
    Some([
        (Event::Look { pass: 0 }, Answer::Count(0)),
        (
            submitted(TODAY, Request::Receive { range })?,
            Answer::Entry(1),
        ),
        (
            added(b"ORG-A", b"DE", b"Alpha Net", b"noc@alpha.example")?,
            Answer::Entry(2),
        ),
        (
            added(b"ORG-B", b"FR", b"Beta Net", b"noc@beta.example")?,
            Answer::Entry(3),
        ),
        (submitted(TODAY, delegate)?, Answer::Entry(4)),
        (transferred(TODAY, b"ORG-A", b"ORG-B")?, Answer::Entry(5)),
        (Event::Pull { mirror: 0, upto: 9 }, Answer::Count(0)),
        (Event::Publish, Answer::Count(5)),
    ])
}

/// The way back, before the hold time's end and on its day.
fn last_events() -> Option<[(Event, Answer); 12]> {
    let held = Answer::Refused(Refusal::HoldTime { until: BEHIND });
    Some([
        (Event::Look { pass: 0 }, Answer::Count(5)),
        (Event::Pull { mirror: 0, upto: 3 }, Answer::Count(3)),
        (Event::Pull { mirror: 0, upto: 9 }, Answer::Count(7)),
        (Event::Pull { mirror: 0, upto: 2 }, Answer::Count(7)),
        (transferred(TODAY, b"ORG-B", b"ORG-A")?, held),
        (transferred(BEFORE, b"ORG-B", b"ORG-A")?, held),
        (transferred(BEHIND, b"ORG-B", b"ORG-A")?, Answer::Entry(6)),
        (Event::Tell { pass: 1 }, Answer::Count(5)),
        (Event::Publish, Answer::Count(6)),
        (Event::Tell { pass: 1 }, Answer::Count(6)),
        (Event::Look { pass: 0 }, Answer::Count(6)),
        (Event::Pull { mirror: 0, upto: 9 }, Answer::Count(8)),
    ])
}

/// What the event is answered, or nothing where there is no room or the course hasn't its pass or its mirror.
fn answered(course: &mut Course, e: &Event) -> Option<Answer> {
    if course.spare() == 0 || !course.has_ids(e) {
        return None;
    }
    Some(answer_of(&course.step(e)))
}

fn answers_all(course: &mut Course, events: &[(Event, Answer)]) -> bool {
    for (e, answer) in events {
        if answered(course, e) != Some(*answer) {
            return false;
        }
    }
    true
}

fn lives(course: &mut Course) -> Option<bool> {
    course.reserve(7).ok()?;
    Some(answers_all(course, &first_events()?) && answers_all(course, &last_events()?))
}

/// Whether a new course with these rooms answers all events. No other function of the tests owns a course, and this one has
/// one end behind it, since each end proves again that all of it is dropped.
fn holds(rt: &HostRuntime, rooms: Rooms) -> Result<bool, Fail>
    requires { AreRooms rooms }
{
    let policy = Policy::read(rt.alloc(), POLICY.as_bytes())?;
    let mut course = Course::new(rt.alloc(), rooms, policy, 2, 1)?;
    Ok(lives(&mut course) == Some(true))
}

#[test]
fn a_block_is_delegated_and_transferred(rt: HostRuntime) -> Result<(), Fail> {
    assert!(rt; holds(&rt, ROOMS)?);
    Ok(())
}
