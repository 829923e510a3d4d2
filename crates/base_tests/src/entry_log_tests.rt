//! Lists that one log gives, and which of them is seen to begin which.
ghost use Rattle.std.specs.Prelude.{◌≡◌, ◌≤◌, ◌+◌, length, IfSome};

use entry_log::{Front, Log, open};
use num_range::{Range, Space};
use reg_entry::{Card, Entry, Name, Request};
use std::test::Fail;

/// An entry that receives 192.0.2.0/24 (RFC 5737).
fn entry() -> Option<Entry> {
    let range = Range::between(Space::Ipv4, 0xc000_0200, 0xc000_02ff);
    Some(Entry {
        seq: 1,
        day: 19783,
        who: Name::read(b"local")?,
        request: Request::Receive { range },
        cover: Some(range),
        card: Some(Card::plain()),
    })
}

/// The front with the entry behind the first `keeps`, where that could be added.
fn added(log: &Log, front: &Front, keeps: u64, entry: &Entry) -> Option<Front>
    requires log { log.now ≡ front.now.book }
    requires keeps { keeps ≤ length front.now.entries }
    ensures { IfSome result (λ f. (f.book ≡ front.now.book) × (length f.entries ≡ keeps + 1)) }
{
    let mut more = front.again();
    if more.add(log, keeps, entry) {
        Some(more)
    } else {
        None
    }
}

/// Which begin which: one entry and two, then a third that is cut off by another third.
fn begin_so(log: &Log, empty: &Front, entry: &Entry) -> Option<[bool; 6]>
    requires { log.now ≡ empty.now.book }
{
    let one = added(log, empty, 0, entry)?;
    let two = added(log, &one, 1, entry)?;
    let three = added(log, &two, 2, entry)?;
    let other = added(log, &three, 2, entry)?;
    Some([
        empty.begins(&two),
        one.begins(&one),
        two.begins(&three),
        two.begins(&one),
        three.begins(&other),
        added(log, &two, 2, entry).is_some(),
    ])
}

#[test]
fn lists_begin_lists(rt: HostRuntime) -> Result<(), Fail> {
    let (log, empty) = open();
    let entry = entry().ok_or("an entry")?;
    let wanted = Some([true, true, true, false, false, false]);
    assert_eq!(rt; begin_so(&log, &empty, &entry), wanted);
    Ok(())
}
