//! Two threads look while a third puts and publishes, under a lock, and tells them.
ghost use Rattle.std.specs.Prelude.{◌≡◌};
ghost use Rattle.reg_entry.specs.Operations.{empty_board};

use board::{Answer, Board, Body, Lens, Media};
use op_feed::laws::{entries_reach_boards, reached_boards_are_whole};
use reg_entry::{Cc, Entry, Handle, Holder, Kind, Name, Request, Rooms, Text};
use snapshot_pub::{Pass, Press, Told, open_snapshots};
use std::alloc::{AllocError, Global};
use std::marker::Model;
use std::sync::{Mutex, Wait};
use std::test::Fail;
use std::thread::{Threads, join};

const ENTRIES: u64 = 2_000;

/// So often a thread looks at most.
const LOOKS: u64 = 100_000_000;

const ROOMS: Rooms = Rooms {
    pieces: 1,
    holders: 1,
    subs: 1,
    reverse: 1,
    entries: ENTRIES,
    window: 1,
};

/// Asks how many entries there are.
struct Count;

impl Lens for Count {
    ghost answers = { λ lens board a. a.entries ≡ board.register.entries };

    fn read(&self, alloc: Global, board: &Board) -> Result<Answer, AllocError> {
        Ok(Answer {
            status: 200,
            media: Media::Plain,
            body: Body::new(alloc),
            entries: board.entries(),
        })
    }
}

/// The entry of this number: the first adds a holder, and each other one edits it.
fn entry(seq: u64) -> Option<Entry> {
    let holder = Holder {
        handle: Handle::read(b"ORG-A")?,
        kind: Kind::Lir,
        cc: Cc::read(b"DE")?,
        name: Text::read(b"Alpha Net")?,
        email: Text::read(b"noc@alpha.example")?,
    };
    Some(Entry {
        seq,
        day: 19783,
        who: Name::read(b"local")?,
        request: if seq == 1 {
            Request::AddHolder { holder }
        } else {
            Request::EditHolder { holder }
        },
        cover: None,
        card: None,
    })
}

/// A press with the board of what it was put, as lies behind a lock.
struct Desk<R: Wait + Drop> {
    press: Press,
    head: Board,
    rt: R,
}

impl<R: Wait + Drop> Model for Desk<R> {
    ghost use Rattle.std.specs.Prelude.{◌≡◌};
    ghost use Rattle.op_feed.specs.ReachedBoard.{IsBoardOf};
    ghost use Rattle.snapshot_pub.specs.Press.{PlainPress};

    ghost Value = { PlainPress };

    ghost view = { λ d. d.press };

    ghost invariant = { λ d. IsBoardOf d.head d.press.put × (d.head.register.rooms ≡ d.press.rooms) };
}

impl<R: Wait + Drop> Drop for Desk<R> {
    fn drop(self) {
        let Desk {
            press,
            head: _head,
            rt,
        } = self;
        press.close(&rt);
    }
}

impl<R: Wait + Drop> Desk<R> {
    /// Puts the next entry, if it may come, and publishes it.
    fn enter(&mut self) -> Option<Told> {
        entries_reach_boards();
        reached_boards_are_whole();
        let seq = self.head.entries() + 1;
        let Some(entry) = entry(seq) else {
            return None;
        };
        if !self.head.is_next(&entry) {
            return None;
        }
        match self.press.put(&entry) {
            Ok(()) => {
                self.head.apply(&entry);
                Some(self.press.publish(&self.rt))
            }
            Err(_) => None,
        }
    }
}

/// Puts and publishes so many entries, and tells of the last; the desk is locked for one entry at a time.
fn enter_all<R: Wait + Drop, W: Wait>(rt: &W, desk: &Mutex<Desk<R>>, entries: u64) -> Option<Told> {
    let mut last = None;
    for _ in 0..entries {
        let told = desk.lock(rt).enter()?;
        last = Some(told);
    }
    last
}

/// One who looks, and the last count that it was answered.
#[derive(Drop)]
struct Viewer {
    pass: Pass,
    last: u64,
}

impl Viewer {
    /// Looks until it is answered so many entries, and says whether it got there, each count at least the one before it and
    /// that of the pass.
    fn watch(&mut self, alloc: Global, entries: u64) -> bool {
        for _ in 0..LOOKS {
            let Ok(answer) = self.pass.look(alloc, &Count) else {
                return false;
            };
            if answer.entries < self.last || answer.entries != self.pass.entries() {
                return false;
            }
            self.last = answer.entries;
            if self.last >= entries {
                return true;
            }
        }
        false
    }
}

/// Whether the pass has seen what it was told of.
fn is_told<R: Wait>(rt: &R, press: &mut Press, pass: &mut Pass) -> bool
    requires { pass.old.book ≡ press.old.book }
    ensures { (press.new.put ≡ press.old.put) × (press.new.rooms ≡ press.old.rooms) }
{
    let told = press.publish(rt);
    let entries = told.entries();
    pass.learn(told).is_ok() && pass.entries() == entries && pass.shuts() == 0
}

/// Whether two threads see a third publish all entries.
fn are_seen<R: Threads + Wait + Sync, W: Wait + Drop + Send>(
    rt: &R,
    alloc: Global,
    desk: Desk<W>,
    one: Pass,
    two: Pass,
) -> bool {
    let desk = Mutex::new(desk);
    let mut first = Viewer { pass: one, last: 0 };
    let mut second = Viewer { pass: two, last: 0 };
    let (a, (b, told)) = join(
        rt,
        || first.watch(alloc, ENTRIES),
        || {
            join(
                rt,
                || second.watch(alloc, ENTRIES),
                || enter_all(rt, &desk, ENTRIES),
            )
        },
    );
    match told {
        Some(told) => a && b && told.entries() == ENTRIES,
        None => false,
    }
}

/// Whether all of it goes well.
fn goes_well<R: Threads + Wait + Sync, W: Wait + Drop + Send>(
    rt: &R,
    own: W,
    alloc: Global,
) -> Result<bool, AllocError> {
    let head = Board::with_room(alloc, ROOMS)?;
    let one = Board::with_room(alloc, ROOMS)?;
    let two = Board::with_room(alloc, ROOMS)?;
    let (mut press, mut passes) = open_snapshots(rt, alloc, one, two, &[], 2)?;
    match (passes.pop(), passes.pop()) {
        (Some(mut first), Some(second)) => {
            let told = is_told(rt, &mut press, &mut first);
            let desk = Desk {
                press,
                head,
                rt: own,
            };
            Ok(are_seen(rt, alloc, desk, first, second) && told)
        }
        _ => {
            press.close(&own);
            Ok(false)
        }
    }
}

#[test]
fn passes_look_while_a_press_publishes(rt: HostRuntime) -> Result<(), Fail> {
    let well = goes_well(&rt, &rt, rt.alloc())?;
    assert!(rt; well);
    Ok(())
}
