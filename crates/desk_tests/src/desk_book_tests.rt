//! Requests submitted with two passes, and two threads that submit while two look.
ghost use Rattle.std.specs.Prelude.{◌≡◌, All, IfSome};
ghost use Rattle.desk_book.specs.Book.{first_pass};
ghost use Rattle.snapshot_pub.specs.Pass.{PlainPass};

use board::{Answer, Board, Body, Lens, Media};
use desk_book::{Book, Desk, Naming};
use num_range::{Number, Range, Space};
use policy_table::Policy;
use reg_entry::{Cc, Handle, Holder, Kind, Name, Refusal, Reply, Request, Rooms, Text};
use snapshot_pub::Pass;
use std::alloc::{AllocError, Global};
use std::marker::{Brand, PhantomData};
use std::sync::Wait;
use std::test::Fail;
use std::thread::{Threads, join};

const POLICY: &str = r#"registry = "exreg"
quarantine_days = 30
hold_days = 365
hostmasters = { local = "k-local-0001" }
[zone]
mname = "ns1.exreg.example"
rname = "hostmaster.exreg.example"
ttl = 172800
refresh = 7200
retry = 1800
expire = 604800
minimum = 3600
servers = ["ns1.exreg.example"]
[ipv4]
allocated = { least = 20, most = 32, cap = 4294967296, percent = 0, kinds = ["lir"] }
assigned = { least = 20, most = 32, cap = 4294967296, kinds = ["lir", "enduser"] }
[ipv6]
allocated = { least = 20, most = 64, cap = 2305843009213693952, percent = 0, kinds = ["lir"] }
assigned = { least = 32, most = 64, cap = 2305843009213693952, kinds = ["lir", "enduser"] }
[asn]
allocated = { least = 1, most = 1024, cap = 4294967296, percent = 0, kinds = ["lir"] }
assigned = { least = 1, most = 1024, cap = 4294967296, kinds = ["lir", "enduser"] }
"#;

/// 2024-03-01.
const TODAY: u32 = 19783;

/// So many entries each of two threads makes.
const EACH: u64 = 1_000;

/// So many entries there are once both have made theirs, behind two others.
const ALL: u64 = 2_002;

/// So often a thread looks at most.
const LOOKS: u64 = 100_000_000;

const ROOMS: Rooms = Rooms {
    pieces: 2,
    holders: 1,
    subs: 1,
    reverse: 1,
    entries: 4_000,
    window: 1,
};

/// Asks how many entries there are.
struct Count;

impl Lens for Count {
    ghost answers = { λ lens board a. a.entries ≡ board.register.entries };

    fn read(&self, alloc: Global, board: &Board) -> Result<Answer, AllocError> {
        Ok(Answer {
            status: 200,
            media: Media::Plain,
            body: Body::new(alloc),
            entries: board.entries(),
        })
    }
}

/// What is asked, by whom, and by which policy.
#[derive(Drop)]
struct Asked {
    policy: Policy,
    who: Name,
    receive: Request,
    add: Request,
    edit: Request,
}

fn some_requests(policy: Policy) -> Option<Asked> {
    // RFC 5737.
    let range = Range::new(Space::Ipv4, 0xc000_0200, 0xc000_02ff)?;
    let holder = Holder {
        handle: Handle::read(b"ORG-A")?,
        kind: Kind::Lir,
        cc: Cc::read(b"DE")?,
        name: Text::read(b"Alpha Net")?,
        email: Text::read(b"noc@alpha.example")?,
    };
    Some(Asked {
        policy,
        who: Name::read(b"local")?,
        receive: Request::Receive { range },
        add: Request::AddHolder { holder },
        edit: Request::EditHolder { holder },
    })
}

/// A pass of the snapshots that are named.
#[derive(Drop)]
struct Seat<N: Naming> {
    pass: Pass,
    of: PhantomData<N>,
    ghost named: { (pass.book ≡ N.book) × (pass.rooms ≡ N.rooms) },
}

fn seated<N: Naming>(pass: Pass) -> Seat<N>
    requires named { (pass.book ≡ N.book) × (pass.rooms ≡ N.rooms) }
{
    Seat {
        pass,
        of: PhantomData,
    }
}

impl<N: Naming> Seat<N> {
    /// Why the request is refused, if it is, and the number that it is answered with.
    fn submit<R: Wait + Drop, W: Wait>(
        &mut self,
        rt: &W,
        desk: &Desk<N, R>,
        asked: &Asked,
        request: &Request,
    ) -> Option<(Option<Refusal>, u64)> {
        match desk.submit(
            rt,
            &mut self.pass,
            &asked.policy,
            TODAY,
            &asked.who,
            request,
        ) {
            Ok((Reply::Accepted(_), number)) => Some((None, number)),
            Ok((Reply::Refused(refusal), number)) => Some((Some(refusal), number)),
            Err(_) => None,
        }
    }

    /// The number of the entry that the request becomes, if it becomes one.
    fn enter<R: Wait + Drop, W: Wait>(
        &mut self,
        rt: &W,
        desk: &Desk<N, R>,
        asked: &Asked,
        request: &Request,
    ) -> Option<u64> {
        match self.submit(rt, desk, asked, request) {
            Some((None, number)) => Some(number),
            _ => None,
        }
    }

    /// How many entries are seen.
    fn look(&mut self, alloc: Global) -> Option<u64> {
        match self.pass.look(alloc, &Count) {
            Ok(answer) => Some(answer.entries),
            Err(_) => None,
        }
    }

    /// Whether all its entries are made, each with a number above the one before and no more than the pass has seen then.
    fn enter_each<R: Wait + Drop, W: Wait>(
        &mut self,
        rt: &W,
        desk: &Desk<N, R>,
        asked: &Asked,
    ) -> bool {
        let mut last = 0;
        for _ in 0..EACH {
            match self.enter(rt, desk, asked, &asked.edit) {
                Some(number) if number > last && number <= self.pass.entries() => last = number,
                _ => return false,
            }
        }
        true
    }

    /// Whether all entries are seen in the end, at each look at least as many as before.
    fn watch(&mut self, alloc: Global) -> bool {
        let mut last = 0;
        for _ in 0..LOOKS {
            match self.look(alloc) {
                Some(count) if count >= last => last = count,
                _ => return false,
            }
            if last >= ALL {
                return true;
            }
        }
        false
    }
}

/// The numbers of the first two entries.
fn enter_two<N: Naming, R: Wait + Drop, W: Wait>(
    rt: &W,
    desk: &Desk<N, R>,
    asked: &Asked,
    seat: &mut Seat<N>,
) -> (Option<u64>, Option<u64>) {
    let received = seat.enter(rt, desk, asked, &asked.receive);
    let added = seat.enter(rt, desk, asked, &asked.add);
    (received, added)
}

/// Whether the request to receive is refused behind two entries.
fn is_refused<N: Naming, R: Wait + Drop, W: Wait>(
    rt: &W,
    desk: &Desk<N, R>,
    asked: &Asked,
    seat: &mut Seat<N>,
) -> bool {
    let number = Number::of(Space::Ipv4, 0xc000_0200);
    let refusal = Some(Refusal::Overlap { number });
    seat.submit(rt, desk, asked, &asked.receive) == Some((refusal, 2))
}

/// Whether one makes two entries, of which the other, which was told nothing, sees none before and both behind, and is
/// refused behind them.
fn are_answered<N: Naming, R: Wait + Drop, W: Wait>(
    rt: &W,
    alloc: Global,
    desk: &Desk<N, R>,
    asked: &Asked,
    one: &mut Seat<N>,
    two: &mut Seat<N>,
) -> bool {
    let before = two.look(alloc);
    let entered = enter_two(rt, desk, asked, one);
    let after = two.look(alloc);
    let refused = is_refused(rt, desk, asked, two);
    before == Some(0) && entered == (Some(1), Some(2)) && after == Some(2) && refused
}

/// The same at a desk over the book.
fn are_answered_at_desk<N: Naming, R: Wait + Drop, W: Wait>(
    rt: &W,
    own: R,
    alloc: Global,
    asked: &Asked,
    book: Book,
    one: Pass,
    two: Pass,
) -> bool
    requires book { (book.book ≡ N.book) × (book.rooms ≡ N.rooms) }
    requires one { one ≡ first_pass book }
    requires two { two ≡ first_pass book }
{
    let mut one = seated(one);
    let mut two = seated(two);
    let desk: Desk<N, R> = Desk::new(book, own);
    let well = are_answered(rt, alloc, &desk, asked, &mut one, &mut two);
    desk.end().close(rt);
    well
}

/// Two passes from the end of a list.
fn two_of(passes: &mut Vec<Pass>) -> Option<(Pass, Pass)>
    ensures { (first : PlainPass) → All (λ p. p ≡ first) passes.old.items
        → IfSome result (λ two. (two.0 ≡ first) × (two.1 ≡ first)) × All (λ p. p ≡ first) passes.new.items }
{
    match (passes.pop(), passes.pop()) {
        (Some(one), Some(two)) => Some((one, two)),
        _ => None,
    }
}

/// The same over a new book.
fn are_answered_over_new_book<R: Wait + Drop, W: Wait>(
    rt: &W,
    own: R,
    alloc: Global,
    asked: &Asked,
) -> bool {
    let Ok((book, mut passes)) = Book::open(rt, alloc, ROOMS, 2) else {
        return false;
    };
    match two_of(&mut passes) {
        Some((one, two)) => {
            are_answered_at_desk::<Brand, R, W>(rt, own, alloc, asked, book, one, two)
        }
        None => {
            book.close(rt);
            false
        }
    }
}

/// Whether two threads make their entries.
fn both_enter<N: Naming + Send + Sync, R: Wait + Drop + Send, W: Threads + Wait + Sync>(
    rt: &W,
    desk: &Desk<N, R>,
    asked: &Asked,
    one: &mut Seat<N>,
    two: &mut Seat<N>,
) -> bool {
    let (first, second) = join(
        rt,
        || one.enter_each(rt, desk, asked),
        || two.enter_each(rt, desk, asked),
    );
    first && second
}

/// Whether two threads see all entries in the end.
fn both_watch<N: Naming + Send + Sync, W: Threads + Wait + Sync>(
    rt: &W,
    alloc: Global,
    one: &mut Seat<N>,
    two: &mut Seat<N>,
) -> bool {
    let (first, second) = join(rt, || one.watch(alloc), || two.watch(alloc));
    first && second
}

/// Two who submit or two who look.
#[derive(Drop)]
struct Pair<N: Naming> {
    one: Seat<N>,
    two: Seat<N>,
}

/// Whether two threads make entries behind the first two while two look.
fn are_shared<N: Naming + Send + Sync, R: Wait + Drop + Send, W: Threads + Wait + Sync>(
    rt: &W,
    alloc: Global,
    desk: &Desk<N, R>,
    asked: &Asked,
    submitting: Pair<N>,
    looking: Pair<N>,
) -> bool {
    let Pair { mut one, mut two } = submitting;
    let Pair {
        one: mut three,
        two: mut four,
    } = looking;
    let entered = enter_two(rt, desk, asked, &mut one);
    let (both, seen) = join(
        rt,
        || both_enter(rt, desk, asked, &mut one, &mut two),
        || both_watch(rt, alloc, &mut three, &mut four),
    );
    entered == (Some(1), Some(2)) && both && seen
}

fn paired<N: Naming>(passes: (Pass, Pass)) -> Pair<N>
    requires one { (passes.0.book ≡ N.book) × (passes.0.rooms ≡ N.rooms) }
    requires two { (passes.1.book ≡ N.book) × (passes.1.rooms ≡ N.rooms) }
{
    let (one, two) = passes;
    Pair {
        one: seated(one),
        two: seated(two),
    }
}

/// The same at a desk over the book, and how many entries it has then.
fn are_shared_at_desk<N: Naming + Send + Sync, R: Wait + Drop + Send, W: Threads + Wait + Sync>(
    rt: &W,
    own: R,
    alloc: Global,
    asked: &Asked,
    book: Book,
    submitting: (Pass, Pass),
    looking: (Pass, Pass),
) -> Option<u64>
    requires book { (book.book ≡ N.book) × (book.rooms ≡ N.rooms) }
    requires first { submitting.0 ≡ first_pass book }
    requires second { submitting.1 ≡ first_pass book }
    requires third { looking.0 ≡ first_pass book }
    requires fourth { looking.1 ≡ first_pass book }
{
    let submitting = paired(submitting);
    let looking = paired(looking);
    let desk: Desk<N, R> = Desk::new(book, own);
    let well = are_shared(rt, alloc, &desk, asked, submitting, looking);
    let book = desk.end();
    let entries = book.head().entries();
    book.close(rt);
    if well { Some(entries) } else { None }
}

/// The same over a new book.
fn are_shared_over_new_book<R: Wait + Drop + Send, W: Threads + Wait + Sync>(
    rt: &W,
    own: R,
    alloc: Global,
    asked: &Asked,
) -> Option<u64> {
    let Ok((book, mut passes)) = Book::open(rt, alloc, ROOMS, 4) else {
        return None;
    };
    match (two_of(&mut passes), two_of(&mut passes)) {
        (Some(submitting), Some(looking)) => are_shared_at_desk::<Brand, R, W>(
            rt, own, alloc, asked, book, submitting, looking,
        ),
        _ => {
            book.close(rt);
            None
        }
    }
}

#[test]
fn passes_learn_what_they_are_answered(rt: HostRuntime) -> Result<(), Fail> {
    let policy = Policy::read(rt.alloc(), POLICY.as_bytes())?;
    let asked = some_requests(policy).ok_or("requests")?;
    assert!(rt; are_answered_over_new_book(&rt, &rt, rt.alloc(), &asked));
    Ok(())
}

#[test]
fn threads_submit_while_others_look(rt: HostRuntime) -> Result<(), Fail> {
    let policy = Policy::read(rt.alloc(), POLICY.as_bytes())?;
    let asked = some_requests(policy).ok_or("requests")?;
    let entries = are_shared_over_new_book(&rt, &rt, rt.alloc(), &asked);
    assert_eq!(rt; entries, Some(ALL));
    Ok(())
}
