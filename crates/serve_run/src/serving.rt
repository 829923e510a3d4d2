//! Serving both doors.
ghost use Rattle.std.specs.Prelude.{◌≡◌, ◌≢◌, ◌≤◌, [], All, IfOk, Err, length};
ghost use Rattle.reg_entry.specs.Rooms.{AreRooms};
ghost use Rattle.link_face.specs.Faults.{HasRisen};
ghost use Rattle.desk_book.specs.Book.{first_pass};
ghost use Rattle.serve_run.specs.Gate.{plain_gate};
ghost use Rattle.serve_run.specs.Service.{IsServed, pass_of_none};
ghost use Rattle.serve_run.specs.declared.fault.ServeFault.TheVariants.{Gate as GateFault, Spawn};

use crate::ServeFault;
use crate::back::take_back;
use crate::duties::{http_duties, line_duties};
use desk_book::{Book, Desk, Naming};
use door_face::{Gate, Spawner};
use link_face::Clock;
use policy_table::Policy;
use reg_entry::Rooms;
use snapshot_pub::Pass;
use std::alloc::Global;
use std::marker::Brand;
use std::sync::Wait;
use std::thread::Threads;

/// The ports of the two doors, and how many workers each door has.
#[derive(Clone, Copy)]
pub struct Doors {
    pub http: u16,
    pub line: u16,
    pub workers: u8,
}

/// Serves both doors over a desk.
fn serve_desk<N: Naming + Send, R: Threads + Wait + Sync, G: Gate, P: Spawner, C: Clock + Sync>(
    rt: &R,
    alloc: Global,
    desk: &Desk<N, &R>,
    http_passes: Vec<Pass>,
    line_passes: Vec<Pass>,
    policy: &Policy,
    doors: Doors,
    clock: &C,
    gate: &mut G,
    spawner: &mut P,
) -> Result<u64, ServeFault>
    requires http { All (λ pass. pass ≡ pass_of_none N.book N.rooms) http_passes.items }
    requires line { All (λ pass. pass ≡ pass_of_none N.book N.rooms) line_passes.items }
    requires http_workers { length http_passes.items ≡ doors.workers }
    requires line_workers { length line_passes.items ≡ doors.workers }
    ensures served { IfOk result (λ count. IsServed N.rooms policy.now (C.states clock.now) doors.http doors.line doors.workers
        (plain_gate (G.given gate.old) (G.to_come gate.old) (G.lent gate.old) (G.returned gate.old) (G.faults gate.old)) (plain_gate (G.given gate.new) (G.to_come gate.new) (G.lent gate.new) (G.returned gate.new) (G.faults gate.new)) count) }
    ensures gate_fault { result ≡ Err GateFault → HasRisen (G.faults gate.old) (G.faults gate.new) }
    ensures gate_told { result ≢ Err GateFault → result ≢ Err Spawn → G.faults gate.new ≡ G.faults gate.old }
    ensures spawn_fault { result ≡ Err Spawn → HasRisen (P.faults spawner.old) (P.faults spawner.new) }
    ensures spawn_told { result ≢ Err Spawn → P.faults spawner.new ≡ P.faults spawner.old }
{
    let mut duties = match http_duties(alloc, gate, doors.http, http_passes, desk, policy, clock) {
        Ok(duties) => duties,
        Err(fault) => return Err(fault),
    };
    let mut at_line = match line_duties(alloc, gate, doors.line, line_passes, policy.registry()) {
        Ok(duties) => duties,
        Err(fault) => return Err(fault),
    };
    duties.append(&mut at_line)?;
    let outcomes = spawner.side_by_side(rt, alloc, duties)?;
    take_back(gate, outcomes)
}

/// Puts a book without entries behind a desk, and serves both doors there.
fn serve_book<N: Naming + Send, R: Threads + Wait + Sync, G: Gate, P: Spawner, C: Clock + Sync>(
    rt: &R,
    alloc: Global,
    book: Book,
    http_passes: Vec<Pass>,
    line_passes: Vec<Pass>,
    policy: &Policy,
    doors: Doors,
    clock: &C,
    gate: &mut G,
    spawner: &mut P,
) -> Result<u64, ServeFault>
    requires named { (book.book ≡ N.book) × (book.rooms ≡ N.rooms) }
    requires empty { book.entries ≡ [] }
    requires http { All (λ pass. pass ≡ first_pass book) http_passes.items }
    requires line { All (λ pass. pass ≡ first_pass book) line_passes.items }
    requires http_workers { length http_passes.items ≡ doors.workers }
    requires line_workers { length line_passes.items ≡ doors.workers }
    ensures served { IfOk result (λ count. IsServed book.rooms policy.now (C.states clock.now) doors.http doors.line doors.workers
        (plain_gate (G.given gate.old) (G.to_come gate.old) (G.lent gate.old) (G.returned gate.old) (G.faults gate.old)) (plain_gate (G.given gate.new) (G.to_come gate.new) (G.lent gate.new) (G.returned gate.new) (G.faults gate.new)) count) }
    ensures gate_fault { result ≡ Err GateFault → HasRisen (G.faults gate.old) (G.faults gate.new) }
    ensures gate_told { result ≢ Err GateFault → result ≢ Err Spawn → G.faults gate.new ≡ G.faults gate.old }
    ensures spawn_fault { result ≡ Err Spawn → HasRisen (P.faults spawner.old) (P.faults spawner.new) }
    ensures spawn_told { result ≢ Err Spawn → P.faults spawner.new ≡ P.faults spawner.old }
{
    let desk: Desk<N, &R> = Desk::new(book, rt);
    let served = serve_desk(
        rt,
        alloc,
        &desk,
        http_passes,
        line_passes,
        policy,
        doors,
        clock,
        gate,
        spawner,
    );
    desk.end().close(rt);
    served
}

/// Serves both doors of a register that begins without entries, so many workers at each, until every way has ended. It says
/// how many connections there were, up to the greatest number of the type, at which the count stays.
pub fn serve<R: Threads + Wait + Sync, G: Gate, P: Spawner, C: Clock + Sync>(
    rt: &R,
    alloc: Global,
    rooms: Rooms,
    policy: &Policy,
    doors: Doors,
    clock: &C,
    gate: &mut G,
    spawner: &mut P,
) -> Result<u64, ServeFault>
    requires rooms { AreRooms rooms }
    requires workers { 1 ≤ doors.workers }
    ensures served { IfOk result (λ count. IsServed rooms policy.now (C.states clock.now) doors.http doors.line doors.workers
        (plain_gate (G.given gate.old) (G.to_come gate.old) (G.lent gate.old) (G.returned gate.old) (G.faults gate.old)) (plain_gate (G.given gate.new) (G.to_come gate.new) (G.lent gate.new) (G.returned gate.new) (G.faults gate.new)) count) }

    // The gate's count rose where it gave no way or a way failed, and the spawner's where a duty came back.
    ensures gate_fault { result ≡ Err GateFault → HasRisen (G.faults gate.old) (G.faults gate.new) }
    ensures gate_told { result ≢ Err GateFault → result ≢ Err Spawn → G.faults gate.new ≡ G.faults gate.old }
    ensures spawn_fault { result ≡ Err Spawn → HasRisen (P.faults spawner.old) (P.faults spawner.new) }
    ensures spawn_told { result ≢ Err Spawn → P.faults spawner.new ≡ P.faults spawner.old }
{
    let workers = usize::from(doors.workers);
    let (book, mut http_passes) = Book::open(rt, alloc, rooms, 2 * u32::from(doors.workers))?;
    match http_passes.split_off(workers) {
        Ok(line_passes) => serve_book::<Brand, R, G, P, C>(
            rt,
            alloc,
            book,
            http_passes,
            line_passes,
            policy,
            doors,
            clock,
            gate,
            spawner,
        ),
        Err(_) => {
            book.close(rt);
            Err(ServeFault::NoMemory)
        }
    }
}
