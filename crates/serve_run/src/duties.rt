//! The duties of the workers, each with a way of its own.
ghost use Rattle.std.specs.Prelude.{◌≡◌, ◌≢◌, [], All, IfOk, Err};
ghost use Rattle.door_face.specs.declared.door.Door.TheVariants.{Http as AtHttp, Line as AtLine};
ghost use Rattle.link_face.specs.Faults.{HasRisen};
ghost use Rattle.serve_run.specs.Along.{plain_way};
ghost use Rattle.serve_run.specs.declared.door_duty.DoorDuty.TheVariants.{Http, Line};
ghost use Rattle.serve_run.specs.Gate.{plain_gate};
ghost use Rattle.serve_run.specs.Duties.{AreDuties};
ghost use Rattle.serve_run.specs.declared.fault.ServeFault.TheVariants.{Gate as GateFault, Spawn};

use crate::{DoorDuty, HttpDuty, LineDuty, ServeFault};
use desk_book::{Desk, Naming};
use door_face::{Door, Gate};
use link_face::{Clock, Failed};
use policy_table::Policy;
use reg_entry::Name;
use snapshot_pub::Pass;
use std::alloc::Global;
use std::sync::Wait;
use wire_http::Framer;

/// The duties of the workers at the door `Http`, one for each pass.
pub(crate) fn http_duties<'a, N: Naming, R: Wait + Drop, G: Gate, C: Clock>(
    alloc: Global,
    gate: &mut G,
    port: u16,
    passes: Vec<Pass>,
    desk: &'a Desk<N, R>,
    policy: &'a Policy,
    clock: &'a C,
) -> Result<Vec<DoorDuty<'a, G::W, N, R, C>>, ServeFault>
    requires named { All (λ pass. (pass.book ≡ N.book) × (pass.rooms ≡ N.rooms)) passes.items }
    ensures duties { IfOk result (λ duties. AreDuties (λ d. Http d)
        (λ d. plain_way (G.W.door d.way) (G.W.port d.way) (G.W.links_left d.way) (G.W.lent d.way) (G.W.returned d.way) (G.W.faults d.way))
        (λ d. d.pass) (λ d. (d.policy.now ≡ policy.now) × (d.clock.now ≡ clock.now)) AtHttp port
        (plain_gate (G.given gate.old) (G.to_come gate.old) (G.lent gate.old) (G.returned gate.old) (G.faults gate.old))
        passes.items [] duties.items
        (plain_gate (G.given gate.new) (G.to_come gate.new) (G.lent gate.new) (G.returned gate.new) (G.faults gate.new))) }
    ensures fault { result ≡ Err GateFault → HasRisen (G.faults gate.old) (G.faults gate.new) }
    ensures told { result ≢ Err GateFault → G.faults gate.new ≡ G.faults gate.old }
    ensures never { result ≢ Err Spawn }
{
    let mut duties = Vec::with_capacity(alloc, passes.len())?;
    for pass in passes {
        let framer = Framer::new(alloc)?;
        let way = match gate.way(Door::Http, port) {
            Ok(way) => way,
            Err(Failed) => return Err(ServeFault::Gate),
        };
        duties.push_reserved(DoorDuty::Http(HttpDuty {
            alloc,
            way,
            pass,
            framer,
            desk,
            policy,
            clock,
        }));
    }
    Ok(duties)
}

/// The duties of the workers at the door `Line`, one for each pass.
pub(crate) fn line_duties<'a, N: Naming, R: Wait + Drop, G: Gate, C: Clock>(
    alloc: Global,
    gate: &mut G,
    port: u16,
    passes: Vec<Pass>,
    registry: &'a Name,
) -> Result<Vec<DoorDuty<'a, G::W, N, R, C>>, ServeFault>
    ensures duties { IfOk result (λ duties. AreDuties (λ d. Line d)
        (λ d. plain_way (G.W.door d.way) (G.W.port d.way) (G.W.links_left d.way) (G.W.lent d.way) (G.W.returned d.way) (G.W.faults d.way))
        (λ d. d.pass) (λ d. d.registry.now ≡ registry.now) AtLine port
        (plain_gate (G.given gate.old) (G.to_come gate.old) (G.lent gate.old) (G.returned gate.old) (G.faults gate.old))
        passes.items [] duties.items
        (plain_gate (G.given gate.new) (G.to_come gate.new) (G.lent gate.new) (G.returned gate.new) (G.faults gate.new))) }
    ensures fault { result ≡ Err GateFault → HasRisen (G.faults gate.old) (G.faults gate.new) }
    ensures told { result ≢ Err GateFault → G.faults gate.new ≡ G.faults gate.old }
    ensures never { result ≢ Err Spawn }
{
    let mut duties = Vec::with_capacity(alloc, passes.len())?;
    for pass in passes {
        let way = match gate.way(Door::Line, port) {
            Ok(way) => way,
            Err(Failed) => return Err(ServeFault::Gate),
        };
        duties.push_reserved(DoorDuty::Line(LineDuty {
            alloc,
            way,
            pass,
            registry,
        }));
    }
    Ok(duties)
}
