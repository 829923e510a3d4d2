//! Serving both doors, and how many connections there were.
ghost use Rattle.std.specs.Prelude.{◌≡◌, ◌≢◌, ◌≤◌, ◌+◌, ◌⊎◌, Ok, Err, IfOk};
ghost use Rattle.std.specs.String.{string_bytes};
ghost use Rattle.link_face.specs.Faults.{HasRisen};
ghost use Rattle.mirror_core.specs.declared.fault.FeedFault.{FeedFault};
ghost use Rattle.policy_table.specs.declared.fault.PolicyFault.{PolicyFault};
ghost use Rattle.policy_table.specs.declared.fault.PolicyFault.TheVariants as faults;
ghost use Rattle.reg_entry.specs.Policy.{PlainPolicy, IsPolicy};
ghost use Rattle.serve_run.specs.Gate.{plain_gate};
ghost use Rattle.registry_main.specs.PolicyBytes.{policy_front, IsSaid, IfSaid};
ghost use Rattle.registry_main.specs.Serve.{IsServedFor, service_text};
ghost use Rattle.registry_main.specs.declared.exit.Exit.TheVariants.{Done, Usage, PolicyRefused, ReadFault, WriteFault, NoMemory, SpawnFault, FeedRefused};

use crate::exit::Exit;
use crate::policy_bytes::{NoPolicy, read_policy};
use crate::session::ROOMS;
use door_face::{Gate, Spawner};
use link_face::{Clock, Failed, Sink, Source};
use policy_table::Policy;
use serve_run::{Doors, ServeFault, serve};
use std::alloc::{AllocError, Global};
use std::sync::Wait;
use std::thread::Threads;

/// Serves both doors under a policy until every way has ended, and writes how many connections there were.
#[tactic(auto, using(crate::proofs::Written::prefix_begins))]
pub fn answer_serve<R: Threads + Wait + Sync, K: Sink, C: Clock + Sync, G: Gate, P: Spawner>(
    rt: &R,
    alloc: Global,
    policy: &Policy,
    doors: Doors,
    out: &mut K,
    clock: &C,
    gate: &mut G,
    spawner: &mut P,
) -> Exit
    requires workers { 1 ≤ doors.workers }
    ensures served { ((result ≢ Done) × (out.new ≡ out.old))
        ⊎ IsServedFor policy.now (C.states clock.now) doors.http doors.line doors.workers
        (plain_gate (G.given gate.old) (G.to_come gate.old) (G.lent gate.old) (G.returned gate.old) (G.faults gate.old))
        (plain_gate (G.given gate.new) (G.to_come gate.new) (G.lent gate.new) (G.returned gate.new) (G.faults gate.new))
        (K.written out.old) result (K.written out.new) }
    ensures no_usage { result ≢ Usage }
    ensures no_refusal { (fault : PolicyFault) → result ≢ PolicyRefused fault }
    ensures no_feed { (fault : FeedFault) → result ≢ FeedRefused fault }
    ensures read { result ≡ ReadFault → HasRisen (G.faults gate.old) (G.faults gate.new) }
    ensures gate_told { result ≢ ReadFault → result ≢ SpawnFault → G.faults gate.new ≡ G.faults gate.old }
    ensures spawn { result ≡ SpawnFault → HasRisen (P.faults spawner.old) (P.faults spawner.new) }
    ensures spawn_told { result ≢ SpawnFault → P.faults spawner.new ≡ P.faults spawner.old }
    ensures write { result ≡ WriteFault → HasRisen (K.faults out.old) (K.faults out.new) }
    ensures write_told { result ≢ WriteFault → K.faults out.new ≡ K.faults out.old }
{
    let connections = match serve(rt, alloc, ROOMS, policy, doors, clock, gate, spawner) {
        Ok(connections) => connections,
        Err(ServeFault::NoMemory) => return Exit::NoMemory,
        Err(ServeFault::Gate) => return Exit::ReadFault,
        Err(ServeFault::Spawn) => return Exit::SpawnFault,
    };
    let Ok(text) = service_text(alloc, connections) else {
        return Exit::NoMemory;
    };
    match out.write(text.as_bytes()) {
        Ok(()) => Exit::Done,
        Err(Failed) => Exit::WriteFault,
    }
}

/// Reads the policy, and serves both doors under it.
pub fn do_serve<
    R: AllocGlobal + Threads + Wait + Sync,
    S: Source,
    K: Sink,
    C: Clock + Sync,
    G: Gate,
    P: Spawner,
>(
    rt: &R,
    doors: Doors,
    policy: &mut S,
    out: &mut K,
    clock: &C,
    gate: &mut G,
    spawner: &mut P,
) -> Exit
    requires workers { 1 ≤ doors.workers }
    ensures refused { (fault : PolicyFault) → result ≡ PolicyRefused fault → IsSaid (S.left policy.old) (Err fault) × (out.new ≡ out.old) }
    ensures no_policy { (fault : PolicyFault) → IfSaid (S.left policy.old) (Err fault)
        (((result ≡ PolicyRefused fault) ⊎ (result ≡ ReadFault) ⊎ (result ≡ NoMemory)) × (out.new ≡ out.old)) }
    ensures no_memory { result ≢ PolicyRefused faults.NoMemory }
    ensures bounded { S.budget policy.old ≤ S.budget policy.new + policy_front }
    ensures served { ((result ≢ Done) × (out.new ≡ out.old))
        ⊎ ((p : PlainPolicy) × IsPolicy p × IsSaid (S.left policy.old) (Ok p)
        × IsServedFor p (C.states clock.now) doors.http doors.line doors.workers
        (plain_gate (G.given gate.old) (G.to_come gate.old) (G.lent gate.old) (G.returned gate.old) (G.faults gate.old))
        (plain_gate (G.given gate.new) (G.to_come gate.new) (G.lent gate.new) (G.returned gate.new) (G.faults gate.new))
        (K.written out.old) result (K.written out.new)) }
    ensures no_usage { result ≢ Usage }
    ensures no_feed { (fault : FeedFault) → result ≢ FeedRefused fault }
    ensures read { result ≡ ReadFault → HasRisen (S.faults policy.old) (S.faults policy.new) ⊎ HasRisen (G.faults gate.old) (G.faults gate.new) }
    ensures read_told { result ≢ ReadFault → S.faults policy.new ≡ S.faults policy.old }
    ensures gate_told { result ≢ ReadFault → result ≢ SpawnFault → G.faults gate.new ≡ G.faults gate.old }
    ensures spawn { result ≡ SpawnFault → HasRisen (P.faults spawner.old) (P.faults spawner.new) }
    ensures spawn_told { result ≢ SpawnFault → P.faults spawner.new ≡ P.faults spawner.old }
    ensures write { result ≡ WriteFault → HasRisen (K.faults out.old) (K.faults out.new) }
    ensures write_told { result ≢ WriteFault → K.faults out.new ≡ K.faults out.old }
{
    match read_policy(rt.alloc(), policy) {
        Ok(policy) => answer_serve(rt, rt.alloc(), &policy, doors, out, clock, gate, spawner),
        Err(NoPolicy::Read) => Exit::ReadFault,
        Err(NoPolicy::Refused(fault)) => Exit::PolicyRefused(fault),
        Err(NoPolicy::Memory) => Exit::NoMemory,
    }
}

/// The line that tells of so many connections.
fn service_text(alloc: Global, connections: u64) -> Result<String, AllocError>
    ensures { IfOk result (λ text. string_bytes text ≡ service_text connections) }
{
    format!(in alloc; "connections: {connections}\n")
}
