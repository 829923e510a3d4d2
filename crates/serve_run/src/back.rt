//! Taking back what the workers leave.
ghost use Rattle.std.specs.Prelude.{◌≡◌, ◌≢◌, Some, ◌≤◌, ◌<◌, ◌+◌, ◌++◌, ◌∷◌, [], ℕ, All, List, Option, IfOk, IfSome, IsOk, Err, true, false, length, map};
ghost use Rattle.std.specs.List.{list_any};
ghost use Rattle.door_face.specs.Doors.{more_by};
ghost use Rattle.door_face.specs.Duties.{is_back};
ghost use Rattle.serve_run.specs.Along.{plain_way};
ghost use Rattle.link_face.specs.Faults.{HasRisen};
ghost use Rattle.serve_run.specs.Gate.{PlainGate, plain_gate};
ghost use Rattle.serve_run.specs.Back.{PlainEnd, plain_end, end_by, IsTold, IfWorked, AreTakenBack};
ghost use Rattle.serve_run.specs.declared.fault.ServeFault.TheVariants.{NoMemory, Gate as GateFault, Spawn};

use crate::{ServeFault, Served};
use door_face::{Gate, Outcome};

/// What was taken back so far.
#[derive(Clone, Copy)]
struct Tally {
    connections: u64,
    has_failed: bool,
    any_back: bool,
}

/// Hands the way of a worker back, and counts what was served on it.
fn take_served<G: Gate>(gate: &mut G, served: Served<G::W>, so_far: Tally) -> Tally
    requires lent { IfSome (G.lent gate.old) (λ n. 0 < n) }
    requires told { IsTold (plain_end served.connections served.has_failed
        (plain_way (G.W.door served.way) (G.W.port served.way) (G.W.links_left served.way) (G.W.lent served.way) (G.W.returned served.way) (G.W.faults served.way))) }
    ensures taken { (first : PlainGate) (ends : List (Option PlainEnd))
        → AreTakenBack first ends (plain_gate (G.given gate.old) (G.to_come gate.old) (G.lent gate.old) (G.returned gate.old) (G.faults gate.old)) so_far
        → AreTakenBack first (ends ++ Some (plain_end served.connections served.has_failed
        (plain_way (G.W.door served.way) (G.W.port served.way) (G.W.links_left served.way) (G.W.lent served.way) (G.W.returned served.way) (G.W.faults served.way))) ∷ []) (plain_gate (G.given gate.new) (G.to_come gate.new) (G.lent gate.new) (G.returned gate.new) (G.faults gate.new)) result }
    ensures lent_less { G.lent gate.old ≡ more_by 1 (G.lent gate.new) }
{
    let Served {
        pass: _,
        way,
        connections,
        has_failed,
    } = served;
    gate.done(way);
    Tally {
        connections: so_far.connections.saturating_add(connections),
        has_failed: so_far.has_failed | has_failed,
        any_back: so_far.any_back,
    }
}

/// The same of a worker whose duty came back or was worked.
fn take<G: Gate>(gate: &mut G, outcome: Outcome<Served<G::W>>, so_far: Tally) -> Tally
    requires lent { IfSome (G.lent gate.old) (λ n. 0 < n) }
    requires told { IfWorked IsTold (end_by (λ s. plain_end s.connections s.has_failed
        (plain_way (G.W.door s.way) (G.W.port s.way) (G.W.links_left s.way) (G.W.lent s.way) (G.W.returned s.way) (G.W.faults s.way))) outcome) }
    ensures taken { (first : PlainGate) (ends : List (Option PlainEnd))
        → AreTakenBack first ends (plain_gate (G.given gate.old) (G.to_come gate.old) (G.lent gate.old) (G.returned gate.old) (G.faults gate.old)) so_far
        → AreTakenBack first (ends ++ end_by (λ s. plain_end s.connections s.has_failed
        (plain_way (G.W.door s.way) (G.W.port s.way) (G.W.links_left s.way) (G.W.lent s.way) (G.W.returned s.way) (G.W.faults s.way))) outcome ∷ []) (plain_gate (G.given gate.new) (G.to_come gate.new) (G.lent gate.new) (G.returned gate.new) (G.faults gate.new)) result }
    ensures few { (n : ℕ) → IfSome (G.lent gate.old) (λ k. n + 1 ≤ k) → IfSome (G.lent gate.new) (λ k. n ≤ k) }
{
    match outcome {
        Outcome::Ended(served) => take_served(gate, served, so_far),
        Outcome::Back => Tally {
            connections: so_far.connections,
            has_failed: so_far.has_failed,
            any_back: true,
        },
    }
}

/// Hands the ways of the workers back to the gate, in order, and counts their connections, up to the greatest number of the
/// type, at which the count stays.
pub(crate) fn take_back<G: Gate>(
    gate: &mut G,
    outcomes: Vec<Outcome<Served<G::W>>>,
) -> Result<u64, ServeFault>
    requires lent { IfSome (G.lent gate.old) (λ n. length outcomes.items ≤ n) }
    requires told { All (IfWorked IsTold) (map (end_by (λ s. plain_end s.connections s.has_failed
        (plain_way (G.W.door s.way) (G.W.port s.way) (G.W.links_left s.way) (G.W.lent s.way) (G.W.returned s.way) (G.W.faults s.way)))) outcomes.items) }
    ensures served { IfOk result (λ count. AreTakenBack
        (plain_gate (G.given gate.old) (G.to_come gate.old) (G.lent gate.old) (G.returned gate.old) (G.faults gate.old))
        (map (end_by (λ s. plain_end s.connections s.has_failed
        (plain_way (G.W.door s.way) (G.W.port s.way) (G.W.links_left s.way) (G.W.lent s.way) (G.W.returned s.way) (G.W.faults s.way)))) outcomes.items)
        (plain_gate (G.given gate.new) (G.to_come gate.new) (G.lent gate.new) (G.returned gate.new) (G.faults gate.new))
        (record { connections = count; has_failed = false; any_back = false })) }
    ensures fault { result ≡ Err GateFault → HasRisen (G.faults gate.old) (G.faults gate.new) }
    ensures told { IsOk result → G.faults gate.new ≡ G.faults gate.old }
    ensures back { result ≡ Err Spawn → list_any is_back outcomes.items ≡ true }
    ensures worked { result ≢ Err Spawn → list_any is_back outcomes.items ≡ false }
    ensures never { result ≢ Err NoMemory }
{
    let mut tally = Tally {
        connections: 0,
        has_failed: false,
        any_back: false,
    };
    for outcome in outcomes {
        tally = take(gate, outcome, tally);
    }
    if tally.any_back {
        return Err(ServeFault::Spawn);
    }
    if tally.has_failed {
        return Err(ServeFault::Gate);
    }
    Ok(tally.connections)
}
