//! A load, and its summary.
ghost use Rattle.std.specs.Prelude.{◌≡◌, ◌≢◌};
ghost use Rattle.link_face.specs.Faults.{HasRisen};
ghost use Rattle.mirror_core.specs.declared.fault.FeedFault.{FeedFault};
ghost use Rattle.policy_table.specs.declared.fault.PolicyFault.{PolicyFault};
ghost use Rattle.registry_main.specs.Load.{IsLoaded};
ghost use Rattle.registry_main.specs.declared.exit.Exit.TheVariants.{Usage, PolicyRefused, ReadFault, WriteFault, NoMemory, SpawnFault, FeedRefused};

use crate::exit::Exit;
use crate::session::ROOMS;
use link_face::{Failed, Sink};
use load_run::write_load;
use policy_table::Policy;
use std::alloc::Global;

/// Writes the summary of a load under a policy.
#[tactic(auto, using(crate::proofs::Written::prefix_begins))]
pub fn answer_load<K: Sink>(
    alloc: Global,
    policy: &Policy,
    seed: u64,
    requests: u32,
    out: &mut K,
) -> Exit
    ensures loaded { IsLoaded policy.now seed requests (K.written out.old) result (K.written out.new) }
    ensures no_usage { result ≢ Usage }
    ensures no_refusal { (fault : PolicyFault) → result ≢ PolicyRefused fault }
    ensures no_feed { (fault : FeedFault) → result ≢ FeedRefused fault }
    ensures no_spawn { result ≢ SpawnFault }
    ensures no_read { result ≢ ReadFault }
    ensures unwritten { result ≡ NoMemory → out.new ≡ out.old }
    ensures write { result ≡ WriteFault → HasRisen (K.faults out.old) (K.faults out.new) }
    ensures write_told { result ≢ WriteFault → K.faults out.new ≡ K.faults out.old }
{
    let Ok(summary) = write_load(alloc, ROOMS, policy, seed, requests) else {
        return Exit::NoMemory;
    };
    match out.write(summary.bytes()) {
        Ok(()) => Exit::Done,
        Err(Failed) => Exit::WriteFault,
    }
}
