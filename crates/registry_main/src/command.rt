//! What each command does under a policy, but for `serve`.
ghost use Rattle.std.specs.Prelude.{◌≡◌, ◌≢◌, ◌≤◌, ◌+◌, ◌⊎◌, [], ℕ, false, true, Some, Ok, Err};
ghost use Rattle.std.specs.Io.KnownBytes.{Keeps, IsAtEnd};
ghost use Rattle.link_face.specs.Faults.{HasRisen};
ghost use Rattle.mirror_core.specs.declared.fault.FeedFault.{FeedFault};
ghost use Rattle.mirror_core.specs.declared.fault.FeedFault.TheVariants as feed_faults;
ghost use Rattle.policy_table.specs.declared.fault.PolicyFault.{PolicyFault};
ghost use Rattle.policy_table.specs.declared.fault.PolicyFault.TheVariants as faults;
ghost use Rattle.reg_entry.specs.Policy.{PlainPolicy, IsPolicy};
ghost use Rattle.command_words.specs.declared.command.Command.TheVariants.{Batch, Publish, Mirror, Load};
ghost use Rattle.command_words.specs.declared.command.Publication.{Publication};
ghost use Rattle.command_words.specs.declared.command.Publication.TheVariants.{Statistics};
ghost use Rattle.registry_main.specs.Batch.{known, with_all_replies, BeginsWith, IsUpToDate, IsAnswered};
ghost use Rattle.registry_main.specs.Load.{IsLoaded};
ghost use Rattle.registry_main.specs.Mirror.{IsMirrored};
ghost use Rattle.registry_main.specs.PolicyBytes.{policy_front, IsSaid, IfSaid};
ghost use Rattle.registry_main.specs.Published.{IsPublished};
ghost use Rattle.registry_main.specs.Serve.{opens_doors, reads_script};
ghost use Rattle.registry_main.specs.declared.exit.Exit.TheVariants.{Done, Usage, PolicyRefused, ReadFault, WriteFault, NoMemory, SpawnFault, FeedRefused};

use crate::batch::{Stop, answer_script};
use crate::exit::Exit;
use crate::load::answer_load;
use crate::mirror::answer_mirror;
use crate::policy_bytes::{NoPolicy, read_policy};
use crate::publish::answer_publication;
use crate::session::Session;
use command_words::Command;
use link_face::{Clock, Sink, Source};
use policy_table::Policy;
use std::alloc::Global;

/// Lets a session go. It is a function of its own, so that this is proved apart from what was answered.
fn discard(session: Session) {
    drop(session);
}

/// Answers a script with a session.
fn answer_over<T: Source, K: Sink>(session: &mut Session, script: &mut T, out: &mut K) -> Exit
    ensures front { BeginsWith (with_all_replies (K.written out.old) session.old [] (T.left script.old)) (K.written out.new) }
    ensures done { result ≡ Done
        → Keeps (with_all_replies (K.written out.old) session.old [] (T.left script.old)) (K.written out.new) × IsAtEnd (T.left script.new) }
    ensures up_to_date { result ≡ ReadFault → IsUpToDate session.old
        (known (T.taken script.old) (T.left script.old) (K.written out.old)) (known (T.taken script.new) (T.left script.new) (K.written out.new)) }
    ensures ended { result ≡ Done → T.has_ended script.new }
    ensures no_usage { result ≢ Usage }
    ensures no_memory { result ≢ NoMemory }
    ensures no_spawn { result ≢ SpawnFault }
    ensures no_refusal { (fault : PolicyFault) → result ≢ PolicyRefused fault }
    ensures no_feed { (fault : FeedFault) → result ≢ FeedRefused fault }
    ensures read { result ≡ ReadFault → HasRisen (T.faults script.old) (T.faults script.new) }
    ensures read_told { result ≢ ReadFault → T.faults script.new ≡ T.faults script.old }
    ensures write { result ≡ WriteFault → HasRisen (K.faults out.old) (K.faults out.new) }
    ensures write_told { result ≢ WriteFault → K.faults out.new ≡ K.faults out.old }
{
    match answer_script(session, script, out) {
        Ok(()) => Exit::Done,
        Err(Stop::Read) => Exit::ReadFault,
        Err(Stop::Write) => Exit::WriteFault,
    }
}

/// Answers a script under a policy, on a day of the clock.
fn answer_batch<T: Source, K: Sink, C: Clock>(
    alloc: Global,
    policy: Policy,
    script: &mut T,
    out: &mut K,
    clock: &C,
) -> Exit
    ensures answered { (day : ℕ) × C.states clock.now day
        × IsAnswered policy day (known (T.taken script.old) (T.left script.old) (K.written out.old)) result
        (known (T.taken script.new) (T.left script.new) (K.written out.new)) }
    ensures ended { result ≡ Done → T.has_ended script.new }
    ensures unread { result ≡ NoMemory → (script.new ≡ script.old) × (out.new ≡ out.old) }
    ensures no_usage { result ≢ Usage }
    ensures no_spawn { result ≢ SpawnFault }
    ensures no_refusal { (fault : PolicyFault) → result ≢ PolicyRefused fault }
    ensures no_feed { (fault : FeedFault) → result ≢ FeedRefused fault }
    ensures read { result ≡ ReadFault → HasRisen (T.faults script.old) (T.faults script.new) }
    ensures read_told { result ≢ ReadFault → T.faults script.new ≡ T.faults script.old }
    ensures write { result ≡ WriteFault → HasRisen (K.faults out.old) (K.faults out.new) }
    ensures write_told { result ≢ WriteFault → K.faults out.new ≡ K.faults out.old }
{
    let Ok(mut session) = Session::new(alloc, policy, clock.day()) else {
        return Exit::NoMemory;
    };
    let exit = answer_over(&mut session, script, out);
    discard(session);
    exit
}

/// Does what a command asks for under a policy, if it is another than `serve`.
pub fn answer_command<T: Source, K: Sink, C: Clock>(
    alloc: Global,
    command: Command,
    policy: Policy,
    script: &mut T,
    out: &mut K,
    clock: &C,
) -> Exit
    requires doorless { opens_doors (Some command) ≡ false }
    ensures answered { command ≡ Batch → (day : ℕ) × C.states clock.now day
        × IsAnswered policy day (known (T.taken script.old) (T.left script.old) (K.written out.old)) result
        (known (T.taken script.new) (T.left script.new) (K.written out.new)) }
    ensures unread { command ≡ Batch → result ≡ NoMemory → (script.new ≡ script.old) × (out.new ≡ out.old) }
    ensures published { (what : Publication) → command ≡ Publish what → (day : ℕ) × C.states clock.now day
        × IsPublished what policy day (known (T.taken script.old) (T.left script.old) (K.written out.old)) result
        (known (T.taken script.new) (T.left script.new) (K.written out.new)) }
    ensures unwritten { (what : Publication) → command ≡ Publish what → result ≡ ReadFault → out.new ≡ out.old }
    ensures whole { command ≡ Publish Statistics → result ≡ NoMemory → out.new ≡ out.old }
    ensures mirrored { command ≡ Mirror
        → IsMirrored policy.registry (known (T.taken script.old) (T.left script.old) (K.written out.old)) result
        (known (T.taken script.new) (T.left script.new) (K.written out.new)) }
    ensures unfed { command ≡ Mirror → result ≡ ReadFault → out.new ≡ out.old }
    ensures feed_refused { (fault : FeedFault) → result ≡ FeedRefused fault → (command ≡ Mirror) × (fault ≢ feed_faults.NoMemory) × (out.new ≡ out.old) }
    ensures loaded { (seed requests : ℕ) → command ≡ Load seed requests → IsLoaded policy seed requests (K.written out.old) result (K.written out.new) }
    ensures scriptless { reads_script (Some command) ≡ false → script.new ≡ script.old }
    ensures ended { result ≡ Done → reads_script (Some command) ≡ true → T.has_ended script.new }
    ensures no_usage { result ≢ Usage }
    ensures no_refusal { (fault : PolicyFault) → result ≢ PolicyRefused fault }
    ensures no_spawn { result ≢ SpawnFault }
    ensures read { result ≡ ReadFault → HasRisen (T.faults script.old) (T.faults script.new) }
    ensures read_told { result ≢ ReadFault → T.faults script.new ≡ T.faults script.old }
    ensures write { result ≡ WriteFault → HasRisen (K.faults out.old) (K.faults out.new) }
    ensures write_told { result ≢ WriteFault → K.faults out.new ≡ K.faults out.old }
{
    match command {
        Command::Batch => answer_batch(alloc, policy, script, out, clock),
        Command::Serve { .. } => unreachable!(),
        Command::Publish(what) => answer_publication(alloc, policy, what, script, out, clock),
        Command::Mirror => answer_mirror(alloc, policy.registry(), script, out),
        Command::Load { seed, requests } => answer_load(alloc, &policy, seed, requests, out),
    }
}

/// Reads the policy, and does what a command asks for under it, if it is another than `serve`.
pub fn do_command<S: Source, T: Source, K: Sink, C: Clock>(
    alloc: Global,
    command: Command,
    policy: &mut S,
    script: &mut T,
    out: &mut K,
    clock: &C,
) -> Exit
    requires doorless { opens_doors (Some command) ≡ false }
    ensures refused { (fault : PolicyFault) → result ≡ PolicyRefused fault →
        IsSaid (S.left policy.old) (Err fault) × (script.new ≡ script.old) × (out.new ≡ out.old) }
    ensures no_policy { (fault : PolicyFault) → IfSaid (S.left policy.old) (Err fault)
        (((result ≡ PolicyRefused fault) ⊎ (result ≡ ReadFault) ⊎ (result ≡ NoMemory)) × (script.new ≡ script.old) × (out.new ≡ out.old)) }
    ensures no_memory { result ≢ PolicyRefused faults.NoMemory }
    ensures bounded { S.budget policy.old ≤ S.budget policy.new + policy_front }
    ensures answered { command ≡ Batch → ((result ≢ Done) × (script.new ≡ script.old) × (out.new ≡ out.old))
        ⊎ ((p : PlainPolicy) × IsPolicy p × IsSaid (S.left policy.old) (Ok p) × (day : ℕ) × C.states clock.now day
        × IsAnswered p day (known (T.taken script.old) (T.left script.old) (K.written out.old)) result
        (known (T.taken script.new) (T.left script.new) (K.written out.new))) }
    ensures unread { command ≡ Batch → result ≡ NoMemory → (script.new ≡ script.old) × (out.new ≡ out.old) }
    ensures published { (what : Publication) → command ≡ Publish what → ((result ≢ Done) × (out.new ≡ out.old))
        ⊎ ((p : PlainPolicy) × IsPolicy p × IsSaid (S.left policy.old) (Ok p) × (day : ℕ) × C.states clock.now day
        × IsPublished what p day (known (T.taken script.old) (T.left script.old) (K.written out.old)) result
        (known (T.taken script.new) (T.left script.new) (K.written out.new))) }
    ensures unwritten { (what : Publication) → command ≡ Publish what → result ≡ ReadFault → out.new ≡ out.old }
    ensures whole { command ≡ Publish Statistics → result ≡ NoMemory → out.new ≡ out.old }
    ensures mirrored { command ≡ Mirror
        → ((result ≢ Done) × ((fault : FeedFault) → result ≢ FeedRefused fault) × (script.new ≡ script.old) × (out.new ≡ out.old))
        ⊎ ((p : PlainPolicy) × IsPolicy p × IsSaid (S.left policy.old) (Ok p)
        × IsMirrored p.registry (known (T.taken script.old) (T.left script.old) (K.written out.old)) result
        (known (T.taken script.new) (T.left script.new) (K.written out.new))) }
    ensures unfed { command ≡ Mirror → result ≡ ReadFault → out.new ≡ out.old }
    ensures feed_refused { (fault : FeedFault) → result ≡ FeedRefused fault → (command ≡ Mirror) × (fault ≢ feed_faults.NoMemory) × (out.new ≡ out.old) }
    ensures loaded { (seed requests : ℕ) → command ≡ Load seed requests → ((result ≢ Done) × (out.new ≡ out.old))
        ⊎ ((p : PlainPolicy) × IsPolicy p × IsSaid (S.left policy.old) (Ok p)
        × IsLoaded p seed requests (K.written out.old) result (K.written out.new)) }
    ensures scriptless { reads_script (Some command) ≡ false → script.new ≡ script.old }
    ensures ended { result ≡ Done → reads_script (Some command) ≡ true → T.has_ended script.new }
    ensures no_usage { result ≢ Usage }
    ensures no_spawn { result ≢ SpawnFault }
    ensures read { result ≡ ReadFault → HasRisen (S.faults policy.old) (S.faults policy.new)
        ⊎ HasRisen (T.faults script.old) (T.faults script.new) }
    ensures read_told { result ≢ ReadFault → (S.faults policy.new ≡ S.faults policy.old) × (T.faults script.new ≡ T.faults script.old) }
    ensures write { result ≡ WriteFault → HasRisen (K.faults out.old) (K.faults out.new) }
    ensures write_told { result ≢ WriteFault → K.faults out.new ≡ K.faults out.old }
{
    match read_policy(alloc, policy) {
        Ok(policy) => answer_command(alloc, command, policy, script, out, clock),
        Err(NoPolicy::Read) => Exit::ReadFault,
        Err(NoPolicy::Refused(fault)) => Exit::PolicyRefused(fault),
        Err(NoPolicy::Memory) => Exit::NoMemory,
    }
}
