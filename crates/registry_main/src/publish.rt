//! What is published of the register that a script leaves.
ghost use Rattle.std.specs.Prelude.{◌≡◌, ◌≢◌, ℕ, Err, OnOk, OnErr};
ghost use Rattle.std.specs.Io.KnownBytes.{Appends, Keeps, IsAtEnd};
ghost use Rattle.link_face.specs.Faults.{HasRisen};
ghost use Rattle.mirror_core.specs.declared.fault.FeedFault.{FeedFault};
ghost use Rattle.policy_table.specs.declared.fault.PolicyFault.{PolicyFault};
ghost use Rattle.registry_main.specs.Session.{new_session};
ghost use Rattle.registry_main.specs.Batch.{BeginsWith, IsFrontWritten, known};
ghost use Rattle.reverse_zone.specs.Apex.{IsApex};
ghost use Rattle.registry_main.specs.Published.{session_text, zone_or_none, with_text_after, IsPublished};
ghost use Rattle.command_words.specs.declared.command.Publication.TheVariants.{Statistics as TheStatistics, Zones as TheZones};
ghost use Rattle.registry_main.specs.declared.exit.Exit.TheVariants.{Done, Usage, PolicyRefused, ReadFault, WriteFault, NoMemory, SpawnFault, FeedRefused};
ghost use Rattle.registry_main.specs.declared.publish.Unpublished.TheVariants.{Read, Write, Memory};

use crate::apply::apply_script;
use crate::exit::Exit;
use crate::session::Session;
use command_words::Publication;
use link_face::{Clock, Failed, Sink, Source};
use policy_table::Policy;
use reverse_zone::{Apex, apexes};
use std::alloc::{AllocError, Global};

/// Why not all of it is published.
#[derive(Clone, Copy)]
enum Unpublished {
    /// The script couldn't be read on.
    Read,
    /// The text couldn't be written on.
    Write,
    /// There was no memory for the register, for the file, or for the next zone.
    Memory,
}

impl From<AllocError> for Unpublished {
    ghost use Rattle.std.specs.Prelude.{◌≡◌};
    ghost use Rattle.registry_main.specs.declared.publish.Unpublished.TheVariants.{Memory};

    ghost from_gives = { λ _ fault. fault ≡ Memory };

    fn from(_: AllocError) -> Self {
        Unpublished::Memory
    }
}

/// Writes a text, all of it at once.
#[tactic(auto, using(crate::proofs::Written::prefix_begins))]
fn write_all<K: Sink>(text: &[u8], out: &mut K) -> Result<(), Unpublished>
    ensures ok { OnOk result (Appends (K.written out.old) (K.written out.new) text.now) }
    ensures err { OnErr result (IsFrontWritten (K.written out.old) text.now (K.written out.new)) }
    ensures fault { OnErr result (result ≡ Err Write) }
    ensures write { result ≡ Err Write → HasRisen (K.faults out.old) (K.faults out.new) }
    ensures write_told { result ≢ Err Write → K.faults out.new ≡ K.faults out.old }
{
    match out.write(text) {
        Ok(()) => Ok(()),
        Err(Failed) => Err(Unpublished::Write),
    }
}

fn write_statistics<K: Sink>(
    alloc: Global,
    session: &Session,
    out: &mut K,
) -> Result<(), Unpublished>
    ensures ok { OnOk result (Appends (K.written out.old) (K.written out.new) (session_text TheStatistics session.now)) }
    ensures err { OnErr result (IsFrontWritten (K.written out.old) (session_text TheStatistics session.now) (K.written out.new)) }
    ensures unwritten { result ≡ Err Memory → out.new ≡ out.old }
    ensures no_read { result ≢ Err Read }
    ensures write { result ≡ Err Write → HasRisen (K.faults out.old) (K.faults out.new) }
    ensures write_told { result ≢ Err Write → K.faults out.new ≡ K.faults out.old }
{
    let file = session.statistics(alloc)?;
    write_all(file.bytes(), out)
}

/// Writes the zone of the apex, where the register has it.
fn write_zone_of<K: Sink>(
    alloc: Global,
    session: &Session,
    apex: Apex,
    out: &mut K,
) -> Result<(), Unpublished>
    requires { IsApex apex }
    ensures ok { OnOk result (Appends (K.written out.old) (K.written out.new) (zone_or_none session.now apex)) }
    ensures err { OnErr result (IsFrontWritten (K.written out.old) (zone_or_none session.now apex) (K.written out.new)) }
    ensures no_read { result ≢ Err Read }
    ensures write { result ≡ Err Write → HasRisen (K.faults out.old) (K.faults out.new) }
    ensures write_told { result ≢ Err Write → K.faults out.new ≡ K.faults out.old }
{
    if !session.has_zone(apex) {
        return Ok(());
    }
    let zone = session.zone(alloc, apex)?;
    write_all(zone.bytes(), out)
}

/// Writes the zones, one after the other. No more than one is kept.
fn write_zones<K: Sink>(alloc: Global, session: &Session, out: &mut K) -> Result<(), Unpublished>
    ensures ok { OnOk result (Appends (K.written out.old) (K.written out.new) (session_text TheZones session.now)) }
    ensures err { OnErr result (IsFrontWritten (K.written out.old) (session_text TheZones session.now) (K.written out.new)) }
    ensures no_read { result ≢ Err Read }
    ensures write { result ≡ Err Write → HasRisen (K.faults out.old) (K.faults out.new) }
    ensures write_told { result ≢ Err Write → K.faults out.new ≡ K.faults out.old }
{
    for apex in apexes() {
        write_zone_of(alloc, session, apex, out)?;
    }
    Ok(())
}

/// Writes what is published of a session's register.
fn write_publication<K: Sink>(
    alloc: Global,
    session: &Session,
    what: Publication,
    out: &mut K,
) -> Result<(), Unpublished>
    ensures ok { OnOk result (Appends (K.written out.old) (K.written out.new) (session_text what session.now)) }
    ensures err { OnErr result (IsFrontWritten (K.written out.old) (session_text what session.now) (K.written out.new)) }
    ensures whole { what ≡ TheStatistics → result ≡ Err Memory → out.new ≡ out.old }
    ensures no_read { result ≢ Err Read }
    ensures write { result ≡ Err Write → HasRisen (K.faults out.old) (K.faults out.new) }
    ensures write_told { result ≢ Err Write → K.faults out.new ≡ K.faults out.old }
{
    match what {
        Publication::Statistics => write_statistics(alloc, session, out),
        Publication::Zones => write_zones(alloc, session, out),
    }
}

/// Has a session follow a script, and writes what is published of its register then.
fn publish_after<T: Source, K: Sink>(
    alloc: Global,
    session: &mut Session,
    what: Publication,
    script: &mut T,
    out: &mut K,
) -> Result<(), Unpublished>
    ensures ok { OnOk result (Keeps (with_text_after what session.old (K.written out.old) (T.left script.old)) (K.written out.new)) }
    ensures end { OnOk result (IsAtEnd (T.left script.new)) }
    ensures ended { OnOk result (T.has_ended script.new) }
    ensures err { OnErr result (BeginsWith (with_text_after what session.old (K.written out.old) (T.left script.old)) (K.written out.new)) }
    ensures unwritten { result ≡ Err Read → out.new ≡ out.old }
    ensures whole { what ≡ TheStatistics → result ≡ Err Memory → out.new ≡ out.old }
    ensures read { result ≡ Err Read → HasRisen (T.faults script.old) (T.faults script.new) }
    ensures read_told { result ≢ Err Read → T.faults script.new ≡ T.faults script.old }
    ensures write { result ≡ Err Write → HasRisen (K.faults out.old) (K.faults out.new) }
    ensures write_told { result ≢ Err Write → K.faults out.new ≡ K.faults out.old }
{
    match apply_script(session, script) {
        Ok(()) => write_publication(alloc, session, what, out),
        Err(Failed) => Err(Unpublished::Read),
    }
}

/// Writes what is published of the register that a script leaves under a policy, on a clock's day. The register is let go.
fn publish_script<T: Source, K: Sink>(
    alloc: Global,
    policy: Policy,
    day: u32,
    what: Publication,
    script: &mut T,
    out: &mut K,
) -> Result<(), Unpublished>
    ensures ok { OnOk result (Keeps (with_text_after what (new_session policy day) (K.written out.old) (T.left script.old)) (K.written out.new)) }
    ensures end { OnOk result (IsAtEnd (T.left script.new)) }
    ensures ended { OnOk result (T.has_ended script.new) }
    ensures err { OnErr result (BeginsWith (with_text_after what (new_session policy day) (K.written out.old) (T.left script.old)) (K.written out.new)) }
    ensures unwritten { result ≡ Err Read → out.new ≡ out.old }
    ensures whole { what ≡ TheStatistics → result ≡ Err Memory → out.new ≡ out.old }
    ensures read { result ≡ Err Read → HasRisen (T.faults script.old) (T.faults script.new) }
    ensures read_told { result ≢ Err Read → T.faults script.new ≡ T.faults script.old }
    ensures write { result ≡ Err Write → HasRisen (K.faults out.old) (K.faults out.new) }
    ensures write_told { result ≢ Err Write → K.faults out.new ≡ K.faults out.old }
{
    let mut session = Session::new(alloc, policy, day)?;
    publish_after(alloc, &mut session, what, script, out)
}

/// Writes what is published of the register that a script leaves under a policy, on a day of the clock.
pub fn answer_publication<T: Source, K: Sink, C: Clock>(
    alloc: Global,
    policy: Policy,
    what: Publication,
    script: &mut T,
    out: &mut K,
    clock: &C,
) -> Exit
    ensures published { (day : ℕ) × C.states clock.now day
        × IsPublished what policy day (known (T.taken script.old) (T.left script.old) (K.written out.old)) result
        (known (T.taken script.new) (T.left script.new) (K.written out.new)) }
    ensures ended { result ≡ Done → T.has_ended script.new }
    ensures unwritten { result ≡ ReadFault → out.new ≡ out.old }
    ensures whole { what ≡ TheStatistics → result ≡ NoMemory → out.new ≡ out.old }
    ensures no_usage { result ≢ Usage }
    ensures no_spawn { result ≢ SpawnFault }
    ensures no_refusal { (fault : PolicyFault) → result ≢ PolicyRefused fault }
    ensures no_feed { (fault : FeedFault) → result ≢ FeedRefused fault }
    ensures read { result ≡ ReadFault → HasRisen (T.faults script.old) (T.faults script.new) }
    ensures read_told { result ≢ ReadFault → T.faults script.new ≡ T.faults script.old }
    ensures write { result ≡ WriteFault → HasRisen (K.faults out.old) (K.faults out.new) }
    ensures write_told { result ≢ WriteFault → K.faults out.new ≡ K.faults out.old }
{
    match publish_script(alloc, policy, clock.day(), what, script, out) {
        Ok(()) => Exit::Done,
        Err(Unpublished::Read) => Exit::ReadFault,
        Err(Unpublished::Write) => Exit::WriteFault,
        Err(Unpublished::Memory) => Exit::NoMemory,
    }
}
