//! A mirror that is fed the script, and what it holds then.
ghost use Rattle.std.specs.Prelude.{◌≡◌, ◌≢◌, Err, None, OnOk, OnErr, Some};
ghost use Rattle.std.specs.Io.KnownBytes.{Appends, IsAtEnd, Keeps};
ghost use Rattle.link_face.specs.Faults.{HasRisen};
ghost use Rattle.policy_table.specs.declared.fault.PolicyFault.{PolicyFault};
ghost use Rattle.mirror_core.specs.declared.fault.FeedFault.{FeedFault as TheFeedFault};
ghost use Rattle.mirror_core.specs.declared.fault.FeedFault.TheVariants as faults;
ghost use Rattle.mirror_core.specs.Objects.{objects_text};
ghost use Rattle.registry_main.specs.Batch.{BeginsWith, IsFrontWritten, known};
ghost use Rattle.registry_main.specs.Mirror.{mirror_of, of_fault, IsFedAll, EndsWith, with_objects, IsMirrored};
ghost use Rattle.registry_main.specs.declared.exit.Exit.TheVariants.{Done, Usage, PolicyRefused, FeedRefused, ReadFault, WriteFault, NoMemory, SpawnFault};
ghost use Rattle.registry_main.specs.declared.mirror.Unmirrored.TheVariants.{Read, Write, Memory, Refused};

use crate::exit::Exit;
use board::Body;
use link_face::{Failed, Sink, Source};
use mirror_core::laws::{faults_stay, pieces_are_fed_alike};
use mirror_core::{FeedFault, Mirror, Objects, append_attributes};
use nrtm_stream::source_of;
use reg_entry::Name;
use std::alloc::{AllocError, Global};

/// How many bytes are read of a stream at once.
const PIECE: usize = 8192;

/// How many bytes of objects are kept at least before they are written.
const BLOCK: usize = 32_768;

/// Why a mirror's objects aren't all written.
#[derive(Clone, Copy)]
enum Unmirrored {
    /// The script couldn't be read on.
    Read,
    /// The objects couldn't be written on.
    Write,
    /// There was no memory for the mirror or for the text of its objects.
    Memory,
    /// The script is no feed that leaves a mirror at rest.
    Refused(FeedFault),
}

impl From<AllocError> for Unmirrored {
    ghost from_gives = { λ _ fault. fault ≡ Memory };

    fn from(_: AllocError) -> Self {
        Unmirrored::Memory
    }
}

impl From<FeedFault> for Unmirrored {
    ghost from_gives = { λ fault end. end ≡ of_fault fault };

    fn from(fault: FeedFault) -> Self {
        match fault {
            FeedFault::NoMemory => Unmirrored::Memory,
            fault => Unmirrored::Refused(fault),
        }
    }
}

/// Feeds the script to a mirror, up to its end or to the first fault.
fn feed_script<T: Source>(mirror: &mut Mirror, script: &mut T) -> Result<(), Unmirrored>
    requires { mirror.old.fault ≡ None }
    ensures fed { OnOk result (IsFedAll mirror.old (T.left script.old) mirror.new) }
    ensures sound { OnOk result (mirror.new.fault ≡ None) }
    ensures end { OnOk result (IsAtEnd (T.left script.new)) }
    ensures ended { OnOk result (T.has_ended script.new) }
    ensures refused { (fault : TheFeedFault) → result ≡ Err (Refused fault) → EndsWith mirror.old (T.left script.old) (Some fault) }
    ensures told { result ≢ Err (Refused faults.NoMemory) }
    ensures no_write { result ≢ Err Write }
    ensures read { result ≡ Err Read → HasRisen (T.faults script.old) (T.faults script.new) }
    ensures read_told { result ≢ Err Read → T.faults script.new ≡ T.faults script.old }
{
    // Laws: feeding in pieces is feeding all, and a fault stays.
    pieces_are_fed_alike();
    faults_stay();
    let mut piece = [0; PIECE];
    'pieces: loop {
        match script.read(&mut piece) {
            Err(Failed) => return Err(Unmirrored::Read),
            Ok(0) => return Ok(()),
            Ok(count) => mirror.feed(&piece[..count])?,
        }
    }
}

/// Writes a text, all of it at once.
#[tactic(auto, using(crate::proofs::Written::prefix_begins))]
fn write_all<K: Sink>(text: &[u8], out: &mut K) -> Result<(), Unmirrored>
    ensures ok { OnOk result (Appends (K.written out.old) (K.written out.new) text.now) }
    ensures err { OnErr result (IsFrontWritten (K.written out.old) text.now (K.written out.new)) }
    ensures fault { OnErr result (result ≡ Err Write) }
    ensures write { result ≡ Err Write → HasRisen (K.faults out.old) (K.faults out.new) }
    ensures write_told { result ≢ Err Write → K.faults out.new ≡ K.faults out.old }
{
    match out.write(text) {
        Ok(()) => Ok(()),
        Err(Failed) => Err(Unmirrored::Write),
    }
}

/// Writes the objects, rising by key, block by block.
fn write_objects<K: Sink>(alloc: Global, objects: &Objects, out: &mut K) -> Result<(), Unmirrored>
    ensures ok { OnOk result (Appends (K.written out.old) (K.written out.new) (objects_text objects.now)) }
    ensures err { OnErr result (IsFrontWritten (K.written out.old) (objects_text objects.now) (K.written out.new)) }
    ensures no_read { result ≢ Err Read }
    ensures no_refusal { (fault : TheFeedFault) → result ≢ Err (Refused fault) }
    ensures write { result ≡ Err Write → HasRisen (K.faults out.old) (K.faults out.new) }
    ensures write_told { result ≢ Err Write → K.faults out.new ≡ K.faults out.old }
{
    let mut block = Body::new(alloc);
    for (_, attributes) in objects.walk() {
        append_attributes(attributes, &mut block)?;
        if block.bytes().len() >= BLOCK {
            write_all(block.bytes(), out)?;
            block = Body::new(alloc);
        }
    }
    write_all(block.bytes(), out)
}

/// Feeds the script to a mirror of the registry, and writes its objects once it has ended. The mirror is let go.
fn mirror_script<T: Source, K: Sink>(
    alloc: Global,
    registry: &Name,
    script: &mut T,
    out: &mut K,
) -> Result<(), Unmirrored>
    ensures ok { OnOk result (Keeps (with_objects (mirror_of registry.now) (K.written out.old) (T.left script.old)) (K.written out.new)) }
    ensures at_rest { OnOk result (EndsWith (mirror_of registry.now) (T.left script.old) None) }
    ensures end { OnOk result (IsAtEnd (T.left script.new)) }
    ensures ended { OnOk result (T.has_ended script.new) }
    ensures err { OnErr result (BeginsWith (with_objects (mirror_of registry.now) (K.written out.old) (T.left script.old)) (K.written out.new)) }
    ensures refused { (fault : TheFeedFault) → result ≡ Err (Refused fault) →
        EndsWith (mirror_of registry.now) (T.left script.old) (Some fault) × (out.new ≡ out.old) }
    ensures told { result ≢ Err (Refused faults.NoMemory) }
    ensures unwritten { result ≡ Err Read → out.new ≡ out.old }
    ensures read { result ≡ Err Read → HasRisen (T.faults script.old) (T.faults script.new) }
    ensures read_told { result ≢ Err Read → T.faults script.new ≡ T.faults script.old }
    ensures write { result ≡ Err Write → HasRisen (K.faults out.old) (K.faults out.new) }
    ensures write_told { result ≢ Err Write → K.faults out.new ≡ K.faults out.old }
{
    let source = source_of(registry);
    let mut mirror = Mirror::new(alloc, source.as_slice())?;
    feed_script(&mut mirror, script)?;
    if let Some(fault) = mirror.end_fault() {
        return Err(Unmirrored::Refused(fault));
    }
    write_objects(alloc, mirror.objects(), out)
}

/// Writes the objects of a mirror of the registry that was fed the script.
pub fn answer_mirror<T: Source, K: Sink>(
    alloc: Global,
    registry: &Name,
    script: &mut T,
    out: &mut K,
) -> Exit
    ensures mirrored { IsMirrored registry.now (known (T.taken script.old) (T.left script.old) (K.written out.old)) result
        (known (T.taken script.new) (T.left script.new) (K.written out.new)) }
    ensures ended { result ≡ Done → T.has_ended script.new }
    ensures refused { (fault : TheFeedFault) → result ≡ FeedRefused fault → out.new ≡ out.old }
    ensures told { result ≢ FeedRefused faults.NoMemory }
    ensures unwritten { result ≡ ReadFault → out.new ≡ out.old }
    ensures no_usage { result ≢ Usage }
    ensures no_spawn { result ≢ SpawnFault }
    ensures no_refusal { (fault : PolicyFault) → result ≢ PolicyRefused fault }
    ensures read { result ≡ ReadFault → HasRisen (T.faults script.old) (T.faults script.new) }
    ensures read_told { result ≢ ReadFault → T.faults script.new ≡ T.faults script.old }
    ensures write { result ≡ WriteFault → HasRisen (K.faults out.old) (K.faults out.new) }
    ensures write_told { result ≢ WriteFault → K.faults out.new ≡ K.faults out.old }
{
    match mirror_script(alloc, registry, script, out) {
        Ok(()) => Exit::Done,
        Err(Unmirrored::Read) => Exit::ReadFault,
        Err(Unmirrored::Write) => Exit::WriteFault,
        Err(Unmirrored::Memory) => Exit::NoMemory,
        Err(Unmirrored::Refused(fault)) => Exit::FeedRefused(fault),
    }
}
