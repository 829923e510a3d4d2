//! The program, over whatever it reads from and writes to.
ghost use Rattle.std.specs.Prelude.{◌≡◌, ◌≢◌, ◌≤◌, ◌<◌, ◌+◌, ◌⊎◌, ◌++◌, ℕ, true, false, List, None, Some, Ok, Err, length, map};
ghost use Rattle.std.specs.String.{string_bytes};
ghost use Rattle.num_range.specs.Range.{PlainRange, IsRange};
ghost use Rattle.num_range.specs.declared.space.Space.{Space};
ghost use Rattle.reg_entry.specs.Blocks.{least_block, IsLeastBlock};
ghost use Rattle.reg_entry.specs.Entry.{PlainEntry};
ghost use Rattle.reg_entry.specs.Next.{IsLegal};
ghost use Rattle.reg_entry.specs.Objects.{objects_of};
ghost use Rattle.reg_entry.specs.Operations.{operations_of};
ghost use Rattle.reg_entry.specs.Pieces.{overlap, IsLeastTaken};
ghost use Rattle.reg_entry.specs.Policy.{PlainPolicy, IsPolicy};
ghost use Rattle.reg_entry.specs.Register.{register_after, register_pieces};
ghost use Rattle.mirror_core.specs.declared.fault.FeedFault.{FeedFault};
ghost use Rattle.mirror_core.specs.declared.fault.FeedFault.TheVariants as feed_faults;
ghost use Rattle.policy_table.specs.declared.fault.PolicyFault.{PolicyFault};
ghost use Rattle.policy_table.specs.declared.fault.PolicyFault.TheVariants as faults;
ghost use Rattle.link_face.specs.Faults.{HasRisen};
ghost use Rattle.board.specs.Conserved.{IsConservedBy};
ghost use Rattle.delegated_ext.specs.Conserved.{AreOfReceived};
ghost use Rattle.delegated_ext.specs.Records.{record_lines};
ghost use Rattle.reverse_zone.specs.Delegated.{AreDelegated};
ghost use Rattle.nrtm_stream.specs.Stream.{capitals};
ghost use Rattle.mirror_core.specs.Mirror.{is_at_rest};
ghost use Rattle.mirror_core.specs.Objects.{mirrored};
ghost use Rattle.mirror_core.specs.Feed.{fed};
ghost use Rattle.mirror_laws.specs.Feed.{IsFeedOf, last_serial};
ghost use Rattle.mirror_laws.specs.Follows.{Follows};
ghost use Rattle.mirror_laws.specs.Forms.{ArePublished};
ghost use Rattle.load_run.specs.Conserved.{IsConservedLoad};
ghost use Rattle.serve_run.specs.Gate.{plain_gate};
ghost use Rattle.registry_main.specs.Session.{rooms, entries_after, register_over};
ghost use Rattle.registry_main.specs.Batch.{known, IsAnswered};
ghost use Rattle.command_words.specs.Command.{command_of};
ghost use Rattle.registry_main.specs.PolicyBytes.{policy_front, IsSaid, IfSaid};
ghost use Rattle.registry_main.specs.Published.{IsPublished};
ghost use Rattle.registry_main.specs.Mirror.{mirror_of, IsMirrored};
ghost use Rattle.registry_main.specs.Load.{IsLoaded};
ghost use Rattle.registry_main.specs.Serve.{IsServedFor, opens_doors, reads_script};
ghost use Rattle.command_words.specs.declared.command.Command.TheVariants.{Batch, Serve, Publish, Mirror, Load};
ghost use Rattle.command_words.specs.declared.command.Publication.{Publication};
ghost use Rattle.command_words.specs.declared.command.Publication.TheVariants.{Statistics};
ghost use Rattle.registry_main.specs.declared.exit.Exit.TheVariants.{Done, Usage, PolicyRefused, ReadFault, WriteFault, NoMemory, SpawnFault, FeedRefused};

use crate::command::do_command;
use crate::exit::Exit;
use crate::laws::{
    accepted_entries_are_legal, answers_are_least, mirrors_follow_registers, scripts_conserve,
    statistics_conserve, zones_are_delegated,
};
use crate::serve::do_serve;
use command_words::Command;
use command_words::laws::commands_have_one_list_of_words;
use door_face::{Gate, Spawner};
use link_face::{Clock, Sink, Source};
use load_run::laws::loads_conserve;
use serve_run::Doors;
use std::sync::Wait;
use std::thread::Threads;

/// Does what the words say, by the rules of the policy: `batch` answers the script line by line; `serve` serves both doors,
/// and writes how many connections there were; `stats` and `zones` write the statistics file and the reverse zones of the
/// register that the script leaves; `mirror` feeds the script to a mirror, and writes its objects; `load` writes the summary of
/// a load.
pub fn run<
    R: AllocGlobal + Threads + Wait + Sync,
    S: Source,
    T: Source,
    K: Sink,
    C: Clock + Sync,
    G: Gate,
    P: Spawner,
>(
    rt: &R,
    words: &[String],
    policy: &mut S,
    script: &mut T,
    out: &mut K,
    clock: &C,
    gate: &mut G,
    spawner: &mut P,
) -> Exit
    // The words are refused where they are no command and nowhere else, unless there is no memory to read them. Then nothing is
    // read and nothing written.
    ensures usage { result ≡ Usage → command_of (map string_bytes words.now) ≡ None }
    ensures untouched { command_of (map string_bytes words.now) ≡ None → ((result ≡ Usage) ⊎ (result ≡ NoMemory))
        × (policy.new ≡ policy.old) × (script.new ≡ script.old) × (out.new ≡ out.old) }

    // The policy is refused for the fault that its bytes have, and then nothing is read of the script and nothing
    // written. Where they have one no script is answered. No more is read of them than decides that.
    ensures refused { (fault : PolicyFault) → result ≡ PolicyRefused fault →
        IsSaid (S.left policy.old) (Err fault) × (script.new ≡ script.old) × (out.new ≡ out.old) }
    ensures no_policy { (fault : PolicyFault) → IfSaid (S.left policy.old) (Err fault)
        (((result ≡ Usage) ⊎ (result ≡ PolicyRefused fault) ⊎ (result ≡ ReadFault) ⊎ (result ≡ NoMemory))
        × (script.new ≡ script.old) × (out.new ≡ out.old)) }
    ensures no_memory { result ≢ PolicyRefused faults.NoMemory }
    ensures bounded { S.budget policy.old ≤ S.budget policy.new + policy_front }

    // `batch`: where the policy is good, what is written are the replies of the register that the lines of the script build
    // under it, on a day of the clock. The replies to the lines that have come are written before more is read.
    ensures answered { command_of (map string_bytes words.now) ≡ Some Batch → ((result ≢ Done) × (script.new ≡ script.old) × (out.new ≡ out.old))
        ⊎ ((p : PlainPolicy) × IsPolicy p × IsSaid (S.left policy.old) (Ok p) × (day : ℕ) × C.states clock.now day
        × IsAnswered p day (known (T.taken script.old) (T.left script.old) (K.written out.old)) result
        (known (T.taken script.new) (T.left script.new) (K.written out.new))) }

    // `stats` and `zones`: what is written is the statistics file, or the reverse zones, of the register that they build.
    // Nothing is written before the script has ended, and of the statistics nothing before all of the file is there.
    ensures published { (what : Publication) → command_of (map string_bytes words.now) ≡ Some (Publish what)
        → ((result ≢ Done) × (out.new ≡ out.old))
        ⊎ ((p : PlainPolicy) × IsPolicy p × IsSaid (S.left policy.old) (Ok p) × (day : ℕ) × C.states clock.now day
        × IsPublished what p day (known (T.taken script.old) (T.left script.old) (K.written out.old)) result
        (known (T.taken script.new) (T.left script.new) (K.written out.new))) }
    ensures unwritten { (what : Publication) → command_of (map string_bytes words.now) ≡ Some (Publish what) → result ≡ ReadFault → out.new ≡ out.old }
    ensures whole { command_of (map string_bytes words.now) ≡ Some (Publish Statistics) → result ≡ NoMemory → out.new ≡ out.old }

    // `mirror`: what is written are the objects of a mirror of the policy's registry that was fed the script. Nothing is written
    // before the script has ended, and nothing where the mirror has a fault then or isn't at rest: this the run tells.
    ensures mirrored { command_of (map string_bytes words.now) ≡ Some Mirror
        → ((result ≢ Done) × ((fault : FeedFault) → result ≢ FeedRefused fault) × (script.new ≡ script.old) × (out.new ≡ out.old))
        ⊎ ((p : PlainPolicy) × IsPolicy p × IsSaid (S.left policy.old) (Ok p)
        × IsMirrored p.registry (known (T.taken script.old) (T.left script.old) (K.written out.old)) result
        (known (T.taken script.new) (T.left script.new) (K.written out.new))) }
    ensures unfed { command_of (map string_bytes words.now) ≡ Some Mirror → result ≡ ReadFault → out.new ≡ out.old }
    ensures feed_refused { (fault : FeedFault) → result ≡ FeedRefused fault
        → (command_of (map string_bytes words.now) ≡ Some Mirror) × (fault ≢ feed_faults.NoMemory) × (out.new ≡ out.old) }

    // `serve`: what is written is how many connections there were, once every way of both doors has ended; each was served from
    // an empty register on, and went back to the gate.
    ensures served { (http line workers : ℕ) → command_of (map string_bytes words.now) ≡ Some (Serve http line workers)
        → ((result ≢ Done) × (out.new ≡ out.old))
        ⊎ ((p : PlainPolicy) × IsPolicy p × IsSaid (S.left policy.old) (Ok p)
        × IsServedFor p (C.states clock.now) http line workers
        (plain_gate (G.given gate.old) (G.to_come gate.old) (G.lent gate.old) (G.returned gate.old) (G.faults gate.old))
        (plain_gate (G.given gate.new) (G.to_come gate.new) (G.lent gate.new) (G.returned gate.new) (G.faults gate.new))
        (K.written out.old) result (K.written out.new)) }
    ensures doorless { opens_doors (command_of (map string_bytes words.now)) ≡ false → (gate.new ≡ gate.old) × (spawner.new ≡ spawner.old) }

    // `load`: what is written is the summary of the load, all of it at once.
    ensures loaded { (seed requests : ℕ) → command_of (map string_bytes words.now) ≡ Some (Load seed requests)
        → ((result ≢ Done) × (out.new ≡ out.old))
        ⊎ ((p : PlainPolicy) × IsPolicy p × IsSaid (S.left policy.old) (Ok p)
        × IsLoaded p seed requests (K.written out.old) result (K.written out.new)) }
    ensures scriptless { reads_script (command_of (map string_bytes words.now)) ≡ false → script.new ≡ script.old }

    // Done comes at the script's end alone, where the command has one.
    ensures ended { result ≡ Done → reads_script (command_of (map string_bytes words.now)) ≡ true → T.has_ended script.new }

    // `batch` tells want of memory before anything is read of the script and anything is written.
    ensures unread { command_of (map string_bytes words.now) ≡ Some Batch → result ≡ NoMemory → (script.new ≡ script.old) × (out.new ≡ out.old) }

    // A fault is answered only where the outside failed in this run, and where it did the run ends with that fault.
    ensures read_fault { result ≡ ReadFault → HasRisen (S.faults policy.old) (S.faults policy.new)
        ⊎ HasRisen (T.faults script.old) (T.faults script.new) ⊎ HasRisen (G.faults gate.old) (G.faults gate.new) }
    ensures read_told { result ≢ ReadFault →
        (S.faults policy.new ≡ S.faults policy.old) × (T.faults script.new ≡ T.faults script.old) }
    ensures gate_told { result ≢ ReadFault → result ≢ SpawnFault → G.faults gate.new ≡ G.faults gate.old }
    ensures spawn_fault { result ≡ SpawnFault → HasRisen (P.faults spawner.old) (P.faults spawner.new) }
    ensures spawn_told { result ≢ SpawnFault → P.faults spawner.new ≡ P.faults spawner.old }
    ensures write_fault { result ≡ WriteFault → HasRisen (K.faults out.old) (K.faults out.new) }
    ensures write_told { result ≢ WriteFault → K.faults out.new ≡ K.faults out.old }

    // Whatever legal entries were there, under each policy the entries that a script's requests become go on with them
    // legally, and its register is that of all of them.
    ensures legal { (es : List PlainEntry) (p : PlainPolicy) (day : ℕ) (lines : List (List ℕ)) → IsPolicy p → IsLegal rooms es
        → IsLegal rooms (entries_after es p day lines) }
    ensures register { (es : List PlainEntry) (p : PlainPolicy) (day : ℕ) (lines : List (List ℕ))
        → register_over es p day lines ≡ register_after rooms (entries_after es p day lines) }

    // So no number is lost, doubled or invented: each lies in one piece, with the card of the last entry that painted it,
    // just where it was received, and in none elsewhere.
    ensures conserved { (es : List PlainEntry) (p : PlainPolicy) (day : ℕ) (lines : List (List ℕ)) → IsPolicy p → IsLegal rooms es
        → IsConservedBy (register_over es p day lines) (entries_after es p day lines) }

    // So the records of its statistics file have no number twice, have just the numbers that were received, each with the
    // card of the last entry that painted it, and in each space their sizes add up to what was received.
    ensures records { (es : List PlainEntry) (p : PlainPolicy) (day : ℕ) (lines : List (List ℕ)) → IsPolicy p → IsLegal rooms es
        → AreOfReceived (entries_after es p day lines) (record_lines (register_over es p day lines)) }

    // So each cut of each of its reverse entries stands in one place of one of its zones, with the entry's servers; the zones
    // have no other cuts, and two cuts of a zone have two names.
    ensures zones { (es : List PlainEntry) (p : PlainPolicy) (day : ℕ) (lines : List (List ℕ)) → IsPolicy p → IsLegal rooms es
        → AreDelegated (register_over es p day lines) }

    // So a mirror that is fed its stream follows it: fed a front of a feed of the stream of whatever legal entries, it has no
    // fault, and holds what playing the operations up to its serial gives; fed all of one that has the last operation, it is at
    // rest and holds the objects of the register of all these entries.
    ensures follows { (es : List PlainEntry) (registry feed rest : List ℕ) → ArePublished rooms es (capitals registry)
        → IsFeedOf (capitals registry) (operations_of rooms es) (feed ++ rest)
        → Follows (capitals registry) (operations_of rooms es) (fed (mirror_of registry) feed) }
    ensures rests { (es : List PlainEntry) (registry feed : List ℕ) → ArePublished rooms es (capitals registry)
        → IsFeedOf (capitals registry) (operations_of rooms es) feed → is_at_rest (fed (mirror_of registry) feed) ≡ true }
    ensures mirrors { (es : List PlainEntry) (registry feed : List ℕ) → ArePublished rooms es (capitals registry)
        → (texts : IsFeedOf (capitals registry) (operations_of rooms es) feed)
        → last_serial 0 texts.texts ≡ length (operations_of rooms es)
        → (fed (mirror_of registry) feed).objects ≡ map (mirrored (capitals registry)) (objects_of (register_after rooms es)) }

    // A load's register is that of legal entries too, and loses none of their numbers.
    ensures load_conserved { (p : PlainPolicy) (who : List ℕ) (seed requests : ℕ) → IsPolicy p
        → IsConservedLoad rooms p who seed requests }

    // A delegation takes the least free block, aligned and all of it available, and an overlap is told by the least
    // number that is taken.
    ensures least { (es : List PlainEntry) (p : PlainPolicy) (day : ℕ) (lines : List (List ℕ)) (space : Space) (size : ℕ)
        → IsPolicy p → IsLegal rooms es → 0 < size
        → IsLeastBlock (register_pieces (register_over es p day lines) space) space size
        (least_block (register_pieces (register_over es p day lines) space) space size) }
    ensures taken { (es : List PlainEntry) (p : PlainPolicy) (day : ℕ) (lines : List (List ℕ)) (range : PlainRange)
        → IsPolicy p → IsLegal rooms es → IsRange range
        → IsLeastTaken (register_pieces (register_over es p day lines) range.space) range
        (overlap (register_pieces (register_over es p day lines) range.space) range) }
{
    // Laws, from `legal` on.
    accepted_entries_are_legal();
    scripts_conserve();
    statistics_conserve();
    zones_are_delegated();
    mirrors_follow_registers();
    answers_are_least();
    loads_conserve();
    // And that the numbers of a command are within their bounds.
    commands_have_one_list_of_words();
    match Command::read(rt.alloc(), words) {
        Ok(
            Some(
                Command::Serve {
                    http,
                    line,
                    workers,
                },
            ),
        ) => {
            let doors = Doors {
                http,
                line,
                workers,
            };
            do_serve(rt, doors, policy, out, clock, gate, spawner)
        }
        Ok(Some(command)) => do_command(rt.alloc(), command, policy, script, out, clock),
        Ok(None) => Exit::Usage,
        Err(_) => Exit::NoMemory,
    }
}
