//! What holds of every register that a script builds, whatever legal entries were there before it, each proved as the
//! contract of a function that does nothing.
ghost use Rattle.std.specs.Prelude.{◌≡◌, ℕ, ◌<◌, ◌++◌, true, List, length, map, take};
ghost use Rattle.num_range.specs.declared.space.Space.{Space};
ghost use Rattle.num_range.specs.Range.{PlainRange, IsRange};
ghost use Rattle.reg_entry.specs.declared.rooms.Rooms.{Rooms as TheRooms};
ghost use Rattle.course_core.specs.declared.event.Event.{Event};
ghost use Rattle.course_core.specs.Course.{new_course, after_events, register_at};
ghost use Rattle.course_core.specs.Promises.{AreEvents};
ghost use Rattle.reg_entry.specs.Blocks.{least_block, IsLeastBlock};
ghost use Rattle.reg_entry.specs.Entry.{PlainEntry};
ghost use Rattle.reg_entry.specs.Next.{IsLegal};
ghost use Rattle.reg_entry.specs.Objects.{objects_of};
ghost use Rattle.reg_entry.specs.Operations.{operations_of};
ghost use Rattle.reg_entry.specs.Pieces.{overlap, IsLeastTaken};
ghost use Rattle.reg_entry.specs.Policy.{PlainPolicy, IsPolicy};
ghost use Rattle.reg_entry.specs.Register.{register_after, register_pieces};
ghost use Rattle.board.specs.Conserved.{IsConservedBy};
ghost use Rattle.delegated_ext.specs.Conserved.{AreOfReceived};
ghost use Rattle.delegated_ext.specs.Records.{record_lines};
ghost use Rattle.reverse_zone.specs.Delegated.{AreDelegated};
ghost use Rattle.nrtm_stream.specs.Stream.{capitals};
ghost use Rattle.mirror_core.specs.Mirror.{is_at_rest};
ghost use Rattle.mirror_core.specs.Objects.{mirrored};
ghost use Rattle.mirror_core.specs.Feed.{fed};
ghost use Rattle.mirror_laws.specs.Feed.{IsFeedOf, last_serial};
ghost use Rattle.mirror_laws.specs.Follows.{Follows};
ghost use Rattle.mirror_laws.specs.Forms.{ArePublished};
ghost use Rattle.registry_main.specs.Mirror.{mirror_of};
ghost use Rattle.registry_main.specs.Session.{rooms, entries_after, register_over};

use course_core::laws::courses_keep_their_promises;
use delegated_ext::laws::records_conserve;
use desk_lang::laws::lines_are_valid;
use mirror_laws::laws::whole_feeds_are_mirrored;
use reg_entry::laws::{block_is_least, overlap_is_least};
use reg_laws::next::accepted_may_come_next;
use reg_laws::reached::{legal_entries_go_on, reached_registers_conserve, reached_registers_count};
use reg_laws::whole::{legal_entries_are_whole, next_entry_keeps_whole};
use reverse_zone::laws::zones_delegate;

/// The entries that a script's requests become go on legally with a legal list, and the script's register is that of the
/// whole list.
pub fn accepted_entries_are_legal()
    ensures legal { (es : List PlainEntry) (p : PlainPolicy) (day : ℕ) (lines : List (List ℕ)) → IsPolicy p → IsLegal rooms es
        → IsLegal rooms (entries_after es p day lines) }
    ensures register { (es : List PlainEntry) (p : PlainPolicy) (day : ℕ) (lines : List (List ℕ))
        → register_over es p day lines ≡ register_after rooms (entries_after es p day lines) }
{
    lines_are_valid();
    accepted_may_come_next();
    legal_entries_are_whole();
    legal_entries_go_on();
    next_entry_keeps_whole();
}

/// A script's register loses no number and holds none twice.
pub fn scripts_conserve()
    ensures { (es : List PlainEntry) (p : PlainPolicy) (day : ℕ) (lines : List (List ℕ)) → IsPolicy p → IsLegal rooms es
        → IsConservedBy (register_over es p day lines) (entries_after es p day lines) }
{
    accepted_entries_are_legal();
    legal_entries_go_on();
    reached_registers_conserve();
    reached_registers_count();
}

/// The statistics file of a script's register loses no number and tells none twice.
pub fn statistics_conserve()
    ensures { (es : List PlainEntry) (p : PlainPolicy) (day : ℕ) (lines : List (List ℕ)) → IsPolicy p → IsLegal rooms es
        → AreOfReceived (entries_after es p day lines) (record_lines (register_over es p day lines)) }
{
    accepted_entries_are_legal();
    legal_entries_go_on();
    records_conserve();
}

/// The zones of a script's register have each cut of its reverse entries once, and no other.
pub fn zones_are_delegated()
    ensures { (es : List PlainEntry) (p : PlainPolicy) (day : ℕ) (lines : List (List ℕ)) → IsPolicy p → IsLegal rooms es
        → AreDelegated (register_over es p day lines) }
{
    accepted_entries_are_legal();
    legal_entries_go_on();
    zones_delegate();
}

/// In a script's register the block of a delegation is the least free one, and the number of an overlap the least that
/// is taken.
pub fn answers_are_least()
    ensures blocks { (es : List PlainEntry) (p : PlainPolicy) (day : ℕ) (lines : List (List ℕ)) (space : Space) (size : ℕ)
        → IsPolicy p → IsLegal rooms es → 0 < size
        → IsLeastBlock (register_pieces (register_over es p day lines) space) space size
        (least_block (register_pieces (register_over es p day lines) space) space size) }
    ensures overlaps { (es : List PlainEntry) (p : PlainPolicy) (day : ℕ) (lines : List (List ℕ)) (range : PlainRange)
        → IsPolicy p → IsLegal rooms es → IsRange range
        → IsLeastTaken (register_pieces (register_over es p day lines) range.space) range
        (overlap (register_pieces (register_over es p day lines) range.space) range) }
{
    accepted_entries_are_legal();
    legal_entries_are_whole();
    block_is_least();
    overlap_is_least();
}

/// Whatever happens to a register and its readers, the statistics file after each entry loses no number and tells none
/// twice: its records add up to the pool.
pub fn courses_have_statistics()
    ensures { (rooms : TheRooms) (p : PlainPolicy) (passes mirrors k : ℕ) (events : List Event) → IsPolicy p → AreEvents events
        → AreOfReceived (take k (after_events (new_course rooms p passes mirrors) events).journal)
        (record_lines (register_at (after_events (new_course rooms p passes mirrors) events) k)) }
{
    courses_keep_their_promises();
    legal_entries_go_on();
    records_conserve();
}

/// Fed a front of a feed of the stream of legal entries, a mirror of the registry has no fault, and holds what playing the
/// operations up to its serial gives. Fed all of it, it is at rest; and where that has the last operation, it holds the objects
/// of the register of all these entries.
pub fn mirrors_follow_registers()
    ensures follows { (es : List PlainEntry) (registry feed rest : List ℕ) → ArePublished rooms es (capitals registry)
        → IsFeedOf (capitals registry) (operations_of rooms es) (feed ++ rest)
        → Follows (capitals registry) (operations_of rooms es) (fed (mirror_of registry) feed) }
    ensures rests { (es : List PlainEntry) (registry feed : List ℕ) → ArePublished rooms es (capitals registry)
        → IsFeedOf (capitals registry) (operations_of rooms es) feed → is_at_rest (fed (mirror_of registry) feed) ≡ true }
    ensures mirrors { (es : List PlainEntry) (registry feed : List ℕ) → ArePublished rooms es (capitals registry)
        → (texts : IsFeedOf (capitals registry) (operations_of rooms es) feed)
        → last_serial 0 texts.texts ≡ length (operations_of rooms es)
        → (fed (mirror_of registry) feed).objects ≡ map (mirrored (capitals registry)) (objects_of (register_after rooms es)) }
{
    whole_feeds_are_mirrored();
}
