//! A mirror that is fed the register's own stream holds the register's objects, proved as contracts of functions that do
//! nothing.
ghost use Rattle.std.specs.Prelude.{◌≡◌, ℕ, ◌≤◌, ◌++◌, true, false, List, [], Option, None, Some, Result, length, map, take, IsTrue};
ghost use Rattle.std.specs.List.{concat};
ghost use Rattle.reg_entry.specs.declared.rooms.Rooms.{Rooms};
ghost use Rattle.reg_entry.specs.Entry.{PlainEntry};
ghost use Rattle.reg_entry.specs.Op.{PlainOp};
ghost use Rattle.reg_entry.specs.Objects.{objects_of};
ghost use Rattle.reg_entry.specs.Operations.{PlainBoard, operations_of, objects_after};
ghost use Rattle.reg_entry.specs.Register.{register_after};
ghost use Rattle.op_feed.specs.ReachedBoard.{IsBoardOf};
ghost use Rattle.nrtm_stream.specs.declared.ask.Ask.{Ask as TheAsk};
ghost use Rattle.nrtm_stream.specs.Answer.{last_asked, asks_for_newer, are_kept, stream_answer};
ghost use Rattle.nrtm_stream.specs.Stream.{stream_text};
ghost use Rattle.mirror_core.specs.declared.fault.FeedFault.{FeedFault as TheFault};
ghost use Rattle.mirror_core.specs.Feed.{fed};
ghost use Rattle.mirror_core.specs.Fed.{IsFed};
ghost use Rattle.mirror_core.specs.Mirror.{PlainMirror, new_mirror, is_at_rest};
ghost use Rattle.mirror_core.specs.Objects.{mirrored};
ghost use Rattle.mirror_laws.specs.Feed.{feed_text, IsFeedPlan, last_serial, feed_of, IsFeedOf, fed_pieces};
ghost use Rattle.mirror_laws.specs.Follows.{Follows, HoldsOperations, IsFedOrNoMemory};
ghost use Rattle.mirror_laws.specs.Forms.{HasRequestForms, ArePublished};

use addr_text::{computes_spelled, reads_written, spells_one};
use cidr_cover::laws::cuts_are_widest;
use nrtm_stream::laws::streams_have_all_operations;
use op_feed::laws::reached_boards_number_operations;
use reg_entry::Request;
use reg_laws::board::boards_keep_last_operations;
use reg_laws::objects::operations_lead_to_objects;
use reg_laws::whole::{legal_entries_are_whole, next_entry_keeps_whole};
use rpsl_text::laws::{are_hosts, has_fields, lines_are_read_alone};

/// Fed a front of a feed of the stream of a legal list of entries, in any pieces and with repeats, a mirror has no fault, and
/// with its serial n it holds what playing the first n operations gives, each object as it is read. Where n is the serial of
/// the last operation of the first entries, these are the objects of the register of these entries. Fed the whole feed it is
/// at rest, and has the greatest serial of the feed's texts, or 0 where there is none; where that is the serial of the last
/// operation there is, it holds the objects of the register.
pub fn mirrors_follow_feeds()
    ensures follows { (rooms : Rooms) (es : List PlainEntry) (source : List ℕ) (pieces : List (List ℕ)) (rest : List ℕ)
        → ArePublished rooms es source → IsFeedOf source (operations_of rooms es) (concat pieces ++ rest)
        → Follows source (operations_of rooms es) (fed_pieces (new_mirror source) pieces) }
    ensures objects { (rooms : Rooms) (es : List PlainEntry) (source : List ℕ) (pieces : List (List ℕ)) (rest : List ℕ) (k : ℕ)
        → ArePublished rooms es source → IsFeedOf source (operations_of rooms es) (concat pieces ++ rest)
        → (fed_pieces (new_mirror source) pieces).serial ≡ length (operations_of rooms (take k es))
        → (fed_pieces (new_mirror source) pieces).objects
        ≡ map (mirrored source) (objects_of (register_after rooms (take k es))) }
    ensures rests { (rooms : Rooms) (es : List PlainEntry) (source : List ℕ) (pieces : List (List ℕ))
        → ArePublished rooms es source → IsFeedOf source (operations_of rooms es) (concat pieces)
        → is_at_rest (fed_pieces (new_mirror source) pieces) ≡ true }
    ensures serial { (rooms : Rooms) (es : List PlainEntry) (source : List ℕ) (pieces : List (List ℕ))
        → ArePublished rooms es source → (feed : IsFeedOf source (operations_of rooms es) (concat pieces))
        → (fed_pieces (new_mirror source) pieces).serial ≡ last_serial 0 feed.texts }
    ensures all_objects { (rooms : Rooms) (es : List PlainEntry) (source : List ℕ) (pieces : List (List ℕ))
        → ArePublished rooms es source → (feed : IsFeedOf source (operations_of rooms es) (concat pieces))
        → last_serial 0 feed.texts ≡ length (operations_of rooms es)
        → (fed_pieces (new_mirror source) pieces).objects ≡ map (mirrored source) (objects_of (register_after rooms es)) }
{
    computes_spelled();
    reads_written();
    spells_one();
    cuts_are_widest();
    reached_boards_number_operations();
    boards_keep_last_operations();
    operations_lead_to_objects();
    legal_entries_are_whole();
    next_entry_keeps_whole();
    lines_are_read_alone();
}

/// On such a feed a call that feeds more bytes answers no fault but want of memory, and whatever it answers the mirror holds
/// what playing its operations gives.
pub fn feeding_has_no_fault()
    ensures answer { (rooms : Rooms) (es : List PlainEntry) (source : List ℕ) (pieces : List (List ℕ)) (bytes rest : List ℕ)
        (new : PlainMirror) (answer : Result (Unit {0}) TheFault) → ArePublished rooms es source
        → IsFeedOf source (operations_of rooms es) (concat pieces ++ (bytes ++ rest))
        → IsFed (fed_pieces (new_mirror source) pieces) bytes new answer → IsFedOrNoMemory answer }
    ensures holds { (rooms : Rooms) (es : List PlainEntry) (source : List ℕ) (pieces : List (List ℕ)) (bytes rest : List ℕ)
        (new : PlainMirror) (answer : Result (Unit {0}) TheFault) → ArePublished rooms es source
        → IsFeedOf source (operations_of rooms es) (concat pieces ++ (bytes ++ rest))
        → IsFed (fed_pieces (new_mirror source) pieces) bytes new answer
        → HoldsOperations source (operations_of rooms es) new }
{
    mirrors_follow_feeds();
}

/// The same of a mirror that is fed all bytes at once: a front of a feed, or a whole feed.
pub fn whole_feeds_are_mirrored()
    ensures follows { (rooms : Rooms) (es : List PlainEntry) (source bytes rest : List ℕ) → ArePublished rooms es source
        → IsFeedOf source (operations_of rooms es) (bytes ++ rest)
        → Follows source (operations_of rooms es) (fed (new_mirror source) bytes) }
    ensures rests { (rooms : Rooms) (es : List PlainEntry) (source bytes : List ℕ) → ArePublished rooms es source
        → IsFeedOf source (operations_of rooms es) bytes → is_at_rest (fed (new_mirror source) bytes) ≡ true }
    ensures objects { (rooms : Rooms) (es : List PlainEntry) (source bytes : List ℕ) → ArePublished rooms es source
        → (feed : IsFeedOf source (operations_of rooms es) bytes) → (fed (new_mirror source) bytes).objects
        ≡ map (mirrored source) (objects_after (take (last_serial 0 feed.texts) (operations_of rooms es))) }
    ensures all_objects { (rooms : Rooms) (es : List PlainEntry) (source bytes : List ℕ) → ArePublished rooms es source
        → (feed : IsFeedOf source (operations_of rooms es) bytes) → last_serial 0 feed.texts ≡ length (operations_of rooms es)
        → (fed (new_mirror source) bytes).objects ≡ map (mirrored source) (objects_of (register_after rooms es)) }
{
    mirrors_follow_feeds();
}

/// What a board of a legal list of entries answers of its stream is a text of a feed of all its operations, unless not all
/// that is asked for is kept.
pub fn answers_are_texts_of_feeds()
    ensures newer { (b : PlainBoard) (es : List PlainEntry) (source : List ℕ) (ask : TheAsk) → IsTrue (asks_for_newer b ask)
        → stream_answer b source ask ≡ feed_text source (operations_of b.register.rooms es) None }
    ensures stream { (b : PlainBoard) (es : List PlainEntry) (source : List ℕ) (ask : TheAsk) → IsBoardOf b es
        → asks_for_newer b ask ≡ false → IsTrue (are_kept b ask.first (last_asked b.serial ask.last))
        → stream_answer b source ask
        ≡ feed_text source (operations_of b.register.rooms es) (Some (ask.first, last_asked b.serial ask.last)) }
    ensures serials { (b : PlainBoard) (es : List PlainEntry) (first last : ℕ) → IsBoardOf b es → IsTrue (are_kept b first last)
        → (1 ≤ first) × (first ≤ last) × (last ≤ length (operations_of b.register.rooms es)) }
{
    streams_have_all_operations();
    reached_boards_number_operations();
    boards_keep_last_operations();
}

/// No bytes are a feed, and so are those of a feed with more texts behind them whose plan goes on with its own. The stream of
/// all operations is a feed, and a feed stays one when there are more operations.
pub fn texts_make_feeds()
    ensures nothing { (source : List ℕ) (ops : List PlainOp) → IsFeedOf source ops [] }
    ensures more { (source : List ℕ) (ops : List PlainOp) (bytes : List ℕ) (feed : IsFeedOf source ops bytes)
        (texts : List (Option (ℕ × ℕ))) → IsFeedPlan (length ops) (last_serial 0 feed.texts) texts
        → IsFeedOf source ops (bytes ++ feed_of source ops texts) }
    ensures whole { (source : List ℕ) (ops : List PlainOp) → 1 ≤ length ops
        → IsFeedOf source ops (stream_text source 1 (length ops) ops) }
    ensures grows { (source : List ℕ) (ops more : List PlainOp) (bytes : List ℕ) → IsFeedOf source ops bytes
        → IsFeedOf source (ops ++ more) bytes }
{}

/// Tells callers that what the request brings is of its forms, as the types keep them.
pub fn has_request_forms(request: &Request)
    ensures { HasRequestForms request.now }
{
    match request {
        Request::AddHolder { holder } | Request::EditHolder { holder } => has_fields(holder),
        Request::SetReverse { servers, .. } => are_hosts(servers.hosts()),
        _ => {}
    }
}
