//! What lines ask, and what streams have, proved as the contracts of functions that do nothing.
ghost use Rattle.std.specs.Prelude.{◌≡◌, ◌↔◌, ℕ, ◌+◌, ◌-◌, List, take, drop, Some, IsTrue};
ghost use Rattle.reg_entry.specs.Entry.{PlainEntry};
ghost use Rattle.reg_entry.specs.Name.{is_name};
ghost use Rattle.reg_entry.specs.Operations.{PlainBoard, operations_of};
ghost use Rattle.op_feed.specs.ReachedBoard.{IsBoardOf};
ghost use Rattle.rpsl_text.specs.Forms.{is_source};
ghost use Rattle.nrtm_stream.specs.Stream.{capitals};
ghost use Rattle.nrtm_stream.specs.Query.{PlainQuery, SpellsQuery};
ghost use Rattle.nrtm_stream.specs.Ask.{query_of, ask_of, IsAskedOf};
ghost use Rattle.nrtm_stream.specs.Answer.{are_kept, operations_between};

use op_feed::laws::reached_boards_number_operations;
use reg_laws::board::boards_keep_last_operations;

/// What is read of a line is what it spells, so that it spells one query at most; and it asks, or has the first fault, by what
/// it spells.
pub fn queries_are_spelled()
    ensures read { (line : List ℕ) (q : PlainQuery) → SpellsQuery line q ↔ (query_of line ≡ Some q) }
    ensures asked { (line source : List ℕ) → IsAskedOf source line (ask_of line source) }
{}

/// The operations of a stream are those of all entries from the first serial to the last, each once and in order.
pub fn streams_have_all_operations()
    ensures { (b : PlainBoard) (es : List PlainEntry) (first last : ℕ) → IsBoardOf b es → IsTrue (are_kept b first last)
        → operations_between b first last ≡ take (last + 1 - first) (drop (first - 1) (operations_of b.register.rooms es)) }
{
    boards_keep_last_operations();
    reached_boards_number_operations();
}

/// The name of a registry in capitals is a source's.
pub fn names_are_sources()
    ensures { (name : List ℕ) → IsTrue (is_name name) → IsTrue (is_source (capitals name)) }
{}
