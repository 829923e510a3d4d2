//! What the records of the statistics file say of the numbers, proved as the contract of a function that does nothing.
ghost use Rattle.std.specs.Prelude.{List};
ghost use Rattle.reg_entry.specs.Entry.{PlainEntry};
ghost use Rattle.reg_entry.specs.Register.{Register};
ghost use Rattle.reg_laws.specs.Reached.{IsRegisterOf};
ghost use Rattle.delegated_ext.specs.Records.{record_lines};
ghost use Rattle.delegated_ext.specs.Conserved.{AreOfReceived};

use cidr_cover::laws::cover_is_exact;
use num_range::laws::tests_are_relations;
use reg_laws::reached::{reached_registers_are_whole, reached_registers_conserve};

/// The records of the register of a legal list of entries have no number twice; together they have exactly the numbers that
/// were received, each with the card of the last entry that painted it; and in each space their sizes add up to what was
/// received.
pub fn records_conserve()
    ensures { (r : Register) (es : List PlainEntry) → IsRegisterOf r es → AreOfReceived es (record_lines r) }
{
    cover_is_exact();
    tests_are_relations();
    reached_registers_are_whole();
    reached_registers_conserve();
}
