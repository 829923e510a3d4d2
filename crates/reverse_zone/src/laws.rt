//! What the zones say of the reverse entries, proved as the contract of a function that does nothing.
ghost use Rattle.reg_entry.specs.Register.{Register};
ghost use Rattle.reg_laws.specs.Reached.{IsReached};
ghost use Rattle.reverse_zone.specs.Delegated.{AreDelegated};

use cidr_cover::laws::cuts_are_widest;
use num_range::laws::tests_are_relations;
use reg_laws::reached::reached_registers_are_whole;

/// Of the register of a legal list of entries, each cut of each reverse entry stands in one place of one of the zones in the
/// pool, with the entry's servers, and the zones have no other cuts. A cut's name and its zone's are the name of the block
/// in the domain of all addresses (RFC 1035 3.5, RFC 3596 2.5), and no two cuts of a zone have one name.
pub fn zones_delegate()
    ensures { (r : Register) → IsReached r → AreDelegated r }
{
    cuts_are_widest();
    tests_are_relations();
    reached_registers_are_whole();
}
