//! The apexes of all zones that a register can have.
ghost use Rattle.std.specs.Prelude.{◌≡◌};
ghost use Rattle.std.specs.Iterator.{YieldsFirst, item_count};
ghost use Rattle.std.specs.List.{AllByRecursion};
ghost use Rattle.reverse_zone.specs.Apex.{IsApex};
ghost use Rattle.reverse_zone.specs.Zone.{apexes};

use crate::Apex;
use std::marker::Model;

/// The apexes that are left.
#[derive(Drop)]
pub struct ApexWalk {
    // The least octet and the least nibbles of those that are left; 256 and 0x400 where none are.
    octet: u16,
    nibbles: u16,
}

impl Model for ApexWalk {
    ghost use Rattle.std.specs.Prelude.{List, ◌≤◌};
    ghost use Rattle.reverse_zone.specs.declared.apex.Apex.{Apex as TheApex};
    ghost use Rattle.reverse_zone.specs.Zone.{apexes_from};

    ghost Value = { List TheApex };

    ghost view = { λ walk. apexes_from walk.octet walk.nibbles };

    ghost invariant = { λ walk. (walk.octet ≤ 256) × (0x200 ≤ walk.nibbles) × (walk.nibbles ≤ 0x400) };
}

/// Walks the apexes of all zones that a register can have: by rising octet, and then by rising nibbles.
#[tactic(auto, using(crate::proofs::EachApex::are_apexes))]
pub fn apexes() -> ApexWalk
    ensures all { result ≡ apexes }
    ensures valid { AllByRecursion IsApex apexes }
{
    ApexWalk {
        octet: 0,
        nibbles: 0x200,
    }
}

impl Iterator for ApexWalk {
    type Item = Apex;

    ghost next_gives = { YieldsFirst (λ left. left) };

    ghost remaining = { item_count (λ left. left) };

    #[tactic(auto, unfolding(crate::specs::Zone::apexes_from))]
    fn next(&mut self) -> Option<Apex> {
        if self.octet < 256 {
            let octet = self.octet as u8;
            self.octet += 1;
            Some(Apex::Four(octet))
        } else if self.nibbles < 0x400 {
            let nibbles = self.nibbles;
            self.nibbles += 1;
            Some(Apex::Six(nibbles))
        } else {
            None
        }
    }
}
