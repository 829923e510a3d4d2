ghost use Rattle.std.specs.Prelude.{◌≡◌, ◌≢◌, ◌≤◌, ◌<◌, ◌+◌, ◌^◌, ◌↔◌, ◌∷◌, ◌++◌, [], ℕ, List, None, Some, IfOk, IfSome, IsErr, MatchOption, OnOk, OnErr, length};
ghost use Rattle.std.specs.Option.{option_to_list};
ghost use Rattle.door_face.specs.declared.door.Door.{Door};
ghost use Rattle.door_face.specs.Doors.{at_door, more_by, ways_given};
ghost use Rattle.link_face.specs.Faults.{HasCause};
ghost use Rattle.door_face.specs.MemGate.{IsUnused, the_door, links_of, records_of};

use crate::door::Door;
use crate::gate::Gate;
use crate::mem_way::{MemWay, UnusedWay};
use link_face::{Failed, Link};
use std::alloc::{AllocError, Global};
use std::collections::VecDeque;
use std::marker::Model;

// The ways that will be given at one door, and how many were.
#[derive(Drop)]
struct MemDoor<L: Link + Drop> {
    to_come: VecDeque<UnusedWay<L>>,
    given: u64,
}

impl<L: Link + Drop> Model for MemDoor<L> {
    ghost use Rattle.std.specs.Prelude.{◌≤◌, ◌+◌, ◌^◌, length, map};
    ghost use Rattle.door_face.specs.MemGate.{MemDoorState};

    ghost Value = { MemDoorState };

    ghost view = { λ d. record { to_come = map (λ w. w.way) d.to_come.items; given = d.given } };

    ghost invariant = { λ d. length d.to_come.items + d.given ≤ 2 ^ 32 };
}

impl<L: Link + Drop> MemDoor<L> {
    fn new(alloc: Global) -> Self
        ensures to_come { result.to_come ≡ [] }
        ensures given { result.given ≡ 0 }
    {
        Self {
            to_come: VecDeque::new(alloc),
            given: 0,
        }
    }

    fn len(&self) -> usize
        ensures { result ≡ length self.now.to_come }
    {
        self.to_come.len()
    }

    fn add(&mut self, way: MemWay<L>) -> Result<(), AllocError>
        requires few { length self.old.to_come + self.old.given < 2 ^ 32 }
        requires unused { IsUnused way }
        ensures given { self.new.given ≡ self.old.given }
        ensures ok { OnOk result (self.new.to_come ≡ self.old.to_come ++ way ∷ []) }
        ensures err { OnErr result (self.new.to_come ≡ self.old.to_come) }
    {
        self.to_come.push_back(UnusedWay { way })?;
        Ok(())
    }

    fn give(&mut self) -> Option<MemWay<L>>
        ensures { MatchOption result ((self.old.to_come ≡ []) × (self.new ≡ self.old))
            (λ way. IsUnused way × (self.old.to_come ≡ way ∷ self.new.to_come) × (self.new.given ≡ self.old.given + 1)) }
    {
        let UnusedWay { way } = self.to_come.pop_front()?;
        self.given += 1;
        Some(way)
    }
}

/// A gate over ways in memory. It fails only where it is asked for a way and has none left at the door.
/// A `FailingGate` fails at chosen calls too.
#[derive(Drop)]
pub struct MemGate<L: Link + Drop> {
    http: MemDoor<L>,
    line: MemDoor<L>,
    lent: usize,
    returned: Vec<MemWay<L>>,
    faults: u64,
}

impl<L: Link + Drop> Model for MemGate<L> {
    ghost use Rattle.std.specs.Prelude.{◌≤◌, ◌+◌, length, vec_len, vec_capacity};
    ghost use Rattle.door_face.specs.MemGate.{MemGateState};

    ghost Value = { MemGateState };

    ghost view = { λ g. record {
      http = g.http;
      line = g.line;
      lent = g.lent;
      returned = g.returned.items;
      faults = g.faults;
    } };

    ghost invariant = { λ g. length g.http.to_come + length g.line.to_come + g.lent + vec_len g.returned ≤ vec_capacity g.returned };
}

impl<L: Link + Drop> MemGate<L> {
    /// A gate with no way.
    pub fn new(alloc: Global) -> Self
        ensures http { (result.http.to_come ≡ []) × (result.http.given ≡ 0) }
        ensures line { (result.line.to_come ≡ []) × (result.line.given ≡ 0) }
        ensures lent { result.lent ≡ 0 }
        ensures returned { result.returned ≡ [] }
        ensures faults { result.faults ≡ 0 }
    {
        Self {
            http: MemDoor::new(alloc),
            line: MemDoor::new(alloc),
            lent: 0,
            returned: Vec::new(alloc),
            faults: 0,
        }
    }

    /// One more way at the door, behind the others. The room to take it back is reserved here.
    pub fn add(&mut self, door: Door, way: MemWay<L>) -> Result<(), AllocError>
        requires begun { (self.old.lent ≡ 0) × (self.old.returned ≡ []) }
        requires few { length (the_door self.old door).to_come + (the_door self.old door).given < 2 ^ 32 }
        requires unused { IsUnused way }
        ensures ok { OnOk result (self.new ≡ record self.old {
          http = at_door (record self.old.http { to_come = self.old.http.to_come ++ way ∷ [] }) self.old.http door;
          line = at_door self.old.line (record self.old.line { to_come = self.old.line.to_come ++ way ∷ [] }) door;
        }) }
        ensures err { OnErr result (self.new ≡ self.old) }
    {
        self.returned
            .reserve(self.http.len() + self.line.len() + 1)?;
        match door {
            Door::Http => self.http.add(way),
            Door::Line => self.line.add(way),
        }
    }

    // The first of the ways to come at the door.
    fn give(&mut self, door: Door) -> Option<MemWay<L>>
        ensures way { MatchOption result ((the_door self.old door).to_come ≡ [])
            (λ way. IsUnused way × ((the_door self.old door).to_come ≡ way ∷ (the_door self.new door).to_come)) }
        ensures none { result ≡ None → self.new ≡ self.old }
        ensures given { (the_door self.new door).given ≡ (the_door self.old door).given + length (option_to_list result) }
        ensures lent { self.new.lent ≡ self.old.lent + length (option_to_list result) }
        ensures other { (other : Door) → other ≢ door → the_door self.new other ≡ the_door self.old other }
        ensures returned { self.new.returned ≡ self.old.returned }
        ensures faults { self.new.faults ≡ self.old.faults }
    {
        let next = match door {
            Door::Http => self.http.give(),
            Door::Line => self.line.give(),
        };
        if next.is_some() {
            self.lent += 1;
        }
        next
    }

    /// The ways that were taken back, in order.
    pub fn returned(&self) -> &[MemWay<L>]
        ensures { result.now ≡ self.now.returned }
    {
        &self.returned
    }

    /// How often it was asked for a way that it hadn't.
    pub fn faults(&self) -> u64
        ensures { result ≡ self.now.faults }
    {
        self.faults
    }
}

impl<L: Link + Drop + Send> Gate for MemGate<L> {
    ghost use Rattle.std.specs.Prelude.{Some};
    ghost use Rattle.door_face.specs.MemGate.{the_door, links_of, records_of};

    type L = L;

    type W = MemWay<L>;

    ghost given = { λ g door. (the_door g door).given };

    ghost to_come = { λ g door. Some (links_of (the_door g door).to_come) };

    ghost lent = { λ g. Some g.lent };

    ghost returned = { λ g. Some (records_of g.returned) };

    ghost faults = { λ g. g.faults };

    fn way(&mut self, door: Door, port: u16) -> Result<MemWay<L>, Failed>
        ensures place { IfOk result (λ way. (way.door ≡ door) × (way.port ≡ port)) }
        ensures fresh { IfOk result (λ way. (way.lent ≡ 0) × (way.returned ≡ [])) }
        ensures to_come { IfOk result (λ way. (n : ℕ) × (rest : List ℕ)
            × (links_of (the_door self.old door).to_come ≡ n ∷ rest) × (Some (length way.to_come) ≡ Some n)
            × (Some (links_of (the_door self.new door).to_come) ≡ Some rest)) }
        ensures given { (the_door self.new door).given ≡ (the_door self.old door).given + ways_given result }
        ensures lent { Some self.new.lent ≡ more_by (ways_given result) (Some self.old.lent) }
        ensures other { (other : Door) → other ≢ door
            → (Some (links_of (the_door self.new other).to_come) ≡ Some (links_of (the_door self.old other).to_come))
            × ((the_door self.new other).given ≡ (the_door self.old other).given) }
        ensures returned { Some (records_of self.new.returned) ≡ Some (records_of self.old.returned) }
        ensures cause { HasCause self.old.faults self.new.faults result }

        // It gives the first of the ways to come, and fails exactly where there is none.
        ensures first { IfOk result (λ way. (first : _) × (rest : _) × ((the_door self.old door).to_come ≡ first ∷ rest)
            × ((the_door self.new door).to_come ≡ rest) × (way ≡ record first { door = door; port = port })) }
        ensures fails { IsErr result ↔ ((the_door self.old door).to_come ≡ []) }
    {
        match self.give(door) {
            Some(way) => Ok(way.given_for(door, port)),
            None => {
                self.faults = self.faults.saturating_add(1);
                Err(Failed)
            }
        }
    }

    fn done(&mut self, way: MemWay<L>) {
        self.lent -= 1;
        self.returned.push_reserved(way);
    }
}
