//! The work of one worker of either door.
use crate::http_duty::HttpDuty;
use crate::line_duty::LineDuty;
use crate::served::Served;
use desk_book::Naming;
use door_face::{Duty, Way};
use link_face::Clock;
use std::sync::Wait;

/// What one worker does, at the door whose links it serves.
#[derive(Drop)]
pub enum DoorDuty<'a, W: Way, N: Naming, R: Wait + Drop, C: Clock> {
    Http(HttpDuty<'a, W, N, R, C>),
    Line(LineDuty<'a, W>),
}

impl<W: Way + Send, N: Naming + Send, R: Wait + Drop + Send, C: Clock + Sync> Duty
    for DoorDuty<'_, W, N, R, C> {
    ghost use Rattle.hall.specs.Desk.{among_others};
    ghost use Rattle.serve_run.specs.Along.{plain_way};
    ghost use Rattle.serve_run.specs.Served.{HasServedConnection, HasServedLine, IsWorked};
    ghost use Rattle.serve_run.specs.declared.door_duty.DoorDuty.TheVariants.{Http, Line};

    type Done = Served<W>;

    ghost done = { elim [
      | Http duty ↦ λ served. IsWorked
          (λ before end after. HasServedConnection (among_others before.rooms duty.policy.now (C.states duty.clock.now)) before end after)
          duty.pass
          (plain_way (W.door duty.way) (W.port duty.way) (W.links_left duty.way) (W.lent duty.way) (W.returned duty.way) (W.faults duty.way))
          served.connections served.has_failed
          (plain_way (W.door served.way) (W.port served.way) (W.links_left served.way) (W.lent served.way) (W.returned served.way) (W.faults served.way))
          served.pass
      | Line duty ↦ λ served. IsWorked
          (λ before end after. HasServedLine duty.registry.now before end after)
          duty.pass
          (plain_way (W.door duty.way) (W.port duty.way) (W.links_left duty.way) (W.lent duty.way) (W.returned duty.way) (W.faults duty.way))
          served.connections served.has_failed
          (plain_way (W.door served.way) (W.port served.way) (W.links_left served.way) (W.lent served.way) (W.returned served.way) (W.faults served.way))
          served.pass
    ] };

    fn work<T: Wait + Sync>(self, rt: &T) -> Served<W> {
        match self {
            DoorDuty::Http(duty) => duty.work(rt),
            DoorDuty::Line(duty) => duty.work(rt),
        }
    }
}
