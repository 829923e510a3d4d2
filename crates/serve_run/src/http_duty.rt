//! The work of one worker of the door `Http`.
ghost use Rattle.std.specs.Prelude.{◌≡◌};
ghost use Rattle.hall.specs.Desk.{among_others};
ghost use Rattle.serve_run.specs.Along.{plain_way};
ghost use Rattle.serve_run.specs.Served.{HasServedConnection, IsWorked};

use crate::along::serve_way;
use crate::http_service::HttpService;
use crate::served::Served;
use desk_book::{Desk, Naming};
use door_face::Way;
use link_face::Clock;
use policy_table::Policy;
use snapshot_pub::Pass;
use std::alloc::Global;
use std::sync::Wait;
use wire_http::Framer;

/// Serves the connections of a way over a desk, of whose snapshots its pass is.
#[derive(Drop)]
pub struct HttpDuty<'a, W: Way, N: Naming, R: Wait + Drop, C: Clock> {
    pub alloc: Global,
    pub way: W,
    pub pass: Pass,
    pub framer: Framer,
    pub desk: &'a Desk<N, R>,
    pub policy: &'a Policy,
    pub clock: &'a C,
    ghost named: { (pass.book ≡ N.book) × (pass.rooms ≡ N.rooms) },
}

impl<W: Way, N: Naming, R: Wait + Drop, C: Clock> HttpDuty<'_, W, N, R, C> {
    /// Serves each connection that the way gives, and gives it back, until there are no more or the way fails.
    pub fn work<T: Wait>(self, rt: &T) -> Served<W>
        ensures { IsWorked
            (λ before end after. HasServedConnection (among_others before.rooms self.entry.policy.now (C.states self.entry.clock.now)) before end after)
            self.entry.pass
            (plain_way (W.door self.entry.way) (W.port self.entry.way) (W.links_left self.entry.way) (W.lent self.entry.way) (W.returned self.entry.way) (W.faults self.entry.way))
            result.connections result.has_failed
            (plain_way (W.door result.way) (W.port result.way) (W.links_left result.way) (W.lent result.way) (W.returned result.way) (W.faults result.way))
            result.pass }
    {
        let HttpDuty {
            alloc,
            mut way,
            pass,
            framer,
            desk,
            policy,
            clock,
        } = self;
        // What every pass keeps, for the list where there is no link.
        pass.is_legal();
        let mut service = HttpService {
            alloc,
            pass,
            framer,
            desk,
            policy,
            clock,
        };
        let end = serve_way(rt, &mut way, &mut service);
        let HttpService { pass, .. } = service;
        Served {
            pass,
            way,
            connections: end.connections,
            has_failed: end.has_failed,
        }
    }
}
