//! The work of one worker of the door `Line`.
ghost use Rattle.serve_run.specs.Along.{plain_way};
ghost use Rattle.serve_run.specs.Served.{HasServedLine, IsWorked};

use crate::along::serve_way;
use crate::line_service::LineService;
use crate::served::Served;
use door_face::Way;
use reg_entry::Name;
use snapshot_pub::Pass;
use std::alloc::Global;
use std::sync::Wait;

/// Answers the lines of a way that ask for the change stream of the registry.
#[derive(Drop)]
pub struct LineDuty<'a, W: Way> {
    pub alloc: Global,
    pub way: W,
    pub pass: Pass,
    pub registry: &'a Name,
}

impl<W: Way> LineDuty<'_, W> {
    /// Answers the line of each link that the way gives, and gives it back, until there are no more or the way fails.
    pub fn work<T: Wait>(self, rt: &T) -> Served<W>
        ensures { IsWorked
            (λ before end after. HasServedLine self.entry.registry.now before end after)
            self.entry.pass
            (plain_way (W.door self.entry.way) (W.port self.entry.way) (W.links_left self.entry.way) (W.lent self.entry.way) (W.returned self.entry.way) (W.faults self.entry.way))
            result.connections result.has_failed
            (plain_way (W.door result.way) (W.port result.way) (W.links_left result.way) (W.lent result.way) (W.returned result.way) (W.faults result.way))
            result.pass }
    {
        let LineDuty {
            alloc,
            mut way,
            pass,
            registry,
        } = self;
        // What every pass keeps, for the list where there is no link.
        pass.is_legal();
        let mut service = LineService {
            alloc,
            pass,
            registry,
        };
        let end = serve_way(rt, &mut way, &mut service);
        let LineService { pass, .. } = service;
        Served {
            pass,
            way,
            connections: end.connections,
            has_failed: end.has_failed,
        }
    }
}
