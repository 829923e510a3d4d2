//! Serving a way.
ghost use Rattle.serve_run.specs.Along.{HasServedWay, plain_way};

use crate::service::Service;
use door_face::Way;
use link_face::Failed;
use std::sync::Wait;

/// How a way ended.
#[derive(Clone, Copy)]
pub(crate) struct WayEnd {
    /// How many links were served, up to the greatest number of the type, at which the count stays.
    pub connections: u64,
    /// Whether the way failed; else it has no more links.
    pub has_failed: bool,
}

/// Serves each link that the way gives, and gives it back, until there are no more or the way fails.
pub(crate) fn serve_way<R: Wait, W: Way, S: Service<W::L>>(
    rt: &R,
    way: &mut W,
    service: &mut S,
) -> WayEnd
    ensures { HasServedWay (S.serves service.old) (S.pass service.old)
        (plain_way (W.door way.old) (W.port way.old) (W.links_left way.old) (W.lent way.old) (W.returned way.old) (W.faults way.old))
        result.connections result.has_failed
        (plain_way (W.door way.new) (W.port way.new) (W.links_left way.new) (W.lent way.new) (W.returned way.new) (W.faults way.new))
        (S.pass service.new) }
{
    let mut connections: u64 = 0;
    for _ in rt.forever() {
        let mut link = match way.accept() {
            Ok(Some(link)) => link,
            Ok(None) => return WayEnd {
                connections,
                has_failed: false,
            },
            Err(Failed) => return WayEnd {
                connections,
                has_failed: true,
            },
        };
        service.serve(rt, &mut link);
        way.done(link);
        connections = connections.saturating_add(1);
    }
    unreachable!()
}
