//! Serving one link of the door `Line`.
use crate::service::Service;
use hall::serve_line;
use link_face::Link;
use reg_entry::Name;
use snapshot_pub::Pass;
use std::alloc::Global;
use std::sync::Wait;

/// A pass, and the name of the registry whose stream is asked for.
#[derive(Drop)]
pub(crate) struct LineService<'a> {
    pub alloc: Global,
    pub pass: Pass,
    pub registry: &'a Name,
}

impl<L: Link> Service<L> for LineService<'_> {
    ghost use Rattle.serve_run.specs.Served.{HasServedLine};

    ghost pass = { λ s. s.pass };

    ghost serves = { λ s before end after. HasServedLine s.registry.now before end after };

    fn serve<T: Wait>(&mut self, _rt: &T, link: &mut L) {
        serve_line(self.alloc, link, &mut self.pass, self.registry);
    }
}
