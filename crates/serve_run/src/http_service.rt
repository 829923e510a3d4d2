//! Serving one link of the door `Http`.
ghost use Rattle.std.specs.Prelude.{◌≡◌};

use crate::service::Service;
use desk_book::{Desk, Naming};
use hall::serve_conn;
use link_face::{Clock, Link};
use policy_table::Policy;
use snapshot_pub::Pass;
use std::alloc::Global;
use std::sync::Wait;
use wire_http::Framer;

/// A desk, a pass of its snapshots, and what else a connection takes.
#[derive(Drop)]
pub(crate) struct HttpService<'a, N: Naming, R: Wait + Drop, C: Clock> {
    pub alloc: Global,
    pub pass: Pass,
    pub framer: Framer,
    pub desk: &'a Desk<N, R>,
    pub policy: &'a Policy,
    pub clock: &'a C,
    ghost named: { (pass.book ≡ N.book) × (pass.rooms ≡ N.rooms) },
}

impl<L: Link, N: Naming, R: Wait + Drop, C: Clock> Service<L> for HttpService<'_, N, R, C> {
    ghost use Rattle.hall.specs.Desk.{among_others};
    ghost use Rattle.serve_run.specs.Served.{HasServedConnection};

    ghost pass = { λ s. s.pass };

    ghost serves = { λ s before end after. HasServedConnection (among_others before.rooms s.policy.now (C.states s.clock.now)) before end after };

    fn serve<T: Wait>(&mut self, rt: &T, link: &mut L) {
        serve_conn(
            rt,
            self.alloc,
            link,
            &mut self.framer,
            self.desk,
            &mut self.pass,
            self.policy,
            self.clock,
        );
    }
}
