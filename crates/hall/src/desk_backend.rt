//! A desk behind a connection: others submit to it too.
ghost use Rattle.std.specs.Prelude.{◌≡◌};
ghost use Rattle.hall.specs.Desk.{seen_by};

use crate::{Backend, Fault};
use board::{Answer, Lens};
use desk_book::{Desk, DeskFault, Naming};
use policy_table::Policy;
use reg_entry::{Name, Reply, Request};
use reg_laws::board::boards_keep_last_operations;
use snapshot_pub::{LookFault, Pass};
use std::alloc::Global;
use std::sync::Wait;

/// A desk, and a pass of its snapshots, which looks at them and learns what it is answered.
#[derive(Drop)]
pub(crate) struct DeskBackend<'a, N: Naming, R: Wait + Drop, W: Wait> {
    pub rt: &'a W,
    pub desk: &'a Desk<N, R>,
    pub pass: &'a mut Pass,
    ghost named: { (pass.now.book ≡ N.book) × (pass.now.rooms ≡ N.rooms) },
}

impl<N: Naming, R: Wait + Drop, W: Wait> Backend for DeskBackend<'_, N, R, W> {
    ghost use Rattle.std.specs.Prelude.{◌≡◌};
    ghost use Rattle.std.proofs.Common.{sym};
    ghost use mathlib.Core.List.{IsPrefix};
    ghost use Rattle.hall.specs.Desk.{seen_by, IsDeskFault};

    ghost rooms = { λ b. b.pass.now.rooms };

    ghost stands = { λ b s. s ≡ seen_by b.pass.now };

    ghost goes_on = { λ es fs. IsPrefix es fs };

    ghost keeps_entries = { λ es fs more. (more.0, sym more.1) };

    ghost may_fail = { λ fault. IsDeskFault fault };

    ghost reference = { λ b. b.pass.ghost_name };

    fn look<L: Lens>(&mut self, alloc: Global, lens: &L) -> Result<Answer, Fault> {
        // A law, for the register of the board that is looked at; and the count is one of 64 bits.
        boards_keep_last_operations();
        let _ = self.pass.shuts();
        match self.pass.look(alloc, lens) {
            Ok(answer) => Ok(answer),
            Err(LookFault::NoMemory) => Err(Fault::NoMemory),
            Err(LookFault::Shut) => Err(Fault::Shut),
        }
    }

    fn submit(
        &mut self,
        policy: &Policy,
        day: u32,
        who: &Name,
        request: &Request,
    ) -> Result<(Reply, u64), Fault> {
        // The count is one of 64 bits.
        let _ = self.pass.shuts();
        match self
            .desk
            .submit(self.rt, self.pass, policy, day, who, request)
        {
            Ok(decided) => Ok(decided),
            Err(DeskFault::NoMemory { entered: _ }) => Err(Fault::NoMemory),
            Err(DeskFault::Shut { entered: _ }) => Err(Fault::Shut),
        }
    }
}
