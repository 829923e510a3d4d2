//! A board alone behind a connection: nobody else changes it.
ghost use Rattle.std.specs.Prelude.{◌≡◌, List, IsOk, OnOk, MatchResult};
ghost use Rattle.reg_entry.specs.Entry.{PlainEntry};
ghost use Rattle.reg_entry.specs.Decision.{IfAccepted, decision};
ghost use Rattle.reg_entry.specs.Next.{IsNextEntry};
ghost use Rattle.reg_laws.specs.Reached.{IsRegisterOf};
ghost use Rattle.desk_text.specs.ReplyText.{ReplyHasDate};
ghost use Rattle.desk_book.specs.Reply.{with_reply};

use crate::{Backend, Fault};
use board::{Answer, Board, Lens};
use desk_text::laws::replies_have_dates;
use policy_table::Policy;
use reg_entry::{Name, Reply, Request};
use reg_laws::reached::reached_registers_count;
use request_core::decide;
use std::alloc::Global;

/// Takes in the entry of an accepted request.
fn take_in(board: &mut Board, reply: &Reply)
    requires { IfAccepted reply.now (IsNextEntry board.old.register) }
    ensures entries { (es : List PlainEntry) → IsRegisterOf board.old.register es → IsRegisterOf board.new.register (with_reply es reply.now) }
    ensures rooms { board.new.register.rooms ≡ board.old.register.rooms }
{
    if let Reply::Accepted(entry) = reply {
        board.apply(entry);
    }
}

impl Backend for Board {
    ghost use Rattle.std.specs.Prelude.{◌≡◌, []};
    ghost use Rattle.std.proofs.Common.{◌∙◌, sym, append-nil};
    ghost use Rattle.reg_laws.specs.Reached.{IsRegisterOf};

    ghost rooms = { λ b. b.register.rooms };

    ghost stands = { λ b s. IsRegisterOf b.register s.entries × (s.refusals ≡ 0) × (s.failures ≡ 0) };

    ghost goes_on = { λ es fs. fs ≡ es };

    ghost keeps_entries = { λ es fs same. ([], same ∙ sym (append-nil es)) };

    ghost may_fail = { λ _. ⊥ };

    fn look<L: Lens>(&mut self, alloc: Global, lens: &L) -> Result<Answer, Fault> {
        match lens.read(alloc, self) {
            Ok(answer) => Ok(answer),
            Err(_) => Err(Fault::NoMemory),
        }
    }

    fn submit(
        &mut self,
        policy: &Policy,
        day: u32,
        who: &Name,
        request: &Request,
    ) -> Result<(Reply, u64), Fault> {
        // What every board keeps, and laws, for the date of a reply and the count.
        self.is_whole();
        replies_have_dates();
        reached_registers_count();
        let reply = decide(self, policy, day, who, request);
        take_in(self, &reply);
        Ok((reply, self.entries()))
    }
}
