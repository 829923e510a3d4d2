//! One connection, from its first message to its end.
ghost use Rattle.std.specs.Prelude.{◌≡◌, ◌≢◌, ◌<◌, ◌⊎◌, Err, IfOk, IsTrue, IsFalse, Ok};
ghost use Rattle.link_face.specs.Faults.{HasCause, HasRisen};
ghost use mathlib.Core.List.{IsPrefix};
ghost use Rattle.reg_entry.specs.Next.{IsLegal};
ghost use Rattle.hall.specs.Standing.{Standing};
ghost use Rattle.hall.specs.Desk.{seen_by, among_others};
ghost use Rattle.hall.specs.Turn.{terms};
ghost use Rattle.hall.specs.Answer.{AnswersGiven};
ghost use Rattle.hall.specs.Conversation.{HasConversation, known};
ghost use Rattle.hall.specs.Pause.{HasServed, HasPauseCode, HasClosed};
ghost use Rattle.hall.specs.Written.{read_side};
ghost use Rattle.hall.specs.declared.connection.Pause.TheVariants.{More as TheMore};
ghost use Rattle.wire_http.specs.declared.message.ConnEnd.TheVariants.{Closed, ReadFault, WriteFault};
ghost use Rattle.wire_http.specs.Messages.{IsMessage};
ghost use Rattle.wire_http.specs.Step.{AreLengthsOf};

use crate::Backend;
use crate::answers::answer;
use crate::desk_backend::DeskBackend;
use crate::receive::receive;
use crate::reply::tell_closing;
use desk_book::{Desk, Naming};
use link_face::{Clock, Failed, Link};
use policy_table::Policy;
use snapshot_pub::Pass;
use std::alloc::Global;
use std::sync::Wait;
use wire_http::{ConnEnd, Framer, Head, Message, Step};

/// Why no further message is answered.
#[derive(Clone, Copy)]
pub(crate) enum Pause {
    /// The last one asked for the end of the connection.
    Asked,
    /// More bytes are wanted.
    More,
    /// What comes is no message; the reply has this code.
    Bad(u16),
    /// The input ended.
    End,
}

fn wants_more(pause: Pause) -> bool
    ensures more { IsTrue result → pause ≡ TheMore }
    ensures other { IsFalse result → pause ≢ TheMore }
{
    matches!(pause, Pause::More)
}

/// Answers the message that the framer gave last, and says whether the connection ends behind it.
fn answer_message<L: Link, C: Clock, B: Backend>(
    alloc: Global,
    link: &mut L,
    framer: &Framer,
    message: &Message,
    backend: &mut B,
    policy: &Policy,
    clock: &C,
) -> Result<bool, Failed>
    requires lengths { AreLengthsOf message.now framer.now.given }
    requires message { IsMessage framer.now.given }
    ensures answered { (before : Standing) → B.stands backend.old before → (after : Standing) × B.stands backend.new after
        × AnswersGiven (terms (B.rooms backend.old) policy.now (C.states clock.now) B.goes_on B.may_fail) framer.now.given before result
        (L.written link.old) (L.written link.new) after }
    ensures rooms { B.rooms backend.new ≡ B.rooms backend.old }
    ensures reference { B.reference backend.new ≡ B.reference backend.old }
    ensures cause { HasCause (L.Source.faults link.old) (L.Source.faults link.new) result }
    ensures reading { read_side (L.taken link.new) (L.left link.new) (L.budget link.new) ≡ read_side (L.taken link.old) (L.left link.old) (L.budget link.old) }
    ensures end { L.has_ended link.old → L.has_ended link.new }
{
    let Some(head) = Head::read(framer.head(message)) else {
        unreachable!()
    };
    let body = framer.body(message);
    answer(alloc, link, &head, body, backend, policy, clock)?;
    Ok(head.asks_to_close())
}

/// Answers the messages that have come, up to one that asks for the end of the connection.
fn answer_messages<L: Link, C: Clock, B: Backend>(
    alloc: Global,
    link: &mut L,
    framer: &mut Framer,
    ended: bool,
    backend: &mut B,
    policy: &Policy,
    clock: &C,
) -> Result<Pause, Failed>
    ensures served { (before : Standing) → B.stands backend.old before → (after : Standing) × B.stands backend.new after
        × HasServed (terms (B.rooms backend.old) policy.now (C.states clock.now) B.goes_on B.may_fail) before result framer.old.bytes framer.new.bytes ended
        (L.written link.old) (L.written link.new) after }
    ensures code { IfOk result HasPauseCode }
    ensures more { result ≡ Ok TheMore → (0 < framer.new.spare) × IsFalse ended }
    ensures rooms { B.rooms backend.new ≡ B.rooms backend.old }
    ensures reference { B.reference backend.new ≡ B.reference backend.old }
    ensures cause { HasCause (L.Source.faults link.old) (L.Source.faults link.new) result }
    ensures reading { read_side (L.taken link.new) (L.left link.new) (L.budget link.new) ≡ read_side (L.taken link.old) (L.left link.old) (L.budget link.old) }
    ensures end { L.has_ended link.old → L.has_ended link.new }
{
    'messages: loop {
        let message = match framer.next(ended) {
            Step::Message(message) => message,
            Step::More => return Ok(Pause::More),
            Step::Bad(code) => return Ok(Pause::Bad(code)),
            Step::End => return Ok(Pause::End),
        };
        if answer_message(alloc, link, framer, &message, backend, policy, clock)? {
            return Ok(Pause::Asked);
        }
    }
}

/// Says what is said at the end.
fn close<L: Link>(link: &mut L, pause: Pause) -> ConnEnd
    requires { HasPauseCode pause }
    ensures closed { HasClosed result pause (L.written link.old) (L.written link.new) }
    ensures fault { result ≡ WriteFault → HasRisen (L.Source.faults link.old) (L.Source.faults link.new) }
    ensures told { result ≡ Closed → L.Source.faults link.new ≡ L.Source.faults link.old }
    ensures taken { L.taken link.new ≡ L.taken link.old }
    ensures left { L.left link.new ≡ L.left link.old }
    ensures end { L.has_ended link.old → L.has_ended link.new }
{
    match pause {
        Pause::Bad(code) => match tell_closing(link, code) {
            Ok(()) => ConnEnd::Closed,
            Err(Failed) => ConnEnd::WriteFault,
        },
        Pause::Asked | Pause::More | Pause::End => ConnEnd::Closed,
    }
}

/// Serves one connection over whatever stands behind it.
pub fn serve<L: Link, C: Clock, B: Backend>(
    alloc: Global,
    link: &mut L,
    framer: &mut Framer,
    backend: &mut B,
    policy: &Policy,
    clock: &C,
) -> ConnEnd
    ensures conversation { (before : Standing) → B.stands backend.old before → (after : Standing) × B.stands backend.new after
        × HasConversation (terms (B.rooms backend.old) policy.now (C.states clock.now) B.goes_on B.may_fail) before
        (known (L.taken link.old) (L.left link.old) (L.written link.old)) result (L.has_ended link.new)
        (known (L.taken link.new) (L.left link.new) (L.written link.new)) after }
    ensures fault { (result ≡ ReadFault) ⊎ (result ≡ WriteFault) → HasRisen (L.Source.faults link.old) (L.Source.faults link.new) }
    ensures told { result ≡ Closed → L.Source.faults link.new ≡ L.Source.faults link.old }
    ensures ends { (result ≡ Closed) ⊎ (result ≡ ReadFault) ⊎ (result ≡ WriteFault) }
    ensures reference { B.reference backend.new ≡ B.reference backend.old }
{
    framer.clear();
    'pieces: loop {
        let pause = match answer_messages(alloc, link, framer, false, backend, policy, clock) {
            Err(Failed) => return ConnEnd::WriteFault,
            Ok(pause) => pause,
        };
        if !wants_more(pause) {
            return close(link, pause);
        }
        match receive(link, framer) {
            Err(Failed) => return ConnEnd::ReadFault,
            Ok(true) => {}
            Ok(false) => break,
        }
    }
    match answer_messages(alloc, link, framer, true, backend, policy, clock) {
        Err(Failed) => ConnEnd::WriteFault,
        Ok(pause) => close(link, pause),
    }
}

/// Serves one connection over a desk.
fn serve_desk<L: Link, C: Clock, N: Naming, R: Wait + Drop, W: Wait>(
    alloc: Global,
    link: &mut L,
    framer: &mut Framer,
    backend: &mut DeskBackend<'_, N, R, W>,
    policy: &Policy,
    clock: &C,
) -> ConnEnd
    ensures conversation { HasConversation (among_others backend.old.pass.now.rooms policy.now (C.states clock.now)) (seen_by backend.old.pass.now)
        (known (L.taken link.old) (L.left link.old) (L.written link.old)) result (L.has_ended link.new)
        (known (L.taken link.new) (L.left link.new) (L.written link.new)) (seen_by backend.new.pass.now) }
    ensures fault { (result ≡ ReadFault) ⊎ (result ≡ WriteFault) → HasRisen (L.Source.faults link.old) (L.Source.faults link.new) }
    ensures told { result ≡ Closed → L.Source.faults link.new ≡ L.Source.faults link.old }
    ensures ends { (result ≡ Closed) ⊎ (result ≡ ReadFault) ⊎ (result ≡ WriteFault) }
    ensures seen { IsPrefix backend.old.pass.now.entries backend.new.pass.now.entries }
    ensures legal { IsLegal backend.new.pass.now.rooms backend.new.pass.now.entries }
    ensures same { (backend.new.pass.now.book ≡ backend.old.pass.now.book) × (backend.new.pass.now.rooms ≡ backend.old.pass.now.rooms) }
    ensures reference { backend.new.pass.ghost_name ≡ backend.old.pass.ghost_name }
{
    let end = serve(alloc, link, framer, backend, policy, clock);
    // What every pass keeps, for `legal`.
    backend.pass.is_legal();
    end
}

/// Serves one connection over a desk, with a pass of the desk's snapshots. It takes memory only to look and to submit.
pub fn serve_conn<L: Link, C: Clock, N: Naming, R: Wait + Drop, W: Wait>(
    rt: &W,
    alloc: Global,
    link: &mut L,
    framer: &mut Framer,
    desk: &Desk<N, R>,
    pass: &mut Pass,
    policy: &Policy,
    clock: &C,
) -> ConnEnd
    requires named { (pass.old.book ≡ N.book) × (pass.old.rooms ≡ N.rooms) }
    ensures conversation { HasConversation (among_others pass.old.rooms policy.now (C.states clock.now)) (seen_by pass.old)
        (known (L.taken link.old) (L.left link.old) (L.written link.old)) result (L.has_ended link.new)
        (known (L.taken link.new) (L.left link.new) (L.written link.new)) (seen_by pass.new) }
    ensures fault { (result ≡ ReadFault) ⊎ (result ≡ WriteFault) → HasRisen (L.Source.faults link.old) (L.Source.faults link.new) }
    ensures told { result ≡ Closed → L.Source.faults link.new ≡ L.Source.faults link.old }
    ensures ends { (result ≡ Closed) ⊎ (result ≡ ReadFault) ⊎ (result ≡ WriteFault) }
    ensures seen { IsPrefix pass.old.entries pass.new.entries }
    ensures legal { IsLegal pass.new.rooms pass.new.entries }
    ensures same { (pass.new.book ≡ pass.old.book) × (pass.new.rooms ≡ pass.old.rooms) }
{
    let mut backend = DeskBackend { rt, desk, pass };
    serve_desk(alloc, link, framer, &mut backend, policy, clock)
}
