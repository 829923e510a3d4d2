//! Laws over conversations, each proved as the contract of a function that does nothing.
ghost use Rattle.std.specs.Prelude.{ℕ, List, ◌∷◌, All, Ok};
ghost use Rattle.reg_entry.specs.declared.entry.Reply.TheVariants.{Accepted};
ghost use Rattle.reg_entry.specs.declared.request.Request.{Request};
ghost use Rattle.reg_entry.specs.declared.rooms.Rooms.{Rooms};
ghost use Rattle.reg_entry.specs.Entry.{PlainEntry};
ghost use Rattle.reg_entry.specs.Policy.{PlainPolicy};
ghost use Rattle.hall.specs.Standing.{Standing};
ghost use Rattle.hall.specs.Turn.{Turn, IsSubmitted, AreTurns};
ghost use Rattle.hall.specs.Prefixes.{HasEntryAt};
ghost use Rattle.hall.specs.Desk.{among_others};

use link_face::Clock;

/// An entry stays seen. Where a turn over a desk accepted a request, this turn and each later one is answered with the entry
/// among those seen, at the number that the reply tells; and where it was seen before a conversation, each turn is.
pub fn accepted_entries_stay<C: Clock>(_clock: &C)
    ensures accepted { (rooms : Rooms) (policy : PlainPolicy) (before after : Standing) (turn : Turn) (later : List Turn) (who : List ℕ)
        (request : Request) (day : ℕ) (e : PlainEntry) (number : ℕ)
        → IsSubmitted (among_others rooms policy (C.states _clock.now)) turn.head who request before turn.reply turn.after day (Ok (Accepted e, number))
        → AreTurns (among_others rooms policy (C.states _clock.now)) turn.after later after
        → All (λ u. HasEntryAt number e u.after.entries) (turn ∷ later) × HasEntryAt number e after.entries }
    ensures seen { (rooms : Rooms) (policy : PlainPolicy) (before after : Standing) (turns : List Turn) (e : PlainEntry) (number : ℕ)
        → HasEntryAt number e before.entries → AreTurns (among_others rooms policy (C.states _clock.now)) before turns after
        → All (λ u. HasEntryAt number e u.after.entries) turns × HasEntryAt number e after.entries }
{}
