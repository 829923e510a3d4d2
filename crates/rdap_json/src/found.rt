//! What was found round a range, with its holder.
ghost use Rattle.std.specs.Prelude.{◌≡◌, IfSome};
ghost use Rattle.std.specs.Option.{option_map};
ghost use Rattle.rdap_json.specs.Facts.{AreNetFacts};
ghost use Rattle.rdap_json.specs.RdapAnswer.{holder_in, kind_of, facts_of, facts_round};
ghost use Rattle.rdap_json.specs.Registered.{IsRegistered};

use crate::{NetFacts, NetKind};
use board::{Board, Found};
use num_range::Range;
use reg_entry::Status;
use reg_laws::narrowest::narrowest_is_least;

fn kind_of(status: Status) -> NetKind
    ensures { result ≡ kind_of status }
{
    match status {
        Status::Allocated => NetKind::Allocated,
        _ => NetKind::Assigned,
    }
}

/// The facts of what was found.
fn facts(board: &Board, found: &Found) -> Option<NetFacts>
    requires { IsRegistered board.now.register found.now }
    ensures facts { result ≡ option_map (facts_of found.now) (holder_in board.now.register.holders found.now) }
    ensures valid { IfSome result AreNetFacts }
{
    match found {
        Found::Piece(piece) => {
            let (holder, _) = *board.holders().holder(piece.card.holder?);
            Some(NetFacts {
                range: piece.range,
                kind: kind_of(piece.card.status),
                holder,
                day: piece.card.day,
                parent: None,
            })
        }
        Found::Sub {
            range,
            card,
            parent,
        } => {
            let (holder, _) = *board.holders().holder(card.holder);
            Some(NetFacts {
                range: *range,
                kind: NetKind::Sub,
                holder,
                day: card.day,
                parent: Some(*parent),
            })
        }
    }
}

/// The facts of the narrowest registration round the range.
pub(crate) fn facts_round(board: &Board, range: &Range) -> Option<NetFacts>
    ensures facts { result ≡ facts_round board.now.register range.now }
    ensures valid { IfSome result AreNetFacts }
{
    // A law, and what every board keeps: what is found has a holder and a day.
    narrowest_is_least();
    board.is_whole();
    let found = board.narrow(range)?;
    facts(board, &found)
}
