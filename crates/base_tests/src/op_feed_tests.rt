//! What changes where pieces of 192.0.2.0/24 (RFC 5737) give way to others, by their last octets.
use arrayvec::ArrayVec;
use num_range::{Range, Space};
use op_feed::{comes, goes};
use reg_entry::Status::{Allocated, Available, Quarantine, Reserved};
use reg_entry::{Card, Piece, Status};
use std::test::Fail;

const NET: u128 = 0xc000_0200;

type Row = (u8, u8, Status);

type Octets = (u8, u8);

/// The pieces of the rows, of which there are at most three.
fn pieces(rows: &[Row]) -> Option<ArrayVec<Piece, 3>> {
    let mut pieces = ArrayVec::new();
    for (first, last, status) in rows {
        let (first, last) = (NET + u128::from(*first), NET + u128::from(*last));
        let Some(range) = Range::new(Space::Ipv4, first, last) else {
            return None;
        };
        if pieces.is_full() {
            return None;
        }
        let card = Card {
            status: *status,
            holder: None,
            day: 0,
            until: 0,
        };
        pieces.push(Piece { range, card });
    }
    Some(pieces)
}

/// Whether a piece has just these octets.
fn has_octets(piece: &Piece, octets: &Octets) -> bool {
    let (first, last) = octets;
    let same_first = piece.range.first() == NET + u128::from(*first);
    same_first && piece.range.last() == NET + u128::from(*last)
}

/// Whether just these of the pieces go.
fn go_so(before: &[Piece], after: &[Piece], wanted: &[Octets]) -> bool {
    let mut left = wanted;
    for piece in before {
        if goes(after, piece) {
            let [first, rest @ ..] = left else {
                return false;
            };
            if !has_octets(piece, first) {
                return false;
            }
            left = rest;
        }
    }
    left.is_empty()
}

/// Whether just these of the pieces come.
fn come_so(before: &[Piece], after: &[Piece], wanted: &[Octets]) -> bool {
    let mut left = wanted;
    for piece in after {
        if comes(before, piece) {
            let [first, rest @ ..] = left else {
                return false;
            };
            if !has_octets(piece, first) {
                return false;
            }
            left = rest;
        }
    }
    left.is_empty()
}

/// Whether of the first pieces just these go, and of the second just those come.
fn change_so(before: &[Row], after: &[Row], gone: &[Octets], come: &[Octets]) -> bool {
    let Some(before) = pieces(before) else {
        return false;
    };
    let Some(after) = pieces(after) else {
        return false;
    };
    let (before, after) = (before.as_slice(), after.as_slice());
    go_so(before, after, gone) && come_so(before, after, come)
}

fn changes_are_so() -> bool {
    let (whole, low, high) = (
        (0, 255, Available),
        (0, 63, Allocated),
        (64, 255, Available),
    );
    let given = [(64, 127, Available), (128, 191, Reserved)];
    let taken = [(64, 127, Available), (128, 191, Quarantine)];
    change_so(&[], &[whole], &[], &[(0, 255)])
        && change_so(&[whole], &[low, high], &[(0, 255)], &[(0, 63), (64, 255)])
        && change_so(&[low, high], &[whole], &[(0, 63), (64, 255)], &[(0, 255)])
        && change_so(&given, &taken, &[], &[(128, 191)])
        && change_so(&given, &given, &[], &[])
}

#[test]
fn pieces_go_and_others_come(rt: HostRuntime) -> Result<(), Fail> {
    assert!(rt; changes_are_so());
    Ok(())
}
