//! The summary of a load.
ghost use Rattle.std.specs.Prelude.{◌≡◌, ◌≤◌, ◌<◌, ◌++◌, codes, decimal, IfOk, OnOk};
ghost use Rattle.reg_entry.specs.Partition.{piece_count};
ghost use Rattle.reg_entry.specs.Register.{register_pieces};
ghost use Rattle.reg_entry.specs.Rooms.{AreRooms};
ghost use Rattle.reg_entry.specs.Sums.{status_sum};
ghost use Rattle.policy_table.specs.Policy.{first_name};
ghost use Rattle.load_gen.specs.Load.{count_line, space_name, space_line, summary_text, load_text};

use crate::load::{Load, load_of};
use board::{Board, Body};
use itoa::{Buffer, Integer};
use num_range::Space;
use piece_book::PieceBook;
use policy_table::Policy;
use reg_entry::{Rooms, Status};
use std::alloc::{AllocError, Global};

fn append_decimal<I: Integer>(n: I, body: &mut Body) -> Result<(), AllocError>
    ensures { OnOk result (body.new ≡ body.old ++ I.text n) }
{
    let mut buffer = Buffer::new();
    body.append(buffer.format(n).as_bytes())
}

fn append_count(word: &[u8], n: u64, body: &mut Body) -> Result<(), AllocError>
    ensures { OnOk result (body.new ≡ body.old ++ count_line word.now n) }
{
    body.append(word)?;
    body.append(b": ")?;
    append_decimal(n, body)?;
    body.append(b"\n")
}

fn space_name(space: Space) -> &'static [u8]
    ensures { result.now ≡ space_name space }
{
    match space {
        Space::Asn => b"asn",
        Space::Ipv4 => b"ipv4",
        Space::Ipv6 => b"ipv6",
    }
}

/// How many pieces there are in all.
fn count_pieces(pieces: &PieceBook) -> u64
    ensures { result ≡ piece_count pieces.now.partition }
{
    pieces.are_pieces();
    (pieces.walk(Space::Asn).count()
        + pieces.walk(Space::Ipv4).count()
        + pieces.walk(Space::Ipv6).count()) as u64
}

/// Appends a blank and how many numbers of the space have the status.
fn append_sum(
    board: &Board,
    space: Space,
    status: Status,
    body: &mut Body,
) -> Result<(), AllocError>
    ensures { OnOk result (body.new ≡ body.old ++ (codes " " ++ decimal (status_sum (register_pieces board.now.register space) status))) }
{
    body.append(b" ")?;
    append_decimal(board.pieces().sum(space, status), body)
}

/// Appends the line of a space.
fn append_space(board: &Board, space: Space, body: &mut Body) -> Result<(), AllocError>
    ensures { OnOk result (body.new ≡ body.old ++ space_line board.now.register space) }
{
    body.append(space_name(space))?;
    append_sum(board, space, Status::Available, body)?;
    append_sum(board, space, Status::Reserved, body)?;
    append_sum(board, space, Status::Quarantine, body)?;
    append_sum(board, space, Status::Allocated, body)?;
    append_sum(board, space, Status::Assigned, body)?;
    body.append(b"\n")
}

/// Appends the summary.
fn append_summary(load: &Load<'_>, body: &mut Body) -> Result<(), AllocError>
    ensures { OnOk result (body.new ≡ body.old ++ summary_text load.now) }
{
    let board = load.board();
    append_count(b"entries", board.entries(), body)?;
    append_count(b"refused", load.refused(), body)?;
    append_count(b"pieces", count_pieces(board.pieces()), body)?;
    append_space(board, Space::Asn, body)?;
    append_space(board, Space::Ipv4, body)?;
    append_space(board, Space::Ipv6, body)
}

/// The summary.
fn summary_of(alloc: Global, load: &Load<'_>) -> Result<Body, AllocError>
    ensures { IfOk result (λ body. body ≡ summary_text load.now) }
{
    let mut body = Body::new(alloc);
    append_summary(load, &mut body)?;
    Ok(body)
}

/// Lets a load go. It is a function of its own, so that this is proved apart from the summary.
fn discard(load: Load<'_>) {
    drop(load);
}

/// The summary of a load: the requests with which every one begins, and then so many draws of the seed, asked of a register
/// that begins empty. The register is let go.
pub fn write_load(
    alloc: Global,
    rooms: Rooms,
    policy: &Policy,
    seed: u64,
    count: u32,
) -> Result<Body, AllocError>
    requires { AreRooms rooms }
    ensures { IfOk result (λ body. body ≡ load_text rooms policy.now (first_name policy.now.hostmasters) seed count) }
{
    let load = load_of(alloc, rooms, policy, seed, count)?;
    let summary = summary_of(alloc, &load);
    discard(load);
    summary
}
