//! How snapshots begin.
ghost use Rattle.std.specs.Prelude.{◌≡◌, ◌≤◌, [], length, All, IfOk, vec_capacity};
ghost use Rattle.op_feed.specs.ReachedBoard.{IsBoardOf};
ghost use Rattle.snapshot_pub.specs.Opening.{new_pass};

use crate::pass::Pass;
use crate::press::Press;
use board::Board;
use entry_log::{Front, Log, open_with};
use reg_entry::Entry;
use std::alloc::{AllocError, Global};
use std::sync::Wait;

/// The log of the list, and a list with room for the passes.
fn prepared(
    alloc: Global,
    list: &[Entry],
    passes: u32,
) -> Result<(Log, Front, Vec<Pass>), AllocError>
    ensures book { IfOk result (λ t. t.1.book ≡ t.0) }
    ensures entries { IfOk result (λ t. t.1.entries ≡ list.now) }
    ensures room { IfOk result (λ t. (t.2.items ≡ []) × (passes ≤ vec_capacity t.2)) }
{
    let opened = Vec::with_capacity(alloc, passes as usize)?;
    match open_with(list) {
        Some((log, front)) => Ok((log, front, opened)),
        None => Err(AllocError),
    }
}

/// Makes the passes.
fn with_passes(press: Press, opened: Vec<Pass>, passes: u32) -> (Press, Vec<Pass>)
    requires empty { opened.items ≡ [] }
    requires room { passes ≤ vec_capacity opened }
    ensures press { result.0 ≡ press }
    ensures count { length result.1.items ≡ passes }
    ensures passes { All (λ p. p ≡ new_pass press) result.1.items }
{
    let mut press = press;
    let mut opened = opened;
    for _ in 0..passes {
        opened.push_reserved(press.pass());
    }
    (press, opened)
}

/// Publishes the board of the list, of which there have to be two, and makes the passes, each of which has seen the list.
pub fn open_snapshots<R: Wait>(
    rt: &R,
    alloc: Global,
    one: Board,
    two: Board,
    list: &[Entry],
    passes: u32,
) -> Result<(Press, Vec<Pass>), AllocError>
    requires passes { 1 ≤ passes }
    requires list { IsBoardOf one list.now }
    requires alike { two ≡ one }
    ensures rooms { IfOk result (λ r. r.0.rooms ≡ one.register.rooms) }
    ensures lists { IfOk result (λ r. (r.0.published ≡ list.now) × (r.0.put ≡ list.now)) }
    ensures count { IfOk result (λ r. length r.1.items ≡ passes) }
    ensures passes { IfOk result (λ r. All (λ p. p ≡ new_pass r.0) r.1.items) }
{
    let (log, front, opened) = prepared(alloc, list, passes)?;
    let press = Press::open(rt, alloc, one, two, log, front, passes)?;
    Ok(with_passes(press, opened, passes))
}
