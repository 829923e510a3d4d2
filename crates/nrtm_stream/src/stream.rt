//! Operations as text, appended to a body.
ghost use Rattle.std.specs.Prelude.{◌≡◌, ◌+◌, ◌≤◌, ◌++◌, codes, decimal, OnOk};
ghost use Rattle.std.specs.List.{flat_map};
ghost use Rattle.rpsl_text.specs.Object.{HasDates};
ghost use Rattle.nrtm_stream.specs.Stream.{act_word, operation_text, stream_text};
ghost use Rattle.nrtm_stream.specs.Answer.{operations_between, serials_range, not_kept_text};

use board::{Board, Body};
use itoa::Buffer;
use op_feed::laws::reached_boards_number_operations;
use reg_entry::{Act, Op};
use rpsl_text::append_object;
use std::alloc::AllocError;

fn append_number(n: u64, body: &mut Body) -> Result<(), AllocError>
    ensures { OnOk result (body.new ≡ body.old ++ decimal n) }
{
    let mut buffer = Buffer::new();
    body.append(buffer.format(n).as_bytes())
}

/// Appends two serials with `-` between them.
fn append_serials(first: u64, last: u64, body: &mut Body) -> Result<(), AllocError>
    ensures { OnOk result (body.new ≡ body.old ++ serials_range first last) }
{
    append_number(first, body)?;
    body.append(b"-")?;
    append_number(last, body)?;
    Ok(())
}

fn act_word(act: Act) -> &'static [u8]
    ensures { result.now ≡ act_word act }
{
    match act {
        Act::Add => b"ADD",
        Act::Del => b"DEL",
    }
}

fn append_operation(op: &Op, source: &[u8], body: &mut Body) -> Result<(), AllocError>
    requires { HasDates op.now.object }
    ensures { OnOk result (body.new ≡ body.old ++ operation_text source.now op.now) }
{
    body.append(act_word(op.act))?;
    body.append(b" ")?;
    append_number(op.serial, body)?;
    body.append(b"\n\n")?;
    append_object(&op.object, source, body)?;
    body.append(b"\n")?;
    Ok(())
}

/// Appends the operation of this serial, where it is kept, so that those behind it are left.
fn append_kept(
    board: &Board,
    source: &[u8],
    serial: u64,
    last: u64,
    body: &mut Body,
) -> Result<(), AllocError>
    requires { serial ≤ last }
    ensures { OnOk result (body.new ++ flat_map (operation_text source.now) (operations_between board.now (serial + 1) last)
        ≡ body.old ++ flat_map (operation_text source.now) (operations_between board.now serial last)) }
{
    // A law: no two operations have one serial.
    reached_boards_number_operations();
    board.keeps_operations();
    let Some(op) = board.op(serial) else {
        return Ok(());
    };
    append_operation(&op, source, body)?;
    Ok(())
}

/// Appends the kept operations from one serial to another.
fn append_operations(
    board: &Board,
    source: &[u8],
    first: u64,
    last: u64,
    body: &mut Body,
) -> Result<(), AllocError>
    ensures { OnOk result (body.new ≡ body.old ++ flat_map (operation_text source.now) (operations_between board.now first last)) }
{
    for serial in first..=last {
        append_kept(board, source, serial, last, body)?;
    }
    Ok(())
}

/// Appends the line with which a stream begins, and an empty one.
fn append_start(source: &[u8], first: u64, last: u64, body: &mut Body) -> Result<(), AllocError>
    ensures { OnOk result (body.new ≡ body.old
        ++ (codes "%START Version: 3 " ++ source.now ++ codes " " ++ decimal first ++ codes "-" ++ decimal last ++ codes "\n\n")) }
{
    body.append(b"%START Version: 3 ")?;
    body.append(source)?;
    body.append(b" ")?;
    append_number(first, body)?;
    body.append(b"-")?;
    append_number(last, body)?;
    body.append(b"\n\n")?;
    Ok(())
}

pub(crate) fn append_stream(
    board: &Board,
    source: &[u8],
    first: u64,
    last: u64,
    body: &mut Body,
) -> Result<(), AllocError>
    ensures { OnOk result (body.new ≡ body.old ++ stream_text source.now first last (operations_between board.now first last)) }
{
    append_start(source, first, last, body)?;
    append_operations(board, source, first, last, body)?;
    body.append(b"%END ")?;
    body.append(source)?;
    body.append(b"\n")?;
    Ok(())
}

/// Appends the line that says which serials are kept.
pub(crate) fn append_not_kept(
    board: &Board,
    first: u64,
    last: u64,
    body: &mut Body,
) -> Result<(), AllocError>
    ensures { OnOk result (body.new ≡ body.old ++ not_kept_text board.now first last) }
{
    let (first_kept, last_kept) = board.kept();
    body.append(b"%ERROR: serials ")?;
    append_serials(first, last, body)?;
    body.append(b" are not inside ")?;
    append_serials(first_kept, last_kept, body)?;
    body.append(b"\n")?;
    Ok(())
}
