//! A stream of 300 operations, cut once at each place: the two pieces are fed as the whole.
use super::written;
use mirror_core::Mirror;
use std::alloc::{AllocError, Global};
use std::fmt::Write;
use std::test::Fail;

const OPERATIONS: u64 = 300;

/// Appends an operation: every third takes out the object that the one before it brought.
fn append_operation(serial: u64, text: &mut String) -> Result<(), AllocError> {
    let (act, holder) = if serial % 3 == 0 {
        ("DEL", serial.saturating_sub(1))
    } else {
        ("ADD", serial)
    };
    write!(
        text,
        "\n{act} {serial}\n\norganisation: ORG-{holder}\nsource: EXREG\n"
    )
}

/// Appends a stream of so many operations.
fn append_stream(text: &mut String) -> Result<(), AllocError> {
    write!(text, "%START Version: 3 EXREG 1-{OPERATIONS}\n")?;
    for serial in 1..=OPERATIONS {
        append_operation(serial, text)?;
    }
    write!(text, "\n%END EXREG\n")
}

fn made(alloc: Global) -> Result<String, AllocError> {
    let mut text = String::new(alloc);
    append_stream(&mut text)?;
    Ok(text)
}

/// A mirror that was fed the stream in two pieces.
fn fed_cut(alloc: Global, stream: &[u8], cut: usize) -> Result<Mirror, AllocError> {
    let (front, back) = stream.split_at(stream.len().min(cut));
    let mut mirror = Mirror::new(alloc, b"EXREG")?;
    let _front = mirror.feed(front);
    let _back = mirror.feed(back);
    Ok(mirror)
}

/// Whether the mirrors hold the same objects, in the same order, and have the same serial and the same fault.
fn are_alike(alloc: Global, one: &Mirror, other: &Mirror) -> Result<bool, AllocError> {
    let objects = written(alloc, one)?;
    let others = written(alloc, other)?;
    Ok(
        objects.bytes() == others.bytes()
            && one.serial() == other.serial()
            && one.at_rest() == other.at_rest()
            && one.fault() == other.fault(),
    )
}

/// Whether each cut at a place of this remainder is fed as the whole. A sixth of the places is one test, so that each test is
/// short.
fn are_fed_alike(alloc: Global, remainder: usize) -> Result<bool, AllocError> {
    let stream = made(alloc)?;
    let stream = stream.as_bytes();
    let whole = fed_cut(alloc, stream, 0)?;
    for cut in 1..=stream.len() {
        if cut % 6 == remainder {
            let mirror = fed_cut(alloc, stream, cut)?;
            if !are_alike(alloc, &mirror, &whole)? {
                return Ok(false);
            }
        }
    }
    Ok(true)
}

#[test]
fn the_whole_leaves_a_third(rt: HostRuntime) -> Result<(), Fail> {
    let stream = made(rt.alloc())?;
    let whole = fed_cut(rt.alloc(), stream.as_bytes(), 0)?;
    let mut count = 0_u64;
    for _ in whole.objects().walk() {
        count = count.saturating_add(1);
    }
    assert_eq!(rt; count, 100);
    assert_eq!(rt; whole.serial(), OPERATIONS);
    assert_eq!(rt; whole.fault(), None);
    Ok(())
}

#[test]
fn cuts_are_fed_alike_0(rt: HostRuntime) -> Result<(), Fail> {
    assert!(rt; are_fed_alike(rt.alloc(), 0)?);
    Ok(())
}

#[test]
fn cuts_are_fed_alike_1(rt: HostRuntime) -> Result<(), Fail> {
    assert!(rt; are_fed_alike(rt.alloc(), 1)?);
    Ok(())
}

#[test]
fn cuts_are_fed_alike_2(rt: HostRuntime) -> Result<(), Fail> {
    assert!(rt; are_fed_alike(rt.alloc(), 2)?);
    Ok(())
}

#[test]
fn cuts_are_fed_alike_3(rt: HostRuntime) -> Result<(), Fail> {
    assert!(rt; are_fed_alike(rt.alloc(), 3)?);
    Ok(())
}

#[test]
fn cuts_are_fed_alike_4(rt: HostRuntime) -> Result<(), Fail> {
    assert!(rt; are_fed_alike(rt.alloc(), 4)?);
    Ok(())
}

#[test]
fn cuts_are_fed_alike_5(rt: HostRuntime) -> Result<(), Fail> {
    assert!(rt; are_fed_alike(rt.alloc(), 5)?);
    Ok(())
}
