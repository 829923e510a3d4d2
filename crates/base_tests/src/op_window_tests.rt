//! What a window keeps.
ghost use Rattle.std.specs.Prelude.{◌+◌, ◌<◌, ◌^◌};

use num_range::{Range, Space};
use op_feed::OpWindow;
use reg_entry::{
    Act, Card, Cc, Handle, Holder, Host, Kind, Object, Op, Piece, Servers, Status, Text,
};
use std::alloc::{AllocError, Global};
use std::test::Fail;

/// A holder, a sub, a block and a cut.
fn holder() -> Holder {
    Holder {
        handle: Handle::read(b"ORG-A").unwrap(),
        kind: Kind::Lir,
        cc: Cc::read(b"DE").unwrap(),
        name: Text::read(b"A").unwrap(),
        email: Text::read(b"a@a.example").unwrap(),
    }
}

fn org(day: u32) -> Object {
    let holder = holder();
    Object::Org { holder, day }
}

fn sub() -> Object {
    Object::Sub {
        range: Range::between(Space::Ipv4, 16, 31),
        handle: holder().handle,
        day: 5,
    }
}

fn servers() -> Servers {
    let hosts = [
        Host::read(b"ns1.a.example").unwrap(),
        Host::read(b"ns2.a.example").unwrap(),
    ];
    Servers::new(&hosts).unwrap()
}

fn cut() -> Object {
    Object::Cut {
        block: piece().range,
        servers: servers(),
    }
}

fn piece() -> Piece {
    Piece {
        range: Range::between(Space::Ipv4, 0, 255),
        card: Card {
            status: Status::Reserved,
            holder: None,
            day: 6,
            until: 0,
        },
    }
}

fn block() -> Object {
    Object::Block {
        range: Range::between(Space::Ipv4, 0, 255),
        status: Status::Reserved,
        handle: None,
        day: 6,
        until: 0,
    }
}

fn op(serial: u64, act: Act, object: Object) -> Op {
    Op {
        serial,
        act,
        object,
    }
}

/// Whether of five operations the last four are kept.
fn keeps_the_last(window: &mut OpWindow) -> bool
    requires { window.old.serial + 6 < 2 ^ 64 }
{
    let begins = window.serials() == (1, 0) && window.at(0).is_none();
    window.note_org(Act::Add, &holder(), 4);
    window.note_sub(
        Act::Add,
        Range::between(Space::Ipv4, 16, 31),
        holder().handle,
        5,
    );
    window.note_block(Act::Add, &piece(), None);
    window.note_cut(Act::Del, piece().range, &servers());
    window.note_org(Act::Add, &holder(), 7);
    let serials = window.serials();
    let kept = [
        window.at(0),
        window.at(1),
        window.at(2),
        window.at(3),
        window.at(4),
    ];
    let wanted = [
        Some(op(2, Act::Add, sub())),
        Some(op(3, Act::Add, block())),
        Some(op(4, Act::Del, cut())),
        Some(op(5, Act::Add, org(7))),
        None,
    ];
    begins && serials == (2, 5) && kept == wanted
}

fn has_the_last(alloc: Global) -> Result<bool, AllocError> {
    let mut window = OpWindow::with_window(alloc, 4)?;
    Ok(keeps_the_last(&mut window))
}

#[test]
fn the_last_operations_are_kept(rt: HostRuntime) -> Result<(), Fail> {
    assert!(rt; has_the_last(rt.alloc())?);
    Ok(())
}
