//! Requests of three seeds, worked out from the rule apart from the program.
use load_gen::{Draws, FIRST_DAY, opening_request};
use num_range::{Range, Space};
use reg_entry::{Delegation, Handle, Request};
use std::test::Fail;

fn handle(bytes: &[u8]) -> Result<Handle, Fail> {
    Ok(Handle::read(bytes).ok_or("a handle")?)
}

#[test]
fn first_requests(rt: HostRuntime) -> Result<(), Fail> {
    let piece = Range::between(Space::Ipv4, 0x0a00_0000, 0x0aff_ffff);
    let delegate = Request::Delegate {
        space: Space::Ipv4,
        amount: 21,
        status: Delegation::Allocate,
        handle: handle(b"ORG-L6")?,
    };
    let transfer = Request::Transfer {
        range: piece,
        from: handle(b"ORG-L7")?,
        to: handle(b"ORG-L6")?,
    };
    let give_back = Request::Return {
        range: piece,
        handle: handle(b"ORG-L0")?,
    };
    let rows = [
        (1, delegate, 0x0a00_aedf),
        (0, transfer, 0x0a00_0af6),
        (u64::MAX, give_back, 0x0a03_670e),
    ];
    for (seed, request, at) in rows {
        let draw = Draws::new(seed).next();
        assert!(rt; draw.request(piece) == request, "of seed {seed}");
        assert!(rt; draw.at().value() == at, "address of seed {seed}");
        assert!(rt; draw.day() == FIRST_DAY, "day of seed {seed}");
    }
    let numbers = Request::Receive {
        range: Range::between(Space::Asn, 64512, 65534),
    };
    assert!(rt; opening_request(2) == numbers);
    Ok(())
}
