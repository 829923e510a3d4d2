//! Blocks of RFC 5737, RFC 3849 and RFC 5398, and the ends of the spaces.
use num_range::{Number, Range, Space, block, masked};
use std::test::Fail;

#[test]
fn blocks_of_the_standards(rt: HostRuntime) -> Result<(), Fail> {
    let documentation: u128 = 0x2001_0db8 << 96;
    let rows = [
        (Space::Ipv4, 0xc000_0200, 24, Some(0xc000_02ff)),
        (Space::Ipv4, 0xc000_0201, 24, None),
        (Space::Ipv4, 0, 0, Some(0xffff_ffff)),
        (Space::Ipv4, 0xffff_ffff, 32, Some(0xffff_ffff)),
        (Space::Ipv4, 0, 33, None),
        (Space::Ipv4, 0x1_0000_0000, 32, None),
        (Space::Asn, 64496, 28, Some(64511)),
        (
            Space::Ipv6,
            documentation,
            32,
            Some(documentation + u32::MAX as u128 * (1 << 64) + u64::MAX as u128),
        ),
        (Space::Ipv6, 0, 0, Some(u128::MAX)),
        (Space::Ipv6, 1, 0, None),
    ];
    for (space, start, len, last) in rows {
        assert_eq!(rt;
            block(space, start, len).map(|b| b.last()),
            last,
            "at {start}/{len}"
        );
    }
    let host = Number::new(Space::Ipv4, 0xc000_024d).ok_or("an address")?;
    assert_eq!(rt;
        masked(host, 26),
        Range::between(Space::Ipv4, 0xc000_0240, 0xc000_027f)
    );
    assert_eq!(rt; masked(host, 0).size(), 1 << 32);
    Ok(())
}
