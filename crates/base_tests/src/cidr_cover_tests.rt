ghost use Rattle.std.specs.Prelude.{◌≡◌, IfOk};
ghost use Rattle.num_range.specs.Cover.{least_cover, reverse_cuts};

use cidr_cover::{cover, cuts};
use num_range::{Range, Space, block};
use std::alloc::{AllocError, Global};
use std::test::Fail;

// A chain over a walk knows its items.
fn cover_blocks(alloc: Global, r: Range) -> Result<Vec<Range>, AllocError>
    ensures { IfOk result (λ blocks. blocks.items ≡ least_cover r) }
{
    cover(r).collect(alloc)
}

// So does a loop.
fn cut_blocks(alloc: Global, r: Range) -> Result<Vec<Range>, AllocError>
    ensures { IfOk result (λ blocks. blocks.items ≡ reverse_cuts r) }
{
    let mut blocks = Vec::new(alloc);
    for block in cuts(r) {
        blocks.push(block)?;
    }
    Ok(blocks)
}

/// A range by its first and last number, and its blocks by start and length.
type Row = (Space, u128, u128, &'static [(u128, u32)]);

const BELOW_48: u128 = (1 << 80) - 1;

// 2001:db8::/32 with 2001:db8:1:: to 2001:db8:3:ffff:ffff:ffff:ffff:ffff taken out, that part itself, one number, and
// ranges at the ends of the spaces.
const COVERS: [Row; 9] = [
    (
        Space::Ipv6,
        0x2001_0db8_0000 << 80,
        (0x2001_0db8_0000 << 80) + BELOW_48,
        &[(0x2001_0db8_0000 << 80, 48)],
    ),
    (
        Space::Ipv6,
        0x2001_0db8_0001 << 80,
        (0x2001_0db8_0003 << 80) + BELOW_48,
        &[(0x2001_0db8_0001 << 80, 48), (0x2001_0db8_0002 << 80, 47)],
    ),
    (
        Space::Ipv6,
        0x2001_0db8_0004 << 80,
        (0x2001_0db8_ffff << 80) + BELOW_48,
        &[
            (0x2001_0db8_0004 << 80, 46),
            (0x2001_0db8_0008 << 80, 45),
            (0x2001_0db8_0010 << 80, 44),
            (0x2001_0db8_0020 << 80, 43),
            (0x2001_0db8_0040 << 80, 42),
            (0x2001_0db8_0080 << 80, 41),
            (0x2001_0db8_0100 << 80, 40),
            (0x2001_0db8_0200 << 80, 39),
            (0x2001_0db8_0400 << 80, 38),
            (0x2001_0db8_0800 << 80, 37),
            (0x2001_0db8_1000 << 80, 36),
            (0x2001_0db8_2000 << 80, 35),
            (0x2001_0db8_4000 << 80, 34),
            (0x2001_0db8_8000 << 80, 33),
        ],
    ),
    (Space::Ipv4, 0xc000_0201, 0xc000_0201, &[(0xc000_0201, 32)]),
    (Space::Ipv4, 0, 0xffff_ffff, &[(0, 0)]),
    (
        Space::Ipv4,
        0xffff_fffd,
        0xffff_ffff,
        &[(0xffff_fffd, 32), (0xffff_fffe, 31)],
    ),
    (Space::Asn, 64495, 64511, &[(64495, 32), (64496, 28)]),
    (Space::Ipv6, 0, u128::MAX, &[(0, 0)]),
    (
        Space::Ipv6,
        u128::MAX - 2,
        u128::MAX,
        &[(u128::MAX - 2, 128), (u128::MAX - 1, 127)],
    ),
];

// 2001:db8::/32, half of its first /64, a /22, a /26, a /15, 198.51.254.1 to 198.53.0.255, and the ends of the spaces.
const CUTS: [Row; 10] = [
    (
        Space::Ipv6,
        0x2001_0db8_0000 << 80,
        (0x2001_0db8_ffff << 80) + BELOW_48,
        &[(0x2001_0db8_0000 << 80, 32)],
    ),
    (
        Space::Ipv6,
        0x2001_0db8_0000 << 80,
        (0x2001_0db8_0000 << 80) + (1 << 63) - 1,
        &[],
    ),
    (
        Space::Ipv4,
        0xc633_6400,
        0xc633_67ff,
        &[
            (0xc633_6400, 24),
            (0xc633_6500, 24),
            (0xc633_6600, 24),
            (0xc633_6700, 24),
        ],
    ),
    (Space::Ipv4, 0xc000_0240, 0xc000_027f, &[]),
    (
        Space::Ipv4,
        0xc612_0000,
        0xc613_ffff,
        &[(0xc612_0000, 16), (0xc613_0000, 16)],
    ),
    (
        Space::Ipv4,
        0xc633_fe01,
        0xc635_00ff,
        &[(0xc633_ff00, 24), (0xc634_0000, 16), (0xc635_0000, 24)],
    ),
    (
        Space::Ipv4,
        0xffff_fdff,
        0xffff_ffff,
        &[(0xffff_fe00, 24), (0xffff_ff00, 24)],
    ),
    (
        Space::Ipv6,
        u128::MAX - (1 << 65),
        u128::MAX,
        &[
            (u128::MAX - u64::MAX as u128 - (1 << 64), 64),
            (u128::MAX - u64::MAX as u128, 64),
        ],
    ),
    (Space::Ipv6, u128::MAX, u128::MAX, &[]),
    (Space::Asn, 0, 0xffff_ffff, &[]),
];

fn expected(alloc: Global, space: Space, blocks: &[(u128, u32)]) -> Result<Vec<Range>, Fail> {
    let mut ranges = Vec::new(alloc);
    for (start, len) in blocks {
        ranges.push(block(space, *start, *len).ok_or("a block")?)?;
    }
    Ok(ranges)
}

#[test]
fn walks_covers(rt: HostRuntime) -> Result<(), Fail> {
    for (space, first, last, blocks) in COVERS {
        let r = Range::new(space, first, last).ok_or("a range")?;
        let found = cover_blocks(rt.alloc(), r)?;
        let wanted = expected(rt.alloc(), space, blocks)?;
        assert_eq!(rt; found.as_slice(), wanted.as_slice(), "cover of {r:?}");
    }
    Ok(())
}

#[test]
fn walks_cuts(rt: HostRuntime) -> Result<(), Fail> {
    for (space, first, last, blocks) in CUTS {
        let r = Range::new(space, first, last).ok_or("a range")?;
        let found = cut_blocks(rt.alloc(), r)?;
        let wanted = expected(rt.alloc(), space, blocks)?;
        assert_eq!(rt; found.as_slice(), wanted.as_slice(), "cuts of {r:?}");
    }
    Ok(())
}
