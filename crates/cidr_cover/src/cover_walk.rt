ghost use Rattle.std.specs.Prelude.{◌≡◌};
ghost use Rattle.std.specs.Iterator.{YieldsFirst, item_count};
ghost use Rattle.num_range.specs.Cover.{least_cover};

use crate::front::{front_length, split_front};
use num_range::Range;
use std::marker::Model;

/// The blocks of a range's least cover that are left, rising.
#[derive(Drop)]
pub struct CoverWalk {
    rest: Option<Range>,
}

impl Model for CoverWalk {
    ghost use Rattle.std.specs.Prelude.{List, []};
    ghost use Rattle.std.specs.Option.{option_map_or};
    ghost use Rattle.num_range.specs.Range.{PlainRange};
    ghost use Rattle.num_range.specs.Cover.{least_cover};

    ghost Value = { List PlainRange };

    ghost view = { λ walk. option_map_or least_cover walk.rest [] };
}

/// Walks the least list of blocks that hold exactly the range's numbers, rising (RFC 4632 3.1).
pub fn cover(r: Range) -> CoverWalk
    ensures { result ≡ least_cover r }
{
    CoverWalk { rest: Some(r) }
}

impl Iterator for CoverWalk {
    type Item = Range;

    ghost next_gives = { YieldsFirst (λ left. left) };

    ghost remaining = { item_count (λ left. left) };

    fn next(&mut self) -> Option<Range> {
        let rest = self.rest?;
        let (block, behind) = split_front(&rest, front_length(&rest));
        self.rest = behind;
        Some(block)
    }
}
