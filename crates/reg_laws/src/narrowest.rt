//! The narrowest registration round a range.
ghost use Rattle.std.specs.Prelude.{◌≡◌, find};
ghost use Rattle.num_range.specs.Range.{PlainRange, IsRange};
ghost use Rattle.reg_entry.specs.Ranges.{lies_inside};
ghost use Rattle.reg_entry.specs.Register.{Register, piece_of};
ghost use Rattle.reg_entry.specs.Covers.{first_number};
ghost use Rattle.reg_entry.specs.Sums.{narrowest};
ghost use Rattle.reg_entry.specs.Whole.{IsWholeRegister};
ghost use Rattle.reg_laws.specs.Narrowest.{IsNarrowest, looked_up};

/// What is found round a range is a delegated piece or a sub that has all of its numbers, and none is smaller; of one size
/// it is a sub where there is one. Nothing is found only where nothing has all of them (RFC 9082 3.1.1).
pub fn narrowest_is_least()
    ensures { (r : Register) (range : PlainRange) → IsNarrowest r range (narrowest r range) }
{}

/// In a whole register two look-ups find it: one of the sub that the range lies inside, and one of the piece that holds the
/// range's first number.
pub fn narrowest_is_looked_up()
    ensures { (r : Register) (range : PlainRange) → IsWholeRegister r → IsRange range
        → narrowest r range ≡ looked_up range (find (λ s. lies_inside range s.0) r.subs) (piece_of r.pool (first_number range)) }
{}
