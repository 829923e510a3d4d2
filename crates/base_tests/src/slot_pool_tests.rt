use slot_pool::Pool;
use std::test::Fail;

/// Whether two places are taken, and one of them is given back and taken again, each with its own value.
fn are_taken_in_turn(pool: &mut Pool<u64>) -> Option<bool> {
    let at_first = pool.spare();
    let first = pool.take(7).ok()?;
    let second = pool.take(8).ok()?;
    let refused = match pool.take(9) {
        Ok(_) => return Some(false),
        Err(value) => value,
    };
    let with_two = pool.spare();
    *pool.get_mut(&second) += 10;
    let lent = *pool.get(&first);
    let given = pool.give(&first);
    let with_one = pool.spare();
    let kept = *pool.get(&second);
    let third = pool.take(9).ok()?;
    let taken = *pool.get(&third);
    Some(
        (at_first, with_two, with_one) == (2, 0, 1)
            && refused == 9
            && (lent, given, kept, taken) == (7, 7, 18, 9),
    )
}

#[test]
fn two_places(rt: HostRuntime) -> Result<(), Fail> {
    let mut pool = Pool::with_room(rt.alloc(), 2)?;
    let goes_well = are_taken_in_turn(&mut pool);
    assert_eq!(rt; goes_well, Some(true));
    Ok(())
}
