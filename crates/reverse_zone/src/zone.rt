//! The cuts of a zone, and the zone as a whole.
ghost use Rattle.std.specs.Prelude.{◌≡◌, ◌++◌, true, OnOk, IfOk};
ghost use Rattle.std.specs.List.{flat_map};
ghost use Rattle.num_range.specs.Range.{ranges_meet};
ghost use Rattle.reverse_zone.specs.Apex.{IsApex, apex_range};
ghost use Rattle.reverse_zone.specs.Part.{part_inside};
ghost use Rattle.reverse_zone.specs.Zone.{cuts_in, cut_lines, zone_text};

use crate::Apex;
use crate::lines::{append_cut, append_head};
use board::{Board, Body};
use cidr_cover::cuts;
use cidr_cover::laws::cuts_are_widest;
use num_range::Range;
use num_range::laws::tests_are_relations;
use reg_entry::{Servers, ZoneTerms};
use std::alloc::{AllocError, Global};
use sub_book::RangeBook;

/// The part of the range that lies in the other, which it meets.
fn part_inside(range: &Range, outer: &Range) -> Range
    requires { ranges_meet range.now outer.now ≡ true }
    ensures { result ≡ part_inside range.now outer.now }
{
    let (first, last) = (range.first(), range.last());
    Range::between(
        range.space(),
        first.max(outer.first()),
        last.min(outer.last()),
    )
}

/// Appends the lines of a range's cuts that lie in the zone. Only the part of the range that lies there is cut.
fn append_cuts(
    apex: Apex,
    range: &Range,
    servers: &Servers,
    body: &mut Body,
) -> Result<(), AllocError>
    requires apex { IsApex apex }
    requires met { ranges_meet range.now (apex_range apex) ≡ true }
    ensures { OnOk result (body.new ≡ body.old ++ flat_map cut_lines (cuts_in apex (range.now, servers.now))) }
{
    // Laws: no cut lies across the end of a zone.
    cuts_are_widest();
    tests_are_relations();
    for cut in cuts(part_inside(range, &apex.range())) {
        append_cut(&cut, servers, body)?;
    }
    Ok(())
}

/// Appends the lines of all reverse entries' cuts that lie in the zone. Entries that have no number there aren't looked at.
fn append_entries(
    apex: Apex,
    reverses: &RangeBook<Servers>,
    body: &mut Body,
) -> Result<(), AllocError>
    requires { IsApex apex }
    ensures { OnOk result (body.new ≡ body.old ++ flat_map cut_lines (flat_map (cuts_in apex) reverses.now.ranges)) }
{
    // Laws: an entry without numbers in the zone has no cuts there.
    cuts_are_widest();
    tests_are_relations();
    for (range, servers) in reverses.walk(&apex.range()) {
        append_cuts(apex, &range, &servers, body)?;
    }
    Ok(())
}

/// The zone of the apex as a master file (RFC 1035 5), in one pass over the reverse entries that have a number there. It
/// takes memory for the text alone, which grows as `Body::append` says; without that it fails.
pub fn write_zone(
    alloc: Global,
    board: &Board,
    terms: &ZoneTerms,
    apex: Apex,
) -> Result<Body, AllocError>
    requires { IsApex apex }
    ensures { IfOk result (λ body. body ≡ zone_text board.now.register terms.now apex) }
{
    let mut body = Body::new(alloc);
    append_head(apex, board.entries(), terms, &mut body)?;
    append_entries(apex, board.reverse(), &mut body)?;
    Ok(body)
}
