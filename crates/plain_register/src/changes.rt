//! How many changes lead from one register to the next: each object is looked up in the other register.
ghost use Rattle.std.specs.Prelude.{◌≡◌, ◌-◌, ◌^◌, ◌≤◌, min, map, find, length};
ghost use Rattle.std.specs.Option.{option_eq, option_or};
ghost use Rattle.std.specs.Str.{bytes_eq};
ghost use Rattle.std.specs.List.{list_any, flat_map};
ghost use Rattle.num_range.specs.Range.{same_range};
ghost use Rattle.num_range.specs.Cover.{reverse_cuts};
ghost use Rattle.reg_entry.specs.declared.object.Act.TheVariants.{Add, Del};
ghost use Rattle.reg_entry.specs.declared.object.Object.TheVariants.{Cut};
ghost use Rattle.reg_entry.specs.Holders.{has_handle, handle_at, handle_of};
ghost use Rattle.reg_entry.specs.Objects.{same_holder, same_object, org_of, block_of_piece, blocks_of, sub_of, cuts_of, objects_of, changes_between};
ghost use Rattle.plain_register.specs.Changes.{counts, compared, changed_count, piece_as, found_cut};

use crate::PlainRegister;
use cidr_cover::cuts;
use num_range::{Range, Space};
use reg_entry::{Act, Handle, Holder, Piece, Servers, SubCard};

/// Whether an object counts, by whether the other register has it, or another one of its key.
fn counts(act: Act, same: Option<bool>) -> bool
    ensures { result ≡ counts act same }
{
    match (act, same) {
        (_, None) => true,
        (Act::Add, Some(same)) => !same,
        (Act::Del, Some(_)) => false,
    }
}

// ---- what is the same

fn same_holder(a: &Holder, b: &Holder) -> bool
    ensures { result ≡ same_holder a.now b.now }
{
    a == b
}

/// The bytes of the handle of the holder with this number, or none where there is none.
fn handle_at(holders: &[(Holder, u32)], number: u32) -> &[u8]
    ensures { result.now ≡ handle_at holders.now number }
{
    match holders.get(number as usize) {
        Some(member) => member.0.handle.bytes(),
        None => &[],
    }
}

fn same_handle(
    holders: &[(Holder, u32)],
    holder: Option<u32>,
    others: &[(Holder, u32)],
    other: Option<u32>,
) -> bool
    ensures { result ≡ option_eq bytes_eq (handle_of holders.now holder) (handle_of others.now other) }
{
    match (holder, other) {
        (Some(holder), Some(other)) => handle_at(holders, holder) == handle_at(others, other),
        (None, None) => true,
        _ => false,
    }
}

fn same_block(
    holders: &[(Holder, u32)],
    piece: &Piece,
    others: &[(Holder, u32)],
    other: &Piece,
) -> bool
    ensures { result ≡ same_object (block_of_piece holders.now piece.now) (block_of_piece others.now other.now) }
{
    let (a, b) = (&piece.card, &other.card);
    piece.range == other.range
        && a.status == b.status
        && same_handle(holders, a.holder, others, b.holder)
        && a.day == b.day
        && a.until == b.until
}

fn same_sub(
    holders: &[(Holder, u32)],
    sub: &(Range, SubCard),
    others: &[(Holder, u32)],
    other: &(Range, SubCard),
) -> bool
    ensures { result ≡ same_object (sub_of holders.now sub.now) (sub_of others.now other.now) }
{
    sub.0 == other.0
        && handle_at(holders, sub.1.holder) == handle_at(others, other.1.holder)
        && sub.1.day == other.1.day
}

// ---- looked up

fn find_holder(holders: &[(Holder, u32)], handle: &Handle) -> Option<(Holder, u32)>
    ensures { result ≡ find (has_handle handle.now) holders.now }
{
    for member in holders {
        if member.0.handle == *handle {
            return Some(*member);
        }
    }
    None
}

fn find_piece(pieces: &[Piece], range: &Range) -> Option<Piece>
    ensures { result ≡ piece_as pieces.now range.now }
{
    for piece in pieces {
        if piece.range == *range {
            return Some(*piece);
        }
    }
    None
}

fn find_sub(subs: &[(Range, SubCard)], range: &Range) -> Option<(Range, SubCard)>
    ensures { result ≡ find (λ s. same_range s.0 range.now) subs.now }
{
    for sub in subs {
        if sub.0 == *range {
            return Some(*sub);
        }
    }
    None
}

/// The block is one of those at which the range's reverse zones are cut.
fn has_cut(range: &Range, block: &Range) -> bool
    ensures { result ≡ list_any (λ c. same_range c block.now) (reverse_cuts range.now) }
{
    for cut in cuts(*range) {
        if cut == *block {
            return true;
        }
    }
    false
}

fn find_cut(reverses: &[(Range, Servers)], block: &Range) -> Option<Servers>
    ensures { result ≡ found_cut reverses.now block.now }
{
    for entry in reverses {
        if has_cut(&entry.0, block) {
            return Some(entry.1);
        }
    }
    None
}

// ---- compared with what a register has

impl PlainRegister {
    #[tactic(auto, using(crate::proofs::Counting::compared_org))]
    fn compare_org(&self, member: &(Holder, u32)) -> Option<bool>
        ensures { result ≡ compared (objects_of self.now) (org_of member.now) }
    {
        self.is_whole();
        let other = find_holder(&self.holders, &member.0.handle)?;
        Some(same_holder(&member.0, &other.0) && member.1 == other.1)
    }

    /// The piece of this very range.
    fn find_block(&self, range: &Range) -> Option<Piece>
        ensures { result ≡ option_or (piece_as self.now.pool.asn range.now)
            (option_or (piece_as self.now.pool.ipv4 range.now) (piece_as self.now.pool.ipv6 range.now)) }
    {
        find_piece(self.pool.in_space(Space::Asn), range).or_else(|| {
            find_piece(self.pool.in_space(Space::Ipv4), range).or_else(|| find_piece(
                self.pool.in_space(Space::Ipv6),
                range,
            ))
        })
    }

    #[tactic(auto, using(crate::proofs::Counting::compared_block))]
    fn compare_block(&self, holders: &[(Holder, u32)], piece: &Piece) -> Option<bool>
        ensures { result ≡ compared (objects_of self.now) (block_of_piece holders.now piece.now) }
    {
        let other = self.find_block(&piece.range)?;
        Some(same_block(holders, piece, &self.holders, &other))
    }

    #[tactic(auto, using(crate::proofs::Counting::compared_sub))]
    fn compare_sub(&self, holders: &[(Holder, u32)], sub: &(Range, SubCard)) -> Option<bool>
        ensures { result ≡ compared (objects_of self.now) (sub_of holders.now sub.now) }
    {
        let other = find_sub(&self.subs, &sub.0)?;
        Some(same_sub(holders, sub, &self.holders, &other))
    }

    #[tactic(auto, using(crate::proofs::Counting::compared_cut))]
    fn compare_cut(&self, block: &Range, servers: &Servers) -> Option<bool>
        ensures { result ≡ compared (objects_of self.now) (Cut block.now servers.now) }
    {
        let other = find_cut(&self.reverses, block)?;
        Some(*servers == other)
    }
}

// ---- counted

fn count_orgs(act: Act, others: &PlainRegister, holders: &[(Holder, u32)]) -> u64
    ensures count { result ≡ changed_count act (objects_of others.now) (map org_of holders.now) }
    ensures bound { result ≤ length holders.now }
{
    let mut count = 0;
    for member in holders {
        if counts(act, others.compare_org(member)) {
            count += 1;
        }
    }
    count
}

fn count_blocks(
    act: Act,
    others: &PlainRegister,
    holders: &[(Holder, u32)],
    pieces: &[Piece],
) -> u64
    ensures count { result ≡ changed_count act (objects_of others.now) (blocks_of holders.now pieces.now) }
    ensures bound { result ≤ length pieces.now }
{
    let mut count = 0;
    for piece in pieces {
        if counts(act, others.compare_block(holders, piece)) {
            count += 1;
        }
    }
    count
}

fn count_subs(
    act: Act,
    others: &PlainRegister,
    holders: &[(Holder, u32)],
    subs: &[(Range, SubCard)],
) -> u64
    ensures count { result ≡ changed_count act (objects_of others.now) (map (sub_of holders.now) subs.now) }
    ensures bound { result ≤ length subs.now }
{
    let mut count = 0;
    for sub in subs {
        if counts(act, others.compare_sub(holders, sub)) {
            count += 1;
        }
    }
    count
}

/// The cuts of one reverse entry that count, or the greatest number of the type where there would be more.
fn count_cuts_of(act: Act, others: &PlainRegister, entry: &(Range, Servers)) -> u64
    ensures { result ≡ min (changed_count act (objects_of others.now) (cuts_of entry.now)) (2 ^ 64 - 1) }
{
    let mut count: u64 = 0;
    for block in cuts(entry.0) {
        if counts(act, others.compare_cut(&block, &entry.1)) {
            count = count.saturating_add(1);
        }
    }
    count
}

fn count_cuts(act: Act, others: &PlainRegister, reverses: &[(Range, Servers)]) -> u64
    ensures { result ≡ min (changed_count act (objects_of others.now) (flat_map cuts_of reverses.now)) (2 ^ 64 - 1) }
{
    let mut count: u64 = 0;
    for entry in reverses {
        count = count.saturating_add(count_cuts_of(act, others, entry));
    }
    count
}

impl PlainRegister {
    /// How many objects of the register count, compared with those of another, or the greatest number of the type where
    /// there would be more.
    #[tactic(auto, using(crate::proofs::Counting::all_count))]
    fn changed(&self, act: Act, others: &PlainRegister) -> u64
        ensures { result ≡ min (changed_count act (objects_of others.now) (objects_of self.now)) (2 ^ 64 - 1) }
    {
        self.is_whole();
        let holders = &self.holders;
        let orgs = count_orgs(act, others, holders);
        let asn = count_blocks(act, others, holders, self.pool.in_space(Space::Asn));
        let ipv4 = count_blocks(act, others, holders, self.pool.in_space(Space::Ipv4));
        let ipv6 = count_blocks(act, others, holders, self.pool.in_space(Space::Ipv6));
        let subs = count_subs(act, others, holders, &self.subs);
        let cuts = count_cuts(act, others, &self.reverses);
        orgs.saturating_add(asn)
            .saturating_add(ipv4)
            .saturating_add(ipv6)
            .saturating_add(subs)
            .saturating_add(cuts)
    }

    /// How many changes lead from the objects of the register to those of the next one, or the greatest number of the type
    /// where there would be more.
    #[tactic(auto, using(crate::proofs::Counting::counted_changes))]
    pub fn changes_to(&self, after: &PlainRegister) -> u64
        ensures { result ≡ min (length (changes_between (objects_of self.now) (objects_of after.now))) (2 ^ 64 - 1) }
    {
        let gone = self.changed(Act::Del, after);
        let come = after.changed(Act::Add, self);
        gone.saturating_add(come)
    }
}
