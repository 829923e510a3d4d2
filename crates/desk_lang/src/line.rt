//! What a line asks for.
ghost use Rattle.std.specs.Prelude.{◌≡◌, ◌∷◌, [], ◌&&◌, nat_lt, ◌≤◌, IfOk};
ghost use Rattle.std.specs.Option.{is_some};
ghost use Rattle.desk_lang.specs.Words.{first_word};
ghost use Rattle.reg_entry.specs.Days.{last_date};
ghost use Rattle.desk_lang.specs.declared.verb.Verb.TheVariants as verbs;
ghost use Rattle.desk_lang.specs.Grammar.{range_line, number_line, range_and_handle, holder_line, day_line, by_line, more_hosts, line_of_verb, is_comment, line_of, IsSizedLine, IsDatedLine};

use crate::rest::{Malformed, Rest};
use crate::verb::{Verb, read_verb};
use num_range::{Number, Range};
use reg_entry::{Handle, Holder, Host, Name, Request, SERVER_ROOM, Servers};

/// How many bytes of a line are read, without its line end.
pub const LINE_ROOM: usize = 1024;

/// A line of the desk language.
#[derive(Clone, Copy)]
pub enum Line {
    Request(Request),
    /// What is known of a number?
    Show(Number),
    /// Which pieces' quarantine is over?
    Due,
    /// It is this day from now on.
    Day(u32),
    /// This hostmaster asks from now on.
    By(Name),
    /// A comment, or a line without words.
    Nothing,
}

/// What stands behind `receive`, and behind the other words that a range follows.
#[tactic(auto, unfolding(crate::specs::Grammar::range_line))]
fn range_line(rest: &Rest<'_>) -> Result<Range, Malformed>
    ensures { result ≡ range_line rest.now }
{
    let (range, rest) = rest.range()?;
    rest.end()?;
    Ok(range)
}

#[tactic(auto, unfolding(crate::specs::Grammar::number_line))]
fn number_line(rest: &Rest<'_>) -> Result<Number, Malformed>
    ensures { result ≡ number_line rest.now }
{
    let (number, rest) = rest.number()?;
    rest.end()?;
    Ok(number)
}

#[tactic(auto, unfolding(crate::specs::Grammar::range_and_handle))]
fn range_and_handle(rest: &Rest<'_>) -> Result<(Range, Handle), Malformed>
    ensures { result ≡ range_and_handle rest.now }
{
    let (range, rest) = rest.range()?;
    let (handle, rest) = rest.handle()?;
    rest.end()?;
    Ok((range, handle))
}

#[tactic(auto, unfolding(crate::specs::Grammar::holder_line))]
fn holder_line(rest: &Rest<'_>) -> Result<Holder, Malformed>
    ensures { result ≡ holder_line rest.now }
{
    let (handle, rest) = rest.handle()?;
    let (kind, rest) = rest.kind()?;
    let (cc, rest) = rest.cc()?;
    let (name, rest) = rest.text()?;
    let (email, rest) = rest.text()?;
    rest.end()?;
    Ok(Holder {
        handle,
        kind,
        cc,
        name,
        email,
    })
}

// A function fills the room of all its values when it is entered, and requests are large. So what stands behind each verb is
// read by a function of its own, which makes the whole line.

#[inline(never)]
fn add_holder_line(rest: &Rest<'_>) -> Result<Line, Malformed>
    ensures value { result ≡ line_of_verb verbs.Holder rest.now }
    ensures sized { IfOk result IsSizedLine }
    ensures dated { IfOk result IsDatedLine }
{
    let holder = holder_line(rest)?;
    Ok(Line::Request(Request::AddHolder { holder }))
}

#[inline(never)]
fn edit_holder_line(rest: &Rest<'_>) -> Result<Line, Malformed>
    ensures value { result ≡ line_of_verb verbs.Edit rest.now }
    ensures sized { IfOk result IsSizedLine }
    ensures dated { IfOk result IsDatedLine }
{
    let holder = holder_line(rest)?;
    Ok(Line::Request(Request::EditHolder { holder }))
}

#[inline(never)]
#[tactic(auto, unfolding(crate::specs::Grammar::delegate_line))]
fn delegate_line(rest: &Rest<'_>) -> Result<Line, Malformed>
    ensures value { result ≡ line_of_verb verbs.Delegate rest.now }
    ensures sized { IfOk result IsSizedLine }
    ensures dated { IfOk result IsDatedLine }
{
    let (space, rest) = rest.space()?;
    let (amount, rest) = rest.amount(space)?;
    let (status, rest) = rest.delegation()?;
    let (handle, rest) = rest.handle()?;
    rest.end()?;
    Ok(Line::Request(Request::Delegate {
        space,
        amount,
        status,
        handle,
    }))
}

#[inline(never)]
#[tactic(auto, unfolding(crate::specs::Grammar::transfer_line))]
fn transfer_line(rest: &Rest<'_>) -> Result<Line, Malformed>
    ensures value { result ≡ line_of_verb verbs.Transfer rest.now }
    ensures sized { IfOk result IsSizedLine }
    ensures dated { IfOk result IsDatedLine }
{
    let (range, rest) = rest.range()?;
    let (from, rest) = rest.handle()?;
    let (to, rest) = rest.handle()?;
    rest.end()?;
    Ok(Line::Request(Request::Transfer { range, from, to }))
}

#[tactic(auto, unfolding(crate::specs::Grammar::day_line))]
fn day_line(rest: &Rest<'_>) -> Result<u32, Malformed>
    ensures value { result ≡ day_line rest.now }
    ensures dated { IfOk result (λ day. (1 ≤ day) × (day ≤ last_date)) }
{
    let (day, rest) = rest.day()?;
    rest.end()?;
    Ok(day)
}

#[tactic(auto, unfolding(crate::specs::Grammar::by_line))]
fn by_line(rest: &Rest<'_>) -> Result<Name, Malformed>
    ensures { result ≡ by_line rest.now }
{
    let (name, rest) = rest.name()?;
    rest.end()?;
    Ok(name)
}

/// Whether a host more may come, and something does.
fn has_more(len: usize, rest: &Rest<'_>) -> bool
    ensures { result ≡ (nat_lt len 4 && is_some (first_word rest.now)) }
{
    len < SERVER_ROOM && rest.first_word().is_some()
}

/// The hosts behind the first, up to the end of the line.
fn more_hosts(first: Host, rest: Rest<'_>) -> Result<Servers, Malformed>
    ensures { result ≡ more_hosts 3 (first ∷ []) rest.entry }
{
    let mut hosts = [first; SERVER_ROOM];
    let mut len = 1;
    let mut rest = rest;
    'hosts: while has_more(len, &rest) {
        let (host, behind) = rest.host()?;
        hosts[len] = host;
        len += 1;
        rest = behind;
    }
    rest.end()?;
    Ok(Servers::new(&hosts[..len]).unwrap())
}

#[inline(never)]
#[tactic(auto, unfolding(crate::specs::Grammar::reverse_line))]
fn reverse_line(rest: &Rest<'_>) -> Result<Line, Malformed>
    ensures value { result ≡ line_of_verb verbs.Reverse rest.now }
    ensures sized { IfOk result IsSizedLine }
    ensures dated { IfOk result IsDatedLine }
{
    let (range, rest) = rest.range()?;
    let (host, rest) = rest.host()?;
    let servers = more_hosts(host, rest)?;
    Ok(Line::Request(Request::SetReverse { range, servers }))
}

#[inline(never)]
fn receive_line(rest: &Rest<'_>) -> Result<Line, Malformed>
    ensures value { result ≡ line_of_verb verbs.Receive rest.now }
    ensures sized { IfOk result IsSizedLine }
    ensures dated { IfOk result IsDatedLine }
{
    let range = range_line(rest)?;
    Ok(Line::Request(Request::Receive { range }))
}

#[inline(never)]
fn reserve_line(rest: &Rest<'_>) -> Result<Line, Malformed>
    ensures value { result ≡ line_of_verb verbs.Reserve rest.now }
    ensures sized { IfOk result IsSizedLine }
    ensures dated { IfOk result IsDatedLine }
{
    let range = range_line(rest)?;
    Ok(Line::Request(Request::Reserve { range }))
}

#[inline(never)]
fn unreserve_line(rest: &Rest<'_>) -> Result<Line, Malformed>
    ensures value { result ≡ line_of_verb verbs.Unreserve rest.now }
    ensures sized { IfOk result IsSizedLine }
    ensures dated { IfOk result IsDatedLine }
{
    let range = range_line(rest)?;
    Ok(Line::Request(Request::Unreserve { range }))
}

#[inline(never)]
fn sub_line(rest: &Rest<'_>) -> Result<Line, Malformed>
    ensures value { result ≡ line_of_verb verbs.Sub rest.now }
    ensures sized { IfOk result IsSizedLine }
    ensures dated { IfOk result IsDatedLine }
{
    let (range, handle) = range_and_handle(rest)?;
    Ok(Line::Request(Request::SubAssign { range, handle }))
}

#[inline(never)]
fn unsub_line(rest: &Rest<'_>) -> Result<Line, Malformed>
    ensures value { result ≡ line_of_verb verbs.Unsub rest.now }
    ensures sized { IfOk result IsSizedLine }
    ensures dated { IfOk result IsDatedLine }
{
    let range = range_line(rest)?;
    Ok(Line::Request(Request::SubReturn { range }))
}

#[inline(never)]
fn return_line(rest: &Rest<'_>) -> Result<Line, Malformed>
    ensures value { result ≡ line_of_verb verbs.Return rest.now }
    ensures sized { IfOk result IsSizedLine }
    ensures dated { IfOk result IsDatedLine }
{
    let (range, handle) = range_and_handle(rest)?;
    Ok(Line::Request(Request::Return { range, handle }))
}

#[inline(never)]
fn release_line(rest: &Rest<'_>) -> Result<Line, Malformed>
    ensures value { result ≡ line_of_verb verbs.Release rest.now }
    ensures sized { IfOk result IsSizedLine }
    ensures dated { IfOk result IsDatedLine }
{
    let range = range_line(rest)?;
    Ok(Line::Request(Request::Release { range }))
}

#[inline(never)]
fn split_line(rest: &Rest<'_>) -> Result<Line, Malformed>
    ensures value { result ≡ line_of_verb verbs.Split rest.now }
    ensures sized { IfOk result IsSizedLine }
    ensures dated { IfOk result IsDatedLine }
{
    let at = number_line(rest)?;
    Ok(Line::Request(Request::Split { at }))
}

#[inline(never)]
fn join_line(rest: &Rest<'_>) -> Result<Line, Malformed>
    ensures value { result ≡ line_of_verb verbs.Join rest.now }
    ensures sized { IfOk result IsSizedLine }
    ensures dated { IfOk result IsDatedLine }
{
    let at = number_line(rest)?;
    Ok(Line::Request(Request::Join { at }))
}

#[inline(never)]
fn unreverse_line(rest: &Rest<'_>) -> Result<Line, Malformed>
    ensures value { result ≡ line_of_verb verbs.Unreverse rest.now }
    ensures sized { IfOk result IsSizedLine }
    ensures dated { IfOk result IsDatedLine }
{
    let range = range_line(rest)?;
    Ok(Line::Request(Request::ClearReverse { range }))
}

#[inline(never)]
fn show_line(rest: &Rest<'_>) -> Result<Line, Malformed>
    ensures value { result ≡ line_of_verb verbs.Show rest.now }
    ensures sized { IfOk result IsSizedLine }
    ensures dated { IfOk result IsDatedLine }
{
    let number = number_line(rest)?;
    Ok(Line::Show(number))
}

#[inline(never)]
fn due_line(rest: &Rest<'_>) -> Result<Line, Malformed>
    ensures value { result ≡ line_of_verb verbs.Due rest.now }
    ensures sized { IfOk result IsSizedLine }
    ensures dated { IfOk result IsDatedLine }
{
    rest.end()?;
    Ok(Line::Due)
}

#[inline(never)]
fn new_day_line(rest: &Rest<'_>) -> Result<Line, Malformed>
    ensures value { result ≡ line_of_verb verbs.Day rest.now }
    ensures sized { IfOk result IsSizedLine }
    ensures dated { IfOk result IsDatedLine }
{
    let day = day_line(rest)?;
    Ok(Line::Day(day))
}

#[inline(never)]
fn hostmaster_line(rest: &Rest<'_>) -> Result<Line, Malformed>
    ensures value { result ≡ line_of_verb verbs.By rest.now }
    ensures sized { IfOk result IsSizedLine }
    ensures dated { IfOk result IsDatedLine }
{
    let name = by_line(rest)?;
    Ok(Line::By(name))
}

/// What a line asks for by its verb and what stands behind it.
fn line_of_verb(verb: Verb, rest: &Rest<'_>) -> Result<Line, Malformed>
    ensures value { result ≡ line_of_verb verb rest.now }
    ensures sized { IfOk result IsSizedLine }
    ensures dated { IfOk result IsDatedLine }
{
    match verb {
        Verb::Receive => receive_line(rest),
        Verb::Holder => add_holder_line(rest),
        Verb::Edit => edit_holder_line(rest),
        Verb::Delegate => delegate_line(rest),
        Verb::Reserve => reserve_line(rest),
        Verb::Unreserve => unreserve_line(rest),
        Verb::Sub => sub_line(rest),
        Verb::Unsub => unsub_line(rest),
        Verb::Return => return_line(rest),
        Verb::Release => release_line(rest),
        Verb::Split => split_line(rest),
        Verb::Join => join_line(rest),
        Verb::Transfer => transfer_line(rest),
        Verb::Reverse => reverse_line(rest),
        Verb::Unreverse => unreverse_line(rest),
        Verb::Show => show_line(rest),
        Verb::Due => due_line(rest),
        Verb::Day => new_day_line(rest),
        Verb::By => hostmaster_line(rest),
    }
}

fn is_comment(word: &[u8]) -> bool
    ensures { result ≡ is_comment word.now }
{
    matches!(word, [b'#', ..])
}

/// What a line asks for, which is handed in without its line end.
pub fn read_line(line: &[u8]) -> Result<Line, Malformed>
    ensures value { result ≡ line_of line.now }
    ensures sized { IfOk result IsSizedLine }
    ensures dated { IfOk result IsDatedLine }
{
    if line.len() > LINE_ROOM {
        return Err(Malformed { place: 1025 });
    }
    let Some(word) = Rest::new(line).first_word() else {
        return Ok(Line::Nothing);
    };
    if !word.is_plain() {
        return Err(word.malformed());
    }
    if is_comment(word.bytes()) {
        return Ok(Line::Nothing);
    }
    match read_verb(word.bytes()) {
        Some(verb) => line_of_verb(verb, &word.behind()),
        None => Err(word.malformed()),
    }
}
