//! What a message asks for.
ghost use Rattle.std.specs.Prelude.{◌≡◌, true, ◌∷◌, map};
ghost use Rattle.std.specs.Option.{option_copied, option_and_then, is_some};
ghost use Rattle.percent_encoding.specs.Percent.{percent_decode as spec_decode};
ghost use Rattle.hall.specs.Ask.{Asks, HasErrorCode, is_reading, is_posting, lookup_ask, line_ask, keyed_ask, desk_ask, is_none_behind};
ghost use Rattle.hall.specs.Path.{parts_behind};
ghost use Rattle.desk_lang.specs.Grammar.{line_of};
ghost use Rattle.policy_table.specs.Policy.{hostmaster_with};
ghost use Rattle.wire_http.specs.Fields.{key_of};
ghost use Rattle.hall.specs.Lookup.{IsNamed, listed};

use crate::Lookup;
use crate::line::without_line_end;
use crate::path::{decoded, is_lookup_name, part, path_of};
use desk_lang::{Line, read_line};
use policy_table::Policy;
use rdap_query::laws::paths_have_short_segments;
use rdap_query::read_path;
use reg_entry::{Name, Request};
use reverse_zone::read_apex;
use wire_http::Head;

/// What a message asks for.
#[derive(Drop)]
pub enum Ask {
    /// Nothing that is served. The reply has this code, and where the method is the wrong one it says whether POST is the
    /// right one.
    Refused { code: u16, post: bool },
    /// Something that is looked up, in a register of at least so many entries.
    Look { lookup: Lookup, at_least: u64 },
    /// A request of a hostmaster.
    Submit { who: Name, request: Request },
    /// A line of the desk that is no request, with the place where it goes wrong.
    Unread { place: u32 },
}

const NOT_FOUND: Ask = Ask::Refused {
    code: 404,
    post: false,
};

/// What one to three segments name.
fn named(first: &[u8], second: Option<&[u8]>, third: Option<&[u8]>) -> Option<Lookup>
    requires { is_some (option_copied third) ≡ true → is_some (option_copied second) ≡ true }
    ensures { IsNamed (listed first.now (option_copied second.entry) (option_copied third.entry)) result }
{
    if let Some(ask) = read_path(first, second, third) {
        return Some(Lookup::Rdap(ask));
    }
    match (second, third) {
        (None, None) if first == b"stats".as_slice() => Some(Lookup::Stats),
        (Some(name), None) if first == b"zones".as_slice() => Some(Lookup::Zone(read_apex(name)?)),
        _ => None,
    }
}

/// What a first segment and those behind it name.
fn find(first: &[u8], behind: Option<&[u8]>) -> Option<Lookup>
    ensures { IsNamed (first.now ∷ map spec_decode (parts_behind (option_copied behind.entry))) result }
{
    // A law: no segment that names something is longer than those that are decoded.
    paths_have_short_segments();
    let Some(behind) = behind else {
        return named(first, None, None);
    };
    let (second, behind) = part(behind);
    let Some(second) = decoded(second) else {
        return None;
    };
    let Some(behind) = behind else {
        return named(first, Some(second.as_slice()), None);
    };
    let (third, behind) = part(behind);
    if behind.is_some() {
        return None;
    }
    let Some(third) = decoded(third) else {
        return None;
    };
    named(first, Some(second.as_slice()), Some(third.as_slice()))
}

/// Whether no segment follows.
fn is_last(behind: Option<&[u8]>) -> bool
    ensures { result ≡ is_none_behind (map spec_decode (parts_behind (option_copied behind.entry))) }
{
    behind.is_none()
}

fn is_reading(head: &Head<'_>) -> bool
    ensures { result ≡ is_reading head.now }
{
    head.method() == b"GET".as_slice() || head.method() == b"HEAD".as_slice()
}

fn lookup_ask(head: &Head<'_>, lookup: Option<Lookup>) -> Ask
    ensures ask { result ≡ lookup_ask head.now lookup }
    ensures code { HasErrorCode result }
{
    if !is_reading(head) {
        return Ask::Refused {
            code: 405,
            post: false,
        };
    }
    match (lookup, head.at_least()) {
        (Some(lookup), Some(at_least)) => Ask::Look { lookup, at_least },
        _ => Ask::Refused {
            code: 400,
            post: false,
        },
    }
}

fn line_ask(who: Name, line: &[u8]) -> Ask
    ensures ask { result ≡ line_ask who (line_of line.now) }
    ensures code { HasErrorCode result }
{
    match &read_line(line) {
        Ok(Line::Request(request)) => Ask::Submit {
            who,
            request: *request,
        },
        Ok(_) => Ask::Unread { place: 1 },
        Err(fault) => Ask::Unread { place: fault.place },
    }
}

/// Whose key the message has.
fn hostmaster(policy: &Policy, head: &Head<'_>) -> Option<Name>
    ensures { result ≡ option_and_then (hostmaster_with policy.now) (key_of head.now) }
{
    policy.by_key(head.key()?)
}

fn desk_ask(policy: &Policy, head: &Head<'_>, body: &[u8], is_whole_path: bool) -> Ask
    ensures ask { result ≡ desk_ask policy.now head.now body.now is_whole_path }
    ensures code { HasErrorCode result }
{
    if head.method() != b"POST".as_slice() {
        return Ask::Refused {
            code: 405,
            post: true,
        };
    }
    if !is_whole_path {
        return Ask::Refused {
            code: 400,
            post: false,
        };
    }
    match hostmaster(policy, head) {
        Some(who) => line_ask(who, without_line_end(body)),
        None => Ask::Refused {
            code: 401,
            post: false,
        },
    }
}

/// Reads what the message of this head and body asks for.
pub(crate) fn read_ask(policy: &Policy, head: &Head<'_>, body: &[u8]) -> Ask
    ensures asks { Asks policy.now head.now body.now result }
    ensures code { HasErrorCode result }
{
    let [b'/', text @ ..] = path_of(head.target()) else {
        return Ask::Refused {
            code: 400,
            post: false,
        };
    };
    let (first, behind) = part(text);
    let Some(first) = decoded(first) else {
        return NOT_FOUND;
    };
    let first = first.as_slice();
    if first == b"desk".as_slice() {
        desk_ask(policy, head, body, is_last(behind))
    } else if is_lookup_name(first) {
        lookup_ask(head, find(first, behind))
    } else {
        NOT_FOUND
    }
}
