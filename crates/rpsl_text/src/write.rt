//! Objects written, attribute by attribute.
ghost use Rattle.std.specs.Prelude.{◌≡◌, ◌≤◌, ◌++◌, map, OnOk, IfOk};
ghost use Rattle.reg_entry.specs.Days.{last_date, day_text};
ghost use Rattle.desk_text.specs.Vocabulary.{kind_word, status_word};
ghost use Rattle.desk_text.specs.ReplyText.{spaced_range};
ghost use Rattle.reverse_zone.specs.Delegated.{reverse_name};
ghost use Rattle.rpsl_text.specs.Object.{HasDates, block_class, day_attribute, org_attribute, server_attribute, org_attributes, block_attributes, sub_attributes, cut_attributes, own_attributes, attribute_line, attributes_text, object_text};

use addr_text::write_range;
use arrayvec::ArrayVec;
use board::Body;
use num_range::{Range, Space};
use reg_entry::{Handle, Holder, Kind, Object, Servers, Status, day_text};
use reverse_zone::reverse_name;
use std::alloc::{AllocError, Global};

fn kind_word(kind: Kind) -> &'static [u8]
    ensures { result.now ≡ kind_word kind }
{
    match kind {
        Kind::Lir => b"lir",
        Kind::EndUser => b"enduser",
    }
}

fn status_word(status: Status) -> &'static [u8]
    ensures { result.now ≡ status_word status }
{
    match status {
        Status::Available => b"available",
        Status::Reserved => b"reserved",
        Status::Quarantine => b"quarantine",
        Status::Allocated => b"allocated",
        Status::Assigned => b"assigned",
    }
}

/// The class of a piece.
fn block_class(space: Space) -> &'static [u8]
    ensures { result.now ≡ block_class space }
{
    match space {
        Space::Asn => b"as-block",
        Space::Ipv4 => b"inetnum",
        Space::Ipv6 => b"inet6num",
    }
}

/// Appends a line of this name and this value (RFC 2622 2). Where there is no memory for all of it, some of it may stand in the
/// body.
pub fn append_attribute(name: &[u8], value: &[u8], body: &mut Body) -> Result<(), AllocError>
    ensures { OnOk result (body.new ≡ body.old ++ attribute_line (name.now, value.now)) }
{
    body.append(name)?;
    body.append(b": ")?;
    body.append(value)?;
    body.append(b"\n")?;
    Ok(())
}

fn append_range(name: &[u8], range: &Range, body: &mut Body) -> Result<(), AllocError>
    ensures { OnOk result (body.new ≡ body.old ++ attribute_line (name.now, spaced_range range.now)) }
{
    let mut value = ArrayVec::new();
    write_range(*range, true, &mut value);
    append_attribute(name, value.as_slice(), body)
}

fn append_day(name: &[u8], day: u32, body: &mut Body) -> Result<(), AllocError>
    requires { day ≤ last_date }
    ensures { OnOk result (body.new ≡ body.old ++ attribute_line (name.now, day_text day)) }
{
    append_attribute(name, &day_text(day), body)
}

/// Appends the day, where it isn't 0.
fn append_given_day(name: &[u8], day: u32, body: &mut Body) -> Result<(), AllocError>
    requires { day ≤ last_date }
    ensures { OnOk result (body.new ≡ body.old ++ attributes_text (day_attribute name.now day)) }
{
    if day == 0 {
        return Ok(());
    }
    append_day(name, day, body)
}

/// Appends the holder of a piece, where it has one.
fn append_org(handle: &Option<Handle>, body: &mut Body) -> Result<(), AllocError>
    ensures { OnOk result (body.new ≡ body.old ++ attributes_text (org_attribute handle.now)) }
{
    match handle {
        None => Ok(()),
        Some(handle) => append_attribute(b"org", handle.bytes(), body),
    }
}

fn append_holder(holder: &Holder, day: u32, body: &mut Body) -> Result<(), AllocError>
    requires { day ≤ last_date }
    ensures { OnOk result (body.new ≡ body.old ++ attributes_text (org_attributes holder.now day)) }
{
    append_attribute(b"organisation", holder.handle.bytes(), body)?;
    append_attribute(b"org-name", holder.name.bytes(), body)?;
    append_attribute(b"org-type", kind_word(holder.kind), body)?;
    append_attribute(b"country", holder.cc.bytes(), body)?;
    append_attribute(b"e-mail", holder.email.bytes(), body)?;
    append_day(b"date", day, body)?;
    Ok(())
}

fn append_block(
    range: &Range,
    status: Status,
    handle: &Option<Handle>,
    day: u32,
    until: u32,
    body: &mut Body,
) -> Result<(), AllocError>
    requires day { day ≤ last_date }
    requires until { until ≤ last_date }
    ensures { OnOk result (body.new ≡ body.old ++ attributes_text (block_attributes range.now status handle.now day until)) }
{
    append_range(block_class(range.space()), range, body)?;
    append_attribute(b"status", status_word(status), body)?;
    append_org(handle, body)?;
    append_given_day(b"date", day, body)?;
    append_given_day(b"until", until, body)?;
    Ok(())
}

fn append_sub(range: &Range, handle: &Handle, day: u32, body: &mut Body) -> Result<(), AllocError>
    requires { day ≤ last_date }
    ensures { OnOk result (body.new ≡ body.old ++ attributes_text (sub_attributes range.now handle.now day)) }
{
    append_range(b"sub-assignment", range, body)?;
    append_attribute(b"org", handle.bytes(), body)?;
    append_day(b"date", day, body)?;
    Ok(())
}

fn append_servers(servers: &Servers, body: &mut Body) -> Result<(), AllocError>
    ensures { OnOk result (body.new ≡ body.old ++ attributes_text (map server_attribute servers.now)) }
{
    for server in servers.hosts() {
        append_attribute(b"nserver", server.bytes(), body)?;
    }
    Ok(())
}

fn append_cut(block: &Range, servers: &Servers, body: &mut Body) -> Result<(), AllocError>
    ensures { OnOk result (body.new ≡ body.old ++ attributes_text (cut_attributes block.now servers.now)) }
{
    append_attribute(b"domain", reverse_name(block).as_slice(), body)?;
    append_servers(servers, body)?;
    Ok(())
}

fn append_own(o: &Object, body: &mut Body) -> Result<(), AllocError>
    requires { HasDates o.now }
    ensures { OnOk result (body.new ≡ body.old ++ attributes_text (own_attributes o.now)) }
{
    match o {
        Object::Org { holder, day } => append_holder(holder, *day, body),
        Object::Block {
            range,
            status,
            handle,
            day,
            until,
        } => append_block(range, *status, handle, *day, *until, body),
        Object::Sub { range, handle, day } => append_sub(range, handle, *day, body),
        Object::Cut { block, servers } => append_cut(block, servers, body),
    }
}

/// Appends the object as the register named by the source publishes it: its class with its key first, the source last, a
/// line each (RFC 2622 2). Where there is no memory for all of the text, some of it may stand in the body.
pub fn append_object(o: &Object, source: &[u8], body: &mut Body) -> Result<(), AllocError>
    requires { HasDates o.now }
    ensures { OnOk result (body.new ≡ body.old ++ object_text o.now source.now) }
{
    append_own(o, body)?;
    append_attribute(b"source", source, body)?;
    Ok(())
}

/// Writes the object's text alone, as `append_object` does. It takes memory for the text, and fails without that.
pub fn write_object(alloc: Global, o: &Object, source: &[u8]) -> Result<Body, AllocError>
    requires { HasDates o.now }
    ensures { IfOk result (λ body. body ≡ object_text o.now source.now) }
{
    let mut body = Body::new(alloc);
    append_object(o, source, &mut body)?;
    Ok(body)
}
