//! The last operations of the change stream.
ghost use Rattle.std.specs.Prelude.{◌≡◌, ◌+◌, ◌-◌, ◌<◌, ◌≤◌, ◌^◌, [], length, slice_get, IfOk};
ghost use Rattle.reg_entry.specs.declared.object.Object.TheVariants.{Org, Block, Sub, Cut};
ghost use Rattle.op_feed.specs.Briefs.{IsAmong, object_of};
ghost use Rattle.op_feed.specs.Window.{noted};

use crate::{Brief, Noted};
use circular_buffer::HeapCircularBuffer;
use num_range::Range;
use reg_entry::{Act, Handle, Holder, Object, Op, Piece, Servers};
use std::alloc::{AllocError, Global};
use std::marker::Model;

/// The last operations, and how many there were in all. Making one takes memory, and nothing after that does.
///
/// Blocks and subs are small beside a holder's fields and the servers of a cut, and most operations are of them. So what is
/// large stands apart, holders and cuts each for themselves, and an operation moves no more than it has.
#[derive(Drop)]
pub struct OpWindow {
    serial: u64,
    noted: HeapCircularBuffer<Noted>,
    // The last of the holders that stand apart, each with its day, and how many there were in all.
    orgs: HeapCircularBuffer<(Holder, u32)>,
    org_count: u64,
    // The last of the cuts, each with its servers, and how many there were in all.
    cuts: HeapCircularBuffer<(Range, Servers)>,
    cut_count: u64,
}

impl Model for OpWindow {
    ghost use Rattle.op_feed.specs.Briefs.{IsWindow, kept_of};
    ghost use Rattle.op_feed.specs.Window.{PlainOperations};

    ghost Value = { PlainOperations };

    ghost view = { λ w. record {
      serial = w.serial;
      kept = kept_of w.serial w.noted.items w.org_count w.orgs.items w.cut_count w.cuts.items;
      window = w.noted.capacity;
    } };

    ghost invariant = { λ w. IsWindow w.serial w.noted.items w.noted.capacity
        w.org_count w.orgs.items w.orgs.capacity w.cut_count w.cuts.items w.cuts.capacity };
}

impl OpWindow {
    /// No operation yet, and memory for as many as the window says.
    pub fn with_window(alloc: Global, window: u32) -> Result<OpWindow, AllocError>
        ensures { IfOk result (λ w. w ≡ record { serial = 0; kept = []; window = window }) }
    {
        Ok(OpWindow {
            serial: 0,
            noted: HeapCircularBuffer::with_capacity(alloc, window as usize)?,
            orgs: HeapCircularBuffer::with_capacity(alloc, window as usize)?,
            org_count: 0,
            cuts: HeapCircularBuffer::with_capacity(alloc, window as usize)?,
            cut_count: 0,
        })
    }

    /// The serials of the first and the last operation that is kept.
    pub fn serials(&self) -> (u64, u64)
        requires { self.now.serial + 1 < 2 ^ 64 }
        ensures first { result.0 ≡ self.now.serial + 1 - length self.now.kept }
        ensures last { result.1 ≡ self.now.serial }
    {
        (self.serial + 1 - self.noted.len() as u64, self.serial)
    }

    /// The operation that comes so many places behind the first.
    pub fn at(&self, place: u64) -> Option<Op>
        ensures { result ≡ slice_get self.now.kept place }
    {
        let noted = self.noted.get(place as usize)?;
        Some(Op {
            serial: self.serial - (self.noted.len() as u64 - place - 1),
            act: noted.act,
            object: object_of(
                &self.orgs,
                self.org_count,
                &self.cuts,
                self.cut_count,
                &noted.brief,
            ),
        })
    }

    /// Notes one operation more, of a holder. Where there is no room for it the first one goes.
    pub fn note_org(&mut self, act: Act, holder: &Holder, day: u32)
        requires { self.old.serial + 1 < 2 ^ 64 }
        ensures { self.new ≡ noted self.old (act, Org holder.now day) }
    {
        // A note may hold a handle, of which the prover has to be told here.
        let _nobody: Option<Handle> = None;
        let brief = Brief::Org(self.org_count);
        self.serial += 1;
        self.org_count += 1;
        self.orgs.push_back((*holder, day));
        self.noted.push_back(Noted { act, brief });
    }

    /// Notes one operation more, of the block that is published of a piece. Where there is no room for it the first one goes.
    pub fn note_block(&mut self, act: Act, piece: &Piece, handle: Option<Handle>)
        requires { self.old.serial + 1 < 2 ^ 64 }
        ensures { self.new ≡ noted self.old
            (act, Block piece.now.range piece.now.card.status handle piece.now.card.day piece.now.card.until) }
    {
        self.serial += 1;
        // As one expression, which is made in its place.
        self.noted.push_back(Noted {
            act,
            brief: Brief::Block {
                range: piece.range,
                status: piece.card.status,
                handle,
                day: piece.card.day,
                until: piece.card.until,
            },
        });
    }

    /// Notes one operation more, of a sub. Where there is no room for it the first one goes.
    pub fn note_sub(&mut self, act: Act, range: Range, handle: Handle, day: u32)
        requires { self.old.serial + 1 < 2 ^ 64 }
        ensures { self.new ≡ noted self.old (act, Sub range handle day) }
    {
        self.serial += 1;
        self.noted.push_back(Noted {
            act,
            brief: Brief::Sub { range, handle, day },
        });
    }

    /// Notes one operation more, of a cut. Where there is no room for it the first one goes.
    pub fn note_cut(&mut self, act: Act, block: Range, servers: &Servers)
        requires { self.old.serial + 1 < 2 ^ 64 }
        ensures { self.new ≡ noted self.old (act, Cut block servers.now) }
    {
        // As above.
        let _nobody: Option<Handle> = None;
        let brief = Brief::Cut(self.cut_count);
        self.serial += 1;
        self.cut_count += 1;
        self.cuts.push_back((block, *servers));
        self.noted.push_back(Noted { act, brief });
    }
}

/// The object of which this is noted, where these are the last of the holders and of the cuts that stand apart, so many in all.
fn object_of(
    orgs: &HeapCircularBuffer<(Holder, u32)>,
    org_count: u64,
    cuts: &HeapCircularBuffer<(Range, Servers)>,
    cut_count: u64,
    brief: &Brief,
) -> Object
    requires orgs { length orgs.now.items ≤ org_count }
    requires cuts { length cuts.now.items ≤ cut_count }
    requires among { IsAmong (org_count - length orgs.now.items) org_count (cut_count - length cuts.now.items) cut_count brief.now }
    ensures { result ≡ object_of (org_count - length orgs.now.items) orgs.now.items (cut_count - length cuts.now.items) cuts.now.items brief.now }
{
    match brief {
        Brief::Block {
            range,
            status,
            handle,
            day,
            until,
        } => Object::Block {
            range: *range,
            status: *status,
            handle: *handle,
            day: *day,
            until: *until,
        },
        Brief::Sub { range, handle, day } => Object::Sub {
            range: *range,
            handle: *handle,
            day: *day,
        },
        Brief::Org(number) => {
            let first = org_count - orgs.len() as u64;
            match orgs.get((*number - first) as usize) {
                Some((holder, day)) => Object::Org {
                    holder: *holder,
                    day: *day,
                },
                None => unreachable!(),
            }
        }
        Brief::Cut(number) => {
            let first = cut_count - cuts.len() as u64;
            match cuts.get((*number - first) as usize) {
                Some((block, servers)) => Object::Cut {
                    block: *block,
                    servers: *servers,
                },
                None => unreachable!(),
            }
        }
    }
}
