//! What serves one link.
ghost use Rattle.std.specs.Prelude.{ℕ, List, Option};
ghost use Rattle.door_face.specs.Doors.{LinkRecord, link_record, IsFresh};
ghost use Rattle.snapshot_pub.specs.Pass.{PlainPass};

use link_face::Link;
use std::sync::Wait;

/// What serves the links of one way, one after another, with one pass.
pub(crate) trait Service<L: Link> {
    // what its pass has seen, and how often it was shut
    ghost pass: { Self → PlainPass };

    // a link that ends like this was served from the one pass to the other
    ghost serves: { Self → PlainPass → LinkRecord → PlainPass → Type 0 };

    /// Serves a link on which nothing has passed yet, to its end.
    fn serve<R: Wait>(&mut self, rt: &R, link: &mut L)
        requires fresh { IsFresh (link_record (L.taken link.old) (L.left link.old) (L.written link.old) (L.Source.faults link.old)) }
        ensures served { serves self.old (pass self.old)
            (link_record (L.taken link.new) (L.left link.new) (L.written link.new) (L.Source.faults link.new)) (pass self.new) }

        // It serves the next link as it serves this one.
        ensures same { (before : PlainPass) (end : LinkRecord) (after : PlainPass)
            → serves self.new before end after → serves self.old before end after };
}
