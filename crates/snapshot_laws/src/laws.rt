//! The laws, each the contract of a function that does nothing.
ghost use Rattle.std.specs.Prelude.{◌≡◌, ℕ, List, [], ◌∷◌, set};
ghost use mathlib.Core.Option.{some};
ghost use lib.ListN.{get_elem?};
ghost use Rattle.reg_entry.specs.Entry.{PlainEntry};
ghost use Rattle.course_core.specs.Course.{PlainCourse, after_event, after_events};
ghost use Rattle.course_core.specs.declared.event.Event.TheVariants.{Publish, Look, Tell};
ghost use Rattle.snapshot_pub.specs.declared.view.View.{View};
ghost use Rattle.snapshot_pub.specs.Shown.{PlainShown};
ghost use Rattle.snapshot_pub.specs.Rule.{IsPublished, GoesOn, Sees, seeing};
ghost use Rattle.snapshot_laws.specs.Counted.{counted};

/// A publication that goes on with what was published keeps the rule, and moves what is published and what the publisher
/// has seen; a look keeps it, and moves what the one who looks has seen. Nothing else moves.
pub fn steps_keep_the_rule()
    ensures publication { (seat : ℕ) (v : View) (x y : PlainShown) (views : List View) → IsPublished x views → get_elem? views seat ≡ some v → GoesOn x y
        → IsPublished y (set views seat (seeing y)) × Sees v x y (seeing y) }
    ensures look { (seat : ℕ) (v : View) (x : PlainShown) (views : List View) → IsPublished x views → get_elem? views seat ≡ some v
        → IsPublished x (set views seat (seeing x)) × Sees v x x (seeing x) }
{}

/// On the counts a look is the course's Look, and that which ends a telling its Tell; a publication of all that the journal
/// has is its Publish, after which the publisher, who has a seat as each pass has, has looked.
pub fn steps_are_events()
    ensures look { (c : PlainCourse) (seat : ℕ) (v w : View) (x : PlainShown) (views : List View) → Sees v x x w
        → counted c c.journal x (set views seat w) ≡ after_event (counted c c.journal x views) (Look seat) }
    ensures telling { (c : PlainCourse) (seat : ℕ) (v w : View) (x : PlainShown) (views : List View) → Sees v x x w
        → counted c c.journal x (set views seat w) ≡ after_event (counted c c.journal x views) (Tell seat) }
    ensures publication { (c : PlainCourse) (put : List PlainEntry) (seat : ℕ) (v w : View) (x y : PlainShown) (views : List View) → Sees v x y w
        → y.front.entries ≡ put
        → counted c put y (set views seat w) ≡ after_events (counted c put x views) (Publish ∷ Look seat ∷ []) }
{}
