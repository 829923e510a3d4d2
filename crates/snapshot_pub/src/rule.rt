//! The rule of what is published, and what its steps tell.
use crate::shown::Shown;
use crate::view::View;
use atomic_table::{Join, Split};
use crossbeam_utils::rule::{Outcome, Protocol};

/// What is published is the board of a legal list, and each reader has seen a front of that list.
pub struct Published;

impl Protocol<Shown, View> for Published {
    ghost use Rattle.snapshot_pub.specs.Rule.{IsPublished, newcomer};

    ghost holds = { IsPublished };

    ghost first = { newcomer };
}

/// A look, and a publication by the one who looks.
pub(crate) struct Looking;

impl Outcome<Shown, View> for Looking {
    ghost use Rattle.snapshot_pub.specs.Rule.{Sees};

    ghost then = { Sees };
}

/// The writer tells what it knows, and keeps it.
pub(crate) struct Telling;

impl Split<View> for Telling {
    ghost left = { λ v. v };

    ghost right = { λ v. v };
}

/// A newcomer learns what it is told.
pub(crate) struct Learning;

impl Join<View> for Learning {
    ghost use Rattle.snapshot_pub.specs.Rule.{newcomer};

    ghost both = { λ v w. w };

    ghost spent = { newcomer };
}
