//! The rule of the editions: what is published grows at its end until the end is marked, and what a seat knows is a beginning of it.
use crate::store::Store;
use crate::view::Knowledge;
use atomic_table::{Join, Split};
use crossbeam_utils::rule::{Outcome, Protocol};

pub struct Editions;

impl Protocol<Store, Knowledge> for Editions {
    ghost use Rattle.gtt_editions.specs.Rule.{Keeps};
    ghost use Rattle.gtt_editions.specs.Shown.{newcomer};

    ghost holds = { Keeps };

    ghost first = { newcomer };
}

/// The publisher notes the edition at the opening.
pub struct Opens;

impl Outcome<Store, Knowledge> for Opens {
    ghost use Rattle.gtt_editions.specs.Rule.{Opened};

    ghost then = { Opened };
}

/// What is published is seen.
pub struct Sees;

impl Outcome<Store, Knowledge> for Sees {
    ghost use Rattle.gtt_editions.specs.Rule.{Seen};

    ghost then = { Seen };
}

/// A notice knows what the publisher knows.
pub struct Notes;

impl Split<Knowledge> for Notes {
    ghost left = { λ v. v };

    ghost right = { λ v. v };
}

impl Join<Knowledge> for Notes {
    ghost use Rattle.gtt_editions.specs.Rule.{informed};
    ghost use Rattle.gtt_editions.specs.Shown.{newcomer};

    ghost both = { informed };

    ghost spent = { newcomer };
}
