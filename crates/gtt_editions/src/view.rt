//! What clauses speak of. No value of these types is made: each stands for the type of its values in clauses.
use std::marker::Model;

/// What the two copies have in common.
pub struct Common;

impl Model for Common {
    ghost use Rattle.gtt_editions.specs.Shown.{Shown, unopened};

    ghost Value = { Shown };

    ghost view = { λ _. unopened };
}

/// What a seat knows.
pub struct Knowledge;

impl Model for Knowledge {
    ghost use Rattle.gtt_editions.specs.Shown.{View, newcomer};

    ghost Value = { View };

    ghost view = { λ _. newcomer };
}
