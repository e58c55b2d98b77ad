//! Worked examples of what is found: the journals of a node with one lane of each kind, beside the capture of one tick, which stands in its line 4.
ghost use Rattle.std.specs.Prelude.{◌≡◌, codes, None};
ghost use Rattle.journal_finding.specs.declared.finding.FindingKind.TheVariants.{Edition, Entry, Order};
ghost use Rattle.finding_law.specs.Examples.{at, fault};

/// The tick in each lane.
#[tactic(auto, unfolding(crate::specs::Examples::fault))]
pub fn legal()
    ensures { fault (codes "1.0.4") (codes "1.0.4") (codes "1.0.4") ≡ None }
{}

/// A stamp of another line, or of another phase; and a lane that doesn't take the tick.
#[tactic(auto, unfolding(crate::specs::Examples::fault))]
pub fn out_of_order()
    ensures other_line { fault (codes "1.0.5") (codes "1.0.4") (codes "1.0.4") ≡ at 2 Order }
    ensures other_phase { fault (codes "1.0.4") (codes "2.0.4") (codes "1.0.4") ≡ at 4 Order }
    ensures left { fault (codes "1.0.4") (codes "1.0.4") (codes "") ≡ at 6 Order }
{}

/// A routing where none is asked, and an edition that nothing published.
#[tactic(auto, unfolding(crate::specs::Examples::fault))]
pub fn unlike()
    ensures routed { fault (codes "1.0.4") (codes "1.0.4 e0 local 8") (codes "1.0.4") ≡ at 4 Edition }
    ensures published { fault (codes "1.0.4 new e1") (codes "1.0.4") (codes "1.0.4") ≡ at 2 Entry }
{}
