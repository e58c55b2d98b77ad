//! The whole capture.
ghost use Rattle.std.specs.Prelude.{◌≡◌, ◌≤◌, [], length, IsTrue, IfOk};
ghost use Rattle.relay_base.specs.declared.limits.TheConstants.{MOST_GENERATED_LINES};
ghost use Rattle.node_head.specs.Addable.{are_addable};
ghost use Rattle.node_head.specs.Ranges.{IsHead};
ghost use Rattle.capture_form.specs.Events.{all_events, IsStamped};
ghost use Rattle.capture_form.specs.Links.{AreLinked};
ghost use Rattle.capture_form.specs.declared.steps.TheConstants.{MOST_LINES};
ghost use Rattle.capture_generator.specs.Generator.{generator_head, generated_capture};

use crate::blocks::phases_after;
use capture_form::Capture;
use node_head::{Head, RowList};
use plant_core::{ReplicateList, USUAL_TICKS};
use relay_base::{Memory, Pc, PcList, Ssn, SsnList};
use std::alloc::Global;

/// The head: point 1, user 8, four lanes of each kind.
fn generator_head(alloc: Global) -> Result<Head, Memory>
    ensures { IfOk result (λ head. head ≡ generator_head) }
{
    let mut users = SsnList::new(alloc);
    users.push(Ssn::from(8))?;
    Ok(Head {
        point: Pc::new(1).unwrap(),
        users,
        conn_lanes: 4,
        data_lanes: 4,
        links: 1,
        credit: 7,
        concerned: PcList::new(alloc),
        timers: USUAL_TICKS,
        row: RowList::new(alloc),
        replicate: ReplicateList::new(alloc),
        short: PcList::new(alloc),
    })
}

/// The capture that the generator makes of a number and a count of lines, at most 199,000, as if its text were read.
pub fn generated(alloc: Global, number: u32, lines: u32) -> Result<Capture, Memory>
    requires { lines ≤ MOST_GENERATED_LINES }
    ensures value { IfOk result (λ c. c ≡ generated_capture number lines) }
    ensures stamped { IfOk result (λ c. IsStamped c.head c.phases) }
    ensures linked { IfOk result (λ c. AreLinked c.phases) }
    ensures addable { IfOk result (λ c. IsTrue (are_addable [] c.head.row)) }
    ensures range { IfOk result (λ c. IsHead c.head) }
    ensures few { IfOk result (λ c. length (all_events c.phases) ≤ MOST_LINES) }
{
    let head = generator_head(alloc)?;
    let phases = phases_after(alloc, number % 2_147_483_648, lines)?;
    Ok(Capture { head, phases })
}
