//! How many editions were published before each phase.
ghost use Rattle.std.specs.Prelude.{◌≡◌, ◌+◌, ◌-◌, ◌<◌, ◌≤◌, ◌^◌, ℕ, length, get_or, take, IfOk};
ghost use Rattle.std.specs.List.{sum};
ghost use Rattle.control_replay.specs.Inner.Counts.{count_more, editions_in};
ghost use Rattle.control_replay.specs.Tables.{IsTable};

use plant_core::{ControlEntry, ControlList};
use relay_base::Memory;
use std::alloc::Global;

/// Counts an edition in its phase, where an entry published one and the phase is counted.
fn count_edition(counts: &mut [u64], entry: &ControlEntry)
    requires { (phase : ℕ) → get_or counts.old phase 0 < 2 ^ 64 - 1 }
    ensures size { length counts.new ≡ length counts.old }
    ensures each { (phase : ℕ) → phase < length counts.old
        → get_or counts.new phase 0 ≡ count_more (get_or counts.old phase 0) phase entry.now }
{
    let phase = entry.stamp.phase as usize;
    if entry.published.is_some() && phase < counts.len() {
        counts[phase] += 1;
    }
}

/// How many editions each of so many phases published, from phase 0 on.
fn editions_in_phases(
    alloc: Global,
    control: &[ControlEntry],
    count: usize,
) -> Result<Vec<u64>, Memory>
    requires { length control.now < 2 ^ 32 }
    ensures size { IfOk result (λ counts. length counts.items ≡ count) }
    ensures each { IfOk result (λ counts. (phase : ℕ) → phase < count
        → get_or counts.items phase 0 ≡ editions_in phase control.now) }
{
    let mut counts = vec![in alloc; 0u64; count]?;
    for entry in control {
        count_edition(&mut counts, entry);
    }
    Ok(counts)
}

/// The sums of the counts before each of them, and that of all.
fn sums_before(alloc: Global, counts: &[u64]) -> Result<Vec<u64>, Memory>
    requires { sum counts.now < 2 ^ 64 }
    ensures size { IfOk result (λ sums. length sums.items ≡ length counts.now + 1) }
    ensures each { IfOk result (λ sums. (at : ℕ) → at ≤ length counts.now
        → get_or sums.items at 0 ≡ sum (take at counts.now)) }
{
    let mut sums = vec![in alloc; 0u64]?;
    let mut total = 0;
    for count in counts {
        total += *count;
        sums.push(total)?;
    }
    Ok(sums)
}

/// How many editions a control journal published before each phase, from phase 0 to the one behind
/// the last of so many.
pub fn editions_by_phase(
    alloc: Global,
    control: &ControlList,
    phases: usize,
) -> Result<Vec<u64>, Memory>
    requires { length control.now < 2 ^ 32 }
    ensures { IfOk result (λ table. IsTable phases control.now table.items) }
{
    let count = phases.checked_add(1).ok_or(Memory)?;
    let counts = editions_in_phases(alloc, control.as_slice(), count)?;
    sums_before(alloc, &counts)
}
