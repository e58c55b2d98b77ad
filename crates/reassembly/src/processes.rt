//! The reassemblies under way, in the order in which they began.
ghost use Rattle.std.specs.Prelude.{◌≡◌, ℕ, ◌+◌, ◌++◌, ◌≤◌, true, false, IfOk, OnErr, position, vec_len, vec_capacity};
ghost use Rattle.std.specs.Option.{option_map};
ghost use Rattle.reassembly.specs.Segments.{key_of, is_first};
ghost use Rattle.reassembly.specs.Reassembly.{is_of, IsOnePerKey, live, others, has_no_room, takes, ended_by_tick, after_tick};

use crate::piece::{Now, Piece, Taken};
use crate::process::Process;
use relay_base::Memory;
use std::alloc::Global;

/// The most that are under way at a time.
pub const MOST_REASSEMBLIES: usize = 256;

/// The place of the one that this segment belongs to.
pub fn place_of(processes: &[Process], piece: &Piece) -> Option<usize>
    ensures { result ≡ position (is_of (key_of piece.now)) processes.now }
{
    processes.iter().position(|process| process.is_of(piece))
}

/// Whether this segment would begin one beyond the most.
pub fn is_full_for(processes: &[Process], piece: &Piece) -> bool
    ensures { result ≡ has_no_room piece.now processes.now }
{
    piece.is_first()
        && piece.remaining() != 0
        && processes
            .iter()
            .filter(|process| !process.is_of(piece))
            .count()
            >= MOST_REASSEMBLIES
}

/// Ends the one that this segment belongs to.
fn end(processes: &mut Vec<Process>, piece: &Piece) -> Option<Piece>
    requires { IsOnePerKey processes.old.items }
    ensures ended { let process = live (key_of piece.now) processes.old.items
        in result ≡ option_map (λ x. x.first) process }
    ensures kept { processes.new.items ≡ others (key_of piece.now) processes.old.items }
    ensures len { vec_len processes.new ≤ vec_len processes.old }
    ensures capacity { vec_capacity processes.new ≡ vec_capacity processes.old }
{
    let at = place_of(processes, piece)?;
    let process = processes.remove(at);
    Some(process.first)
}

/// Takes a first segment.
#[tactic(auto, unfolding(crate::specs::Reassembly::takes, crate::specs::Reassembly::reassembly_after))]
pub fn take_first(
    processes: &mut Vec<Process>,
    alloc: Global,
    ticks: u32,
    piece: Piece,
) -> Result<Taken, Memory>
    requires apart { IsOnePerKey processes.old.items }
    requires first { is_first piece ≡ true }
    ensures ok { let after = takes ticks processes.old.items piece
        in IfOk result (λ taken. (processes.new.items, taken) ≡ after) }
    ensures err { OnErr result (processes.new.items ≡ processes.old.items) }
{
    if piece.remaining() == 0 {
        let failed = end(processes, &piece);
        return Ok(Taken {
            failed,
            now: Now::Whole(piece),
        });
    }
    if is_full_for(processes, &piece) {
        return Ok(Taken {
            failed: None,
            now: Now::NoRoom(piece),
        });
    }
    processes.reserve(1)?;
    let process = Process::begun(alloc, piece, ticks)?;
    let failed = end(processes, &process.first);
    processes.push_reserved(process);
    Ok(Taken {
        failed,
        now: Now::Waiting,
    })
}

/// Takes a later segment.
pub fn take_later(processes: &mut Vec<Process>, piece: &Piece) -> Result<Taken, Memory>
    requires apart { IsOnePerKey processes.old.items }
    requires later { is_first piece.now ≡ false }
    ensures ok { let old = processes.old.items
        in IfOk result (λ x. (ticks : ℕ) → (processes.new.items, x) ≡ takes ticks old piece.now) }
    ensures err { OnErr result (processes.new.items ≡ processes.old.items) }
{
    let Some(at) = place_of(processes, piece) else {
        return Ok(Taken {
            failed: None,
            now: Now::Orphan,
        });
    };
    if !processes[at].awaits(piece) {
        let process = processes.remove(at);
        return Ok(Taken {
            failed: Some(process.first),
            now: Now::Broken,
        });
    }
    processes[at].append(piece)?;
    if piece.remaining() > 0 {
        return Ok(Taken {
            failed: None,
            now: Now::Waiting,
        });
    }
    let process = processes.remove(at);
    Ok(Taken {
        failed: None,
        now: Now::Whole(process.into_whole()),
    })
}

/// Parts those that the next tick ends from those that go on, a tick older.
pub fn part(processes: Vec<Process>, failed: &mut Vec<Piece>, kept: &mut Vec<Process>)
    requires failed_room { vec_len failed.old + vec_len processes ≤ vec_capacity failed.old }
    requires kept_room { vec_len kept.old + vec_len processes ≤ vec_capacity kept.old }
    ensures failed { failed.new.items ≡ failed.old.items ++ ended_by_tick processes.items }
    ensures kept { kept.new.items ≡ kept.old.items ++ after_tick processes.items }
{
    for process in processes {
        if process.is_due() {
            failed.push_reserved(process.first);
        } else {
            kept.push_reserved(process.aged());
        }
    }
}
