//! Links that run at the same time, and edits that are seen within their phase.

use crate::running::{SOUND, assert_left, call_at};
use relay_base::Pace;
use std::sync::atomic::{AtomicBool, Ordering};
use std::test::Fail;
use std::thread;

/// How often one that is held looks.
const LOOKS: u32 = 20_000_000;

/// Waits until a flag is set, within a limit of looks. Whether it was set.
fn is_set(flag: &AtomicBool) -> bool {
    for _ in 0..LOOKS {
        if flag.load(Ordering::SeqCst) {
            return true;
        }
        thread::yield_now();
    }
    false
}

/// Whether a link's line came to its delivery, and whether it saw that the other link's had.
#[derive(Drop)]
struct Arrival {
    came: AtomicBool,
    saw: AtomicBool,
}

fn not_come() -> Arrival {
    Arrival {
        came: AtomicBool::new(false),
        saw: AtomicBool::new(false),
    }
}

/// Links 1 and 2, each held before its delivery until the other comes to its own.
#[derive(Drop)]
pub struct Meeting {
    first: Arrival,
    second: Arrival,
}

impl Meeting {
    fn before(&self, link: u8) {
        let (mine, other) = if link == 1 {
            (&self.first, &self.second)
        } else {
            (&self.second, &self.first)
        };
        mine.came.store(true, Ordering::SeqCst);
        if is_set(&other.came) {
            mine.saw.store(true, Ordering::SeqCst);
        }
    }

    fn is_kept(&self) -> bool {
        self.first.saw.load(Ordering::SeqCst) && self.second.saw.load(Ordering::SeqCst)
    }
}

/// A line that is held before its delivery until another was delivered.
#[derive(Drop)]
struct Hold {
    line: u32,
    behind: u32,
    delivered: AtomicBool,
    passed: AtomicBool,
}

fn held(line: u32, behind: u32) -> Hold {
    Hold {
        line,
        behind,
        delivered: AtomicBool::new(false),
        passed: AtomicBool::new(false),
    }
}

/// Lines of links that come one behind the other.
#[derive(Drop)]
pub struct Order {
    holds: [Hold; 3],
}

impl Order {
    fn before(&self, line: u32) {
        for hold in &self.holds {
            if hold.line == line && is_set(&hold.delivered) {
                hold.passed.store(true, Ordering::SeqCst);
            }
        }
    }

    fn after(&self, line: u32) {
        for hold in &self.holds {
            if hold.behind == line {
                hold.delivered.store(true, Ordering::SeqCst);
            }
        }
    }

    fn is_kept(&self) -> bool {
        for hold in &self.holds {
            if !hold.passed.load(Ordering::SeqCst) {
                return false;
            }
        }
        true
    }
}

/// How the links of a run are held: one type, so that the top call is built once.
#[derive(Drop)]
pub enum Pacing {
    Free,
    Meeting(Meeting),
    Order(Order),
}

impl Pacing {
    /// Whether each line that was held saw what it was held for.
    fn is_kept(&self) -> bool {
        match self {
            Pacing::Free => true,
            Pacing::Meeting(meeting) => meeting.is_kept(),
            Pacing::Order(order) => order.is_kept(),
        }
    }
}

impl Pace for Pacing {
    fn before(&self, link: u8, line: u32) {
        match self {
            Pacing::Free => {}
            Pacing::Meeting(meeting) => meeting.before(link),
            Pacing::Order(order) => order.before(line),
        }
    }

    fn after(&self, _link: u8, line: u32) {
        if let Pacing::Order(order) = self {
            order.after(line);
        }
    }
}

/// The units of two links, for two lanes.
const BOTH: &str = "point = 100
users = [8]
links = 2
data_lanes = 2
%%
m 1 200 0 090003050702420802420601aa
m 2 200 1 090003050702420802420601aa
";

const BOTH_PRINTED: &str = "= control
= conn 0
= data 0
1.1.6 e0 local 8
 < 8 unit 0 4208 4206 aa
= data 1
1.2.7 e0 local 8
 < 8 unit 0 4208 4206 aa
";

/// Neither link waits for the other's delivery to end.
#[test]
fn two_links_at_once(rt: HostRuntime) -> Result<(), Fail> {
    let pacing = Pacing::Meeting(Meeting {
        first: not_come(),
        second: not_come(),
    });
    let text = BOTH.as_bytes();
    let ran = call_at(&rt, rt.alloc(), &["run"], text, [SOUND; 3], &pacing)?;
    assert_left(&rt, &ran, 0, BOTH_PRINTED.as_bytes(), b"");
    assert!(rt; pacing.is_kept());
    Ok(())
}

/// Two edits of a row that sends titles of digits 49 to point 300, with a unit and an opening behind each, in one phase.
const EDITS: &str = "point = 100
users = [8]
[[row]]
gti = 4
np = 1
nai = 4
digits = \"49\"
first = \"300/8/s\"
%%
e add 4 0 1 4 4917 400/8/s
m 1 200 5 0900030b0d08120800120494712102420601aa
m 1 200 4 01070000020200081208001204947121
e del 4 0 1 4 4917
m 1 200 5 0900030b0d08120800120494712102420601aa
m 1 200 4 01080000020200081208001204947121
";

const EDITS_PRINTED: &str = "= control
1.0.10 new e1
1.0.13 new e2
= conn 0
1.1.12 e1 to 400
 > 400 4 01200000020200085208001204947121
1.1.15 e2 to 300
 > 300 4 01400000020200085208001204947121
= data 0
1.1.11 e1 to 400
 > 400 5 0900030b0f0852080012049471210443c8000601aa
1.1.14 e2 to 300
 > 300 5 0900030b0f0852080012049471210443c8000601aa
";

/// A data lane and a connection lane see an edit of their own phase.
#[test]
fn edits_within_a_phase(rt: HostRuntime) -> Result<(), Fail> {
    let pacing = Pacing::Order(Order {
        holds: [held(11, 10), held(13, 12), held(14, 13)],
    });
    let text = EDITS.as_bytes();
    let ran = call_at(&rt, rt.alloc(), &["run"], text, [SOUND; 3], &pacing)?;
    assert_left(&rt, &ran, 0, EDITS_PRINTED.as_bytes(), b"");
    assert!(rt; pacing.is_kept());
    Ok(())
}
