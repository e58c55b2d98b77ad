//! A wheel with memory for so many timers in all.
use std::test::Fail;
use timer_wheel::{Due, Wheel};

#[test]
fn takes_memory_for_all(rt: HostRuntime) -> Result<(), Fail> {
    let mut wheel = Wheel::new(rt.alloc());
    wheel.reserve(2)?;
    wheel.arm(3, 1, 1);
    wheel.arm(1, 0, 1);
    let due = wheel.due(rt.alloc())?;
    let both = [Due { conn: 1, timer: 0 }, Due { conn: 3, timer: 1 }];
    assert_eq!(rt; due.as_slice(), both.as_slice());
    Ok(())
}
