//! Looks from one thread at what another publishes.
ghost use Rattle.std.specs.Prelude.{◌≡◌, [], length};

use gtt_editions::{Place, Publisher, editions};
use plant_core::{Change, Group, Plant};
use relay_base::{Memory, Pc, Ssn};
use std::alloc::Global;
use std::sync::Wait;
use std::test::Fail;
use std::thread;

/// The editions at which a hundred looks were: the first, the last, and whether none is older than the one before.
#[derive(Clone, Copy)]
struct Looks {
    first: u64,
    last: u64,
    rising: bool,
}

// Publishes ten groups of one change: a user goes out of service and in again.
fn publish_ten<'r, R: Wait>(
    alloc: Global,
    publisher: Publisher<'r, R>,
) -> Result<Publisher<'r, R>, Memory>
    requires first { publisher.opened.number ≡ 0 }
    requires none { publisher.seen.changes ≡ [] }
{
    let mut publisher = publisher;
    let user = Ssn::from(8);
    let down = Group::of(alloc, Change::LocalDown(user));
    let up = Group::of(alloc, Change::LocalUp(user));
    for _ in 0..5u32 {
        publisher.publish(&down)?;
        publisher.publish(&up)?;
    }
    Ok(publisher)
}

fn edition_seen<'r, R: Wait>(place: Place<'r, R>) -> (Place<'r, R>, u64) {
    let looking = place.look();
    let edition = looking.plant().edition();
    (looking.leave(), edition)
}

fn look_often<'r, R: Wait>(place: Place<'r, R>) -> (Place<'r, R>, Looks) {
    let (mut place, first) = edition_seen(place);
    let mut looks = Looks {
        first,
        last: first,
        rising: true,
    };
    for _ in 1..100 {
        let (left, edition) = edition_seen(place);
        place = left;
        looks.rising = looks.rising && looks.last <= edition;
        looks.last = edition;
    }
    (place, looks)
}

#[test]
fn sees_ten_groups_come_in(rt: HostRuntime) -> Result<(), Fail> {
    let point = Pc::new(100).expect(&rt, "a point code");
    let alloc = rt.alloc();
    let plant = Plant::start(alloc, point, &[Ssn::from(8)])?;
    let (publisher, mut places) = editions(&rt, alloc, plant, 1)?;
    let place = places.pop().expect(&rt, "a place");
    let (published, (mut place, during)) = thread::join(
        &rt,
        || publish_ten(alloc, publisher),
        || look_often(place),
    );
    let publisher = published?;
    assert!(rt; during.rising, "an older edition than the one before");
    place.learn(publisher.tell());
    let (mut place, after) = look_often(place);
    assert!(rt;
        after.first == 10 && after.last == 10,
        "an older edition than the last"
    );
    let ended = publisher.end()?;
    place.learn(ended.tell());
    assert_eq!(rt; ended.edition(), 10);
    Ok(())
}
