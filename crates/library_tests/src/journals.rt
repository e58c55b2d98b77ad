//! The print of journals, against a text that follows from its rules alone.
use journal_text::{Book, print_book};
use plant_core::{Answer, Asked, Entry, EntryList};
use relay_base::{Event, Outs, Ssn, Stamp};
use std::test::Fail;

/// An entry of the greatest numbers, which no capture gives.
#[test]
fn prints_the_greatest_numbers(rt: HostRuntime) -> Result<(), Fail> {
    let alloc = rt.alloc();
    let mut lane = EntryList::new(alloc);
    lane.push(Entry {
        stamp: Stamp {
            phase: u32::MAX,
            link: u8::MAX,
            line: u32::MAX,
        },
        event: Event::Tick,
        asked: Some(Asked {
            edition: u64::MAX,
            answer: Answer::Local(Ssn::from(8)),
        }),
        outs: Outs::new(alloc),
    })?;
    let mut book = Book::new(alloc);
    book.units.push(lane)?;
    let print = print_book(alloc, &book)?;
    assert_eq!(rt;
        print.as_slice(),
        b"= control\n= data 0\n4294967295.255.4294967295 e18446744073709551615 local 8\n".as_slice()
    );
    Ok(())
}
