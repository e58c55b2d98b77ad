//! Laws of the definitions, each as the contract of a function.
ghost use Rattle.unit_law.specs.Together.{SegmentsComeTogether};
ghost use Rattle.unit_law.specs.Short.{ShortenedAreShort, ShortenedComeTogether};

/// The segments of what is cut, a user's unit or an LUDT, read as segments where they arrive. Fed in their order to the reassemblies, with
/// none of their key under way, room for one and no tick between, more are awaited after each up to the last, which gives the whole: the
/// data, the addresses and the class of what was cut.
pub fn segments_come_together()
    ensures { SegmentsComeTogether }
{}

/// An LUDT that is cut for a point that can't take it leaves in segments that come together there.
pub fn shortened_ones_come_together()
    ensures { ShortenedComeTogether }
{}

/// Each XUDT and XUDTS that takes the place of an LUDT or an LUDTS has at most 268 octets.
pub fn shortened_ones_are_short()
    ensures { ShortenedAreShort }
{}
