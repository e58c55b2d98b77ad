//! Writing a message, how long it is, and whether it may be written.
ghost use Rattle.std.specs.Prelude.{◌≡◌, length, IfOk, IsTrue, Ok};
ghost use Rattle.q713_codec.specs.Reading.{reading_of, seen};
ghost use Rattle.q713_codec.specs.Writing.{spelling_of, spelling_within, is_within, is_in_range, is_unit, InRange};
ghost use Rattle.q713_codec.specs.Inner.Groups.{is_unitdata, is_extended, is_long, is_request, is_answer, is_data, is_fixed};
ghost use Rattle.q713_codec.specs.Inner.Written.{IsWritten};

use crate::message::{Message, View};
use crate::parts::{
    ak_written, cc_written, cr_written, cref_written, dt1_written, dt2_written, ea_written,
    ed_written, err_written, it_written, ludt_written, ludts_written, rlc_written, rlsd_written,
    rsc_written, rsr_written, udt_written, udts_written, xudt_written, xudts_written,
};
use crate::written::Written;
use relay_base::{Memory, Octets};
use std::alloc::Global;

/// The octets of an address or of data that a message owns.
fn owned(octets: &Octets) -> &[u8]
    ensures { result.now ≡ octets.now }
{
    octets.as_slice()
}

/// The octets of an address or of data that lie elsewhere.
fn lent<'a>(octets: &&'a [u8]) -> &'a [u8]
    ensures { result.now ≡ octets.now.now }
{
    *octets
}

/// The message as the function of its type writes it: for each type the fields that are copied, then those of octets, and those that are lent.
macro_rules! written_by {
    ($message:ident, $octets:ident; $($variant:ident { $($value:ident),*; $($part:ident),*; $($place:ident),* } $written:ident)*) => {
        match $message {
            $(Message::$variant { $($value,)* $($part,)* $($place,)* } => {
                $written($(*$value,)* $($octets($part),)* $($place,)*)
            })*
            _ => unreachable!(),
        }
    };
}

/// UDT or UDTS.
fn unitdata_written(message: &Message) -> Written<'_>
    requires { IsTrue (is_unitdata message.now) }
    ensures { IsWritten result message.now }
{
    written_by! { message, owned;
        Udt { class_octet; called, calling, body; } udt_written
        Udts { cause; called, calling, body; } udts_written
    }
}

/// XUDT or XUDTS.
fn extended_written(message: &Message) -> Written<'_>
    requires { IsTrue (is_extended message.now) }
    ensures { IsWritten result message.now }
{
    written_by! { message, owned;
        Xudt { class_octet, hop; called, calling, body; segmentation, importance } xudt_written
        Xudts { cause, hop; called, calling, body; segmentation, importance } xudts_written
    }
}

/// LUDT or LUDTS.
fn long_written(message: &Message) -> Written<'_>
    requires { IsTrue (is_long message.now) }
    ensures { IsWritten result message.now }
{
    written_by! { message, owned;
        Ludt { class_octet, hop; called, calling, body; segmentation, importance } ludt_written
        Ludts { cause, hop; called, calling, body; segmentation, importance } ludts_written
    }
}

/// UDT or UDTS whose octets lie elsewhere.
fn unitdata_lent<'v>(view: &'v View<'_>) -> Written<'v>
    requires { IsTrue (is_unitdata view.now) }
    ensures { IsWritten result (seen view.now) }
{
    written_by! { view, lent;
        Udt { class_octet; called, calling, body; } udt_written
        Udts { cause; called, calling, body; } udts_written
    }
}

/// XUDT or XUDTS whose octets lie elsewhere.
fn extended_lent<'v>(view: &'v View<'_>) -> Written<'v>
    requires { IsTrue (is_extended view.now) }
    ensures { IsWritten result (seen view.now) }
{
    written_by! { view, lent;
        Xudt { class_octet, hop; called, calling, body; segmentation, importance } xudt_written
        Xudts { cause, hop; called, calling, body; segmentation, importance } xudts_written
    }
}

/// LUDT or LUDTS whose octets lie elsewhere.
fn long_lent<'v>(view: &'v View<'_>) -> Written<'v>
    requires { IsTrue (is_long view.now) }
    ensures { IsWritten result (seen view.now) }
{
    written_by! { view, lent;
        Ludt { class_octet, hop; called, calling, body; segmentation, importance } ludt_written
        Ludts { cause, hop; called, calling, body; segmentation, importance } ludts_written
    }
}

/// A unit or a service message whose octets lie elsewhere.
fn unit_lent<'v>(view: &'v View<'_>) -> Written<'v>
    requires { IsTrue (is_unit view.now) }
    ensures { IsWritten result (seen view.now) }
{
    match view {
        View::Udt { .. } | View::Udts { .. } => unitdata_lent(view),
        View::Xudt { .. } | View::Xudts { .. } => extended_lent(view),
        View::Ludt { .. } | View::Ludts { .. } => long_lent(view),
        _ => unreachable!(),
    }
}

/// CR.
fn request_written(message: &Message) -> Written<'_>
    requires { IsTrue (is_request message.now) }
    ensures { IsWritten result message.now }
{
    written_by! { message, owned;
        Cr { slr, class_octet; called; credit, calling, body, hop, importance } cr_written
    }
}

/// CC or CREF.
fn answer_written(message: &Message) -> Written<'_>
    requires { IsTrue (is_answer message.now) }
    ensures { IsWritten result message.now }
{
    written_by! { message, owned;
        Cc { dlr, slr, class_octet; ; credit, called, body, importance } cc_written
        Cref { dlr, cause; ; called, body, importance } cref_written
    }
}

/// RLSD, DT1, DT2 or ED.
fn data_written(message: &Message) -> Written<'_>
    requires { IsTrue (is_data message.now) }
    ensures { IsWritten result message.now }
{
    written_by! { message, owned;
        Rlsd { dlr, slr, cause; ; body, importance } rlsd_written
        Dt1 { dlr, segmenting; body; } dt1_written
        Dt2 { dlr, sequencing; body; } dt2_written
        Ed { dlr; body; } ed_written
    }
}

/// RLC, AK, EA, RSR, RSC, ERR or IT.
fn fixed_written(message: &Message) -> Written<'_>
    requires { IsTrue (is_fixed message.now) }
    ensures { IsWritten result message.now }
{
    written_by! { message, owned;
        Rlc { dlr, slr;; } rlc_written
        Ak { dlr, receive, credit;; } ak_written
        Ea { dlr;; } ea_written
        Rsr { dlr, slr, cause;; } rsr_written
        Rsc { dlr, slr;; } rsc_written
        Err { dlr, cause;; } err_written
        It { dlr, slr, class_octet, sequencing, credit;; } it_written
    }
}

/// A message as it is written, whatever its type.
fn written(message: &Message) -> Written<'_>
    ensures { IsWritten result message.now }
{
    match message {
        Message::Udt { .. } | Message::Udts { .. } => unitdata_written(message),
        Message::Xudt { .. } | Message::Xudts { .. } => extended_written(message),
        Message::Ludt { .. } | Message::Ludts { .. } => long_written(message),
        Message::Cr { .. } => request_written(message),
        Message::Cc { .. } | Message::Cref { .. } => answer_written(message),
        Message::Rlsd { .. } | Message::Ed { .. } => data_written(message),
        Message::Dt1 { .. } | Message::Dt2 { .. } => data_written(message),
        Message::Rlc { .. } | Message::Ak { .. } | Message::Ea { .. } => fixed_written(message),
        Message::Rsr { .. } | Message::Rsc { .. } => fixed_written(message),
        Message::Err { .. } | Message::It { .. } => fixed_written(message),
    }
}

impl Message {
    /// Whether the message may be written: its lengths are those of Q.713, and each pointer is at most 255, in LUDT and LUDTS at
    /// most 65,535.
    pub fn in_range(&self) -> bool
        ensures { result ≡ is_in_range self.now }
    {
        written(self).layout().fits()
    }
}

/// The canonical octets of a message (Q.713): its parameters stand in the order of the table, without gaps, and the optional part
/// ends with 00; its pointer is 0 where it has no parameter. `read` gives the same message for them.
pub fn write(alloc: Global, message: &Message) -> Result<Octets, Memory>
    requires { InRange message.now }
    ensures octets { IfOk result (λ o. o ≡ spelling_of message.now) }
    ensures read_back { IfOk result (λ o. reading_of o ≡ Ok message.now) }
{
    written(message).layout().put(alloc)
}

/// How many octets `write` gives.
pub fn length(message: &Message) -> usize
    requires { InRange message.now }
    ensures { result ≡ length (spelling_of message.now) }
{
    written(message).layout().length()
}

fn is_within(count: usize, most: Option<usize>) -> bool
    ensures { result ≡ is_within most count }
{
    match most {
        Some(most) => count <= most,
        None => true,
    }
}

/// The canonical octets of a unit or a service message (Q.713, 4.10, 4.11 and 4.18 to 4.21) whose octets lie elsewhere, as `write` gives them; None where it may
/// not be written, or has more octets than `longest`.
pub fn write_unit(
    alloc: Global,
    unit: &View<'_>,
    longest: Option<usize>,
) -> Result<Option<Octets>, Memory>
    requires { IsTrue (is_unit unit.now) }
    ensures { IfOk result (λ octets. octets ≡ spelling_within longest (seen unit.now)) }
{
    let written = unit_lent(unit);
    let layout = written.layout();
    if !layout.fits() {
        return Ok(None);
    }
    if !is_within(layout.length(), longest) {
        return Ok(None);
    }
    Ok(Some(layout.put(alloc)?))
}
