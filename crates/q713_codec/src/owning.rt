//! Owning a message.
ghost use Rattle.std.specs.Prelude.{◌≡◌, IfOk, IsTrue};
ghost use Rattle.q713_codec.specs.Reading.{seen, optional_seen};
ghost use Rattle.q713_codec.specs.Inner.Groups.{is_unitdata, is_extended, is_long, is_request, is_answer, is_data};

use crate::message::{Message, View};
use relay_base::{Memory, Octets};
use std::alloc::Global;

/// The variable parameters of a connectionless message.
#[derive(Drop)]
struct UnitParts {
    called: Octets,
    calling: Octets,
    body: Octets,
}

fn own_unit(alloc: Global, called: &[u8], calling: &[u8], body: &[u8]) -> Result<UnitParts, Memory>
    ensures called { IfOk result (λ parts. parts.called ≡ called.now) }
    ensures calling { IfOk result (λ parts. parts.calling ≡ calling.now) }
    ensures body { IfOk result (λ parts. parts.body ≡ body.now) }
{
    Ok(UnitParts {
        called: Octets::from_slice(alloc, called)?,
        calling: Octets::from_slice(alloc, calling)?,
        body: Octets::from_slice(alloc, body)?,
    })
}

/// The addresses and the data of a connection request.
#[derive(Drop)]
struct RequestParts {
    called: Octets,
    calling: Option<Octets>,
    body: Option<Octets>,
}

fn own_request(
    alloc: Global,
    called: &[u8],
    calling: Option<&[u8]>,
    body: Option<&[u8]>,
) -> Result<RequestParts, Memory>
    ensures called { IfOk result (λ parts. parts.called ≡ called.now) }
    ensures calling { IfOk result (λ parts. parts.calling ≡ optional_seen calling.entry) }
    ensures body { IfOk result (λ parts. parts.body ≡ optional_seen body.entry) }
{
    Ok(RequestParts {
        called: Octets::from_slice(alloc, called)?,
        calling: Octets::from_optional(alloc, calling)?,
        body: Octets::from_optional(alloc, body)?,
    })
}

/// The address and the data of the answer to a connection request.
#[derive(Drop)]
struct AnswerParts {
    called: Option<Octets>,
    body: Option<Octets>,
}

fn own_answer(
    alloc: Global,
    called: Option<&[u8]>,
    body: Option<&[u8]>,
) -> Result<AnswerParts, Memory>
    ensures called { IfOk result (λ parts. parts.called ≡ optional_seen called.entry) }
    ensures body { IfOk result (λ parts. parts.body ≡ optional_seen body.entry) }
{
    Ok(AnswerParts {
        called: Octets::from_optional(alloc, called)?,
        body: Octets::from_optional(alloc, body)?,
    })
}

/// The message with copies of the parts of a view: for each type the fields that are copied as they are, then those of octets.
macro_rules! copied {
    ($alloc:ident, $view:ident; $($parted:ident { $($field:ident),* } $own:ident { $($part:ident),* })*;
        $($single:ident { $($beside:ident),* } $from:ident $octets:ident)*) => {
        match *$view {
            $(View::$parted { $($field,)* $($part,)* } => {
                let parts = $own($alloc, $($part),*)?;
                Ok(Message::$parted { $($field,)* $($part: parts.$part,)* })
            })*
            $(View::$single { $($beside,)* $octets } => {
                let copy = Octets::$from($alloc, $octets)?;
                Ok(Message::$single { $($beside,)* $octets: copy })
            })*
            _ => unreachable!(),
        }
    };
}

/// UDT or UDTS.
fn own_unitdata(alloc: Global, view: &View<'_>) -> Result<Message, Memory>
    requires { IsTrue (is_unitdata view.now) }
    ensures { IfOk result (λ message. message ≡ seen view.now) }
{
    copied! { alloc, view;
        Udt { class_octet } own_unit { called, calling, body }
        Udts { cause } own_unit { called, calling, body };
    }
}

/// XUDT or XUDTS.
fn own_extended(alloc: Global, view: &View<'_>) -> Result<Message, Memory>
    requires { IsTrue (is_extended view.now) }
    ensures { IfOk result (λ message. message ≡ seen view.now) }
{
    copied! { alloc, view;
        Xudt { class_octet, hop, segmentation, importance } own_unit { called, calling, body }
        Xudts { cause, hop, segmentation, importance } own_unit { called, calling, body };
    }
}

/// LUDT or LUDTS.
fn own_long(alloc: Global, view: &View<'_>) -> Result<Message, Memory>
    requires { IsTrue (is_long view.now) }
    ensures { IfOk result (λ message. message ≡ seen view.now) }
{
    copied! { alloc, view;
        Ludt { class_octet, hop, segmentation, importance } own_unit { called, calling, body }
        Ludts { cause, hop, segmentation, importance } own_unit { called, calling, body };
    }
}

/// CR.
fn own_cr(alloc: Global, view: &View<'_>) -> Result<Message, Memory>
    requires { IsTrue (is_request view.now) }
    ensures { IfOk result (λ message. message ≡ seen view.now) }
{
    copied! { alloc, view;
        Cr { slr, class_octet, credit, hop, importance } own_request { called, calling, body };
    }
}

/// CC or CREF.
fn own_answering(alloc: Global, view: &View<'_>) -> Result<Message, Memory>
    requires { IsTrue (is_answer view.now) }
    ensures { IfOk result (λ message. message ≡ seen view.now) }
{
    copied! { alloc, view;
        Cc { dlr, slr, class_octet, credit, importance } own_answer { called, body }
        Cref { dlr, cause, importance } own_answer { called, body };
    }
}

/// RLSD, DT1, DT2 or ED.
fn own_data(alloc: Global, view: &View<'_>) -> Result<Message, Memory>
    requires { IsTrue (is_data view.now) }
    ensures { IfOk result (λ message. message ≡ seen view.now) }
{
    copied! { alloc, view; ;
        Rlsd { dlr, slr, cause, importance } from_optional body
        Dt1 { dlr, segmenting } from_slice body
        Dt2 { dlr, sequencing } from_slice body
        Ed { dlr } from_slice body
    }
}

/// The message whose parts lie in octets, with copies of them.
pub fn own(alloc: Global, view: &View<'_>) -> Result<Message, Memory>
    ensures { IfOk result (λ message. message ≡ seen view.now) }
{
    macro_rules! plain {
        ($($variant:ident { $($field:ident),* })*) => {
            match *view {
                View::Udt { .. } | View::Udts { .. } => own_unitdata(alloc, view),
                View::Xudt { .. } | View::Xudts { .. } => own_extended(alloc, view),
                View::Ludt { .. } | View::Ludts { .. } => own_long(alloc, view),
                View::Cr { .. } => own_cr(alloc, view),
                View::Cc { .. } | View::Cref { .. } => own_answering(alloc, view),
                View::Rlsd { .. } | View::Ed { .. } => own_data(alloc, view),
                View::Dt1 { .. } | View::Dt2 { .. } => own_data(alloc, view),
                $(View::$variant { $($field,)* } => Ok(Message::$variant { $($field,)* }),)*
            }
        };
    }
    plain! {
        Rlc { dlr, slr }
        Ak { dlr, receive, credit }
        Ea { dlr }
        Rsr { dlr, slr, cause }
        Rsc { dlr, slr }
        Err { dlr, cause }
        It { dlr, slr, class_octet, sequencing, credit }
    }
}
