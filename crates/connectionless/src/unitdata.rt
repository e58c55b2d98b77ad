//! The messages of the connectionless service (Q.713, 4.10, 4.11 and 4.18 to 4.21), as one view of their parameters.
ghost use Rattle.std.specs.Prelude.{◌≡◌, IsTrue};
ghost use Rattle.std.specs.Option.{option_map};
ghost use Rattle.q713_codec.specs.Reading.{seen};
ghost use Rattle.q713_codec.specs.Writing.{is_unit};
ghost use Rattle.connectionless.specs.Unitdata.{unitdata_of, message_of};
ghost use Rattle.connectionless.specs.Inner.Units.{seen_unit};

use q713_codec::View;

/// UDT and UDTS, XUDT and XUDTS, or LUDT and LUDTS.
#[derive(Clone, Copy, PartialEq, Eq)]
pub enum Kind {
    Basic,
    Extended,
    Long,
}

/// A unit (UDT, XUDT, LUDT) or a service message (UDTS, XUDTS, LUDTS).
#[derive(Clone, Copy)]
pub struct UnitView<'a> {
    pub kind: Kind,
    pub is_service: bool,
    /// The class octet of a unit, the return cause of a service message.
    pub first: u8,
    /// The hop counter, which UDT and UDTS don't have.
    pub hop: Option<u8>,
    pub called: &'a [u8],
    pub calling: &'a [u8],
    pub body: &'a [u8],
    pub segmentation: Option<[u8; 4]>,
    pub importance: Option<u8>,
}

/// The unit or service message that a message is; None where it is of another service.
#[tactic(auto, unfolding(crate::specs::Unitdata::unitdata_of))]
pub fn unit_of<'a>(view: &View<'a>) -> Option<UnitView<'a>>
    ensures { option_map seen_unit result ≡ unitdata_of (seen view.now) }
{
    // Of each message: its kind, whether it is a service message, and its first octet. Those of the second list have
    // a hop counter and an optional part.
    macro_rules! unit_in {
        (
            { $($short:ident $short_kind:ident $short_is_service:literal $short_first:ident),* }
            { $($variant:ident $kind:ident $is_service:literal $first:ident),* }
        ) => {
            match *view {
                $(View::$short { $short_first, called, calling, body } => UnitView {
                    kind: Kind::$short_kind,
                    is_service: $short_is_service,
                    first: $short_first,
                    hop: None,
                    called,
                    calling,
                    body,
                    segmentation: None,
                    importance: None,
                },)*
                $(View::$variant { $first, hop, called, calling, body, segmentation, importance } => UnitView {
                    kind: Kind::$kind,
                    is_service: $is_service,
                    first: $first,
                    hop: Some(hop),
                    called,
                    calling,
                    body,
                    segmentation,
                    importance,
                },)*
                _ => return None,
            }
        };
    }
    Some(unit_in! {
        { Udt Basic false class_octet, Udts Basic true cause }
        {
            Xudt Extended false class_octet,
            Xudts Extended true cause,
            Ludt Long false class_octet,
            Ludts Long true cause
        }
    })
}

/// The message that a unit or service message is, with its octets where they lie.
#[tactic(auto, unfolding(crate::specs::Unitdata::message_of))]
pub fn view_of<'a>(unit: &UnitView<'a>) -> View<'a>
    ensures value { seen result ≡ message_of (seen_unit unit.now) }
    ensures unit { IsTrue (is_unit result) }
{
    let UnitView {
        called,
        calling,
        body,
        segmentation,
        importance,
        ..
    } = *unit;
    let hop = unit.hop.unwrap_or(0);
    macro_rules! view_from {
        (
            { $($short:ident $short_kind:ident $short_is_service:literal $short_first:ident),* }
            { $($variant:ident $kind:ident $is_service:literal $first:ident),* }
        ) => {
            match (unit.kind, unit.is_service) {
                $((Kind::$short_kind, $short_is_service) => View::$short {
                    $short_first: unit.first,
                    called,
                    calling,
                    body,
                },)*
                $((Kind::$kind, $is_service) => View::$variant {
                    $first: unit.first,
                    hop,
                    called,
                    calling,
                    body,
                    segmentation,
                    importance,
                },)*
            }
        };
    }
    view_from! {
        { Udt Basic false class_octet, Udts Basic true cause }
        {
            Xudt Extended false class_octet,
            Xudts Extended true cause,
            Ludt Long false class_octet,
            Ludts Long true cause
        }
    }
}
