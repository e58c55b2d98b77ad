//! What a connection looks at in a message.
ghost use Rattle.std.specs.Prelude.{◌≡◌, Some, IsTrue};
ghost use Rattle.std.specs.Option.{option_map};
ghost use Rattle.q713_codec.specs.Reading.{seen};
ghost use Rattle.section_model.specs.Parameters.{only_dlr, arrival_of, arrival_in};
ghost use Rattle.section_model.specs.Views.{seen_parameters, seen_arrival};
ghost use Rattle.section_model.specs.Inner.Groups.{is_of_setup, is_of_data, is_of_upkeep};

use crate::cell::Occasion;
use q713_codec::{View, protocol_class, read};
use relay_base::Ref24;

/// The parameters of a message for a connection, in the octets that it was read from; 0, none and no octets stand for those that its
/// type lacks. Classes are 0 to 15, sequence numbers 0 to 127.
#[derive(Clone, Copy)]
pub struct ParametersView<'a> {
    pub dlr: Ref24,
    pub slr: Ref24,
    pub class: u8,
    pub cause: u8,
    pub credit: Option<u8>,
    pub called: Option<&'a [u8]>,
    pub body: Option<&'a [u8]>,
    pub importance: Option<u8>,
    pub data_octets: &'a [u8],
    pub more: bool,
    pub ps: u8,
    pub pr: u8,
}

/// A message for a connection: what it is to a section, and its parameters.
#[derive(Clone, Copy)]
pub struct ArrivalView<'a> {
    pub occasion: Occasion,
    pub parameters: ParametersView<'a>,
}

impl<'a> ParametersView<'a> {
    /// A destination local reference, and no other parameter.
    fn only_dlr(dlr: Ref24) -> ParametersView<'a>
        ensures { seen_parameters result ≡ only_dlr dlr }
    {
        ParametersView {
            dlr,
            slr: Ref24::new(0).unwrap(),
            class: 0,
            cause: 0,
            credit: None,
            called: None,
            body: None,
            importance: None,
            data_octets: &[],
            more: false,
            ps: 0,
            pr: 0,
        }
    }
}

/// A message for a connection, with the parameters that its type has.
macro_rules! arrives {
    ($occasion:ident, $dlr:ident $(, $field:ident: $value:expr)*) => {
        ArrivalView {
            occasion: Occasion::$occasion,
            parameters: ParametersView {
                $($field: $value,)*
                ..ParametersView::only_dlr($dlr)
            },
        }
    };
}

/// What CC, CREF, RLSD or RLC is to a connection.
#[tactic(auto, unfolding(crate::specs::Parameters::arrival_of))]
fn arrival_of_setup<'a>(view: &View<'a>) -> ArrivalView<'a>
    requires { IsTrue (is_of_setup view.now) }
    ensures { Some (seen_arrival result) ≡ arrival_of (seen view.now) }
{
    match *view {
        View::Cc {
            dlr,
            slr,
            class_octet,
            credit,
            called,
            body,
            importance,
        } => {
            arrives!(Cc, dlr, slr: slr, class: protocol_class(class_octet), credit: credit, called: called, body: body, importance: importance)
        }
        View::Cref {
            dlr,
            cause,
            called,
            body,
            importance,
        } => {
            arrives!(Cref, dlr, cause: cause, called: called, body: body, importance: importance)
        }
        View::Rlsd {
            dlr,
            slr,
            cause,
            body,
            importance,
        } => { arrives!(Rlsd, dlr, slr: slr, cause: cause, body: body, importance: importance) }
        View::Rlc { dlr, slr } => arrives!(Rlc, dlr, slr: slr),
        _ => unreachable!(),
    }
}

/// What DT1, DT2, AK, ED or EA is to a connection.
#[tactic(auto, unfolding(crate::specs::Parameters::arrival_of))]
fn arrival_of_data<'a>(view: &View<'a>) -> ArrivalView<'a>
    requires { IsTrue (is_of_data view.now) }
    ensures { Some (seen_arrival result) ≡ arrival_of (seen view.now) }
{
    match *view {
        View::Dt1 {
            dlr,
            segmenting,
            body,
        } => { arrives!(Dt1, dlr, data_octets: body, more: segmenting % 2 == 1) }
        View::Dt2 {
            dlr,
            sequencing,
            body,
        } => {
            arrives!(Dt2, dlr, data_octets: body, more: sequencing[1] % 2 == 1, ps: sequencing[0] / 2, pr: sequencing[1] / 2)
        }
        View::Ak {
            dlr,
            receive,
            credit,
        } => arrives!(Ak, dlr, pr: receive / 2, credit: Some(credit)),
        View::Ed { dlr, body } => arrives!(Ed, dlr, data_octets: body),
        View::Ea { dlr } => arrives!(Ea, dlr),
        _ => unreachable!(),
    }
}

/// What RSR, RSC, ERR or IT is to a connection.
#[tactic(auto, unfolding(crate::specs::Parameters::arrival_of))]
fn arrival_of_upkeep<'a>(view: &View<'a>) -> ArrivalView<'a>
    requires { IsTrue (is_of_upkeep view.now) }
    ensures { Some (seen_arrival result) ≡ arrival_of (seen view.now) }
{
    match *view {
        View::Rsr { dlr, slr, cause } => arrives!(Rsr, dlr, slr: slr, cause: cause),
        View::Rsc { dlr, slr } => arrives!(Rsc, dlr, slr: slr),
        View::Err { dlr, cause } => arrives!(Err, dlr, cause: cause),
        View::It {
            dlr,
            slr,
            class_octet,
            ..
        } => { arrives!(It, dlr, slr: slr, class: protocol_class(class_octet)) }
        _ => unreachable!(),
    }
}

/// The message for a connection that a message is: None for CR, and for a message of the connectionless service.
#[tactic(auto, unfolding(crate::specs::Parameters::arrival_of))]
pub fn arrival_of<'a>(view: &View<'a>) -> Option<ArrivalView<'a>>
    ensures { option_map seen_arrival result ≡ arrival_of (seen view.now) }
{
    match view {
        View::Cc { .. } | View::Cref { .. } | View::Rlsd { .. } => Some(arrival_of_setup(view)),
        View::Rlc { .. } => Some(arrival_of_setup(view)),
        View::Dt1 { .. } | View::Dt2 { .. } | View::Ak { .. } => Some(arrival_of_data(view)),
        View::Ed { .. } | View::Ea { .. } => Some(arrival_of_data(view)),
        View::Rsr { .. } | View::Rsc { .. } => Some(arrival_of_upkeep(view)),
        View::Err { .. } | View::It { .. } => Some(arrival_of_upkeep(view)),
        View::Cr { .. } | View::Udt { .. } | View::Udts { .. } => None,
        View::Xudt { .. } | View::Xudts { .. } | View::Ludt { .. } | View::Ludts { .. } => None,
    }
}

/// The message for a connection that octets are, if they are one (Q.713).
#[tactic(auto, unfolding(crate::specs::Parameters::arrival_in))]
pub fn arrival_in(bytes: &[u8]) -> Option<ArrivalView<'_>>
    ensures { option_map seen_arrival result ≡ arrival_in bytes.now }
{
    match read(bytes) {
        Ok(view) => arrival_of(&view),
        Err(_) => None,
    }
}
