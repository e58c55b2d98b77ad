//! Reading the messages of each type (Q.713, 4.2 to 4.21): what field of the message each part of its shape is.
ghost use Rattle.std.specs.Prelude.{◌≡◌, ◌<◌, length, slice_index};
ghost use Rattle.relay_base.specs.Giving.{Gives};
ghost use Rattle.q713_codec.specs.Formats.{cr_format, cc_format, cref_format, rlsd_format, rlc_format, dt1_format, dt2_format, ak_format, udt_format, udts_format, ed_format, ea_format, rsr_format, rsc_format, err_format, it_format, xudt_format, xudts_format, ludt_format, ludts_format};
ghost use Rattle.q713_codec.specs.Messages.{cr_of, cc_of, cref_of, rlsd_of, rlc_of, dt1_of, dt2_of, ak_of, udt_of, udts_of, ed_of, ea_of, rsr_of, rsc_of, err_of, it_of, xudt_of, xudts_of, ludt_of, ludts_of};
ghost use Rattle.q713_codec.specs.Reading.{kind_of, message_as, seen};

use crate::fields::{four, octet, optional, pair, reference, variable};
use crate::message::View;
use crate::shapes::{
    ak_shape, cc_shape, cr_shape, cref_shape, dt1_shape, dt2_shape, ea_shape, ed_shape, err_shape,
    it_shape, ludt_shape, ludts_shape, rlc_shape, rlsd_shape, rsc_shape, rsr_shape, udt_shape,
    udts_shape, xudt_shape, xudts_shape,
};
use relay_base::ReadFault;

/// A field of a message, by what it is and its place in its part.
macro_rules! field {
    ($parts:ident, reference, $place:literal) => {
        reference(&$parts.fixed, $place)
    };
    ($parts:ident, octet, $place:literal) => {
        $parts.fixed[$place]
    };
    ($parts:ident, pair, $place:literal) => {
        pair(&$parts.fixed, $place)
    };
    ($parts:ident, variable, $place:literal) => {
        variable(&$parts.vars, $place)
    };
    ($parts:ident, optional, $place:literal) => {
        optional(&$parts.options, $place)
    };
    ($parts:ident, optional_octet, $place:literal) => {
        octet(&$parts.options, $place)
    };
    ($parts:ident, optional_four, $place:literal) => {
        four(&$parts.options, $place)
    };
}

/// Reads the parts of a shape as the fields of a message.
macro_rules! read_as {
    ($shape:ident, $bytes:ident, $variant:ident { $($field:ident: $what:ident $place:literal,)* }) => {{
        let parts = $shape().take_parts($bytes)?;
        Ok(View::$variant { $($field: field!(parts, $what, $place),)* })
    }};
}

/// A message of the type connection request (01).
#[tactic(auto, unfolding(crate::specs::Reading::message_as))]
pub fn read_cr(bytes: &[u8]) -> Result<View<'_>, ReadFault>
    requires { 0 < length bytes.now → slice_index bytes.now 0 ≡ 1 }
    ensures { Gives seen result (message_as (kind_of cr_format cr_of) bytes.now) }
{
    read_as!(cr_shape, bytes, Cr {
        slr: reference 0,
        class_octet: octet 3,
        called: variable 0,
        credit: optional_octet 0,
        calling: optional 1,
        body: optional 2,
        hop: optional_octet 3,
        importance: optional_octet 4,
    })
}

/// A message of the type connection confirm (02).
#[tactic(auto, unfolding(crate::specs::Reading::message_as))]
pub fn read_cc(bytes: &[u8]) -> Result<View<'_>, ReadFault>
    requires { 0 < length bytes.now → slice_index bytes.now 0 ≡ 2 }
    ensures { Gives seen result (message_as (kind_of cc_format cc_of) bytes.now) }
{
    read_as!(cc_shape, bytes, Cc {
        dlr: reference 0,
        slr: reference 3,
        class_octet: octet 6,
        credit: optional_octet 0,
        called: optional 1,
        body: optional 2,
        importance: optional_octet 3,
    })
}

/// A message of the type connection refused (03).
#[tactic(auto, unfolding(crate::specs::Reading::message_as))]
pub fn read_cref(bytes: &[u8]) -> Result<View<'_>, ReadFault>
    requires { 0 < length bytes.now → slice_index bytes.now 0 ≡ 3 }
    ensures { Gives seen result (message_as (kind_of cref_format cref_of) bytes.now) }
{
    read_as!(cref_shape, bytes, Cref {
        dlr: reference 0,
        cause: octet 3,
        called: optional 0,
        body: optional 1,
        importance: optional_octet 2,
    })
}

/// A message of the type released (04).
#[tactic(auto, unfolding(crate::specs::Reading::message_as))]
pub fn read_rlsd(bytes: &[u8]) -> Result<View<'_>, ReadFault>
    requires { 0 < length bytes.now → slice_index bytes.now 0 ≡ 4 }
    ensures { Gives seen result (message_as (kind_of rlsd_format rlsd_of) bytes.now) }
{
    read_as!(rlsd_shape, bytes, Rlsd {
        dlr: reference 0,
        slr: reference 3,
        cause: octet 6,
        body: optional 0,
        importance: optional_octet 1,
    })
}

/// A message of the type release complete (05).
#[tactic(auto, unfolding(crate::specs::Reading::message_as))]
pub fn read_rlc(bytes: &[u8]) -> Result<View<'_>, ReadFault>
    requires { 0 < length bytes.now → slice_index bytes.now 0 ≡ 5 }
    ensures { Gives seen result (message_as (kind_of rlc_format rlc_of) bytes.now) }
{
    read_as!(rlc_shape, bytes, Rlc {
        dlr: reference 0,
        slr: reference 3,
    })
}

/// A message of the type data form 1 (06).
#[tactic(auto, unfolding(crate::specs::Reading::message_as))]
pub fn read_dt1(bytes: &[u8]) -> Result<View<'_>, ReadFault>
    requires { 0 < length bytes.now → slice_index bytes.now 0 ≡ 6 }
    ensures { Gives seen result (message_as (kind_of dt1_format dt1_of) bytes.now) }
{
    read_as!(dt1_shape, bytes, Dt1 {
        dlr: reference 0,
        segmenting: octet 3,
        body: variable 0,
    })
}

/// A message of the type data form 2 (07).
#[tactic(auto, unfolding(crate::specs::Reading::message_as))]
pub fn read_dt2(bytes: &[u8]) -> Result<View<'_>, ReadFault>
    requires { 0 < length bytes.now → slice_index bytes.now 0 ≡ 7 }
    ensures { Gives seen result (message_as (kind_of dt2_format dt2_of) bytes.now) }
{
    read_as!(dt2_shape, bytes, Dt2 {
        dlr: reference 0,
        sequencing: pair 3,
        body: variable 0,
    })
}

/// A message of the type data acknowledgement (08).
#[tactic(auto, unfolding(crate::specs::Reading::message_as))]
pub fn read_ak(bytes: &[u8]) -> Result<View<'_>, ReadFault>
    requires { 0 < length bytes.now → slice_index bytes.now 0 ≡ 8 }
    ensures { Gives seen result (message_as (kind_of ak_format ak_of) bytes.now) }
{
    read_as!(ak_shape, bytes, Ak {
        dlr: reference 0,
        receive: octet 3,
        credit: octet 4,
    })
}

/// A message of the type unitdata (09).
#[tactic(auto, unfolding(crate::specs::Reading::message_as))]
pub fn read_udt(bytes: &[u8]) -> Result<View<'_>, ReadFault>
    requires { 0 < length bytes.now → slice_index bytes.now 0 ≡ 9 }
    ensures { Gives seen result (message_as (kind_of udt_format udt_of) bytes.now) }
{
    read_as!(udt_shape, bytes, Udt {
        class_octet: octet 0,
        called: variable 0,
        calling: variable 1,
        body: variable 2,
    })
}

/// A message of the type unitdata service (0A).
#[tactic(auto, unfolding(crate::specs::Reading::message_as))]
pub fn read_udts(bytes: &[u8]) -> Result<View<'_>, ReadFault>
    requires { 0 < length bytes.now → slice_index bytes.now 0 ≡ 10 }
    ensures { Gives seen result (message_as (kind_of udts_format udts_of) bytes.now) }
{
    read_as!(udts_shape, bytes, Udts {
        cause: octet 0,
        called: variable 0,
        calling: variable 1,
        body: variable 2,
    })
}

/// A message of the type expedited data (0B).
#[tactic(auto, unfolding(crate::specs::Reading::message_as))]
pub fn read_ed(bytes: &[u8]) -> Result<View<'_>, ReadFault>
    requires { 0 < length bytes.now → slice_index bytes.now 0 ≡ 11 }
    ensures { Gives seen result (message_as (kind_of ed_format ed_of) bytes.now) }
{
    read_as!(ed_shape, bytes, Ed {
        dlr: reference 0,
        body: variable 0,
    })
}

/// A message of the type expedited data acknowledgement (0C).
#[tactic(auto, unfolding(crate::specs::Reading::message_as))]
pub fn read_ea(bytes: &[u8]) -> Result<View<'_>, ReadFault>
    requires { 0 < length bytes.now → slice_index bytes.now 0 ≡ 12 }
    ensures { Gives seen result (message_as (kind_of ea_format ea_of) bytes.now) }
{
    read_as!(ea_shape, bytes, Ea {
        dlr: reference 0,
    })
}

/// A message of the type reset request (0D).
#[tactic(auto, unfolding(crate::specs::Reading::message_as))]
pub fn read_rsr(bytes: &[u8]) -> Result<View<'_>, ReadFault>
    requires { 0 < length bytes.now → slice_index bytes.now 0 ≡ 13 }
    ensures { Gives seen result (message_as (kind_of rsr_format rsr_of) bytes.now) }
{
    read_as!(rsr_shape, bytes, Rsr {
        dlr: reference 0,
        slr: reference 3,
        cause: octet 6,
    })
}

/// A message of the type reset confirmation (0E).
#[tactic(auto, unfolding(crate::specs::Reading::message_as))]
pub fn read_rsc(bytes: &[u8]) -> Result<View<'_>, ReadFault>
    requires { 0 < length bytes.now → slice_index bytes.now 0 ≡ 14 }
    ensures { Gives seen result (message_as (kind_of rsc_format rsc_of) bytes.now) }
{
    read_as!(rsc_shape, bytes, Rsc {
        dlr: reference 0,
        slr: reference 3,
    })
}

/// A message of the type protocol data unit error (0F).
#[tactic(auto, unfolding(crate::specs::Reading::message_as))]
pub fn read_err(bytes: &[u8]) -> Result<View<'_>, ReadFault>
    requires { 0 < length bytes.now → slice_index bytes.now 0 ≡ 15 }
    ensures { Gives seen result (message_as (kind_of err_format err_of) bytes.now) }
{
    read_as!(err_shape, bytes, Err {
        dlr: reference 0,
        cause: octet 3,
    })
}

/// A message of the type inactivity test (10).
#[tactic(auto, unfolding(crate::specs::Reading::message_as))]
pub fn read_it(bytes: &[u8]) -> Result<View<'_>, ReadFault>
    requires { 0 < length bytes.now → slice_index bytes.now 0 ≡ 16 }
    ensures { Gives seen result (message_as (kind_of it_format it_of) bytes.now) }
{
    read_as!(it_shape, bytes, It {
        dlr: reference 0,
        slr: reference 3,
        class_octet: octet 6,
        sequencing: pair 7,
        credit: octet 9,
    })
}

/// A message of the type extended unitdata (11).
#[tactic(auto, unfolding(crate::specs::Reading::message_as))]
pub fn read_xudt(bytes: &[u8]) -> Result<View<'_>, ReadFault>
    requires { 0 < length bytes.now → slice_index bytes.now 0 ≡ 17 }
    ensures { Gives seen result (message_as (kind_of xudt_format xudt_of) bytes.now) }
{
    read_as!(xudt_shape, bytes, Xudt {
        class_octet: octet 0,
        hop: octet 1,
        called: variable 0,
        calling: variable 1,
        body: variable 2,
        segmentation: optional_four 0,
        importance: optional_octet 1,
    })
}

/// A message of the type extended unitdata service (12).
#[tactic(auto, unfolding(crate::specs::Reading::message_as))]
pub fn read_xudts(bytes: &[u8]) -> Result<View<'_>, ReadFault>
    requires { 0 < length bytes.now → slice_index bytes.now 0 ≡ 18 }
    ensures { Gives seen result (message_as (kind_of xudts_format xudts_of) bytes.now) }
{
    read_as!(xudts_shape, bytes, Xudts {
        cause: octet 0,
        hop: octet 1,
        called: variable 0,
        calling: variable 1,
        body: variable 2,
        segmentation: optional_four 0,
        importance: optional_octet 1,
    })
}

/// A message of the type long unitdata (13).
#[tactic(auto, unfolding(crate::specs::Reading::message_as))]
pub fn read_ludt(bytes: &[u8]) -> Result<View<'_>, ReadFault>
    requires { 0 < length bytes.now → slice_index bytes.now 0 ≡ 19 }
    ensures { Gives seen result (message_as (kind_of ludt_format ludt_of) bytes.now) }
{
    read_as!(ludt_shape, bytes, Ludt {
        class_octet: octet 0,
        hop: octet 1,
        called: variable 0,
        calling: variable 1,
        body: variable 2,
        segmentation: optional_four 0,
        importance: optional_octet 1,
    })
}

/// A message of the type long unitdata service (14).
#[tactic(auto, unfolding(crate::specs::Reading::message_as))]
pub fn read_ludts(bytes: &[u8]) -> Result<View<'_>, ReadFault>
    requires { 0 < length bytes.now → slice_index bytes.now 0 ≡ 20 }
    ensures { Gives seen result (message_as (kind_of ludts_format ludts_of) bytes.now) }
{
    read_as!(ludts_shape, bytes, Ludts {
        cause: octet 0,
        hop: octet 1,
        called: variable 0,
        calling: variable 1,
        body: variable 2,
        segmentation: optional_four 0,
        importance: optional_octet 1,
    })
}
