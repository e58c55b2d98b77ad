//! The messages of each type (Q.713, 4.2 to 4.21) as they are written: what part of its shape each field of the message is.
ghost use Rattle.q713_codec.specs.Names.{Cr, Cc, Cref, Rlsd, Rlc, Dt1, Dt2, Ak, Udt, Udts, Ed, Ea, Rsr, Rsc, Error, It, Xudt, Xudts, Ludt, Ludts};
ghost use Rattle.q713_codec.specs.Inner.Written.{IsWritten};

use crate::shapes::{
    ak_shape, cc_shape, cr_shape, cref_shape, dt1_shape, dt2_shape, ea_shape, ed_shape, err_shape,
    it_shape, ludt_shape, ludts_shape, rlc_shape, rlsd_shape, rsc_shape, rsr_shape, udt_shape,
    udts_shape, xudt_shape, xudts_shape,
};
use crate::values::{four, octet, octets};
use crate::written::{FixedPart, Written};
use relay_base::{Octets, Ref24};

/// A message of the type connection request (01).
pub fn cr_written<'a>(
    slr: Ref24,
    class_octet: u8,
    called: &'a [u8],
    credit: &'a Option<u8>,
    calling: &'a Option<Octets>,
    body: &'a Option<Octets>,
    hop: &'a Option<u8>,
    importance: &'a Option<u8>,
) -> Written<'a>
    ensures { let message = Cr slr class_octet called.now credit.now calling.now
        body.now hop.now importance.now
        in IsWritten result message }
{
    Written::of(
        &cr_shape(),
        FixedPart::new().with_reference(slr).with(&[class_octet]),
        [called, &[], &[]],
        [
            octet(credit),
            octets(calling),
            octets(body),
            octet(hop),
            octet(importance),
        ],
    )
}

/// A message of the type connection confirm (02).
pub fn cc_written<'a>(
    dlr: Ref24,
    slr: Ref24,
    class_octet: u8,
    credit: &'a Option<u8>,
    called: &'a Option<Octets>,
    body: &'a Option<Octets>,
    importance: &'a Option<u8>,
) -> Written<'a>
    ensures { let message = Cc dlr slr class_octet credit.now called.now body.now importance.now
        in IsWritten result message }
{
    Written::of(
        &cc_shape(),
        FixedPart::new()
            .with_reference(dlr)
            .with_reference(slr)
            .with(&[class_octet]),
        [&[], &[], &[]],
        [
            octet(credit),
            octets(called),
            octets(body),
            octet(importance),
            None,
        ],
    )
}

/// A message of the type connection refused (03).
pub fn cref_written<'a>(
    dlr: Ref24,
    cause: u8,
    called: &'a Option<Octets>,
    body: &'a Option<Octets>,
    importance: &'a Option<u8>,
) -> Written<'a>
    ensures { IsWritten result (Cref dlr cause called.now body.now importance.now) }
{
    Written::of(
        &cref_shape(),
        FixedPart::new().with_reference(dlr).with(&[cause]),
        [&[], &[], &[]],
        [octets(called), octets(body), octet(importance), None, None],
    )
}

/// A message of the type released (04).
pub fn rlsd_written<'a>(
    dlr: Ref24,
    slr: Ref24,
    cause: u8,
    body: &'a Option<Octets>,
    importance: &'a Option<u8>,
) -> Written<'a>
    ensures { IsWritten result (Rlsd dlr slr cause body.now importance.now) }
{
    Written::of(
        &rlsd_shape(),
        FixedPart::new()
            .with_reference(dlr)
            .with_reference(slr)
            .with(&[cause]),
        [&[], &[], &[]],
        [octets(body), octet(importance), None, None, None],
    )
}

/// A message of the type release complete (05).
pub fn rlc_written(dlr: Ref24, slr: Ref24) -> Written<'static>
    ensures { IsWritten result (Rlc dlr slr) }
{
    Written::of(
        &rlc_shape(),
        FixedPart::new().with_reference(dlr).with_reference(slr),
        [&[], &[], &[]],
        [None, None, None, None, None],
    )
}

/// A message of the type data form 1 (06).
pub fn dt1_written<'a>(dlr: Ref24, segmenting: u8, body: &'a [u8]) -> Written<'a>
    ensures { IsWritten result (Dt1 dlr segmenting body.now) }
{
    Written::of(
        &dt1_shape(),
        FixedPart::new().with_reference(dlr).with(&[segmenting]),
        [body, &[], &[]],
        [None, None, None, None, None],
    )
}

/// A message of the type data form 2 (07).
pub fn dt2_written<'a>(dlr: Ref24, sequencing: [u8; 2], body: &'a [u8]) -> Written<'a>
    ensures { IsWritten result (Dt2 dlr sequencing body.now) }
{
    Written::of(
        &dt2_shape(),
        FixedPart::new()
            .with_reference(dlr)
            .with(&[sequencing[0], sequencing[1]]),
        [body, &[], &[]],
        [None, None, None, None, None],
    )
}

/// A message of the type data acknowledgement (08).
pub fn ak_written(dlr: Ref24, receive: u8, credit: u8) -> Written<'static>
    ensures { IsWritten result (Ak dlr receive credit) }
{
    Written::of(
        &ak_shape(),
        FixedPart::new()
            .with_reference(dlr)
            .with(&[receive, credit]),
        [&[], &[], &[]],
        [None, None, None, None, None],
    )
}

/// A message of the type unitdata (09).
pub fn udt_written<'a>(
    class_octet: u8,
    called: &'a [u8],
    calling: &'a [u8],
    body: &'a [u8],
) -> Written<'a>
    ensures { IsWritten result (Udt class_octet called.now calling.now body.now) }
{
    Written::of(
        &udt_shape(),
        FixedPart::new().with(&[class_octet]),
        [called, calling, body],
        [None, None, None, None, None],
    )
}

/// A message of the type unitdata service (0A).
pub fn udts_written<'a>(
    cause: u8,
    called: &'a [u8],
    calling: &'a [u8],
    body: &'a [u8],
) -> Written<'a>
    ensures { IsWritten result (Udts cause called.now calling.now body.now) }
{
    Written::of(
        &udts_shape(),
        FixedPart::new().with(&[cause]),
        [called, calling, body],
        [None, None, None, None, None],
    )
}

/// A message of the type expedited data (0B).
pub fn ed_written<'a>(dlr: Ref24, body: &'a [u8]) -> Written<'a>
    ensures { IsWritten result (Ed dlr body.now) }
{
    Written::of(
        &ed_shape(),
        FixedPart::new().with_reference(dlr),
        [body, &[], &[]],
        [None, None, None, None, None],
    )
}

/// A message of the type expedited data acknowledgement (0C).
pub fn ea_written(dlr: Ref24) -> Written<'static>
    ensures { IsWritten result (Ea dlr) }
{
    Written::of(
        &ea_shape(),
        FixedPart::new().with_reference(dlr),
        [&[], &[], &[]],
        [None, None, None, None, None],
    )
}

/// A message of the type reset request (0D).
pub fn rsr_written(dlr: Ref24, slr: Ref24, cause: u8) -> Written<'static>
    ensures { IsWritten result (Rsr dlr slr cause) }
{
    Written::of(
        &rsr_shape(),
        FixedPart::new()
            .with_reference(dlr)
            .with_reference(slr)
            .with(&[cause]),
        [&[], &[], &[]],
        [None, None, None, None, None],
    )
}

/// A message of the type reset confirmation (0E).
pub fn rsc_written(dlr: Ref24, slr: Ref24) -> Written<'static>
    ensures { IsWritten result (Rsc dlr slr) }
{
    Written::of(
        &rsc_shape(),
        FixedPart::new().with_reference(dlr).with_reference(slr),
        [&[], &[], &[]],
        [None, None, None, None, None],
    )
}

/// A message of the type protocol data unit error (0F).
pub fn err_written(dlr: Ref24, cause: u8) -> Written<'static>
    ensures { IsWritten result (Error dlr cause) }
{
    Written::of(
        &err_shape(),
        FixedPart::new().with_reference(dlr).with(&[cause]),
        [&[], &[], &[]],
        [None, None, None, None, None],
    )
}

/// A message of the type inactivity test (10).
pub fn it_written(
    dlr: Ref24,
    slr: Ref24,
    class_octet: u8,
    sequencing: [u8; 2],
    credit: u8,
) -> Written<'static>
    ensures { IsWritten result (It dlr slr class_octet sequencing credit) }
{
    Written::of(
        &it_shape(),
        FixedPart::new()
            .with_reference(dlr)
            .with_reference(slr)
            .with(&[class_octet, sequencing[0], sequencing[1], credit]),
        [&[], &[], &[]],
        [None, None, None, None, None],
    )
}

/// A message of the type extended unitdata (11).
pub fn xudt_written<'a>(
    class_octet: u8,
    hop: u8,
    called: &'a [u8],
    calling: &'a [u8],
    body: &'a [u8],
    segmentation: &'a Option<[u8; 4]>,
    importance: &'a Option<u8>,
) -> Written<'a>
    ensures { let message = Xudt class_octet hop called.now calling.now
        body.now segmentation.now importance.now
        in IsWritten result message }
{
    Written::of(
        &xudt_shape(),
        FixedPart::new().with(&[class_octet, hop]),
        [called, calling, body],
        [four(segmentation), octet(importance), None, None, None],
    )
}

/// A message of the type extended unitdata service (12).
pub fn xudts_written<'a>(
    cause: u8,
    hop: u8,
    called: &'a [u8],
    calling: &'a [u8],
    body: &'a [u8],
    segmentation: &'a Option<[u8; 4]>,
    importance: &'a Option<u8>,
) -> Written<'a>
    ensures { let message = Xudts cause hop called.now calling.now
        body.now segmentation.now importance.now
        in IsWritten result message }
{
    Written::of(
        &xudts_shape(),
        FixedPart::new().with(&[cause, hop]),
        [called, calling, body],
        [four(segmentation), octet(importance), None, None, None],
    )
}

/// A message of the type long unitdata (13).
pub fn ludt_written<'a>(
    class_octet: u8,
    hop: u8,
    called: &'a [u8],
    calling: &'a [u8],
    body: &'a [u8],
    segmentation: &'a Option<[u8; 4]>,
    importance: &'a Option<u8>,
) -> Written<'a>
    ensures { let message = Ludt class_octet hop called.now calling.now
        body.now segmentation.now importance.now
        in IsWritten result message }
{
    Written::of(
        &ludt_shape(),
        FixedPart::new().with(&[class_octet, hop]),
        [called, calling, body],
        [four(segmentation), octet(importance), None, None, None],
    )
}

/// A message of the type long unitdata service (14).
pub fn ludts_written<'a>(
    cause: u8,
    hop: u8,
    called: &'a [u8],
    calling: &'a [u8],
    body: &'a [u8],
    segmentation: &'a Option<[u8; 4]>,
    importance: &'a Option<u8>,
) -> Written<'a>
    ensures { let message = Ludts cause hop called.now calling.now
        body.now segmentation.now importance.now
        in IsWritten result message }
{
    Written::of(
        &ludts_shape(),
        FixedPart::new().with(&[cause, hop]),
        [called, calling, body],
        [four(segmentation), octet(importance), None, None, None],
    )
}
