//! The shapes of the twenty message types, each proved to be its format in the table of Q.713 (4.2 to 4.21).
ghost use Rattle.std.specs.Prelude.{◌≡◌};
ghost use Rattle.q713_shape.specs.Parts.{format_of};
ghost use Rattle.q713_codec.specs.Formats.{cr_format, cc_format, cref_format, rlsd_format, rlc_format, dt1_format, dt2_format, ak_format, udt_format, udts_format, ed_format, ea_format, rsr_format, rsc_format, err_format, it_format, xudt_format, xudts_format, ludt_format, ludts_format};

use q713_shape::{OptionRule, Shape, VarRule};
use relay_base::limits::{LONGEST_EXPEDITED, LONGEST_PARAMETER};

/// An address at a pointer.
const CALLED: VarRule = VarRule {
    name: 0x03,
    least: 0,
    most: LONGEST_PARAMETER as u16,
};

const CALLING: VarRule = VarRule {
    name: 0x04,
    least: 0,
    most: LONGEST_PARAMETER as u16,
};

/// User data at a pointer, of a message of the connectionless service and of a data form.
const UNITDATA: VarRule = VarRule {
    name: 0x0F,
    least: 0,
    most: LONGEST_PARAMETER as u16,
};

const DATA: VarRule = VarRule {
    name: 0x0F,
    least: 1,
    most: LONGEST_PARAMETER as u16,
};

const EXPEDITED: VarRule = VarRule {
    name: 0x0F,
    least: 1,
    most: LONGEST_EXPEDITED as u16,
};

/// The most octets of long data (Q.713, 3.20).
const LONG_DATA_OCTETS: u16 = 3_952;

const LONG_DATA: VarRule = VarRule {
    name: 0x13,
    least: 0,
    most: LONG_DATA_OCTETS,
};

/// Connection request.
pub fn cr_shape() -> Shape<4, 1>
    ensures { format_of result ≡ cr_format }
{
    Shape {
        kind: 0x01,
        fixed: [0x02, 0x02, 0x02, 0x05],
        vars: [CALLED],
        options: OptionRule::Names(&[0x09, 0x04, 0x0F, 0x11, 0x12]),
        wide: false,
    }
}

/// Connection confirm.
pub fn cc_shape() -> Shape<7, 0>
    ensures { format_of result ≡ cc_format }
{
    Shape {
        kind: 0x02,
        fixed: [0x01, 0x01, 0x01, 0x02, 0x02, 0x02, 0x05],
        vars: [],
        options: OptionRule::Names(&[0x09, 0x03, 0x0F, 0x12]),
        wide: false,
    }
}

/// Connection refused.
pub fn cref_shape() -> Shape<4, 0>
    ensures { format_of result ≡ cref_format }
{
    Shape {
        kind: 0x03,
        fixed: [0x01, 0x01, 0x01, 0x0E],
        vars: [],
        options: OptionRule::Names(&[0x03, 0x0F, 0x12]),
        wide: false,
    }
}

/// Released.
pub fn rlsd_shape() -> Shape<7, 0>
    ensures { format_of result ≡ rlsd_format }
{
    Shape {
        kind: 0x04,
        fixed: [0x01, 0x01, 0x01, 0x02, 0x02, 0x02, 0x0A],
        vars: [],
        options: OptionRule::Names(&[0x0F, 0x12]),
        wide: false,
    }
}

/// Release complete.
pub fn rlc_shape() -> Shape<6, 0>
    ensures { format_of result ≡ rlc_format }
{
    Shape {
        kind: 0x05,
        fixed: [0x01, 0x01, 0x01, 0x02, 0x02, 0x02],
        vars: [],
        options: OptionRule::Absent,
        wide: false,
    }
}

/// Data form 1.
pub fn dt1_shape() -> Shape<4, 1>
    ensures { format_of result ≡ dt1_format }
{
    Shape {
        kind: 0x06,
        fixed: [0x01, 0x01, 0x01, 0x06],
        vars: [DATA],
        options: OptionRule::Absent,
        wide: false,
    }
}

/// Data form 2.
pub fn dt2_shape() -> Shape<5, 1>
    ensures { format_of result ≡ dt2_format }
{
    Shape {
        kind: 0x07,
        fixed: [0x01, 0x01, 0x01, 0x08, 0x08],
        vars: [DATA],
        options: OptionRule::Absent,
        wide: false,
    }
}

/// Data acknowledgement.
pub fn ak_shape() -> Shape<5, 0>
    ensures { format_of result ≡ ak_format }
{
    Shape {
        kind: 0x08,
        fixed: [0x01, 0x01, 0x01, 0x07, 0x09],
        vars: [],
        options: OptionRule::Absent,
        wide: false,
    }
}

/// Unitdata.
pub fn udt_shape() -> Shape<1, 3>
    ensures { format_of result ≡ udt_format }
{
    Shape {
        kind: 0x09,
        fixed: [0x05],
        vars: [CALLED, CALLING, UNITDATA],
        options: OptionRule::Absent,
        wide: false,
    }
}

/// Unitdata service.
pub fn udts_shape() -> Shape<1, 3>
    ensures { format_of result ≡ udts_format }
{
    Shape {
        kind: 0x0A,
        fixed: [0x0B],
        vars: [CALLED, CALLING, UNITDATA],
        options: OptionRule::Absent,
        wide: false,
    }
}

/// Expedited data.
pub fn ed_shape() -> Shape<3, 1>
    ensures { format_of result ≡ ed_format }
{
    Shape {
        kind: 0x0B,
        fixed: [0x01, 0x01, 0x01],
        vars: [EXPEDITED],
        options: OptionRule::Absent,
        wide: false,
    }
}

/// Expedited data acknowledgement.
pub fn ea_shape() -> Shape<3, 0>
    ensures { format_of result ≡ ea_format }
{
    Shape {
        kind: 0x0C,
        fixed: [0x01, 0x01, 0x01],
        vars: [],
        options: OptionRule::Absent,
        wide: false,
    }
}

/// Reset request.
pub fn rsr_shape() -> Shape<7, 0>
    ensures { format_of result ≡ rsr_format }
{
    Shape {
        kind: 0x0D,
        fixed: [0x01, 0x01, 0x01, 0x02, 0x02, 0x02, 0x0C],
        vars: [],
        options: OptionRule::Absent,
        wide: false,
    }
}

/// Reset confirmation.
pub fn rsc_shape() -> Shape<6, 0>
    ensures { format_of result ≡ rsc_format }
{
    Shape {
        kind: 0x0E,
        fixed: [0x01, 0x01, 0x01, 0x02, 0x02, 0x02],
        vars: [],
        options: OptionRule::Absent,
        wide: false,
    }
}

/// Protocol data unit error.
pub fn err_shape() -> Shape<4, 0>
    ensures { format_of result ≡ err_format }
{
    Shape {
        kind: 0x0F,
        fixed: [0x01, 0x01, 0x01, 0x0D],
        vars: [],
        options: OptionRule::Absent,
        wide: false,
    }
}

/// Inactivity test.
pub fn it_shape() -> Shape<10, 0>
    ensures { format_of result ≡ it_format }
{
    Shape {
        kind: 0x10,
        fixed: [0x01, 0x01, 0x01, 0x02, 0x02, 0x02, 0x05, 0x08, 0x08, 0x09],
        vars: [],
        options: OptionRule::Absent,
        wide: false,
    }
}

/// Extended unitdata.
pub fn xudt_shape() -> Shape<2, 3>
    ensures { format_of result ≡ xudt_format }
{
    Shape {
        kind: 0x11,
        fixed: [0x05, 0x11],
        vars: [CALLED, CALLING, UNITDATA],
        options: OptionRule::Names(&[0x10, 0x12]),
        wide: false,
    }
}

/// Extended unitdata service.
pub fn xudts_shape() -> Shape<2, 3>
    ensures { format_of result ≡ xudts_format }
{
    Shape {
        kind: 0x12,
        fixed: [0x0B, 0x11],
        vars: [CALLED, CALLING, UNITDATA],
        options: OptionRule::Names(&[0x10, 0x12]),
        wide: false,
    }
}

/// Long unitdata.
pub fn ludt_shape() -> Shape<2, 3>
    ensures { format_of result ≡ ludt_format }
{
    Shape {
        kind: 0x13,
        fixed: [0x05, 0x11],
        vars: [CALLED, CALLING, LONG_DATA],
        options: OptionRule::Names(&[0x10, 0x12]),
        wide: true,
    }
}

/// Long unitdata service.
pub fn ludts_shape() -> Shape<2, 3>
    ensures { format_of result ≡ ludts_format }
{
    Shape {
        kind: 0x14,
        fixed: [0x0B, 0x11],
        vars: [CALLED, CALLING, LONG_DATA],
        options: OptionRule::Names(&[0x10, 0x12]),
        wide: true,
    }
}
