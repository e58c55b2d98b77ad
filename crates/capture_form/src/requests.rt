//! What a user asks for in the words of a request.
ghost use Rattle.std.specs.Prelude.{◌≡◌};
ghost use Rattle.capture_form.specs.Inner.Words.{texts, States};
ghost use Rattle.capture_form.specs.Requests.{unit_of, conn_of, ending_of, is_unit, naming_form, form_of, has_form, request_of};

use crate::fault::LineKind;
use crate::refused::LineRefused;
use crate::words::{asks_return, below, body, boxed_body, called, calling, class, is_return, text};
use relay_base::limits::{
    CREDITS, LINK_SELECTIONS, LONGEST_DATA, LONGEST_EXPEDITED, LONGEST_GIVEN_UNIT, LONGEST_TEXT,
    OCTET_VALUES, POINT_CODES, REFERENCES,
};
use relay_base::{Octets, Ref24, Request};
use std::alloc::Global;

/// What asks for a unit.
fn unit_of(
    alloc: Global,
    sls: &[u8],
    class: &[u8],
    ret: &[u8],
    to: &[u8],
    from: &[u8],
    body_word: &[u8],
) -> Result<Request, LineRefused>
    ensures { States result (unit_of sls.now class.now ret.now to.now from.now body_word.now) }
{
    let sls = below::<LINK_SELECTIONS>(sls)?;
    let class = below::<2>(class)?.number() as u8;
    let ret = asks_return(ret);
    let called = called(alloc, to)?;
    let calling = calling(alloc, from)?;
    let body = boxed_body(alloc, LONGEST_GIVEN_UNIT, body_word)?;
    Ok(Request::Unit {
        sls,
        class,
        ret,
        called,
        calling,
        body,
    })
}

/// `unit <sls> <class> <r or -> <called> <calling or -> <hex>`
fn unit_asked(alloc: Global, words: &[&[u8]]) -> Result<Request, LineRefused>
    ensures { States result (request_of RequestForm.Unit (texts words.now)) }
{
    let [sls, class, ret, called, calling, body] = words else {
        return Err(LineRefused::Kind(LineKind::Words));
    };
    unit_of(alloc, sls, class, ret, called, calling, body)
}

/// What asks for a connection.
fn conn_of(
    alloc: Global,
    tag: &[u8],
    class_word: &[u8],
    credit: &[u8],
    to: &[u8],
    body_word: &[u8],
) -> Result<Request, LineRefused>
    ensures { States result (conn_of tag.now class_word.now credit.now to.now body_word.now) }
{
    let tag = below::<65_536>(tag)?.number() as u16;
    let class = class(class_word)?;
    let credit = below::<CREDITS>(credit)?.number() as u8;
    let called = called(alloc, to)?;
    let body = body(alloc, LONGEST_DATA, body_word)?;
    Ok(Request::Conn {
        tag,
        class,
        credit,
        called,
        body,
    })
}

/// `conn <tag> <class> <credit> <called> <hex>`
fn conn_asked(alloc: Global, words: &[&[u8]]) -> Result<Request, LineRefused>
    ensures { States result (request_of RequestForm.Conn (texts words.now)) }
{
    let [tag, class, credit, called, body] = words else {
        return Err(LineRefused::Kind(LineKind::Words));
    };
    conn_of(alloc, tag, class, credit, called, body)
}

/// `accept <ref> <class> <credit> <hex>`
fn accept_asked(alloc: Global, words: &[&[u8]]) -> Result<Request, LineRefused>
    ensures { States result (request_of RequestForm.Accept (texts words.now)) }
{
    if words.len() != 4 {
        return Err(LineRefused::Kind(LineKind::Words));
    }
    let mine = below::<REFERENCES>(words[0])?;
    let class = class(words[1])?;
    let credit = below::<CREDITS>(words[2])?.number() as u8;
    let body = body(alloc, LONGEST_DATA, words[3])?;
    Ok(Request::Accept {
        mine,
        class,
        credit,
        body,
    })
}

/// What ends a connection, `<ref> <cause> <hex>`: its reference, a cause and data.
fn ending_of(alloc: Global, words: &[&[u8]]) -> Result<(Ref24, u8, Octets), LineRefused>
    ensures { States result (ending_of (texts words.now)) }
{
    let [reference, cause, hex] = words else {
        return Err(LineRefused::Kind(LineKind::Words));
    };
    let mine = below::<REFERENCES>(reference)?;
    let cause = below::<OCTET_VALUES>(cause)?.number() as u8;
    let body = body(alloc, LONGEST_DATA, hex)?;
    Ok((mine, cause, body))
}

/// `refuse <ref> <cause> <hex>`
fn refuse_asked(alloc: Global, words: &[&[u8]]) -> Result<Request, LineRefused>
    ensures { States result (request_of RequestForm.Refuse (texts words.now)) }
{
    let (mine, cause, body) = ending_of(alloc, words)?;
    Ok(Request::Refuse { mine, cause, body })
}

/// `send <ref> <hex>`
fn send_asked(alloc: Global, words: &[&[u8]]) -> Result<Request, LineRefused>
    ensures { States result (request_of RequestForm.Send (texts words.now)) }
{
    let [reference, hex] = words else {
        return Err(LineRefused::Kind(LineKind::Words));
    };
    let mine = below::<REFERENCES>(reference)?;
    let body = text(alloc, LONGEST_TEXT, hex)?;
    Ok(Request::Send { mine, body })
}

/// `ed <ref> <hex>`
fn ed_asked(alloc: Global, words: &[&[u8]]) -> Result<Request, LineRefused>
    ensures { States result (request_of RequestForm.Expedite (texts words.now)) }
{
    let [reference, hex] = words else {
        return Err(LineRefused::Kind(LineKind::Words));
    };
    let mine = below::<REFERENCES>(reference)?;
    let body = text(alloc, LONGEST_EXPEDITED, hex)?;
    Ok(Request::Expedite { mine, body })
}

/// `reset <ref>`
fn reset_asked(words: &[&[u8]]) -> Result<Request, LineRefused>
    ensures { States result (request_of RequestForm.Reset (texts words.now)) }
{
    let [reference] = words else {
        return Err(LineRefused::Kind(LineKind::Words));
    };
    let mine = below::<REFERENCES>(reference)?;
    Ok(Request::Reset { mine })
}

/// `disc <ref> <cause> <hex>`
fn disc_asked(alloc: Global, words: &[&[u8]]) -> Result<Request, LineRefused>
    ensures { States result (request_of RequestForm.Disc (texts words.now)) }
{
    let (mine, cause, body) = ending_of(alloc, words)?;
    Ok(Request::Disc { mine, cause, body })
}

/// `coord`
fn coord_asked(words: &[&[u8]]) -> Result<Request, LineRefused>
    ensures { States result (request_of RequestForm.Coord (texts words.now)) }
{
    if words.is_empty() {
        Ok(Request::Coord)
    } else {
        Err(LineRefused::Kind(LineKind::Words))
    }
}

/// `grant <point>`
fn grant_asked(words: &[&[u8]]) -> Result<Request, LineRefused>
    ensures { States result (request_of RequestForm.Grant (texts words.now)) }
{
    let [point] = words else {
        return Err(LineRefused::Kind(LineKind::Words));
    };
    let point = below::<POINT_CODES>(point)?;
    Ok(Request::Grant { point })
}

/// The six words after `unit`, of which the third says whether return on error is asked.
fn is_unit(words: &[&[u8]]) -> bool
    ensures { result ≡ is_unit (texts words.now) }
{
    words.len() == 6 && is_return(words[2])
}

/// What a request asks for.
#[derive(Clone, Copy)]
pub enum RequestForm {
    Unit,
    Conn,
    Accept,
    Refuse,
    Send,
    Expedite,
    Reset,
    Disc,
    Coord,
    Grant,
}

impl RequestForm {
    /// The form of a request that names a connection, by its first word.
    fn of_naming(word: &[u8]) -> Option<RequestForm>
        ensures { result ≡ naming_form word.now }
    {
        match word {
            b"accept" => Some(RequestForm::Accept),
            b"refuse" => Some(RequestForm::Refuse),
            b"send" => Some(RequestForm::Send),
            b"ed" => Some(RequestForm::Expedite),
            b"reset" => Some(RequestForm::Reset),
            b"disc" => Some(RequestForm::Disc),
            _ => None,
        }
    }

    /// The form of a request by its first word.
    pub fn of(word: &[u8]) -> Option<RequestForm>
        ensures { result ≡ form_of word.now }
    {
        match word {
            b"unit" => Some(RequestForm::Unit),
            b"conn" => Some(RequestForm::Conn),
            b"coord" => Some(RequestForm::Coord),
            b"grant" => Some(RequestForm::Grant),
            _ => RequestForm::of_naming(word),
        }
    }

    /// Whether the words after the first are as a whole a request of this form.
    pub fn has(self, words: &[&[u8]]) -> bool
        ensures { result ≡ has_form self (texts words.now) }
    {
        match self {
            RequestForm::Unit => is_unit(words),
            RequestForm::Conn => words.len() == 5,
            RequestForm::Accept => words.len() == 4,
            RequestForm::Refuse | RequestForm::Disc => words.len() == 3,
            RequestForm::Send | RequestForm::Expedite => words.len() == 2,
            RequestForm::Reset | RequestForm::Grant => words.len() == 1,
            RequestForm::Coord => words.is_empty(),
        }
    }

    /// What the words after the first of a request ask for.
    pub fn request(self, alloc: Global, words: &[&[u8]]) -> Result<Request, LineRefused>
        ensures { States result (request_of self (texts words.now)) }
    {
        match self {
            RequestForm::Unit => unit_asked(alloc, words),
            RequestForm::Conn => conn_asked(alloc, words),
            RequestForm::Accept => accept_asked(alloc, words),
            RequestForm::Refuse => refuse_asked(alloc, words),
            RequestForm::Send => send_asked(alloc, words),
            RequestForm::Expedite => ed_asked(alloc, words),
            RequestForm::Reset => reset_asked(words),
            RequestForm::Disc => disc_asked(alloc, words),
            RequestForm::Coord => coord_asked(words),
            RequestForm::Grant => grant_asked(words),
        }
    }
}
