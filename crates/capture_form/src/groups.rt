//! Where the lines of a group of edits may stand.
ghost use Rattle.std.specs.Prelude.{◌≡◌};
ghost use Rattle.capture_form.specs.Inner.Words.{texts};
ghost use Rattle.capture_form.specs.Inner.LineRead.{standing_of, may_stand_as};
ghost use Rattle.capture_form.specs.Groups.{is_edit, is_commit, out_of_place, placed};

use crate::changes::OpenGroup;
use crate::fault::LineKind;

/// The most changes of a group.
pub const MOST_CHANGES: u32 = 4_096;

/// How a line may stand among groups.
#[derive(Clone, Copy)]
pub enum Standing {
    /// An edit stands alone, or in a group that has room.
    Edit,
    /// The end of a group stands where one is open.
    Commit,
    /// What is neither stands where no group is open.
    Other,
}

/// The first words of an edit.
fn is_edit(words: &[&[u8]]) -> bool
    ensures { result ≡ is_edit (texts words.now) }
{
    match words {
        [first, word, ..] => {
            *first == b"e".as_slice() && (*word == b"add".as_slice() || *word == b"del".as_slice())
        }
        _ => false,
    }
}

/// The words of a group's last line.
fn is_commit(words: &[&[u8]]) -> bool
    ensures { result ≡ is_commit (texts words.now) }
{
    match words {
        [first, word] => *first == b"e".as_slice() && *word == b"commit".as_slice(),
        _ => false,
    }
}

/// How a line of these words may stand.
pub fn standing_of(words: &[&[u8]]) -> Standing
    ensures { result ≡ standing_of (texts words.now) }
{
    if is_commit(words) {
        Standing::Commit
    } else if is_edit(words) {
        Standing::Edit
    } else {
        Standing::Other
    }
}

/// Whether a line may stand where this group is open: edits alone, up to the most, and the group's end. Where none is, no end may.
pub fn may_stand(group: &Option<OpenGroup>, standing: Standing) -> bool
    ensures { result ≡ may_stand_as group.now standing }
{
    match group {
        None => !matches!(standing, Standing::Commit),
        Some(open) => match standing {
            Standing::Commit => true,
            Standing::Edit => open.changes.len() < MOST_CHANGES as usize,
            Standing::Other => false,
        },
    }
}

/// Why a line is refused that may not stand where it does: its words as a whole are tested first.
fn out_of_place<T>(form: &Result<T, LineKind>) -> LineKind
    ensures { result ≡ out_of_place form.now }
{
    match form {
        Err(LineKind::Words) => LineKind::Words,
        _ => LineKind::Group,
    }
}

/// What a line is, if it may stand where it does, or what is wrong with it.
pub fn placed<T: Drop>(stands: bool, form: Result<T, LineKind>) -> Result<T, LineKind>
    ensures { result ≡ placed stands form }
{
    if stands {
        form
    } else {
        Err(out_of_place(&form))
    }
}
