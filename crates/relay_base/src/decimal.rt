//! The number that a word of decimal digits writes.
ghost use Rattle.std.specs.Prelude.{◌≡◌};
ghost use Rattle.std.specs.List.{list_all};
ghost use Rattle.std.specs.Char.{is_ascii_digit};
ghost use Rattle.relay_base.specs.Decimal.{is_number, number_of};

fn all_digits(word: &[u8]) -> bool
    ensures { result ≡ list_all is_ascii_digit word.now }
{
    word.iter().all(|digit| digit.is_ascii_digit())
}

/// Whether a word is a number: 1 to 10 digits.
fn is_number(word: &[u8]) -> bool
    ensures { result ≡ is_number word.now }
{
    if word.is_empty() || word.len() > 10 {
        return false;
    }
    all_digits(word)
}

/// The number that a word of 1 to 10 decimal digits writes; None for any other word.
#[tactic(auto, unfolding(crate::specs::Decimal::number_of))]
pub fn number_of(word: &[u8]) -> Option<u64>
    ensures { result ≡ number_of word.now }
{
    if !is_number(word) {
        return None;
    }
    let mut number = 0u64;
    for digit in word {
        number = 10 * number + u64::from(*digit - b'0');
    }
    Some(number)
}
