//! The words of a line.
ghost use Rattle.std.specs.Prelude.{◌≡◌, IfOk};
ghost use Rattle.std.specs.List.{list_all};
ghost use Rattle.std.specs.Char.{is_ascii_digit};
ghost use Rattle.journal_form.specs.Words.{parted, has_leading_zero, is_number, is_lower_digit, is_octets};
ghost use Rattle.journal_form.specs.Inner.Seen.{texts};

use std::alloc::{AllocError, Global};

/// What stands before, between and behind the octets that part a text.
pub fn parted(alloc: Global, octet: u8, text: &[u8]) -> Result<Vec<&[u8]>, AllocError>
    ensures { IfOk result (λ v. texts v.items ≡ parted octet text.now) }
{
    text.split(|b| *b == octet).collect(alloc)
}

fn all_digits(word: &[u8]) -> bool
    ensures { result ≡ list_all is_ascii_digit word.now }
{
    word.iter().all(|digit| digit.is_ascii_digit())
}

fn has_leading_zero(word: &[u8]) -> bool
    ensures { result ≡ has_leading_zero word.now }
{
    word.len() > 1 && word[0] == b'0'
}

/// Whether a word is a number, without leading zeros.
pub fn is_number(word: &[u8]) -> bool
    ensures { result ≡ is_number word.now }
{
    if word.is_empty() || has_leading_zero(word) {
        return false;
    }
    all_digits(word)
}

fn is_lower_digit(octet: u8) -> bool
    ensures { result ≡ is_lower_digit octet }
{
    octet.is_ascii_digit() || (b'a' <= octet && octet <= b'f')
}

fn all_lower_digits(word: &[u8]) -> bool
    ensures { result ≡ list_all is_lower_digit word.now }
{
    word.iter().all(|octet| is_lower_digit(*octet))
}

/// Whether a word is octets in lower-case hex, or a dash for none.
pub fn is_octets(word: &[u8]) -> bool
    ensures { result ≡ is_octets word.now }
{
    if word == b"-".as_slice() {
        return true;
    }
    if word.is_empty() || word.len() % 2 != 0 {
        return false;
    }
    all_lower_digits(word)
}
