//! The text that waits to be written, and how each kind of word joins it.
ghost use Rattle.std.specs.Prelude.{◌≡◌, ◌++◌, [], codes, length, IfOk};
ghost use Rattle.hex.specs.Hex.{encode_lower};
ghost use Rattle.journal_text.specs.Inner.Texts.{Puts};
ghost use Rattle.journal_text.specs.Print.{octets_text, optional_text};

use itoa::{Buffer, Integer};
use relay_base::{BoxedOctets, Octets};
use std::alloc::{AllocError, Global};
use std::marker::Model;

/// The octets of a text that waits to be written. After an error a front of what was to join it stands at its end.
#[derive(Drop)]
pub struct Text {
    waiting: Vec<u8>,
}

impl Model for Text {
    ghost use Rattle.std.specs.Prelude.{List, ℕ};

    ghost Value = { List ℕ };

    ghost view = { λ t. t.waiting.items };
}

impl Text {
    /// A text that begins with this one.
    pub fn of(alloc: Global, text: &str) -> Result<Text, AllocError>
        ensures { IfOk result (λ t. t ≡ text.now) }
    {
        let waiting = Vec::from_slice(alloc, text.as_bytes())?;
        Ok(Text { waiting })
    }

    /// An empty text, which has memory for so many octets.
    pub(crate) fn with_capacity(alloc: Global, octets: usize) -> Result<Text, AllocError>
        ensures { IfOk result (λ t. t ≡ []) }
    {
        let waiting = Vec::with_capacity(alloc, octets)?;
        Ok(Text { waiting })
    }

    /// How many octets wait.
    pub fn len(&self) -> usize
        ensures { result ≡ length self.now }
    {
        self.waiting.len()
    }

    /// The octets that wait.
    pub fn as_slice(&self) -> &[u8]
        ensures { result.now ≡ self.now }
    {
        self.waiting.as_slice()
    }

    /// The octets that wait, as a list.
    pub(crate) fn into_octets(self) -> Octets
        ensures { result ≡ self }
    {
        let Text { waiting } = self;
        Octets::from(waiting)
    }

    /// Takes all octets away, and keeps their room.
    pub fn clear(&mut self)
        ensures { self.new ≡ [] }
    {
        self.waiting.clear();
    }

    /// Appends a text.
    pub fn put(&mut self, text: &str) -> Result<(), AllocError>
        ensures { Puts result self.old self.new text.now }
    {
        self.waiting.extend_from_slice(text.as_bytes())
    }

    /// Appends another text.
    pub(crate) fn append(&mut self, other: &Text) -> Result<(), AllocError>
        ensures { Puts result self.old self.new other.now }
    {
        self.waiting.extend_from_slice(other.as_slice())
    }

    /// Appends the digits of a number.
    pub fn digits<I: Integer>(&mut self, number: I) -> Result<(), AllocError>
        ensures { Puts result self.old self.new (I.text number) }
    {
        self.put(Buffer::new().format(number))
    }

    /// Appends octets in hex.
    fn hex(&mut self, octets: &[u8]) -> Result<(), AllocError>
        ensures { Puts result self.old self.new (encode_lower octets.now) }
    {
        let start = self.waiting.len();
        let end = start.checked_add(2 * octets.len()).ok_or(AllocError)?;
        self.waiting.resize(end, 0)?;
        hex::encode_to_slice(octets, self.waiting.slice_mut(start..)).unwrap();
        Ok(())
    }

    /// Appends a space and a word.
    pub fn word(&mut self, word: &str) -> Result<(), AllocError>
        ensures { Puts result self.old self.new (codes " " ++ word.now) }
    {
        self.put(" ")?;
        self.put(word)
    }

    /// Appends a space and a number.
    pub fn number<I: Integer>(&mut self, number: I) -> Result<(), AllocError>
        ensures { Puts result self.old self.new (codes " " ++ I.text number) }
    {
        self.put(" ")?;
        self.digits(number)
    }

    /// Appends a space and octets in hex, or a dash for none.
    pub fn octets(&mut self, octets: &[u8]) -> Result<(), AllocError>
        ensures { Puts result self.old self.new (codes " " ++ octets_text octets.now) }
    {
        if octets.is_empty() {
            return self.word("-");
        }
        self.put(" ")?;
        self.hex(octets)
    }

    /// The same of octets that may be absent, which is a dash.
    pub fn optional(&mut self, octets: &Option<BoxedOctets>) -> Result<(), AllocError>
        ensures { Puts result self.old self.new (codes " " ++ optional_text octets.now) }
    {
        match octets {
            Some(octets) => self.octets(octets.as_slice()),
            None => self.word("-"),
        }
    }
}
