//! Octets come from a source.
ghost use Rattle.std.specs.Prelude.{◌≡◌, ◌≢◌, ◌⊎◌, ◌+◌, ◌<◌, ◌≤◌, true, length, Err, IfOk, OnOk};
ghost use Rattle.std.specs.List.{list_any};
ghost use Rattle.relay_base.specs.Causes.{Rose};
ghost use Rattle.relay_base.specs.declared.errors.ReadAllFault.TheVariants.{Fault};
ghost use Rattle.relay_base.specs.declared.limits.TheConstants.{MOST_BYTES};
ghost use Rattle.node_head.specs.Lines.{is_mark, lines};
ghost use Rattle.capture_pieces.specs.Inner.Feeds.{Comes, HasCome, HasMark, IsWhole, PassedOver, RiseAlike};
ghost use Rattle.capture_pieces.specs.declared.feed.coming.TheConstants.{MOST_AT_ONCE};

use crate::feed::Feed;
use bstr::ByteSlice;
use memchr::memrchr;
use relay_base::limits::MOST_BYTES;
use relay_base::{ReadAllFault, Source};

/// How many octets one reading asks for.
const MOST_AT_ONCE: usize = 65_536;

/// Whether one of the lines is the mark that ends a head.
fn has_mark(octets: &[u8]) -> bool
    ensures { result ≡ list_any is_mark (lines octets.now) }
{
    octets.lines().any(|line| line == b"%%".as_slice())
}

impl Feed {
    /// Octets come once, or none comes any more.
    fn take_once<S: Source>(&mut self, source: &mut S, buf: &mut [u8]) -> Result<(), ReadAllFault>
        requires { 0 < length buf.old }
        ensures come { (first : _) (taken : _) → HasCome first (S.left source.old) self.old taken →
            Comes first taken (S.left source.new) self.new result }
        ensures more { OnOk result ((self.new.ended ≡ true) ⊎ (self.old.came < self.new.came)) }
        ensures longer { OnOk result (length self.old.text.items ≤ length self.new.text.items) }
        ensures buf { length buf.new ≡ length buf.old }
        ensures rises { OnOk result (RiseAlike self.old self.new) }
        ensures fault { result ≡ Err Fault → Rose (S.faults source.old) (S.faults source.new) }
        ensures kept { result ≢ Err Fault → S.faults source.new ≡ S.faults source.old }
    {
        let left = MOST_BYTES - self.came;
        let want = buf.len().min(left + 1);
        let count = source.read(&mut buf[..want])?;
        if count > left {
            return Err(ReadAllFault::TooLong);
        }
        self.add(&buf[..count])?;
        self.ended = count == 0;
        Ok(())
    }

    /// Octets come until there are so many, or none comes any more.
    fn fill<S: Source>(&mut self, source: &mut S, most: usize) -> Result<(), ReadAllFault>
        ensures come { (first : _) (taken : _) → HasCome first (S.left source.old) self.old taken →
            Comes first taken (S.left source.new) self.new result }
        ensures filled { OnOk result ((self.new.ended ≡ true) ⊎ (most ≤ length self.new.text.items)) }
        ensures longer { OnOk result (length self.old.text.items ≤ length self.new.text.items) }
        ensures rises { OnOk result (RiseAlike self.old self.new) }
        ensures fault { result ≡ Err Fault → Rose (S.faults source.old) (S.faults source.new) }
        ensures kept { result ≢ Err Fault → S.faults source.new ≡ S.faults source.old }
    {
        let mut buf = [0u8; MOST_AT_ONCE];
        while !self.ended && self.text.len() < most {
            self.take_once(source, &mut buf)?;
        }
        Ok(())
    }

    /// How many octets there are up to the end of the last line that ends behind the first `seen`; all, where none comes any more.
    fn whole_from(&self, seen: usize) -> usize
        requires { seen ≤ length self.now.text.items }
        ensures { IsWhole self.now result }
    {
        if self.ended {
            return self.text.len();
        }
        match memrchr(b'\n', &self.text[seen..]) {
            Some(place) => seen + place + 1,
            None => 0,
        }
    }

    /// So many octets more come, and others until a line has its end or none comes any more. How many octets have whole lines.
    pub fn whole_lines<S: Source>(
        &mut self,
        source: &mut S,
        more: usize,
    ) -> Result<usize, ReadAllFault>
        requires some { 0 < more }
        requires few { more ≤ MOST_BYTES + MOST_AT_ONCE }
        ensures come { (first : _) (taken : _) → HasCome first (S.left source.old) self.old taken →
            Comes first taken (S.left source.new) self.new result }
        ensures whole { IfOk result (IsWhole self.new) }
        ensures more { OnOk result ((self.new.ended ≡ true) ⊎ (self.old.came < self.new.came)) }
        ensures rises { OnOk result (RiseAlike self.old self.new) }
        ensures fault { result ≡ Err Fault → Rose (S.faults source.old) (S.faults source.new) }
        ensures kept { result ≢ Err Fault → S.faults source.new ≡ S.faults source.old }
    {
        loop {
            let seen = self.text.len();
            self.fill(source, seen + more)?;
            let whole = self.whole_from(seen);
            if whole > 0 || self.ended {
                return Ok(whole);
            }
        }
    }

    /// Octets come until the mark of a head stands in a whole line, or none comes any more. How many octets have whole lines.
    pub fn with_mark<S: Source>(&mut self, source: &mut S) -> Result<usize, ReadAllFault>
        ensures come { (first : _) (taken : _) → HasCome first (S.left source.old) self.old taken →
            Comes first taken (S.left source.new) self.new result }
        ensures whole { IfOk result (IsWhole self.new) }
        ensures mark { IfOk result (HasMark self.new) }
        ensures rises { OnOk result (RiseAlike self.old self.new) }
        ensures fault { result ≡ Err Fault → Rose (S.faults source.old) (S.faults source.new) }
        ensures kept { result ≢ Err Fault → S.faults source.new ≡ S.faults source.old }
    {
        loop {
            let more = self.text.len() + MOST_AT_ONCE;
            let whole = self.whole_lines(source, more)?;
            if self.ended || has_mark(self.front(whole)) {
                return Ok(whole);
            }
        }
    }

    /// All octets come that are still to come, and are passed over.
    pub fn pass_over<S: Source>(&mut self, source: &mut S) -> Result<(), ReadAllFault>
        ensures come { (first : _) (taken : _) → HasCome first (S.left source.old) self.old taken →
            PassedOver first taken self.old (S.left source.new) result }
        ensures fault { result ≡ Err Fault → Rose (S.faults source.old) (S.faults source.new) }
        ensures kept { result ≢ Err Fault → S.faults source.new ≡ S.faults source.old }
    {
        let mut buf = [0u8; MOST_AT_ONCE];
        while !self.ended {
            self.text.clear();
            self.take_once(source, &mut buf)?;
        }
        Ok(())
    }
}
