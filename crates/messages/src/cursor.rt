//! Reading fields from the front of a payload.

ghost use Rattle.std.specs.Prelude.{◌≡◌, ◌^◌, ◌<◌, ◌≤◌, [], ◌∷◌, length, take, drop, MatchResult, IfOk, IsUtf8};
ghost use Rattle.std.specs.Bool.{OnTrue};
ghost use Rattle.std.specs.Str.{is_utf8};
ghost use Rattle.std.specs.List.{position_or_len};
ghost use Rattle.messages.specs.Field.{two, four, eight, is_zero};
ghost use Rattle.messages.specs.Reading.{Gives, unsigned_at, signed_at, count_at, string_at, text_at, content_at};
ghost use Rattle.messages.specs.declared.fault.MsgFault.TheVariants.{Short};

use crate::fault::MsgFault;
use crate::text::{Content, Name, Text};
use bytes::{ByteStr, Bytes};
use std::alloc::AllocError;
use std::marker::Model;
use std::str;

/// What is left to read of a payload. A clause sees the bytes that are left.
#[derive(Drop)]
pub(crate) struct Cursor<'a> {
    payload: &'a Bytes,
    at: usize,
}

impl<'a> Model for Cursor<'a> {
    ghost use Rattle.std.specs.Prelude.{ℕ, List, ◌≤◌, length, drop};

    ghost Value = { List ℕ };

    ghost view = { λ c. drop c.at c.payload.now };

    ghost invariant = { λ c. c.at ≤ length c.payload.now };
}

impl<'a> Cursor<'a> {
    pub(crate) fn new(payload: &'a Bytes) -> Cursor<'a>
        ensures { result ≡ payload.now }
    {
        Cursor { payload, at: 0 }
    }

    pub(crate) fn unread(&self) -> &'a [u8]
        ensures { result.now ≡ self.now }
    {
        let payload: &'a Bytes = self.payload;
        &payload.as_slice()[self.at..]
    }

    /// The next bytes, or `Short` where there are fewer.
    fn take(&mut self, count: usize) -> Result<&'a [u8], MsgFault>
        ensures cases { MatchResult result
            (λ front. (count ≤ length self.old) × (front.now ≡ take count self.old) × (self.new ≡ drop count self.old))
            (λ fault. (length self.old < count) × (fault ≡ Short)) }
    {
        let payload: &'a Bytes = self.payload;
        let bytes = payload.as_slice();
        let start = self.at;
        if bytes.len() - start < count {
            return Err(MsgFault::Short);
        }
        self.at = start + count;
        Ok(&bytes[start..start + count])
    }

    /// The next byte.
    pub(crate) fn next_byte(&mut self) -> Result<u8, MsgFault>
        ensures cases { MatchResult result (λ b. self.old ≡ b ∷ self.new) (λ fault. (self.old ≡ []) × (fault ≡ Short)) }
    {
        let front = self.take(1)?;
        Ok(front[0])
    }

    #[tactic(auto, unfolding(crate::specs::Reading::unsigned_at, crate::specs::Reading::number_in))]
    pub(crate) fn next_u32(&mut self) -> Result<u32, MsgFault>
        ensures { Gives result self.new (unsigned_at four self.old) }
    {
        let front = self.take(4)?;
        Ok(u32::from_be_bytes([front[0], front[1], front[2], front[3]]))
    }

    #[tactic(auto, unfolding(crate::specs::Reading::unsigned_at, crate::specs::Reading::number_in))]
    pub(crate) fn next_u64(&mut self) -> Result<u64, MsgFault>
        ensures { Gives result self.new (unsigned_at eight self.old) }
    {
        let front = self.take(8)?;
        Ok(u64::from_be_bytes([
            front[0], front[1], front[2], front[3], front[4], front[5], front[6], front[7],
        ]))
    }

    #[tactic(auto, unfolding(crate::specs::Reading::signed_at, crate::specs::Reading::unsigned_at))]
    pub(crate) fn next_i32(&mut self) -> Result<i32, MsgFault>
        ensures { Gives result self.new (signed_at four self.old) }
    {
        Ok(self.next_u32()?.cast_signed())
    }

    #[tactic(auto, unfolding(crate::specs::Reading::signed_at, crate::specs::Reading::unsigned_at))]
    pub(crate) fn next_i64(&mut self) -> Result<i64, MsgFault>
        ensures { Gives result self.new (signed_at eight self.old) }
    {
        Ok(self.next_u64()?.cast_signed())
    }

    /// A count of 16 bits.
    #[tactic(auto, unfolding(crate::specs::Reading::count_at, crate::specs::Reading::number_in))]
    pub(crate) fn next_count(&mut self) -> Result<u16, MsgFault>
        ensures read { Gives result self.new (count_at two self.old) }
        ensures bound { IfOk result (λ n. n < 2 ^ 15) }
    {
        let front = self.take(2)?;
        let count = u16::from_be_bytes([front[0], front[1]]);
        if count >= 0x8000 {
            return Err(MsgFault::NegativeCount);
        }
        Ok(count)
    }

    /// A count or a length of 32 bits.
    #[tactic(auto, unfolding(crate::specs::Reading::count_at, crate::specs::Reading::number_in))]
    pub(crate) fn next_long_count(&mut self) -> Result<u32, MsgFault>
        ensures read { Gives result self.new (count_at four self.old) }
        ensures bound { IfOk result (λ n. n < 2 ^ 31) }
    {
        let front = self.take(4)?;
        let count = u32::from_be_bytes([front[0], front[1], front[2], front[3]]);
        if count >= 0x8000_0000 {
            return Err(MsgFault::NegativeCount);
        }
        Ok(count)
    }

    /// The next bytes, which are there. They stay in the payload's memory.
    fn cut(&mut self, count: usize) -> Result<Bytes, AllocError>
        requires { count ≤ length self.old }
        ensures ok { IfOk result (λ front. (front ≡ take count self.old) × (self.new ≡ drop count self.old)) }
    {
        let payload: &'a Bytes = self.payload;
        let start = self.at;
        // Tells the proof that the sum fits.
        let _len = payload.len();
        let end = start + count;
        let front = payload.slice(start..end)?;
        self.at = end;
        Ok(front)
    }

    fn skip_byte(&mut self)
        requires { 0 < length self.old }
        ensures { self.new ≡ drop 1 self.old }
    {
        let payload: &'a Bytes = self.payload;
        // Tells the proof that the sum fits.
        let _len = payload.len();
        self.at += 1;
    }

    /// The text before the next zero byte.
    #[tactic(auto, unfolding(crate::specs::Reading::string_at))]
    pub(crate) fn next_string(&mut self) -> Result<Name, MsgFault>
        ensures { Gives result self.new (string_at self.old) }
    {
        let unread = self.unread();
        let len = zero_at(unread);
        if len >= unread.len() {
            return Err(MsgFault::Short);
        }
        if !is_utf8(&unread[..len]) {
            return Err(MsgFault::BadText);
        }
        let text = ByteStr::from_known_utf8(self.cut(len)?);
        self.skip_byte();
        Ok(Name::new(text))
    }

    /// A text of this many bytes.
    #[tactic(auto, unfolding(crate::specs::Reading::text_at))]
    pub(crate) fn next_text(&mut self, len: u32) -> Result<Text, MsgFault>
        requires { len < 2 ^ 31 }
        ensures { Gives result self.new (text_at len self.old) }
    {
        let unread = self.unread();
        let len = len as usize;
        if unread.len() < len {
            return Err(MsgFault::Short);
        }
        if !is_utf8(&unread[..len]) {
            return Err(MsgFault::BadText);
        }
        let text = ByteStr::from_known_utf8(self.cut(len)?);
        Ok(Text::new(text))
    }

    /// So many bytes.
    #[tactic(auto, unfolding(crate::specs::Reading::content_at))]
    pub(crate) fn next_content(&mut self, len: u32) -> Result<Content, MsgFault>
        requires { len < 2 ^ 31 }
        ensures { Gives result self.new (content_at len self.old) }
    {
        let len = len as usize;
        if self.unread().len() < len {
            return Err(MsgFault::Short);
        }
        let bytes = self.cut(len)?;
        Ok(Content::new(bytes))
    }
}

/// Where the first zero byte is, or how many bytes there are.
fn zero_at(bytes: &[u8]) -> usize
    ensures { result ≡ position_or_len is_zero bytes.now }
{
    for (i, b) in bytes.iter().enumerate() {
        if *b == 0 {
            return i;
        }
    }
    bytes.len()
}

fn is_utf8(bytes: &[u8]) -> bool
    ensures value { result ≡ is_utf8 bytes.now }
    ensures valid { OnTrue result (IsUtf8 bytes.now) }
{
    match str::from_utf8(bytes) {
        Ok(_) => true,
        Err(_) => false,
    }
}
