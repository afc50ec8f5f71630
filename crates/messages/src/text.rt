//! Names, texts and other bytes: cuts of a payload's shared bytes, short enough for their length fields.

ghost use Rattle.std.specs.Prelude.{◌≡◌, ◌^◌, ◌<◌, ℕ, List, length, IsUtf8};
ghost use Rattle.messages.specs.Field.{IsName, HasNoZero};

use bytes::{ByteStr, Bytes};
use std::marker::Model;

/// A name or a prefix: UTF-8 without a zero byte, so that a zero byte can end it.
#[derive(Debug, Drop)]
pub struct Name {
    text: ByteStr,
}

impl Model for Name {
    ghost Value = { List ℕ };

    ghost view = { λ n. n.text };

    ghost invariant = { λ n. HasNoZero n.text };
}

impl Name {
    /// The text as a name.
    pub fn new(text: ByteStr) -> Name
        requires { HasNoZero text }
        ensures { result ≡ text }
    {
        Name { text }
    }

    /// The name, whose bytes are shared with the payload that it was read from.
    pub fn as_byte_str(&self) -> &ByteStr
        ensures value { result.now ≡ self.now }
        ensures no_zero { HasNoZero self.now }
    {
        &self.text
    }

    /// The name as a string slice.
    pub fn as_str(&self) -> &str
        ensures value { result.now ≡ self.now }
        ensures name { IsName self.now }
    {
        self.text.as_str()
    }
}

/// The text of a column, short enough for its length field: less than 2 GiB.
#[derive(Debug, Drop)]
pub struct Text {
    text: ByteStr,
}

impl Model for Text {
    ghost Value = { List ℕ };

    ghost view = { λ t. t.text };

    ghost invariant = { λ t. length t.text < 2 ^ 31 };
}

impl Text {
    /// The text as a column's text.
    pub fn new(text: ByteStr) -> Text
        requires { length text < 2 ^ 31 }
        ensures { result ≡ text }
    {
        Text { text }
    }

    /// The text, whose bytes are shared with the payload that it was read from.
    pub fn as_byte_str(&self) -> &ByteStr
        ensures value { result.now ≡ self.now }
        ensures bound { length self.now < 2 ^ 31 }
    {
        &self.text
    }

    /// The text as a string slice.
    pub fn as_str(&self) -> &str
        ensures value { result.now ≡ self.now }
        ensures bound { length self.now < 2 ^ 31 }
        ensures utf8 { IsUtf8 self.now }
    {
        self.text.as_str()
    }
}

/// The content of a logical message, any bytes, short enough for its length field: less than 2 GiB.
#[derive(Debug, Drop)]
pub struct Content {
    bytes: Bytes,
}

impl Model for Content {
    ghost Value = { List ℕ };

    ghost view = { λ c. c.bytes };

    ghost invariant = { λ c. length c.bytes < 2 ^ 31 };
}

impl Content {
    /// The bytes as a message's content.
    pub fn new(bytes: Bytes) -> Content
        requires { length bytes < 2 ^ 31 }
        ensures { result ≡ bytes }
    {
        Content { bytes }
    }

    /// The bytes, which are shared with the payload that they were read from.
    pub fn as_bytes(&self) -> &Bytes
        ensures value { result.now ≡ self.now }
        ensures bound { length self.now < 2 ^ 31 }
    {
        &self.bytes
    }
}
