//! A reader over borrowed bytes.
ghost use Rattle.std.specs.Prelude.{◌≡◌, ◌↔◌, IsTrue, ◌++◌, ◌<◌, ◌^◌, ℕ, List, [], ◌∷◌, length, IfOk, IfErr, OnErr, IfSome, IfNone, option_map};
ghost use Rattle.der_core.specs.Any.{plain_ref, der_of};
ghost use Rattle.der_core.specs.Cursor.{NextTag};
ghost use Rattle.der_core.specs.Der.{IsValue, encode};
ghost use Rattle.der_core.specs.Tag.{byte_of};
ghost use Rattle.der_core.specs.Header.{read_value};

use crate::header::{first_byte, length_at, tag_at};
use crate::{AnyRef, Error, Tag};
use std::marker::Model;

/// A reader over borrowed bytes (X.690, 8.1), which takes one value after another. Contracts see the bytes that are left.
#[derive(Drop)]
pub struct Cursor<'a> {
    rest: &'a [u8],
}

impl<'a> Model for Cursor<'a> {
    ghost use Rattle.std.specs.Prelude.{ℕ, List};

    ghost Value = { List ℕ };

    ghost view = { λ c. c.rest.now };
}

impl<'a> Cursor<'a> {
    /// A reader that stands before the first byte.
    pub fn new(bytes: &'a [u8]) -> Self
        ensures { result ≡ bytes.now }
    {
        Cursor { rest: bytes }
    }

    /// Whether nothing is left.
    pub fn is_finished(&self) -> bool
        ensures { IsTrue result ↔ (self.now ≡ []) }
    {
        self.rest.is_empty()
    }

    /// All bytes that are left, which stay there.
    pub fn rest(&self) -> &'a [u8]
        ensures { result.now ≡ self.now }
    {
        self.rest
    }

    /// Takes all bytes that are left.
    pub fn take_rest(&mut self) -> &'a [u8]
        ensures value { result.now ≡ self.old }
        ensures taken { self.new ≡ [] }
    {
        let rest = self.rest;
        self.rest = &[];
        rest
    }

    /// The tag of the next value, which stays there: none where nothing is left, or no tag of one byte stands there.
    pub fn peek_tag(&self) -> Option<Tag>
        ensures { NextTag self.now result }
    {
        let (tag, _) = tag_at(self.rest)?;
        Some(tag)
    }

    /// Takes one value of any tag, header and content. `Malformed` where the bytes that are left begin with no value; then all of them stay.
    pub fn read_value(&mut self) -> Result<AnyRef<'a>, Error>
        ensures value { IfOk result (λ v. self.old ≡ der_of (plain_ref v) ++ self.new) }
        ensures fits { IfOk result (λ v. length (der_of (plain_ref v)) < 2 ^ 32) }
        ensures malformed { IfErr result (λ e. e ≡ Error.Malformed) }
        ensures none { OnErr result ((b rest : List ℕ) → IsValue b → self.old ≡ b ++ rest → ⊥) }
        ensures kept { OnErr result (self.new ≡ self.old) }
    {
        let Some((value, rest)) = any_at(self.rest) else {
            return Err(Error::Malformed);
        };
        self.rest = rest;
        Ok(value)
    }
}

/// The content of the value of this tag at the front, and what follows it. None where a value of another tag stands there, or no value.
pub fn field_at(tag: Tag, bytes: &[u8]) -> Option<(&[u8], &[u8])>
    ensures value { IfSome result (λ field. bytes.now ≡ encode (byte_of tag) field.0.now ++ field.1.now) }
    ensures fits { IfSome result (λ field. length (encode (byte_of tag) field.0.now) < 2 ^ 32) }
    ensures none { IfNone result ((content rest : List ℕ) → length (encode (byte_of tag) content) < 2 ^ 32
        → bytes.now ≡ encode (byte_of tag) content ++ rest → ⊥) }
{
    let (value, rest) = any_at(bytes)?;
    if value.tag().byte() != tag.byte() {
        return None;
    }
    Some((value.value(), rest))
}

/// The value at the front, and what follows it.
fn value_at(bytes: &[u8]) -> Option<(AnyRef<'_>, &[u8])>
    ensures { option_map (λ found. ((plain_ref found.0).tag, (plain_ref found.0).content, found.1.now)) result ≡ read_value bytes.now }
{
    let (tag, after) = tag_at(bytes)?;
    let (length, after) = length_at(after)?;
    if length >= 4294967290 {
        return None;
    }
    let length = length as usize;
    if after.len() < length {
        return None;
    }
    let (value, rest) = after.split_at(length);
    Some((AnyRef::from_parts(tag, value), rest))
}

/// The value at the front, and what follows it.
pub(crate) fn any_at(bytes: &[u8]) -> Option<(AnyRef<'_>, &[u8])>
    ensures found { IfSome result (λ found. bytes.now ≡ der_of (plain_ref found.0) ++ found.1.now) }
    ensures fits { IfSome result (λ found. length (der_of (plain_ref found.0)) < 2 ^ 32) }
    ensures none { IfNone result ((b rest : List ℕ) → IsValue b → bytes.now ≡ b ++ rest → ⊥) }
{
    value_at(bytes)
}
