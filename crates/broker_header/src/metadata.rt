//! Metadata of calls.
ghost use Rattle.std.specs.Prelude.{◌≡◌, ◌≢◌, ℕ, List, [], Some, None, Ok, length, is_some, option_map, OnOk, OnErr, IfErr};
ghost use Rattle.std.specs.List.{list_all};
ghost use Rattle.broker_header.specs.Metadata.{is_key_byte, is_value_byte, entry_check, with_entry, without_entry, find_entry, IsRefusal};

use crate::error::MetadataError;
use std::alloc::Global;
use std::collections::BTreeMap;
use std::marker::Model;

/// What a call carries beside its message: a map from keys to values, as gRPC has it for texts.
#[derive(Debug, Drop)]
pub struct Metadata {
    alloc: Global,
    entries: BTreeMap<String, String>,
}

impl Model for Metadata {
    ghost use Rattle.broker_header.specs.Metadata.{Entries, stored_entries};

    ghost Value = { Entries };

    ghost view = { λ m. stored_entries m.entries.entries };
}

impl Metadata {
    /// Metadata without entries.
    pub fn new(alloc: Global) -> Self
        ensures { result ≡ [] }
    {
        Metadata {
            alloc,
            entries: BTreeMap::new(alloc),
        }
    }

    /// Sets the value at a key, in place of what was there: `InvalidKey`, then `InvalidValue`, where a character isn't one that gRPC takes, or
    /// `OutOfMemory`. After a refusal the metadata is as it was.
    pub fn insert(&mut self, key: &str, value: &str) -> Result<(), MetadataError>
        ensures ok { OnOk result (entry_check key.now value.now ≡ Ok tt) }
        ensures set { OnOk result (self.new ≡ with_entry self.old key.now value.now) }
        ensures found { OnOk result (find_entry key.now self.new ≡ Some value.now) }
        ensures others { OnOk result ((q : List ℕ) → q ≢ key.now → find_entry q self.new ≡ find_entry q self.old) }
        ensures err { IfErr result (IsRefusal (entry_check key.now value.now)) }
        ensures kept { OnErr result (self.new ≡ self.old) }
    {
        check_entry(key, value)?;
        let key = String::from_str(self.alloc, key)?;
        let value = String::from_str(self.alloc, value)?;
        self.entries.insert(key, value)?;
        Ok(())
    }

    /// The value at a key.
    pub fn get(&self, key: &str) -> Option<&str>
        ensures { option_map (λ v. v.now) result ≡ find_entry key.now self.now }
    {
        match self.entries.get(key) {
            Some(value) => Some(value.as_str()),
            None => None,
        }
    }

    /// Takes the value at a key out, and answers whether there was one.
    pub fn remove(&mut self, key: &str) -> bool
        ensures was { result ≡ is_some (find_entry key.now self.old) }
        ensures removed { self.new ≡ without_entry key.now self.old }
        ensures gone { find_entry key.now self.new ≡ None }
        ensures others { (q : List ℕ) → q ≢ key.now → find_entry q self.new ≡ find_entry q self.old }
    {
        self.entries.remove(key).is_some()
    }

    /// The number of entries.
    pub fn len(&self) -> usize
        ensures { result ≡ length self.now }
    {
        self.entries.len()
    }
}

fn are_key_bytes(key: &[u8]) -> bool
    ensures { result ≡ list_all is_key_byte key.now }
{
    key.iter().all(|b| matches!(b, b'a'..=b'z' | b'0'..=b'9' | b'.' | b'-' | b'_'))
}

fn are_value_bytes(value: &[u8]) -> bool
    ensures { result ≡ list_all is_value_byte value.now }
{
    value.iter().all(|b| *b >= b' ' && *b <= b'~')
}

fn check_entry(key: &str, value: &str) -> Result<(), MetadataError>
    ensures { result ≡ entry_check key.now value.now }
{
    if key.is_empty() || !are_key_bytes(key.as_bytes()) {
        return Err(MetadataError::InvalidKey);
    }
    if !are_value_bytes(value.as_bytes()) {
        return Err(MetadataError::InvalidValue);
    }
    Ok(())
}
