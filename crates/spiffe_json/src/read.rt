//! Reading and writing JSON in which each number is whole.
ghost use Rattle.std.specs.Prelude.{◌≡◌, ◌≤◌, ◌⊎◌, Ok, Some, None, false, IfOk, IfErr};
ghost use Rattle.serde_json.specs.Data.{depth};
ghost use Rattle.serde_json.specs.Read.{max_depth};
ghost use Rattle.serde_json.specs.View.{view, items_view, members_view};
ghost use Rattle.serde_json.specs.Written.{has_float, items_have_float, members_have_float, compact_text};
ghost use Rattle.spiffe_json.specs.Json.{json_of, whole_json, IsReadRefusal};

use crate::error::{JsonError, ReadError};
use serde_json::{Map, Value};
use std::alloc::{AllocError, Global};

/// Reads one JSON value (RFC 8259) and refuses numbers that aren't whole, wherever they stand in it, as `Number`; bytes that are no such value
/// are `Syntax`, and that comes first. Or there is no memory.
///
/// Of members with one name only the last is in the value, so what an earlier one held is not looked at.
#[tactic(auto, unfolding(crate::specs::Json::whole_json))]
pub fn read_json(alloc: Global, bytes: &[u8]) -> Result<Value, ReadError>
    ensures ok { IfOk result (λ v. whole_json bytes.now ≡ Ok (view v)) }
    ensures whole { IfOk result (λ v. has_float (view v) ≡ false) }
    ensures nests { IfOk result (λ v. depth (view v) ≤ max_depth) }
    ensures err { IfErr result (IsReadRefusal (whole_json bytes.now)) }
{
    let value = parse(alloc, bytes)?;
    if has_float(&value) {
        return Err(ReadError::Json(JsonError::Number));
    }
    Ok(value)
}

/// Writes a value without blanks, the names of each object in ascending order. Want of memory alone refuses it.
pub fn write_json(alloc: Global, value: &Value) -> Result<Vec<u8>, AllocError>
    requires whole { has_float (view value.now) ≡ false }
    ensures text { IfOk result (λ bytes. bytes.items ≡ compact_text (view value.now)) }
    ensures reads { IfOk result (λ bytes. depth (view value.now) ≤ max_depth → whole_json bytes.items ≡ Ok (view value.now)) }
{
    let bytes = value.to_vec(alloc)?;
    Ok(bytes)
}

fn parse(alloc: Global, bytes: &[u8]) -> Result<Value, ReadError>
    ensures ok { IfOk result (λ v. json_of bytes.now ≡ Some (view v)) }
    ensures nests { IfOk result (λ v. depth (view v) ≤ max_depth) }
    ensures err { IfErr result (λ e. ((json_of bytes.now ≡ None) × (e ≡ ReadError.Json JsonError.Syntax)) ⊎ (e ≡ ReadError.OutOfMemory)) }
{
    match Value::from_slice(alloc, bytes) {
        Ok(value) => Ok(value),
        Err(e) => {
            if e.is_memory() {
                Err(ReadError::OutOfMemory)
            } else {
                Err(ReadError::Json(JsonError::Syntax))
            }
        }
    }
}

// `serde_json` keeps as a float each number that isn't a whole number of 64 bits.
#[cycle(floats)]
fn has_float(value: &Value) -> bool
    ensures { result ≡ has_float (view value.now) }
{
    match value {
        Value::Null | Value::Bool(_) | Value::String(_) => false,
        Value::Number(n) => n.is_f64(),
        Value::Array(items) => items_have_float(items),
        Value::Object(members) => members_have_float(members),
    }
}

#[cycle(floats)]
fn items_have_float(items: &Vec<Value>) -> bool
    ensures { result ≡ items_have_float (items_view items.now.items) }
{
    for item in items {
        if has_float(item) {
            return true;
        }
    }
    false
}

#[cycle(floats)]
fn members_have_float(members: &Map<String, Value>) -> bool
    ensures { result ≡ members_have_float (members_view members.now.entries) }
{
    for (_, member) in members.iter() {
        if has_float(member) {
            return true;
        }
    }
    false
}
