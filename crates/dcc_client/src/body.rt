//! Bodies in JSON.

ghost use Rattle.std.specs.Prelude.{◌≡◌, IfOk, nat_lt, option_map};
ghost use Rattle.std.specs.List.{list_all};
ghost use Rattle.serde_json.specs.View.{view};
ghost use Rattle.dcc_client.specs.Findings.{data_of, has_text, number_in};

use serde_json::Value;
use std::alloc::{AllocError, Global};

/// A body in JSON. None if it isn't in ASCII, or is no JSON. The only error is want of memory.
#[tactic(auto, unfolding(crate::specs::Findings::data_of))]
pub(crate) fn data_of(alloc: Global, body: &[u8]) -> Result<Option<Value>, AllocError>
    ensures { IfOk result (λ value. option_map view value ≡ data_of body.now) }
{
    if !is_ascii(body) {
        return Ok(None);
    }
    match Value::from_slice(alloc, body) {
        Ok(value) => Ok(Some(value)),
        Err(error) => {
            if error.is_memory() {
                Err(AllocError)
            } else {
                Ok(None)
            }
        }
    }
}

fn is_ascii(body: &[u8]) -> bool
    ensures { result ≡ list_all (λ octet. nat_lt octet 128) body.now }
{
    body.iter().all(|octet| *octet < 128)
}

/// Whether an object has this text under a name.
pub(crate) fn has_text(value: &Value, name: &str, text: &[u8]) -> bool
    ensures { result ≡ has_text name.now text.now (view value.now) }
{
    match value.get(name).and_then(Value::as_str) {
        Some(given) => given.as_bytes() == text,
        None => false,
    }
}

/// A whole number of an object, by its name.
pub(crate) fn number_in(value: &Value, name: &str) -> Option<i128>
    ensures { result ≡ number_in name.now (view value.now) }
{
    value.get(name).and_then(Value::as_number)?.as_i128()
}
