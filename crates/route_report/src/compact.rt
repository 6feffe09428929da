//! Compact JSON, a value a line.

ghost use Rattle.std.specs.Prelude.{◌≡◌, IfOk, false};
ghost use Rattle.serde_json.specs.Data.{Members, object, put};
ghost use Rattle.serde_json.specs.View.{view};
ghost use Rattle.serde_json.specs.Written.{has_float};
ghost use Rattle.route_report.specs.Compact.{line, wholes};

use serde_json::Value;
use std::alloc::{AllocError, Global};

/// An array of whole numbers.
pub(crate) fn number_array(alloc: Global, numbers: &[u32]) -> Result<Value, AllocError>
    ensures ok { IfOk result (λ v. view v ≡ wholes numbers.now) }
{
    let mut list = Vec::with_capacity(alloc, numbers.len())?;
    'numbers: for number in numbers {
        list.push(Value::from(*number))?;
    }
    Ok(Value::Array(list))
}

/// An array of powers of w.
pub(crate) fn power_array(alloc: Global, powers: &[u8]) -> Result<Value, AllocError>
    ensures ok { IfOk result (λ v. view v ≡ wholes powers.now) }
{
    let mut list = Vec::with_capacity(alloc, powers.len())?;
    'powers: for power in powers {
        list.push(Value::from(*power))?;
    }
    Ok(Value::Array(list))
}

/// An object with a member more.
pub(crate) fn with_member(
    alloc: Global,
    value: Value,
    key: &str,
    member: Value,
) -> Result<Value, AllocError>
    ensures ok { IfOk result (λ v. (ms : Members) → view value ≡ object ms → view v ≡ object (put key.now (view member) ms)) }
{
    match value {
        Value::Object(mut map) => {
            serde_json::put(&mut map, alloc, key, member)?;
            Ok(Value::Object(map))
        }
        other => Ok(other),
    }
}

/// The text of a value that holds no float, without a space, and a line break.
pub(crate) fn value_line(alloc: Global, value: &Value) -> Result<Vec<u8>, AllocError>
    requires whole { has_float (view value.now) ≡ false }
    ensures ok { IfOk result (λ v. v.items ≡ line (view value.now)) }
{
    let mut bytes = value.to_string(alloc)?.into_bytes();
    bytes.push(b'\n')?;
    Ok(bytes)
}
