// Hashes of values, by which a search asks before it compares.
//
// They are FNV's, of 64 bits. Nothing rests on it that two hashes differ: where they are one, a
// search compares the values.
ghost use Rattle.std.specs.Prelude.{◌≡◌, ◌<◌, ◌^◌};
ghost use Rattle.model.specs.Hashing.{hash_natural, hash_bytes, hash_number, hash_value, hash_of};

use crate::key::{Key, KeyValues};
use crate::value::Value;

/// The prime of the FNV hashes of 64 bits.
const FACTOR: u64 = 1_099_511_628_211;

/// The hash of a key's values.
pub fn hash_key(key: &Key) -> u64
    ensures { result ≡ hash_of key.now }
{
    match key.values() {
        KeyValues::Int(number) => hash_number(0, number),
        KeyValues::List(values) => hash_values(values),
    }
}

// The hash of values.
fn hash_values(values: &[Value]) -> u64
    ensures { result ≡ hash_of values.now }
{
    let mut hash = 0;
    for value in values {
        hash = hash_value(hash, value);
    }
    hash
}

/// A hash with one more value. A truth leaves it as it is.
pub fn hash_value(hash: u64, value: &Value) -> u64
    ensures { result ≡ hash_value hash value.now }
{
    match value {
        Value::Text(text) => hash_text(hash, text.as_str()),
        Value::Int(number) => hash_number(hash, *number),
        Value::Bool(_) => hash,
    }
}

/// A hash with one more number, by what it is without its sign.
pub fn hash_number(hash: u64, number: i64) -> u64
    ensures { result ≡ hash_number hash number }
{
    hash_natural(hash, number.unsigned_abs())
}

/// A hash with the bytes of one more text.
pub fn hash_text(hash: u64, text: &str) -> u64
    ensures { result ≡ hash_bytes hash text.now }
{
    let mut hash = hash;
    for byte in text.as_bytes() {
        hash = hash_natural(hash, u64::from(*byte));
    }
    hash
}

/// A hash with one more number that has no sign.
pub fn hash_natural(hash: u64, number: u64) -> u64
    ensures { result ≡ hash_natural hash number }
{
    hash.wrapping_mul(FACTOR).wrapping_add(number)
}
