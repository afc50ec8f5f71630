// A value as it is read, wherever it lies.
ghost use Rattle.std.specs.Prelude.{◌≡◌, IfOk};
ghost use Rattle.std.specs.List.{fold};
ghost use Rattle.std.specs.Option.{option_map};
ghost use Rattle.model.specs.HasherInput.{value_writes};
ghost use Rattle.model.specs.Value.{value_cmp};
ghost use Rattle.model.specs.ValueRef.{read_value};

use crate::memory::OutOfMemory;
use crate::types::text::KeptText;
use crate::value::Value;
use std::alloc::Global;
use std::cmp::Ordering;
use std::hash::{Hash, Hasher};

// So many integers that follow one another are fed to a hasher alike.
const NEIGHBOURS: u64 = 4;

/// A value of a row, as it is read. A text is lent.
#[derive(Clone, Copy, Debug)]
pub enum ValueRef<'a> {
    Int(i64),
    Text(&'a str),
    Bool(bool),
}

impl<'a> ValueRef<'a> {
    /// A value that is lent.
    pub fn of(value: &'a Value) -> ValueRef<'a>
        ensures { read_value result ≡ value.now }
    {
        match value {
            Value::Int(number) => ValueRef::Int(*number),
            Value::Text(text) => ValueRef::Text(text.as_str()),
            Value::Bool(truth) => ValueRef::Bool(*truth),
        }
    }

    /// A column that is lent; `None` is null.
    pub fn of_column(value: &'a Option<Value>) -> Option<ValueRef<'a>>
        ensures { option_map read_value result ≡ value.now }
    {
        match value {
            Some(value) => Some(ValueRef::of(value)),
            None => None,
        }
    }

    /// An equal value of its own. A text is copied.
    pub fn to_value(self, alloc: Global) -> Result<Value, OutOfMemory>
        ensures { IfOk result (λ own. own ≡ read_value self.entry) }
    {
        match self {
            ValueRef::Int(number) => Ok(Value::Int(number)),
            ValueRef::Text(text) => Ok(Value::Text(KeptText::from_str(alloc, text)?)),
            ValueRef::Bool(truth) => Ok(Value::Bool(truth)),
        }
    }

    /// The order of two values.
    #[inline]
    pub fn compare(self, other: ValueRef<'_>) -> Ordering
        ensures { result ≡ value_cmp (read_value self.entry) (read_value other.entry) }
    {
        match (self, other) {
            (ValueRef::Int(own), ValueRef::Int(others)) => own.cmp(&others),
            (ValueRef::Text(own), ValueRef::Text(others)) => own.cmp(others),
            (ValueRef::Bool(own), ValueRef::Bool(others)) => own.cmp(&others),
            (ValueRef::Int(_), _) | (ValueRef::Text(_), ValueRef::Bool(_)) => Ordering::Less,
            (ValueRef::Bool(_), _) | (ValueRef::Text(_), ValueRef::Int(_)) => Ordering::Greater,
        }
    }

    /// Feeds the value to a hasher. Neighbouring integers are fed alike: keys mostly come in order, and
    /// then lie together in a table of hashes.
    pub fn feed<S: Hasher>(self, state: &mut S)
        ensures { state.new ≡ fold S.write state.old (value_writes (read_value self.entry)) }
    {
        match self {
            ValueRef::Int(number) => (number.cast_unsigned() / NEIGHBOURS).hash(state),
            ValueRef::Text(text) => text.hash(state),
            ValueRef::Bool(truth) => truth.hash(state),
        }
    }
}
