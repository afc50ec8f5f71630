// The key of a row: its values in the columns of the primary key, or of a unique key.
ghost use Rattle.std.specs.Prelude.{◌≡◌, [], ◌∷◌, IfOk};
ghost use Rattle.std.specs.List.{fold};
ghost use Rattle.model.specs.Key.{key_cmp};
ghost use Rattle.model.specs.KeyCode.{values_lent};
ghost use Rattle.model.specs.HasherInput.{key_writes};

use crate::memory::OutOfMemory;
use crate::value::Value;
use crate::value_ref::ValueRef;
use std::alloc::{AllocError, Global};
use std::cmp::Ordering;
use std::hash::{Hash, Hasher};
use std::marker::Model;
use std::slice;
use std::sync::{Arc, ArcSlice};

/// Values in the order of a key's columns, none of them null. A clause sees the list of them.
///
/// Copies of a key share its values.
#[derive(Debug)]
pub struct Key {
    values: Values,
}

// Most keys are one integer. It lies in the key itself, so that a search in a tree of keys follows
// no pointer to it; any other values are behind one, so that keys lie close together.
#[derive(Debug, Drop)]
enum Values {
    Int(i64),
    One(Arc<Value>),
    Many(ArcSlice<Value>),
}

/// The values of a key, as they lie in it.
#[derive(Clone, Copy, Debug)]
pub enum KeyValues<'a> {
    /// One integer.
    Int(i64),
    /// The list of all values.
    List(&'a [Value]),
}

impl Model for Key {
    ghost use Rattle.std.specs.Prelude.{List};
    ghost use Rattle.model.specs.declared.value.Value.{Value as Single};

    ghost Value = { List Single };

    ghost use Rattle.model.specs.KeyCode.{values_in};

    ghost view = { λ k. values_in k.values };
}

// One call wherever a key is dropped, whichever way its values lie.
impl Drop for Key {
    fn drop(self) {
        let Key { values } = self;
        drop(values);
    }
}

impl Key {
    /// The key with this value alone.
    pub fn from_value(alloc: Global, value: Value) -> Result<Key, OutOfMemory>
        ensures { IfOk result (λ key. key ≡ value ∷ []) }
    {
        let values = match value {
            Value::Int(number) => Values::Int(number),
            value => Values::One(Arc::new(alloc, value)?),
        };
        Ok(Key { values })
    }

    /// The key with these values.
    pub fn from_values(values: Vec<Value>) -> Result<Key, OutOfMemory>
        ensures { IfOk result (λ key. key ≡ values.items) }
    {
        let mut values = values;
        if values.len() == 1 {
            let alloc = *values.allocator();
            return Key::from_value(alloc, values.remove(0));
        }
        Ok(Key {
            values: Values::Many(ArcSlice::from_vec(values)?),
        })
    }

    /// Its values, in the order of the key's columns.
    pub fn values(&self) -> KeyValues<'_>
        ensures { values_lent result ≡ self.now }
    {
        match &self.values {
            Values::Int(number) => KeyValues::Int(*number),
            Values::One(value) => KeyValues::List(slice::from_ref(value)),
            Values::Many(values) => KeyValues::List(values.as_slice()),
        }
    }

    /// An equal key. Its values are shared, and not copied.
    pub fn copy(&self) -> Result<Key, OutOfMemory>
        ensures { IfOk result (λ k. k ≡ self.now) }
    {
        Ok(self.clone()?)
    }
}

impl<'a> KeyValues<'a> {
    /// The order of two lists of values: by the first that differ.
    #[inline(never)]
    pub fn compare(self, other: KeyValues<'_>) -> Ordering
        ensures { result ≡ key_cmp (values_lent self.entry) (values_lent other.entry) }
    {
        match (self, other) {
            (KeyValues::Int(own), KeyValues::Int(others)) => own.cmp(&others),
            (KeyValues::Int(own), KeyValues::List(others)) => {
                let own = Value::Int(own);
                slice::from_ref(&own).cmp(others)
            }
            (KeyValues::List(own), KeyValues::Int(others)) => {
                let others = Value::Int(others);
                own.cmp(slice::from_ref(&others))
            }
            (KeyValues::List(own), KeyValues::List(others)) => own.cmp(others),
        }
    }
}

impl Clone for Key {
    ghost is_clone = { λ key other. other ≡ key };

    fn clone(&self) -> Result<Key, AllocError> {
        let values = match &self.values {
            Values::Int(number) => Values::Int(*number),
            Values::One(value) => Values::One(value.clone()?),
            Values::Many(values) => Values::Many(values.clone()?),
        };
        Ok(Key { values })
    }
}

impl PartialEq for Key {
    ghost use Rattle.std.specs.Ordering.{eq_by_cmp};
    ghost use Rattle.std.specs.Cmp.{partial_equiv_from_equiv, eq_by_cmp_equiv};
    ghost use Rattle.model.specs.Key.{key_cmp, key_cmp_total};

    ghost eq = { eq_by_cmp key_cmp };

    ghost laws = { partial_equiv_from_equiv (eq_by_cmp_equiv key_cmp_total) };

    fn eq(&self, other: &Key) -> bool {
        self.cmp(other).is_eq()
    }
}

impl Eq for Key {
    ghost use Rattle.std.specs.Cmp.{eq_by_cmp_equiv};
    ghost use Rattle.model.specs.Key.{key_cmp_total};

    ghost laws = { eq_by_cmp_equiv key_cmp_total };
}

impl PartialOrd for Key {
    ghost use Rattle.std.specs.Prelude.{Some, refl};
    ghost use Rattle.std.specs.Cmp.{partial_order_from_agreeing_total};
    ghost use Rattle.model.specs.Key.{key_cmp, key_cmp_total};

    ghost partial_cmp = { λ x y. Some (key_cmp x y) };

    ghost laws = { partial_order_from_agreeing_total key_cmp key_cmp_total (λ x y. refl) (λ x y. refl) };

    fn partial_cmp(&self, other: &Key) -> Option<Ordering> {
        Some(self.cmp(other))
    }
}

impl Ord for Key {
    ghost use Rattle.std.specs.Prelude.{refl};
    ghost use Rattle.model.specs.Key.{key_cmp, key_cmp_total};

    ghost cmp = { key_cmp };

    ghost total = { key_cmp_total };

    ghost matches_partial_cmp = { λ x y. refl };

    ghost matches_eq = { λ x y. refl };

    // The search of a tree of keys is this alone where all are integers.
    #[inline(always)]
    fn cmp(&self, other: &Key) -> Ordering {
        match (&self.values, &other.values) {
            (Values::Int(own), Values::Int(others)) => own.cmp(others),
            _ => self.values().compare(other.values()),
        }
    }
}

impl Hash for Key {
    ghost use Rattle.model.specs.HasherInput.{key_writes, same_writes};

    ghost hash_input = { key_writes };

    ghost respects_eq = { same_writes };

    fn hash<S: Hasher>(&self, state: &mut S) {
        match self.values() {
            KeyValues::Int(number) => ValueRef::Int(number).feed(state),
            KeyValues::List(values) => feed_values(values, state),
        }
    }
}

// Feeds each value in turn to a hasher.
fn feed_values<S: Hasher>(values: &[Value], state: &mut S)
    ensures { state.new ≡ fold S.write state.old (key_writes values.now) }
{
    for value in values {
        ValueRef::of(value).feed(state);
    }
}
