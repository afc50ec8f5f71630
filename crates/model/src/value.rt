// A value of a column, and the order of values.
ghost use Rattle.std.specs.Prelude.{◌≡◌, IfOk};

use crate::memory::OutOfMemory;
use crate::types::text::KeptText;
use crate::value_ref::ValueRef;
use std::cmp::Ordering;

/// A value of a column: `int`, `text` or `bool`.
///
/// A text is of its own; copies of the value share it.
#[derive(Clone, Debug, Drop)]
pub enum Value {
    Int(i64),
    Text(KeptText),
    Bool(bool),
}

impl Value {
    /// An equal value. A text is shared, and not copied.
    pub fn copy(&self) -> Result<Value, OutOfMemory>
        ensures { IfOk result (λ v. v ≡ self.now) }
    {
        match self {
            Value::Int(number) => Ok(Value::Int(*number)),
            Value::Text(text) => Ok(Value::Text(text.clone()?)),
            Value::Bool(truth) => Ok(Value::Bool(*truth)),
        }
    }
}

impl PartialEq for Value {
    ghost use Rattle.std.specs.Ordering.{eq_by_cmp};
    ghost use Rattle.std.specs.Cmp.{partial_equiv_from_equiv, eq_by_cmp_equiv};
    ghost use Rattle.model.specs.Value.{value_cmp, value_cmp_total};

    ghost eq = { eq_by_cmp value_cmp };

    ghost laws = { partial_equiv_from_equiv (eq_by_cmp_equiv value_cmp_total) };

    fn eq(&self, other: &Value) -> bool {
        self.cmp(other).is_eq()
    }
}

impl Eq for Value {
    ghost use Rattle.std.specs.Cmp.{eq_by_cmp_equiv};
    ghost use Rattle.model.specs.Value.{value_cmp_total};

    ghost laws = { eq_by_cmp_equiv value_cmp_total };
}

impl PartialOrd for Value {
    ghost use Rattle.std.specs.Prelude.{Some, refl};
    ghost use Rattle.std.specs.Cmp.{partial_order_from_agreeing_total};
    ghost use Rattle.model.specs.Value.{value_cmp, value_cmp_total};

    ghost partial_cmp = { λ x y. Some (value_cmp x y) };

    ghost laws = { partial_order_from_agreeing_total value_cmp value_cmp_total (λ x y. refl) (λ x y. refl) };

    fn partial_cmp(&self, other: &Value) -> Option<Ordering> {
        Some(self.cmp(other))
    }
}

impl Ord for Value {
    ghost use Rattle.std.specs.Prelude.{refl};
    ghost use Rattle.model.specs.Value.{value_cmp, value_cmp_total};

    ghost cmp = { value_cmp };

    ghost total = { value_cmp_total };

    ghost matches_partial_cmp = { λ x y. refl };

    ghost matches_eq = { λ x y. refl };

    #[inline]
    fn cmp(&self, other: &Value) -> Ordering {
        ValueRef::of(self).compare(ValueRef::of(other))
    }
}
