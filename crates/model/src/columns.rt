// Columns in one block of memory: those of a row, or what an update does to each.
ghost use Rattle.std.specs.Prelude.{◌≡◌, ◌∷◌, ◌++◌, ◌<◌, [], length, IfOk, OnOk, string_bytes};
ghost use Rattle.model.specs.declared.patch.ColumnPatch.TheVariants.{Value};
ghost use Rattle.model.specs.declared.value.Value.TheVariants.{Text};
ghost use Rattle.model.specs.Packed.{KeepsCuts, IsCutOf};
ghost use Rattle.model.specs.Patch.{read_column, column_at};

use crate::memory::OutOfMemory;
use crate::packed;
use crate::packed::{COUNT_LEN, CUT_LEN, Cut};
use crate::patch::ColumnPatchRef;
use crate::value_ref::ValueRef;
use std::alloc::{AllocError, Global};
use std::marker::Model;
use std::sync::ArcSlice;

// What is done to each column: it is kept, becomes null, or gets a value. A clause sees the list of
// that. Copies share all.
#[derive(Drop)]
pub(crate) struct Columns {
    block: ArcSlice<u8>,
}

// Columns in the making, one after another. A clause sees the list of those that came.
#[derive(Debug, Drop)]
pub(crate) struct ColumnsBuilder {
    texts: String,
    // The bytes of a cut for each column.
    cuts: Vec<u8>,
    columns: u32,
}

impl Model for Columns {
    ghost use Rattle.std.specs.Prelude.{List};
    ghost use Rattle.std.specs.Arc.{arc_slice_items};
    ghost use Rattle.model.specs.declared.patch.ColumnPatch.{ColumnPatch};

    ghost Value = { List ColumnPatch };

    ghost use Rattle.model.specs.Packed.{patch_in, IsPacked};

    ghost view = { λ c. patch_in (arc_slice_items c.block) };

    ghost invariant = { λ c. IsPacked (arc_slice_items c.block) };
}

impl Model for ColumnsBuilder {
    ghost use Rattle.std.specs.Prelude.{List, map, string_bytes};
    ghost use Rattle.model.specs.declared.patch.ColumnPatch.{ColumnPatch};

    ghost Value = { List ColumnPatch };

    ghost use Rattle.model.specs.Packed.{column_in, cuts_of, HasCuts};

    ghost view = { λ b. map (column_in (string_bytes b.texts)) (cuts_of b.columns b.cuts.items) };

    ghost invariant = { λ b. HasCuts (string_bytes b.texts) b.columns b.cuts.items };
}

impl Columns {
    // How many they are.
    pub(crate) fn len(&self) -> usize
        ensures { result ≡ length self.now }
    {
        packed::columns(self.block.as_slice())
    }

    // What is done to a column, from 0.
    pub(crate) fn column(&self, number: usize) -> ColumnPatchRef<'_>
        requires { number < length self.now }
        ensures { read_column result ≡ column_at self.now number }
    {
        packed::column(self.block.as_slice(), number)
    }
}

impl Clone for Columns {
    ghost use Rattle.std.specs.Prelude.{◌≡◌};

    ghost is_clone = { λ columns other. other ≡ columns };

    fn clone(&self) -> Result<Columns, AllocError> {
        Ok(Columns {
            block: self.block.clone()?,
        })
    }
}

impl ColumnsBuilder {
    // None yet, with room for so many, and for so many bytes of texts.
    pub(crate) fn with_room(
        alloc: Global,
        columns: usize,
        bytes: usize,
    ) -> Result<ColumnsBuilder, OutOfMemory>
        ensures { IfOk result (λ made. made ≡ []) }
    {
        let table = columns.saturating_mul(CUT_LEN);
        let rest = table.saturating_add(COUNT_LEN);
        Ok(ColumnsBuilder {
            texts: String::with_capacity(alloc, bytes.saturating_add(rest))?,
            cuts: Vec::with_capacity(alloc, table)?,
            columns: 0,
        })
    }

    // One more. A text is copied.
    #[inline(always)]
    pub(crate) fn push(&mut self, column: ColumnPatchRef<'_>) -> Result<(), OutOfMemory>
        ensures { OnOk result (self.new ≡ self.old ++ read_column column.entry ∷ []) }
    {
        let Some(columns) = self.columns.checked_add(1) else {
            return Err(OutOfMemory);
        };
        let cut = add_cut(&mut self.texts, column)?;
        self.cuts.extend_from_slice(&cut.to_bytes())?;
        self.columns = columns;
        Ok(())
    }

    // Those that came.
    pub(crate) fn finish(self) -> Result<Columns, OutOfMemory>
        ensures { IfOk result (λ columns. columns ≡ self) }
    {
        let ColumnsBuilder {
            texts,
            cuts,
            columns,
        } = self;
        let mut block = texts.into_bytes();
        block.extend_from_slice(cuts.as_slice())?;
        block.extend_from_slice(&columns.to_le_bytes())?;
        Ok(Columns {
            block: ArcSlice::from_vec(block)?,
        })
    }
}

// The cut of one more column. A text comes behind the others.
fn add_cut(texts: &mut String, column: ColumnPatchRef<'_>) -> Result<Cut, OutOfMemory>
    ensures kept { KeepsCuts (string_bytes texts.old) (string_bytes texts.new) }
    ensures ok { IfOk result (IsCutOf (string_bytes texts.new) (read_column column.entry)) }
{
    match column {
        ColumnPatchRef::Keep => Ok(Cut::Kept),
        ColumnPatchRef::Null => Ok(Cut::Null),
        ColumnPatchRef::Value(ValueRef::Int(number)) => Ok(Cut::Int(number)),
        ColumnPatchRef::Value(ValueRef::Text(text)) => add_text(texts, text),
        ColumnPatchRef::Value(ValueRef::Bool(truth)) => Ok(Cut::Bool(truth)),
    }
}

// One more text behind the others. The answer is its cut.
fn add_text(texts: &mut String, text: &str) -> Result<Cut, OutOfMemory>
    ensures kept { KeepsCuts (string_bytes texts.old) (string_bytes texts.new) }
    ensures ok { IfOk result (IsCutOf (string_bytes texts.new) (Value (Text text.now))) }
{
    let start = texts.as_str().len();
    texts.push_str(text)?;
    match (u32::try_from(start), u32::try_from(texts.as_str().len())) {
        (Ok(start), Ok(end)) => Ok(Cut::Text(start, end)),
        _ => Err(OutOfMemory),
    }
}
