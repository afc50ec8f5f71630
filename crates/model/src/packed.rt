// How columns lie in one block of memory: their texts one behind another, then a cut for each column,
// and how many there are.
ghost use Rattle.std.specs.Prelude.{◌≡◌, ◌+◌, ◌*◌, ◌≤◌, ◌<◌, length};
ghost use Rattle.model.specs.Packed.{column_in, IsCut, cut_of, columns_in, cuts_at, texts_in, patch_in, IsPacked};
ghost use Rattle.model.specs.Patch.{read_column, column_at};

use crate::patch::ColumnPatchRef;
use crate::value_ref::ValueRef;
use std::str;

// What is done to a column: it becomes null, or gets a number or a truth, which lies here, or a text,
// which goes from one byte of the texts to another, or is kept.
#[derive(Clone, Copy, Debug)]
pub(crate) enum Cut {
    Null,
    Int(i64),
    Text(u32, u32),
    Bool(bool),
    Kept,
}

// How many bytes a cut has: a word, and which kind it is.
pub(crate) const CUT_LEN: usize = 9;

// How many bytes the number of columns has.
pub(crate) const COUNT_LEN: usize = 4;

const NULL: u8 = 0;

const INT: u8 = 1;

const TEXT: u8 = 2;

const TRUE: u8 = 3;

const FALSE: u8 = 4;

const KEPT: u8 = 5;

impl Cut {
    // Its bytes.
    pub(crate) fn to_bytes(self) -> [u8; CUT_LEN]
        ensures cut { cut_of result ≡ self }
        ensures len { length result ≡ 9 }
    {
        let (word, kind) = match self {
            Cut::Null => (0, NULL),
            Cut::Int(number) => (number.cast_unsigned(), INT),
            Cut::Text(start, end) => (u64::from(end) * (1 << 32) + u64::from(start), TEXT),
            Cut::Bool(true) => (0, TRUE),
            Cut::Bool(false) => (0, FALSE),
            Cut::Kept => (0, KEPT),
        };
        let [a, b, c, d, e, f, g, h] = word.to_le_bytes();
        [a, b, c, d, e, f, g, h, kind]
    }

    // The cut whose bytes come first.
    fn from_bytes(bytes: &[u8]) -> Cut
        requires { 9 ≤ length bytes.now }
        ensures { result ≡ cut_of bytes.now }
    {
        let word = u64::from_le_bytes([
            bytes[0], bytes[1], bytes[2], bytes[3], bytes[4], bytes[5], bytes[6], bytes[7],
        ]);
        match bytes[8] {
            NULL => Cut::Null,
            INT => Cut::Int(word.cast_signed()),
            TEXT => Cut::Text((word % (1 << 32)) as u32, (word / (1 << 32)) as u32),
            TRUE => Cut::Bool(true),
            FALSE => Cut::Bool(false),
            _ => Cut::Kept,
        }
    }
}

// How many columns a block has.
pub(crate) fn columns(block: &[u8]) -> usize
    requires { IsPacked block.now }
    ensures { result ≡ columns_in block.now }
{
    let bytes = &block[block.len() - COUNT_LEN..];
    u32::from_le_bytes([bytes[0], bytes[1], bytes[2], bytes[3]]) as usize
}

// Where the cuts of a block begin, behind its texts.
fn cuts_start(block: &[u8]) -> usize
    requires { IsPacked block.now }
    ensures start { result ≡ cuts_at block.now }
    ensures rest { result + 9 * columns_in block.now + 4 ≡ length block.now }
{
    block.len() - COUNT_LEN - CUT_LEN * columns(block)
}

// What is done to a column of a block, from 0.
pub(crate) fn column(block: &[u8], number: usize) -> ColumnPatchRef<'_>
    requires packed { IsPacked block.now }
    requires within { number < length (patch_in block.now) }
    ensures { read_column result ≡ column_at (patch_in block.now) number }
{
    let value = match cut_at(block, number) {
        Cut::Null => return ColumnPatchRef::Null,
        Cut::Int(value) => ValueRef::Int(value),
        Cut::Text(from, to) => ValueRef::Text(&texts(block)[from as usize..to as usize]),
        Cut::Bool(truth) => ValueRef::Bool(truth),
        Cut::Kept => return ColumnPatchRef::Keep,
    };
    ColumnPatchRef::Value(value)
}

// The cut of a column, from 0.
fn cut_at(block: &[u8], number: usize) -> Cut
    requires packed { IsPacked block.now }
    requires within { number < columns_in block.now }
    ensures is { IsCut (texts_in block.now) result }
    ensures column { column_in (texts_in block.now) result ≡ column_at (patch_in block.now) number }
{
    let start = cuts_start(block);
    Cut::from_bytes(&block[start + CUT_LEN * number..])
}

// The texts of a block.
fn texts(block: &[u8]) -> &str
    requires { IsPacked block.now }
    ensures { result.now ≡ texts_in block.now }
{
    let end = cuts_start(block);
    // A block begins with the bytes of texts.
    unsafe { str::from_utf8_unchecked(&block[..end]) }
}
