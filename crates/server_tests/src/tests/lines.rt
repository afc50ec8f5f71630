// Questions to a scripted server.
use super::OrFail;
use super::script::{Behind, assert_fault, connect, say, say_row};
use server::fault::Fault;
use server::query::{Row, rows};
use std::alloc::Global;
use std::test::Fail;
use testing::asserts::{assert_holds, assert_same};

/// How many rows these questions ask for.
const MOST: usize = 40;

/// The rows of one question to a server that says this.
pub fn question(
    alloc: Global,
    input: &[u8],
    piece: usize,
) -> Result<Result<Vec<Row>, Fault>, Fail> {
    let mut sent = Vec::new(alloc);
    let mut connection = connect(input, piece, Behind::Close, &mut sent)?;
    let answer = rows(&mut connection, "SELECT 1", MOST);
    drop(connection);
    if sent.as_slice() != b"Q\x00\x00\x00\x0dSELECT 1\0".as_slice() {
        return Err(Fail::from("another question"));
    }
    Ok(answer)
}

/// An answer that never ends is refused at the first row that wasn't asked for.
#[test]
fn more_rows_than_were_asked_for(rt: HostRuntime) {
    let mut input = Vec::new(rt.alloc());
    for _ in 0..=MOST {
        say_row(&mut input, "a").or_fail(&rt);
    }
    let answer = question(rt.alloc(), input.as_slice(), 9).or_fail(&rt);
    assert_fault(rt.alloc(), answer, "TooManyRows", 0).or_fail(&rt);
}

/// Fewer rows than were asked for are refused by the memory that their values take.
#[test]
fn rows_of_more_values_than_fit(rt: HostRuntime) {
    let mut row = Vec::new(rt.alloc());
    row.resize(NULLS, 255).or_fail(&rt);
    let mut input = Vec::new(rt.alloc());
    for _ in 0..MOST {
        say(&mut input, b'D', row.as_slice()).or_fail(&rt);
    }
    let answer = question(rt.alloc(), input.as_slice(), 1 << 20).or_fail(&rt);
    assert_fault(rt.alloc(), answer, "TooManyRows", 0).or_fail(&rt);
}

/// How long the message of a row is that has 65535 nulls. Fewer than forty of these take all the memory
/// that one answer may have.
const NULLS: usize = 2 + 4 * 65535;

/// Two rows of two values, with a notice between them.
fn two_rows(alloc: Global) -> Result<Vec<u8>, Fail> {
    let mut input = Vec::new(alloc);
    say(&mut input, b'T', b"\0\0")?;
    say_row(&mut input, r"ab|\N")?;
    say(&mut input, b'N', b"\0")?;
    say_row(&mut input, "|t")?;
    say(&mut input, b'C', b"SELECT 2\0")?;
    say(&mut input, b'Z', b"I")?;
    Ok(input)
}

/// The rows' values, by row and column.
static VALUES: [(usize, usize, &str); 4] = [(0, 0, "ab"), (0, 1, "null"), (1, 0, ""), (1, 1, "t")];

fn assert_values(rows: &[Row]) -> Result<(), Fail> {
    for (row, column, want) in &VALUES {
        let row = rows.get(*row).ok_or("no such row")?;
        assert_same(row.value(*column)?.unwrap_or("null"), *want, "a value")?;
    }
    Ok(())
}

/// A flag is read, a value that isn't there and a text that is null are refused.
fn assert_kinds(first: &Row, second: &Row) -> Result<(), Fail> {
    assert_holds(second.flag(1)?, "a flag")?;
    assert_holds(second.value(2).is_err(), "no such value")?;
    assert_holds(first.text(1).is_err(), "a null")
}

#[test]
fn rows_in_pieces(rt: HostRuntime) {
    let input = two_rows(rt.alloc()).or_fail(&rt);
    for piece in 1..=input.len() {
        let rows = question(rt.alloc(), input.as_slice(), piece)
            .or_fail(&rt)
            .or_fail(&rt);
        let [first, second] = rows.as_slice() else {
            panic!(rt; "two rows");
        };
        assert_values(rows.as_slice()).or_fail(&rt);
        assert_kinds(first, second).or_fail(&rt);
    }
}
