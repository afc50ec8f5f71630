// That the calls on halves and slips succeed where memory is there. That they serve a store under a lock,
// `engine`'s own shows: its tickets are slips, its line is a token, and a reader's sight is what was seen.
use crate::tests::asserts::assert_same;
use std::marker::Brand;
use std::test::Fail;
use tokens::{Book, grow, grow_by, look, meet, pair, watch};

#[test]
fn each_call_succeeds(rt: HostRuntime) -> Result<(), Fail> {
    let (mut kept, mut token) = pair::<u32>(rt.alloc())?;
    let mut seen = watch(&mut kept);
    grow(&mut kept, &mut token, &7);
    grow_by::<u32, Brand>(&mut kept, &mut token);
    look(&mut kept, &mut seen);
    meet(&mut kept, &mut token);

    let mut book = Book::<u32>::new(rt.alloc())?;
    let mut slip = book.open(700);
    book.grow(&mut slip, &1);
    book.grow_by::<Brand>(&mut slip);
    book.meet(&mut slip);
    assert_same(&rt, slip.number(), 700, "its number");
    book.close(slip);
    let slip = book.open(700);
    assert_same(&rt, slip.number(), 700, "again");
    Ok(())
}
