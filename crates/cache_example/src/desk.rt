// A desk where accounts are asked for while the stream comes.
ghost use Rattle.std.specs.Prelude.{◌≡◌, ◌∷◌, []};
ghost use Rattle.model.specs.declared.value.Value.TheVariants.{Int};
ghost use Rattle.world.specs.Steps.{ReadsCommitted};
ghost use Rattle.snapshot.specs.Reads.{world_seen};

use crate::accounts::ACCOUNTS;
use crate::shown::line_of;
use leader::{Key, ReadFault, Reader, Row, RowView, StoreNames, Value, Watch};
use std::alloc::{AllocError, Global};
use std::sync::Wait;

/// Answers for one account, once a commit has brought it. It has a turn behind each commit while the run
/// goes on, and a last one behind its end.
#[derive(Drop)]
pub struct Desk<'a, H: Print> {
    host: &'a H,
    alloc: Global,
    number: i64,
    /// How many commits it has looked at.
    commits: u64,
}

impl<'a, H: Print> Desk<'a, H> {
    /// Where this account is asked for, and the answer is printed.
    pub fn new(host: &'a H, alloc: Global, number: i64) -> Desk<'a, H>
        ensures { result.commits ≡ 0 }
    {
        Desk {
            host,
            alloc,
            number,
            commits: 0,
        }
    }

    // Prints the account, if it is there.
    fn answer(&self, row: Option<Row>) -> Result<bool, AllocError> {
        let Some(row) = row else {
            return Ok(false);
        };
        let line = line_of(self.alloc, Some(RowView::of_row(&row)))?;
        Ok(println!(self.host; "while the stream comes: {line}").is_ok())
    }
}

/// The account with this number, as the commits so far left it: never a row of a transaction that is
/// still open, and never one from before what this reader saw.
fn look_up<N: StoreNames, R: Wait>(
    rt: &R,
    alloc: Global,
    reader: &mut Reader<'_, N>,
    number: i64,
) -> Result<Option<Row>, ReadFault>
    ensures row { ReadsCommitted (world_seen reader.new) (0, Int number ∷ []) result }
    ensures published { reader.new.published ≡ reader.old.published }
{
    let Ok(key) = Key::from_value(alloc, Value::Int(number)) else {
        return Err(ReadFault::OutOfMemory);
    };
    reader.get(rt, ACCOUNTS, &key)
}

impl<H: Print> Watch for Desk<'_, H> {
    ghost use Rattle.std.specs.Prelude.{◌≤◌, length};

    // The commits that it has looked at were published.
    ghost knows = { λ desk sight. desk.commits ≤ length sight.published.ends };

    fn turn<N: StoreNames, R: Wait>(&mut self, rt: &R, reader: &mut Reader<'_, N>) -> bool {
        // A commit wakes it, or the end of the run.
        let commits = reader.wait_past(rt, self.commits).commits;
        if commits == self.commits {
            return true;
        }
        self.commits = commits;
        match look_up(rt, self.alloc, reader, self.number) {
            Ok(row) => !matches!(self.answer(row), Ok(true)),
            Err(_) => true,
        }
    }
}
