// Statements with their values, in one transaction.
ghost use Rattle.std.specs.Prelude.{◌≡◌, map, IsTrue, OnOk, OnErr};
ghost use Rattle.sqlite.specs.State.{HasCleanDisk, KeepsCommit, Survives};
ghost use Rattle.sqlite.specs.Held.{state};
ghost use Rattle.sql_batch.specs.Batches.{bound_text, RunAll, RunInOne, IsBehind};

use sqlite::types::ValueRef;
use sqlite::{Alter, Connection, Error, ErrorCode, Statement, Transaction};

/// A statement, and the values of its parameters in their order.
#[derive(Drop)]
pub struct BoundStatement<'a> {
    pub statement: &'a Statement,
    pub values: Vec<ValueRef<'a>>,
}

/// Runs all of the statements in a transaction of their own, or none of them; so too where the process
/// or the machine stops meanwhile. A connection that has a transaction is refused with
/// `TransactionState`.
pub fn run_in_one<S: Alter>(
    conn: &mut Connection<S>,
    statements: &[BoundStatement<'_>],
) -> Result<(), Error>
    ensures all { HasCleanDisk (state S.Store conn.new) → OnOk result (RunInOne S.Store (map bound_text statements.now) conn.old (state S.Store conn.new).committed) }
    ensures none { HasCleanDisk (state S.Store conn.new) → IsTrue (state S.Store conn.new).is_open
        → OnErr result (((state S.Store conn.new).now ≡ (state S.Store conn.old).now) × ((state S.Store conn.new).committed ≡ (state S.Store conn.old).committed)) }
    ensures crash { Survives (state S.Store conn.old) (state S.Store conn.new) (IsBehind S.Store (map bound_text statements.now) conn.old) }
{
    if !conn.is_autocommit() {
        return Err(Error::SqliteFailure(ErrorCode::TransactionState));
    }
    let mut tx = conn.transaction();
    run_all(&mut tx, statements)?;
    tx.commit()
}

// Runs the statements, one after another, in a transaction that is open.
fn run_all<S: Alter>(
    tx: &mut Transaction<'_, S>,
    statements: &[BoundStatement<'_>],
) -> Result<(), Error>
    requires { IsTrue (state S.Store tx.old.conn.now).in_transaction }
    ensures same_reference { tx.new.conn.ghost_name ≡ tx.old.conn.ghost_name }
    ensures ran { HasCleanDisk (state S.Store tx.new.conn.now) → OnOk result (RunAll S.Store (map bound_text statements.now) tx.old.conn.now tx.new.conn.now) }
    ensures inside { HasCleanDisk (state S.Store tx.new.conn.now) → OnOk result (IsTrue (state S.Store tx.new.conn.now).in_transaction) }
    ensures kept { HasCleanDisk (state S.Store tx.new.conn.now) → KeepsCommit (state S.Store tx.old.conn.now) (state S.Store tx.new.conn.now) }
    ensures survives { Survives (state S.Store tx.old.conn.now) (state S.Store tx.new.conn.now) (λ _. ⊥) }
{
    for bound in statements {
        tx.execute_prepared(bound.statement, &bound.values)?;
    }
    Ok(())
}
