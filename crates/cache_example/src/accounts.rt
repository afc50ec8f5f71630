// A cache of accounts: the rows of one table, asked by number and by email.
ghost use Rattle.std.specs.Prelude.{◌≡◌, ◌∷◌, [], false, Some, IfOk, IfSome, IfNone};
ghost use Rattle.std.specs.FinMap as finite;
ghost use Rattle.model.specs.Rows.{are_taken};
ghost use Rattle.model.specs.TableRows.{rows_of_table};
ghost use Rattle.model.specs.declared.value.Value.TheVariants.{Int, Text};
ghost use Rattle.cache_example.specs.Accounts.{email_columns, HasEmail};

use leader::{KeptText, Key, OutOfMemory, RowView, TableId, Tables, Value, Walk};
use std::alloc::Global;
use std::marker::Model;

/// The table's place in the catalog.
pub const ACCOUNTS: TableId = 0;

/// The number of its unique key over the email: unique keys are counted from 1.
const EMAIL: usize = 1;

/// The accounts as some commits left them. A look-up lends a row where it lies, and copies nothing.
///
/// A clause sees all rows of the tables, and which columns are keys.
#[derive(Drop)]
pub struct Accounts {
    tables: Tables,
}

impl Model for Accounts {
    ghost use Rattle.indexes.specs.Content.{Content};
    ghost use Rattle.indexes.specs.Codes.{content_code};
    ghost use Rattle.cache_example.specs.Accounts.{HasAccounts};

    ghost Value = { Content };

    ghost coded = { content_code };

    ghost view = { λ a. a.tables };

    ghost invariant = { λ a. HasAccounts a.tables.schema };
}

impl Accounts {
    /// Over these tables; none if they have no accounts, or these no unique email.
    pub fn new(tables: Tables) -> Option<Accounts>
        ensures { IfSome result (λ accounts. accounts ≡ tables) }
    {
        if tables.len() <= ACCOUNTS || tables.unique_count(ACCOUNTS) < EMAIL {
            return None;
        }
        Some(Accounts { tables })
    }

    /// The account with this number.
    pub fn by_number(&self, alloc: Global, number: i64) -> Result<Option<RowView<'_>>, OutOfMemory>
        ensures { IfOk result (λ row. row ≡ finite.get self.now.rows (0, Int number ∷ [])) }
    {
        let key = Key::from_value(alloc, Value::Int(number))?;
        Ok(self.tables.get(ACCOUNTS, &key))
    }

    /// The account with this email.
    pub fn by_email(&self, alloc: Global, email: &str) -> Result<Option<RowView<'_>>, OutOfMemory>
        ensures found { IfOk result (λ row. IfSome row (HasEmail self.now email.now)) }
        ensures none { IfOk result (λ row. IfNone row (are_taken self.now.rows 0 (email_columns self.now.schema) (Text email.now ∷ []) ≡ false)) }
    {
        let text = Value::Text(KeptText::from_str(alloc, email)?);
        let values = Key::from_value(alloc, text)?;
        match self.tables.find_unique(ACCOUNTS, EMAIL, &values) {
            Some(key) => Ok(self.tables.get(ACCOUNTS, key)),
            None => Ok(None),
        }
    }

    /// All accounts, by their numbers.
    pub fn walk(&self) -> Walk<'_>
        ensures { result ≡ rows_of_table self.now.rows 0 }
    {
        self.tables.walk(ACCOUNTS)
    }
}
