// The catalog of a publication's tables, from the server's own.
//
// What is promised: every call is safe and total, whatever the server answers, and each table, column, key
// and default that the catalog leaves out has a line that says why.
//
// How it works. `sql` has the questions, `catalog` asks them and prints the answers as TOML: `columns` says
// how a column is kept and which defaults are constants, `keys` which unique keys the subscriber can keep,
// `toml_text` spells texts. `statement` prints the CREATE PUBLICATION that fits what is kept.
//
// It stands on `server` for the connection, and on the kit's `toml_writer` for strings.
#![tactic(auto)]

pub mod catalog;
pub mod columns;
mod keys;
mod sql;
mod statement;
mod toml_text;
