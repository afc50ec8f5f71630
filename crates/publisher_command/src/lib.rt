//! The command line of the program `publisher`, and libpq's ways to say where a server is.
//!
//! `parse` reads the words of a command line into the command that they ask for, with what it alone takes,
//! or answers the text of a usage fault or of help, which names the option and its value. `choose_server`
//! takes for each part of where the server is what the connection URI says, else the option that was given,
//! else libpq's variable, else libpq's own default. A password comes from the variable, else from the line of
//! a password file that `find_password` finds, and never from the command line.
//!
//! What is promised beyond safety is which server is meant (`specs/Choosing`), and the time limit: a server
//! that is chosen may be silent for a second at least, so a connection's clock has something to count. What
//! is read, and the texts, are shown by tests (`server_tests`).
//!
//! It stands on `server`, for what a slot and a server are, and on the kit's `clap` and `percent_encoding`.
//!
//!   command_line   the commands with their options, and what the words ask for
//!   parts          what one source says of a server
//!   passfile       the password file
//!   uri            connection URIs
//!   ways           the ways to authenticate that are taken
//!   variables      libpq's variables, and the server that is meant
#![tactic(auto)]

mod command_line;
mod parts;
mod passfile;
mod uri;
mod variables;
mod ways;

pub use command_line::{Job, Options, parse};
pub use parts::{NOTHING_SAID, Parts, asks_tls};
pub use passfile::{find_password, read_passfile};
pub use uri::{UriFault, read_uri};
pub use variables::{Variables, choose_server};
pub use ways::read_ways;
