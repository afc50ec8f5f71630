// Tests of a SQLite file that follows a stream, and of the lines that may go with it, over public
// calls alone.
//
// No clause says what a text means to SQL, nor what a line of JSON says. So streams are followed into
// files in memory, which are asked by SQL; a file's log fails behind each number of calls, and what is
// opened again has to be a beginning of the commits.
//
// They are one crate, for each crate that runs a leader proves once more how its parts are dropped.
#![tactic(auto)]

#[cfg(test)]
mod tests;
