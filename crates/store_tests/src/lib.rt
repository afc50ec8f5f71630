// Tests of the libraries that keep the tables, from the rows of one table to the store that open
// transactions share, and of those by which threads work together on it.
//
// They show what no clause says, and by public calls alone. A library with tests of its own is proved
// twice, so they stand here, and each library is proved once. They are one crate, for each crate that
// lets a store go proves once more how its parts are dropped.
#![tactic(auto)]

#[cfg(test)]
mod tests;
