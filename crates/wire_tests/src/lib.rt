// Tests of the catalog and of the libraries that a stream goes through on its way to the tables.
//
// They show what no clause says, and by public calls alone. A library with tests of its own is proved
// twice, so they stand here, and each library is proved once.
#![tactic(auto)]

#[cfg(test)]
mod tests;
