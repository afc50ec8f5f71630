// Tests of the commands of the program, over public calls alone: what they print of whole streams, and what
// they say.
//
// No clause says a text of the command line, of faults, of `--verbose` or of `--progress`, nor what a device
// gives. What a stream prints was worked out by hand from the rules, before the program was.
#![tactic(auto)]

#[cfg(test)]
mod tests;
