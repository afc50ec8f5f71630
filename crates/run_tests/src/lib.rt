// Tests of runs, over public calls alone: the run whose streamed transactions have workers, those who
// watch it, and hostile use of it: memory that is refused, input that is cut or fails, devices that take a
// part or nothing, and transactions that are in each other's way.
//
// No clause says that memory is there, that a run ends, nor on which schedules: so a test that refuses an
// allocation stands whichever one is refused (`tools/refuse.py` refuses each in turn), and each schedule
// that decides is held by gates, by watchers and by bytes that are withheld, and each such run is made many
// times. What a stream leaves was worked out by hand from the rules, before the program was.
//
// They are one crate, for each crate that runs a leader proves once more how its parts are dropped. The
// commands of the program have one of their own, `command_tests`.
#![tactic(auto)]

#[cfg(test)]
mod tests;
