// The files, and what each tests or gives the others.
//
//   runs           a command over a stream that a test gives: its devices, and what it prints
//   cases          streams and their reports
//   devices        streams in pieces, cut, and over devices that fail
//   follow         a stream over a connection, and the status updates that go back
//   accounts       what `--verbose` says of a command that did not end well
//   progress       what `--progress` says, by a clock of the test's own
//   mistakes       where a catalog has its fault
//   opens          which transactions are open where a stream stops
//   output         what is said where a command can't go on
//   command_line   options, their limits, and help
//   mirror_line    those of `mirror`
mod accounts;
mod cases;
mod command_line;
mod devices;
mod follow;
mod mirror_line;
mod mistakes;
mod opens;
mod output;
mod progress;
mod runs;
