// Tests of the libraries that talk to a live server.
//
// They show what no clause says: known vectors, and what each part makes of a scripted server, in memory and
// on loopback. The script is written before the client speaks, so a test needs no thread, but where the client
// connects by itself; a server that stalls moves the clock of the line in memory.
#![tactic(auto)]

#[cfg(test)]
mod tests;
