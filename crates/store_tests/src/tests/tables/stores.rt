// That a store in one hand answers what its definitions say: refusals, older positions, and memory that
// is refused.
//
//   scene        a store with its tickets, called by the numbers of its transactions
//   script       calls as a table of steps, each with what comes of it, and who plays them
mod memory;
mod older;
mod refusals;
mod scene;
mod script;
