// The files, and what each tests or gives the others.
//
//   runs        a run, with devices of its own, and what it leaves
//   gates       signs, gates that wait for them, and bytes that are withheld
//   left        what a run leaves: rows, look-ups and the journal, looked at without memory
//   worked      streams that end the same on each schedule, worked by hand
//   commits     what each commit of some of them leaves
//   schedules   streams whose schedule is held
//   holds       transactions that wait for each other, that clash, and that are aborted at each item
//   features    what a real publisher sends beside changes
//   many        more items than a ring has slots
//   stress      many transactions, drawn
//   cuts        streams that are cut, or whose reads fail
//   devices     reads and writes that fail, sinks that take a part, and connections that fail
//   memory      memory that is refused
//   watchers    those who watch a run
//   texts       what a caller prints
mod commits;
mod cuts;
mod devices;
mod features;
mod gates;
mod holds;
mod left;
mod many;
mod memory;
mod older;
mod runs;
mod schedules;
mod stress;
mod texts;
mod watchers;
mod worked;
