// What no clause says of workers: that they work at the same time, that one that waits is woken by
// whatever lets go what it waits for, at which points it passes its gate, and that a doomed one comes
// back with just the items that it did not acknowledge.
mod flags;
mod held;
mod one_worker;
mod plays;
mod shared;
mod steps;
mod together;
