// What no clause says of a reader: what its calls answer where memory is there, on one thread and
// beside others, and that a refused allocation is told.
mod plays;
mod scene;
mod watchers;
