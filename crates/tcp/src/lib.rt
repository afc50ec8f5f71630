#![tactic(auto)]

// A connection from which a replication stream is read, and to which its status updates go.
//
// Whoever sends a stream, a publisher or a program that hands one on, listens at a host and a port. A
// `Connection` is one TCP socket to it, and lends two ends of this one socket: a source for the frames
// that come, and a sink for the status updates that go back.
//
// What is promised. Every call is safe, whatever the other side does. A read or a write that a signal
// interrupts is tried again (`Retried`): it loses no byte, repeats none, and is not taken for a failure
// or for the end. Nothing else can be proved of a socket: which bytes come, and that those sent arrive,
// is the system's to say. Tests over sockets of this machine show it: bytes that come one at a time, an
// end at a frame's edge and within a frame, a connection that breaks, updates that come back.
//
// How it works. Both ends are references to one stream, which is closed when the connection is dropped; or
// handles of it (`into_ends`), which close it together. A status update is one write, sent at once, and is
// not kept back until more comes.
//
//   connection   `Connection`
//   retried      `Retried`, a reader or writer over one that signals may interrupt
//
// There is no TLS and no logging in: the stream begins with the first byte that comes. No call has a
// time limit: whoever is silent is waited for.
//
// It stands on `frames` for sources and sinks, and on std's sockets.
mod connection;
mod retried;

pub use connection::Connection;
pub use retried::Retried;
