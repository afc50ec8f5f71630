// The side of a live PostgreSQL server: a connection that logs in, asks, and hands on a replication stream.
//
// What is promised: every call is safe and total, whatever the server sends, and each refusal has a name
// (`fault`). Whoever takes a stream is handed whole frames alone (`specs/Frames.antt`, `relay::Output`).
//
// How it works. `wire` has the messages of the frontend/backend protocol as bytes, `line` a socket and a
// clock, `connection` whole messages within a time limit; `scram` and `auth` say who connects (`saslprep`, by the
// tables of `stringprep`, makes two spellings of a password one), and `host` opens a connection that has
// logged in. `query` asks for rows, and `quoting` spells the names in a question.
// `checks` asks what has to be there before `slots` makes a slot. `stream` starts replication and says what
// a frame is, `marks` what a message opens or closes; `copy` makes the first transaction of the rows that are
// there (`tuples`). `relay` hands the frames to whoever takes them: `capture` to a file, behind what `kept`
// keeps of it, or to standard output, `serve` to one `follower` after another. `events` says what happens, with
// its time; `shown` and `place` print texts of others and places of the log.
//
// There is no TLS: a password in clear text and the rows go over the wire as they are.
//
// It stands on `md5`, `sha2`, `base64`, `hex` and `unicode_normalization` for the ways to log in, `thiserror` for
// the texts of faults, `jiff` for times, and std's sockets. What needs no socket is tried by scripted servers, in
// the crate `server_tests`.
#![tactic(auto)]

pub mod auth;
pub mod capture;
pub mod checks;
pub mod connection;
pub mod copy;
pub mod events;
pub mod fault;
pub mod follower;
pub mod host;
pub mod kept;
pub mod line;
pub mod marks;
pub mod place;
pub mod query;
pub mod quoting;
pub mod relay;
pub mod report;
pub mod saslprep;
pub mod scram;
pub mod serve;
pub mod shown;
pub mod slots;
pub mod stream;
mod stringprep;
mod tuples;
pub mod wire;
