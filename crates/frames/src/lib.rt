// The frames of a replication stream: bytes go in, copy items come out.
//
// PostgreSQL sends a replication stream as frames of its frontend/backend protocol: a tag byte, a length, and
// the content. CopyData frames carry XLogData, which is a piece of the replicated log, or a keepalive;
// CopyDone ends the stream; notices and parameters are skipped; an error from the server, and anything else,
// refuses it. The manual has them under Message Formats and under Streaming Replication Protocol.
//
// What is promised. `specs/Stream.antt` says which items a list of bytes gives and how it ends: it waits for
// the rest of a frame, was closed by CopyDone, or was refused by the first faulty frame. Whatever the pieces
// in which the bytes were fed, and whatever was handed out in between, the items handed out and those still
// kept are just the copy items of all the bytes (`HasRead` in `specs/Reads.antt`). A fault comes behind the
// items before it, and every further call answers it again. Where memory runs out the items are a beginning
// of them, and a device that failed says nothing of the bytes. `finish` answers for the end of the input.
// `laws.rt` has what follows for any stream: cutting it anywhere changes nothing, a longer input keeps the
// items of a shorter one, and frames spelled as the manual says are read.
//
// How it works. `Frames` keeps the bytes of the one frame that isn't whole, a queue of items, and where it
// stands. A piece is appended to the bytes, and then frames are taken off the front as long as they are
// whole: a header is checked once its five bytes are there, the rest once all of the frame is. A payload is a
// cut of the block that the bytes lie in, so it is not copied again. Buffers grow by the bytes that came,
// never by a length that a header promises.
//
// Bytes come from a `Source` and go to a `Sink`, which may fail. They tell their bytes, if they can, and how
// often they failed, so that a caller can say what became of a whole input. `ReadSource` and `WriteSink` are
// those over std's readers and writers. `write_status` and `send_status` spell the status update that goes
// back to the server.
//
// It stands on `bytes` for blocks that are cut and shared, and on std.
#![tactic(auto)]

mod device;
mod fault;
mod item;
pub mod laws;
mod reader;
mod update;
mod wire;

pub use device::{Failed, ReadSource, Sink, Source, WriteSink};
pub use fault::FrameFault;
pub use item::{CopyItem, Lsn};
pub use reader::Frames;
pub use update::{Status, send_status, write_status};

/// The greatest length field that a frame may have. It counts itself, so a frame has one byte more.
pub const MAX_LENGTH: u32 = 67108864;
