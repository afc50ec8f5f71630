// How a run ended.
ghost use Rattle.std.specs.Prelude.{◌≡◌};
ghost use Rattle.run.specs.Ends.{end_of_frame, end_of_refusal, end_of_clash};
ghost use Rattle.run.specs.declared.end.End.TheVariants as ends;

use change::Clash;
use frames::FrameFault;
use messages::MsgFault;
use model::{OutOfMemory, TableId};
use relcache::RelFault;
use savepoint::Xid;
use session::{Refused, SessionFault};
use std::alloc::AllocError;

/// Why a run ended. All open work was undone before.
#[derive(Clone, Copy, Debug, PartialEq, Eq)]
pub enum End {
    /// The input ended at a frame's edge, or with CopyDone.
    Clean,
    /// A frame of the stream is broken, or the device failed.
    Frame(FrameFault),
    /// A payload is no message.
    Msg(MsgFault),
    /// A message may not come in the session's state.
    Session(SessionFault),
    /// A message does not fit its relation or its table.
    Rel(RelFault),
    /// A row would stand twice in a key: 0 is the primary key, 1 upwards the unique keys.
    Unique { table: TableId, key: usize },
    /// A row to be written has a null in its primary key.
    NullKey { table: TableId },
    /// A transaction needs what another open one holds, and nothing else can go on.
    HeldKey { xid: Xid, holder: Xid },
    /// Memory was refused.
    OutOfMemory,
}

impl From<FrameFault> for End {
    ghost from_gives = { λ fault e. e ≡ end_of_frame fault };

    fn from(fault: FrameFault) -> End {
        match fault {
            FrameFault::OutOfMemory => End::OutOfMemory,
            other => End::Frame(other),
        }
    }
}

impl From<Refused> for End {
    ghost from_gives = { λ refused e. e ≡ end_of_refusal refused };

    fn from(refused: Refused) -> End {
        match refused {
            Refused::Msg(fault) => End::Msg(fault),
            Refused::Session(fault) => End::Session(fault),
            Refused::Rel(fault) => End::Rel(fault),
            Refused::OutOfMemory => End::OutOfMemory,
        }
    }
}

impl From<Clash> for End {
    ghost from_gives = { λ clash e. e ≡ end_of_clash clash };

    fn from(clash: Clash) -> End {
        match clash {
            Clash::Unique { table, key } => End::Unique { table, key },
            Clash::NullKey { table } => End::NullKey { table },
            Clash::OutOfMemory => End::OutOfMemory,
        }
    }
}

impl From<OutOfMemory> for End {
    ghost from_gives = { λ _ e. e ≡ ends.OutOfMemory };

    fn from(_error: OutOfMemory) -> End {
        End::OutOfMemory
    }
}

impl From<AllocError> for End {
    ghost from_gives = { λ _ e. e ≡ ends.OutOfMemory };

    fn from(_error: AllocError) -> End {
        End::OutOfMemory
    }
}
