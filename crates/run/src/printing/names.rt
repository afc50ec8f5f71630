// The names of faults, as the end line prints them.
ghost use Rattle.std.specs.Prelude.{◌≡◌};
ghost use Rattle.run.specs.Report.{frame_fault_name, message_fault_name, session_fault_name, relation_fault_name};

use frames::FrameFault;
use messages::MsgFault;
use relcache::RelFault;
use session::SessionFault;

/// The name of a fault is that of its variant.
macro_rules! name_of {
    ($fault:ident in $faults:ident: $($variant:ident),+) => {
        match $fault {
            $($faults::$variant => stringify!($variant),)+
        }
    };
}

pub fn frame_fault(fault: FrameFault) -> &'static str
    ensures { result.now ≡ frame_fault_name fault }
{
    name_of!(fault in FrameFault:
        UnknownFrame, BadLength, TooLarge, Truncated, UnknownCopyTag, ServerError, Device,
        OutOfMemory
    )
}

pub fn message_fault(fault: MsgFault) -> &'static str
    ensures { result.now ≡ message_fault_name fault }
{
    name_of!(fault in MsgFault:
        UnknownTag, Short, Trailing, BadTupleKind, BadText, BinaryColumn, BadFlag, NegativeCount,
        TwoPhase, OutOfMemory
    )
}

pub fn session_fault(fault: SessionFault) -> &'static str
    ensures { result.now ≡ session_fault_name fault }
{
    name_of!(fault in SessionFault:
        NotInTransaction, NestedBegin, BlockOpen, NoBlock, UnknownTransaction, AlreadyOpen,
        OldCommit, CommitMismatch, SpoolFull, TooManyOpen
    )
}

pub fn relation_fault(fault: RelFault) -> &'static str
    ensures { result.now ≡ relation_fault_name fault }
{
    name_of!(fault in RelFault:
        UnknownRelation, TableMissing, ColumnMissing, KeyNotSent, ColumnCount, BadValue, NullKey,
        OutOfMemory
    )
}
