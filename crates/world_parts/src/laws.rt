// The laws of parts. Each function does nothing: its contract is a law, and the check of this crate
// proves it.
ghost use Rattle.world_parts.specs.Statements.{RowsByTable, WalkedByTable, ValidByTable, SerialByTable, HeldByTable, HasEachPart, PartOfPart, PartOfItself, TriedInPart, TruncatedByParts, LiveInPart, PartAfterOpen, PartAfterTry, PartAfterTouch, PartAfterRollback, PartAfterCommit, PartAfterAbort, LineBegins, LineAfterCommit, LineAfterStep, LineStays, RowsUntilInPart, ReachedByParts, ReachedOfEach, MadeOfParts, TruncateLeads, WaitingLeads, ChangesAreTold, RollbackByTable, RollbackByMarks, PartIsFine, FineByParts, SoundReached, SoundAlike, SoundByParts, LedReached, LedByStep, LedByParts};

/// Rows that agree in each table are the same.
pub fn rows_by_table()
    ensures { RowsByTable }
{}

/// The rows of a table, in the order of their keys, are those of it alone.
pub fn walked_by_table()
    ensures { WalkedByTable }
{}

/// Rows are valid just where those of each table are.
pub fn valid_by_table()
    ensures { ValidByTable }
{}

/// The rows of a table after changes are those after the table's changes.
pub fn serial_by_table()
    ensures { SerialByTable }
{}

/// Of the cells of a table, changes hold those that the table's changes hold.
pub fn held_by_table()
    ensures { HeldByTable }
{}

/// Every world has a part of each table, which has its line.
pub fn has_each_part()
    ensures { HasEachPart }
{}

/// A part of a part is one of the world.
pub fn part_of_part()
    ensures { PartOfPart }
{}

/// A part is its own.
pub fn part_of_itself()
    ensures { PartOfItself }
{}

/// A change of a table comes to in the world what it comes to in the part.
pub fn tried_in_part()
    ensures { TriedInPart }
{}

/// A truncate is done where each of its tables is free by its part, and held where one is.
pub fn truncated_by_parts()
    ensures { TruncatedByParts }
{}

/// What stands at a place with the work of all open transactions is told by the part of its table.
pub fn live_in_part()
    ensures { LiveInPart }
{}

/// A transaction may open in a part at any time behind its open in the world.
pub fn part_after_open()
    ensures { PartAfterOpen }
{}

/// A change is tried in the parts of its tables, and the others' stay.
pub fn part_after_try()
    ensures { PartAfterTry }
{}

/// Of an item that changes no row a part hears that the transaction waits no more.
pub fn part_after_touch()
    ensures { PartAfterTouch }
{}

/// A rollback is one in each part that it drops something of, to the first mark there that it drops.
pub fn part_after_rollback()
    ensures { PartAfterRollback }
{}

/// A commit comes in the parts in which its transaction did something.
pub fn part_after_commit()
    ensures { PartAfterCommit }
{}

/// So does an abort.
pub fn part_after_abort()
    ensures { PartAfterAbort }
{}

/// A world and its part begin with no commit.
pub fn line_begins()
    ensures { LineBegins }
{}

/// A part has the world's line behind a commit, also one of which it needn't be told.
pub fn line_after_commit()
    ensures { LineAfterCommit }
{}

/// Each other call leaves start and commits.
pub fn line_after_step()
    ensures { LineAfterStep }
{}

/// Where a world and its part keep both, the part has the world's line still.
pub fn line_stays()
    ensures { LineStays }
{}

/// The rows of a table after the commits up to a position are those of its part.
pub fn rows_until_in_part()
    ensures { RowsUntilInPart }
{}

/// What calls lead to is, table by table, what they are in the parts lead to.
pub fn reached_by_parts()
    ensures { ReachedByParts }
{}

/// So it is where each part is reached by calls of its own.
pub fn reached_of_each()
    ensures { ReachedOfEach }
{}

/// So it is where it is made of parts, each with its commits and transactions in the table, to which parts of
/// calls lead.
pub fn made_of_parts()
    ensures { MadeOfParts }
{}

/// A truncate of several leads on in the part of one of its tables, where nobody else holds anything of that.
pub fn truncate_leads()
    ensures { TruncateLeads }
{}

/// So it does where its transaction waits with it.
pub fn waiting_leads()
    ensures { WaitingLeads }
{}

/// A change is told to its tables under the latest mark.
pub fn changes_are_told()
    ensures { ChangesAreTold }
{}

/// A rollback is one in the part, to the first of its marks that is dropped.
pub fn rollback_by_table()
    ensures { RollbackByTable }
{}

/// So is a rollback to each mark that is dropped, whatever their order.
pub fn rollback_by_marks()
    ensures { RollbackByMarks }
{}

/// A part keeps what every world keeps that calls reach.
pub fn part_is_fine()
    ensures { PartIsFine }
{}

/// A world keeps it where each of its parts does.
pub fn fine_by_parts()
    ensures { FineByParts }
{}

/// Every world that calls reach from valid rows is sound.
pub fn sound_reached()
    ensures { SoundReached }
{}

/// So is a world that is alike: of its transactions survives the same, and they want the same.
pub fn sound_alike()
    ensures { SoundAlike }
{}

/// So is one of which each part is, where a clash that stopped it was of one table.
pub fn sound_by_parts()
    ensures { SoundByParts }
{}

/// A run may have each world that calls reach.
pub fn led_reached()
    ensures { LedReached }
{}

/// So may it have each that a call leads to.
pub fn led_by_step()
    ensures { LedByStep }
{}

/// And so may it have one that is known by its parts.
pub fn led_by_parts()
    ensures { LedByParts }
{}
