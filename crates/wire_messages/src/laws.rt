//! Laws of messages that are written row by row, each the contract of a function that does nothing.
ghost use Rattle.wire_messages.specs.Laws.{RowsAreFound, WrittenIsRead, RowsCanBeWritten, RowByRow};

/// Of rows with rising numbers, those payloads are given under a number that its row has.
pub fn rows_are_found()
    ensures { RowsAreFound }
{}

/// A value of a row, in the range of its type, is read back, whatever the other rows are.
pub fn written_is_read()
    ensures { WrittenIsRead }
{}

/// Rows in range are fields that can be written, where their bytes are fewer than 2^64.
pub fn rows_can_be_written()
    ensures { RowsCanBeWritten }
{}

/// Rows that are written one by one are their fields' spelling.
pub fn row_by_row()
    ensures { RowByRow }
{}
