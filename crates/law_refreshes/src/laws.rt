//! Laws of refreshes: each is the contract of a function that does nothing.
ghost use Rattle.law_refreshes.specs.Laws.{ReadRefreshesAreShort, ReadRefreshesAreStorable};

use store_refresh_entries::{refreshes_of_files_are_readable, refreshes_of_files_are_short};

/// Each refresh that the files of a folder give is read back from the bytes that spell it, or it is
/// malformed: a journal may be asked to keep it.
pub fn read_refreshes_are_storable()
    ensures { ReadRefreshesAreStorable }
{
    refreshes_of_files_are_readable();
}

/// The bytes that spell it are below 2^43.
pub fn read_refreshes_are_short()
    ensures { ReadRefreshesAreShort }
{
    refreshes_of_files_are_short();
}
