//! What came from files is an entry.
ghost use Rattle.store_refresh_entries.specs.Laws.{DeletesAreReadable, DeletesAreShort};
ghost use Rattle.store_refresh_entries.specs.Laws.{InsertsAreReadable, InsertsAreShort};

use store_refresh_text::texts_are_read_back;

/// A refresh whose rows or keys the files of a refresh set gave is read back from the bytes that
/// spell it.
pub fn refreshes_of_files_are_readable()
    ensures inserts { InsertsAreReadable }
    ensures deletes { DeletesAreReadable }
{
    texts_are_read_back();
}

/// Its bytes are below 2^43, as its files are of at most 2^32.
pub fn refreshes_of_files_are_short()
    ensures inserts { InsertsAreShort }
    ensures deletes { DeletesAreShort }
{}
