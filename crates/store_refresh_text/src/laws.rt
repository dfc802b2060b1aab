//! What came from files is read back from its own text.
ghost use Rattle.store_refresh_text.specs.Laws.{KeysAreReadBack, LineitemsAreReadBack};
ghost use Rattle.store_refresh_text.specs.Laws.{OrdersAreReadBack};

/// Rows that came from the files of a refresh set are read back from the text that is written of
/// them, and so are the keys of a delete.
pub fn texts_are_read_back()
    ensures orders { OrdersAreReadBack }
    ensures lineitems { LineitemsAreReadBack }
    ensures keys { KeysAreReadBack }
{}
