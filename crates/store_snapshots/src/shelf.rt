//! The published value, and what each of its readers and its writer knows.
ghost use Rattle.std.specs.Arc.{arc_value};

use left_right::Absorb;
use std::alloc::AllocError;
use std::collections::LinkedList;
use std::sync::Arc;
use store_state::{Refresh, State};
use store_versions::{Attachment, Directory};

/// A share of a version, where readers find it.
#[derive(Drop)]
pub struct Shelf<A: Attachment = ()> {
    pub(crate) directory: Arc<Directory<A>>,
}

/// What is known of the shelf: the opening of its versions, once it is named, and of the version
/// that was seen last the list and the number. No value of it is made.
pub struct ShelfView {
    pub opening: Option<(State, LinkedList<Refresh>, u64)>,
    pub list: LinkedList<Refresh>,
    pub number: u64,
}

impl<A: Attachment> Absorb<Shelf<A>> for Shelf<A> {
    type State = Directory<A>;

    ghost state = { λ s. arc_value s.directory };

    ghost applied = { λ _ next. arc_value next.directory };

    fn absorb_first(&mut self, operation: &Shelf<A>, _other: &Shelf<A>) -> Result<(), AllocError> {
        self.directory = Arc::try_clone(&operation.directory)?;
        Ok(())
    }

    fn absorb_second(&mut self, operation: Shelf<A>, _other: &Shelf<A>) -> Result<(), Shelf<A>> {
        let Shelf { directory } = operation;
        self.directory = directory;
        Ok(())
    }
}
