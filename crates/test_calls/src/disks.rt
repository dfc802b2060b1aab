//! A disk that never fails and tells nothing, for runs that keep no refreshes.
ghost use Rattle.std.specs.Prelude.{None, true};
ghost use Rattle.base_disk.specs.Disk.{not_told};

use base_disk::{Disk, Got, Reach, Size, Synced, Wrote};

/// A disk each of whose calls succeeds. Nothing is read from it.
#[derive(Drop)]
pub(crate) struct SureDisk;

impl Disk for SureDisk {
    ghost named = { λ _. None };

    ghost reads = { λ _. None };

    ghost is_reached = { λ _. true };

    ghost may_leave = { λ _ _. ⊥ };

    ghost moment = { λ _. 0 };

    ghost left_since = { λ _ _ _. ⊥ };

    ghost faults = { λ _. 0 };

    ghost reads_image = { λ _ f told. not_told f told };

    ghost counts_now = { λ _ _ _ _ none. none };

    ghost only_now = { λ _ _ none. none };

    fn reach(&mut self, _name: &str) -> Reach {
        Reach::Reached
    }

    fn size(&mut self) -> Size {
        Size::Size(0)
    }

    fn read(&mut self, _at: u64, _into: &mut [u8]) -> Got {
        Got::Got(0)
    }

    fn write_at(&mut self, _at: u64, _piece: &[u8]) -> Wrote {
        Wrote::Wrote
    }

    fn sync(&mut self) -> Synced {
        Synced::Synced
    }
}
