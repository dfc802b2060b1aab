//! Any bytes as a payload, and disks to try them on.
ghost use Rattle.std.specs.Prelude.{◌≡◌, ⊤, length};

use base_disk::MemDisk;
use std::alloc::{AllocError, Global};
use std::process::Abort;
use store_journal::Payload;

/// The payload of an entry.
pub const SEVEN: [u8; 3] = [2, 55, 10];

/// Bytes as they are.
pub struct Plain;

impl Payload for Plain {
    type Value = Vec<u8>;

    ghost spelling = { λ bytes. bytes.items };

    ghost is_payload = { λ _. ⊤ };

    ghost is_value = { λ _. ⊤ };

    fn read(alloc: Global, bytes: &[u8]) -> Result<Option<Vec<u8>>, AllocError> {
        let bytes = bytes.to_vec(alloc)?;
        Ok(Some(bytes))
    }

    fn spell(value: &Vec<u8>, bytes: &mut Vec<u8>) -> Result<(), AllocError> {
        bytes.extend_from_slice(value)
    }
}

/// The payload of the one entry.
pub fn seven<R: Abort>(rt: &R, alloc: Global) -> Vec<u8>
    ensures { length result.items ≡ 3 }
{
    Vec::from_slice(alloc, &SEVEN).expect(rt, "memory")
}

/// A disk whose file `j` has these bytes, all of them synced; the listed calls fail.
pub fn disk_of<R: Abort>(rt: &R, alloc: Global, bytes: &[u8], failing: &[u64]) -> MemDisk {
    let name = String::from_str(alloc, "j").expect(rt, "memory");
    let bytes = Vec::from_slice(alloc, bytes).expect(rt, "memory");
    let failing = Vec::from_slice(alloc, failing).expect(rt, "memory");
    MemDisk::new(alloc, name, bytes, failing, 4096).expect(rt, "memory")
}
