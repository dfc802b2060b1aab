//! The journal: made, opened again, and appended to.
ghost use Rattle.std.specs.Prelude.{◌≡◌, ◌↔◌, ◌<◌, ◌≤◌, ◌+◌, ◌^◌, ◌++◌, [], ◌∷◌, ℕ, List, true};
ghost use Rattle.std.specs.Prelude.{false, not, map, if◌then◌else◌, is_some, length, Ok, IfOk};
ghost use Rattle.std.specs.Prelude.{IfErr, OnErr, IsErrOf};
ghost use Rattle.std.specs.List.{AllByRecursion};
ghost use Rattle.base_io.specs.Outside.{Counts};
ghost use Rattle.base_disk.specs.Disk.{LeavesOnly, Tells};
ghost use Rattle.store_journal.specs.Format.{StandsFor, framed};
ghost use Rattle.store_journal.specs.Journal.{Refuses, SameOrTorn, Stands, WithOrWithout};
ghost use Rattle.store_journal.specs.Journal.{is_stored};

use crate::bytes::read_all;
use crate::fault::JournalFault;
use crate::frame::push_framed;
use crate::payload::Payload;
use crate::reading::read_entries;
use crate::step::write_and_sync;
use base_disk::{Disk, Size, Synced};
use std::alloc::{AllocError, Global};

/// The most bytes of a file that is opened.
const MOST: u64 = 1 << 60;

/// A journal on a disk: where its closed gate is, and whether it takes no more.
#[derive(Debug, Drop)]
pub struct Journal {
    pub end: u64,
    pub is_shut: bool,
}

/// What an append answers.
#[derive(Clone, Copy, Debug, PartialEq, Eq)]
pub enum Appended {
    /// From now on each crash leaves a file that has it.
    Stored,
    /// The disk failed, and the journal is shut.
    Failed,
    /// The journal was shut before, and nothing was done.
    Shut,
}

/// Makes the file reached a journal without entries.
pub fn make<D: Disk, P: Payload>(disk: &mut D) -> Result<Journal, JournalFault>
    requires { D.is_reached disk.old ≡ true }
    ensures made { IfOk result (λ journal. (journal.is_shut ≡ false)
        × Stands P.is_payload (D.may_leave disk.new) [] journal.end) }
    ensures any_moment { LeavesOnly D.moment D.left_since disk.old disk.new
        (SameOrTorn (D.may_leave disk.old) 0 1) }
    ensures only { IfErr result (λ e. e ≡ JournalFault.Failed) }
    ensures failed { Counts (IsErrOf result JournalFault.Failed)
        (D.faults disk.old) (D.faults disk.new) }
    ensures told { is_some (D.reads disk.new) ≡ is_some (D.reads disk.old) }
    ensures reached { D.is_reached disk.new ≡ true }
{
    if !write_and_sync(disk, 0, &[0]) {
        return Err(JournalFault::Failed);
    }
    Ok(Journal {
        end: 0,
        is_shut: false,
    })
}

/// Reads the journal that a crash may have left. It may crash too.
pub fn reopen<D: Disk, P: Payload>(
    alloc: Global,
    disk: &mut D,
) -> Result<(Journal, Vec<P::Value>), JournalFault>
    requires { D.is_reached disk.old ≡ true }
    ensures stands { IfOk result (λ r. (r.0.is_shut ≡ false)
        × Stands P.is_payload (D.may_leave disk.new) (map P.spelling r.1.items) r.0.end) }
    ensures found { IfOk result (λ r. Tells (D.reads disk.old) (λ file.
        StandsFor P.is_payload file (map P.spelling r.1.items) × (length file ≤ 2 ^ 60))) }
    ensures values { IfOk result (λ r. AllByRecursion P.is_value r.1.items) }
    ensures short { IfOk result (λ r. r.0.end ≤ 2 ^ 61) }
    ensures refused { IfErr result (Refuses P.is_payload (D.reads disk.old)) }
    // A crash at any moment of the call leaves what it might have left before.
    ensures any_moment { LeavesOnly D.moment D.left_since disk.old disk.new (D.may_leave disk.old) }
    ensures images { (c : List ℕ) → D.may_leave disk.new c → D.may_leave disk.old c }
    ensures failed { Counts (IsErrOf result JournalFault.Failed)
        (D.faults disk.old) (D.faults disk.new) }
    ensures told { is_some (D.reads disk.new) ≡ is_some (D.reads disk.old) }
    ensures reached { D.is_reached disk.new ≡ true }
{
    match disk.sync() {
        Synced::Failed => Err(JournalFault::Failed),
        Synced::Synced => match disk.size() {
            Size::Failed => Err(JournalFault::Failed),
            Size::Size(size) => {
                if size > MOST {
                    return Err(JournalFault::TooLong);
                }
                let bytes = read_all(alloc, disk, size as usize)?;
                let found = read_entries::<P>(alloc, &bytes)?;
                let journal = Journal {
                    end: found.end as u64,
                    is_shut: false,
                };
                Ok((journal, found.values))
            }
        },
    }
}

/// The bytes that spell a value.
fn spelled<P: Payload>(alloc: Global, value: &P::Value) -> Result<Vec<u8>, AllocError>
    ensures { IfOk result (λ v. v.items ≡ P.spelling value.now) }
{
    let mut payload = Vec::new(alloc);
    P::spell(value, &mut payload)?;
    Ok(payload)
}

/// What one write puts behind a closed gate: the entry, and the closed gate of the next.
fn staged<P: Payload>(alloc: Global, value: &P::Value) -> Result<Vec<u8>, AllocError>
    requires { length (P.spelling value.now) < 2 ^ 62 }
    ensures { IfOk result (λ v. v.items ≡ framed (P.spelling value.now) ++ 0 ∷ []) }
{
    let payload = spelled::<P>(alloc, value)?;
    let mut piece = Vec::with_capacity(alloc, payload.len() + 9)?;
    push_framed(&mut piece, &payload)?;
    piece.push(0)?;
    Ok(piece)
}

impl Journal {
    /// Adds a refresh. At Stored it is acknowledged: from then on each crash leaves a file that has
    /// it. After Failed, open the file again.
    pub fn append<D: Disk, P: Payload>(
        &mut self,
        alloc: Global,
        disk: &mut D,
        value: &P::Value,
    ) -> Result<Appended, AllocError>
        requires reached { D.is_reached disk.old ≡ true }
        requires spelled { self.old.is_shut ≡ false → P.is_payload (P.spelling value.now) }
        requires room { self.old.is_shut ≡ false
            → self.old.end + (9 + length (P.spelling value.now)) < 2 ^ 62 }

        ensures stored { (ps : List (List ℕ))
            → Stands P.is_payload (D.may_leave disk.old) ps self.old.end
            → result ≡ Ok Appended.Stored
            → Stands P.is_payload (D.may_leave disk.new) (ps ++ P.spelling value.now ∷ [])
            self.new.end }

        // A crash at any moment of the call leaves the refreshes from before it, with the new one
        // or without.
        ensures any_moment { (ps : List (List ℕ))
            → Stands P.is_payload (D.may_leave disk.old) ps self.old.end
            → LeavesOnly D.moment D.left_since disk.old disk.new
            (WithOrWithout P.is_payload ps (P.spelling value.now)) }

        ensures failed { Counts (result ≡ Ok Appended.Failed)
            (D.faults disk.old) (D.faults disk.new) }
        ensures shut { IfOk result (λ r. (r ≡ Appended.Shut) ↔ (self.old.is_shut ≡ true)) }
        ensures is_shut { IfOk result (λ r. self.new.is_shut ≡ not (is_stored r)) }
        ensures end { IfOk result (λ r. self.new.end ≡ (if is_stored r
            then self.old.end + (9 + length (P.spelling value.now)) else self.old.end)) }
        ensures memory { OnErr result ((disk.new ≡ disk.old) × (self.new ≡ self.old)) }
        ensures after_shut { result ≡ Ok Appended.Shut → disk.new ≡ disk.old }
        ensures told { is_some (D.reads disk.new) ≡ is_some (D.reads disk.old) }
        ensures reached { D.is_reached disk.new ≡ true }
    {
        if self.is_shut {
            return Ok(Appended::Shut);
        }
        let piece = staged::<P>(alloc, value)?;
        if !write_and_sync(disk, self.end + 1, &piece) {
            self.is_shut = true;
            return Ok(Appended::Failed);
        }
        if !write_and_sync(disk, self.end, &[1]) {
            self.is_shut = true;
            return Ok(Appended::Failed);
        }
        self.end += piece.len() as u64;
        Ok(Appended::Stored)
    }

    /// Takes no more: each later append answers Shut.
    pub fn shut(&mut self)
        ensures { self.new ≡ record self.old { is_shut = true } }
    {
        self.is_shut = true;
    }
}
