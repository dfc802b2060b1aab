//! A disk in memory with one file. It remembers what its file held at first and each call since, so
//! that what a crash may leave at each moment can be told.
ghost use Rattle.std.specs.Prelude.{min, drop, ◌+◌, ◌-◌, ℕ, ◌≡◌, ◌==◌, ◌<◌, ◌≤◌, ◌++◌, [], ◌∷◌, Some};
ghost use Rattle.std.specs.Prelude.{true, false, length, take, OnOk, OnErr, IfOk, IfSome, Vec, is_some};
ghost use Rattle.std.specs.Prelude.{List, if◌then◌else◌};
ghost use Rattle.std.specs.declared.alloc.Global.{Global};
ghost use Rattle.base_io.specs.Memory.{is_failing, count_after};
ghost use Rattle.base_io.specs.Outside.{Counts, next_count};
ghost use Rattle.base_disk.specs.Disk.{Elapses, Follows, Gives, Measures, Torn, file_named, written};
ghost use Rattle.base_disk.specs.Disk.{written_in};
ghost use Rattle.base_disk.specs.declared.memory.Call.TheVariants as called;
ghost use Rattle.std.specs.List.{list_any};
ghost use Rattle.std.specs.String.{string_bytes};
ghost use Rattle.base_disk.specs.Memory.{IsImage, LeftSince, State, TornBy, done, after, start};
ghost use Rattle.base_disk.specs.Memory.{state_now, file_only, mem_reads_image, mem_counts_now};
ghost use Rattle.base_disk.specs.Memory.{mem_only_now, is_unreached, is_write_failed};
ghost use Rattle.base_disk.specs.Memory.{is_sync_failed};

use crate::{Disk, Got, Reach, Size, Synced, Wrote};
use std::alloc::{AllocError, Global};

/// A call that changed what a read gives or what a crash may leave.
#[derive(Drop)]
pub enum Call {
    /// The piece was written at the place.
    Wrote(u64, Vec<u8>),
    Synced,
}

/// A disk with one file, whose calls are counted from 1. Those that the list names fail, and so does
/// a write that leaves a gap, one past the room that there is, and one for which memory runs out.
#[derive(Drop)]
pub struct MemDisk {
    alloc: Global,
    /// The file's name.
    pub name: String,
    /// What the file held at first.
    pub first: Vec<u8>,
    /// What a read gives.
    pub bytes: Vec<u8>,
    /// The writes and syncs that were done.
    pub calls: Vec<Call>,
    /// The numbers of the calls that are to fail.
    pub failing: Vec<u64>,
    /// How many bytes there is room for.
    pub most: usize,
    /// The file is reached.
    pub is_reached: bool,
    /// How many calls there were.
    pub count: u64,
    /// How many calls failed.
    pub faults: u64,
    ghost replayed: { bytes.items ≡ (after (start first.items) calls.items).bytes },
}

/// Whether the list has the call of that number.
fn is_named(failing: &[u64], call: u64) -> bool
    ensures { result ≡ list_any (λ k. k == call) failing.now }
{
    failing.iter().any(|k| *k == call)
}

impl MemDisk {
    /// A disk whose file of that name holds these bytes, all of them synced. The listed calls fail,
    /// and so does a write past `most` bytes.
    pub fn new(
        alloc: Global,
        name: String,
        bytes: Vec<u8>,
        failing: Vec<u64>,
        most: usize,
    ) -> Result<MemDisk, AllocError>
        ensures bytes { IfOk result (λ m. (m.first.items ≡ bytes.items)
            × (m.bytes.items ≡ bytes.items)) }
        ensures calls { IfOk result (λ m. (m.calls.items ≡ []) × (m.is_reached ≡ false)) }
        ensures faults { IfOk result (λ m. m.faults ≡ 0) }
    {
        let first = bytes.to_vec(alloc)?;
        Ok(MemDisk {
            alloc,
            name,
            first,
            bytes,
            calls: Vec::new(alloc),
            failing,
            most,
            is_reached: false,
            count: 0,
            faults: 0,
        })
    }
}

/// Counts a call, and answers whether it is to fail.
fn is_failing(failing: &[u64], count: &mut u64) -> bool
    ensures answer { result ≡ is_failing failing.now count.old }
    ensures count { count.new ≡ next_count count.old }
{
    *count = count.saturating_add(1);
    is_named(failing, *count)
}

/// The bytes with the piece at the place.
fn put(bytes: &[u8], alloc: Global, at: usize, piece: &[u8]) -> Result<Vec<u8>, AllocError>
    requires { at ≤ length bytes.now }
    ensures { IfOk result (λ v. v.items ≡ written at piece.now bytes.now) }
{
    let mut next = bytes[..at].to_vec(alloc)?;
    next.extend_from_slice(piece)?;
    if piece.len() < bytes.len() - at {
        next.extend_from_slice(&bytes[at + piece.len()..])?;
    }
    Ok(next)
}

/// Writes the piece at the place and remembers the call.
fn write(
    alloc: Global,
    at: u64,
    piece: &[u8],
    calls: &mut Vec<Call>,
    bytes: &mut Vec<u8>,
) -> Result<(), AllocError>
    requires { at ≤ length bytes.old.items }
    ensures ok { OnOk result ((v : Vec ℕ Global) × (v.items ≡ piece.now)
        × (calls.new.items ≡ calls.old.items ++ called.Wrote at v ∷ [])) }
    ensures bytes { OnOk result (bytes.new.items ≡ written at piece.now bytes.old.items) }
    ensures err { OnErr result (calls.new.items ≡ calls.old.items) }
    ensures err_bytes { OnErr result (bytes.new.items ≡ bytes.old.items) }
{
    let next = put(bytes, alloc, at as usize, piece)?;
    calls.push(Call::Wrote(at, piece.to_vec(alloc)?))?;
    *bytes = next;
    Ok(())
}

/// Remembers a sync.
fn note_sync(calls: &mut Vec<Call>) -> Result<(), AllocError>
    ensures ok { OnOk result (calls.new.items ≡ calls.old.items ++ called.Synced ∷ []) }
    ensures err { OnErr result (calls.new.items ≡ calls.old.items) }
{
    calls.push(Call::Synced)?;
    Ok(())
}

/// Copies the bytes from a place on, as far as they go in, and answers how many.
fn fill(into: &mut [u8], bytes: &[u8], at: usize) -> usize
    ensures count { result ≡ min (length into.old) (length bytes.now - at) }
    ensures bytes { take result into.new ≡ take result (drop at bytes.now) }
{
    if at >= bytes.len() {
        return 0;
    }
    let rest = &bytes[at..];
    let count = rest.len().min(into.len());
    into[..count].copy_from_slice(&rest[..count]);
    count
}

impl Disk for MemDisk {
    ghost named = { λ m. Some (file_only (string_bytes m.name)
        (state_now m.first.items m.calls.items).bytes) };

    ghost reads = { λ m. Some (state_now m.first.items m.calls.items).bytes };

    ghost is_reached = { λ m. m.is_reached };

    ghost may_leave = { λ m c. IsImage (state_now m.first.items m.calls.items) c };

    ghost moment = { λ m. length m.calls.items };

    ghost left_since = { λ m t c. LeftSince m.first.items m.calls.items t c };

    ghost faults = { λ m. m.faults };

    ghost reads_image = { λ m f told. mem_reads_image m.first.items m.calls.items f told };

    ghost counts_now = { λ m t c le now. mem_counts_now m.first.items m.calls.items t c le now };

    ghost only_now = { λ m c left. mem_only_now m.first.items m.calls.items c left };

    fn reach(&mut self, name: &str) -> Reach
        ensures reached { result ≡ Reach.Reached → self.new.is_reached ≡ true }
        ensures reads { result ≡ Reach.Reached
            → Some (state_now self.new.first.items self.new.calls.items).bytes
            ≡ file_named (Some (file_only (string_bytes self.old.name)
            (state_now self.old.first.items self.old.calls.items).bytes)) name.now }
        ensures faults { Counts (result ≡ Reach.Failed) self.old.faults self.new.faults }

        // It fails exactly where the list has the call's number or the name isn't the file's.
        ensures answer { result ≡ (if is_unreached (is_failing self.old.failing.items self.old.count)
            (string_bytes self.old.name) name.now then Reach.Failed else Reach.Reached) }
        ensures count { self.new.count ≡ next_count self.old.count }
        ensures fault_count { self.new.faults
            ≡ count_after (is_unreached (is_failing self.old.failing.items self.old.count)
            (string_bytes self.old.name) name.now) self.old.faults }
        ensures rest { (self.new.calls ≡ self.old.calls) × (self.new.bytes ≡ self.old.bytes)
            × (self.new.first ≡ self.old.first) × (self.new.failing ≡ self.old.failing) }
    {
        let failing = is_failing(&self.failing, &mut self.count);
        if failing || self.name.as_bytes() != name.as_bytes() {
            self.faults = self.faults.saturating_add(1);
            return Reach::Failed;
        }
        self.is_reached = true;
        Reach::Reached
    }

    fn size(&mut self) -> Size
        requires { self.old.is_reached ≡ true }
        ensures size { Measures (Some (state_now self.old.first.items self.old.calls.items).bytes)
            result }
        ensures reads { Some (state_now self.new.first.items self.new.calls.items).bytes
            ≡ Some (state_now self.old.first.items self.old.calls.items).bytes }
        ensures crash { (c : List ℕ)
            → IsImage (state_now self.new.first.items self.new.calls.items) c
            → IsImage (state_now self.old.first.items self.old.calls.items) c }
        ensures time { Elapses (length self.old.calls.items) (length self.new.calls.items)
            (LeftSince self.old.first.items self.old.calls.items)
            (LeftSince self.new.first.items self.new.calls.items)
            (IsImage (state_now self.new.first.items self.new.calls.items)) }
        ensures reached { self.new.is_reached ≡ true }
        ensures faults { Counts (result ≡ Size.Failed) self.old.faults self.new.faults }

        // It fails exactly where the list has the call's number.
        ensures answer { result ≡ (if is_failing self.old.failing.items self.old.count
            then Size.Failed else Size.Size (length self.old.bytes.items)) }
        ensures count { self.new.count ≡ next_count self.old.count }
        ensures fault_count { self.new.faults
            ≡ count_after (is_failing self.old.failing.items self.old.count) self.old.faults }
        ensures rest { (self.new.calls ≡ self.old.calls) × (self.new.bytes ≡ self.old.bytes)
            × (self.new.first ≡ self.old.first) × (self.new.failing ≡ self.old.failing) }
    {
        if is_failing(&self.failing, &mut self.count) {
            self.faults = self.faults.saturating_add(1);
            return Size::Failed;
        }
        Size::Size(self.bytes.len() as u64)
    }

    fn read(&mut self, at: u64, into: &mut [u8]) -> Got
        requires room { 0 < length into.old }
        requires reached { self.old.is_reached ≡ true }
        ensures bytes { Gives (Some (state_now self.old.first.items self.old.calls.items).bytes) at
            result into.new }
        ensures reads { Some (state_now self.new.first.items self.new.calls.items).bytes
            ≡ Some (state_now self.old.first.items self.old.calls.items).bytes }
        ensures crash { (c : List ℕ)
            → IsImage (state_now self.new.first.items self.new.calls.items) c
            → IsImage (state_now self.old.first.items self.old.calls.items) c }
        ensures time { Elapses (length self.old.calls.items) (length self.new.calls.items)
            (LeftSince self.old.first.items self.old.calls.items)
            (LeftSince self.new.first.items self.new.calls.items)
            (IsImage (state_now self.new.first.items self.new.calls.items)) }
        ensures reached { self.new.is_reached ≡ true }
        ensures faults { Counts (result ≡ Got.Failed) self.old.faults self.new.faults }

        // It fails exactly where the list has the call's number; else it gives as much as it may.
        ensures answer { result ≡ (if is_failing self.old.failing.items self.old.count
            then Got.Failed
            else Got.Got (min (length into.old) (length self.old.bytes.items - at))) }
        ensures count { self.new.count ≡ next_count self.old.count }
        ensures fault_count { self.new.faults
            ≡ count_after (is_failing self.old.failing.items self.old.count) self.old.faults }
        ensures rest { (self.new.calls ≡ self.old.calls) × (self.new.bytes ≡ self.old.bytes)
            × (self.new.first ≡ self.old.first) × (self.new.failing ≡ self.old.failing) }
    {
        if is_failing(&self.failing, &mut self.count) {
            self.faults = self.faults.saturating_add(1);
            return Got::Failed;
        }
        Got::Got(fill(into, &self.bytes, at as usize))
    }

    fn write_at(&mut self, at: u64, piece: &[u8]) -> Wrote
        requires { self.old.is_reached ≡ true }
        ensures written { result ≡ Wrote.Wrote
            → Some (state_now self.new.first.items self.new.calls.items).bytes
            ≡ written_in (Some (state_now self.old.first.items self.old.calls.items).bytes) at
            piece.now }
        ensures told { is_some (Some (state_now self.new.first.items self.new.calls.items).bytes)
            ≡ is_some (Some (state_now self.old.first.items self.old.calls.items).bytes) }
        ensures crash { Follows (Torn at (length piece.now))
            (IsImage (state_now self.old.first.items self.old.calls.items))
            (IsImage (state_now self.new.first.items self.new.calls.items)) }
        ensures time { Elapses (length self.old.calls.items) (length self.new.calls.items)
            (LeftSince self.old.first.items self.old.calls.items)
            (LeftSince self.new.first.items self.new.calls.items)
            (IsImage (state_now self.new.first.items self.new.calls.items)) }
        ensures reached { self.new.is_reached ≡ true }
        ensures faults { Counts (result ≡ Wrote.Failed) self.old.faults self.new.faults }

        // It fails where the list has the call's number, and where it would leave a gap or go past
        // the room that there is; beside that only for want of memory. Where it fails it does
        // nothing.
        ensures refused { is_failing self.old.failing.items self.old.count ≡ true
            → result ≡ Wrote.Failed }
        ensures gap { length self.old.bytes.items < at → result ≡ Wrote.Failed }
        ensures room { self.old.most < at + length piece.now → result ≡ Wrote.Failed }
        ensures wrote { result ≡ Wrote.Wrote → (v : Vec ℕ Global) × (v.items ≡ piece.now)
            × (self.new.calls.items ≡ self.old.calls.items ++ called.Wrote at v ∷ []) }
        ensures failed { result ≡ Wrote.Failed → (self.new.calls.items ≡ self.old.calls.items)
            × (self.new.bytes.items ≡ self.old.bytes.items) }
        ensures count { self.new.count ≡ next_count self.old.count }
        ensures fault_count { self.new.faults ≡ count_after (is_write_failed result)
            self.old.faults }
        ensures rest { (self.new.first ≡ self.old.first) × (self.new.failing ≡ self.old.failing)
            × (self.new.most ≡ self.old.most) }
    {
        let failing = is_failing(&self.failing, &mut self.count);
        let len = self.bytes.len() as u64;
        if failing || at > len || self.most < piece.len() || self.most - piece.len() < at as usize {
            self.faults = self.faults.saturating_add(1);
            return Wrote::Failed;
        }
        match write(self.alloc, at, piece, &mut self.calls, &mut self.bytes) {
            Ok(()) => Wrote::Wrote,
            Err(_) => {
                self.faults = self.faults.saturating_add(1);
                Wrote::Failed
            }
        }
    }

    fn sync(&mut self) -> Synced
        requires { self.old.is_reached ≡ true }
        ensures durable { result ≡ Synced.Synced
            → (c : List ℕ) → IsImage (state_now self.new.first.items self.new.calls.items) c
            → Some (state_now self.new.first.items self.new.calls.items).bytes ≡ Some c }
        ensures reads { result ≡ Synced.Synced
            → Some (state_now self.new.first.items self.new.calls.items).bytes
            ≡ Some (state_now self.old.first.items self.old.calls.items).bytes }
        ensures told { is_some (Some (state_now self.new.first.items self.new.calls.items).bytes)
            ≡ is_some (Some (state_now self.old.first.items self.old.calls.items).bytes) }
        ensures crash { (c : List ℕ)
            → IsImage (state_now self.new.first.items self.new.calls.items) c
            → IsImage (state_now self.old.first.items self.old.calls.items) c }
        ensures time { Elapses (length self.old.calls.items) (length self.new.calls.items)
            (LeftSince self.old.first.items self.old.calls.items)
            (LeftSince self.new.first.items self.new.calls.items)
            (IsImage (state_now self.new.first.items self.new.calls.items)) }
        ensures reached { self.new.is_reached ≡ true }
        ensures faults { Counts (result ≡ Synced.Failed) self.old.faults self.new.faults }

        // It fails where the list has the call's number; beside that only for want of memory. Where
        // it fails it does nothing.
        ensures refused { is_failing self.old.failing.items self.old.count ≡ true
            → result ≡ Synced.Failed }
        ensures synced { result ≡ Synced.Synced
            → self.new.calls.items ≡ self.old.calls.items ++ called.Synced ∷ [] }
        ensures failed { result ≡ Synced.Failed → self.new.calls.items ≡ self.old.calls.items }
        ensures count { self.new.count ≡ next_count self.old.count }
        ensures fault_count { self.new.faults ≡ count_after (is_sync_failed result)
            self.old.faults }
        ensures rest { (self.new.first ≡ self.old.first) × (self.new.bytes ≡ self.old.bytes)
            × (self.new.failing ≡ self.old.failing) × (self.new.most ≡ self.old.most) }
    {
        if is_failing(&self.failing, &mut self.count) {
            self.faults = self.faults.saturating_add(1);
            return Synced::Failed;
        }
        match note_sync(&mut self.calls) {
            Ok(()) => Synced::Synced,
            Err(_) => {
                self.faults = self.faults.saturating_add(1);
                Synced::Failed
            }
        }
    }
}

/// Does a call once more over what a read gives and over a torn image, where no gap is left. What
/// it wrote is filled with the byte in the image.
fn redo(
    alloc: Global,
    call: &Call,
    fill: u8,
    now: &mut Vec<u8>,
    torn: &mut Vec<u8>,
) -> Result<bool, AllocError>
    ensures { IfOk result (λ whole. whole ≡ true → (s : State)
        → now.old.items ≡ s.bytes → TornBy s.writes s.firm torn.old.items
        → (now.new.items ≡ (done s call.now).bytes)
        × TornBy (done s call.now).writes (done s call.now).firm torn.new.items) }
{
    match call {
        Call::Wrote(at, piece) => {
            let at = *at as usize;
            if now.len() < at || torn.len() < at {
                return Ok(false);
            }
            let filled = vec![in alloc; fill; piece.len()]?;
            *now = put(now, alloc, at, piece)?;
            *torn = put(torn, alloc, at, &filled)?;
            Ok(true)
        }
        Call::Synced => {
            *torn = now.to_vec(alloc)?;
            Ok(true)
        }
    }
}

/// An image that a crash after these calls may leave, if none of them left a gap.
fn image_after(
    alloc: Global,
    first: &[u8],
    calls: &[Call],
    fill: u8,
) -> Result<Option<Vec<u8>>, AllocError>
    ensures { IfOk result (λ found. IfSome found (λ v.
        IsImage (state_now first.now calls.now) v.items)) }
{
    let mut now = first.to_vec(alloc)?;
    let mut torn = first.to_vec(alloc)?;
    for call in calls {
        if !redo(alloc, call, fill, &mut now, &mut torn)? {
            return Ok(None);
        }
    }
    Ok(Some(torn))
}

impl MemDisk {
    ghost use Rattle.std.specs.Prelude.{IfOk, IfSome};
    ghost use Rattle.base_disk.specs.Memory.{LeftSince};

    /// An image that a crash after the first so many writes and syncs may have left: each range that
    /// was written since the last sync before it is filled with the byte.
    pub fn image(
        &self,
        alloc: Global,
        count: usize,
        fill: u8,
    ) -> Result<Option<Vec<u8>>, AllocError>
        ensures { IfOk result (λ found. IfSome found (λ v.
            LeftSince self.now.first.items self.now.calls.items 0 v.items)) }
    {
        let count = count.min(self.calls.len());
        let image = image_after(alloc, &self.first, &self.calls[..count], fill)?;
        Ok(image)
    }
}
