//! A folder of files in memory, one of which may be open.
ghost use Rattle.std.specs.Prelude.{◌≡◌, ℕ, ◌<◌, ◌≤◌, Some, None, MatchOption, IsTrue, MatchBool};
ghost use Rattle.std.specs.Prelude.{IsSome, length, min, take, drop, ◌-◌};
ghost use Rattle.std.specs.Io.KnownBytes.{Consumes, IsAtEnd};
ghost use Rattle.base_io.specs.Memory.{bytes_at, folder_of, left_of, unread_bytes};
ghost use Rattle.base_io.specs.Outside.{file_of};

/// A file in memory.
#[derive(Drop)]
pub struct MemFile {
    /// The name by which it is opened.
    pub name: String,
    /// All of its bytes.
    pub bytes: Vec<u8>,
}

/// A place in an open file.
#[derive(Clone, Copy, Debug, PartialEq, Eq)]
pub struct Place {
    /// Which file it is, from 0.
    pub index: usize,
    /// How many of its bytes were read.
    pub at: usize,
}

/// Files in memory. Of two with one name the first counts.
#[derive(Drop)]
pub struct MemFolder {
    /// The files in their order.
    pub files: Vec<MemFile>,
    /// The place in the open file.
    pub place: Option<Place>,
}

/// The place of the first file of that name.
fn find(files: &[MemFile], name: &str) -> Option<usize>
    ensures { MatchOption result (file_of (folder_of files.now) name.now ≡ None)
        (λ i. file_of (folder_of files.now) name.now ≡ Some (bytes_at files.now i)) }
{
    let mut index = 0;
    while index < files.len() {
        if files[index].name.as_bytes() == name.as_bytes() {
            return Some(index);
        }
        index += 1;
    }
    None
}

/// The bytes of the file at the index, none where there is no file.
fn bytes_of(files: &[MemFile], index: usize) -> &[u8]
    ensures { result.now ≡ bytes_at files.now index }
{
    match files.get(index) {
        Some(file) => file.bytes.as_slice(),
        None => &[],
    }
}

/// Copies the bytes from a place on, as far as they go in, and answers how many.
fn fill(into: &mut [u8], bytes: &[u8], at: usize) -> usize
    ensures count { result ≡ min (length into.old) (length bytes.now - at) }
    ensures bytes { take result into.new ≡ take result (drop at bytes.now) }
{
    if at >= bytes.len() {
        return 0;
    }
    let rest = &bytes[at..];
    let count = rest.len().min(into.len());
    into[..count].copy_from_slice(&rest[..count]);
    count
}

impl MemFolder {
    /// A folder of these files, with none open.
    pub fn new(files: Vec<MemFile>) -> MemFolder
        ensures files { result.files ≡ files }
        ensures closed { result.place ≡ None }
    {
        MemFolder { files, place: None }
    }

    /// Opens the first file of that name at its first byte, and answers whether there is one.
    pub fn open_named(&mut self, name: &str) -> bool
        ensures files { self.new.files ≡ self.old.files }
        ensures found { MatchBool result
            ((file_of (folder_of self.old.files.items) name.now
            ≡ left_of self.old.files.items self.new.place) × IsSome self.new.place)
            ((file_of (folder_of self.old.files.items) name.now ≡ None)
            × (self.new.place ≡ self.old.place)) }
    {
        match find(&self.files, name) {
            Some(index) => {
                self.place = Some(Place { index, at: 0 });
                true
            }
            None => false,
        }
    }

    /// Copies the open file's next bytes into the front of `into`, as many as go in, and answers
    /// how many.
    pub fn read_on(&mut self, into: &mut [u8]) -> usize
        requires { IsSome self.old.place }
        ensures files { self.new.files ≡ self.old.files }
        ensures open { IsSome self.new.place }
        ensures count { result
            ≡ min (length into.old) (length (unread_bytes self.old.files.items self.old.place)) }
        ensures bytes { Consumes (left_of self.old.files.items self.old.place)
            (left_of self.old.files.items self.new.place) (take result into.new) }
        ensures end { 0 < length into.old → result ≡ 0
            → IsAtEnd (left_of self.old.files.items self.old.place) }
    {
        let Some(place) = self.place else {
            return 0;
        };
        let bytes = bytes_of(&self.files, place.index);
        let count = fill(into, bytes, place.at);
        self.place = Some(Place {
            index: place.index,
            at: place.at + count,
        });
        count
    }
}
