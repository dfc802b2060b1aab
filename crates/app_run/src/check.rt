//! How many rows each table of a folder has.
ghost use Rattle.std.specs.Prelude.{◌≡◌, IfOk};
ghost use Rattle.app_sessions.specs.Counts.{counts_text};
ghost use Rattle.app_inputs.specs.FilesAfter.{FilesAfterInput};
ghost use Rattle.app_inputs.specs.Inputs.{state_in};
ghost use Rattle.app_inputs.specs.Views.{Answers};

use app_inputs::{InputError, read_state};
use app_sessions::push_counts;
use base_io::Files;
use std::alloc::{AllocError, Global};
use store_snapshots::Snapshot;
use store_state::State;
use store_versions::Directory;

/// A line for each table.
fn counts_text(alloc: Global, state: State) -> Result<Vec<u8>, AllocError>
    ensures { IfOk result (λ text. text.items ≡ counts_text state) }
{
    let directory = Directory::new(alloc, state, (), Vec::new(alloc), 0)?;
    let snapshot = Snapshot::of(alloc, &directory)?;
    let mut text = Vec::new(alloc);
    push_counts(&mut text, &snapshot)?;
    Ok(text)
}

/// The text of the counts of the folder's tables.
pub fn check_text<F: Files>(
    alloc: Global,
    files: &mut F,
    folder: &str,
) -> Result<Vec<u8>, InputError>
    ensures answer { Answers (λ state text. text ≡ counts_text state) (F.held files.old)
        (state_in folder.now) result }
    ensures files { FilesAfterInput F.held F.faults F.misses result files.old files.new }
{
    let state = read_state(alloc, files, folder)?;
    let text = counts_text(alloc, state)?;
    Ok(text)
}
