//! A run: its words, and what it writes.
ghost use Rattle.std.specs.Prelude.{◌≡◌, ◌≢◌, ℕ, ◌≤◌, List, [], ◌∷◌, ◌++◌, IfOk, IsErrOf, OnOk};
ghost use Rattle.std.specs.Prelude.{map};
ghost use Rattle.std.specs.String.{string_bytes};
ghost use Rattle.base_io.specs.Outside.{Rose};
ghost use Rattle.app_sample_data.specs.Texts.{made, named};
ghost use Rattle.make_data.specs.Target.{Grows, GrowsInPart, IsSilent, WritesAll, WritesFirst};
ghost use Rattle.make_data.specs.Target.{files_in};
ghost use Rattle.make_data.specs.Words.{AsksNothing, usage_line};

use crate::status::Status;
use crate::target::{Target, TargetError};
use crate::words::read_words;
use app_sample_data::{NamedText, make};
use std::alloc::{AllocError, Global};

/// The line for words that ask for no data.
const USAGE: &str = "usage: make_data NUMBER FOLDER, with a number from 1 to 1000\n";

/// The path of a file in a folder.
fn path_of(alloc: Global, folder: &str, name: &str) -> Result<String, AllocError>
    ensures { IfOk result (λ path. string_bytes path ≡ folder.now ++ 47 ∷ name.now) }
{
    let mut path = String::from_str(alloc, folder)?;
    path.push('/')?;
    path.push_str(name)?;
    Ok(path)
}

/// Writes each text into the folder, under its name.
fn write_texts<T: Target>(
    alloc: Global,
    target: &mut T,
    folder: &str,
    texts: &[NamedText],
) -> Result<(), TargetError>
    ensures whole { OnOk result (Grows (T.files target.old) (T.files target.new)
        (files_in folder.now (named texts.now))) }
    ensures part { GrowsInPart (T.files target.old) (T.files target.new)
        (files_in folder.now (named texts.now)) }
    ensures printed { Grows (T.printed target.old) (T.printed target.new) [] }
    ensures fault { IsErrOf result TargetError.Fault
        → Rose (T.faults target.old) (T.faults target.new) }
    ensures later { T.faults target.old ≤ T.faults target.new }
{
    for text in texts {
        let path = path_of(alloc, folder, text.name.as_str())?;
        target.write_file(path.as_str(), text.bytes.as_slice())?;
    }
    Ok(())
}

/// Makes the data of the number, and writes it into the folder.
fn write_data<T: Target>(alloc: Global, target: &mut T, number: u64, folder: &str) -> Status
    requires { (1 ≤ number) × (number ≤ 1000) }
    ensures done { result ≡ Status.Done → Grows (T.files target.old) (T.files target.new)
        (files_in folder.now (made number)) }
    ensures part { GrowsInPart (T.files target.old) (T.files target.new)
        (files_in folder.now (made number)) }
    ensures printed { Grows (T.printed target.old) (T.printed target.new) [] }
    ensures fault { result ≡ Status.WriteFault → Rose (T.faults target.old) (T.faults target.new) }
    ensures later { T.faults target.old ≤ T.faults target.new }
    ensures other { result ≢ Status.Usage }
{
    let Ok(texts) = make(alloc, number) else {
        return Status::OutOfMemory;
    };
    match write_texts(alloc, target, folder, &texts) {
        Ok(()) => Status::Done,
        Err(TargetError::Fault) => Status::WriteFault,
        Err(TargetError::OutOfMemory) => Status::OutOfMemory,
    }
}

/// Says how the program is called.
fn print_usage<T: Target>(target: &mut T) -> Status
    ensures usage { result ≡ Status.Usage → Grows (T.printed target.old) (T.printed target.new)
        usage_line }
    ensures files { Grows (T.files target.old) (T.files target.new) [] }
    ensures fault { result ≡ Status.WriteFault → Rose (T.faults target.old) (T.faults target.new) }
    ensures later { T.faults target.old ≤ T.faults target.new }
    ensures other { result ≢ Status.Done }
{
    match target.print(USAGE) {
        Ok(()) => Status::Usage,
        Err(TargetError::Fault) => Status::WriteFault,
        Err(TargetError::OutOfMemory) => Status::OutOfMemory,
    }
}

/// Writes the data that the words ask for, file by file, or prints the usage line where they ask
/// for none.
///
/// Out of memory is the one answer that no clause ties to a cause. After it, and after a fault,
/// the first files may be written, each whole, and the next one in part.
pub fn make_data<T: Target>(alloc: Global, words: &[String], target: &mut T) -> Status
    ensures done { result ≡ Status.Done
        → WritesAll (map string_bytes words.now) (T.files target.old) (T.files target.new) }
    ensures first { WritesFirst (map string_bytes words.now) (T.files target.old)
        (T.files target.new) }
    ensures silent { IsSilent (map string_bytes words.now) (T.printed target.old)
        (T.printed target.new) }

    // Words that ask for no data are answered by the usage line, and no file is written.
    ensures usage { result ≡ Status.Usage → AsksNothing (map string_bytes words.now)
        × Grows (T.printed target.old) (T.printed target.new) usage_line }
    ensures none { AsksNothing (map string_bytes words.now)
        → Grows (T.files target.old) (T.files target.new) [] }

    ensures fault { result ≡ Status.WriteFault → Rose (T.faults target.old) (T.faults target.new) }
    ensures later { T.faults target.old ≤ T.faults target.new }
{
    match read_words(words) {
        Some(request) => write_data(alloc, target, request.number, request.folder),
        None => print_usage(target),
    }
}
