//! The trial: a job over the data that is made for a number, all in memory.
ghost use Rattle.std.specs.Prelude.{◌≡◌, ◌≤◌, ◌++◌, ◌∷◌, [], IfErr, IfOk, OnOk, codes, map};
ghost use Rattle.std.specs.String.{string_bytes};
ghost use Rattle.app_sample_data.specs.Texts.{named};
ghost use Rattle.base_io.specs.Memory.{folder_of};
ghost use Rattle.app_sample_data.specs.Numbers.{IsDataNumber};
ghost use Rattle.app_inputs.specs.Printing.{IsAnswer};
ghost use Rattle.app_run.specs.Trial.{PrintsTrial, in_made, trial_files};

use crate::output::Output;
use crate::throughput::job_output;
use app_inputs::{InputError, ReadError, Status, line_of_refusal};
use app_sample_data::{NamedText, make};
use base_disk::MemDisk;
use base_io::{Gate, MemFile, SureFiles};
use std::alloc::{AllocError, Global};
use std::sync::Wait;
use std::thread::Threads;

/// The trial's job.
static JOB: &[u8] = b"session queries\nsession queries\nbefore insert 1\nbefore delete 1\n";

/// The script of both of its sessions: the 22 queries with their validation values.
static QUERIES: &[u8] = b"\
run 1 (90);\n\
run 2 (15, 'BRASS', 'EUROPE');\n\
run 3 ('BUILDING', '1995-03-15');\n\
run 4 ('1993-07-01');\n\
run 5 ('ASIA', '1994-01-01');\n\
run 6 ('1994-01-01', 0.06, 24);\n\
run 7 ('FRANCE', 'GERMANY');\n\
run 8 ('BRAZIL', 'AMERICA', 'ECONOMY ANODIZED STEEL');\n\
run 9 ('green');\n\
run 10 ('1993-10-01');\n\
run 11 ('GERMANY', 0.0001);\n\
run 12 ('MAIL', 'SHIP', '1994-01-01');\n\
run 13 ('special', 'requests');\n\
run 14 ('1995-09-01');\n\
run 15 ('1996-01-01');\n\
run 16 ('Brand#45', 'MEDIUM POLISHED', 49, 14, 23, 45, 19, 3, 36, 9);\n\
run 17 ('Brand#23', 'MED BOX');\n\
run 18 (300);\n\
run 19 (1, 10, 20, 'Brand#12', 'Brand#23', 'Brand#34');\n\
run 20 ('forest', '1994-01-01', 'CANADA');\n\
run 21 ('SAUDI ARABIA');\n\
run 22 ('13', '31', '23', '29', '30', '18', '17');\n";

/// Adds a file to a folder in memory.
fn put_file(
    alloc: Global,
    files: &mut Vec<MemFile>,
    folder: &str,
    name: &str,
    bytes: &[u8],
) -> Result<(), AllocError>
    ensures { OnOk result (folder_of files.new.items
        ≡ folder_of files.old.items ++ (folder.now ++ name.now, bytes.now) ∷ []) }
{
    let mut path = String::from_str(alloc, folder)?;
    path.push_str(name)?;
    let bytes = Vec::from_slice(alloc, bytes)?;
    files.push(MemFile { name: path, bytes })?;
    Ok(())
}

/// Adds made files to a folder in memory.
fn put_made(alloc: Global, files: &mut Vec<MemFile>, texts: &[NamedText]) -> Result<(), AllocError>
    ensures { OnOk result (folder_of files.new.items
        ≡ folder_of files.old.items ++ map in_made (named texts.now)) }
{
    for text in texts {
        put_file(
            alloc,
            files,
            "made/",
            text.name.as_str(),
            text.bytes.as_slice(),
        )?;
    }
    Ok(())
}

/// The files of the trial.
fn trial_files(alloc: Global, number: u64) -> Result<Vec<MemFile>, AllocError>
    requires { IsDataNumber number }
    ensures { IfOk result (λ files. folder_of files.items ≡ trial_files number) }
{
    let texts = make(alloc, number)?;
    let mut files = Vec::new(alloc);
    put_file(alloc, &mut files, "", "job", JOB)?;
    put_file(alloc, &mut files, "", "queries", QUERIES)?;
    put_made(alloc, &mut files, texts.as_slice())?;
    Ok(files)
}

/// A disk with an empty file. The trial's job names no journal.
fn no_disk(alloc: Global) -> Result<MemDisk, AllocError> {
    let name = String::new(alloc);
    MemDisk::new(alloc, name, Vec::new(alloc), Vec::new(alloc), 0)
}

/// What the trial prints, and its status.
pub fn trial_output<R: Threads + Wait + Sync, G: Gate + Sync>(
    rt: &R,
    alloc: Global,
    number: u64,
    gate: &G,
) -> Result<(Vec<u8>, Status), ReadError>
    requires { IsDataNumber number }
    ensures answer { IfOk result (λ printed. IsAnswer printed.1) }
    ensures prints { IfOk result (λ printed. PrintsTrial number printed.0.items printed.1) }
    ensures memory { IfErr result (λ e. e ≡ ReadError.OutOfMemory) }
{
    let mut files = SureFiles::new(trial_files(alloc, number)?);
    let mut disk = no_disk(alloc)?;
    match job_output(rt, alloc, &mut files, &mut disk, "made", "job", false, gate) {
        Ok(Output::Text(text, status)) => Ok((text, status)),
        Ok(Output::DiskFault) => unreachable!(),
        Err(InputError::Refused(refused)) => {
            let text = line_of_refusal(alloc, &refused)?;
            Ok((text, Status::InputRefused))
        }
        Err(InputError::Unread(ReadError::Fault)) => unreachable!(),
        Err(InputError::Unread(ReadError::OutOfMemory)) => Err(ReadError::OutOfMemory),
    }
}
