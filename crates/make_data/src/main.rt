//! The program that writes the data of a number into a folder: `make_data NUMBER FOLDER`. Files
//! that are there are replaced. It prints the usage line where the words are of another form, and
//! else nothing.
#![tactic(auto)]

mod machine;
mod run;
mod status;
mod target;
mod words;

use machine::Machine;
use run::make_data;
use status::Status;
use std::alloc::AllocError;
use std::env;
use std::io::ErrorKind;
use std::process::ExitCode;

/// The words after the program's name. None where a word isn't UTF-8.
fn given_words(rt: &HostRuntime) -> Result<Vec<String>, AllocError> {
    match env::args(rt) {
        Ok(args) => args.skip(1).collect(rt.alloc()),
        Err(error) => {
            if error.kind() == ErrorKind::OutOfMemory {
                return Err(AllocError);
            }
            Ok(Vec::new(rt.alloc()))
        }
    }
}

fn main(rt: HostRuntime) -> ExitCode {
    let Ok(words) = given_words(&rt) else {
        return ExitCode::from(Status::OutOfMemory.number());
    };
    let mut machine = Machine::new(&rt);
    let status = make_data(rt.alloc(), &words, &mut machine);
    ExitCode::from(status.number())
}
