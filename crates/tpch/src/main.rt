//! The program: its words, the machine's files, standard output and disk, given to `app_main`; or
//! to `app_show_plan`, where it was started under the name `show_plan`.
#![tactic(auto)]

use app_main::{Status, tpch};
use app_show_plan::show_plan;
use base_disk::RealDisk;
use base_io::{OpenGate, RealFiles, RealSink};
use std::alloc::AllocError;
use std::env;
use std::env::Env;
use std::io::ErrorKind;
use std::process::ExitCode;

/// The words after the program's name. None where a word isn't UTF-8.
fn words(rt: &HostRuntime) -> Result<Vec<String>, AllocError> {
    match env::args(rt) {
        Ok(args) => args.skip(1).collect(rt.alloc()),
        Err(error) => {
            if error.kind() == ErrorKind::OutOfMemory {
                return Err(AllocError);
            }
            Ok(Vec::new(rt.alloc()))
        }
    }
}

/// Whether the program was started as `show_plan`, in any folder.
fn is_show_plan(rt: &HostRuntime) -> bool {
    let mut bytes = [0; 4096];
    match rt.arg(0, &mut bytes) {
        Ok(count) => {
            let name = &bytes[..count];
            name == b"show_plan".as_slice() || name.ends_with(b"/show_plan")
        }
        Err(_) => false,
    }
}

fn main(rt: HostRuntime) -> ExitCode {
    let Ok(words) = words(&rt) else {
        return ExitCode::from(Status::OutOfMemory.number());
    };
    let mut files = RealFiles::new(&rt);
    let mut out = RealSink::new(&rt);
    let status = if is_show_plan(&rt) {
        show_plan(&rt, rt.alloc(), &words, &mut files, &mut out)
    } else {
        let mut disk = RealDisk::new(&rt);
        tpch(
            &rt,
            rt.alloc(),
            &words,
            &mut files,
            &mut out,
            &mut disk,
            &OpenGate,
        )
    };
    ExitCode::from(status.number())
}
