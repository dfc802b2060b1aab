//! Runs the cases on standard input by the program's one call, over files and a sink in memory, and
//! prints those that differ and the counts. `tools/rows` makes that input of the pages of cases,
//! and tells its format.
#![tactic(auto)]

mod runs;
mod texts;

use runs::passes;
use std::io;
use texts::{Text, put_line};

/// The title of a case.
fn title_of(case: &[Text]) -> &str {
    match case.first() {
        Some(text) => text.header.as_str(),
        None => "",
    }
}

fn main(rt: HostRuntime) -> io::Result<()> {
    let alloc = rt.alloc();
    let mut case: Vec<Text> = Vec::new(alloc);
    let (mut passed, mut failed) = (0u32, 0u32);
    for line in rt.lines(alloc) {
        let line = line?;
        if line.as_str() != "." {
            put_line(alloc, &mut case, line.as_str())?;
            continue;
        }
        if passes(&rt, alloc, &case)? {
            passed = passed.saturating_add(1);
        } else {
            failed = failed.saturating_add(1);
            println!(rt; "differs {}", title_of(&case))?;
        }
        case.clear();
    }
    println!(rt; "{passed} passed, {failed} failed")?;
    Ok(())
}
