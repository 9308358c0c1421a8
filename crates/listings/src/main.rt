//! Lists the sections in the files that its arguments name, each after its file's name.
#![tactic(auto)]

use listing_stream::list;
use std::alloc::Global;
use std::rt::Files;
use std::{env, fs, io};

fn main(rt: HostRuntime) -> io::Result<()> {
    for path in env::args(&rt)?.skip(1) {
        list_file(&rt, rt.alloc(), path.as_str())?;
    }
    Ok(())
}

fn list_file(rt: &(impl Files + Print + Eprint), alloc: Global, path: &str) -> io::Result<()> {
    match fs::open(rt, path) {
        Ok(mut file) => {
            println!(rt; "{path}:")?;
            list(rt, &mut file);
        }
        Err(error) => say(rt, alloc, path, &error)?,
    }
    Ok(())
}

/// Says of a file why it does not open: the text of the error, without its number.
fn say(rt: &impl Eprint, alloc: Global, path: &str, error: &io::Error) -> io::Result<()> {
    let text = format!(in alloc; "{error}")?;
    let what = before_number(text.as_str());
    eprintln!(rt; "{path}: {what}")
}

fn before_number(text: &str) -> &str {
    match text.split_once(" (os error ") {
        Some((before, _)) => before,
        None => text,
    }
}
