// The example files (Case file): each file that an argument names, its name and then the text that `arvadush` prints for it.
#![tactic(auto)]

use layout::TEXT_MOST;
use profile::Profile;
use report::{BYTES_READ, case_text, read_full};
use std::env::FillError;
use std::io::Read;
use std::rt::{Env, Files};
use std::{fs, io, str};

// Prints the text of the case file that is read from input, as `arvadush` does, and in buffers like its.
fn print_case(rt: &impl Print, input: &mut impl Read) -> io::Result<()> {
    let mut weights = [0u32; Profile::SPAN_MOST];
    let mut marks = [0u8; Profile::SPAN_MOST + 1];
    let mut counts = [0u64; Profile::SPAN_MOST + 1];
    let mut file = [0u8; BYTES_READ];
    let mut text = [0u8; TEXT_MOST];
    let read = read_full(input, &mut file)?;
    let length = case_text(
        &file[..read],
        &mut weights,
        &mut marks,
        &mut counts,
        &mut text,
    );
    rt.write_all(&text[..length])
}

// The text of the file at a path; where it cannot be opened, the reason, to standard error.
fn print_file(rt: &(impl Print + Eprint + Files), path: &str) -> io::Result<()> {
    match fs::open(rt, path) {
        Ok(mut file) => print_case(rt, &mut file),
        Err(error) => eprintln!(rt; "{path}: {error}"),
    }
}

// The name of a file, and its text. No file with a name that is not UTF-8 is opened.
fn print_named(rt: &(impl Print + Eprint + Files), path: &[u8]) -> io::Result<()> {
    rt.write_all(path)?;
    rt.write_all(b"\n")?;
    match str::from_utf8(path) {
        Ok(path) => print_file(rt, path),
        Err(error) => eprintln!(rt; "{error}"),
    }
}

// The file that an argument names; whether there is such an argument.
fn print_arg(rt: &(impl Print + Eprint + Files + Env), i: usize) -> io::Result<bool> {
    let mut path = [0u8; 4096];
    match rt.arg(i, &mut path) {
        Ok(n) => print_named(rt, &path[..n])?,
        Err(FillError::TooLong) => eprintln!(rt; "argument {i}: too long a name")?,
        Err(FillError::NotPresent) => return Ok(false),
    }
    Ok(true)
}

fn main(rt: HostRuntime) -> io::Result<()> {
    for i in 1..usize::MAX {
        if !print_arg(&rt, i)? {
            break;
        }
    }
    Ok(())
}
