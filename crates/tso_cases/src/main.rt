//! Calls of the libraries, as files say them: each line of a file has a call, ` = `, and what it finds. A line that begins with `#`
//! says something about the lines behind it. Where a call finds something else, its line is printed with what it finds; a last line
//! for each file says how many cases there are. The words that the program is run with are the names of the files, and the exit
//! status says whether all is as the files say.
#![tactic(auto)]

mod choices;
mod dispatch;
mod followed;
mod judged;
mod leaf;
mod meeting;
mod meetings;
mod packed;
mod parted;
mod runs;
mod ticket;

use crate::dispatch::answer;
use std::io;
use std::process::ExitCode;
use std::rt::Files;
use std::sync::Wait;
use std::thread::Threads;
use tso_calls::Failure;

// How the cases of a file are found.
#[derive(Clone, Copy)]
struct Counts {
    cases: u64,
    differing: u64,
}

// What a call finds, as a text.
fn found_of<R: Files + AllocGlobal + Threads + Wait + Sync>(
    rt: &R,
    call: &str,
) -> Result<String, Failure> {
    let mut found = String::new(rt.alloc());
    match answer(rt, call, &mut found) {
        Ok(()) => {}
        Err(Failure::Memory) => return Err(Failure::Memory),
        Err(Failure::Difference) => found.push_str(" a difference")?,
        Err(Failure::Unreadable) => found.push_str(" unreadable")?,
    }
    Ok(found)
}

// Makes the call of a line. Whether it finds what the line says; if not, that is printed.
fn is_as_said<R: Files + AllocGlobal + Print + Threads + Wait + Sync>(
    rt: &R,
    file: &str,
    number: usize,
    line: &str,
) -> io::Result<bool> {
    let (call, said) = match line.split_once(" = ") {
        Some(parts) => parts,
        None => (line, ""),
    };
    match found_of(rt, call) {
        Ok(found) => {
            let is_so = found.trim() == said.trim();
            if !is_so {
                let found = found.trim();
                println!(rt; "{file}:{number}: {call} = {found}")?;
            }
            Ok(is_so)
        }
        Err(_) => {
            println!(rt; "{file}:{number}: out of memory")?;
            Ok(false)
        }
    }
}

// Goes through the lines of a file.
fn count<R: Files + AllocGlobal + Print + Threads + Wait + Sync>(
    rt: &R,
    file: &str,
    text: &str,
) -> io::Result<Counts> {
    let (mut cases, mut differing) = (0u64, 0u64);
    for (number, line) in text.lines().enumerate() {
        if line.starts_with("#") || line.trim().is_empty() {
            continue;
        }
        cases = cases.saturating_add(1);
        if !is_as_said(rt, file, number.saturating_add(1), line)? {
            differing = differing.saturating_add(1);
        }
    }
    Ok(Counts { cases, differing })
}

// Says how the cases of a file are found. Whether all are as it says.
fn report<R: Print>(rt: &R, file: &str, counts: Counts) -> io::Result<bool> {
    let Counts { cases, differing } = counts;
    if differing == 0 {
        println!(rt; "{file}: {cases} cases as said")?;
    } else {
        println!(rt; "{file}: {differing} of {cases} differ")?;
    }
    Ok(differing == 0)
}

// Goes through a file.
fn try_file<R: Files + AllocGlobal + Print + Threads + Wait + Sync>(
    rt: &R,
    file: &str,
) -> io::Result<bool> {
    let text = std::fs::read_to_string(rt, file)?;
    let counts = count(rt, file, text.as_str())?;
    report(rt, file, counts)
}

fn main(rt: HostRuntime) -> io::Result<ExitCode> {
    let words: Vec<String> = std::env::args(&rt)?.collect(rt.alloc())?;
    let mut code = ExitCode::SUCCESS;
    for file in words.iter().skip(1) {
        if !try_file(&rt, file.as_str())? {
            code = ExitCode::FAILURE;
        }
    }
    Ok(code)
}
