//! Which call a case is.

use crate::{choices, judged, leaf, meetings, parted, runs, ticket};
use std::alloc::Global;
use std::rt::Files;
use std::sync::Wait;
use std::thread::Threads;
use tso_calls::{Failure, client_of, file_at, number_at, word};
use tso_flow::Checked;

// Makes a call that needs no file and no thread. Whether the case is one.
fn answer_alone(alloc: Global, call: &str, out: &mut String) -> Result<bool, Failure> {
    if ticket::answer(alloc, call, out)? {
        return Ok(true);
    }
    tso_calls::answer(alloc, call, out)
}

// Makes a call on a client alone. Whether the case is one.
fn answer_of_client(
    alloc: Global,
    checked: &Checked,
    call: &str,
    out: &mut String,
) -> Result<bool, Failure> {
    if tso_calls::answer_of_client(alloc, checked, call, out)? {
        return Ok(true);
    }
    if choices::answer(alloc, checked, call, out)? {
        return Ok(true);
    }
    judged::answer(alloc, checked, call, out)
}

// Makes a call on a client with workers.
fn answer_by_workers<R: Threads + Wait + Sync>(
    rt: &R,
    alloc: Global,
    checked: &Checked,
    call: &str,
    out: &mut String,
) -> Result<(), Failure> {
    match word(call, 0) {
        "all_runs" => runs::put_runs(rt, alloc, checked, out),
        "two_workers_search" => meetings::put_two_search(rt, alloc, checked, out),
        "search" => {
            let (workers, limit) = (number_at(call, 2)?, number_at(call, 3)?);
            meetings::put_search(rt, alloc, checked, workers, limit, out)
        }
        "pool" => {
            let (workers, units) = (number_at(call, 2)?, number_at(call, 3)?);
            meetings::put_pool(rt, alloc, checked, workers, units, out)
        }
        _ => Err(Failure::Unreadable),
    }
}

// Makes a call on a program's text and the bytes of a certificate.
fn answer_of_files<R: Files + AllocGlobal + Threads + Wait + Sync>(
    rt: &R,
    call: &str,
    out: &mut String,
) -> Result<(), Failure> {
    let alloc = rt.alloc();
    let program = file_at(rt, call, 1)?;
    let cert = file_at(rt, call, 2)?;
    match word(call, 0) {
        "check" => meetings::put_check(alloc, &program, &cert, out),
        "check_client" => meetings::put_check_client(alloc, &program, &cert, out),
        "check_parts" => {
            let (size, workers) = (number_at(call, 3)?, number_at(call, 4)?);
            parted::put_check_parts(rt, alloc, &program, &cert, size, workers, out)
        }
        "leaf" => leaf::put_records(alloc, &program, &cert, call, out),
        _ => meetings::put_two_check(rt, alloc, &program, &cert, out),
    }
}

// Makes a call on a client.
fn answer_of_checked<R: Threads + Wait + Sync>(
    rt: &R,
    alloc: Global,
    checked: &Checked,
    call: &str,
    out: &mut String,
) -> Result<(), Failure> {
    if answer_of_client(alloc, checked, call, out)? {
        return Ok(());
    }
    answer_by_workers(rt, alloc, checked, call, out)
}

// Makes a call on the client of a program's text.
fn answer_of_program<R: Files + AllocGlobal + Threads + Wait + Sync>(
    rt: &R,
    call: &str,
    out: &mut String,
) -> Result<(), Failure> {
    let alloc = rt.alloc();
    let program = file_at(rt, call, 1)?;
    let checked = client_of(alloc, &program)?;
    answer_of_checked(rt, alloc, &checked, call, out)
}

/// Makes the call of a case, and writes what it finds.
pub fn answer<R: Files + AllocGlobal + Threads + Wait + Sync>(
    rt: &R,
    call: &str,
    out: &mut String,
) -> Result<(), Failure> {
    let alloc = rt.alloc();
    match word(call, 0) {
        "check" | "check_client" | "check_parts" | "leaf" | "two_workers_check" => {
            answer_of_files(rt, call, out)
        }
        "two_workers_find" => ticket::put_found_by_two(rt, alloc, call, out),
        "workers" => meetings::put_workers(number_at(call, 1)?, out),
        _ => {
            if answer_alone(alloc, call, out)? {
                return Ok(());
            }
            answer_of_program(rt, call, out)
        }
    }
}
