//! `tsoq-check`: decides certificates of lock-free ring queues under x86-TSO.
#![tactic(auto)]

use std::process::ExitCode;
use std::thread::Builder;
use std::{io, process};
use tso_front::HostFiles;
use tso_verdict::run_check_process;

// Certificates are trees, gone through by recursion: this is enough for all that are allowed, whatever the stack of the main thread is.
const STACK: usize = 1_048_576;

fn main(rt: HostRuntime) -> ExitCode {
    let process = process::id(rt.process());
    let run = move || {
        let mut files = HostFiles { rt: &rt, process };
        let mut err = rt.stderr();
        run_check_process(&rt, &rt, &mut files, io::writer(&rt), &mut err)
    };
    match Builder::new().stack_size(STACK).spawn(&rt, run) {
        Ok(thread) => ExitCode::from(thread.join(&rt)),
        Err(_) => ExitCode::from(run()),
    }
}
