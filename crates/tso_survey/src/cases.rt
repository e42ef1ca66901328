//! Clients and their texts.

use crate::calls::{Calls, Numbering};
use crate::plan::Plan;
use crate::words::{Asking, Part};
use std::alloc::Global;
use tso_front::{Failure, TEXT_BYTES};

/// Clients, and the texts that they are the clients of.
#[derive(Drop)]
pub struct Cases {
    pub calls: Vec<Calls>,
    pub texts: Vec<Vec<u8>>,
}

/// The text with these calls in place of its own.
///
/// Errors: `Usage` where they are no calls; `Memory`.
pub fn text_of(
    alloc: Global,
    base: &[u8],
    asking: &Asking<'_>,
    calls: &Calls,
) -> Result<Vec<u8>, Failure> {
    let text = Vec::from_slice(alloc, base)?;
    calls.variant(asking.mode).applied(alloc, text)
}

impl Cases {
    /// No client.
    pub fn new(alloc: Global) -> Cases {
        Cases {
            calls: Vec::new(alloc),
            texts: Vec::new(alloc),
        }
    }

    /// Puts a client at the end.
    ///
    /// Errors: those of `text_of`.
    pub fn put(
        &mut self,
        alloc: Global,
        base: &[u8],
        asking: &Asking<'_>,
        calls: Calls,
    ) -> Result<(), Failure> {
        self.texts.push(text_of(alloc, base, asking, &calls)?)?;
        self.calls.push(calls)?;
        Ok(())
    }

    // Puts one that a plan has at the end.
    fn put_planned(
        &mut self,
        alloc: Global,
        base: &[u8],
        asking: &Asking<'_>,
        calls: Calls,
    ) -> Result<(), Failure> {
        match self.put(alloc, base, asking, calls) {
            Err(Failure::Usage(_)) => Err(no_room(alloc, asking)),
            put => put,
        }
    }

    /// Those that a plan searches, and of these the ones of a part.
    ///
    /// Errors: those of `text_of`.
    pub fn planned(
        alloc: Global,
        base: &[u8],
        asking: &Asking<'_>,
        plan: &Plan,
    ) -> Result<Cases, Failure> {
        let mut cases = Cases::new(alloc);
        for (number, asked) in plan.largest.iter().enumerate() {
            if is_taken(asking.part, number) {
                let calls = asked.calls(alloc, &plan.words, Numbering::Larger)?;
                cases.put_planned(alloc, base, asking, calls)?;
            }
        }
        Ok(cases)
    }

    /// Those of a list, a line each.
    ///
    /// Errors: `Usage` where a line is no client; `Memory`.
    pub fn listed(
        alloc: Global,
        base: &[u8],
        asking: &Asking<'_>,
        list: &str,
    ) -> Result<Cases, Failure> {
        let mut cases = Cases::new(alloc);
        match cases.put_lines(alloc, base, asking, list) {
            Ok(()) => Ok(cases),
            Err(failure) => {
                drop(cases);
                Err(failure)
            }
        }
    }

    // Puts those of a list at the end, a line each.
    fn put_lines(
        &mut self,
        alloc: Global,
        base: &[u8],
        asking: &Asking<'_>,
        list: &str,
    ) -> Result<(), Failure> {
        for (number, line) in list.lines().enumerate() {
            if !line.trim().is_empty() {
                self.put_numbered(alloc, base, asking, line, number.saturating_add(1))?;
            }
        }
        Ok(())
    }

    // Puts that of a line at the end, which has this number.
    fn put_numbered(
        &mut self,
        alloc: Global,
        base: &[u8],
        asking: &Asking<'_>,
        line: &str,
        number: usize,
    ) -> Result<(), Failure> {
        let calls = Calls::of_line(alloc, line)?;
        match self.put(alloc, base, asking, calls) {
            Err(Failure::Usage(_)) => Err(no_client(alloc, asking, number)),
            put => put,
        }
    }
}

// That a text is too long for the calls of a client.
fn no_room(alloc: Global, asking: &Asking<'_>) -> Failure {
    let program = asking.program;
    let text = format!(in alloc;
        "{program}: with the calls of a client the program text has more than {TEXT_BYTES} bytes\n"
    );
    match text {
        Ok(text) => Failure::Usage(text),
        Err(_) => Failure::Memory,
    }
}

// That a line of a list is no client.
fn no_client(alloc: Global, asking: &Asking<'_>, number: usize) -> Failure {
    let list = asking.clients.unwrap_or("LIST");
    let text = format!(in alloc;
        "line {number} of {list} is no client, as `push 1, push 2 | pop` is, or `before push 7: pop | pop`\n"
    );
    match text {
        Ok(text) => Failure::Usage(text),
        Err(_) => Failure::Memory,
    }
}

/// Whether the client with this number, from 0, is one of the part; all are where there is none.
pub fn is_taken(part: Option<Part>, number: usize) -> bool {
    match part {
        Some(part) => part.has(number),
        None => true,
    }
}
