//! What is said of a certificate's records.

ghost use Rattle.std.specs.Prelude.{◌≡◌, IfOk};
ghost use Rattle.tso_cert.specs.Trees.{tree_of};
ghost use Rattle.tso_verdict.specs.Counted.{IsToldIn};

use crate::between::counted_in;
use crate::call::{Reach, Reached};
use crate::coverage::{Coverage, Refused};
use crate::mark::{Mark, Marks};
use std::alloc::{AllocError, Global};
use std::fmt;
use tso_cert::Cert;
use tso_flow::Checked;
use tso_foot::Table;
use tso_line::CallKind;
use tso_list::Seq;
use tso_machine::calls_of;
use tso_prog::{Array, Client, Procedure};
use tso_rec::Grain;
use tso_survey::{LineShown, Shown};

/// An instruction by its line, with what records show of it.
#[derive(Clone, Copy, PartialEq, Eq)]
pub struct LineMark {
    /// From 1.
    pub line: u32,
    pub mark: Mark,
}

/// A call of the client, with how far it comes.
#[derive(Clone, Copy, PartialEq, Eq)]
pub struct ReachedCall {
    /// From 0; of the prologue's calls the number behind those of all threads.
    pub thread: usize,
    /// From 0.
    pub call: usize,
    pub kind: CallKind,
    pub is_of_prologue: bool,
    pub reach: Reach,
}

/// As `call 0 of thread 1 (pop)`.
impl fmt::Display for ReachedCall {
    fn fmt<W: fmt::Write>(&self, f: &mut fmt::Formatter<W>) -> fmt::Result {
        let (thread, call) = (self.thread, self.call);
        if self.is_of_prologue {
            write!(f, "call {call} of the prologue")?;
        } else {
            write!(f, "call {call} of thread {thread}")?;
        }
        match self.kind {
            CallKind::Push(word) => write!(f, " (push {word})"),
            CallKind::Pop => f.write_str(" (pop)"),
        }
    }
}

/// What is said of a certificate's records.
#[derive(Drop)]
pub struct Facts {
    /// Of crossings the states between records are counted too.
    pub grain: Grain,
    pub records: u64,
    /// How many records have an order of the calls.
    pub ends: u64,
    /// All instructions, those of push first.
    pub lines: Vec<LineMark>,
    /// The calls that have returned in no record.
    pub calls: Vec<ReachedCall>,
    pub refused: Refused,
    /// The names of the arrays in which an index went round.
    pub rounds: Vec<String>,
    pub most_items: usize,
}

// Adds the instructions of a procedure.
fn add_lines(
    lines: &mut Vec<LineMark>,
    procedure: &Procedure,
    marks: &Marks,
) -> Result<(), AllocError> {
    for (line, mark) in procedure
        .lines
        .as_slice()
        .iter()
        .zip(marks.marks.as_slice())
    {
        lines.push(LineMark {
            line: *line,
            mark: *mark,
        })?;
    }
    Ok(())
}

// The instructions of both procedures.
fn lines_of(
    alloc: Global,
    client: &Client,
    coverage: &Coverage,
) -> Result<Vec<LineMark>, AllocError> {
    let mut lines = Vec::new(alloc);
    add_lines(&mut lines, &client.push, &coverage.push)?;
    add_lines(&mut lines, &client.pop, &coverage.pop)?;
    Ok(lines)
}

// Adds the calls of a thread that have not returned.
fn add_calls(
    calls: &mut Vec<ReachedCall>,
    client: &Client,
    thread: usize,
    reached: &Reached,
) -> Result<(), AllocError> {
    let kinds = calls_of(client, thread);
    for (call, (kind, reach)) in kinds.iter().zip(reached.calls.as_slice()).enumerate() {
        if *reach != Reach::Returned {
            calls.push(ReachedCall {
                thread,
                call,
                kind: *kind,
                is_of_prologue: thread >= client.threads.len(),
                reach: *reach,
            })?;
        }
    }
    Ok(())
}

// The calls of all threads that have not returned.
fn calls_left(
    alloc: Global,
    client: &Client,
    threads: &[Reached],
) -> Result<Vec<ReachedCall>, AllocError> {
    let mut calls = Vec::new(alloc);
    for (thread, reached) in threads.iter().enumerate() {
        add_calls(&mut calls, client, thread, reached)?;
    }
    Ok(calls)
}

// The name of an array, whose bytes are ASCII.
fn name_of(alloc: Global, array: &Array) -> Result<String, AllocError> {
    let mut name = String::new(alloc);
    for byte in array.name.as_slice() {
        name.push(char::from(*byte))?;
    }
    Ok(name)
}

// The names of the arrays that are marked.
fn names_of(
    alloc: Global,
    arrays: &[Array],
    marked: &Seq<bool>,
) -> Result<Vec<String>, AllocError> {
    let mut names = Vec::new(alloc);
    for (array, is_marked) in arrays.iter().zip(marked.as_slice()) {
        if *is_marked {
            names.push(name_of(alloc, array)?)?;
        }
    }
    Ok(names)
}

// What a survey adds up of lines.
fn lines_shown(alloc: Global, lines: &[LineMark]) -> Result<Vec<LineShown>, AllocError> {
    let mut shown = Vec::new(alloc);
    for marked in lines {
        shown.push(LineShown {
            line: marked.line,
            is_met: marked.mark != Mark::NeverMet,
            is_cut: marked.mark == Mark::Cut,
        })?;
    }
    Ok(shown)
}

impl Facts {
    /// What was counted of a certificate of this grain of a client.
    ///
    /// Errors: where a growth was refused.
    pub fn of(
        alloc: Global,
        client: &Client,
        grain: Grain,
        coverage: &Coverage,
    ) -> Result<Facts, AllocError>
        ensures grain { IfOk result (λ facts. facts.grain ≡ grain) }
        ensures refused { IfOk result (λ facts. facts.refused ≡ coverage.now.refused) }
        ensures most { IfOk result (λ facts. facts.most_items ≡ coverage.now.most_items) }
    {
        Ok(Facts {
            grain,
            records: coverage.records,
            ends: coverage.ends,
            lines: lines_of(alloc, client, coverage)?,
            calls: calls_left(alloc, client, &coverage.threads)?,
            refused: coverage.refused,
            rounds: names_of(alloc, client.arrays.as_slice(), &coverage.rounds.arrays)?,
            most_items: coverage.most_items,
        })
    }

    /// What a certificate of this grain shows, whose table this is.
    ///
    /// Errors: where a growth was refused.
    pub fn counted(
        alloc: Global,
        checked: &Checked,
        grain: Grain,
        table: &Table,
        cert: &Cert,
    ) -> Result<Facts, AllocError>
        ensures { IfOk result (IsToldIn checked.now.client grain table.now (tree_of cert.now)) }
    {
        let coverage = counted_in(alloc, checked, grain, table, cert)?;
        Facts::of(alloc, &checked.client, grain, &coverage)
    }

    /// The same as a survey adds it up over clients: without how far this client's calls come.
    ///
    /// Errors: where an allocation failed.
    pub fn shown(self, alloc: Global) -> Result<Shown, AllocError> {
        let Facts {
            grain: _grain,
            records,
            ends: _ends,
            lines,
            calls,
            refused,
            rounds,
            most_items,
        } = self;
        drop(calls);
        Ok(Shown {
            clients: 1,
            records,
            lines: lines_shown(alloc, &lines)?,
            is_push_refused: refused.push,
            is_pop_refused: refused.pop,
            rounds,
            most_items,
        })
    }

    /// What records show of the instruction on a line, if there is one.
    pub fn mark_at(&self, line: usize) -> Option<Mark> {
        let found = self
            .lines
            .iter()
            .find(|marked| marked.line as usize == line)?;
        Some(found.mark)
    }
}
