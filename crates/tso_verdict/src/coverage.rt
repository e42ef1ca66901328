//! One pass over the records of a certificate.

ghost use Rattle.std.specs.Prelude.{◌≡◌, ◌||◌, false, [], IfOk, OnOk};
ghost use Rattle.std.specs.List.{list_any};
ghost use Rattle.tso_cert.specs.Lookup.{tree_states};
ghost use Rattle.tso_cert.specs.Trees.{records_of, tree_of};
ghost use Rattle.tso_verdict.specs.Calls.{has_refused, refused_in, refused_noted};
ghost use Rattle.tso_verdict.specs.Levels.{most_in, most_noted};
ghost use Rattle.tso_verdict.specs.Marks.{marks_of, noted_in, state_noted, thread_noted, threads_noted};
ghost use Rattle.tso_flow.specs.declared.location.ProcedureKind.TheVariants as procedures;
ghost use Rattle.tso_rec.specs.Records.{ends_of, states_of};

use crate::call::{Reached, any_refused};
use crate::mark::{Marks, mark_of};
use crate::order::most_items;
use crate::round::{Rounds, first_written, is_filled};
use std::alloc::{AllocError, Global};
use tso_cert::Cert;
use tso_flow::ProcedureKind;
use tso_hist::Call;
use tso_list::Seq;
use tso_machine::Frame;
use tso_prog::Client;
use tso_rec::{End, Packed};
use tso_state::{Core, State, Thread, running_procedure};

/// Whether calls were refused.
#[derive(Clone, Copy, PartialEq, Eq)]
pub struct Refused {
    pub push: bool,
    pub pop: bool,
}

impl Refused {
    // Notes the calls that have begun in a record.
    fn note(&mut self, history: &[Seq<Call>])
        ensures push { self.new.push ≡ (self.old.push || list_any (has_refused procedures.Push) history.now) }
        ensures pop { self.new.pop ≡ (self.old.pop || list_any (has_refused procedures.Pop) history.now) }
    {
        self.push = self.push || any_refused(ProcedureKind::Push, history);
        self.pop = self.pop || any_refused(ProcedureKind::Pop, history);
    }
}

/// What the records of a certificate show of a client.
#[derive(Drop)]
pub struct Coverage {
    /// How many records there are.
    pub records: u64,
    /// Of how many no actor has a step, and which have an order of the calls.
    pub ends: u64,
    pub push: Marks,
    pub pop: Marks,
    /// By threads, the prologue's last where there is one.
    pub threads: Vec<Reached>,
    pub refused: Refused,
    pub rounds: Rounds,
    /// How many items the queue has at the most, in the orders of the ends.
    pub most_items: usize,
}

// Of each thread of a client that none of its calls has begun.
fn threads_of(alloc: Global, client: &Client) -> Result<Vec<Reached>, AllocError> {
    let mut threads = Vec::new(alloc);
    for calls in client.threads.as_slice() {
        threads.push(Reached::new(alloc, calls.len())?)?;
    }
    if !client.prologue.is_empty() {
        threads.push(Reached::new(alloc, client.prologue.len())?)?;
    }
    Ok(threads)
}

// Notes how far the calls have come in a record.
fn note_calls(threads: &mut [Reached], history: &[Seq<Call>]) {
    for number in 0..threads.len().min(history.len()) {
        threads[number].note(history[number].as_slice());
    }
}

impl Coverage {
    ghost use Rattle.tso_verdict.specs.Counted.{AreCounted};

    // Without a record.
    fn new(alloc: Global, client: &Client) -> Result<Coverage, AllocError>
        ensures push { IfOk result (λ coverage. coverage.push.marks ≡ marks_of client.now procedures.Push []) }
        ensures pop { IfOk result (λ coverage. coverage.pop.marks ≡ marks_of client.now procedures.Pop []) }
        ensures push_refused { IfOk result (λ coverage. coverage.refused.push ≡ false) }
        ensures pop_refused { IfOk result (λ coverage. coverage.refused.pop ≡ false) }
        ensures most { IfOk result (λ coverage. coverage.most_items ≡ 0) }
    {
        Ok(Coverage {
            records: 0,
            ends: 0,
            push: Marks::new(alloc, client.push.instructions.len())?,
            pop: Marks::new(alloc, client.pop.instructions.len())?,
            threads: threads_of(alloc, client)?,
            refused: Refused {
                push: false,
                pop: false,
            },
            rounds: Rounds::new(alloc, client.arrays.len())?,
            most_items: 0,
        })
    }

    // Notes a call that runs in a record.
    fn note_frame(
        &mut self,
        client: &Client,
        state: &State,
        procedure: ProcedureKind,
        frame: &Frame,
    )
        ensures push { self.new.push.marks ≡ noted_in client.now procedures.Push procedure frame.now self.old.push.marks }
        ensures pop { self.new.pop.marks ≡ noted_in client.now procedures.Pop procedure frame.now self.old.pop.marks }
        ensures refused { self.new.refused ≡ self.old.refused }
        ensures most { self.new.most_items ≡ self.old.most_items }
    {
        let mark = mark_of(client, procedure, frame);
        match procedure {
            ProcedureKind::Push => {
                self.push.note(frame.pc, mark);
                self.note_round(client, state, frame);
            }
            ProcedureKind::Pop => self.pop.note(frame.pc, mark),
        }
    }

    // Notes the array in which the next instruction of a push goes round, if it does.
    fn note_round(&mut self, client: &Client, state: &State, frame: &Frame)
        ensures push { self.new.push ≡ self.old.push }
        ensures pop { self.new.pop ≡ self.old.pop }
        ensures refused { self.new.refused ≡ self.old.refused }
        ensures most { self.new.most_items ≡ self.old.most_items }
    {
        if let Some(array) = first_written(client, state.memory.as_slice(), frame) {
            if is_filled(client, state.history.threads(), array) {
                self.rounds.note(array);
            }
        }
    }

    // Notes a thread of a record, whose calls these are.
    fn note_thread(&mut self, client: &Client, state: &State, thread: &Thread, calls: &[Call])
        ensures push { self.new.push.marks ≡ thread_noted client.now procedures.Push thread.now calls.now self.old.push.marks }
        ensures pop { self.new.pop.marks ≡ thread_noted client.now procedures.Pop thread.now calls.now self.old.pop.marks }
        ensures refused { self.new.refused ≡ self.old.refused }
        ensures most { self.new.most_items ≡ self.old.most_items }
    {
        if let Core::Running(frame) = &thread.core {
            self.note_frame(client, state, running_procedure(calls), frame);
        }
    }

    // Notes threads of a record, with their calls.
    fn note_threads(
        &mut self,
        client: &Client,
        state: &State,
        threads: &[Thread],
        history: &[Seq<Call>],
    )
        ensures push { self.new.push.marks ≡ threads_noted client.now procedures.Push threads.now history.now self.old.push.marks }
        ensures pop { self.new.pop.marks ≡ threads_noted client.now procedures.Pop threads.now history.now self.old.pop.marks }
        ensures refused { self.new.refused ≡ self.old.refused }
        ensures most { self.new.most_items ≡ self.old.most_items }
    {
        let [thread, threads @ ..] = threads else {
            return;
        };
        if let [calls, history @ ..] = history {
            self.note_thread(client, state, thread, calls.as_slice());
            self.note_threads(client, state, threads, history);
        }
    }

    // Notes the state of a record.
    fn note_state(&mut self, client: &Client, state: &State)
        ensures push { self.new.push.marks ≡ state_noted client.now procedures.Push self.old.push.marks state.now }
        ensures pop { self.new.pop.marks ≡ state_noted client.now procedures.Pop self.old.pop.marks state.now }
        ensures push_refused { self.new.refused.push ≡ refused_noted procedures.Push self.old.refused.push state.now }
        ensures pop_refused { self.new.refused.pop ≡ refused_noted procedures.Pop self.old.refused.pop state.now }
        ensures most { self.new.most_items ≡ self.old.most_items }
    {
        self.records = self.records.saturating_add(1);
        self.note_passed(client, state);
    }

    /// Notes a state that has a record, or lies between records.
    pub fn note_passed(&mut self, client: &Client, state: &State)
        ensures push { self.new.push.marks ≡ state_noted client.now procedures.Push self.old.push.marks state.now }
        ensures pop { self.new.pop.marks ≡ state_noted client.now procedures.Pop self.old.pop.marks state.now }
        ensures push_refused { self.new.refused.push ≡ refused_noted procedures.Push self.old.refused.push state.now }
        ensures pop_refused { self.new.refused.pop ≡ refused_noted procedures.Pop self.old.refused.pop state.now }
        ensures most { self.new.most_items ≡ self.old.most_items }
    {
        let history = state.history.threads();
        self.note_threads(client, state, state.threads.as_slice(), history);
        note_calls(&mut self.threads, history);
        self.refused.note(history);
    }

    // Notes how a record ends.
    fn note_end(&mut self, end: &End)
        ensures push { self.new.push ≡ self.old.push }
        ensures pop { self.new.pop ≡ self.old.pop }
        ensures refused { self.new.refused ≡ self.old.refused }
        ensures most { self.new.most_items ≡ most_noted self.old.most_items end.now }
    {
        if let End::Order(order) = end {
            self.ends = self.ends.saturating_add(1);
            self.most_items = self.most_items.max(most_items(order.as_slice()));
        }
    }

    // Notes the records of a leaf.
    fn note_leaf(&mut self, client: &Client, records: &Packed) -> Result<(), AllocError>
        ensures { OnOk result (AreCounted client.now self.old (states_of records.now) (ends_of records.now) self.new) }
    {
        for number in 0..records.len() {
            let state = records.state(number)?;
            self.note_state(client, &state);
            self.note_end(records.end(number));
        }
        Ok(())
    }

    // Notes the records of a tree.
    fn note_tree(&mut self, client: &Client, cert: &Cert) -> Result<(), AllocError>
        ensures { OnOk result (AreCounted client.now self.old (tree_states (tree_of cert.now)) (ends_of (records_of (tree_of cert.now))) self.new) }
    {
        match cert {
            Cert::Leaf(records) => self.note_leaf(client, records),
            Cert::Fork(left, _, right) => {
                self.note_tree(client, left)?;
                self.note_tree(client, right)?;
                Ok(())
            }
        }
    }
}

/// What the records of a certificate show of a client: counted in one pass over them.
///
/// Errors: where a growth was refused.
pub fn counted(alloc: Global, client: &Client, cert: &Cert) -> Result<Coverage, AllocError>
    ensures push { IfOk result (λ coverage. coverage.push.marks ≡ marks_of client.now procedures.Push (tree_states (tree_of cert.now))) }
    ensures pop { IfOk result (λ coverage. coverage.pop.marks ≡ marks_of client.now procedures.Pop (tree_states (tree_of cert.now))) }
    ensures push_refused { IfOk result (λ coverage. coverage.refused.push ≡ refused_in procedures.Push (tree_states (tree_of cert.now))) }
    ensures pop_refused { IfOk result (λ coverage. coverage.refused.pop ≡ refused_in procedures.Pop (tree_states (tree_of cert.now))) }
    ensures most { IfOk result (λ coverage. coverage.most_items ≡ most_in (ends_of (records_of (tree_of cert.now)))) }
{
    let mut coverage = Coverage::new(alloc, client)?;
    coverage.note_tree(client, cert)?;
    Ok(coverage)
}
