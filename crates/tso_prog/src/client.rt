//! What a program text denotes.

ghost use Rattle.std.specs.Prelude.{◌≡◌, ◌+◌, ◌<◌, ◌≤◌, length, map, sum_by, IsTrue};
ghost use Rattle.std.specs.List.{list_all};
ghost use Rattle.tso_prog.specs.Limits.{are_bounds_small, are_targets_within, are_in_range, are_arrays_below, are_distinct, are_words, is_short_name, is_prologue, is_thread};

use tso_line::{CallKind, Instruction, Mode};
use tso_list::Seq;

/// An array of words, with its name and what it holds at first.
#[derive(Drop)]
pub struct Array {
    pub name: Seq<u8>,
    pub words: Seq<u64>,
}

/// An instruction whose array is its number in the list of arrays, and whose label is the position of an instruction.
pub type Step = Instruction<usize, usize>;

/// The instructions of push or of pop, each with the line that it stands on.
#[derive(Drop)]
pub struct Procedure {
    pub instructions: Seq<Step>,
    pub lines: Seq<u32>,
    ghost each_has_line: { length lines ≡ length instructions },
    ghost small_bounds: { IsTrue (are_bounds_small instructions) },
    ghost targets_within: { IsTrue (are_targets_within (length instructions) instructions) },
    ghost nonempty: { 1 ≤ length instructions },
    ghost in_range: { IsTrue (are_in_range instructions) },
}

/// A program: the queue's capacity and mode, its arrays and procedures, and the calls of each thread.
#[derive(Drop)]
pub struct Client {
    /// From 1 to 16.
    pub capacity: u8,
    pub mode: Mode,
    /// At most 16, of at most 256 words in all.
    pub arrays: Seq<Array>,
    pub push: Procedure,
    pub pop: Procedure,
    /// The calls that run alone, and are drained, before any thread starts; empty where the text has none.
    pub prologue: Seq<CallKind>,
    /// From 1 to 4 threads.
    pub threads: Seq<Seq<CallKind>>,
    ghost few_arrays: { length arrays ≤ 16 },
    ghost few_words: { sum_by (λ a. length a.words) arrays ≤ 256 },
    ghost few_instructions: { length push.instructions + length pop.instructions ≤ 256 },
    ghost few_threads: { length threads ≤ 4 },
    ghost few_calls: { length prologue + sum_by (λ calls. length calls) threads ≤ 12 },
    ghost some_capacity: { 1 ≤ capacity },
    ghost small_capacity: { capacity ≤ 16 },
    ghost short_names: { IsTrue (list_all (λ a. is_short_name a.name) arrays) },
    ghost distinct_names: { IsTrue (are_distinct (map (λ a. a.name) arrays)) },
    ghost arrays_of_words: { IsTrue (list_all (λ a. are_words a.words) arrays) },
    ghost arrays_of_push: { IsTrue (are_arrays_below (length arrays) push.instructions) },
    ghost arrays_of_pop: { IsTrue (are_arrays_below (length arrays) pop.instructions) },
    ghost short_prologue: { IsTrue (is_prologue prologue) },
    ghost some_threads: { 1 ≤ length threads },
    ghost short_threads: { IsTrue (list_all is_thread threads) },
}
