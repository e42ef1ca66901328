//! A program as far as its lines were read, and what is wrong with the next line.

ghost use Rattle.std.specs.Prelude.{◌≡◌, ◌≤◌, position, OnOk, None};
ghost use Rattle.tso_line.specs.Instructions.{renamed};
ghost use Rattle.tso_prog.specs.After.{after, numbered, number_or_0, with_label, with_step};
ghost use Rattle.std.specs.Str.{bytes_eq};
ghost use Rattle.tso_line.specs.Lines.{view};
ghost use Rattle.tso_prog.specs.Contents.{opened};
ghost use Rattle.tso_prog.specs.Faults.{may_stand, fault_at, is_in_part, repeats, lacks_array, passes_calls, passes_limit, array_number};

use crate::fault::Code;
use crate::named::{Labels, Target};
use std::alloc::{AllocError, Global};
use tso_line::{CallKind, Instruction, Kind, Line, Mode, Slip};
use tso_list::Seq;

/// What comes next.
#[derive(Clone, Copy, PartialEq, Eq)]
pub enum Part {
    Capacity,
    Mode,
    Arrays,
    Push,
    Between,
    Pop,
    /// The prologue, or the first thread.
    Prologue,
    Threads,
}

/// An array with its first words.
#[derive(Drop)]
pub struct Declared<'a> {
    pub name: &'a [u8],
    pub words: Seq<u64>,
}

/// An instruction whose label is a name, and its line.
#[derive(Clone, Copy)]
pub struct Unresolved<'a> {
    pub instruction: Instruction<usize, &'a [u8]>,
    pub line: u32,
}

/// A procedure so far.
#[derive(Drop)]
pub struct Body<'a> {
    pub labels: Labels<'a>,
    pub steps: Vec<Unresolved<'a>>,
}

#[derive(Drop)]
pub struct Draft<'a> {
    pub part: Part,
    pub capacity: u8,
    pub mode: Mode,
    pub arrays: Vec<Declared<'a>>,
    pub word_count: usize,
    pub push: Body<'a>,
    pub pop: Body<'a>,
    pub prologue: Seq<CallKind>,
    pub threads: Seq<Seq<CallKind>>,
    pub call_count: usize,
    ghost few_words: { word_count ≤ 256 },
    ghost few_calls: { call_count ≤ 12 },
}

const MAX_ARRAYS: usize = 16;

const MAX_WORDS: usize = 256;

const MAX_INSTRUCTIONS: usize = 256;

const MAX_THREADS: usize = 4;

const MAX_CALLS_OF_LINE: usize = 4;

const MAX_CALLS: usize = 12;

const MAX_NAME: usize = 32;

// Whether a line of this kind may come in this part.
fn may_stand(part: Part, kind: Kind) -> bool
    ensures { result ≡ may_stand part kind }
{
    match part {
        Part::Capacity => matches!(kind, Kind::Capacity),
        Part::Mode => matches!(kind, Kind::Mode),
        Part::Arrays => matches!(kind, Kind::Array | Kind::Push),
        Part::Push | Part::Pop => matches!(kind, Kind::Target | Kind::Instruction | Kind::End),
        Part::Between => matches!(kind, Kind::Pop),
        Part::Prologue => matches!(kind, Kind::Before | Kind::Thread),
        Part::Threads => matches!(kind, Kind::Thread),
    }
}

impl<'a> Body<'a> {
    ghost use Rattle.tso_prog.specs.Content.{body_view, step_view};

    // A label before the next instruction.
    fn add_label(&mut self, name: &'a [u8]) -> Result<(), AllocError>
        ensures { OnOk result (body_view self.new ≡ with_label (body_view self.old) name.now) }
    {
        let at = self.steps.len();
        self.labels.push(Target { name, at })?;
        Ok(())
    }

    fn add_step(&mut self, step: Unresolved<'a>) -> Result<(), AllocError>
        ensures { OnOk result (body_view self.new ≡ with_step (body_view self.old) (step_view step.entry)) }
    {
        self.steps.push(step)?;
        Ok(())
    }
}

// The number of the array of this name.
fn find_array(arrays: &[Declared], name: &[u8]) -> Option<usize>
    ensures { result ≡ position (λ a. bytes_eq a.name.now name.now) arrays.now }
{
    arrays.iter().position(|array| array.name == name)
}

impl<'a> Draft<'a> {
    ghost use Rattle.tso_prog.specs.Content.{content, body_view};
    ghost use Rattle.tso_prog.specs.Start.{start};

    pub fn new(alloc: Global) -> Draft<'a>
        ensures { content result ≡ start }
    {
        Draft {
            part: Part::Capacity,
            capacity: 0,
            mode: Mode::Strict,
            arrays: Vec::new(alloc),
            word_count: 0,
            push: Body {
                labels: Labels::new(alloc),
                steps: Vec::new(alloc),
            },
            pop: Body {
                labels: Labels::new(alloc),
                steps: Vec::new(alloc),
            },
            prologue: Seq::new(alloc),
            threads: Seq::new(alloc),
            call_count: 0,
        }
    }

    // The procedure that the lines are in.
    fn open(&self) -> &Body<'a>
        ensures { body_view result.now ≡ opened (content self.now) }
    {
        match self.part {
            Part::Pop => &self.pop,
            _ => &self.push,
        }
    }

    // Whether the line may stand here.
    fn is_in_part(&self, line: &Line) -> bool
        ensures { result ≡ is_in_part (content self.now) (view line.now) }
    {
        match line.kind() {
            None => false,
            Some(Kind::End) => may_stand(self.part, Kind::End) && !self.open().steps.is_empty(),
            Some(kind) => may_stand(self.part, kind),
        }
    }

    // The number of the array of this name.
    #[tactic(auto, using(crate::proofs::Maps::position_map))]
    fn array_number(&self, name: &[u8]) -> Option<usize>
        ensures { result ≡ array_number (content self.now) name.now }
    {
        find_array(&self.arrays, name)
    }

    // Whether the line gives a name for the second time.
    #[tactic(auto, using(crate::proofs::Maps::list_any_map), unfolding(crate::specs::Faults::repeats))]
    fn repeats(&self, line: &Line) -> bool
        ensures { result ≡ repeats (content self.now) (view line.now) }
    {
        match line {
            Line::Array { name, .. } => self.array_number(name).is_some(),
            Line::Target(name) => self.open().labels.contains(name),
            _ => false,
        }
    }

    // Whether the line names an array that is not there.
    #[tactic(auto, unfolding(crate::specs::Faults::lacks_array))]
    fn lacks_array(&self, line: &Line) -> bool
        ensures { result ≡ lacks_array (content self.now) (view line.now) }
    {
        match line {
            Line::Instruction { instruction, .. } => match instruction.address() {
                Some(address) => self.array_number(address.array).is_none(),
                None => false,
            },
            _ => false,
        }
    }

    // Whether a line of so many calls passes a limit.
    fn passes_calls(&self, count: usize) -> bool
        ensures { result ≡ passes_calls (content self.now) count }
    {
        count > MAX_CALLS_OF_LINE || count > MAX_CALLS - self.call_count
    }

    // Whether the line passes a limit.
    #[tactic(auto, unfolding(crate::specs::Faults::passes_limit))]
    fn passes_limit(&self, line: &Line) -> bool
        ensures { result ≡ passes_limit (content self.now) (view line.now) }
    {
        match line {
            Line::Array { name, words } => {
                self.arrays.len() >= MAX_ARRAYS
                    || words.len() > MAX_WORDS - self.word_count
                    || name.len() > MAX_NAME
            }
            Line::Target(name) => name.len() > MAX_NAME,
            Line::Instruction { instruction, .. } => {
                self.push.steps.len() + self.pop.steps.len() >= MAX_INSTRUCTIONS
                    || instruction
                        .label()
                        .is_some_and(|name| name.len() > MAX_NAME)
            }
            Line::Before(calls) => self.passes_calls(calls.len()),
            Line::Thread(calls) => {
                self.threads.as_slice().len() >= MAX_THREADS || self.passes_calls(calls.len())
            }
            _ => false,
        }
    }

    /// The lowest code of what is wrong with the line here.
    #[tactic(auto, unfolding(crate::specs::Faults::fault_at))]
    pub fn fault(&self, line: &Line) -> Option<Code>
        ensures { result ≡ fault_at (content self.now) (view line.now) }
    {
        if !self.is_in_part(line) {
            return Some(Code::E03);
        }
        match line.slip() {
            Some(Slip::Count) => return Some(Code::E03),
            Some(Slip::Word) => return Some(Code::E04),
            Some(Slip::Number) => return Some(Code::E05),
            None => {}
        }
        if self.repeats(line) {
            Some(Code::E06)
        } else if self.lacks_array(line) {
            Some(Code::E07)
        } else if self.passes_limit(line) {
            Some(Code::E09)
        } else if line.lacks_lock() {
            Some(Code::E10)
        } else {
            None
        }
    }

    // The instruction with its array as a number.
    fn resolved(&self, instruction: Instruction<&'a [u8], &'a [u8]>) -> Instruction<usize, &'a [u8]>
        ensures { renamed (λ a. a) (λ l. l.now) result ≡ numbered (content self.now) (renamed (λ a. a.now) (λ l. l.now) instruction.entry) }
    {
        let array = match instruction.address() {
            Some(address) => self.array_number(address.array).unwrap_or(0),
            None => 0,
        };
        let label = instruction.label().unwrap_or(&[]);
        instruction.with_names(array, label)
    }

    /// Adds a line that has no fault here. After an `Err` the draft is some program.
    #[tactic(auto, unfolding(crate::specs::Faults::fault_at, crate::specs::Faults::passes_limit))]
    pub fn take(&mut self, number: u32, line: Line<'a>) -> Result<(), AllocError>
        requires { fault_at (content self.old) (view line) ≡ None }
        ensures { OnOk result (content self.new ≡ after (content self.old) number (view line.entry)) }
    {
        match line {
            Line::Misshapen | Line::Wrong(..) => {}
            Line::Capacity(capacity) => {
                self.capacity = capacity;
                self.part = Part::Mode;
            }
            Line::Mode(mode) => {
                self.mode = mode;
                self.part = Part::Arrays;
            }
            Line::Array { name, words } => {
                let count = words.len();
                self.arrays.push(Declared { name, words })?;
                self.word_count += count;
            }
            Line::Push => self.part = Part::Push,
            Line::Pop => self.part = Part::Pop,
            Line::End => {
                self.part = match self.part {
                    Part::Pop => Part::Prologue,
                    _ => Part::Between,
                };
            }
            Line::Target(name) => {
                match self.part {
                    Part::Pop => self.pop.add_label(name)?,
                    _ => self.push.add_label(name)?,
                }
            }
            Line::Instruction { instruction, .. } => {
                let step = Unresolved {
                    instruction: self.resolved(instruction),
                    line: number,
                };
                match self.part {
                    Part::Pop => self.pop.add_step(step)?,
                    _ => self.push.add_step(step)?,
                }
            }
            Line::Before(calls) => {
                self.call_count += calls.len();
                self.prologue = calls;
                self.part = Part::Threads;
            }
            Line::Thread(calls) => {
                let count = calls.len();
                self.threads.push(calls)?;
                self.call_count += count;
                self.part = Part::Threads;
            }
        }
        Ok(())
    }
}
