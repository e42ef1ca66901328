//! A program after its last line.

ghost use Rattle.std.specs.Prelude.{◌≡◌, ℕ, ◌≤◌, ◌++◌, ◌∷◌, [], length, map, find, IfOk, IsTrue};
ghost use Rattle.std.specs.List.{list_all};
ghost use Rattle.std.specs.Option.{option_map};
ghost use Rattle.std.specs.Str.{bytes_eq};
ghost use Rattle.tso_prog.specs.Content.{content, array_view, target_view, body_view, step_view};
ghost use Rattle.tso_prog.specs.Client.{client};
ghost use Rattle.tso_prog.specs.Program.{Gives};
ghost use Rattle.tso_prog.specs.Finish.{labelled_step, labelled, labelled_body, line_numbers, client_or_fault, target_position};
ghost use Rattle.tso_prog.specs.Limited.{IsProcedure, IsLimited, IsPrintable, is_step};
ghost use Rattle.tso_prog.specs.Limits.{are_arrays_below};

use crate::client::{Array, Client, Procedure, Step};
use crate::draft::{Body, Declared, Draft, Part, Unresolved};
use crate::fault::{Code, Fault, ReadError};
use crate::named::Target;
use std::alloc::{AllocError, Global};
use tso_list::Seq;

// The instruction before which the label of this name stands.
fn position_of(labels: &[Target], name: &[u8]) -> Option<usize>
    ensures { result ≡ option_map (λ l. l.at) (find (λ l. bytes_eq l.name.now name.now) labels.now) }
{
    labels
        .iter()
        .find(|label| label.name == name)
        .map(|label| label.at)
}

#[tactic(auto, using(crate::proofs::Labels::target_position_is))]
fn target_position(labels: &[Target], name: &[u8]) -> Option<usize>
    ensures { result ≡ target_position (map target_view labels.now) name.now }
{
    position_of(labels, name)
}

// The instruction with its label as a position.
fn with_position(labels: &[Target], step: &Unresolved) -> Result<Step, ReadError>
    ensures { Gives (λ s. s) result (labelled_step (map target_view labels.now) (step_view step.now)) }
{
    let target = match step.instruction.label() {
        Some(name) => match target_position(labels, name) {
            Some(position) => position,
            None => {
                return Err(ReadError::Refused(Fault {
                    code: Code::E07,
                    line: step.line,
                }));
            }
        },
        None => 0,
    };
    let array = match step.instruction.address() {
        Some(address) => address.array,
        None => 0,
    };
    Ok(step.instruction.with_names(array, target))
}

// The instructions of a procedure with their labels as positions.
fn with_positions(alloc: Global, body: &Body) -> Result<Vec<Step>, ReadError>
    ensures { Gives (λ v. v.items) result (labelled (map target_view body.now.labels) (map step_view body.now.steps.items)) }
{
    let mut steps = Vec::new(alloc);
    for step in &body.steps {
        steps.push(with_position(body.labels.as_slice(), step)?)?;
    }
    Ok(steps)
}

// The lines of a procedure's instructions.
fn numbers_of(alloc: Global, steps: &[Unresolved]) -> Result<Vec<u32>, AllocError>
    ensures { IfOk result (λ v. v.items ≡ map (λ s. s.line) steps.now) }
{
    steps.iter().map(|step| step.line).collect(alloc)
}

// The procedure with its labels as positions.
fn procedure_of(alloc: Global, body: &Body) -> Result<Procedure, ReadError>
    requires limited { IsProcedure (body_view body.now) }
    requires nonempty { 1 ≤ length (body_view body.now).steps }
    requires steps { (count : ℕ) × IsTrue (list_all (is_step count) (body_view body.now).steps) }
    ensures arrays { (n : ℕ) → IsTrue (list_all (is_step n) (body_view body.now).steps) → IfOk result (λ p. IsTrue (are_arrays_below n p.instructions)) }
    ensures instructions { Gives (λ p. p.instructions) result (labelled_body (body_view body.now)) }
    ensures lines { IfOk result (λ p. p.lines ≡ line_numbers (body_view body.now)) }
{
    let steps = with_positions(alloc, body)?;
    let numbers = numbers_of(alloc, &body.steps)?;
    Ok(Procedure {
        instructions: Seq::from_vec(steps),
        lines: Seq::from_vec(numbers),
    })
}

// The arrays with names of their own.
fn arrays_of(alloc: Global, declared: &[Declared]) -> Result<Vec<Array>, AllocError>
    ensures { IfOk result (λ v. v.items ≡ map array_view declared.now) }
{
    let mut arrays = Vec::new(alloc);
    for array in declared {
        arrays.push(Array {
            name: Seq::from_vec(Vec::from_slice(alloc, array.name)?),
            words: Seq::from_vec(Vec::from_slice(alloc, array.words.as_slice())?),
        })?;
    }
    Ok(arrays)
}

impl Draft<'_> {
    /// The client of a whole text.
    #[tactic(auto, unfolding(crate::specs::Finish::client_or_fault))]
    pub fn finish(self, alloc: Global) -> Result<Client, ReadError>
        requires limited { IsLimited (content self) }
        requires printable { IsPrintable (content self) }
        ensures exact { Gives client result (client_or_fault (content self.entry)) }
        ensures lines { IfOk result (λ c. (c.push.lines ≡ line_numbers (content self.entry).push) × (c.pop.lines ≡ line_numbers (content self.entry).pop)) }
    {
        if !matches!(self.part, Part::Threads) || self.threads.as_slice().is_empty() {
            return Err(ReadError::Refused(Fault {
                code: Code::E08,
                line: 0,
            }));
        }
        let push = procedure_of(alloc, &self.push)?;
        let pop = procedure_of(alloc, &self.pop)?;
        let arrays = arrays_of(alloc, &self.arrays)?;
        Ok(Client {
            capacity: self.capacity,
            mode: self.mode,
            arrays: Seq::from_vec(arrays),
            push,
            pop,
            prologue: self.prologue,
            threads: self.threads,
        })
    }
}
