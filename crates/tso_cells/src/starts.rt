//! The intervals at first instructions.

ghost use Rattle.std.specs.Prelude.{◌≡◌, ◌↔◌, All, IsTrue};
ghost use Rattle.tso_cells.specs.Inductive.{AreStarts, HasArgument, HasZero, HaveArguments, HaveZeros, registers_at};
ghost use Rattle.tso_flow.specs.Calls.{calls_of_client};
ghost use Rattle.tso_cells.specs.IntervalLaws.{AreFirst};

use crate::interval::{ALL_WORDS, Interval};
use crate::moving::register_number;
use crate::table::{IntervalTable, Item};
use tso_list::Seq;
use tso_prog::{CallKind, Client, Register};

/// The intervals at a position; behind the last item each has all words.
pub fn registers_at(items: &[Item], position: usize) -> [Interval; 15]
    ensures { result ≡ registers_at items.now position }
{
    match items.get(position) {
        Some(item) => item.registers,
        None => [ALL_WORDS; 15],
    }
}

// Whether the interval of a register has 0, unless it is RDI.
fn has_zero(number: usize, interval: Interval) -> bool
    ensures { IsTrue result ↔ HasZero number interval }
{
    number == register_number(Register::Rdi) || interval.has(0)
}

fn have_zeros(registers: &[Interval]) -> bool
    ensures { IsTrue result ↔ HaveZeros registers.now }
{
    for (n, interval) in registers.iter().enumerate() {
        if !has_zero(n, *interval) {
            return false;
        }
    }
    true
}

// Whether they have what a call begins with: a word in RDI, and 0 in each other register.
fn are_first(registers: &[Interval; 15], word: u64) -> bool
    ensures { IsTrue result ↔ AreFirst registers.now word }
{
    registers[register_number(Register::Rdi)].has(word) && have_zeros(registers)
}

// Whether they have what a call begins with. Those of pops are looked at once for all.
fn has_argument(registers: &[Interval; 15], call: CallKind) -> bool
    ensures { IsTrue result ↔ HasArgument registers.now call }
{
    match call {
        CallKind::Push(argument) => are_first(registers, argument),
        CallKind::Pop => true,
    }
}

fn have_arguments(registers: &[Interval; 15], calls: &[CallKind]) -> bool
    ensures { IsTrue result ↔ All (HasArgument registers.now) calls.now }
{
    calls.iter().all(|call| has_argument(registers, *call))
}

fn have_arguments_of_threads(registers: &[Interval; 15], threads: &[Seq<CallKind>]) -> bool
    ensures { IsTrue result ↔ All (λ calls. All (HasArgument registers.now) calls) threads.now }
{
    threads
        .iter()
        .all(|calls| have_arguments(registers, calls.as_slice()))
}

// Whether they have what each push of the client begins with, its prologue's among them.
fn have_arguments_of_client(registers: &[Interval; 15], client: &Client) -> bool
    ensures { IsTrue result ↔ HaveArguments registers.now (calls_of_client client.now) }
{
    have_arguments_of_threads(registers, client.threads.as_slice())
        && have_arguments(registers, client.prologue.as_slice())
}

// Whether the intervals at the first instructions have what the client's calls begin with.
pub(crate) fn are_starts(client: &Client, table: &IntervalTable) -> bool
    ensures { IsTrue result ↔ AreStarts client.now table.now }
{
    let push = registers_at(table.push.as_slice(), 0);
    let pop = registers_at(table.pop.as_slice(), 0);
    have_zeros(&push) && have_arguments_of_client(&push, client) && are_first(&pop, 0)
}
