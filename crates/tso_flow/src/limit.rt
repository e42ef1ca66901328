//! How many steps the calls of a client can take.

ghost use Rattle.std.specs.Prelude.{◌≡◌, ◌+◌, ◌*◌, ◌<◌, ◌≤◌, ◌^◌, length, sum_by, IsTrue};
ghost use Rattle.tso_prog.specs.Limits.{are_bounds_small};
ghost use Rattle.tso_flow.specs.Calls.{bound_of, bounds_of, procedure_limit, by_kind, step_limit};

use tso_line::{CallKind, Instruction};
use tso_list::Seq;
use tso_prog::{Client, Procedure, Step};

// How often the instructions may jump back in one call.
fn bounds_of(steps: &[Step]) -> u64
    requires few { length steps.now ≤ 256 }
    requires small { IsTrue (are_bounds_small steps.now) }
    ensures exact { result ≡ bounds_of steps.now }
    ensures small { result ≤ 3840 }
{
    let mut sum = 0;
    for step in steps {
        if let Instruction::Jump {
            bound: Some(bound),
            ..
        } = *step
        {
            sum += u64::from(bound);
        }
    }
    sum
}

// How many steps a call of the procedure can take.
#[tactic(auto, unfolding(crate::specs::Calls::procedure_limit))]
fn procedure_limit(procedure: &Procedure) -> u64
    requires { length procedure.now.instructions ≤ 256 }
    ensures exact { result ≡ procedure_limit procedure.now }
    ensures small { result ≤ 5000000 }
{
    let length = procedure.instructions.len() as u64;
    5 * length * (1 + bounds_of(procedure.instructions.as_slice())) + 2
}

// The sum over these calls, where a push counts as `push` and a pop as `pop`.
fn calls_limit(calls: &[CallKind], push: u64, pop: u64) -> u64
    requires few { length calls.now ≤ 12 }
    requires push { push ≤ 5000000 }
    requires pop { pop ≤ 5000000 }
    ensures exact { result ≡ sum_by (λ call. by_kind push pop call) calls.now }
    ensures small { result ≤ 5000000 * length calls.now }
{
    let mut sum = 0;
    for call in calls {
        sum += match *call {
            CallKind::Push(_) => push,
            CallKind::Pop => pop,
        };
    }
    sum
}

// The sum over the calls of these threads.
fn threads_limit(threads: &[Seq<CallKind>], push: u64, pop: u64) -> u64
    requires few { sum_by (λ calls. length calls) threads.now ≤ 12 }
    requires push { push ≤ 5000000 }
    requires pop { pop ≤ 5000000 }
    ensures exact { result ≡ sum_by (λ calls. sum_by (λ call. by_kind push pop call) calls) threads.now }
    ensures small { result ≤ 60000000 }
{
    let mut sum = 0;
    for calls in threads {
        sum += calls_limit(calls.as_slice(), push, pop);
    }
    sum
}

// The sum over the calls of all threads and of the prologue.
pub(crate) fn step_limit(client: &Client) -> u64
    ensures { result ≡ step_limit client.now }
{
    let push = procedure_limit(&client.push);
    let pop = procedure_limit(&client.pop);
    let threads = threads_limit(client.threads.as_slice(), push, pop);
    threads + calls_limit(client.prologue.as_slice(), push, pop)
}
