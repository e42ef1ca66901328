//! Which cells of one array may still be accessed: from each instruction's own ones, until each span holds those of its successors.

ghost use Rattle.std.specs.Prelude.{◌≡◌, ◌<◌, ℕ, Bool, false, true, length};
ghost use Rattle.tso_cells.specs.Inductive.{AreInside};
ghost use Rattle.tso_cells.specs.Growing.{AreGrown};
ghost use Rattle.tso_cells.specs.Spans.{AllHandBack, AreSpans, AreTaken, HandsBack, HasTaken, IsSmall, span_if};
ghost use Rattle.tso_cells.specs.declared.growing.Growth.TheVariants.{Whole};

use crate::growing::{EMPTY, Growth, grow};
use crate::interval::Interval;
use tso_flow::{jump_target, next_position};
use tso_prog::Step;

/// The span at a position; nothing where there is no such position.
pub fn span_if(spans: &[Interval], position: Option<usize>) -> Interval
    ensures { result ≡ span_if spans.now position }
{
    match position {
        Some(j) if j < spans.len() => spans[j],
        _ => EMPTY,
    }
}

// Lets the span of the instruction at `i` hold those of its successors, and says whether it grew.
fn take_back(growth: Growth, whole: Interval, spans: &mut [Interval], i: usize, step: Step) -> bool
    requires inside { i < length spans.old }
    requires small { IsSmall whole }
    requires within { AreSpans whole (λ n. true) spans.old }
    ensures grown { AreGrown growth whole spans.old spans.new result }
    ensures taken { result ≡ false → HasTaken step i spans.new }
    ensures spans { (needs : ℕ → Bool) → HandsBack step i (length spans.old) needs → AreSpans whole needs spans.old → AreSpans whole needs spans.new }
{
    let next = span_if(spans, next_position(step, i));
    let target = span_if(spans, jump_target(step));
    let mut is_grown = grow(growth, whole, spans, i, next);
    is_grown |= grow(growth, whole, spans, i, target);
    is_grown
}

// The same for each instruction.
fn spread_back(growth: Growth, whole: Interval, steps: &[Step], spans: &mut [Interval]) -> bool
    requires same { length spans.old ≡ length steps.now }
    requires small { IsSmall whole }
    requires within { AreSpans whole (λ n. true) spans.old }
    ensures grown { AreGrown growth whole spans.old spans.new result }
    ensures taken { result ≡ false → AreTaken steps.now spans.new (length steps.now) }
    ensures spans { (needs : ℕ → Bool) → AllHandBack steps.now needs → AreSpans whole needs spans.old → AreSpans whole needs spans.new }
{
    let mut is_grown = false;
    for i in 0..steps.len() {
        let step = steps[i];
        is_grown |= take_back(growth, whole, spans, i, step);
    }
    is_grown
}

// The same in as many rounds as there are instructions, each span growing no further than it must.
fn spread_rounds(whole: Interval, steps: &[Step], spans: &mut [Interval])
    requires same { length spans.old ≡ length steps.now }
    requires small { IsSmall whole }
    requires within { AreSpans whole (λ n. true) spans.old }
    ensures count { length spans.new ≡ length spans.old }
    ensures keeps { AreInside spans.old spans.new }
    ensures spans { (needs : ℕ → Bool) → AllHandBack steps.now needs → AreSpans whole needs spans.old → AreSpans whole needs spans.new }
{
    for _round in 0..steps.len() {
        spread_back(Growth::Least, whole, steps, spans);
    }
}

/// Lets each span hold those of its instruction's successors. What still has to grow after so many rounds becomes the whole.
pub fn settle_spans(whole: Interval, steps: &[Step], spans: &mut [Interval])
    requires same { length spans.old ≡ length steps.now }
    requires small { IsSmall whole }
    requires within { AreSpans whole (λ n. true) spans.old }
    ensures count { length spans.new ≡ length spans.old }
    ensures keeps { AreInside spans.old spans.new }
    ensures taken { AreTaken steps.now spans.new (length steps.now) }
    ensures spans { (needs : ℕ → Bool) → AllHandBack steps.now needs → AreSpans whole needs spans.old → AreSpans whole needs spans.new }
{
    spread_rounds(whole, steps, spans);
    'grow: loop {
        if !spread_back(Growth::Whole, whole, steps, spans) {
            break;
        }
    }
}
