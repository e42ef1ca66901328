//! How far the calls of a run have an order.

ghost use Rattle.std.specs.Prelude.{◌≡◌, length, map, take, IfNone, IfOk, IfSome};
ghost use Rattle.tso_show.specs.Unordered.{is_event, AreOrdered, IsOrderFor, IsServed};
ghost use Rattle.tso_trace.specs.Runs.{IsRun};

use std::alloc::{AllocError, Global};
use tso_fifo::{Order, linearize};
use tso_list::Seq;
use tso_machine::{Label, LabelKind};
use tso_prog::Client;
use tso_trace::history_of;

/// How far the calls and returns of a run have a linearization.
#[derive(Drop)]
pub enum Served {
    /// To its end, and this is one.
    Whole(Order),
    /// Up to the label before this one, of which the order is, and not with this one.
    Until { label: usize, order: Order },
}

// Whether the label is a call or a return.
fn is_event(kind: LabelKind) -> bool
    ensures { result ≡ is_event kind }
{
    matches!(kind, LabelKind::Call(_) | LabelKind::Return(_))
}

// A linearization of the calls and returns of a run, if they have one.
fn order_of(alloc: Global, client: &Client, labels: &[Label]) -> Result<Option<Order>, AllocError>
    requires { IsRun client.now labels.now }
    ensures found { IfOk result (λ found. IfSome found (λ order. IsOrderFor client.now labels.now order)) }
    ensures none { IfOk result (λ found. IfNone found (AreOrdered client.now labels.now → ⊥)) }
{
    let history = history_of(alloc, client, labels)?;
    match linearize(alloc, &history, client.mode, usize::from(client.capacity))? {
        Some(order) => Ok(Some(order)),
        None => Ok(None),
    }
}

/// How far the calls and returns of a run have a linearization: to its end, or up to the label before the first with which
/// they have none.
///
/// Errors: where a growth was refused.
pub fn ordered_part(alloc: Global, client: &Client, labels: &[Label]) -> Result<Served, AllocError>
    requires { IsRun client.now labels.now }
    ensures { IfOk result (IsServed client.now labels.now) }
{
    let mut order = Seq::new(alloc);
    for at in 0..labels.len() {
        if is_event(labels[at].kind) {
            match order_of(alloc, client, &labels[..at + 1])? {
                Some(next) => order = next,
                None => {
                    return Ok(Served::Until {
                        label: at + 1,
                        order,
                    });
                }
            }
        }
    }
    Ok(Served::Whole(order))
}
