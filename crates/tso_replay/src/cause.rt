//! Why a run is not good, in words behind the lines that are promised, where `--verbose` asks for it. Where memory fails on the way,
//! nothing is said.

use std::alloc::Global;
use tso_front::Session;
use tso_say::Page;
use tso_show::{ShowError, Walk, print_cause};
use tso_trace::Trace;

// Where a thread of a run stops, and why; and from which label on its calls have no order, and why.
fn put_cause(alloc: Global, page: &mut Page, trace: &Trace) -> Result<(), ShowError> {
    let labels = trace.labels.as_slice();
    let walk = Walk::to_end(alloc, &trace.checked, labels)?;
    print_cause(alloc, &mut page.bytes, &walk)
}

/// Says in words why a run is not good: why a thread stops, if one does, and why its calls have no order, if they have none.
pub fn tell_cause<S: Session>(session: &mut S, trace: &Trace) {
    let mut page = Page::new(session.alloc());
    if put_cause(session.alloc(), &mut page, trace).is_ok() {
        session.note(&page.bytes);
    }
}
