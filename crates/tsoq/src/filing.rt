//! Certificates and traces as files.

ghost use Rattle.std.specs.Io.Buffered.{writer_buffer, writer_inner};
ghost use Rattle.std.specs.Prelude.{◌≡◌, ◌++◌, IfOk};
ghost use Rattle.tso_cert.specs.Certificates.{certificate};
ghost use Rattle.tso_cert.specs.Trees.{tree_of};
ghost use Rattle.tso_rec.specs.Bases.{by_steps};
ghost use Rattle.tso_write.specs.Worked.{AreWorkedOut};
ghost use Rattle.tso_trace.specs.Grammar.{trace_text};
ghost use Rattle.tsoq.specs.Written.{IsSpelledOf};

use crate::counted::{Counted, Taken};
use std::alloc::Global;
use std::io;
use std::io::{BufWriter, Write};
use std::sync::Wait;
use std::thread::Threads;
use tso_cert::{Cert, Workers, WriteError};
use tso_flow::Checked;
use tso_foot::Table;
use tso_front::{Draft, Failure, Files, Opened, cannot_write};
use tso_list::write_bytes;
use tso_rec::Grain;
use tso_trace::Trace;
use tso_write::Worked;

// Writes out what waits before a writer, and says what the writer has taken.
fn taken_by<W: Write + Drop>(mut out: BufWriter<Counted<W>>) -> io::Result<Taken>
    ensures { IfOk result (λ taken. taken.which.numbers ≡ (writer_inner out).taken.which.numbers ++ writer_buffer out) }
{
    out.flush()?;
    match out.into_inner() {
        Ok(counted) => Ok(counted.taken()),
        Err(error) => Err(error.into_error()),
    }
}

// Writes a certificate, and says what the writer has taken: the one spelling of it. Leaf by leaf is written, some thousand bytes
// each, so a buffer before the writer would only copy them.
fn put_bytes<W: Write + Drop>(
    alloc: Global,
    table: &Table,
    cert: &Cert,
    out: W,
) -> Result<Taken, WriteError>
    ensures { IfOk result (λ taken. taken.which.numbers ≡ certificate (by_steps table.now) (tree_of cert.now)) }
{
    let mut out = Counted::new(out);
    tso_cert::write(alloc, Grain::Steps, table, cert, &mut out)?;
    match out.flush() {
        Ok(()) => Ok(out.taken()),
        Err(error) => Err(WriteError::Io(error)),
    }
}

// Writes out what waits behind a writer, and says what the writer has taken.
fn finished<W: Write + Drop>(mut out: Counted<W>) -> io::Result<Taken>
    ensures { IfOk result (λ taken. taken.which.numbers ≡ out.taken.which.numbers) }
{
    match out.flush() {
        Ok(()) => Ok(out.taken()),
        Err(error) => Err(error),
    }
}

// Writes worked states as a certificate with this table, and says what the writer has taken.
fn put_worked_bytes<R: Threads + Wait + Sync, W: Write + Drop>(
    rt: &R,
    alloc: Global,
    checked: &Checked,
    worked: &Worked<'_>,
    table: &Table,
    workers: Workers,
    out: W,
) -> Result<Taken, WriteError>
    requires worked { AreWorkedOut checked.now.client worked.now }
    ensures { IfOk result (λ taken. IsSpelledOf checked.now.client worked.now table.now taken.which.numbers) }
{
    let mut out = Counted::new(out);
    tso_write::write(rt, alloc, checked, worked, table, workers, &mut out)?;
    match finished(out) {
        Ok(taken) => Ok(taken),
        Err(error) => Err(WriteError::Io(error)),
    }
}

// Writes the text of a trace, and says what the writer has taken.
fn put_text<W: Write + Drop>(alloc: Global, trace: &Trace, out: W) -> io::Result<Taken>
    ensures { IfOk result (λ taken. taken.which.numbers ≡ trace_text trace.now.checked.client.arrays trace.now.labels) }
{
    let mut out = BufWriter::new(alloc, Counted::new(out))?;
    trace.print(&mut out)?;
    taken_by(out)
}

// Writes these bytes, and says what the writer has taken.
fn put_whole<W: Write + Drop>(bytes: &[u8], out: W) -> io::Result<Taken>
    ensures { IfOk result (λ taken. taken.which.numbers ≡ bytes.now) }
{
    let mut out = Counted::new(out);
    write_bytes(&mut out, bytes)?;
    match out.flush() {
        Ok(()) => Ok(out.taken()),
        Err(error) => Err(error),
    }
}

// Writes a certificate to the draft of a file, and says what the file has taken.
fn put_certificate<W: Write + Drop>(
    alloc: Global,
    draft: &Draft<'_>,
    file: W,
    table: &Table,
    cert: &Cert,
) -> Result<Taken, Failure>
    ensures { IfOk result (λ taken. taken.which.numbers ≡ certificate (by_steps table.now) (tree_of cert.now)) }
{
    match put_bytes(alloc, table, cert, file) {
        Ok(taken) => Ok(taken),
        Err(WriteError::Io(error)) => Err(cannot_write(alloc, draft.name(), error.kind())),
        Err(WriteError::Memory) => Err(Failure::Memory),
    }
}

// Writes worked states as a certificate to the draft of a file, and says what the file has taken.
fn put_worked<R: Threads + Wait + Sync, W: Write + Drop>(
    rt: &R,
    alloc: Global,
    draft: &Draft<'_>,
    file: W,
    checked: &Checked,
    worked: &Worked<'_>,
    table: &Table,
    workers: Workers,
) -> Result<Taken, Failure>
    requires worked { AreWorkedOut checked.now.client worked.now }
    ensures { IfOk result (λ taken. IsSpelledOf checked.now.client worked.now table.now taken.which.numbers) }
{
    match put_worked_bytes(rt, alloc, checked, worked, table, workers, file) {
        Ok(taken) => Ok(taken),
        Err(WriteError::Io(error)) => Err(cannot_write(alloc, draft.name(), error.kind())),
        Err(WriteError::Memory) => Err(Failure::Memory),
    }
}

// Writes a trace to the draft of a file, and says what the file has taken.
fn put_trace<W: Write + Drop>(
    alloc: Global,
    draft: &Draft<'_>,
    file: W,
    trace: &Trace,
) -> Result<Taken, Failure>
    ensures { IfOk result (λ taken. taken.which.numbers ≡ trace_text trace.now.checked.client.arrays trace.now.labels) }
{
    match put_text(alloc, trace, file) {
        Ok(taken) => Ok(taken),
        Err(error) => Err(cannot_write(alloc, draft.name(), error.kind())),
    }
}

// Writes these bytes to the draft of a file, and says what the file has taken.
fn put_draft<W: Write + Drop>(
    alloc: Global,
    draft: &Draft<'_>,
    file: W,
    bytes: &[u8],
) -> Result<Taken, Failure>
    ensures { IfOk result (λ taken. taken.which.numbers ≡ bytes.now) }
{
    match put_whole(bytes, file) {
        Ok(taken) => Ok(taken),
        Err(error) => Err(cannot_write(alloc, draft.name(), error.kind())),
    }
}

/// Writes a certificate to this path, and says what the file there has taken: the one spelling of the certificate.
///
/// Errors: `CannotWrite`, and then what was there is as it was; `Memory`.
pub fn file_certificate<F: Files>(
    alloc: Global,
    files: &mut F,
    path: &str,
    table: &Table,
    cert: &Cert,
) -> Result<Taken, Failure>
    ensures { IfOk result (λ taken. taken.which.numbers ≡ certificate (by_steps table.now) (tree_of cert.now)) }
{
    let Opened { draft, file } = Draft::open(alloc, files, path)?;
    let written = put_certificate(alloc, &draft, file, table, cert);
    draft.settle(alloc, files, written)
}

/// Writes worked states as a certificate with this table to this path, by so many workers and without a tree of records, and says
/// what the file there has taken: the one spelling of the table and of such a tree.
///
/// Errors: `CannotWrite`, and then what was there is as it was; `Memory`.
pub fn file_worked<R: Threads + Wait + Sync, F: Files>(
    rt: &R,
    alloc: Global,
    files: &mut F,
    path: &str,
    checked: &Checked,
    worked: &Worked<'_>,
    table: &Table,
    workers: Workers,
) -> Result<Taken, Failure>
    requires worked { AreWorkedOut checked.now.client worked.now }
    ensures { IfOk result (λ taken. IsSpelledOf checked.now.client worked.now table.now taken.which.numbers) }
{
    let Opened { draft, file } = Draft::open(alloc, files, path)?;
    let written = put_worked(rt, alloc, &draft, file, checked, worked, table, workers);
    draft.settle(alloc, files, written)
}

/// Writes a trace to this path, and says what the file there has taken: the trace's text.
///
/// Errors: `CannotWrite`, and then what was there is as it was; `Memory`.
pub fn file_trace<F: Files>(
    alloc: Global,
    files: &mut F,
    path: &str,
    trace: &Trace,
) -> Result<Taken, Failure>
    ensures { IfOk result (λ taken. taken.which.numbers ≡ trace_text trace.now.checked.client.arrays trace.now.labels) }
{
    let Opened { draft, file } = Draft::open(alloc, files, path)?;
    let written = put_trace(alloc, &draft, file, trace);
    draft.settle(alloc, files, written)
}

/// Writes these bytes to this path, and says what the file there has taken: the same.
///
/// Errors: `CannotWrite`, and then what was there is as it was; `Memory`.
pub fn file_bytes<F: Files>(
    alloc: Global,
    files: &mut F,
    path: &str,
    bytes: &[u8],
) -> Result<Taken, Failure>
    ensures { IfOk result (λ taken. taken.which.numbers ≡ bytes.now) }
{
    let Opened { draft, file } = Draft::open(alloc, files, path)?;
    let written = put_draft(alloc, &draft, file, bytes);
    draft.settle(alloc, files, written)
}
