//! The search of a program's runs, and the file that says what it found.

ghost use Rattle.std.specs.Prelude.{◌≡◌, ◌≤◌, IfOk, None, OnOk, Some, is_some, length};
ghost use Rattle.tso_cert.specs.Trees.{record_count, tree_of};
ghost use Rattle.tso_write.specs.Worked.{AreWorkedOut};
ghost use Rattle.tso_replay.specs.Statuses.{status_of_search};
ghost use Rattle.tso_trace.specs.Grammar.{trace_text};
ghost use Rattle.tso_trace.specs.Runs.{first_fault, violation_of};
ghost use Rattle.tsoq.specs.Reports.{IsOfLabels, IsOfRecords, IsReport, IsTold};
ghost use Rattle.tsoq.specs.Written.{HasTaken, HasTakenFrom, HasTakenTree, IsAllGood, IsAsked, IsAskedFor, IsFiled, IsSpelledFrom, IsSpelledWith, IsTableFor, IsWritable, bytes_of, count_of, grain_of_form, own_form};
ghost use Rattle.tso_rec.specs.declared.basis.Grain.TheVariants as grains;
ghost use Rattle.tso_search.specs.Grounds.{grain_of};

use crate::counted::Taken;
use crate::filing::{file_certificate, file_trace, file_worked};
use std::alloc::{AllocError, Global};
use std::mem;
use std::sync::Wait;
use std::thread::Threads;
use tso_cert::{Cert, Workers, build_intervals};
use tso_client::checked_of;
use tso_explore::{Finding, find};
use tso_flow::Checked;
use tso_foot::Table;
use tso_front::{Failure, Files};
use tso_rec::Grain;
use tso_replay::{Listener, Progress, Report};
use tso_request::{Form, Search};
use tso_search::Ground;
use tso_trace::Trace;
use tso_verdict::{Facts, told};
use tso_write::{Worked, has_tree, intervals_for, tree_for};

/// What a search found, and the trace of it, if it is one.
#[derive(Drop)]
pub struct Found {
    pub report: Report,
    pub trace: Option<Trace>,
    /// What the file of the certificate, or of the trace, has taken, if one was asked for and did not fail.
    pub taken: Option<Taken>,
    /// Why the trace is not written, if it should be and is not.
    pub unwritten: Option<Failure>,
    /// What the records of a certificate show, in words, where they are asked for.
    pub said: Option<String>,
}

impl Found {
    /// The status with which the program ends.
    pub fn status(&self) -> u8
        ensures { result ≡ status_of_search self.now.unwritten self.now.report }
    {
        match &self.unwritten {
            Some(failure) => failure.status(),
            None => self.report.status(),
        }
    }
}

// A report of a certificate, what its file has taken, if there is one, and what its records show, where that is asked for.
#[derive(Drop)]
struct Certification {
    report: Report,
    taken: Option<Taken>,
    said: Option<String>,
}

// What came of the file of a trace: what it has taken, or why it is not there, where one was asked for.
#[derive(Drop)]
struct TraceFile {
    taken: Option<Taken>,
    unwritten: Option<Failure>,
}

// How many bytes a file has taken, if there is one.
fn count_of(taken: &Option<Taken>) -> Option<u64>
    ensures { result ≡ count_of taken.now }
{
    match taken {
        Some(taken) => Some(taken.bytes()),
        None => None,
    }
}

/// How far apart the records of such a certificate lie.
pub fn grain_of_form(form: Form) -> Grain
    ensures { result ≡ grain_of_form form }
{
    match form {
        Form::Arrays | Form::Intervals => Grain::Steps,
        Form::Crossings => Grain::Crossings,
    }
}

// A table of intervals for the tree of a certificate: the tree is as valid with it as with the certificate's own table, which is
// named for the contract alone.
fn with_intervals(
    alloc: Global,
    checked: &Checked,
    table: &Table,
    cert: &Cert,
) -> Result<Table, AllocError>
    requires { IsWritable Form.Arrays checked.now.client table.now (tree_of cert.now) }
    ensures { IfOk result (λ anew. IsWritable Form.Intervals checked.now.client anew (tree_of cert.now)) }
{
    let intervals = build_intervals(alloc, checked, cert)?;
    Ok(Table::Intervals(intervals))
}

// Writes a certificate to this path with the table of its search.
fn file_searched<F: Files>(
    alloc: Global,
    files: &mut F,
    path: &str,
    checked: &Checked,
    table: &Table,
    cert: &Cert,
) -> Result<Taken, Failure>
    requires { IsWritable Form.Arrays checked.now.client table.now (tree_of cert.now) }
    ensures { IfOk result (λ taken. IsSpelledWith Form.Arrays checked.now.client (tree_of cert.now) taken.which.numbers) }
{
    let taken = file_certificate(alloc, files, path, table, cert)?;
    Ok(taken)
}

// Writes it with a table of intervals.
fn file_anew<F: Files>(
    alloc: Global,
    files: &mut F,
    path: &str,
    checked: &Checked,
    table: &Table,
    cert: &Cert,
) -> Result<Taken, Failure>
    requires { IsWritable Form.Arrays checked.now.client table.now (tree_of cert.now) }
    ensures { IfOk result (λ taken. IsSpelledWith Form.Intervals checked.now.client (tree_of cert.now) taken.which.numbers) }
{
    let anew = with_intervals(alloc, checked, table, cert)?;
    let taken = file_certificate(alloc, files, path, &anew, cert)?;
    Ok(taken)
}

// Writes it with the table that is asked for.
fn file_in_form<F: Files>(
    alloc: Global,
    files: &mut F,
    path: &str,
    form: Form,
    checked: &Checked,
    table: &Table,
    cert: &Cert,
) -> Result<Taken, Failure>
    requires steps { grain_of_form form ≡ grains.Steps }
    requires writable { IsWritable Form.Arrays checked.now.client table.now (tree_of cert.now) }
    ensures { IfOk result (λ taken. IsSpelledWith form checked.now.client (tree_of cert.now) taken.which.numbers) }
{
    match form {
        Form::Arrays => file_searched(alloc, files, path, checked, table, cert),
        Form::Intervals => file_anew(alloc, files, path, checked, table, cert),
        Form::Crossings => unreachable!(),
    }
}

// Writes a certificate to this path, if there is one, and says what the file has taken.
fn write_certificate<F: Files>(
    alloc: Global,
    files: &mut F,
    path: Option<&str>,
    form: Form,
    checked: &Checked,
    table: &Table,
    cert: &Cert,
) -> Result<Option<Taken>, Failure>
    requires steps { grain_of_form form ≡ grains.Steps }
    requires writable { IsWritable Form.Arrays checked.now.client table.now (tree_of cert.now) }
    ensures taken { IfOk result (HasTakenTree form checked.now.client (tree_of cert.now)) }
    ensures asked { IfOk result (λ taken. IsAsked (is_some path.entry) taken None) }
{
    let Some(path) = path else {
        return Ok(None);
    };
    let taken = file_in_form(alloc, files, path, form, checked, table, cert)?;
    Ok(Some(taken))
}

// Writes a certificate to this path, if there is one.
fn certified<F: Files>(
    alloc: Global,
    files: &mut F,
    path: Option<&str>,
    form: Form,
    checked: &Checked,
    table: &Table,
    cert: &Cert,
) -> Result<Certification, Failure>
    requires steps { grain_of_form form ≡ grains.Steps }
    requires writable { IsWritable Form.Arrays checked.now.client table.now (tree_of cert.now) }
    requires few { record_count (tree_of cert.now) ≤ 4194304 }
    ensures records { IfOk result (λ made. IsOfRecords (record_count (tree_of cert.now)) made.report) }
    ensures taken { IfOk result (λ made. HasTakenTree form checked.now.client (tree_of cert.now) made.taken) }
    ensures asked { IfOk result (λ made. IsAsked (is_some path.entry) made.taken None) }
    ensures counted { IfOk result (λ made. bytes_of made.report ≡ count_of made.taken) }
{
    let taken = write_certificate(alloc, files, path, form, checked, table, cert)?;
    let report = Report::Certified {
        records: cert.len(),
        bytes: count_of(&taken),
    };
    Ok(Certification {
        report,
        taken,
        said: None,
    })
}

// Writes a trace to this path, if there is one. A file that failed is told beside that.
fn write_trace<F: Files>(
    alloc: Global,
    files: &mut F,
    path: Option<&str>,
    trace: &Trace,
) -> Result<TraceFile, Failure>
    ensures taken { IfOk result (λ file. HasTaken (trace_text trace.now.checked.client.arrays trace.now.labels) file.taken) }
    ensures asked { IfOk result (λ file. IsAsked (is_some path.entry) file.taken file.unwritten) }
{
    let Some(path) = path else {
        return Ok(TraceFile {
            taken: None,
            unwritten: None,
        });
    };
    match file_trace(alloc, files, path, trace) {
        Ok(taken) => Ok(TraceFile {
            taken: Some(taken),
            unwritten: None,
        }),
        Err(Failure::CannotWrite(path)) => Ok(TraceFile {
            taken: None,
            unwritten: Some(Failure::CannotWrite(path)),
        }),
        Err(failure) => Err(failure),
    }
}

// Writes a trace to this path, if there is one. A violation is told also where the file fails.
fn violated<F: Files>(
    alloc: Global,
    files: &mut F,
    path: Option<&str>,
    trace: Trace,
) -> Result<Found, Failure>
    ensures labels { IfOk result (λ found. IsOfLabels (violation_of (first_fault trace.labels)) (length trace.labels) found.report) }
    ensures trace { IfOk result (λ found. found.trace ≡ Some trace) }
    ensures taken { IfOk result (λ found. HasTaken (trace_text trace.checked.client.arrays trace.labels) found.taken) }
    ensures asked { IfOk result (λ found. IsAsked (is_some path.entry) found.taken found.unwritten) }
    ensures counted { IfOk result (λ found. bytes_of found.report ≡ count_of found.taken) }
{
    let TraceFile { taken, unwritten } = match write_trace(alloc, files, path, &trace) {
        Ok(written) => written,
        Err(failure) => {
            drop(trace);
            return Err(failure);
        }
    };
    let report = Report::Violated {
        violation: trace.violation(),
        labels: trace.labels.len(),
        bytes: count_of(&taken),
    };
    Ok(Found {
        report,
        trace: Some(trace),
        taken,
        unwritten,
        said: None,
    })
}

// Writes a certificate to this path, if there is one. What it takes in memory is left to the system, which has it back when the process ends, at
// once: to let go of each record would take a tenth of the time of a search.
fn certified_last<F: Files>(
    alloc: Global,
    files: &mut F,
    path: Option<&str>,
    form: Form,
    checked: &Checked,
    table: &Table,
    cert: Cert,
) -> Result<Certification, Failure>
    requires steps { grain_of_form form ≡ grains.Steps }
    requires writable { IsWritable Form.Arrays checked.now.client table.now (tree_of cert) }
    requires few { record_count (tree_of cert) ≤ 4194304 }
    ensures records { IfOk result (λ made. IsOfRecords (record_count (tree_of cert)) made.report) }
    ensures taken { IfOk result (λ made. HasTakenTree form checked.now.client (tree_of cert) made.taken) }
    ensures asked { IfOk result (λ made. IsAsked (is_some path.entry) made.taken None) }
    ensures counted { IfOk result (λ made. bytes_of made.report ≡ count_of made.taken) }
{
    let made = certified(alloc, files, path, form, checked, table, &cert);
    mem::forget(cert);
    made
}

// What a certificate shows, in words; none where memory is wanting.
fn said_of(alloc: Global, checked: &Checked, ground: &Ground, cert: &Cert) -> Option<String> {
    let facts = Facts::counted(alloc, checked, ground.grain(), ground.table(), cert).ok()?;
    told(alloc, &facts).ok()
}

// A table of intervals for worked states.
fn intervals_with(
    alloc: Global,
    checked: &Checked,
    worked: &Worked<'_>,
) -> Result<Table, AllocError>
    requires worked { AreWorkedOut checked.now.client worked.now }
    requires steps { own_form worked.now.ground ≡ Form.Arrays }
    ensures { IfOk result (IsTableFor Form.Intervals checked.now.client worked.now) }
{
    let intervals = intervals_for(alloc, checked, worked)?;
    Ok(Table::Intervals(intervals))
}

// Writes worked states to this path with the table of their search.
fn worked_searched<R: Threads + Wait + Sync, F: Files>(
    rt: &R,
    alloc: Global,
    files: &mut F,
    path: &str,
    checked: &Checked,
    worked: &Worked<'_>,
    workers: Workers,
) -> Result<Taken, Failure>
    requires worked { AreWorkedOut checked.now.client worked.now }
    ensures { IfOk result (λ taken. IsSpelledFrom (own_form worked.now.ground) checked.now.client worked.now taken.which.numbers) }
{
    let table = worked.ground.table();
    let taken = file_worked(rt, alloc, files, path, checked, worked, table, workers)?;
    Ok(taken)
}

// Writes them with a table of intervals.
fn worked_anew<R: Threads + Wait + Sync, F: Files>(
    rt: &R,
    alloc: Global,
    files: &mut F,
    path: &str,
    checked: &Checked,
    worked: &Worked<'_>,
    workers: Workers,
) -> Result<Taken, Failure>
    requires worked { AreWorkedOut checked.now.client worked.now }
    requires steps { own_form worked.now.ground ≡ Form.Arrays }
    ensures { IfOk result (λ taken. IsSpelledFrom Form.Intervals checked.now.client worked.now taken.which.numbers) }
{
    let anew = intervals_with(alloc, checked, worked)?;
    let taken = file_worked(rt, alloc, files, path, checked, worked, &anew, workers)?;
    Ok(taken)
}

// Writes them with the table that is asked for.
fn worked_in_form<R: Threads + Wait + Sync, F: Files>(
    rt: &R,
    alloc: Global,
    files: &mut F,
    path: &str,
    form: Form,
    checked: &Checked,
    worked: &Worked<'_>,
    workers: Workers,
) -> Result<Taken, Failure>
    requires worked { AreWorkedOut checked.now.client worked.now }
    requires grain { grain_of worked.now.ground ≡ grain_of_form form }
    ensures { IfOk result (λ taken. IsSpelledFrom form checked.now.client worked.now taken.which.numbers) }
{
    match form {
        Form::Arrays | Form::Crossings => {
            worked_searched(rt, alloc, files, path, checked, worked, workers)
        }
        Form::Intervals => worked_anew(rt, alloc, files, path, checked, worked, workers),
    }
}

// Writes worked states to this path, if there is one, and says what the file has taken.
fn write_worked<R: Threads + Wait + Sync, F: Files>(
    rt: &R,
    alloc: Global,
    files: &mut F,
    search: &Search<'_>,
    checked: &Checked,
    worked: &Worked<'_>,
) -> Result<Option<Taken>, Failure>
    requires worked { AreWorkedOut checked.now.client worked.now }
    requires grain { grain_of worked.now.ground ≡ grain_of_form search.now.form }
    ensures taken { IfOk result (HasTakenFrom search.now.form checked.now.client worked.now) }
    ensures asked { IfOk result (λ taken. IsAsked (is_some search.now.cert) taken None) }
{
    let Some(path) = search.cert else {
        has_tree(checked, worked);
        return Ok(None);
    };
    let taken = worked_in_form(
        rt,
        alloc,
        files,
        path,
        search.form,
        checked,
        worked,
        search.workers,
    )?;
    Ok(Some(taken))
}

// Writes worked states to this path, if there is one, and no tree of their records is made.
fn certified_worked<R: Threads + Wait + Sync, F: Files>(
    rt: &R,
    alloc: Global,
    files: &mut F,
    search: &Search<'_>,
    checked: &Checked,
    worked: &Worked<'_>,
) -> Result<Certification, Failure>
    requires worked { AreWorkedOut checked.now.client worked.now }
    requires grain { grain_of worked.now.ground ≡ grain_of_form search.now.form }
    ensures good { IfOk result (λ made. IsAllGood search.now.form checked.now.client made.report made.taken) }
    ensures asked { IfOk result (λ made. IsAsked (is_some search.now.cert) made.taken None) }
    ensures counted { IfOk result (λ made. bytes_of made.report ≡ count_of made.taken) }
{
    let taken = write_worked(rt, alloc, files, search, checked, worked)?;
    let report = Report::Certified {
        records: worked.len(),
        bytes: count_of(&taken),
    };
    Ok(Certification {
        report,
        taken,
        said: None,
    })
}

// The same by steps, with a tree of the records, and what they show in words.
fn certified_told<R: Threads + Wait + Sync, F: Files>(
    rt: &R,
    alloc: Global,
    files: &mut F,
    search: &Search<'_>,
    checked: &Checked,
    worked: &Worked<'_>,
) -> Result<Certification, Failure>
    requires worked { AreWorkedOut checked.now.client worked.now }
    requires steps { own_form worked.now.ground ≡ Form.Arrays }
    requires grain { grain_of worked.now.ground ≡ grain_of_form search.now.form }
    ensures good { IfOk result (λ made. IsAllGood search.now.form checked.now.client made.report made.taken) }
    ensures asked { IfOk result (λ made. IsAsked (is_some search.now.cert) made.taken None) }
    ensures counted { IfOk result (λ made. bytes_of made.report ≡ count_of made.taken) }
{
    let cert = tree_for(rt, alloc, checked, worked, search.workers)?;
    let said = said_of(alloc, checked, &worked.ground, &cert);
    let table = worked.ground.table();
    let made = certified_last(alloc, files, search.cert, search.form, checked, table, cert)?;
    let Certification {
        report,
        taken,
        said: _none,
    } = made;
    Ok(Certification {
        report,
        taken,
        said,
    })
}

// What the tree of worked states shows, in words; none where memory is wanting. The tree is left to the system, as in `certified_last`.
fn said_by<R: Threads + Wait + Sync>(
    rt: &R,
    alloc: Global,
    checked: &Checked,
    worked: &Worked<'_>,
    workers: Workers,
) -> Option<String>
    requires worked { AreWorkedOut checked.now.client worked.now }
{
    let cert = tree_for(rt, alloc, checked, worked, workers).ok()?;
    let said = said_of(alloc, checked, &worked.ground, &cert);
    mem::forget(cert);
    said
}

// The same by crossings: they are written, and then told.
fn certified_crossed<R: Threads + Wait + Sync, F: Files>(
    rt: &R,
    alloc: Global,
    files: &mut F,
    search: &Search<'_>,
    checked: &Checked,
    worked: &Worked<'_>,
) -> Result<Certification, Failure>
    requires worked { AreWorkedOut checked.now.client worked.now }
    requires grain { grain_of worked.now.ground ≡ grain_of_form search.now.form }
    ensures good { IfOk result (λ made. IsAllGood search.now.form checked.now.client made.report made.taken) }
    ensures asked { IfOk result (λ made. IsAsked (is_some search.now.cert) made.taken None) }
    ensures counted { IfOk result (λ made. bytes_of made.report ≡ count_of made.taken) }
{
    let made = certified_worked(rt, alloc, files, search, checked, worked)?;
    let Certification {
        report,
        taken,
        said: _none,
    } = made;
    Ok(Certification {
        report,
        taken,
        said: said_by(rt, alloc, checked, worked, search.workers),
    })
}

// With a tree of the records only where words are asked for.
fn certified_by<R: Threads + Wait + Sync, F: Files>(
    rt: &R,
    alloc: Global,
    files: &mut F,
    search: &Search<'_>,
    checked: &Checked,
    worked: &Worked<'_>,
    verbose: bool,
) -> Result<Certification, Failure>
    requires worked { AreWorkedOut checked.now.client worked.now }
    requires grain { grain_of worked.now.ground ≡ grain_of_form search.now.form }
    ensures good { IfOk result (λ made. IsAllGood search.now.form checked.now.client made.report made.taken) }
    ensures asked { IfOk result (λ made. IsAsked (is_some search.now.cert) made.taken None) }
    ensures counted { IfOk result (λ made. bytes_of made.report ≡ count_of made.taken) }
{
    match &worked.ground {
        Ground::Steps(_) if verbose => { certified_told(rt, alloc, files, search, checked, worked) }
        Ground::Crossings(_, _) if verbose => {
            certified_crossed(rt, alloc, files, search, checked, worked)
        }
        _ => certified_worked(rt, alloc, files, search, checked, worked),
    }
}

// What worked states take in memory is left to the system, as in `certified_last`.
fn certified_all<R: Threads + Wait + Sync, F: Files>(
    rt: &R,
    alloc: Global,
    files: &mut F,
    search: &Search<'_>,
    checked: &Checked,
    worked: Worked<'_>,
    verbose: bool,
) -> Result<Certification, Failure>
    requires worked { AreWorkedOut checked.now.client worked }
    requires grain { grain_of worked.ground ≡ grain_of_form search.now.form }
    ensures good { IfOk result (λ made. IsAllGood search.now.form checked.now.client made.report made.taken) }
    ensures asked { IfOk result (λ made. IsAsked (is_some search.now.cert) made.taken None) }
    ensures counted { IfOk result (λ made. bytes_of made.report ≡ count_of made.taken) }
{
    let made = certified_by(rt, alloc, files, search, checked, &worked, verbose);
    mem::forget(worked);
    made
}

/// Searches the runs of the client of a program text, and writes the certificate that all are good, or the trace of one that
/// is not, where there is a path for it: what the file there takes is a valid certificate of the client, or the trace's text.
///
/// Errors: `Program` with the first fault of the text; `Limit` where more states can be reached than the search may meet;
/// `CannotWrite` where the file of a certificate failed; `Memory`.
pub fn verify<R: Threads + Wait + Sync, F: Files, L: Listener + Sync>(
    rt: &R,
    alloc: Global,
    files: &mut F,
    program: &[u8],
    search: &Search<'_>,
    watch: &Progress<'_, L>,
    verbose: bool,
) -> Result<Found, Failure>
    ensures report { IfOk result (λ found. IsReport program.now found.report) }
    ensures trace { IfOk result (λ found. IsTold found.report found.trace) }
    ensures file { IfOk result (λ found. IsFiled search.now.form program.now found.report found.trace found.taken) }
    ensures asked { IfOk result (λ found. IsAskedFor (is_some search.now.cert) (is_some search.now.trace) found.report found.taken found.unwritten) }
    ensures counted { IfOk result (λ found. bytes_of found.report ≡ count_of found.taken) }
{
    let checked = checked_of(alloc, program)?;
    let finding = find(
        rt,
        alloc,
        &checked,
        grain_of_form(search.form),
        search.workers,
        search.limit.count(),
        watch,
    );
    watch.answer();
    match finding {
        Finding::Worked(worked) => {
            let made = certified_all(rt, alloc, files, search, &checked, worked, verbose);
            drop(checked);
            let made = made?;
            let Certification {
                report,
                taken,
                said,
            } = made;
            Ok(Found {
                report,
                trace: None,
                taken,
                unwritten: None,
                said,
            })
        }
        Finding::Trace(trace) => {
            drop(checked);
            let found = violated(alloc, files, search.trace, trace)?;
            Ok(found)
        }
        Finding::LimitReached => {
            drop(checked);
            Err(Failure::Limit)
        }
        Finding::NoMemory => {
            drop(checked);
            Err(Failure::Memory)
        }
    }
}
