//! The check of certificates.

ghost use Rattle.std.specs.Prelude.{◌≡◌, ◌≤◌, ◌⊎◌, Err, IfOk, IfSome, Ok, Result};
ghost use Rattle.tso_cert.specs.Trees.{record_count, tree_of};
ghost use Rattle.tso_client.specs.Headline.{DenotesChecked, IsVerified};
ghost use Rattle.tso_check.specs.Laws.{IsSameButMemory};
ghost use Rattle.tso_client.specs.Programs.{IsRefused};
ghost use Rattle.tso_check.specs.Spans.{IsStored, IsVerdictOn};
ghost use Rattle.tso_check.specs.Verdicts.{IsAnswer, IsOfFault, IsTreeVerdict, IsVerdict, code_of};
ghost use Rattle.tso_client.specs.declared.error.CheckError.{CheckError as AnError};
ghost use Rattle.tso_client.specs.declared.error.CheckError.TheVariants as errors;
ghost use Rattle.tso_check.specs.declared.verdict.Verdict.{Verdict as AVerdict};
ghost use Rattle.tso_check.specs.declared.verdict.Verdict.TheVariants as verdicts;
ghost use Rattle.tso_judge.specs.Valid.{IsValidCertificate};
ghost use Rattle.tso_prog.specs.declared.client.Client.{Client};
ghost use Rattle.tso_rec.specs.Conditions.{IsLeast};
ghost use Rattle.tso_prog.specs.declared.fault.Fault.{Fault as AFault};
ghost use Rattle.tso_scan.specs.Parts.{text_of, whole_of};
ghost use Rattle.tso_scan.specs.Scanned.{IsScanned};

use crate::halved::{TreePart, decide_tree, tree_fault};
use crate::judging::{Notice, verdict_of};
use crate::remains::{Remains, put_away};
use crate::stored::{StoredPart, decide_stored, stored_fault};
use crate::threads::{Told, judge_with};
use crate::verdict::{Verdict, rejected};
use std::alloc::{AllocError, Global};
use std::sync::Wait;
use std::thread::Threads;
use tso_cert::{Cert, DecodeError, Fault, Watch, Workers, decode};
use tso_client::{CheckError, checked_of};
use tso_flow::Checked;
use tso_judge::{Code, Whole, least_table};
use tso_list::Seq;
use tso_rec::Basis;
use tso_scan::{Scanned, put_together, scan, scan_with};
use tso_skim::{Skimmed, is_dense, skim};

// The code of a fault of bytes.
fn code_of(fault: Fault) -> Code
    ensures { result ≡ code_of fault }
{
    match fault {
        Fault::K01 => Code::K01,
        Fault::K02 => Code::K02,
    }
}

// The verdict on bytes that were not decoded.
fn undecoded(error: DecodeError) -> Result<Verdict, AllocError>
    ensures { IfOk result (IsOfFault error) }
{
    match error {
        DecodeError::Fault(fault) => Ok(rejected(code_of(fault))),
        DecodeError::Memory => Err(AllocError),
    }
}

// The verdict on bytes that are no certificate, if they are none: without memory for what they say.
fn decide_shape(alloc: Global, bytes: &[u8]) -> Result<Option<Verdict>, AllocError>
    ensures { IfOk result (λ found. IfSome found (λ verdict. (c : Client) → IsVerdict c bytes.now verdict)) }
{
    let skimmed = skim(alloc, bytes)?;
    match skimmed {
        Skimmed::Whole => Ok(None),
        Skimmed::Cut => Ok(Some(rejected(Code::K01))),
        Skimmed::Broken => Ok(Some(rejected(Code::K01))),
        Skimmed::Beyond => Ok(Some(rejected(Code::K02))),
    }
}

// The verdict on a basis and a tree.
fn decide_with_least(
    alloc: Global,
    checked: &Checked,
    basis: &Basis,
    tree: &Cert,
) -> Result<Verdict, AllocError>
    requires few { record_count (tree_of tree.now) ≤ 4194304 }
    ensures { IfOk result (IsTreeVerdict checked.now.client basis.now (tree_of tree.now)) }
{
    let own = least_table(alloc, checked)?;
    let found = decide_tree(&Whole {
        alloc,
        checked,
        basis,
        own: &own,
        tree,
    });
    drop(own);
    found
}

// The verdict on bytes, decoded, by their tree.
fn decide_decoded(alloc: Global, checked: &Checked, bytes: &[u8]) -> Result<Verdict, AllocError>
    ensures { IfOk result (IsVerdict checked.now.client bytes.now) }
{
    match decode(alloc, bytes) {
        Ok((basis, tree)) => {
            let found = decide_with_least(alloc, checked, &basis, &tree);
            drop(tree);
            drop(basis);
            found
        }
        Err(error) => undecoded(error),
    }
}

// The verdict on bytes: by their shape, where they are no certificate, and else by their tree.
fn decide_bytes(alloc: Global, checked: &Checked, bytes: &[u8]) -> Result<Verdict, AllocError>
    ensures { IfOk result (IsVerdict checked.now.client bytes.now) }
{
    match decide_shape(alloc, bytes)? {
        Some(verdict) => Ok(verdict),
        None => decide_decoded(alloc, checked, bytes),
    }
}

/// The verdict on bytes as a certificate for a client, by what was read of them straight into a store, if they could be read so.
///
/// Errors: where a growth was refused.
pub fn verdict_on(
    alloc: Global,
    checked: &Checked,
    scanned: &Option<Scanned<'_>>,
    bytes: &[u8],
) -> Result<Verdict, AllocError>
    requires { IfSome scanned.now (IsScanned checked.now.client bytes.now) }
    ensures { IfOk result (IsVerdict checked.now.client bytes.now) }
{
    match scanned {
        Some(scanned) => decide_stored(alloc, checked, scanned),
        None => decide_bytes(alloc, checked, bytes),
    }
}

// The verdict on bytes that are dense and no certificate, if they are that: to read all of their records first would take long.
fn decide_dense(alloc: Global, bytes: &[u8]) -> Result<Option<Verdict>, AllocError>
    ensures { IfOk result (λ found. IfSome found (λ verdict. (c : Client) → IsVerdict c bytes.now verdict)) }
{
    if is_dense(alloc, bytes) {
        decide_shape(alloc, bytes)
    } else {
        Ok(None)
    }
}

// The verdict on bytes as a certificate for a client, whose records are read.
fn verdict_read(alloc: Global, checked: &Checked, bytes: &[u8]) -> Result<Verdict, AllocError>
    ensures { IfOk result (IsVerdict checked.now.client bytes.now) }
{
    let scanned = scan(alloc, checked, bytes)?;
    let found = verdict_on(alloc, checked, &scanned, bytes);
    drop(scanned);
    found
}

// The verdict on bytes as a certificate for a client.
fn verdict(alloc: Global, checked: &Checked, bytes: &[u8]) -> Result<Verdict, AllocError>
    ensures { IfOk result (IsVerdict checked.now.client bytes.now) }
{
    match decide_dense(alloc, bytes)? {
        Some(verdict) => Ok(verdict),
        None => verdict_read(alloc, checked, bytes),
    }
}

/// The verdict on bytes as a certificate for a client: accepted exactly where they are a valid one; else the first condition
/// that fails. First come those of the whole, in this order: the bytes spell a certificate (K01), within the limits (K02, which
/// counts where it is met first), the states rise (K03), the table is closed (K04), a record has the initial state (K09). Then
/// the first record from the left that fails one of its own, with the lowest of its numbers.
///
/// Errors: `Memory` where a growth was refused.
pub fn check_client(alloc: Global, checked: &Checked, bytes: &[u8]) -> Result<Verdict, AllocError>
    ensures verdict { IfOk result (IsVerdict checked.now.client bytes.now) }
    ensures exact { (v : AVerdict) → IsVerdict checked.now.client bytes.now v → IfOk result (λ found. found ≡ v) }
{
    let found = verdict(alloc, checked, bytes)?;
    Ok(found)
}

// The verdict on a certificate in a store, by several threads.
fn decide_stored_with<R: Threads + Wait + Sync, N: Notice + Sync>(
    rt: &R,
    alloc: Global,
    checked: &Checked,
    scanned: &Scanned<'_>,
    workers: Workers,
    notice: &N,
) -> Result<Verdict, AllocError>
    requires stored { IsStored checked.now.client scanned.now }
    ensures { IfOk result (IsVerdictOn checked.now.client scanned.now) }
{
    match stored_fault(alloc, checked, scanned)? {
        Some(code) => Ok(rejected(code)),
        None => {
            let forms = scanned.store.forms(alloc)?;
            let part = StoredPart {
                alloc,
                checked,
                scanned,
                forms: &forms,
                shape: &scanned.shape,
                start: 0,
                notice,
            };
            let found = judge_with(rt, alloc, part, workers.count());
            drop(forms);
            Ok(verdict_of(found?))
        }
    }
}

// The verdict on a basis and a tree, by several threads.
fn decide_tree_with<R: Threads + Wait + Sync, N: Notice + Sync>(
    rt: &R,
    whole: &Whole<'_>,
    workers: Workers,
    notice: &N,
) -> Result<Verdict, AllocError>
    requires least { IsLeast whole.now.checked.now.client whole.now.own.now }
    requires few { record_count (tree_of whole.now.tree.now) ≤ 4194304 }
    ensures { IfOk result (IsTreeVerdict whole.now.checked.now.client whole.now.basis.now (tree_of whole.now.tree.now)) }
{
    match tree_fault(whole)? {
        Some(code) => Ok(rejected(code)),
        None => {
            let part = TreePart {
                whole: *whole,
                part: whole.tree,
                start: 0,
                notice,
            };
            let found = judge_with(rt, whole.alloc, part, workers.count())?;
            Ok(verdict_of(found))
        }
    }
}

// The same of a basis and a tree, for which the least table is made.
fn decide_with_least_by<R: Threads + Wait + Sync, N: Notice + Sync>(
    rt: &R,
    alloc: Global,
    checked: &Checked,
    basis: &Basis,
    tree: &Cert,
    workers: Workers,
    notice: &N,
) -> Result<Verdict, AllocError>
    requires few { record_count (tree_of tree.now) ≤ 4194304 }
    ensures { IfOk result (IsTreeVerdict checked.now.client basis.now (tree_of tree.now)) }
{
    let own = least_table(alloc, checked)?;
    let whole = Whole {
        alloc,
        checked,
        basis,
        own: &own,
        tree,
    };
    let found = decide_tree_with(rt, &whole, workers, notice);
    drop(own);
    found
}

// The verdict on bytes, decoded, by their tree and by several threads.
fn decide_decoded_with<R: Threads + Wait + Sync, N: Notice + Sync>(
    rt: &R,
    alloc: Global,
    checked: &Checked,
    bytes: &[u8],
    workers: Workers,
    notice: &N,
) -> Result<Verdict, AllocError>
    ensures { IfOk result (IsVerdict checked.now.client bytes.now) }
{
    match decode(alloc, bytes) {
        Ok((basis, tree)) => {
            let found = decide_with_least_by(rt, alloc, checked, &basis, &tree, workers, notice);
            drop(tree);
            drop(basis);
            found
        }
        Err(error) => undecoded(error),
    }
}

// The verdict on bytes, by several threads: by their shape, where they are no certificate, and else by their tree.
fn decide_bytes_with<R: Threads + Wait + Sync, N: Notice + Sync>(
    rt: &R,
    alloc: Global,
    checked: &Checked,
    bytes: &[u8],
    workers: Workers,
    notice: &N,
) -> Result<Verdict, AllocError>
    ensures { IfOk result (IsVerdict checked.now.client bytes.now) }
{
    match decide_shape(alloc, bytes)? {
        Some(verdict) => Ok(verdict),
        None => decide_decoded_with(rt, alloc, checked, bytes, workers, notice),
    }
}

// The verdict on bytes that may lie in several parts, by their tree and by several threads. They are put together first.
fn decide_parts_with<R: Threads + Wait + Sync, N: Notice + Sync>(
    rt: &R,
    alloc: Global,
    checked: &Checked,
    bytes: &[u8],
    more: &[Seq<u8>],
    workers: Workers,
    notice: &N,
) -> Result<Verdict, AllocError>
    ensures { IfOk result (IsVerdict checked.now.client (text_of bytes.now more.now)) }
{
    match more {
        [] => decide_bytes_with(rt, alloc, checked, bytes, workers, notice),
        [_, ..] => {
            let all = put_together(alloc, bytes, more)?;
            let found = decide_bytes_with(rt, alloc, checked, all.as_slice(), workers, notice);
            drop(all);
            found
        }
    }
}

// The verdict on bytes that may lie in several parts, by several threads, who read all records.
fn verdict_read_with<R: Threads + Wait + Sync, W: Watch + Sync>(
    rt: &R,
    alloc: Global,
    checked: &Checked,
    bytes: &[u8],
    more: &[Seq<u8>],
    workers: Workers,
    watch: &W,
    remains: Remains,
) -> Result<Verdict, AllocError>
    ensures { IfOk result (IsVerdict checked.now.client (text_of bytes.now more.now)) }
{
    let told = Told { rt, watch };
    match scan_with(rt, alloc, checked, bytes, more, workers.count())? {
        Some(scanned) => {
            let found = decide_stored_with(rt, alloc, checked, &scanned, workers, &told);
            put_away(rt, scanned, workers.count(), remains);
            found
        }
        None => decide_parts_with(rt, alloc, checked, bytes, more, workers, &told),
    }
}

// The verdict on bytes that lie in one part, are dense and no certificate, if they are that.
fn decide_dense_part(
    alloc: Global,
    bytes: &[u8],
    more: &[Seq<u8>],
) -> Result<Option<Verdict>, AllocError>
    ensures { IfOk result (λ found. IfSome found (λ verdict. (c : Client) → IsVerdict c (text_of bytes.now more.now) verdict)) }
{
    match more {
        [] => decide_dense(alloc, bytes),
        [_, ..] => Ok(None),
    }
}

// The verdict on bytes that may lie in several parts, by several threads.
fn verdict_with<R: Threads + Wait + Sync, W: Watch + Sync>(
    rt: &R,
    alloc: Global,
    checked: &Checked,
    bytes: &[u8],
    more: &[Seq<u8>],
    workers: Workers,
    watch: &W,
    remains: Remains,
) -> Result<Verdict, AllocError>
    ensures { IfOk result (IsVerdict checked.now.client (text_of bytes.now more.now)) }
{
    match decide_dense_part(alloc, bytes, more)? {
        Some(verdict) => Ok(verdict),
        None => verdict_read_with(rt, alloc, checked, bytes, more, workers, watch, remains),
    }
}

// What is answered of a program text and bytes.
fn answer(alloc: Global, program: &[u8], cert: &[u8]) -> Result<Verdict, CheckError>
    ensures { IsAnswer program.now cert.now result }
{
    let checked = checked_of(alloc, program)?;
    let verdict = check_client(alloc, &checked, cert)?;
    Ok(verdict)
}

// The same of bytes that may lie in several parts, by several threads.
fn answer_with<R: Threads + Wait + Sync, W: Watch + Sync>(
    rt: &R,
    alloc: Global,
    program: &[u8],
    cert: &[u8],
    more: &[Seq<u8>],
    workers: Workers,
    watch: &W,
    remains: Remains,
) -> Result<Verdict, CheckError>
    ensures { IsAnswer program.now (text_of cert.now more.now) result }
{
    let checked = checked_of(alloc, program)?;
    let verdict = verdict_with(rt, alloc, &checked, cert, more, workers, watch, remains)?;
    Ok(verdict)
}

// The same of all parts of a certificate.
fn answer_parts<R: Threads + Wait + Sync, W: Watch + Sync>(
    rt: &R,
    alloc: Global,
    program: &[u8],
    parts: &[Seq<u8>],
    workers: Workers,
    watch: &W,
    remains: Remains,
) -> Result<Verdict, CheckError>
    ensures { IsAnswer program.now (whole_of parts.now) result }
{
    match parts.split_first() {
        None => answer_with(rt, alloc, program, &[], &[], workers, watch, remains),
        Some((first, more)) => {
            let first = first.as_slice();
            answer_with(rt, alloc, program, first, more, workers, watch, remains)
        }
    }
}

/// Decides a certificate for the client of a program text. Nothing is trusted: where it accepts, the text denotes a client, with
/// every thread and call of the text, and each run of this client on the x86-TSO machine (Sewell and others 2010) within its
/// loop bounds, ended or not, has no fault, and its calls and returns are linearizable (Herlihy and Wing 1990) against the
/// bounded queue of its mode and capacity. It answers `Program` exactly where the text has a fault, else `Accepted` exactly
/// where the certificate is valid for the client of the text; only want of memory may stand in place of an answer.
///
/// Errors: `Program` with the first fault of the text, which comes before all else; `Memory` where a growth was refused.
pub fn check(alloc: Global, program: &[u8], cert: &[u8]) -> Result<Verdict, CheckError>
    ensures answer { IsAnswer program.now cert.now result }
    ensures headline { result ≡ Ok verdicts.Accepted → IsVerified program.now }
    ensures exact { (other : Result AVerdict AnError) → IsAnswer program.now cert.now other → IsSameButMemory result other }
    ensures refused { (fault : AFault) → IsRefused program.now fault → (result ≡ Err (errors.Program fault)) ⊎ (result ≡ Err errors.Memory) }
    ensures valid { (c : Client) → DenotesChecked program.now c → IsValidCertificate c cert.now → (result ≡ Ok verdicts.Accepted) ⊎ (result ≡ Err errors.Memory) }
{
    answer(alloc, program, cert)
}

/// The same, by so many threads at most. Where it returns, its answer is that of `check`, the same fault, verdict, code and
/// record, want of memory aside, for every number of workers and every watch. Each record's number in the whole tree is told to
/// the watch before it is judged, by the thread that judges it.
///
/// The bytes are read first, by the halves of forks, and then the conditions of the bytes, the tree and the table are decided. Several
/// workers judge the records in pieces of the tree, some sixteen for each of them: who is done with one takes the next that nobody has
/// taken. What none of them can be started for, the caller judges.
///
/// Errors: those of `check`.
pub fn check_with<R: Threads + Wait + Sync, W: Watch + Sync>(
    rt: &R,
    alloc: Global,
    program: &[u8],
    cert: &[u8],
    workers: Workers,
    watch: &W,
) -> Result<Verdict, CheckError>
    ensures answer { IsAnswer program.now cert.now result }
    ensures headline { result ≡ Ok verdicts.Accepted → IsVerified program.now }
    ensures exact { (other : Result AVerdict AnError) → IsAnswer program.now cert.now other → IsSameButMemory result other }
    ensures refused { (fault : AFault) → IsRefused program.now fault → (result ≡ Err (errors.Program fault)) ⊎ (result ≡ Err errors.Memory) }
    ensures valid { (c : Client) → DenotesChecked program.now c → IsValidCertificate c cert.now → (result ≡ Ok verdicts.Accepted) ⊎ (result ≡ Err errors.Memory) }
{
    answer_with(
        rt,
        alloc,
        program,
        cert,
        &[],
        workers,
        watch,
        Remains::Freed,
    )
}

/// The same, of a certificate that lies in several parts, one behind another: its answer is that of `check` on all of them put together.
/// It is sooner where the parts are as many as there are workers, or half or a quarter as many, and the right half of each of the
/// certificate's first forks begins one (`tso_scan::seam_in`). Where they begin elsewhere they are put together first.
/// `remains` says whether what was read of them is let go of then.
///
/// Errors: those of `check`.
pub fn check_parts<R: Threads + Wait + Sync, W: Watch + Sync>(
    rt: &R,
    alloc: Global,
    program: &[u8],
    parts: &[Seq<u8>],
    workers: Workers,
    watch: &W,
    remains: Remains,
) -> Result<Verdict, CheckError>
    ensures answer { IsAnswer program.now (whole_of parts.now) result }
    ensures headline { result ≡ Ok verdicts.Accepted → IsVerified program.now }
    ensures exact { (other : Result AVerdict AnError) → IsAnswer program.now (whole_of parts.now) other → IsSameButMemory result other }
    ensures refused { (fault : AFault) → IsRefused program.now fault → (result ≡ Err (errors.Program fault)) ⊎ (result ≡ Err errors.Memory) }
    ensures valid { (c : Client) → DenotesChecked program.now c → IsValidCertificate c (whole_of parts.now) → (result ≡ Ok verdicts.Accepted) ⊎ (result ≡ Err errors.Memory) }
{
    answer_parts(rt, alloc, program, parts, workers, watch, remains)
}
