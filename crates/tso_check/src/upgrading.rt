//! Certificates of version 1 as ones of version 2.

ghost use Rattle.std.specs.Prelude.{◌≡◌, ◌⊎◌, Err, IfErr, IfOk, IfSome, Ok, Result, Some, slice_get};
ghost use Rattle.tso_cells.specs.Inductive.{IsInductive};
ghost use Rattle.tso_cert.specs.Certificates.{Spells, certificate_at};
ghost use Rattle.tso_cert.specs.Seen.{AreSeen, AreWithin, Keeps, StateIsSeen};
ghost use Rattle.tso_cert.specs.Trees.{IsWithinLimits, Tree, tree_of};
ghost use Rattle.tso_check.specs.Spans.{IsStored};
ghost use Rattle.tso_check.specs.Upgrades.{HasRecords, IsMadeFor, IsNoAcceptance, IsNotRenewed, IsNotUpgraded, IsRenewed, IsRenewedWith, IsUpgraded};
ghost use Rattle.tso_check.specs.Verdicts.{IsAnswer};
ghost use Rattle.tso_check.specs.declared.upgrading.UpgradeError.TheVariants as failures;
ghost use Rattle.tso_check.specs.declared.verdict.Verdict.{Verdict as AVerdict};
ghost use Rattle.tso_check.specs.declared.verdict.Verdict.TheVariants as verdicts;
ghost use Rattle.tso_client.specs.declared.error.CheckError.{CheckError as AnError};
ghost use Rattle.tso_foot.specs.Narrower.{IsNarrowerThanClosed};
ghost use Rattle.tso_foot.specs.declared.table.Table.TheVariants.{Intervals};
ghost use Rattle.tso_judge.specs.Valid.{IsValidCertificate};
ghost use Rattle.tso_rec.specs.Bases.{by_steps};
ghost use Rattle.tso_scan.specs.Scanned.{IsScanned, IsScannedTree};
ghost use Rattle.tso_state.specs.declared.state.State.{State as AState};

use crate::deciding::verdict_on;
use crate::verdict::Verdict;
use std::alloc::{AllocError, Global};
use tso_cells::{Hull, IntervalTable};
use tso_cert::{
    Cert, build_intervals, decode, encode, encode_before, intervals_of, read_front, take_state,
};
use tso_client::{CheckError, checked_of};
use tso_flow::Checked;
use tso_foot::Table;
use tso_prog::Client;
use tso_rec::{Basis, Grain};
use tso_scan::{Scanned, scan};
use tso_store::Store;

/// Why a certificate was not upgraded.
#[derive(Clone, Copy, PartialEq, Eq)]
pub enum UpgradeError {
    /// `check` does not accept it, and answers this.
    NotAccepted(Result<Verdict, CheckError>),
    /// A growth was refused.
    Memory,
}

/// A certificate with a table of intervals.
#[derive(Drop)]
pub struct Renewed {
    pub bytes: Vec<u8>,
    /// How many records it has.
    pub records: u64,
}

impl From<AllocError> for UpgradeError {
    ghost from_gives = { λ _ e. e ≡ failures.Memory };

    fn from(_e: AllocError) -> UpgradeError {
        UpgradeError::Memory
    }
}

// The spelling of a tree with a table of intervals that is made for it.
fn spelled_anew(alloc: Global, checked: &Checked, tree: &Cert) -> Result<Vec<u8>, AllocError>
    ensures { IfOk result (λ new. IsMadeFor checked.now.client (tree_of tree.now) new.items) }
{
    let table = Table::Intervals(build_intervals(alloc, checked, tree)?);
    encode(alloc, Grain::Steps, &table, tree)
}

// The bytes of a valid certificate of this basis and tree with a table of intervals. One of crossings has such a table.
fn respelled(
    alloc: Global,
    checked: &Checked,
    basis: &Basis,
    tree: &Cert,
    bytes: &[u8],
) -> Result<Vec<u8>, AllocError>
    requires valid { IsValidCertificate checked.now.client bytes.now }
    requires spelled { Spells bytes.now basis.now (tree_of tree.now) × IsWithinLimits (tree_of tree.now) }
    ensures { IfOk result (λ new. IsRenewed checked.now.client (tree_of tree.now) bytes.now new.items) }
{
    match &basis.table {
        Table::Arrays(_) => match basis.grain {
            Grain::Steps => spelled_anew(alloc, checked, tree),
            Grain::Crossings => Err(AllocError),
        },
        Table::Intervals(_) => Vec::from_slice(alloc, bytes),
    }
}

// A valid certificate with a table of intervals, by its tree.
fn tree_upgraded(alloc: Global, checked: &Checked, bytes: &[u8]) -> Result<Renewed, AllocError>
    requires { IsValidCertificate checked.now.client bytes.now }
    ensures { IfOk result (λ r. IsRenewedWith checked.now.client bytes.now r.bytes.items r.records) }
{
    match decode(alloc, bytes) {
        Ok((basis, tree)) => {
            let new = respelled(alloc, checked, &basis, &tree, bytes);
            let records = tree.len();
            drop(tree);
            drop(basis);
            Ok(Renewed {
                bytes: new?,
                records,
            })
        }
        Err(_) => Err(AllocError),
    }
}

// The registers of a state in a store are seen, if it has so many.
fn take_number(hull: &mut Hull, store: &Store<'_>, number: u32)
    ensures keeps { Keeps hull.old hull.new }
    ensures seen { (s : AState) → slice_get store.now.states number ≡ Some s → StateIsSeen hull.new s }
{
    if let Some(state) = store.view(number) {
        take_state(hull, &state);
    }
}

// Those of all states of a certificate in a store.
fn take_stored(hull: &mut Hull, client: &Client, scanned: &Scanned<'_>)
    requires { IsStored client.now scanned.now }
    ensures keeps { Keeps hull.old hull.new }
    ensures seen { AreSeen hull.new scanned.now.store.states }
{
    for number in 0..scanned.shape.len() {
        take_number(hull, &scanned.store, number as u32);
    }
}

// A table of intervals that is made for the states of a certificate in a store.
fn stored_intervals(
    alloc: Global,
    checked: &Checked,
    scanned: &Scanned<'_>,
) -> Result<IntervalTable, AllocError>
    requires { IsStored checked.now.client scanned.now }
    ensures inductive { IfOk result (IsInductive checked.now.client) }
    ensures held { IfOk result (λ t. AreWithin (Intervals t) scanned.now.store.states) }
    ensures narrow { IfOk result (IsNarrowerThanClosed checked.now.client) }
{
    let mut hull = Hull::empty(alloc, checked)?;
    take_stored(&mut hull, &checked.client, scanned);
    intervals_of(alloc, checked, &hull)
}

// Such a table before the bytes of the tree.
fn stored_anew(
    alloc: Global,
    checked: &Checked,
    scanned: &Scanned<'_>,
    bytes: &[u8],
) -> Result<Vec<u8>, AllocError>
    requires { IsStored checked.now.client scanned.now }
    ensures { (tree : Tree) → Spells bytes.now (by_steps scanned.now.table) tree → IsScannedTree checked.now.client tree scanned.now → IfOk result (λ new. IsMadeFor checked.now.client tree new.items) }
{
    let table = Table::Intervals(stored_intervals(alloc, checked, scanned)?);
    match read_front(alloc, bytes) {
        Ok((old, tree)) => {
            drop(old);
            let new = encode_before(alloc, Grain::Steps, &table, tree);
            drop(table);
            new
        }
        Err(_) => {
            drop(table);
            Err(AllocError)
        }
    }
}

// The bytes of a valid certificate with a table of intervals, by the store that they were read into.
fn stored_upgraded(
    alloc: Global,
    checked: &Checked,
    scanned: &Scanned<'_>,
    bytes: &[u8],
) -> Result<Vec<u8>, AllocError>
    requires stored { IsStored checked.now.client scanned.now }
    requires valid { IsValidCertificate checked.now.client bytes.now }
    ensures { (tree : Tree) → certificate_at bytes.now ≡ Ok (by_steps scanned.now.table, tree) → IsScannedTree checked.now.client tree scanned.now → IfOk result (λ new. IsRenewed checked.now.client tree bytes.now new.items) }
{
    match &scanned.table {
        Table::Arrays(_) => stored_anew(alloc, checked, scanned, bytes),
        Table::Intervals(_) => Vec::from_slice(alloc, bytes),
    }
}

// A valid certificate with a table of intervals, by what was read of it straight into a store, if it could be read so.
fn upgraded(
    alloc: Global,
    checked: &Checked,
    scanned: &Option<Scanned<'_>>,
    bytes: &[u8],
) -> Result<Renewed, AllocError>
    requires scanned { IfSome scanned.now (IsScanned checked.now.client bytes.now) }
    requires valid { IsValidCertificate checked.now.client bytes.now }
    ensures { IfOk result (λ r. IsRenewedWith checked.now.client bytes.now r.bytes.items r.records) }
{
    match scanned {
        Some(scanned) => Ok(Renewed {
            bytes: stored_upgraded(alloc, checked, scanned, bytes)?,
            records: scanned.shape.len(),
        }),
        None => tree_upgraded(alloc, checked, bytes),
    }
}

// The same of a certificate that is accepted, by what was read of it; else why not.
fn upgraded_by(
    alloc: Global,
    checked: &Checked,
    scanned: &Option<Scanned<'_>>,
    bytes: &[u8],
) -> Result<Renewed, UpgradeError>
    requires { IfSome scanned.now (IsScanned checked.now.client bytes.now) }
    ensures renewed { IfOk result (λ r. IsRenewedWith checked.now.client bytes.now r.bytes.items r.records) }
    ensures refused { IfErr result (IsNotRenewed checked.now.client bytes.now) }
{
    match verdict_on(alloc, checked, scanned, bytes)? {
        Verdict::Accepted => {
            let renewed = upgraded(alloc, checked, scanned, bytes)?;
            Ok(renewed)
        }
        Verdict::Rejected { code, place } => {
            Err(UpgradeError::NotAccepted(Ok(Verdict::Rejected { code, place })))
        }
    }
}

// The same of a certificate that is accepted for a client; else why not.
fn upgraded_of(alloc: Global, checked: &Checked, bytes: &[u8]) -> Result<Renewed, UpgradeError>
    ensures renewed { IfOk result (λ r. IsRenewedWith checked.now.client bytes.now r.bytes.items r.records) }
    ensures refused { IfErr result (IsNotRenewed checked.now.client bytes.now) }
{
    let scanned = scan(alloc, checked, bytes)?;
    let renewed = upgraded_by(alloc, checked, &scanned, bytes);
    drop(scanned);
    renewed
}

// The same of a certificate that `check` accepts for the client of a text; else why not.
fn upgraded_for(alloc: Global, program: &[u8], cert: &[u8]) -> Result<Renewed, UpgradeError>
    ensures upgraded { IfOk result (λ r. IsUpgraded program.now cert.now r.bytes.items) }
    ensures counted { IfOk result (λ r. HasRecords r.bytes.items r.records) }
    ensures refused { IfErr result (λ e. IsNotUpgraded program.now cert.now e) }
{
    match checked_of(alloc, program) {
        Ok(checked) => upgraded_of(alloc, &checked, cert),
        Err(CheckError::Memory) => Err(UpgradeError::Memory),
        Err(error) => Err(UpgradeError::NotAccepted(Err(error))),
    }
}

/// What `upgrade` answers, with the number of its records, which nobody has to count once more.
///
/// Errors: those of `upgrade`.
pub fn upgrade_counted(alloc: Global, program: &[u8], cert: &[u8]) -> Result<Renewed, UpgradeError>
    ensures upgraded { IfOk result (λ r. IsUpgraded program.now cert.now r.bytes.items) }
    ensures counted { IfOk result (λ r. HasRecords r.bytes.items r.records) }
    ensures refused { IfErr result (λ e. IsNotUpgraded program.now cert.now e) }
    ensures exact { (answer : Result AVerdict AnError) → IsAnswer program.now cert.now answer → IsNoAcceptance answer → (result ≡ Err (failures.NotAccepted answer)) ⊎ (result ≡ Err failures.Memory) }
    ensures accepted { IsAnswer program.now cert.now (Ok verdicts.Accepted) → IfErr result (λ e. e ≡ failures.Memory) }
{
    upgraded_for(alloc, program, cert)
}

/// The certificate with a table of intervals, where `check` accepts it for the client of the text: the tree's bytes are the same,
/// and `check` accepts the new bytes, or lacks memory. What has such a table already comes back unchanged.
///
/// Errors: `NotAccepted` with what `check` answers; `Memory` where a growth was refused.
pub fn upgrade(alloc: Global, program: &[u8], cert: &[u8]) -> Result<Vec<u8>, UpgradeError>
    ensures upgraded { IfOk result (λ new. IsUpgraded program.now cert.now new.items) }
    ensures refused { IfErr result (λ e. IsNotUpgraded program.now cert.now e) }
    ensures exact { (answer : Result AVerdict AnError) → IsAnswer program.now cert.now answer → IsNoAcceptance answer → (result ≡ Err (failures.NotAccepted answer)) ⊎ (result ≡ Err failures.Memory) }
    ensures accepted { IsAnswer program.now cert.now (Ok verdicts.Accepted) → IfErr result (λ e. e ≡ failures.Memory) }
{
    match upgraded_for(alloc, program, cert) {
        Ok(renewed) => Ok(renewed.bytes),
        Err(error) => Err(error),
    }
}
