ghost use Rattle.std.specs.Prelude.{◌≡◌, ◌≢◌, ◌-◌, ◌<◌, ◌≤◌, ◌^◌, ℕ, List, Some, None, Err, IfOk, filter, length, position};
ghost use Rattle.mz_base.specs.Data.{is_text};
ghost use Rattle.mz_base.specs.Lines.{lines_of};
ghost use Rattle.mz_base.specs.declared.lattice.TheConstants.{MOST_KEY};
ghost use Rattle.cert_text.specs.Readings.{certificate_of};
ghost use Rattle.conversion_meaning.specs.Lattices.{AreBounds};
ghost use Rattle.world_files.specs.Claims.{claimed};
ghost use Rattle.world_files.specs.Queries.{short_key, or_no_set, set_number, lines_of_set, set_files, all_files, query_set, or_text_fault, claim_in, query_claim};
ghost use Rattle.world_files.specs.Reading.{Files, Reads, Tells, IsRefusal};

use crate::name::Name;
use crate::reading::{DataFile, Found, read_file, read_files};
use crate::sets::set_in;
use crate::world::open_manifest;
use cert_text::TextError;
use engine::{Engine, SetFile};
use mz_base::{CertFault, Certificate, DataSet, Limit, MOST_KEY, NoMemory, Refusal, Text};
use mz_outside::Store;
use scenario::{FileLine, place_among};
use std::alloc::Global;

/// What is asked of one data set: its manifest, its name, and a key.
#[derive(Drop)]
pub struct Query<'a> {
    /// The path of the manifest.
    pub manifest: Name<'a>,
    pub set: Name<'a>,
    pub key: Name<'a>,
}

/// A data set, and what is claimed of a key in it.
#[derive(Drop)]
pub struct Claim {
    pub set: Engine,
    pub certificate: Certificate,
}

/// Reads and builds the data set that is asked of.
#[tactic(auto, unfolding(crate::specs::Queries::query_set))]
pub fn read_set<S: Store>(
    alloc: Global,
    store: &mut S,
    query: &Query<'_>,
) -> Result<Engine, Refusal>
    ensures told { (files : Files) → S.files store.old ≡ Some files → Tells (λ engine. ⟦<Engine as DataSet>⟧.lists engine) result (query_set files query.now) }
    ensures short { IfOk result (λ _. length query.now.key ≤ MOST_KEY) }
    ensures reads { Reads (S.files store.old) (S.files store.new) (S.faults store.old) (S.faults store.new) result }
{
    let found = set_files(alloc, store, query)?;
    let files = all_files(alloc, found.files.into_vec())?;
    set_in(alloc, files)
}

/// Reads the data set that is asked of and the certificate in the file of this name.
#[tactic(auto, unfolding(crate::specs::Queries::query_claim))]
pub fn read_claim<S: Store>(
    alloc: Global,
    store: &mut S,
    query: &Query<'_>,
    name: &Text,
) -> Result<Claim, Refusal>
    ensures told { (files : Files) → S.files store.old ≡ Some files → Tells (λ claim. claimed claim (⟦<Engine as DataSet>⟧.lists claim.set)) result (query_claim files query.now name.now) }
    ensures short { IfOk result (λ _. length query.now.key ≤ MOST_KEY) }
    ensures bounds { IfOk result (λ claim. AreBounds query.now.key claim.certificate.bounds) }
    ensures reads { Reads (S.files store.old) (S.files store.new) (S.faults store.old) (S.faults store.new) result }
{
    let found = set_files(alloc, store, query)?;
    let bytes = read_file(alloc, store, found.left, name)?;
    let files = all_files(alloc, found.files.into_vec())?;
    let set = set_in(alloc, files)?;
    claim_in(alloc, set, &query.key, bytes.as_slice())
}

/// What the text of a certificate claims of a key in a set.
fn claim_in(alloc: Global, set: Engine, key: &Name<'_>, bytes: &[u8]) -> Result<Claim, Refusal>
    requires { length key.now ≤ MOST_KEY }
    ensures told { Tells (λ claim. claimed claim (⟦<Engine as DataSet>⟧.lists claim.set)) result (claim_in (⟦<Engine as DataSet>⟧.lists set) key.now bytes.now) }
    ensures bounds { IfOk result (λ claim. AreBounds key.now claim.certificate.bounds) }
    ensures reads_nothing { result ≢ Err Refusal.ReadFault }
{
    let certificate = certificate_in(alloc, key, bytes)?;
    Ok(Claim { set, certificate })
}

#[tactic(auto, unfolding(crate::specs::Queries::set_files))]
fn set_files<S: Store>(alloc: Global, store: &mut S, query: &Query<'_>) -> Result<Found, Refusal>
    ensures told { (files : Files) → S.files store.old ≡ Some files → Tells (λ found. found) result (set_files files query.now) }
    ensures short { IfOk result (λ _. length query.now.key ≤ MOST_KEY) }
    ensures few { IfOk result (λ found. length found.files < 2 ^ 32) }
    ensures reads { Reads (S.files store.old) (S.files store.new) (S.faults store.old) (S.faults store.new) result }
{
    short_key(&query.key)?;
    let path = query.manifest.to_text(alloc)?;
    let set = query.set.to_text(alloc)?;
    let start = open_manifest(alloc, store, &path)?;
    let manifest = start.manifest;
    let number = set_number(alloc, &set, manifest.sets.as_slice())?;
    let lines = lines_of_set(alloc, number, manifest.files.into_vec())?;
    let found = read_files(alloc, store, start.left, lines.as_slice())?;
    Ok(found)
}

fn short_key(key: &Name<'_>) -> Result<(), Refusal>
    ensures told { Tells (λ _. key.now) result (short_key key.now) }
    ensures short { IfOk result (λ _. length key.now ≤ MOST_KEY) }
    ensures reads_nothing { result ≢ Err Refusal.ReadFault }
{
    if MOST_KEY < key.count() {
        return Err(Refusal::TooLarge(Limit::Key));
    }
    Ok(())
}

/// The number of the set of this name, from 1.
fn set_number(alloc: Global, name: &Text, names: &[Text]) -> Result<u32, Refusal>
    requires { length names.now < 2 ^ 32 - 1 }
    ensures told { Tells (λ number. number) result (set_number name.now names.now) }
    ensures reads_nothing { result ≢ Err Refusal.ReadFault }
{
    match place_among(names, name.as_chars()) {
        Some(place) => Ok(place as u32 + 1),
        None => Err(no_set(alloc, name)),
    }
}

fn no_set(alloc: Global, name: &Text) -> Refusal
    ensures told { IsRefusal result (or_no_set name.now None) }
    ensures reads_nothing { result ≢ Refusal.ReadFault }
{
    match name.copy(alloc) {
        Ok(name) => Refusal::NoSet(name),
        Err(NoMemory) => Refusal::Memory,
    }
}

fn lines_of_set(alloc: Global, number: u32, lines: Vec<FileLine>) -> Result<Vec<FileLine>, NoMemory>
    ensures { IfOk result (λ own. own.items ≡ lines_of_set number lines.items) }
{
    Ok(
        lines
            .into_iter()
            .filter(|line| line.set == number)
            .collect(alloc)?,
    )
}

fn all_files(alloc: Global, found: Vec<DataFile>) -> Result<Vec<SetFile>, NoMemory>
    ensures { IfOk result (λ files. files.items ≡ all_files found.items) }
{
    Ok(found.into_iter().map(|file| file.file).collect(alloc)?)
}

fn certificate_in(alloc: Global, key: &Name<'_>, bytes: &[u8]) -> Result<Certificate, Refusal>
    requires { length key.now ≤ MOST_KEY }
    ensures told { Tells (λ certificate. certificate) result (or_text_fault (certificate_of (length key.now) (lines_of bytes.now))) }
    ensures bounds { IfOk result (λ certificate. AreBounds key.now certificate.bounds) }
    ensures reads_nothing { result ≢ Err Refusal.ReadFault }
{
    match cert_text::read(alloc, key.count(), bytes) {
        Ok(certificate) => Ok(certificate),
        Err(TextError::Line(line)) => Err(Refusal::BadCertificate(CertFault::Text { line })),
        Err(TextError::NoMemory) => Err(Refusal::Memory),
    }
}
