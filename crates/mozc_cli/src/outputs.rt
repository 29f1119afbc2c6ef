ghost use Rattle.std.specs.Prelude.{◌≡◌, ◌≢◌, ◌++◌, ◌<◌, Some, Ok, Err, codes, length};
ghost use Rattle.std.specs.Fmt.{signed_decimal};
ghost use Rattle.std.specs.String.{string_bytes};
ghost use Rattle.conversion_meaning.specs.Lattices.{AreBounds, IsKey};
ghost use Rattle.report.specs.Names.{AreNamed};
ghost use Rattle.run_meaning.specs.Worlds.{IsWorld};
ghost use Rattle.world_files.specs.Queries.{query_set, query_claim};
ghost use Rattle.world_files.specs.Reading.{Files, Reads, Tells};
ghost use Rattle.mozc_cli.specs.Args.{IsFit};
ghost use Rattle.mozc_cli.specs.Reported.{shown, TellsMeant};
ghost use Rattle.mozc_cli.specs.Settles.{Means, MeansVerdict, answered, check_meant, convert_meant, has_unmet, is_unmet, is_unmet_word, limited, list_output, output_of, replay_meant, replay_output, run_meant, run_output};

use crate::args::Request;
use crate::replay::replay;
use crate::verdict::verify;
use converter::convert;
use core_steps::{Core, World};
use engine::Engine;
use mz_base::{Certificate, DataSet, Limit, Line, Logs, NoUserWords, Refusal, Word};
use mz_outside::Store;
use report::{MOST_REPORT_BYTES, PrintError};
use std::alloc::Global;
use world_files::{
    Bounds, Name, Query, Replay, played_logs_are_named, read_claim, read_listing, read_replay,
    read_set, read_world,
};

/// What a command writes, and whether a line of it is unmet.
#[derive(Drop)]
pub struct Output {
    pub text: Vec<u8>,
    pub unmet: bool,
}

pub fn output_for<S: Store>(
    alloc: Global,
    store: &mut S,
    request: &Request<'_>,
) -> Result<Output, Refusal>
    requires { IsFit request.now }
    ensures told { (files : Files) → S.files store.old ≡ Some files → TellsMeant (Means files request.now) result }
    ensures reads { Reads (S.files store.old) (S.files store.new) (S.faults store.old) (S.faults store.new) result }
{
    match request {
        Request::Run(name) => report_in(alloc, store, name),
        Request::Replay(name, schedule) => replay_in(alloc, store, name, schedule),
        Request::Check(name) => listing_in(alloc, store, name),
        Request::Convert(query, bounds) => conversion_in(alloc, store, query, bounds),
        Request::Verify(query, name) => verdict_in(alloc, store, query, name),
    }
}

fn report_in<S: Store>(alloc: Global, store: &mut S, name: &Name<'_>) -> Result<Output, Refusal>
    ensures told { (files : Files) → S.files store.old ≡ Some files → Tells shown result (run_meant files name.now) }
    ensures reads { Reads (S.files store.old) (S.files store.new) (S.faults store.old) (S.faults store.new) result }
{
    let name = name.to_text(alloc)?;
    let world = read_world(alloc, store, &name)?;
    run(alloc, world)
}

fn replay_in<S: Store>(
    alloc: Global,
    store: &mut S,
    name: &Name<'_>,
    schedule: &Name<'_>,
) -> Result<Output, Refusal>
    ensures told { (files : Files) → S.files store.old ≡ Some files → Tells shown result (replay_meant files name.now schedule.now) }
    ensures reads { Reads (S.files store.old) (S.files store.new) (S.faults store.old) (S.faults store.new) result }
{
    let name = name.to_text(alloc)?;
    let schedule = schedule.to_text(alloc)?;
    let given = read_replay(alloc, store, &name, &schedule)?;
    replayed(alloc, given)
}

/// The report of a world's run.
fn run(alloc: Global, world: World<Engine>) -> Result<Output, Refusal>
    requires { IsWorld world }
    ensures told { Tells shown result (run_output world) }
    ensures reads_nothing { result ≢ Err Refusal.ReadFault }
{
    let mut core = Core::new(alloc, world)?;
    core.run()?;
    report_of(alloc, &core)
}

/// The report of what a schedule leads to.
fn replayed(alloc: Global, given: Replay) -> Result<Output, Refusal>
    requires { IsWorld given.world }
    ensures told { Tells shown result (replay_output given.world given.schedule) }
    ensures reads_nothing { result ≢ Err Refusal.ReadFault }
{
    let core = replay(alloc, given.world, given.schedule.into_vec())?;
    report_of(alloc, &core)
}

/// The report of what a core has made.
fn report_of<D: DataSet + Drop>(alloc: Global, core: &Core<D>) -> Result<Output, Refusal>
    requires { IsWorld core.now.world }
    ensures told { Tells shown result (limited (output_of core.now.state.logs)) }
    ensures reads_nothing { result ≢ Err Refusal.ReadFault }
{
    core.is_played();
    played_logs_are_named();
    print(alloc, core.logs())
}

fn print(alloc: Global, logs: &Logs) -> Result<Output, Refusal>
    requires { AreNamed logs.now }
    ensures told { Tells shown result (limited (output_of logs.now)) }
    ensures reads_nothing { result ≢ Err Refusal.ReadFault }
{
    match report::print(alloc, logs) {
        Ok(text) => Ok(Output {
            text,
            unmet: is_unmet(logs),
        }),
        Err(PrintError::TooLarge) => Err(Refusal::TooLarge(Limit::Report)),
        Err(PrintError::NoMemory) => Err(Refusal::Memory),
    }
}

fn listing_in<S: Store>(alloc: Global, store: &mut S, name: &Name<'_>) -> Result<Output, Refusal>
    ensures told { (files : Files) → S.files store.old ≡ Some files → Tells shown result (check_meant files name.now) }
    ensures reads { Reads (S.files store.old) (S.files store.new) (S.faults store.old) (S.faults store.new) result }
{
    let name = name.to_text(alloc)?;
    let text = read_listing(alloc, store, &name)?;
    Ok(Output {
        text: text.into_bytes(),
        unmet: false,
    })
}

fn conversion_in<S: Store>(
    alloc: Global,
    store: &mut S,
    query: &Query<'_>,
    bounds: &Bounds<'_>,
) -> Result<Output, Refusal>
    requires some { 0 < length query.now.key }
    requires bounds { AreBounds query.now.key bounds.now }
    ensures told { (files : Files) → S.files store.old ≡ Some files → Tells shown result (convert_meant files query.now bounds.now) }
    ensures reads { Reads (S.files store.old) (S.files store.new) (S.faults store.old) (S.faults store.new) result }
{
    let key = query.key.to_text(alloc)?;
    match read_set(alloc, store, query) {
        Ok(set) => converted(alloc, &set, key.as_chars(), bounds),
        Err(refusal) => Err(refusal),
    }
}

fn verdict_in<S: Store>(
    alloc: Global,
    store: &mut S,
    query: &Query<'_>,
    name: &Name<'_>,
) -> Result<Output, Refusal>
    requires { 0 < length query.now.key }
    ensures told { (files : Files) → S.files store.old ≡ Some files → TellsMeant (MeansVerdict query.now.key (query_claim files query.now name.now)) result }
    ensures reads { Reads (S.files store.old) (S.files store.new) (S.faults store.old) (S.faults store.new) result }
{
    let key = query.key.to_text(alloc)?;
    let name = name.to_text(alloc)?;
    match read_claim(alloc, store, query, &name) {
        Ok(claim) => judged(alloc, &claim.set, key.as_chars(), &claim.certificate),
        Err(refusal) => Err(refusal),
    }
}

fn converted<D: DataSet>(
    alloc: Global,
    set: &D,
    key: &[char],
    bounds: &Bounds<'_>,
) -> Result<Output, Refusal>
    requires key { IsKey key.now }
    requires bounds { AreBounds key.now bounds.now }
    ensures told { Tells shown result (answered key.now bounds.now (D.lists set.now)) }
    ensures reads_nothing { result ≢ Err Refusal.ReadFault }
{
    let bounds = bounds.to_vec(alloc)?;
    let nobody = NoUserWords::new(alloc);
    let conversion = convert(alloc, set, &nobody, &[], key, bounds.as_slice())?;
    let text = conversion_text::print(alloc, key, &conversion)?;
    listed(text)
}

fn judged<D: DataSet>(
    alloc: Global,
    set: &D,
    key: &[char],
    certificate: &Certificate,
) -> Result<Output, Refusal>
    requires key { IsKey key.now }
    requires bounds { AreBounds key.now certificate.now.bounds }
    ensures told { TellsMeant (MeansVerdict key.now (Ok (record { set = D.lists set.now; certificate = certificate.now }))) result }
    ensures reads_nothing { result ≢ Err Refusal.ReadFault }
{
    match verify(alloc, set, key, certificate)? {
        Ok(()) => verdict_output(alloc, certificate.total),
        Err(fault) => Err(Refusal::BadCertificate(fault)),
    }
}

fn verdict_output(alloc: Global, total: i64) -> Result<Output, Refusal>
    ensures told { Tells shown result (limited (list_output (codes "ok\t" ++ (signed_decimal total ++ codes "\n")))) }
    ensures reads_nothing { result ≢ Err Refusal.ReadFault }
{
    let mut text = String::new(alloc);
    write!(&mut text, "ok\t{total}\n")?;
    listed(text)
}

/// A text in which nothing is expected, as an output that is not too large.
fn listed(text: String) -> Result<Output, Refusal>
    ensures told { Tells shown result (limited (list_output (string_bytes text))) }
    ensures reads_nothing { result ≢ Err Refusal.ReadFault }
{
    limited(Output {
        text: text.into_bytes(),
        unmet: false,
    })
}

fn limited(output: Output) -> Result<Output, Refusal>
    ensures told { Tells shown result (limited (shown output)) }
    ensures reads_nothing { result ≢ Err Refusal.ReadFault }
{
    if MOST_REPORT_BYTES < output.text.len() {
        return Err(Refusal::TooLarge(Limit::Report));
    }
    Ok(output)
}

fn is_unmet(logs: &Logs) -> bool
    ensures { result ≡ is_unmet logs.now }
{
    logs.clients
        .as_slice()
        .iter()
        .any(|client| has_unmet(client.lines.as_slice()))
}

fn has_unmet(lines: &[Line]) -> bool
    ensures { result ≡ has_unmet lines.now }
{
    lines.iter().any(|line| is_unmet_word(line.word))
}

fn is_unmet_word(word: Word) -> bool
    ensures { result ≡ is_unmet_word word }
{
    matches!(word, Word::Differs | Word::NotYet)
}
