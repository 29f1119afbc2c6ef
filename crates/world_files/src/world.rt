ghost use Rattle.std.specs.Prelude.{◌≡◌, ◌≢◌, ◌<◌, ◌≤◌, ◌^◌, ◌-◌, [], Some, Err, IfOk, length};
ghost use Rattle.std.specs.String.{string_bytes};
ghost use Rattle.run_meaning.specs.Worlds.{IsWorld};
ghost use Rattle.scenario.specs.Sound.{IsSound};
ghost use Rattle.world_files.specs.Reading.{Files, Reads, Tells};
ghost use Rattle.world_files.specs.Sound.{AreSound};
ghost use Rattle.world_files.specs.Worlds.{built, listing, opened, replay, sources, world};

use crate::dictionaries::read_reloads;
use crate::listing::list;
use crate::manifest::manifest_in;
use crate::reading::{DataFile, MOST_READ_BYTES, read_file, read_files};
use crate::reload::Reload;
use crate::scripts::{clients_in, read_scripts};
use crate::sets::{all_sets, jobs_of};
use crate::users::plans_of;
use core_steps::{ClientPlan, World};
use engine::Engine;
use mz_base::{Refusal, Seq, Text};
use mz_outside::Store;
use scenario::Manifest;
use std::alloc::Global;

/// A manifest, and the bytes that may be read after it.
#[derive(Drop)]
pub struct Opened {
    pub manifest: Manifest,
    pub left: usize,
}

/// All that a run reads before its first set is built, and the bytes that may be read after it.
#[derive(Drop)]
pub struct Sources {
    pub manifest: Manifest,
    pub clients: Seq<ClientPlan>,
    pub files: Seq<DataFile>,
    pub reloads: Seq<Reload>,
    pub left: usize,
}

/// A world, and the file of a schedule.
#[derive(Drop)]
pub struct Replay {
    pub world: World<Engine>,
    pub schedule: Seq<u8>,
}

/// Reads what a run needs, in the order of work, and builds its data sets.
pub fn read_world<S: Store>(
    alloc: Global,
    store: &mut S,
    name: &Text,
) -> Result<World<Engine>, Refusal>
    ensures told { (files : Files) → S.files store.old ≡ Some files → Tells (λ world. world) result (world files name.now) }
    ensures world { IfOk result IsWorld }
    ensures reads { Reads (S.files store.old) (S.files store.new) (S.faults store.old) (S.faults store.new) result }
{
    let read = read_sources(alloc, store, name)?;
    built(alloc, read)
}

/// Reads what a run needs, and a schedule's file after it, and builds the data sets.
#[tactic(auto, unfolding(crate::specs::Worlds::replay))]
pub fn read_replay<S: Store>(
    alloc: Global,
    store: &mut S,
    name: &Text,
    schedule: &Text,
) -> Result<Replay, Refusal>
    ensures told { (files : Files) → S.files store.old ≡ Some files → Tells (λ given. given) result (replay files name.now schedule.now) }
    ensures world { IfOk result (λ given. IsWorld given.world) }
    ensures reads { Reads (S.files store.old) (S.files store.new) (S.faults store.old) (S.faults store.new) result }
{
    let read = read_sources(alloc, store, name)?;
    let bytes = read_file(alloc, store, read.left, schedule)?;
    let world = built(alloc, read)?;
    Ok(Replay {
        world,
        schedule: Seq::from_vec(bytes),
    })
}

/// Reads the manifest, all data files and all users' dictionaries, and lists the data sets and the dictionaries.
#[tactic(auto, unfolding(crate::specs::Worlds::listing))]
pub fn read_listing<S: Store>(alloc: Global, store: &mut S, name: &Text) -> Result<String, Refusal>
    ensures told { (files : Files) → S.files store.old ≡ Some files → Tells (λ text. string_bytes text) result (listing files name.now) }
    ensures reads { Reads (S.files store.old) (S.files store.new) (S.faults store.old) (S.faults store.new) result }
{
    let start = open_manifest(alloc, store, name)?;
    let manifest = start.manifest;
    let found = read_files(alloc, store, start.left, manifest.files.as_slice())?;
    let dicts = read_reloads(alloc, store, found.left, manifest.dicts.as_slice())?;
    let sets = all_sets(alloc, found.files.into_vec(), manifest.sets.as_slice())?;
    list(
        alloc,
        sets.as_slice(),
        dicts.reloads.as_slice(),
        manifest.users.as_slice(),
    )
}

#[tactic(auto, unfolding(crate::specs::Worlds::opened))]
pub fn open_manifest<S: Store>(alloc: Global, store: &mut S, name: &Text) -> Result<Opened, Refusal>
    ensures told { (files : Files) → S.files store.old ≡ Some files → Tells (λ opened. opened) result (opened files name.now) }
    ensures few { IfOk result (λ opened. length opened.manifest.files < 2 ^ 32) }
    ensures sets { IfOk result (λ opened. length opened.manifest.sets < 2 ^ 32 - 1) }
    ensures users { IfOk result (λ opened. length opened.manifest.users < 2 ^ 32 - 1) }
    ensures sound { IfOk result (λ opened. IsSound opened.manifest) }
    ensures reads { Reads (S.files store.old) (S.files store.new) (S.faults store.old) (S.faults store.new) result }
{
    let bytes = read_file(alloc, store, MOST_READ_BYTES, name)?;
    let manifest = manifest_in(alloc, bytes.as_slice())?;
    Ok(Opened {
        manifest,
        left: MOST_READ_BYTES - bytes.len(),
    })
}

/// Reads all that a run needs: the manifest, the scripts, the data files and the users' dictionaries, in this order.
#[tactic(auto, unfolding(crate::specs::Worlds::sources))]
fn read_sources<S: Store>(alloc: Global, store: &mut S, name: &Text) -> Result<Sources, Refusal>
    ensures told { (files : Files) → S.files store.old ≡ Some files → Tells (λ read. read) result (sources files name.now) }
    ensures sound { IfOk result AreSound }
    ensures reads { Reads (S.files store.old) (S.files store.new) (S.faults store.old) (S.faults store.new) result }
{
    let start = open_manifest(alloc, store, name)?;
    let manifest = start.manifest;
    let scripts = read_scripts(alloc, store, start.left, manifest.clients.as_slice())?;
    let clients = clients_in(alloc, scripts.scripts.as_slice())?;
    let found = read_files(alloc, store, scripts.left, manifest.files.as_slice())?;
    let dicts = read_reloads(alloc, store, found.left, manifest.dicts.as_slice())?;
    Ok(Sources {
        manifest,
        clients,
        files: found.files,
        reloads: dicts.reloads,
        left: dicts.left,
    })
}

/// Builds the data sets of what was read. The first has to read.
#[tactic(auto, unfolding(crate::specs::Worlds::built))]
fn built(alloc: Global, read: Sources) -> Result<World<Engine>, Refusal>
    requires { AreSound read }
    ensures told { Tells (λ world. world) result (built read) }
    ensures world { IfOk result IsWorld }
    ensures reads_nothing { result ≢ Err Refusal.ReadFault }
{
    let manifest = read.manifest;
    let jobs = jobs_of(alloc, read.files.into_vec(), manifest.sets.as_slice().len())?;
    let users = plans_of(alloc, read.reloads.as_slice(), manifest.users.as_slice())?;
    Ok(World {
        jobs,
        users,
        clients: read.clients.into_vec(),
        certificates: manifest.certificates,
    })
}
