//! Opening a store.

ghost use Rattle.std.specs.Prelude.{◌≡◌, ◌<◌, [], IfOk, IfSome};
ghost use Rattle.mq_store.specs.Prelude.{config_bytes, IsFound, IsOpened};
ghost use Rattle.mq_route.specs.declared.config.HubConfig.{HubConfig as Config};

use crate::configuration::config_bytes;
use crate::data_folder::{DataFolder, StoreOptions, journal_name, snapshot_name};
use crate::fault::StoreError;
use crate::restoring::{Restored, restore};
use crate::snapshot_file::read_parts;
use mq_durable::Durable;
use mq_file::{Folder, JournalFile, has_file, read_file};
use mq_hub::Hub;
use mq_route::HubConfig;
use std::alloc::Global;
use std::fs::File;
use std::rt::Files;

/// An open store.
#[derive(Drop)]
pub struct Store {
    /// The broker, which has no connection.
    pub durable: Durable<JournalFile>,
    /// The folder, which is locked as long as this value exists.
    pub folder: DataFolder,
    /// The latest time of the broker, from which its clock must continue, in milliseconds.
    pub clock: u64,
    /// The number of events that were recovered from the journal.
    pub events: u64,
}

// The broker of a folder, without connections, and the number of the journal after its snapshot.
#[derive(Drop)]
struct Found {
    hub: Hub,
    events: u64,
    nth: u64,
}

// Checks that a folder without a snapshot has no journal with events. A crash at the first start
// may leave an empty one.
fn check_new<R: Files<File = File>>(rt: &R, alloc: Global, path: &str) -> Result<(), StoreError> {
    let earlier = format!(in alloc; "{path}/configuration")?;
    if has_file(rt, earlier.as_str())? {
        return Err(StoreError::Earlier);
    }
    let name = journal_name(alloc, path, 1)?;
    match read_file(rt, alloc, name.as_str())? {
        Some(journal) => {
            if journal.is_empty() {
                Ok(())
            } else {
                Err(StoreError::NoSnapshot)
            }
        }
        None => Ok(()),
    }
}

// Reads the journal that a snapshot names.
fn read_named<R: Files<File = File>>(
    rt: &R,
    alloc: Global,
    path: &str,
    nth: u64,
) -> Result<Vec<u8>, StoreError> {
    let name = journal_name(alloc, path, nth)?;
    match read_file(rt, alloc, name.as_str())? {
        Some(journal) => Ok(journal),
        None => Err(StoreError::Gap),
    }
}

// Reads the file `snapshot`. `None` if the folder is new.
fn read_snapshot<R: Files<File = File>>(
    rt: &R,
    alloc: Global,
    path: &str,
) -> Result<Option<Vec<u8>>, StoreError> {
    let name = snapshot_name(alloc, path)?;
    let file = read_file(rt, alloc, name.as_str())?;
    if file.is_none() {
        check_new(rt, alloc, path)?;
    }
    Ok(file)
}

// Restores the broker of a snapshot and of the journal that it names.
fn find_saved<R: Files<File = File>>(
    rt: &R,
    alloc: Global,
    path: &str,
    config: HubConfig,
    file: &[u8],
) -> Result<Found, StoreError>
    requires capacity { 0 < config.capacity }
    requires window { IfSome config.window (λ window. 0 < window) }
    ensures found { IfOk result (λ found. IsFound config found.hub found.events) }
    ensures none { IfOk result (λ found. found.hub.connections ≡ []) }
{
    let parts = read_parts(file)?;
    let nth = parts.nth;
    let journal = read_named(rt, alloc, path, nth)?;
    let Restored { hub, events } = restore(alloc, config, parts, journal.as_slice())?;
    Ok(Found { hub, events, nth })
}

// The broker of a folder.
#[tactic(auto, using(crate::proofs::Opens::found_new))]
fn find<R: Files<File = File>>(
    rt: &R,
    alloc: Global,
    path: &str,
    config: HubConfig,
) -> Result<Found, StoreError>
    requires capacity { 0 < config.capacity }
    requires window { IfSome config.window (λ window. 0 < window) }
    ensures found { IfOk result (λ found. IsFound config found.hub found.events) }
    ensures none { IfOk result (λ found. found.hub.connections ≡ []) }
{
    match read_snapshot(rt, alloc, path)? {
        Some(file) => find_saved(rt, alloc, path, config, file.as_slice()),
        None => Ok(Found {
            hub: Hub::new(alloc, config),
            events: 0,
            nth: 0,
        }),
    }
}

// Makes a snapshot of the broker that was found, and begins its journal.
#[tactic(auto, using(crate::proofs::Opens::opened))]
fn begin_store<R: Files<File = File>>(
    rt: &R,
    alloc: Global,
    folder: DataFolder,
    found: Found,
) -> Result<Store, StoreError>
    requires { found.hub.connections ≡ [] }
    ensures opened { IfOk result (λ store. (config : Config) → IsFound config found.hub found.events
        → IsOpened config store.durable store.events store.clock) }
    ensures config { IfOk result (λ store. store.folder.config ≡ folder.config) }
{
    let Found { hub, events, nth } = found;
    let mut folder = folder;
    folder.nth = nth;
    hub.may_begin();
    let clock = hub.clock();
    match folder.begin(rt, alloc, &hub) {
        Ok(journal) => Ok(Store {
            durable: Durable::new(alloc, hub, journal),
            folder,
            clock,
            events,
        }),
        Err(error) => Err(error),
    }
}

/// Opens the store in a folder, and restores its broker. The connections of the broker have ended.
///
/// The file `snapshot` has a broker with its configuration, and the number of the journal with the
/// events after it. These events lead to another broker under another configuration. So a start
/// replays them under that of the snapshot, ends all connections, and loads the broker under
/// `config`. Then it makes a snapshot of this broker and begins the next journal.
///
/// If a call fails before that, nothing in the folder changes. Errors:
///
/// - `InUse` if another process has the folder.
/// - `Folder`, `Unreadable`, `Unwritten` or `Full` if a call of the system fails.
/// - `Earlier` if the folder is one of an earlier version.
/// - `NoSnapshot` or `Gap` if a file is missing.
/// - `Version` or `Snapshot` if the snapshot is of another version or damaged.
/// - `Damaged`, `Entry` or `Refused` if the journal is damaged. A torn end is ignored.
/// - `TooLarge` or `Capacity` if `config` does not allow the broker.
/// - `TooLong` if there are too many events or journals.
/// - `Memory` if an allocation fails.
pub fn open_store<R: Files<File = File>>(
    rt: &R,
    alloc: Global,
    path: &str,
    options: StoreOptions,
    config: HubConfig,
) -> Result<Store, StoreError>
    requires capacity { 0 < config.capacity }
    requires window { IfSome config.window (λ window. 0 < window) }
    ensures opened { IfOk result (λ store. IsOpened config store.durable store.events store.clock) }
    ensures config { IfOk result (λ store. store.folder.config.items ≡ config_bytes config) }
{
    let folder = Folder::open(rt, alloc, path)?;
    let folder = DataFolder {
        folder,
        path: String::from_str(alloc, path)?,
        config: config_bytes(alloc, &config)?,
        nth: 0,
        options,
    };
    let found = find(rt, alloc, path, config)?;
    let store = begin_store(rt, alloc, folder, found)?;
    Ok(store)
}
