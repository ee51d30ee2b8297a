//! What a script asks of the store: its laboratory is kept under a name, or taken back from one.
ghost use Rattle.std.specs.Prelude.{◌≡◌, ℕ, List, [], Option, false, IfOk, OnOk};
ghost use Rattle.std.specs.Option.{ForSome};
ghost use Rattle.lab_io.specs.Asked.{AskedNames};
ghost use Rattle.lab_io.specs.Frame.{OnlyStores};
ghost use Rattle.lab_snap.specs.Saved.{spelling};
ghost use Rattle.lab_snap.specs.Snapshot.{snapshot_of};
ghost use Rattle.monitor.specs.State.{LinePlace};
ghost use Rattle.lab_top.specs.Transcript.{Further, saving, loading};
ghost use Rattle.lab_top.specs.Transcript as transcript;
ghost use Rattle.lab_top.specs.Inner.Stored.{IsFetched, IsRestored, IsStored, IsUnspent, lent, store_of};

use dev_core::Device;
use lab_encoding::SnapFault;
use lab_io::{ReadAnswer, Store, StoreAnswer};
use lab_num::{Micros, Text};
use lab_snap::{load, save};
use lab_state::Lab;
use monitor::Monitor;
use resc_vars::ScriptCause;
use std::alloc::Global;

/// The most bytes of a snapshot.
const MOST_BYTES: usize = 67_108_864;

/// Why a run does not go on after a command for the store. `M` is what comes back where the line is refused:
/// the monitor, or nothing where it was lent.
#[derive(Drop)]
pub enum StoreHalt<M> {
    /// The line is refused for this cause. What is open of the log is still to be printed.
    Refused(ScriptCause, M),
    /// The store has failed, and counted it.
    Unstored,
    /// Memory ran out.
    Memory,
}

/// A line that asks for the snapshot of a name, its file and its number.
#[derive(Drop)]
pub struct SnapshotLine {
    pub name: Text,
    pub file: Text,
    pub line: u32,
}

/// Keeps the laboratory and its open lines under the name, unless each run has length 0.
pub fn keep<D: Device, S: Store>(
    alloc: Global,
    monitor: &Monitor<D>,
    store: &mut S,
    name: &str,
) -> Result<(), StoreHalt<()>>
    requires goes_on { monitor.now.ended ≡ false }
    ensures stored { ForSome (S.kept store.old) (λ kept.
        (further : Further) (place : LinePlace) (written : Option (List ℕ)) (asked : AskedNames) →
        IsStored (saving further kept name.now place monitor.now.state
        (spelling monitor.now.state.lab monitor.now.state.lines)) kept further place
        (store_of S.Store written asked store.old) (store_of S.Store written asked store.new)
        (lent monitor.now result)) }
    ensures store { OnlyStores S.Store (result ≡ Err StoreHalt.Unstored) store.old store.new }
{
    let Ok(bytes) = save(alloc, monitor.lab(), monitor.lines()) else {
        return Err(StoreHalt::Memory);
    };
    if bytes.len() > MOST_BYTES {
        return Err(StoreHalt::Refused(ScriptCause::Size, ()));
    }
    if monitor.is_dry() {
        return Ok(());
    }
    match store.put(name, &bytes) {
        StoreAnswer::Done => Ok(()),
        StoreAnswer::Failed => Err(StoreHalt::Unstored),
        StoreAnswer::Memory => Err(StoreHalt::Memory),
    }
}

/// Reads what the name keeps, if nothing was made in the monitor's laboratory.
pub fn fetch<D: Device, S: Store>(
    monitor: &Monitor<D>,
    store: &mut S,
    name: &str,
    into: &mut Vec<u8>,
) -> Result<(), StoreHalt<()>>
    requires goes_on { monitor.now.ended ≡ false }
    requires empty { into.old.items ≡ [] }
    ensures fetched { ForSome (S.kept store.old) (λ kept.
        (further : Further) (place : LinePlace) (written : Option (List ℕ)) (asked : AskedNames) →
        IsFetched (loading further kept name.now place monitor.now.state) kept further place
        (store_of S.Store written asked store.old) (store_of S.Store written asked store.new)
        monitor.now into.new.items result) }
    ensures free { OnOk result (transcript.is_occupied monitor.now.state.lab ≡ false) }
    ensures store { OnlyStores S.Store (result ≡ Err StoreHalt.Unstored) store.old store.new }
{
    if is_occupied(monitor.lab()) {
        return Err(StoreHalt::Refused(ScriptCause::Occupied, ()));
    }
    match store.get(name, MOST_BYTES, into) {
        ReadAnswer::Done => Ok(()),
        ReadAnswer::Failed => Err(StoreHalt::Unstored),
        ReadAnswer::TooLarge => Err(StoreHalt::Refused(ScriptCause::Size, ())),
        ReadAnswer::Memory => Err(StoreHalt::Memory),
    }
}

/// Whether something was made in the laboratory, or time has passed in it.
fn is_occupied<D: Device>(lab: &Lab<D>) -> bool
    requires { lab.now.spent ≡ false }
    ensures { result ≡ transcript.is_occupied lab.now.lab }
{
    lab.boards() != 0 || lab.hubs() != 0 || lab.now() != Micros(0)
}

/// Puts what the bytes hold in place of a laboratory in which nothing was made.
pub fn restore<D: Device>(
    alloc: Global,
    monitor: Monitor<D>,
    bytes: &[u8],
) -> Result<Monitor<D>, StoreHalt<Monitor<D>>>
    requires goes_on { monitor.ended ≡ false }
    requires free { transcript.is_occupied monitor.state.lab ≡ false }
    ensures restored { IsRestored monitor (snapshot_of bytes.now) result }
    ensures next { IfOk result (λ next. (next.ended ≡ false) × (next.workers ≡ monitor.workers)
        × (next.state.flow ≡ monitor.state.flow)) }
    ensures unspent { IsUnspent result }
{
    let (bodies, mut lab, mut lines) = monitor.split();
    match load(alloc, &mut lab, &mut lines, bytes) {
        Ok(()) => Ok(Monitor::join(bodies, lab, lines)),
        Err(SnapFault::Bad) => {
            let unchanged = Monitor::join(bodies, lab, lines);
            Err(StoreHalt::Refused(ScriptCause::Snapshot, unchanged))
        }
        Err(SnapFault::Memory) => Err(StoreHalt::Memory),
    }
}
