//! Loading the platform file that a command names, with all that its `using` lines name.
ghost use Rattle.std.specs.Prelude.{◌≡◌, ◌≤◌, ◌<◌, ◌++◌, ◌∷◌, [], length, Err, IfSome, IfOk, IfErr, OnOk, IsTrue};
ghost use Rattle.std.specs.List.{list_all};
ghost use Rattle.std.specs.Option.{ForSome, option_map};
ghost use Rattle.lab_io.specs.Frame.{OnlyReads};
ghost use Rattle.lab_num.specs.Depth.{depth_limit};
ghost use Rattle.repl_read.specs.Entries.{is_entry};
ghost use Rattle.repl_files.specs.Loading.{Absent, load, loaded, used, used_file, one, in_order};
ghost use Rattle.repl_files.specs.Loaded.{IsLoaded, IsCut};
ghost use Rattle.repl_files.specs.Inner.Course.{IsCourse};

use crate::content::{Opened, open};
use crate::fault::{FileCause, LoadFault, fault_at};
use lab_io::Files;
use lab_num::{DEPTH_LIMIT, Text};
use repl_read::{Entry, Head};
use std::alloc::Global;

/// The most platform files that one command reads.
const MOST_FILES: usize = 64;

/// The platform that one command loads.
#[derive(Drop)]
pub struct Loaded {
    /// The names of the files in the order of reading. A file that was read twice has two places.
    pub names: Vec<Text>,
    /// The entries, each of which names its file by its place in `names`, counted from 0. Those of
    /// a `using` line stand in its place.
    pub entries: Vec<Entry>,
}

/// Loads the platform file of this name with all that its `using` lines name, where `bodies` macros,
/// includes and `using` files are open beside the script. The entries of a `using` file take the
/// place of its line. A file is read whole and its text is tested before any that it names; these are
/// read in order, each with its own before the next, and each as often as it is named.
///
/// `At` is answered for the first fault: `Platform` by the text of a file, at its line; `Utf8` for a
/// file that is not UTF-8, at the line of the first byte after its longest prefix that is; `Depth` at
/// a `using` line where 8 bodies are open beside the script, its own file among them if a `using` line
/// named it, or 64 files were read; and `Size` at a `using` line whose file has more than 16,777,216
/// bytes. `TooLarge` is answered where the file of this name has more. `Unread` is answered only where
/// a read failed, and `Memory` only where memory runs out.
pub fn load_platform<F: Files>(
    alloc: Global,
    files: &mut F,
    bodies: u8,
    name: &str,
) -> Result<Loaded, LoadFault>
    requires { bodies ≤ depth_limit }

    // It comes out as the definition says and has asked for just its names, or was cut short by a
    // read or for want of memory, and has asked for the first of them.
    ensures loaded { IfSome (F.held files.old) (λ held.
        IsLoaded (load held bodies name.now) result (F.asked files.old) (F.asked files.new)) }

    // Where a name holds nothing, it is cut short.
    ensures absent { IfSome (F.held files.old) (λ held.
        (load held bodies name.now).outcome ≡ Absent → IsCut result) }

    // Each entry has its form, whatever the files hold.
    ensures entries { IfOk result (λ loaded. IsTrue (list_all is_entry loaded.entries.items)) }

    // What the files hold stays, and only a fault that was counted makes it unread.
    ensures files { OnlyReads F.Files (result ≡ Err LoadFault.Unread) files.old files.new }
{
    load_beside(alloc, files, bodies, name)
}

/// Loads the file while so many bodies are open.
fn load_beside<F: Files>(
    alloc: Global,
    files: &mut F,
    bodies: u8,
    name: &str,
) -> Result<Loaded, LoadFault>
    requires { bodies ≤ depth_limit }
    ensures loaded { ForSome (F.held files.old) (λ held.
        IsLoaded (load held bodies name.now) result (F.asked files.old) (F.asked files.new)) }
    ensures absent { ForSome (F.held files.old) (λ held.
        (load held bodies name.now).outcome ≡ Absent → IsCut result) }
    ensures entries { IfOk result (λ loaded. IsTrue (list_all is_entry loaded.entries.items)) }
    ensures files { OnlyReads F.Files (result ≡ Err LoadFault.Unread) files.old files.new }
{
    load_file(alloc, files, DEPTH_LIMIT - bodies, name)
}

/// Loads the file of this name, where so many bodies may still be opened.
fn load_file<F: Files>(
    alloc: Global,
    files: &mut F,
    room: u8,
    name: &str,
) -> Result<Loaded, LoadFault>
    ensures loaded { ForSome (F.held files.old) (λ held.
        IsLoaded (loaded held room name.now) result (F.asked files.old) (F.asked files.new)) }
    ensures entries { IfOk result (λ loaded. IsTrue (list_all is_entry loaded.entries.items)) }
    ensures files { OnlyReads F.Files (result ≡ Err LoadFault.Unread) files.old files.new }
{
    let mut all = Loaded {
        names: Vec::new(alloc),
        entries: Vec::new(alloc),
    };
    if let Err(fault) = note(alloc, name, &mut all) {
        return Err(fault);
    }
    match open(alloc, files, name) {
        Opened::Entries(entries) => {
            match join_entries(alloc, files, room, name, 0, entries, &mut all) {
                Ok(()) => Ok(all),
                Err(fault) => Err(fault),
            }
        }
        Opened::TooLarge => Err(LoadFault::TooLarge),
        Opened::Stopped(fault) => Err(fault),
    }
}

/// Joins the entries of the file of this name and number to those before, in their order.
#[cycle(joining)]
fn join_entries<F: Files>(
    alloc: Global,
    files: &mut F,
    room: u8,
    file: &str,
    number: u32,
    entries: Vec<Entry>,
    all: &mut Loaded,
) -> Result<(), LoadFault>
    requires few { length all.old.names.items ≤ 64 }
    requires good { IsTrue (list_all is_entry all.old.entries.items) }
    requires coming { IsTrue (list_all is_entry entries.items) }
    ensures course { ForSome (F.held files.old) (λ held.
        IsCourse (in_order (used room held) file.now number (length all.old.names.items) entries.items)
        result all.old all.new (F.asked files.old) (F.asked files.new)) }
    ensures few { length all.new.names.items ≤ 64 }
    ensures good { OnOk result (IsTrue (list_all is_entry all.new.entries.items)) }
    ensures files { OnlyReads F.Files (result ≡ Err LoadFault.Unread) files.old files.new }
{
    for entry in entries {
        if let Err(fault) = join_entry(alloc, files, room, file, number, entry, all) {
            return Err(fault);
        }
    }
    Ok(())
}

/// Joins one entry of a file, or the file that it names.
#[cycle(joining)]
fn join_entry<F: Files>(
    alloc: Global,
    files: &mut F,
    room: u8,
    file: &str,
    number: u32,
    entry: Entry,
    all: &mut Loaded,
) -> Result<(), LoadFault>
    requires few { length all.old.names.items ≤ 64 }
    requires good { IsTrue (list_all is_entry all.old.entries.items) }
    requires coming { IsTrue (is_entry entry) }
    ensures course { ForSome (F.held files.old) (λ held.
        IsCourse (one (used room held) file.now number (length all.old.names.items) entry)
        result all.old all.new (F.asked files.old) (F.asked files.new)) }
    ensures few { length all.new.names.items ≤ 64 }
    ensures good { OnOk result (IsTrue (list_all is_entry all.new.entries.items)) }
    ensures files { OnlyReads F.Files (result ≡ Err LoadFault.Unread) files.old files.new }
{
    match used_name(&entry.head) {
        Some(name) => join_file(alloc, files, room, file, entry.line, name, all),
        None => keep(number, entry, all),
    }
}

/// Joins the entries of the file that is named at this line of another.
#[cycle(joining)]
fn join_file<F: Files>(
    alloc: Global,
    files: &mut F,
    room: u8,
    file: &str,
    line: u32,
    name: &str,
    all: &mut Loaded,
) -> Result<(), LoadFault>
    requires few { length all.old.names.items ≤ 64 }
    requires good { IsTrue (list_all is_entry all.old.entries.items) }
    ensures course { ForSome (F.held files.old) (λ held.
        IsCourse (used room held (length all.old.names.items)
        (record { file = file.now; line = line; name = name.now }))
        result all.old all.new (F.asked files.old) (F.asked files.new)) }
    ensures few { length all.new.names.items ≤ 64 }
    ensures good { OnOk result (IsTrue (list_all is_entry all.new.entries.items)) }
    ensures files { OnlyReads F.Files (result ≡ Err LoadFault.Unread) files.old files.new }
{
    if room == 0 || all.names.len() >= MOST_FILES {
        return Err(fault_at(alloc, file, line, FileCause::Depth));
    }
    let number = all.names.len() as u32;
    if let Err(fault) = note(alloc, name, all) {
        return Err(fault);
    }
    match open(alloc, files, name) {
        Opened::Entries(entries) => {
            join_entries(alloc, files, room - 1, name, number, entries, all)
        }
        Opened::TooLarge => Err(fault_at(alloc, file, line, FileCause::Size)),
        Opened::Stopped(fault) => Err(fault),
    }
}

/// The file that a head names, if it is a `using` head.
fn used_name(head: &Head) -> Option<&str>
    ensures { option_map (λ name. name.now) result ≡ used_file head.now }
{
    match head {
        Head::Using(name) => Some(name.as_str()),
        Head::Typed { .. } | Head::Update { .. } => None,
    }
}

/// Notes the name of a file that is to be read.
fn note(alloc: Global, name: &str, all: &mut Loaded) -> Result<(), LoadFault>
    ensures names { OnOk result (all.new.names.items ≡ all.old.names.items ++ name.now ∷ []) }
    ensures same { IfErr result (λ fault. all.new.names.items ≡ all.old.names.items) }
    ensures entries { all.new.entries.items ≡ all.old.entries.items }
    ensures err { IfErr result (λ fault. fault ≡ LoadFault.Memory) }
{
    let name = Text::of(alloc, name)?;
    all.names.push(name)?;
    Ok(())
}

/// Keeps an entry of the file with this number.
fn keep(number: u32, entry: Entry, all: &mut Loaded) -> Result<(), LoadFault>
    ensures ok { OnOk result
        (all.new.entries.items ≡ all.old.entries.items ++ record entry { file = number } ∷ []) }
    ensures err { IfErr result (λ fault. fault ≡ LoadFault.Memory) }
    ensures names { all.new.names.items ≡ all.old.names.items }
{
    let mut entry = entry;
    entry.file = number;
    all.entries.push(entry)?;
    Ok(())
}
