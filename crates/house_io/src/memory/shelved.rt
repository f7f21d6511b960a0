//! The files of a shelf in memory: their bytes, and the disks that were closed on them. A disk that is kept still tells.
ghost use Rattle.std.specs.Prelude.{◌≡◌, ◌≤◌, ◌+◌, ◌↔◌, [], ◌∷◌, ◌++◌, ℕ, List, Some, None, IfOk, OnOk, OnErr, IsTrue, IsSome, MatchOption, option_map, string_bytes, vec_len, vec_capacity, false};
ghost use Rattle.house_io.specs.Shelves.{bytes_of, moments_at};
ghost use Rattle.house_io.specs.ShelvedFiles.{shelved_file, shown_file, shown_files, disk_on, disk_at, empty_file, keeper, place_for, with_closed, with_reserved};

use crate::named::{Named, place_of};
use crate::{ListDisk, SureDisk};
use lot_base::NoMemory;
use std::alloc::{AllocError, Global};
use std::marker::Model;

/// A disk in memory, which a shelf keeps on its file once it is closed.
pub(crate) trait MemoryDisk: Drop {
    ghost use Rattle.std.specs.Prelude.{◌≡◌, [], ℕ, List, IfOk};
    ghost use Rattle.house_io.specs.ShelvedFiles.{ShelvedDisk, new_disk};

    /// What it stands for.
    ghost stands: { Self → ShelvedDisk };

    /// It tells, is not claimed, and counts no fault.
    ghost is_fresh: { Self → Type 0 };

    /// Of the calls that are to fail on a file, those that fail on its disk.
    ghost planned: { List ℕ → List ℕ };

    /// A new disk on these bytes, with room for so many more and so many calls.
    fn on(alloc: Global, bytes: Vec<u8>, room: u32, failing: Vec<u64>) -> Result<Self, NoMemory>
        ensures fresh { IfOk result (λ disk. is_fresh disk) }
        ensures disk { IfOk result (λ disk. stands disk ≡ new_disk room bytes.items (planned failing.items)) };

    /// The same disk once more.
    fn once_more(&self, alloc: Global) -> Result<Self, NoMemory>
        requires { is_fresh self.now }
        ensures fresh { IfOk result (λ disk. is_fresh disk) }
        ensures disk { IfOk result (λ disk. stands disk ≡ stands self.now) };

    /// What a read gives.
    fn read(&self) -> &[u8]
        requires { is_fresh self.now }
        ensures { result.now ≡ (stands self.now).moments.now.read };

    // Where no call is to fail on a file, none fails on its disk.
    ghost none_planned: { planned [] ≡ [] };
}

impl MemoryDisk for SureDisk {
    ghost use Rattle.house_io.specs.SureFiles.{as_shelved};
    ghost use Rattle.std.specs.Prelude.{◌≡◌, IsTrue, false, [], refl};

    ghost stands = { as_shelved };

    ghost is_fresh = { λ disk. IsTrue disk.file.told × (disk.claimed ≡ false) };

    ghost planned = { λ _. [] };

    ghost none_planned = { refl };

    fn on(alloc: Global, bytes: Vec<u8>, room: u32, _failing: Vec<u64>) -> Result<Self, NoMemory> {
        SureDisk::new(alloc, bytes, room)
    }

    fn once_more(&self, alloc: Global) -> Result<Self, NoMemory> {
        self.again(alloc)
    }

    fn read(&self) -> &[u8] {
        self.bytes()
    }
}

impl MemoryDisk for ListDisk {
    ghost use Rattle.house_io.specs.ListFiles.{disk_as_listed};
    ghost use Rattle.std.specs.Prelude.{◌≡◌, IsTrue, false, refl};

    ghost stands = { disk_as_listed };

    ghost is_fresh = { λ disk. IsTrue disk.file.told × (disk.claimed ≡ false) × (disk.faults ≡ 0) };

    ghost planned = { λ failing. failing };

    ghost none_planned = { refl };

    fn on(alloc: Global, bytes: Vec<u8>, room: u32, failing: Vec<u64>) -> Result<Self, NoMemory> {
        ListDisk::new(alloc, bytes, room, failing)
    }

    fn once_more(&self, alloc: Global) -> Result<Self, NoMemory> {
        self.again(alloc)
    }

    fn read(&self) -> &[u8] {
        self.bytes()
    }
}

/// A file of a shelf, with the calls that fail on a source or a new disk on it.
#[derive(Drop)]
pub(crate) struct Entry<D: MemoryDisk> {
    /// By which it is opened. Of several files of a name the first counts.
    name: String,
    /// What the file held at first. A read gives it while no closed disk is kept on the file.
    bytes: Vec<u8>,
    /// The numbers of those calls, from 0. On a disk that never fails they say nothing.
    pub(crate) failing: Vec<u64>,
    /// The disk that was closed on it, if one was.
    disk: Option<D>,
}

impl<D: MemoryDisk> Model for Entry<D> {
    ghost use Rattle.std.specs.Prelude.{option_map, string_bytes};
    ghost use Rattle.std.specs.Option.{ForSome};
    ghost use Rattle.house_io.specs.ShelvedFiles.{ShelvedFile};

    ghost Value = { ShelvedFile };

    ghost view = { λ entry. record {
      name = string_bytes entry.name;
      bytes = entry.bytes.items;
      failing = D.planned entry.failing.items;
      closed = option_map D.stands entry.disk;
    } };

    ghost invariant = { λ entry. ForSome entry.disk D.is_fresh };
}

impl<D: MemoryDisk> Named for Entry<D> {
    ghost name_of = { λ entry. entry.name };

    fn name(&self) -> &str {
        &self.name
    }
}

impl<D: MemoryDisk> Entry<D> {
    /// A file with no disk on it.
    pub(crate) fn new(name: String, bytes: Vec<u8>, failing: Vec<u64>) -> Entry<D>
        ensures { result ≡ record { name = string_bytes name; bytes = bytes.items; failing = D.planned failing.items; closed = None } }
    {
        Entry {
            name,
            bytes,
            failing,
            disk: None,
        }
    }

    /// What a read of the file gives.
    pub(crate) fn bytes(&self) -> &[u8]
        ensures { result.now ≡ (shown_file self.now).moments.now.read }
    {
        match &self.disk {
            Some(disk) => disk.read(),
            None => &self.bytes,
        }
    }

    /// The disk that was closed on the file, once more, or a new one on its bytes.
    fn open(&self, alloc: Global, room: u32) -> Result<D, NoMemory>
        ensures fresh { IfOk result (λ disk. D.is_fresh disk) }
        ensures disk { IfOk result (λ disk. D.stands disk ≡ disk_on room self.now) }
    {
        if let Some(disk) = &self.disk {
            return disk.once_more(alloc);
        }
        let bytes = self.bytes.to_vec(alloc)?;
        let failing = self.failing.to_vec(alloc)?;
        D::on(alloc, bytes, room, failing)
    }

    /// Keeps a disk that was closed on the file.
    fn close(&mut self, disk: D)
        requires { D.is_fresh disk }
        ensures { self.new ≡ with_closed (D.stands disk) self.old }
    {
        self.disk = Some(disk);
    }
}

/// The file of a name, if there is one.
pub(crate) fn file_named<'a, D: MemoryDisk>(
    files: &'a [Entry<D>],
    name: &str,
) -> Option<&'a Entry<D>>
    ensures found { MatchOption result (shelved_file files.now name.now ≡ None) (λ file. shelved_file files.now name.now ≡ Some file.now) }
    ensures shown { MatchOption result (bytes_of (shown_files files.now) name.now ≡ None)
        (λ file. bytes_of (shown_files files.now) name.now ≡ Some (shown_file file.now).moments.now.read) }
{
    match place_of(files, name) {
        Some(place) => Some(&files[place]),
        None => None,
    }
}

/// The files of a shelf, and entries for such as are absent yet.
#[derive(Drop)]
pub(crate) struct Files<D: MemoryDisk> {
    /// The files, of which the first of a name counts.
    pub(crate) there: Vec<Entry<D>>,
    /// An entry for each name in which a disk was opened where no file was. Each is empty.
    pub(crate) reserved: Vec<Entry<D>>,
    // There is room for each of them among the files, so closing a disk takes no memory.
    ghost room: { vec_len there + vec_len reserved ≤ vec_capacity there },
}

impl<D: MemoryDisk> Files<D> {
    /// These files, and no entry more.
    pub(crate) fn new(alloc: Global, there: Vec<Entry<D>>) -> Files<D>
        ensures there { result.there.items ≡ there.items }
        ensures reserved { result.reserved.items ≡ [] }
    {
        Files {
            there,
            reserved: Vec::new(alloc),
        }
    }
}

/// The disk of a name. Where its file is absent an entry is reserved for one.
pub(crate) fn disk_of<D: MemoryDisk>(
    alloc: Global,
    files: &mut Files<D>,
    name: &str,
    room: u32,
) -> Result<D, NoMemory>
    ensures fresh { IfOk result (λ disk. D.is_fresh disk) }
    ensures disk { IfOk result (λ disk. D.stands disk ≡ disk_at files.old.there.items room name.now) }
    ensures there { files.new.there.items ≡ files.old.there.items }
    ensures reserved { OnOk result (files.new.reserved.items ≡ with_reserved files.old.there.items files.old.reserved.items name.now) }
    ensures unchanged { OnErr result (files.new.reserved.items ≡ files.old.reserved.items) }
    ensures moments { IfOk result (λ disk. (D.stands disk).moments ≡ moments_at (shown_files files.old.there.items) name.now) }
{
    if let Some(file) = file_named(&files.there, name) {
        return file.open(alloc, room);
    }
    let disk = D::on(alloc, Vec::new(alloc), room, Vec::new(alloc))?;
    reserve(alloc, files, name)?;
    Ok(disk)
}

/// Reserves an entry for the file of a name, which is absent, where there is none.
fn reserve<D: MemoryDisk>(alloc: Global, files: &mut Files<D>, name: &str) -> Result<(), AllocError>
    requires { shelved_file files.old.there.items name.now ≡ None }
    ensures there { files.new.there.items ≡ files.old.there.items }
    ensures reserved { OnOk result (files.new.reserved.items ≡ with_reserved files.old.there.items files.old.reserved.items name.now) }
    ensures unchanged { OnErr result (files.new.reserved.items ≡ files.old.reserved.items) }
{
    if let Some(_) = file_named(&files.reserved, name) {
        return Ok(());
    }
    let name = String::from_str(alloc, name)?;
    // Its place among the files, and then its own.
    files.reserved.reserve(1)?;
    files.there.reserve(files.reserved.len() + 1)?;
    files
        .reserved
        .push_reserved(Entry::new(name, Vec::new(alloc), Vec::new(alloc)));
    Ok(())
}

/// Keeps a disk that was closed in a name: on its file, or else, if it was claimed, on the entry that is reserved for one, which
/// is a file from then on. Tells whether a claimed one was kept. It takes no memory.
pub(crate) fn keep<D: MemoryDisk>(
    files: &mut Files<D>,
    name: &str,
    disk: D,
    is_claimed: bool,
) -> bool
    requires { D.is_fresh disk }
    ensures placed { IsTrue result ↔ (IsTrue is_claimed → IsSome (place_for files.old.there.items files.old.reserved.items name.now)) }
    ensures kept { shelved_file files.new.there.items name.now ≡ option_map (with_closed (D.stands disk))
        (keeper is_claimed files.old.there.items files.old.reserved.items name.now) }
    ensures others { (other : List ℕ) → (other ≡ name.now → ⊥)
        → shelved_file files.new.there.items other ≡ shelved_file files.old.there.items other }
    ensures reserved { (other : List ℕ) → (other ≡ name.now → ⊥)
        → shelved_file files.new.reserved.items other ≡ shelved_file files.old.reserved.items other }
    ensures spared { is_claimed ≡ false → files.new.reserved.items ≡ files.old.reserved.items }
{
    match place_of(&files.there, name) {
        Some(place) => {
            files.there[place].close(disk);
            true
        }
        None => {
            if !is_claimed {
                return true;
            }
            make(files, name, disk)
        }
    }
}

/// Makes a file of the entry that is reserved in a name, with this disk on it. Tells whether there is one.
fn make<D: MemoryDisk>(files: &mut Files<D>, name: &str, disk: D) -> bool
    requires fresh { D.is_fresh disk }
    requires absent { shelved_file files.old.there.items name.now ≡ None }
    ensures placed { IsTrue result ↔ IsSome (shelved_file files.old.reserved.items name.now) }
    ensures kept { shelved_file files.new.there.items name.now ≡ option_map (with_closed (D.stands disk))
        (shelved_file files.old.reserved.items name.now) }
    ensures others { (other : List ℕ) → (other ≡ name.now → ⊥)
        → shelved_file files.new.there.items other ≡ shelved_file files.old.there.items other }
    ensures reserved { (other : List ℕ) → (other ≡ name.now → ⊥)
        → shelved_file files.new.reserved.items other ≡ shelved_file files.old.reserved.items other }
{
    match place_of(&files.reserved, name) {
        Some(place) => {
            let mut entry = files.reserved.remove(place);
            entry.close(disk);
            files.there.push_reserved(entry);
            true
        }
        None => false,
    }
}
