//! Items that are read and built whatever the folder's count of faults is.
ghost use Rattle.std.specs.Prelude.{◌≡◌, ◌↔◌, ◌<◌, ◌≤◌, ◌-◌, ◌^◌, IfErr, IfOk, IfSome, IsSome, IsTrue, OnOk, Some, option_to_list};
ghost use Rattle.std.specs.Io.{ReadsAtMost};
ghost use Rattle.tb_io.specs.Causes.{HasCause};
ghost use Rattle.tb_io.specs.Files.{IsPiece, file_at};
ghost use Rattle.live_turns.specs.Lending.{Counts, HasFailedBy};
ghost use Rattle.edition_build.specs.Plans.{HasOutcome, IsGoodBuilding};

use edition_build::{Building, Found, PlanEnd, PlanItem, find_item};
use edition_store::Edition;
use std::alloc::Global;
use std::marker::{Brand, PhantomData};
use std::thread::Threads;
use tb_base::{Gate, HashKey};
use tb_io::{Failed, Folder};

/// Which folder is lent, and how many faults it had counted then. Each call picks it.
pub(crate) trait Lent {
    ghost use Rattle.std.specs.Prelude.{ℕ};

    ghost name: { ℕ };

    ghost start: { ℕ };
}

impl Lent for Brand {
    ghost name = { 0 };

    ghost start = { 0 };
}

/// Who lends a folder, and stays the same one.
pub(crate) trait Lends {
    ghost use Rattle.std.specs.Prelude.{ℕ, Option};
    ghost use Rattle.tb_io.specs.Files.{FileList};

    ghost lent_files: { Self → Option FileList };

    ghost count: { Self → ℕ };

    ghost name: { Self → ℕ };

    /// The folder's key.
    fn lent_key(&self) -> HashKey;

    /// As the folder's `has`.
    fn lent_has(&mut self, path: &str) -> Result<bool, Failed>
        ensures told { IfOk result (λ there.
            IfSome (lent_files self.old) (λ fs. IsTrue there ↔ IsSome (file_at fs path.now))) }
        ensures same { lent_files self.new ≡ lent_files self.old }
        ensures cause { HasCause (count self.old) (count self.new) result }
        ensures name { name self.new ≡ name self.old };

    /// As the folder's `read`.
    fn lent_read(&mut self, path: &str, from: u64, buf: &mut [u8]) -> Result<usize, Failed>
        requires { IfSome (lent_files self.old) (λ fs. IsSome (file_at fs path.now)) }
        ensures bound { ReadsAtMost result buf.new }
        ensures told { IfOk result (λ n. IfSome (lent_files self.old) (λ fs.
            IfSome (file_at fs path.now) (λ file. IsPiece file from n buf.new))) }
        ensures same { lent_files self.new ≡ lent_files self.old }
        ensures cause { HasCause (count self.old) (count self.new) result }
        ensures name { name self.new ≡ name self.old };
}

/// A folder that is lent.
#[derive(Drop)]
struct Loan<'f, F: Folder> {
    folder: &'f mut F,
}

impl<'f, F: Folder> Loan<'f, F> {
    fn new(folder: &'f mut F) -> Loan<'f, F>
        ensures same_reference { result.folder.ghost_name ≡ folder.entry.ghost_name }
        ensures same { result.folder.now ≡ folder.old }
    {
        Loan { folder }
    }
}

impl<'f, F: Folder> Lends for Loan<'f, F> {
    ghost lent_files = { λ l. F.files l.folder.now };

    ghost count = { λ l. F.faults l.folder.now };

    ghost name = { λ l. l.folder.ghost_name };

    fn lent_key(&self) -> HashKey {
        self.folder.key()
    }

    fn lent_has(&mut self, path: &str) -> Result<bool, Failed> {
        self.folder.has(path)
    }

    fn lent_read(&mut self, path: &str, from: u64, buf: &mut [u8]) -> Result<usize, Failed> {
        self.folder.read(path, from, buf)
    }
}

/// The folder of a lender, which counts its own faults from 0.
#[derive(Drop)]
struct Counted<B: Lends, N: Lent> {
    lender: B,
    faults: u64,
    of: PhantomData<N>,
    ghost same: { B.name lender ≡ N.name },
    ghost counts: { Counts N.start (B.count lender) faults },
}

impl<B: Lends, N: Lent> Folder for Counted<B, N> {
    ghost files = { λ c. B.lent_files c.lender };

    ghost faults = { λ c. c.faults };

    fn key(&self) -> HashKey {
        self.lender.lent_key()
    }

    fn has(&mut self, path: &str) -> Result<bool, Failed> {
        match self.lender.lent_has(path) {
            Ok(there) => Ok(there),
            Err(failed) => {
                self.faults = self.faults.saturating_add(1);
                Err(failed)
            }
        }
    }

    fn read(&mut self, path: &str, from: u64, buf: &mut [u8]) -> Result<usize, Failed> {
        match self.lender.lent_read(path, from, buf) {
            Ok(count) => Ok(count),
            Err(failed) => {
                self.faults = self.faults.saturating_add(1);
                Err(failed)
            }
        }
    }
}

// The same over the folder of a lender, which is given back.
fn find_named<N: Lent, B: Lends + Drop, G: Gate, R: Threads + Sync>(
    rt: &R,
    alloc: Global,
    gate: &G,
    building: Building,
    lender: B,
    before: u32,
    day: &Edition,
    item: &PlanItem,
) -> (B, Result<Found, PlanEnd>)
    requires building { IsGoodBuilding building }
    requires room { before < 2 ^ 32 - 1 }
    requires name { B.name lender ≡ N.name }
    requires start { B.count lender ≡ N.start }
    ensures name { B.name result.0 ≡ B.name lender }
    ensures files { B.lent_files result.0 ≡ B.lent_files lender }
    ensures later { B.count lender ≤ B.count result.0 }
    ensures kept { OnOk result.1 (B.count result.0 ≡ B.count lender) }
    ensures failed { IfErr result.1 (HasFailedBy (B.count lender) (B.count result.0)) }
    ensures found { IfOk result.1 (λ found. HasOutcome (B.lent_files lender) building.options
        building.mirrored (Some day.now) before item.now found.outcome
        (option_to_list found.edition)) }
{
    let mut folder: Counted<B, N> = Counted {
        lender,
        faults: 0,
        of: PhantomData,
    };
    let found = find_item(rt, alloc, gate, building, &mut folder, before, day, item);
    let Counted { lender, .. } = folder;
    (lender, found)
}

// The same, at a name that is picked here.
fn find_lent<B: Lends + Drop, G: Gate, R: Threads + Sync>(
    rt: &R,
    alloc: Global,
    gate: &G,
    building: Building,
    lender: B,
    before: u32,
    day: &Edition,
    item: &PlanItem,
) -> (B, Result<Found, PlanEnd>)
    requires building { IsGoodBuilding building }
    requires room { before < 2 ^ 32 - 1 }
    ensures name { B.name result.0 ≡ B.name lender }
    ensures files { B.lent_files result.0 ≡ B.lent_files lender }
    ensures later { B.count lender ≤ B.count result.0 }
    ensures kept { OnOk result.1 (B.count result.0 ≡ B.count lender) }
    ensures failed { IfErr result.1 (HasFailedBy (B.count lender) (B.count result.0)) }
    ensures found { IfOk result.1 (λ found. HasOutcome (B.lent_files lender) building.options
        building.mirrored (Some day.now) before item.now found.outcome
        (option_to_list found.edition)) }
{
    find_named::<Brand, B, G, R>(rt, alloc, gate, building, lender, before, day, item)
}

// Does nothing; but that the lent folder is used once more is what ties it to the one that was
// lent.
fn take_back<F: Folder>(folder: &mut F)
    ensures { folder.new ≡ folder.old }
{}

/// What an item is found to be, whatever the folder's count of faults is. `ReadFault` comes only
/// where that count rose, or stands at its last value; without it the count is the same.
pub(crate) fn find_anyway<F: Folder, G: Gate, R: Threads + Sync>(
    rt: &R,
    alloc: Global,
    gate: &G,
    building: Building,
    folder: &mut F,
    before: u32,
    day: &Edition,
    item: &PlanItem,
) -> Result<Found, PlanEnd>
    requires building { IsGoodBuilding building }
    requires room { before < 2 ^ 32 - 1 }
    ensures files { F.files folder.new ≡ F.files folder.old }
    ensures later { F.faults folder.old ≤ F.faults folder.new }
    ensures kept { OnOk result (F.faults folder.new ≡ F.faults folder.old) }
    ensures failed { IfErr result (HasFailedBy (F.faults folder.old) (F.faults folder.new)) }
    ensures found { IfOk result (λ found. HasOutcome (F.files folder.old) building.options
        building.mirrored (Some day.now) before item.now found.outcome
        (option_to_list found.edition)) }
{
    let (loan, found) = find_lent(
        rt,
        alloc,
        gate,
        building,
        Loan::new(folder),
        before,
        day,
        item,
    );
    let Loan { folder } = loan;
    take_back(folder);
    found
}
