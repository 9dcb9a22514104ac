//! Sources, and the set that is made of them.
ghost use Rattle.std.specs.Prelude.{◌≡◌, ◌<◌, IfOk, IfSome, IsErrOf, None, false, length, map, slice_get, string_bytes, true};
ghost use Rattle.vrps.specs.VrpSet.{empty, size, union};
ghost use Rattle.points.specs.Answers.{told_by, NewExactly, BecomesAt};
ghost use Rattle.points.specs.InUse.{accepted_at, no_points};
ghost use Rattle.points.specs.Offers.{Acceptable, Judged};
ghost use Rattle.sources.specs.Served.{DropsSet, Gives, HasServed, IsServed, LeavesOut, NoneTaken, PassesLimit, SameSettings, TakesExport, TakesSet, TakesSlurm, TakesSlurms};
ghost use Rattle.sources.specs.Shrinking.{TakesWithin, left_of};
ghost use Rattle.sources.specs.Served.{AreLeftOf, anchors_at};
ghost use Rattle.sources.specs.Served.{built_at, ends_between, excepted_by, expired_of, has_length_0, ignored_at, ignored_exceptions, left_out_of, narrowed, records_of, with_lists};

use crate::fault::{SlurmSetFault, TakeFault, TakeSetFault};
use crate::listed::Listed;
use crate::reading::read_listed;
use crate::shrinking::shrinking;
use crate::slurms::{AppliedSlurms, NO_EXCEPTIONS, read_applied, read_united};
use der_lite::Moment;
use exports::Ignored;
use points::{FileIn, Offered, PointFault, Repository};
use prefixes::Vrp;
use slurm::{Ignored as IgnoredExceptions, SlurmFault, apply};
use std::alloc::{AllocError, Global};
use vrps::{Change, SetFault, VrpSet};

/// The last good content of each source: files, publication points and SLURM files. [`Sources::served`] makes one set of them.
#[derive(Debug, Drop)]
pub struct Sources {
    alloc: Global,
    lists: Vec<Listed>,
    exceptions: Option<AppliedSlurms>,
    repository: Repository,
    /// Whether payloads of length 0 are left out.
    leaves_out: bool,
    /// The maximum age of canonical cache representations, in seconds. `None`: they are refused.
    max_age: Option<u64>,
}

/// The set that is served, and the numbers of payloads that it was made of.
#[derive(Debug, Drop)]
pub struct ServedSet {
    /// The set that is served.
    pub set: VrpSet,
    /// The number of payloads of the files and publication points together, before local exceptions are applied.
    pub given: u64,
    /// The number of payloads of length 0 (for `0.0.0.0/0` or `::/0`) that are left out of the set.
    pub left_out: u64,
}

impl Sources {
    /// Creates sources with this number of files, each without records. There are no local exceptions and no publication points. Payloads of
    /// length 0 are not left out. Canonical cache representations are refused.
    /// `files` includes the lists for sets of other caches. `AllocError`: no memory for them.
    pub fn new(alloc: Global, files: usize) -> Result<Sources, AllocError>
        ensures { IfOk result (λ s. (s.exceptions ≡ None) × (s.repository ≡ no_points) × NoneTaken files s.lists.items × (s.leaves_out ≡ false) × (s.max_age ≡ None)) }
    {
        let mut lists = Vec::with_capacity(alloc, files)?;
        for _file in 0..files {
            lists.push(Listed::empty(alloc))?;
        }
        Ok(Sources {
            alloc,
            lists,
            exceptions: None,
            repository: Repository::new(alloc),
            leaves_out: false,
            max_age: None,
        })
    }

    /// Leaves out payloads of length 0 (for `0.0.0.0/0` or `::/0`) from now on. Some routers fail at them. This cannot be undone.
    pub fn leave_out_length_0(&mut self)
        ensures { self.new ≡ record self.old { leaves_out = true } }
    {
        self.leaves_out = true;
    }

    /// Sets the maximum age of canonical cache representations (draft-ietf-sidrops-rpki-ccr), in seconds. From now on they are read. Their records have no
    /// expiry of their own: they count until the time at which the representation was produced is more than `age` seconds ago.
    pub fn set_max_age(&mut self, age: u64)
        ensures { self.new ≡ record self.old { max_age = Some age } }
    {
        self.max_age = Some(age);
    }

    /// Returns the number of files, as given to `new`. The lists for sets of other caches are included.
    pub fn files(&self) -> usize
        ensures { result ≡ length self.now.lists.items }
    {
        self.lists.len()
    }

    /// Returns the number of records of a file that have expired since the file was read: their last second is before `now`, in seconds since 1970.
    /// `file` is its index, from 0. Entries that had expired before the read are not counted. 0: none has expired, or there is no such file.
    pub fn expired(&self, file: usize, now: u64) -> u64
        ensures { result ≡ expired_of now (slice_get self.now.lists.items file) }
    {
        match self.lists.get(file) {
            Some(list) => list.expired(now),
            None => 0,
        }
    }

    /// Returns whether a record of a file ends between two seconds since 1970. `true`: a record counts at `from` and does not count at `to`. `file`
    /// is its index, from 0. `false`: there is no such record, or no such file.
    pub fn ends_between(&self, file: usize, from: u64, to: u64) -> bool
        ensures { result ≡ ends_between from to (slice_get self.now.lists.items file) }
    {
        match self.lists.get(file) {
            Some(list) => list.ends_between(from, to),
            None => false,
        }
    }

    /// Returns the number of records of a file that counted when it was read. Those that have expired since are included. `file` is its index, from
    /// 0.
    /// The result is 0 if there were none or there is no such file.
    pub fn records(&self, file: usize) -> u64
        ensures { result ≡ records_of (slice_get self.now.lists.items file) }
    {
        match self.lists.get(file) {
            Some(list) => list.set.len() as u64,
            None => 0,
        }
    }

    /// Returns when the last export of a file was made, in seconds since 1970. `file` is its index, from 0. `None`: the export does not say so, the
    /// file has no export or a set of another cache, or there is no such file.
    pub fn built(&self, file: usize) -> Option<u64>
        ensures { result ≡ built_at (slice_get self.now.lists.items file) }
    {
        match self.lists.get(file) {
            Some(list) => list.built,
            None => None,
        }
    }

    /// Returns the numbers of elements of a file's last export that are not served: ASPAs and router keys. `file` is its index, from 0. They are 0 if
    /// the file has no export or a set of another cache, or if there is no such file.
    pub fn ignored(&self, file: usize) -> Ignored
        ensures { result ≡ ignored_at (slice_get self.now.lists.items file) }
    {
        match self.lists.get(file) {
            Some(list) => list.ignored,
            None => Ignored {
                aspas: 0,
                router_keys: 0,
            },
        }
    }

    /// Returns the names of the trust anchors in a file's last export, in the order of their first entries. `file` is its index, from 0. The list is
    /// empty if the file has no export or a set of another cache, or if there is no such file.
    pub fn anchors(&self, file: usize) -> &[String]
        ensures { map string_bytes result.now ≡ anchors_at (slice_get self.now.lists.items file) }
    {
        match self.lists.get(file) {
            Some(list) => list.anchors.names.as_slice(),
            None => &[],
        }
    }

    /// Returns how many records of each trust anchor have not expired, in the order of [`Sources::anchors`]. `file` is its index, from 0.
    ///
    /// `now` is in seconds since 1970. A record has expired if its last second is before `now`. Records without a trust anchor are in none of
    /// the counts. The result is empty for a set of another cache, or if there is no such file. `Err`: out of memory.
    pub fn left_of_anchors(&self, file: usize, now: u64) -> Result<Vec<u64>, AllocError>
        ensures { IfOk result (λ counts. AreLeftOf now (slice_get self.now.lists.items file) counts.items) }
    {
        match self.lists.get(file) {
            Some(list) => list.left_of_anchors(self.alloc, now),
            None => Ok(Vec::new(self.alloc)),
        }
    }

    /// Replaces the content of `file` (from 0) by `bytes`, read at `now`, in seconds since 1970. They are an export in JSON, or a canonical cache
    /// representation (see [`Sources::set_max_age`]). The first two bytes decide.
    ///
    /// `Ok`: the number of entries that have expired at `now`: they are left out. On an error nothing changes. `NoSuchFile`: there is no such file.
    /// `Export`: the bytes are not an export, more than 16,777,215 different VRPs have not expired, or memory ran out. `Ccr`: the same of a canonical
    /// cache representation, or there is no maximum age. The result is never `Shrank`.
    pub fn take_export(&mut self, file: usize, bytes: &[u8], now: u64) -> Result<u64, TakeFault>
        ensures lists { TakesExport self.old.max_age bytes.now now file result self.old.lists.items self.new.lists.items }
        ensures rest { (self.new.exceptions ≡ self.old.exceptions) × (self.new.repository ≡ self.old.repository) × SameSettings self.old self.new }
    {
        self.take_export_within(None, file, bytes, now)
    }

    /// Replaces the content of `file` (from 0) as [`Sources::take_export`] does, but refuses one with far fewer records. `now` is in seconds since
    /// 1970.
    /// `guard` is the largest part that may be gone, in percent.
    ///
    /// `Err(Shrank)`: the last content has 1,000 or more records, and more than `guard` percent of them are gone. Records that have expired at `now`
    /// count on neither side.
    ///
    /// `guard` of `None`, or of 100 or more: nothing is refused for this reason. On an error nothing changes.
    pub fn take_export_within(
        &mut self,
        guard: Option<u8>,
        file: usize,
        bytes: &[u8],
        now: u64,
    ) -> Result<u64, TakeFault>
        ensures lists { TakesWithin self.old.max_age guard bytes.now now file result self.old.lists.items self.new.lists.items }
        ensures rest { (self.new.exceptions ≡ self.old.exceptions) × (self.new.repository ≡ self.old.repository) × SameSettings self.old self.new }
    {
        let had = self.left(file, now);
        if file >= self.lists.len() {
            return Err(TakeFault::NoSuchFile);
        }
        let (list, expired) = read_listed(self.alloc, self.max_age, bytes, now)?;
        let has = list.left(now);
        match shrinking(guard, had, has) {
            Some(fault) => Err(fault),
            None => {
                self.lists[file] = list;
                Ok(expired)
            }
        }
    }

    /// Returns how many records of `file` have not expired at `now`, in seconds since 1970. `file` is its index, from 0. A record has expired if
    /// its last second is before `now`. The lists for sets of other caches count as files. 0: there is no such file, or no record is left.
    pub fn left(&self, file: usize, now: u64) -> u64
        ensures { result ≡ left_of now (slice_get self.now.lists.items file) }
    {
        match self.lists.get(file) {
            Some(list) => list.left(now),
            None => 0,
        }
    }

    /// Replaces `list` (from 0) by a set of another cache. The records count at each second before `until`, and at none from then on. `until` is
    /// in seconds since 1970. So the records end with the Expire Interval (RFC 8210 section 6). `None`: they count until the list is replaced or
    /// dropped.
    ///
    /// `NoSuchList`: there is no such list. `Memory`: out of memory. On an error nothing changes.
    pub fn take_set(
        &mut self,
        list: usize,
        set: &VrpSet,
        until: Option<u64>,
    ) -> Result<(), TakeSetFault>
        ensures lists { TakesSet set.now until list result self.old.lists.items self.new.lists.items }
        ensures rest { (self.new.exceptions ≡ self.old.exceptions) × (self.new.repository ≡ self.old.repository) × SameSettings self.old self.new }
    {
        if list >= self.lists.len() {
            return Err(TakeSetFault::NoSuchList);
        }
        let listed = Listed::until(self.alloc, set, until)?;
        self.lists[list] = listed;
        Ok(())
    }

    /// Empties `list` (from 0), which then has no records, and returns `true`. If there is no such list, returns `false`, and nothing changes.
    /// Allocates no memory.
    pub fn drop_set(&mut self, list: usize) -> bool
        ensures lists { DropsSet list result self.old.lists.items self.new.lists.items }
        ensures rest { (self.new.exceptions ≡ self.old.exceptions) × (self.new.repository ≡ self.old.repository) × SameSettings self.old self.new }
    {
        if list >= self.lists.len() {
            return false;
        }
        self.lists[list] = Listed::empty(self.alloc);
        true
    }

    /// Replaces the local exceptions by those of one SLURM file. `Err`: the bytes are not a SLURM file, assert over 16,777,215 different VRPs,
    /// or memory ran out. Then nothing changes.
    pub fn take_slurm(&mut self, bytes: &[u8]) -> Result<(), SlurmFault>
        ensures exceptions { TakesSlurm bytes.now result self.old.exceptions self.new.exceptions }
        ensures rest { (self.new.lists ≡ self.old.lists) × (self.new.repository ≡ self.old.repository) × SameSettings self.old self.new }
    {
        let slurms = read_applied(self.alloc, bytes)?;
        self.exceptions = Some(slurms);
        Ok(())
    }

    /// Replaces the local exceptions by those of several SLURM files together. `files` has their bytes. No two of them may overlap (RFC 8416
    /// section 4.2). If `files` is empty, there are no exceptions from then on.
    ///
    /// `Err(File)`: the first file that is not a SLURM file or asserts over 16,777,215 VRPs, or memory ran out while it was read.
    /// `Err(Unite)`: two files overlap, they assert over 16,777,215 VRPs together, or memory ran out. On an error nothing changes.
    pub fn take_slurms(&mut self, files: &[Vec<u8>]) -> Result<(), SlurmSetFault>
        ensures exceptions { TakesSlurms (map (λ f. f.items) files.now) result self.old.exceptions self.new.exceptions }
        ensures rest { (self.new.lists ≡ self.old.lists) × (self.new.repository ≡ self.old.repository) × SameSettings self.old self.new }
    {
        let exceptions = read_united(self.alloc, files)?;
        self.exceptions = exceptions;
        Ok(())
    }

    /// The numbers of BGPsec entries of a SLURM file, which are not applied. `file` is its index, from 0, in the last call that loaded
    /// SLURM files. They are 0 if there is no such file.
    pub fn ignored_exceptions(&self, file: usize) -> IgnoredExceptions
        ensures { result ≡ ignored_exceptions self.now.exceptions file }
    {
        match &self.exceptions {
            Some(slurms) => slurms.ignored_of(file),
            None => NO_EXCEPTIONS,
        }
    }

    /// Offers a manifest and its fetched files to the publication point `name`. The caller has verified all of them. `now` is in UTC.
    ///
    /// `Ok(New)`: the point holds them now. `Ok(Same)`: the point already holds this manifest, and `files` is not looked at.
    ///
    /// `Err`: the offer is refused and nothing changes. [`points::Point::offer`] lists the order of the faults.
    pub fn offer(
        &mut self,
        name: &str,
        manifest: &[u8],
        files: &[FileIn],
        now: Moment,
    ) -> Result<Offered, PointFault>
        ensures judged { IfSome (told_by result) (Judged (accepted_at self.old.repository name.now) manifest.now files.now now) }
        ensures exact { NewExactly result (Acceptable (accepted_at self.old.repository name.now) manifest.now files.now now) }
        ensures held { BecomesAt result name.now self.old.repository self.new.repository manifest.now files.now }
        ensures rest { (self.new.lists ≡ self.old.lists) × (self.new.exceptions ≡ self.old.exceptions) × SameSettings self.old self.new }
    {
        self.repository.offer(name, manifest, files, now)
    }

    /// Returns the set that is served at `now`, in UTC. It has the records of the files that count then, and those of the publication points.
    /// - The local exceptions are applied to it. Payloads of length 0 are left out if [`Sources::leave_out_length_0`] was called.
    /// - A record of a file counts only before its expiry, even if the file has not been read since.
    ///
    /// `Err(TooMany)`: the records together, or the result of the exceptions, are over 16,777,215. `Err(Memory)`: out of memory.
    pub fn served(&self, now: Moment) -> Result<ServedSet, SetFault>
        ensures is { IfOk result (λ t. IsServed self.now.repository self.now.lists.items self.now.exceptions self.now.leaves_out now t.set) }
        ensures those { IfOk result (λ t. HasServed self.now.repository self.now.lists.items self.now.exceptions self.now.leaves_out now t.set) }
        ensures gives { IfOk result (λ t. Gives self.now.repository self.now.lists.items now t.given) }
        ensures left_out { IfOk result (λ t. LeavesOut self.now.repository self.now.lists.items self.now.exceptions self.now.leaves_out now t.left_out) }
        ensures too_many { IsErrOf result SetFault.TooMany → PassesLimit self.now.repository self.now.lists.items self.now.exceptions now }
    {
        let used = VrpSet::from_list(self.repository.payloads(now)?)?;
        let all = all_of(self.alloc, used, self.lists.as_slice(), now.seconds())?;
        let given = all.len() as u64;
        let left = excepted(self.alloc, &self.exceptions, all)?;
        narrowed(self.alloc, self.leaves_out, given, left)
    }
}

/// A set, and the payloads of files that count at a moment.
fn all_of(alloc: Global, used: VrpSet, lists: &[Listed], now: u64) -> Result<VrpSet, SetFault>
    ensures ok { IfOk result (λ t. t ≡ with_lists now used lists.now) }
    ensures too_many { IsErrOf result SetFault.TooMany → 16777215 < size (with_lists now used lists.now) }
{
    let listed = together(alloc, lists, now)?;
    joined(alloc, used, listed)
}

/// A set with local exceptions, if there are any.
fn excepted(
    alloc: Global,
    exceptions: &Option<AppliedSlurms>,
    all: VrpSet,
) -> Result<VrpSet, SetFault>
    ensures ok { IfOk result (λ t. t ≡ excepted_by exceptions.now all) }
    ensures too_many { IsErrOf result SetFault.TooMany → 16777215 < size (excepted_by exceptions.now all) }
{
    match exceptions {
        None => Ok(all),
        Some(slurms) => apply(&slurms.slurm, alloc, &all),
    }
}

/// Whether a payload is for 0.0.0.0/0 or ::/0.
fn has_length_0(vrp: &Vrp) -> bool
    ensures { result ≡ has_length_0 vrp.now }
{
    vrp.prefix().len() == 0
}

/// The payloads of a set that are left out.
fn left_out_of(alloc: Global, leaves: bool, set: &VrpSet) -> Result<Vec<Vrp>, AllocError>
    ensures { IfOk result (λ found. found.items ≡ left_out_of leaves set.now) }
{
    if !leaves {
        return Ok(Vec::new(alloc));
    }
    set.as_slice()
        .iter()
        .copied()
        .filter(|vrp| has_length_0(vrp))
        .collect(alloc)
}

/// A set without the payloads that are left out, and how many payloads it was made of.
fn narrowed(alloc: Global, leaves: bool, given: u64, set: VrpSet) -> Result<ServedSet, SetFault>
    ensures given { IfOk result (λ t. t.given ≡ given) }
    ensures ok { IfOk result (λ t. (t.set ≡ narrowed leaves set) × (t.left_out ≡ length (left_out_of leaves set))) }
    ensures too_many { IsErrOf result SetFault.TooMany → 16777215 < size set }
{
    let found = left_out_of(alloc, leaves, &set)?;
    let left_out = found.as_slice().len() as u64;
    if left_out == 0 {
        return Ok(ServedSet {
            set,
            given,
            left_out,
        });
    }
    let change = Change {
        withdraw: VrpSet::from_list(found)?,
        announce: VrpSet::empty(alloc),
    };
    let set = change.apply(alloc, &set)?;
    Ok(ServedSet {
        set,
        given,
        left_out,
    })
}

/// A set, and the members of another.
fn joined(alloc: Global, set: VrpSet, more: VrpSet) -> Result<VrpSet, SetFault>
    ensures ok { IfOk result (λ t. t ≡ union set more) }
    ensures too_many { IsErrOf result SetFault.TooMany → 16777215 < size (union set more) }
{
    if set.is_empty() {
        return Ok(more);
    }
    let change = Change {
        withdraw: VrpSet::empty(alloc),
        announce: more,
    };
    change.apply(alloc, &set)
}

/// The payloads of files that count at a moment. Those of each half are put together first, so each is looked at once for each doubling of
/// the number of files.
fn together(alloc: Global, lists: &[Listed], now: u64) -> Result<VrpSet, SetFault>
    ensures ok { IfOk result (λ t. t ≡ with_lists now empty lists.now) }
    ensures too_many { IsErrOf result SetFault.TooMany → 16777215 < size (with_lists now empty lists.now) }
{
    if lists.is_empty() {
        return Ok(VrpSet::empty(alloc));
    }
    if lists.len() == 1 {
        return lists[0].counted(alloc, now);
    }
    let (first, second) = lists.split_at(lists.len() / 2);
    let one = together(alloc, first, now)?;
    let other = together(alloc, second, now)?;
    joined(alloc, one, other)
}
