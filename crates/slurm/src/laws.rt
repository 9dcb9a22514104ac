//! Laws of local exceptions. The functions do nothing: each states a law, which is proved.
ghost use Rattle.slurm.specs.Exceptions.{AppliedTwice, AssertionsStay};
ghost use Rattle.slurm.specs.Ignored.{ScopesCount};
ghost use Rattle.slurm.specs.Relations.{ReadsExactly};
ghost use Rattle.slurm.specs.Scoped.{OneScopedReading, ReadsScopedExactly, ScopesAreKept};
ghost use Rattle.slurm.specs.SlurmFile.{OneReading};
ghost use Rattle.slurm.specs.Uniting.{AnyOrder, OneIsApart, SharesAddress, UnitedApplied};

/// Law: applying exceptions twice gives the same set as applying them once.
pub fn applied_twice()
    ensures { AppliedTwice }
{}

/// Law: each assertion is in the result, even if a filter matches it.
pub fn assertions_stay()
    ensures { AssertionsStay }
{}

/// Law: for any bytes, two readings give the same exceptions, or the same first fault.
pub fn one_reading()
    ensures { OneReading }
{}

/// Law: reading step by step, as [`read_slurm`](crate::read_slurm) does, accepts exactly the files that the definition `IsSlurmFile` describes
/// (RFC 8416 section 3). The exceptions are the same.
pub fn reads_exactly()
    ensures { ReadsExactly }
{}

/// Law: reading step by step with the scope, as [`read_slurm_scoped`](crate::read_slurm_scoped) does, accepts exactly the files that the
/// definition `IsScopedFile` describes. The scope is the same.
pub fn reads_scoped_exactly()
    ensures { ReadsScopedExactly }
{}

/// Law: for any bytes, two readings with the scope give the same file with its scope, or the same first fault.
pub fn one_scoped_reading()
    ensures { OneScopedReading }
{}

/// Law, for any bytes: reading with the scope gives the same exceptions, or the same fault, as reading without it.
pub fn scopes_are_kept()
    ensures { ScopesAreKept }
{}

/// Law, for each file: the scope has one AS or `None` for each element of its two BGPsec arrays. So the lengths of the lists count the entries that
/// are not applied to VRPs.
pub fn scopes_count()
    ensures { ScopesCount }
{}

/// Law, for any files, any set and any VRP. The VRP is in the result if and only if some file asserts it, or the set has it and no filter of any file
/// matches it. So an assertion of one file is in the result even if a filter of another file matches it.
pub fn united_applied()
    ensures { UnitedApplied }
{}

/// Law: the order in which files are united does not change the set that results from applying them.
pub fn any_order()
    ensures { AnyOrder }
{}

/// Law: a single file has no overlap with another file. Entries of one file are not compared with each other.
pub fn one_is_apart()
    ensures { OneIsApart }
{}

/// Law: one of two prefixes covers the other if and only if they have a common address.
pub fn shares_an_address()
    ensures { SharesAddress }
{}
