//! Laws of sources. The functions do nothing: each states a law, which is proved. A record is a VRP of a file with its last second.
//! It counts at a second if its last second is that one or a later one. Seconds are counted since 1970.
ghost use Rattle.sources.specs.TakenLaws.{CcrsEnd, CountsExpired, NothingCounts, NothingEnds, OneSlurm, StaysTaken};

use exports::laws::later_exports;

/// Law: let a file be read at one second. At each later second below 2^64, its records that count are exactly the set that its bytes export then.
pub fn stays_taken()
    ensures { StaysTaken }
{
    later_exports();
}

/// Law: let a canonical cache representation be read at one second. At each later second all its VRPs count, until it is older than the maximum age.
/// From then on none does.
pub fn ccrs_end()
    ensures { CcrsEnd }
{}

/// Law, for a file that was read, and each second below 2^64. The number of its records that count, and the number that `expired` counts, add up to
/// the number of all its records.
pub fn counts_expired()
    ensures { CountsExpired }
{}

/// Law: if a list has no records, then at any second the set of those that count is empty, and the number of expired ones is 0.
pub fn nothing_counts()
    ensures { NothingCounts }
{}

/// Law, for two seconds: if no record of a file has its last second at the first or between them, the number of expired records stays the same.
/// It is the same at each second from the first to the second of them.
pub fn nothing_ends()
    ensures { NothingEnds }
{}

/// Law: `take_slurms` with one file does what `take_slurm` does with it. Both read the same exceptions, or both give the same fault. `take_slurms`
/// names it as the fault of file 0. Of the faults of uniting files, only `Memory` is possible with one file.
pub fn one_slurm()
    ensures { OneSlurm }
{}
