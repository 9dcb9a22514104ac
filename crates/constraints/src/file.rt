//! Constraints of a trust anchor.

ghost use Rattle.std.specs.Prelude.{◌≡◌, ◌++◌, [], Ok, Err, OnOk, MatchResult};
ghost use Rattle.constraints.specs.Files.{ReadsFile, TakesLine, listed};
ghost use Rattle.constraints.specs.Judging.{ip_sets, as_sets, is_ip, is_as, FirstDenial, Judges};

use crate::entry::{Entry, read_line};
use crate::gathered::{Gathered, gather};
use crate::judging::{Judged, first_denial};
use crate::words::next_line;
use crate::{Constraint, ConstraintAction, ConstraintRefusal, ConstraintsError};
use resources::ResourceSet;
use std::alloc::{AllocError, Global};
use std::marker::Model;

/// The constraints of a trust anchor: the entries of a file, in its order.
#[derive(Debug, Drop)]
pub struct Constraints {
    entries: Vec<Constraint>,
    allowed: Gathered,
    denied: Gathered,
}

impl Model for Constraints {
    ghost use Rattle.std.specs.Prelude.{List};
    ghost use Rattle.constraints.specs.declared.constraint.Constraint.{Constraint as Item};
    ghost use Rattle.constraints.specs.declared.action.ConstraintAction.TheVariants.{Allow, Deny};
    ghost use Rattle.constraints.specs.Gathering.{Gathers};

    ghost Value = { List Item };

    ghost view = { λ c. c.entries.items };

    ghost invariant = { λ c. Gathers Allow c.entries.items c.allowed × Gathers Deny c.entries.items c.denied };
}

impl Constraints {
    /// The entries, in the order of the file.
    pub fn as_slice(&self) -> &[Constraint]
        ensures { result.now ≡ self.now }
    {
        self.entries.as_slice()
    }

    /// The line of the first entry that denies addresses. The sets decide at once if no entry does.
    fn ip_denial(&self, v4: &ResourceSet, v6: &ResourceSet) -> Option<usize>
        ensures { FirstDenial (ip_sets v4.now v6.now) self.now result }
    {
        if !self.denied.overlaps_ip(v4, v6) {
            return None;
        }
        let judged = Judged {
            v4: v4.as_slice(),
            v6: v6.as_slice(),
            numbers: &[],
        };
        first_denial(self.entries.as_slice(), judged)
    }

    /// The line of the first entry that denies AS numbers. The sets decide at once if no entry does.
    fn as_denial(&self, numbers: &ResourceSet) -> Option<usize>
        ensures { FirstDenial (as_sets numbers.now) self.now result }
    {
        if !self.denied.numbers.overlaps(numbers) {
            return None;
        }
        let judged = Judged {
            v4: &[],
            v6: &[],
            numbers: numbers.as_slice(),
        };
        first_denial(self.entries.as_slice(), judged)
    }

    /// Judges the IP addresses of the EE certificate of a ROA (RFC 9582): the sets that it lists, each empty if it has no such addresses. A
    /// certificate that inherits its addresses is not judged here.
    ///
    /// `Denied`: an entry denies one of the addresses; this is the first one of the file. `NotAllowed`: otherwise, the file has entries that allow
    /// IPv4 or IPv6 addresses, and one of the addresses is in none of them. So a file that only allows IPv6 addresses refuses each IPv4 address. If
    /// no entry allows addresses, all are allowed that no entry denies. Entries for AS numbers have no part in this.
    ///
    /// The steps are about as many as the ranges of the certificate, and of the sets that the entries allow and deny. Only if an address is denied,
    /// the entries are walked too.
    pub fn judge(&self, v4: &ResourceSet, v6: &ResourceSet) -> Result<(), ConstraintRefusal>
        ensures { Judges is_ip (ip_sets v4.now v6.now) self.now result }
    {
        if let Some(line) = self.ip_denial(v4, v6) {
            return Err(ConstraintRefusal::Denied { line });
        }
        if !self.allowed.has_ip(v4, v6) {
            return Err(ConstraintRefusal::NotAllowed);
        }
        Ok(())
    }

    /// Judges AS numbers, as `judge` does addresses, by the entries for AS numbers alone. A ROA is not judged by these.
    pub fn judge_as(&self, numbers: &ResourceSet) -> Result<(), ConstraintRefusal>
        ensures { Judges is_as (as_sets numbers.now) self.now result }
    {
        if let Some(line) = self.as_denial(numbers) {
            return Err(ConstraintRefusal::Denied { line });
        }
        if !self.allowed.has_as(numbers) {
            return Err(ConstraintRefusal::NotAllowed);
        }
        Ok(())
    }
}

/// Adds an entry at the end, if there is one.
fn keep(entries: &mut Vec<Constraint>, line: usize, entry: Option<Entry>) -> Result<(), AllocError>
    ensures { OnOk result (entries.new.items ≡ entries.old.items ++ listed line entry []) }
{
    if let Some(entry) = entry {
        entries.push(Constraint {
            line,
            action: entry.action,
            kind: entry.numbers.kind,
            range: entry.numbers.range,
        })?;
    }
    Ok(())
}

/// Reads a line, and adds its entry at the end.
fn take_line(
    entries: &mut Vec<Constraint>,
    line: usize,
    text: &[u8],
) -> Result<(), ConstraintsError>
    ensures { TakesLine line text.now entries.old.items result entries.new.items }
{
    match read_line(text) {
        Ok(entry) => {
            keep(entries, line, entry)?;
            Ok(())
        }
        Err(fault) => Err(fault.at(line)),
    }
}

/// The entries of a file.
fn read_entries(alloc: Global, bytes: &[u8]) -> Result<Vec<Constraint>, ConstraintsError>
    ensures { MatchResult result (λ v. ReadsFile bytes.now (Ok v.items)) (λ e. ReadsFile bytes.now (Err e)) }
{
    let mut entries = Vec::new(alloc);
    let mut rest = bytes;
    let mut number = 1;
    while let Some(line) = next_line(rest) {
        take_line(&mut entries, number, line.text)?;
        rest = line.rest;
        number += 1;
    }
    Ok(entries)
}

/// Reads a file of constraints (rpki-client(8)). An entry is a line: `allow` or `deny`, blanks, and one of these.
///
/// - A prefix, such as `192.0.2.0/24` or `2001:db8::/32`. An IPv6 address may be in mixed notation.
/// - A range of addresses of one family, such as `192.0.2.0 - 192.0.2.255`. Blanks beside the dash may be missing.
/// - An AS number in decimal digits, such as `64496`, or a range of them, such as `64496 - 64511`.
///
/// `#` begins a comment, which ends with the line. Blanks are spaces and tabs. Lines without words are ignored. A line ends in LF or CRLF, and the
/// last one may lack that. Entries may overlap. The error is the first fault, with its line, or that memory ran out.
pub fn read_constraints(alloc: Global, bytes: &[u8]) -> Result<Constraints, ConstraintsError>
    ensures { ReadsFile bytes.now result }
{
    let entries = read_entries(alloc, bytes)?;
    let allowed = gather(alloc, entries.as_slice(), ConstraintAction::Allow)?;
    let denied = gather(alloc, entries.as_slice(), ConstraintAction::Deny)?;
    Ok(Constraints {
        entries,
        allowed,
        denied,
    })
}
