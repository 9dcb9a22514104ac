//! The forms in which the records of a version are written, and what is kept of them.
ghost use Rattle.std.specs.Prelude.{◌≡◌, IfOk, IsTrue, option_copied};
ghost use Rattle.http_header.specs.FieldValue.{is_visible_text};
ghost use Rattle.status_pages.specs.Csv.{csv_text, routinator_csv_text};
ghost use Rattle.status_pages.specs.Roas.{roas_text};
ghost use Rattle.status_server.specs.Answers.{records_of};
ghost use Rattle.status_server.specs.Lists.{form_text, kept_text, kind_of, no_texts, with_text};
ghost use Rattle.vrps.specs.VrpSet.{listing};

use crate::representations::shared;
use crate::responses::{CSV, JSON};
use bytes::Bytes;
use payload_lists::write_list;
use status_pages::{write_csv, write_roas, write_routinator_csv};
use std::alloc::{AllocError, Global};
use vrps::VrpSet;

/// A format in which VRPs are written.
#[derive(Clone, Copy, Debug, PartialEq, Eq)]
pub enum ListForm {
    /// A payload list as JSON.
    Payloads,
    /// The array of objects in Routinator's JSON.
    Roas,
    /// CSV with three columns.
    Csv,
    /// CSV of Routinator, with four columns.
    RoutinatorCsv,
}

impl ListForm {
    /// Its media type.
    pub(crate) fn media_type(self) -> &'static str
        ensures kind { result.now ≡ kind_of self }
        ensures visible { IsTrue (is_visible_text result.now) }
    {
        match self {
            ListForm::Payloads | ListForm::Roas => JSON,
            ListForm::Csv | ListForm::RoutinatorCsv => CSV,
        }
    }
}

/// A form of an export: an object with metadata and records.
#[derive(Clone, Copy, Debug, PartialEq, Eq)]
pub(crate) enum ExportForm {
    /// That of rpki-client and StayRTR.
    RpkiClient,
    /// That of Routinator.
    Routinator,
}

impl ExportForm {
    /// The form of its records.
    pub(crate) fn records(self) -> ListForm
        ensures { result ≡ records_of self }
    {
        match self {
            ExportForm::RpkiClient => ListForm::Payloads,
            ExportForm::Routinator => ListForm::Roas,
        }
    }
}

/// The records of a version in the forms that were asked for.
#[derive(Drop)]
pub(crate) struct ListTexts {
    payloads: Option<Bytes>,
    roas: Option<Bytes>,
    csv: Option<Bytes>,
    routinator_csv: Option<Bytes>,
}

impl ListTexts {
    /// No form was asked for yet.
    pub(crate) fn new() -> ListTexts
        ensures { result ≡ no_texts }
    {
        ListTexts {
            payloads: None,
            roas: None,
            csv: None,
            routinator_csv: None,
        }
    }

    /// The text in a form, if it is kept.
    pub(crate) fn text(&self, form: ListForm) -> Option<&Bytes>
        ensures { option_copied result ≡ kept_text form self.now }
    {
        match form {
            ListForm::Payloads => self.payloads.as_ref(),
            ListForm::Roas => self.roas.as_ref(),
            ListForm::Csv => self.csv.as_ref(),
            ListForm::RoutinatorCsv => self.routinator_csv.as_ref(),
        }
    }

    /// Keeps the text in a form.
    pub(crate) fn keep(&mut self, form: ListForm, text: Bytes)
        ensures { self.new ≡ with_text form text self.old }
    {
        match form {
            ListForm::Payloads => self.payloads = Some(text),
            ListForm::Roas => self.roas = Some(text),
            ListForm::Csv => self.csv = Some(text),
            ListForm::RoutinatorCsv => self.routinator_csv = Some(text),
        }
    }
}

/// The records of a set in a form.
pub(crate) fn written_list(alloc: Global, set: &VrpSet, form: ListForm) -> Result<Bytes, AllocError>
    ensures { IfOk result (λ text. text ≡ form_text form (listing set.now)) }
{
    match form {
        ListForm::Payloads => Bytes::from_string(write_list(alloc, set.as_slice())?),
        ListForm::Roas => written_roas(alloc, set),
        ListForm::Csv => written_csv(alloc, set),
        ListForm::RoutinatorCsv => written_routinator_csv(alloc, set),
    }
}

/// The records of a set as the array of objects of Routinator's JSON.
fn written_roas(alloc: Global, set: &VrpSet) -> Result<Bytes, AllocError>
    ensures { IfOk result (λ roas. roas ≡ roas_text (listing set.now)) }
{
    let mut text = Vec::new(alloc);
    if write_roas(&mut text, set.as_slice()).is_err() {
        return Err(AllocError);
    }
    shared(text)
}

/// The records of a set as CSV of three columns.
fn written_csv(alloc: Global, set: &VrpSet) -> Result<Bytes, AllocError>
    ensures { IfOk result (λ csv. csv ≡ csv_text (listing set.now)) }
{
    let mut text = Vec::new(alloc);
    if write_csv(&mut text, set.as_slice()).is_err() {
        return Err(AllocError);
    }
    shared(text)
}

/// The records of a set as the CSV of Routinator.
fn written_routinator_csv(alloc: Global, set: &VrpSet) -> Result<Bytes, AllocError>
    ensures { IfOk result (λ csv. csv ≡ routinator_csv_text (listing set.now)) }
{
    let mut text = Vec::new(alloc);
    if write_routinator_csv(&mut text, set.as_slice()).is_err() {
        return Err(AllocError);
    }
    shared(text)
}
