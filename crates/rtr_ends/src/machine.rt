//! A router between two PDUs: what it holds, its link, and what it asks (RFC 8210 sections 5 to 8).
ghost use Rattle.std.specs.Prelude.{◌≡◌, ◌&&◌, [], Some, None, true, false};
ghost use Rattle.vrps.specs.Origin.{state};
ghost use Rattle.vrps.specs.VrpSet.{empty};
ghost use Rattle.rtr_pdu.specs.Code.{CORRUPT_DATA};
ghost use Rattle.rtr_pdu.specs.Unit.{fits};
ghost use Rattle.rtr_pdu.specs.declared.version.Version.{Version as Protocol};
ghost use Rattle.rtr_ends.specs.Answer.{report, sent};
ghost use Rattle.rtr_ends.specs.Cache.{is_none};
ghost use Rattle.rtr_ends.specs.RouterLink as linked;
ghost use Rattle.rtr_ends.specs.LinkRules as rules;
ghost use Rattle.rtr_ends.specs.Seen.{seen_question, seen_versions};
ghost use Rattle.rtr_ends.specs.Transcript.{choose, of_version, query};

use crate::configuration::RouterConfig;
use crate::link::End;
use crate::outbox::Outbox;
use crate::question::{CommittedVersion, Question};
use crate::reports::report_on;
use crate::staging::Staging;
use crate::table::Table;
use rtr_pdu::{Unit, Version, error_code};
use std::alloc::Global;
use vrps::VrpSet;

/// The state of a link.
#[derive(Clone, Copy, Debug, PartialEq, Eq)]
pub enum State {
    Closed,
    Idle,
    Asked(Question),
    /// An answer has begun, of this session.
    Answering { question: Question, session: u16 },
    Ended(End),
}

/// A router, without the bytes of a PDU that is not yet whole.
#[derive(Debug, Drop)]
pub struct Machine {
    pub alloc: Global,
    pub config: RouterConfig,
    pub table: Table,
    /// The records before the latest commit, none if nothing is committed.
    pub before: VrpSet,
    pub version: Option<CommittedVersion>,
    /// Whether the next query must be a Reset Query.
    pub mark: bool,
    pub due: Option<u64>,
    /// Whether code 2, No Data Available, made the link idle last, and no commit.
    pub no_data: bool,
    /// The greatest time so far, in seconds of the caller's clock.
    pub clock: u64,
    /// The version of the protocol for the next connection.
    pub speaks: Version,
    /// The version of the connection, or of the latest one.
    pub spoken: Version,
    pub state: State,
    pub agreed: bool,
    /// The session of the latest Cache Response.
    pub session: Option<u16>,
    pub staging: Staging,
    pub out: Outbox,
}

impl Machine {
    ghost use Rattle.rtr_ends.specs.Seen.{Does, ShowsRouter, seen_link};
    ghost use Rattle.rtr_ends.specs.declared.machine.State.TheVariants as states;
    ghost use Rattle.rtr_ends.specs.declared.link.End.TheVariants as ends;

    /// A router that has committed nothing and has no connection. It has the default configuration, and its next connection is of version 1. It
    /// allocates no memory.
    pub fn new(alloc: Global) -> Machine
        ensures { ShowsRouter rules.new_router result }
    {
        Machine {
            alloc,
            config: RouterConfig::default(),
            table: Table::empty(alloc),
            before: VrpSet::empty(alloc),
            version: None,
            mark: false,
            due: None,
            no_data: false,
            clock: 0,
            speaks: Version::V1,
            spoken: Version::V1,
            state: State::Closed,
            agreed: false,
            session: None,
            staging: Staging::over(alloc, 0),
            out: Outbox::new(),
        }
    }

    /// Puts this query into `out`, in the version of the connection, and drops bytes that were pending before. The state becomes `Asked`. Nothing
    /// else changes.
    pub fn send_query(&mut self, question: Question)
        ensures { self.new ≡ record self.old { state = states.Asked question; out = sent self.old.spoken (query (seen_question question)) } }
    {
        match question {
            Question::Reset => self.out.put(self.spoken, &Unit::ResetQuery),
            Question::Serial { session, serial } => {
                self.out
                    .put(self.spoken, &Unit::SerialQuery { session, serial })
            }
        }
        self.state = State::Asked(question);
    }

    /// Adopts the reader's version for the connection. `None`: the reader knows none, and nothing changes.
    pub fn follow(&mut self, version: Option<Version>)
        ensures { (spoken : Protocol) → version ≡ Some spoken → self.new ≡ record self.old { spoken = spoken } }
    {
        if let Some(version) = version {
            self.spoken = version;
        }
    }

    /// Returns the committed version if it was committed in the protocol version of the connection (`spoken`).
    /// `None`: nothing is committed, or it was committed in the other protocol version.
    pub fn known(&self) -> Option<CommittedVersion>
        ensures { seen_versions result ≡ of_version self.now.spoken (seen_versions self.now.version) }
    {
        match &self.version {
            Some(version) => {
                if version.is_of(self.spoken) {
                    Some(*version)
                } else {
                    None
                }
            }
            None => None,
        }
    }

    /// Chooses the query to send: a Serial Query if a version of the connection's protocol version is committed and `mark` is not set. Otherwise a
    /// Reset Query. Nothing is sent. The query after a Cache Reset is not asked for here.
    pub fn choose(&self) -> Question
        ensures { seen_question result ≡ choose (of_version self.now.spoken (seen_versions self.now.version)) self.now.mark }
    {
        match self.known() {
            Some(version) => {
                if self.mark {
                    Question::Reset
                } else {
                    Question::Serial {
                        session: version.session,
                        serial: version.serial.0,
                    }
                }
            }
            None => Question::Reset,
        }
    }

    /// Puts a Serial Query (RFC 8210 section 5.3) into `out`, with the session and the serial of the committed version.
    /// It is a Reset Query (section 5.4) instead if `known` returns `None` or `mark` is set.
    /// Bytes that were pending before are dropped. The state becomes `Asked`.
    pub fn query(&mut self)
        ensures { Does rules.ask self.old self.new }
    {
        let question = self.choose();
        self.send_query(question);
    }

    /// Drops what is committed: the table, the table before it, the version and the mark. The link, the pending bytes and `due` stay.
    pub fn empty(&mut self)
        ensures { self.new ≡ record self.old { table = empty; before = empty; version = None; mark = false } }
    {
        self.table = Table::empty(self.alloc);
        self.before = VrpSet::empty(self.alloc);
        self.version = None;
        self.mark = false;
    }

    /// Puts an Error Report of this code on `unit` into `out`, and ends the link with `End::Reported`. What is committed stays. `unit` must fit
    /// the version of the connection.
    pub fn send_report(&mut self, code: u16, unit: &Unit)
        requires { fits self.old.spoken unit.now ≡ true }
        ensures { self.new ≡ record self.old { state = states.Ended (ends.Reported code); out = sent self.old.spoken (report code (sent self.old.spoken unit.now)) } }
    {
        self.out
            .put(self.spoken, &report_on(self.spoken, code, unit));
        self.state = State::Ended(End::Reported(code));
    }

    /// Drops what is committed: the table, the table before it, the version and the mark. Then it puts an Error Report of code 0, Corrupt Data, on
    /// `unit` into `out`, and ends the link with `End::Reported`. `unit` must fit the version of the connection.
    pub fn drop_and_report(&mut self, unit: &Unit)
        requires { fits self.old.spoken unit.now ≡ true }
        ensures { self.new ≡ record self.old { table = empty; before = empty; version = None; mark = false; state = states.Ended (ends.Reported CORRUPT_DATA); out = sent self.old.spoken (report CORRUPT_DATA (sent self.old.spoken unit.now)) } }
    {
        self.empty();
        self.send_report(error_code::CORRUPT_DATA, unit);
    }

    /// Returns whether the next received bytes are consumed. `true`: a link is open and no bytes are pending. `false`: the link has ended or is
    /// closed, or bytes are pending.
    pub fn takes(&self) -> bool
        ensures { result ≡ (linked.is_reading (seen_link self.now.state [] []) && is_none self.now.out) }
    {
        let reads = match self.state {
            State::Closed => false,
            State::Ended(_) => false,
            State::Idle => true,
            State::Asked(_) => true,
            State::Answering { .. } => true,
        };
        reads && self.out.is_empty()
    }
}
