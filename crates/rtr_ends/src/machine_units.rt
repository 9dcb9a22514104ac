//! What a router does at a PDU (RFC 8210 sections 5, 7, 8 and 12): the rules of each link, PDU by PDU.
ghost use Rattle.std.specs.Prelude.{◌≡◌, ◌≤◌, ◌&&◌, ℕ, [], true, Some, Ok};
ghost use Rattle.vrps.specs.VrpSet.{has, size};
ghost use Rattle.rtr_pdu.specs.Code.{CORRUPT_DATA};
ghost use Rattle.rtr_pdu.specs.Unit.{fits};
ghost use Rattle.rtr_ends.specs.Answer.{report, sent};
ghost use Rattle.rtr_ends.specs.Router as model;
ghost use Rattle.rtr_ends.specs.RouterLink as linked;
ghost use Rattle.rtr_ends.specs.LinkRules as rules;
ghost use Rattle.rtr_ends.specs.Configuration.{chosen};
ghost use Rattle.rtr_ends.specs.Seen.{seen_question, seen_version, seen_versions};
ghost use Rattle.rtr_ends.specs.Transcript.{base_of, bounded, differs, is_wrong, of_version, session_of};

use crate::configuration::own_if;
use crate::link::End;
use crate::machine::{Machine, State};
use crate::question::{CommittedVersion, Question, within};
use crate::reports::{agreed_version, code_of, fault_unit, type_byte};
use crate::staging::{Staged, Staging};
use prefixes::Vrp;
use rtr_pdu::{Kind, Unit, UnitFault, error_code};
use std::mem;
use vrps::{Serial, SetFault};

impl Machine {
    ghost use Rattle.rtr_ends.specs.Seen.{Does, UnitIsRead, ReadsOrLacks, begun_with};
    ghost use Rattle.rtr_ends.specs.declared.machine.State.TheVariants as states;
    ghost use Rattle.rtr_ends.specs.declared.link.End.TheVariants as ends;

    /// Reads a PDU, which must fit the version of the connection. On a closed or ended link nothing changes. If the table would have too many
    /// records, the link ends with `End::TooMany`.
    /// Returns whether memory ran out, in which case the link has ended with `End::Memory`. Then what is committed stays.
    pub fn read(&mut self, unit: &Unit) -> bool
        requires { fits self.old.spoken unit.now ≡ true }
        ensures { ReadsOrLacks result unit.now self.old self.new }
    {
        match self.state {
            State::Closed => false,
            State::Ended(_) => false,
            State::Idle => {
                self.on_idle(unit);
                false
            }
            State::Asked(question) => {
                self.on_asked(question, unit);
                false
            }
            State::Answering { question, session } => {
                match self.on_answering(question, session, unit) {
                    Ok(()) => false,
                    Err(SetFault::TooMany) => {
                        self.state = State::Ended(End::TooMany);
                        false
                    }
                    Err(SetFault::Memory) => {
                        self.state = State::Ended(End::Memory);
                        true
                    }
                }
            }
        }
    }

    /// Reads a Prefix as `read` does, with the same result. `announce`: `true` for an announcement, `false` for a withdrawal. If the record is
    /// staged, no `Unit` is made, which saves time.
    pub fn read_prefix(&mut self, announce: bool, vrp: &Vrp) -> bool
        ensures { ReadsOrLacks result (Unit.Prefix announce vrp.now) self.old self.new }
    {
        match self.state {
            State::Answering {
                question,
                session: _,
            } => match self.stage(question, announce, vrp) {
                Ok(()) => false,
                Err(SetFault::TooMany) => {
                    self.state = State::Ended(End::TooMany);
                    false
                }
                Err(SetFault::Memory) => {
                    self.state = State::Ended(End::Memory);
                    true
                }
            },
            _ => self.read_apart(announce, vrp),
        }
    }

    /// A Prefix is read if no answer has begun.
    #[cold]
    #[inline(never)]
    fn read_apart(&mut self, announce: bool, vrp: &Vrp) -> bool
        ensures { ReadsOrLacks result (Unit.Prefix announce vrp.now) self.old self.new }
    {
        let unit = Unit::Prefix {
            announce,
            vrp: *vrp,
        };
        self.read(&unit)
    }

    /// A PDU on an idle link.
    fn on_idle(&mut self, unit: &Unit)
        requires state { self.old.state ≡ states.Idle }
        requires fits { fits self.old.spoken unit.now ≡ true }
        ensures { Does (λ r. rules.on_unit r.link unit.now r) self.old self.new }
    {
        match unit {
            Unit::SerialNotify { session, serial } => {
                if self.is_other_session(*session) {
                    self.drop_and_report(unit);
                } else if self.is_newer(*serial) {
                    self.query();
                }
            }
            Unit::CacheResponse { .. } => self.send_report(error_code::CORRUPT_DATA, unit),
            Unit::Prefix { .. } => self.send_report(error_code::CORRUPT_DATA, unit),
            Unit::RouterKey(_) => self.send_report(error_code::CORRUPT_DATA, unit),
            Unit::EndOfData { .. } => self.send_report(error_code::CORRUPT_DATA, unit),
            Unit::EndOfData0 { .. } => self.send_report(error_code::CORRUPT_DATA, unit),
            Unit::CacheReset => self.send_report(error_code::CORRUPT_DATA, unit),
            Unit::SerialQuery { .. } => self.send_report(error_code::CORRUPT_DATA, unit),
            Unit::ResetQuery => self.send_report(error_code::CORRUPT_DATA, unit),
            Unit::ErrorReport(report) => {
                let code = report.code();
                if code != error_code::NO_DATA_AVAILABLE {
                    self.state = State::Ended(End::Told(code));
                }
            }
        }
    }

    /// A PDU while the query is not answered yet.
    fn on_asked(&mut self, question: Question, unit: &Unit)
        requires state { self.old.state ≡ states.Asked question }
        requires fits { fits self.old.spoken unit.now ≡ true }
        ensures { Does (λ r. rules.on_unit r.link unit.now r) self.old self.new }
    {
        match unit {
            Unit::SerialNotify { session, serial: _ } => {
                if self.is_other_session(*session) {
                    self.drop_and_report(unit);
                }
            }
            Unit::CacheResponse { session } => {
                if self.answers_other_session(question, *session) {
                    self.drop_and_report(unit);
                } else {
                    self.begin(question, *session);
                }
            }
            Unit::Prefix { .. } => self.send_report(error_code::CORRUPT_DATA, unit),
            Unit::RouterKey(_) => self.send_report(error_code::CORRUPT_DATA, unit),
            Unit::EndOfData { .. } => self.send_report(error_code::CORRUPT_DATA, unit),
            Unit::EndOfData0 { .. } => self.send_report(error_code::CORRUPT_DATA, unit),
            Unit::CacheReset => match question {
                Question::Serial { .. } => {
                    self.agreed = true;
                    self.send_query(Question::Reset);
                }
                Question::Reset => self.send_report(error_code::CORRUPT_DATA, unit),
            },
            Unit::SerialQuery { .. } => self.send_report(error_code::CORRUPT_DATA, unit),
            Unit::ResetQuery => self.send_report(error_code::CORRUPT_DATA, unit),
            Unit::ErrorReport(report) => {
                self.agreed = true;
                self.on_error_report(question, report.code());
            }
        }
    }

    /// A PDU in an answer. `TooMany`: the table would have more records than a set may have. Memory is needed for a record and for the
    /// table at the end.
    fn on_answering(
        &mut self,
        question: Question,
        session: u16,
        unit: &Unit,
    ) -> Result<(), SetFault>
        requires state { self.old.state ≡ states.Answering question session }
        requires fits { fits self.old.spoken unit.now ≡ true }
        ensures { UnitIsRead result unit.now self.old self.new }
    {
        match unit {
            Unit::SerialNotify { session, serial: _ } => {
                if self.is_other_session(*session) {
                    self.drop_and_report(unit);
                }
                Ok(())
            }
            Unit::Prefix { announce, vrp } => self.stage(question, *announce, vrp),
            Unit::RouterKey(_) => Ok(()),
            Unit::EndOfData {
                session: named,
                serial,
                refresh,
                retry,
                expire,
            } => {
                if *named != session {
                    self.drop_and_report(unit);
                    return Ok(());
                }
                self.commit(question, session, *serial, *refresh, *retry, *expire)
            }
            Unit::EndOfData0 {
                session: named,
                serial,
            } => {
                if *named != session {
                    self.drop_and_report(unit);
                    return Ok(());
                }
                self.commit_0(question, session, *serial)
            }
            Unit::ErrorReport(report) => {
                self.on_error_report(question, report.code());
                Ok(())
            }
            Unit::CacheResponse { .. } => self.rejects(unit),
            Unit::CacheReset => self.rejects(unit),
            Unit::SerialQuery { .. } => self.rejects(unit),
            Unit::ResetQuery => self.rejects(unit),
        }
    }

    /// A PDU that does not belong in an answer.
    fn rejects(&mut self, unit: &Unit) -> Result<(), SetFault>
        requires { fits self.old.spoken unit.now ≡ true }
        ensures ok { result ≡ Ok tt }
        ensures reports { self.new ≡ record self.old { state = states.Ended (ends.Reported CORRUPT_DATA); out = sent self.old.spoken (report CORRUPT_DATA (sent self.old.spoken unit.now)) } }
    {
        self.send_report(error_code::CORRUPT_DATA, unit);
        Ok(())
    }

    /// An answer of this session begins.
    fn begin(&mut self, question: Question, session: u16)
        ensures { Does (λ r. record r { agreed = true; session = Some session; link = linked.Answering (begun_with question session [] []) }) self.old self.new }
    {
        let count = self.base_len(question);
        self.agreed = true;
        self.session = Some(session);
        self.staging = Staging::over(self.alloc, count);
        self.state = State::Answering { question, session };
    }

    /// A record in an answer.
    fn stage(&mut self, question: Question, announce: bool, vrp: &Vrp) -> Result<(), SetFault>
        ensures { (session : ℕ) → self.old.state ≡ states.Answering question session → UnitIsRead result (Unit.Prefix announce vrp.now) self.old self.new }
    {
        let in_base = self.is_in_base(question, vrp);
        let most = self.config.limit();
        match self.staging.take(most, in_base, announce, vrp) {
            Ok(Staged::Stays) => Ok(()),
            Ok(Staged::Wrong(code)) => {
                self.send_prefix_report(code, announce, vrp);
                self.mark = true;
                Ok(())
            }
            Err(fault) => Err(fault),
        }
    }

    /// Sends an Error Report on a Prefix, and ends the link.
    #[cold]
    #[inline(never)]
    fn send_prefix_report(&mut self, code: u16, announce: bool, vrp: &Vrp)
        ensures { self.new ≡ record self.old { state = states.Ended (ends.Reported code); out = sent self.old.spoken (report code (sent self.old.spoken (Unit.Prefix announce vrp.now))) } }
    {
        let unit = Unit::Prefix {
            announce,
            vrp: *vrp,
        };
        self.send_report(code, &unit);
    }

    /// The version that an End of Data commits. The intervals that the configuration keeps are the router's own.
    fn version_of(
        &self,
        session: u16,
        serial: u32,
        refresh: u32,
        retry: u32,
        expire: u32,
    ) -> CommittedVersion
        ensures { seen_version result ≡ record { version = self.now.spoken; session = session; serial = serial; moment = self.now.clock; intervals = chosen self.now.config (bounded refresh retry expire) } }
    {
        let config = &self.config;
        let own = &config.intervals;
        CommittedVersion {
            version: self.spoken,
            session,
            serial: Serial(serial),
            moment: self.clock,
            refresh: own_if(
                config.keeps_refresh,
                own.refresh(),
                within(1, 86_400, refresh),
            ),
            retry: own_if(config.keeps_retry, own.retry(), within(1, 7_200, retry)),
            expire: own_if(
                config.keeps_expire,
                own.expire(),
                within(600, 172_800, expire),
            ),
        }
    }

    /// The end of an answer: what is staged becomes the table, under this name.
    fn commit(
        &mut self,
        question: Question,
        session: u16,
        serial: u32,
        refresh: u32,
        retry: u32,
        expire: u32,
    ) -> Result<(), SetFault>
        ensures { self.old.state ≡ states.Answering question session → UnitIsRead result (Unit.EndOfData session serial refresh retry expire) self.old self.new }
    {
        let version = self.version_of(session, serial, refresh, retry, expire);
        let staging = mem::replace(&mut self.staging, Staging::over(self.alloc, 0));
        match staging.end(self.alloc, question, &self.table) {
            Ok(table) => {
                let before = mem::replace(&mut self.table, table);
                self.before = before.into_set();
                self.version = Some(version);
                self.mark = false;
                self.due = Some(self.clock.saturating_add(u64::from(version.refresh)));
                self.no_data = false;
                self.state = State::Idle;
                Ok(())
            }
            Err(fault) => Err(fault),
        }
    }

    /// The end of an answer of version 0, which carries no intervals: the configured ones count.
    fn commit_0(&mut self, question: Question, session: u16, serial: u32) -> Result<(), SetFault>
        ensures { self.old.state ≡ states.Answering question session → UnitIsRead result (Unit.EndOfData0 session serial) self.old self.new }
    {
        let refresh = self.config.intervals.refresh();
        let retry = self.config.intervals.retry();
        let expire = self.config.intervals.expire();
        self.commit(question, session, serial, refresh, retry, expire)
    }

    /// An Error Report to the question that is outstanding. Code 2, No Data Available, leaves the link idle. Code 0, Corrupt Data, to a
    /// Serial Query drops what is committed. All codes but 2 end the link.
    fn on_error_report(&mut self, question: Question, code: u16)
        ensures { Does (rules.told_off (seen_question question) code) self.old self.new }
    {
        self.staging = Staging::over(self.alloc, 0);
        if code == error_code::NO_DATA_AVAILABLE {
            self.due = Some(self.retry_moment());
            self.no_data = true;
            self.state = State::Idle;
            return;
        }
        if code == error_code::CORRUPT_DATA && question.is_serial() {
            self.empty();
        }
        self.state = State::Ended(End::Told(code));
    }

    /// Whether this is another session than the connection's, after agreement on a version.
    fn is_other_session(&self, session: u16) -> bool
        ensures { result ≡ (self.now.agreed && differs (session_of self.now.session (of_version self.now.spoken (seen_versions self.now.version))) session) }
    {
        let own = match self.session {
            Some(own) => own,
            None => match self.known() {
                Some(version) => version.session,
                None => return false,
            },
        };
        self.agreed && own != session
    }

    /// Whether this serial, of a Serial Notify, is newer than the committed one.
    fn is_newer(&self, serial: u32) -> bool
        ensures { result ≡ rules.is_news (of_version self.now.spoken (seen_versions self.now.version)) serial }
    {
        match self.known() {
            Some(version) => version.is_before(serial),
            None => true,
        }
    }

    /// Whether a Cache Response of this session does not answer the query, which named another one.
    fn answers_other_session(&self, question: Question, session: u16) -> bool
        ensures { result ≡ is_wrong (Some (seen_question question)) (of_version self.now.spoken (seen_versions self.now.version)) session }
    {
        match self.known() {
            Some(version) => question.is_serial() && version.session != session,
            None => false,
        }
    }

    /// Whether the record is in the base of the answer to this question.
    fn is_in_base(&self, question: Question, vrp: &Vrp) -> bool
        ensures { result ≡ has (base_of (seen_question question) self.now.table) vrp.now }
    {
        match question {
            Question::Reset => false,
            Question::Serial { .. } => self.table.contains(vrp),
        }
    }

    /// The number of records in the table to which the answer applies: 0 after a Reset Query, those of the router's table after a Serial Query.
    fn base_len(&self, question: Question) -> usize
        ensures count { result ≡ size (base_of (seen_question question) self.now.table) }
        ensures fits { result ≤ 16777215 }
    {
        match question {
            Question::Reset => 0,
            Question::Serial { .. } => self.table.len(),
        }
    }

    /// Ends the link at a fault that `bytes` show: with `End::Malformed` if their type is Error Report, otherwise with `End::Reported`. Pending
    /// bytes are dropped.
    /// Then `out` holds an Error Report, unless the type is Error Report or the fault is `Truncated`. What is committed stays.
    pub fn on_fault(&mut self, fault: UnitFault, bytes: &[u8])
        ensures { Does (λ r. (model.breaks fault bytes.now r).router) self.old self.new }
    {
        let agreed = agreed_version(self.agreed, self.spoken);
        match fault_unit(agreed, fault, bytes) {
            None => self.out.clear(),
            Some(unit) => self.out.put(self.spoken, &unit),
        }
        if type_byte(bytes) == Kind::ErrorReport.number() {
            self.state = State::Ended(End::Malformed);
        } else {
            self.state = State::Ended(End::Reported(code_of(agreed, fault)));
        }
    }
}
