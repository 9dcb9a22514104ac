//! The table of connected clients, and the queue of those that are served next.
ghost use Rattle.std.specs.Prelude.{◌≡◌, [], ◌+◌, ◌≤◌, ◌↔◌, ℕ, IfErr, IfOk, None, Some, true, length, option_map};
ghost use Rattle.std.specs.VecDeque.{deque_capacity, deque_len};
ghost use Rattle.rtr_daemon.specs.Notes.{AreNoted, unqueued};
ghost use Rattle.rtr_daemon.specs.Waiting.{AreCovered, Covers, is_blocked_client, waiting_with};
ghost use Rattle.rtr_daemon.specs.declared.client_entry.ClientEntry.{ClientEntry};

use crate::client_entry::{ClientEntry, Ends, TurnOutcome};
use crate::waiting::Waiting;
use rtr_server::Client;
use std::alloc::{AllocError, Global};
use std::collections::btree_map::Values;
use std::collections::{BTreeMap, VecDeque};
use std::net::{IpAddr, SocketAddr};
use std::ops::Bound;
use tcp_table::{TcpLine, is_lost};

/// All clients by poll token, and the queue of those to serve, in order.
#[derive(Debug, Drop)]
pub(crate) struct ClientTable {
    by_token: BTreeMap<usize, ClientEntry>,
    queue: VecDeque<usize>,
    /// What waits among the clients.
    waiting: Waiting,
    /// How many clients each address has.
    by_address: BTreeMap<IpAddr, u64>,
    ghost noted: { AreNoted by_token queue.items },
    ghost covered: { AreCovered waiting by_token },
    ghost room: { deque_len queue + unqueued by_token ≤ deque_capacity queue },
}

impl ClientTable {
    ghost use Rattle.rtr_daemon.specs.Known.{OtherClients, SameClients, client_at, known_at};
    ghost use Rattle.rtr_daemon.specs.Queue.{IsFirstFrom, IsQueued, QueuesBehind, TakesNext, WakesAll};
    ghost use Rattle.rtr_daemon.specs.Losing.{is_lost_client, lines_noted};
    ghost use Rattle.rtr_daemon.specs.Newcomers.{newcomer};
    ghost use Rattle.rtr_daemon.specs.Overdue.{is_silent_client, is_slow_client, is_stalled_client, turned};

    pub(crate) fn new(alloc: Global) -> ClientTable
        ensures { result.queue.items ≡ [] }
    {
        ClientTable {
            by_token: BTreeMap::new(alloc),
            queue: VecDeque::new(alloc),
            waiting: Waiting::none(),
            by_address: BTreeMap::new(alloc),
        }
    }

    /// Whether the queue is empty.
    pub(crate) fn is_idle(&self) -> bool
        ensures { (result ≡ true) ↔ (self.now.queue.items ≡ []) }
    {
        self.queue.is_empty()
    }

    /// The length of the queue.
    pub(crate) fn queue_len(&self) -> usize
        ensures { result ≡ length self.now.queue.items }
    {
        self.queue.len()
    }

    /// Adds a client, and queues it.
    pub(crate) fn add(
        &mut self,
        token: usize,
        client: Client,
        ends: Ends,
        now: u64,
    ) -> Result<(), AllocError>
        ensures queue { QueuesBehind self.old.queue.items self.new }
        ensures others { OtherClients token self.old self.new }
        ensures came { IfOk result (λ _. known_at self.new token ≡ Some (newcomer client ends now)) }
        ensures queued { IfOk result (λ _. IsQueued self.new token) }
        ensures fails { IfErr result (λ _. known_at self.new token ≡ known_at self.old token) }
    {
        let address = ends.address;
        self.queue.reserve(self.by_token.len().saturating_add(1))?;
        self.count(address)?;
        let entry = ClientEntry::new(client, ends, now);
        self.waiting = self.waiting.and(&entry);
        if self.by_token.insert(token, entry).is_err() {
            self.discount(address);
            return Err(AllocError);
        }
        self.wake(token);
        Ok(())
    }

    /// How many clients an address has. An IPv4-mapped IPv6 address counts as its IPv4 address (RFC 4291 section 2.5.5.2).
    pub(crate) fn of_address(&self, address: SocketAddr) -> u64 {
        match self.by_address.get(&address.ip().to_canonical()) {
            Some(count) => *count,
            None => 0,
        }
    }

    /// Counts one client more for an address.
    fn count(&mut self, address: SocketAddr) -> Result<(), AllocError>
        ensures { self.new ≡ record self.old { by_address = self.new.by_address } }
    {
        let count = self.of_address(address).saturating_add(1);
        match self.by_address.insert(address.ip().to_canonical(), count) {
            Ok(_) => Ok(()),
            Err(_) => Err(AllocError),
        }
    }

    /// Counts one client less for an address.
    fn discount(&mut self, address: SocketAddr)
        ensures { self.new ≡ record self.old { by_address = self.new.by_address } }
    {
        let key = address.ip().to_canonical();
        let count = self.of_address(address).saturating_sub(1);
        if count == 0 {
            let _ = self.by_address.remove(&key);
        } else if let Some(it) = self.by_address.get_mut(&key) {
            *it = count;
        }
    }

    /// Queues the client of a poll token, if there is one.
    pub(crate) fn wake(&mut self, token: usize)
        ensures clients { SameClients self.old self.new }
        ensures queue { QueuesBehind self.old.queue.items self.new }
        ensures woken { IsQueued self.new token }
    {
        if let Some(entry) = self.by_token.get_mut(&token) {
            if !entry.is_queued {
                entry.is_queued = true;
                self.queue.push_back_reserved(token);
            }
        }
    }

    /// The first poll token of a client.
    pub(crate) fn first(&self) -> Option<usize>
        ensures { IsFirstFrom self.now 0 result }
    {
        match self.by_token.range(0..).next() {
            Some((token, _entry)) => Some(*token),
            None => None,
        }
    }

    /// The first poll token of a client that is above this one.
    pub(crate) fn first_after(&self, token: usize) -> Option<usize>
        ensures { IsFirstFrom self.now (token + 1) result }
    {
        let above = (Bound::Excluded(token), Bound::Unbounded);
        match self.by_token.range(above).next() {
            Some((token, _entry)) => Some(*token),
            None => None,
        }
    }

    /// Queues all clients.
    pub(crate) fn wake_all(&mut self)
        ensures { WakesAll self.old self.new }
    {
        let mut next = self.first();
        while let Some(token) = next {
            self.wake(token);
            next = self.first_after(token);
        }
    }

    /// Queues the clients that are blocked on writing, and finds what waits among all.
    pub(crate) fn wake_blocked(&mut self)
        ensures clients { SameClients self.old self.new }
        ensures queue { QueuesBehind self.old.queue.items self.new }
        ensures blocked { (token : ℕ) → is_blocked_client (known_at self.old token) ≡ true → IsQueued self.new token }
    {
        let mut waiting = Waiting::none();
        let mut at = self.first();
        while let Some(token) = at {
            if self.is_blocked(token) {
                self.wake(token);
            }
            waiting = self.with_client(waiting, token);
            at = self.first_after(token);
        }
        self.waiting = waiting;
    }

    /// Whether the client of a poll token is blocked on writing.
    fn is_blocked(&self, token: usize) -> bool
        ensures { result ≡ is_blocked_client (known_at self.now token) }
    {
        match self.by_token.get(&token) {
            Some(entry) => entry.blocked.is_some(),
            None => false,
        }
    }

    /// What waits, with the client of a poll token, if there is one.
    fn with_client(&self, waiting: Waiting, token: usize) -> Waiting
        ensures { result ≡ waiting_with waiting (known_at self.now token) }
    {
        match self.by_token.get(&token) {
            Some(entry) => waiting.and(entry),
            None => waiting,
        }
    }

    /// Removes the next client from the queue, with its poll token.
    pub(crate) fn next(&mut self) -> Option<(usize, Client)>
        ensures { TakesNext self.old.queue.items result self.old self.new }
    {
        let token = self.queue.pop_front()?;
        let entry = self.by_token.get_mut(&token)?;
        entry.is_queued = false;
        Some((token, entry.client))
    }

    /// Notes the outcome of a turn. A client is blocked from the last byte that was written to it.
    pub(crate) fn note(&mut self, token: usize, outcome: TurnOutcome, now: u64)
        ensures noted { known_at self.new token ≡ option_map (turned now outcome) (known_at self.old token) }
        ensures others { OtherClients token self.old self.new }
        ensures queue { self.new.queue ≡ self.old.queue }
    {
        if let Some(entry) = self.by_token.get_mut(&token) {
            entry.note(outcome, now);
            self.waiting = self.waiting.and(entry);
        }
    }

    /// All clients, by poll token: those that connected first come first.
    pub(crate) fn iter(&self) -> Values<'_, usize, ClientEntry> {
        self.by_token.values()
    }

    /// The client of a poll token, and its address.
    pub(crate) fn at(&self, token: usize) -> Option<(Client, SocketAddr)>
        ensures { option_map (λ it. it.0) result ≡ client_at self.now token }
    {
        let entry = self.by_token.get(&token)?;
        Some((entry.client, entry.address))
    }

    /// Removes the client of a poll token.
    pub(crate) fn remove(&mut self, token: usize) -> Option<ClientEntry>
        ensures clients { OtherClients token self.old self.new }
        ensures gone { known_at self.new token ≡ None }
        ensures none { result ≡ None → known_at self.old token ≡ None }
        ensures queue { self.new.queue ≡ self.old.queue }
    {
        let entry = self.by_token.remove(&token)?;
        self.discount(entry.address);
        Some(entry)
    }

    /// What waits among the clients.
    pub(crate) fn waiting(&self) -> Waiting
        ensures is { result ≡ self.now.waiting }
        ensures covers { (token : ℕ) (entry : ClientEntry) → known_at self.now token ≡ Some entry → Covers result entry }
    {
        self.waiting
    }

    /// Notes of the client of a poll token what these lines of the system's tables show, at this time, if it was notified and has sent nothing
    /// since.
    pub(crate) fn note_lines(&mut self, token: usize, lines: &[TcpLine], now: u64)
        ensures noted { known_at self.new token ≡ option_map (lines_noted lines.now now) (known_at self.old token) }
        ensures others { OtherClients token self.old self.new }
        ensures queue { self.new.queue ≡ self.old.queue }
    {
        if let Some(entry) = self.by_token.get_mut(&token) {
            entry.note_lines(lines, now);
        }
    }

    /// Whether the client of a poll token is lost.
    pub(crate) fn is_lost(&self, token: usize, now: u64, stall: u64) -> bool
        ensures { result ≡ is_lost_client (known_at self.now token) now stall }
    {
        match self.by_token.get(&token) {
            Some(entry) => is_lost(entry.unanswered, now, stall),
            None => false,
        }
    }

    /// Whether the client of a poll token has been blocked for this long.
    pub(crate) fn is_stalled(&self, token: usize, now: u64, stall: u64) -> bool
        ensures { result ≡ is_stalled_client (known_at self.now token) now stall }
    {
        match self.by_token.get(&token) {
            Some(entry) => entry.is_stalled(now, stall),
            None => false,
        }
    }

    /// Whether the client of a poll token has sent no whole query in time.
    pub(crate) fn is_silent(&self, token: usize, now: u64) -> bool
        ensures { result ≡ is_silent_client (known_at self.now token) now }
    {
        match self.by_token.get(&token) {
            Some(entry) => entry.is_silent(now),
            None => false,
        }
    }

    /// Whether an answer to the client of a poll token has been outstanding for this long.
    pub(crate) fn is_slow(&self, token: usize, now: u64, slow: u64) -> bool
        ensures { result ≡ is_slow_client (known_at self.now token) now slow }
    {
        match self.by_token.get(&token) {
            Some(entry) => entry.is_slow(now, slow),
            None => false,
        }
    }
}
