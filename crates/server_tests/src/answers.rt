//! A line that keeps its calls and what they answered, so that what a turn says of the calls that it made can be seen.
ghost use Rattle.std.specs.Prelude.{◌∷◌, []};
ghost use Rattle.rtr_server.specs.Streams.{Logged};
ghost use Rattle.server_tests.specs.Told.{told};

use crate::lines::{Line, Manner, PLAIN, Shared, cache_of, line, shared};
use rtr_server::{Call, Client, Progress, Server, Stream, Turn};
use std::alloc::Global;
use test_values::hex::bytes;
use test_values::sets::V;
use test_values::units::RESET_QUERY;
use vrps::VersionLog;

/// A stream, its calls, and what they answered.
#[derive(Drop)]
pub(crate) struct Kept<T> {
    stream: T,
    answers: Vec<Call>,
    /// Memory for one of them ran out.
    is_lost: bool,
}

/// Keeps an answer.
fn note(answers: &mut Vec<Call>, is_lost: &mut bool, answer: Call)
    ensures { Logged (answer ∷ []) (told is_lost.old answers.old.items) (told is_lost.new answers.new.items) }
{
    if answers.push(answer).is_err() {
        *is_lost = true;
    }
}

impl<T: Stream> Stream for Kept<T> {
    ghost use Rattle.server_tests.specs.Told.{told};

    ghost remaining = { λ k. T.remaining k.stream };

    ghost contents = { λ k. T.contents k.stream };

    ghost answers = { λ k. told k.is_lost k.answers.items };

    fn read(&mut self, buf: &mut [u8]) -> Progress {
        let answer = self.stream.read(buf);
        note(&mut self.answers, &mut self.is_lost, Call::Read(answer));
        answer
    }

    fn write(&mut self, buf: &[u8]) -> Progress {
        let answer = self.stream.write(buf);
        note(&mut self.answers, &mut self.is_lost, Call::Write(answer));
        answer
    }
}

type Watched = Server<VersionLog, Kept<Line>>;

/// How many calls of a client's stream were made, and the last of them.
fn calls(server: &Watched, client: Client) -> Option<(usize, Option<Call>)> {
    let answers = &server.stream(client)?.answers;
    Some((answers.len(), answers.as_slice().last().copied()))
}

/// The first turn of a client, of at most this many calls: it is Busy after exactly as many, or it waits, as its last call said.
fn turns_well(server: &mut Watched, client: Client, budget: u32) -> bool {
    let most = budget as usize;
    let turn = server.serve(client, budget);
    match (turn, calls(server, client)) {
        (Some(Turn::Busy), Some((count, _))) => count == most,
        (Some(Turn::WaitsToRead), Some((count, last))) => {
            count <= most && last == Some(Call::Read(Progress::Waits))
        }
        _ => false,
    }
}

/// A query on a line that accepts seven bytes at a call.
fn slow_line(alloc: Global, out: &Shared) -> Option<Kept<Line>> {
    let slow = Manner { size: 7, ..PLAIN };
    match line(alloc, bytes(RESET_QUERY).as_slice(), slow, out) {
        Some(stream) => Some(Kept {
            stream,
            answers: Vec::new(alloc),
            is_lost: false,
        }),
        None => None,
    }
}

/// Whether the first turn of a client on this line goes well.
fn is_turned(alloc: Global, stream: Kept<Line>, budget: u32) -> bool {
    let Some(cache) = cache_of(alloc, &[V]) else {
        return false;
    };
    let mut server = Server::new(alloc, cache, 1);
    match server.admit(stream) {
        Ok(client) => turns_well(&mut server, client, budget),
        Err(_) => false,
    }
}

/// Whether the first turn of a client goes well.
fn is_bounded(alloc: Global, out: &Shared, budget: u32) -> bool {
    match slow_line(alloc, out) {
        Some(stream) => is_turned(alloc, stream, budget),
        None => false,
    }
}

/// Whether it does so with each number of calls.
fn are_bounded(alloc: Global) -> bool {
    let Some(out) = shared(alloc, &[]) else {
        return false;
    };
    for budget in 0..16 {
        if !is_bounded(alloc, &out, budget) {
            return false;
        }
    }
    true
}

#[test]
fn a_turn_makes_as_many_calls_as_it_may(rt: HostRuntime) {
    assert!(rt; are_bounded(rt.alloc()));
}
