//! Two clients in every order of turns.
use crate::lines::{Manner, Memory, PLAIN, Shared, client_of, is_list, server_of, shared};
use rtr_server::Client;
use std::alloc::Global;
use test_values::hex::bytes;
use test_values::sets::V;
use test_values::units::{ANSWER, RESET_QUERY};

/// The answer has 52 bytes: three writes of up to 20 each.
const IN_THREE: Manner = Manner { size: 20, ..PLAIN };

/// Eight turns: the bits of a number are whose turn it is. Then both are served to the end.
fn serve_in(server: &mut Memory, first: Client, second: Client, order: u32) {
    let mut left = order;
    for _turn in 0..8 {
        let client = if left % 2 == 0 { first } else { second };
        left /= 2;
        server.serve(client, 1);
    }
    server.serve(first, 9);
    server.serve(second, 9);
}

/// Serves two queries in this order of turns, whose answers go to these lists, or does not.
fn serve_both(
    server: &mut Memory,
    alloc: Global,
    one: &Shared,
    two: &Shared,
    order: u32,
) -> Option<()> {
    let query = bytes(RESET_QUERY);
    let first = client_of(server, alloc, query.as_slice(), IN_THREE, one)?;
    let second = client_of(server, alloc, query.as_slice(), IN_THREE, two)?;
    serve_in(server, first, second, order);
    Some(())
}

/// Whether both get the answer.
fn both_get(server: &mut Memory, alloc: Global, order: u32) -> bool {
    let answer = bytes(ANSWER);
    match (shared(alloc, &[]), shared(alloc, &[])) {
        (Some(one), Some(two)) => {
            serve_both(server, alloc, &one, &two, order).is_some()
                && is_list(&one, answer.as_slice())
                && is_list(&two, answer.as_slice())
        }
        _ => false,
    }
}

/// Whether both get the answer of a new server.
fn are_answered(alloc: Global, order: u32) -> bool {
    match server_of(alloc, &[V], 2) {
        Some(mut server) => both_get(&mut server, alloc, order),
        None => false,
    }
}

#[test]
fn two_answers_cut_in_three_in_every_order(rt: HostRuntime) {
    // A read and three writes of each.
    for order in 0..256 {
        assert!(rt; are_answered(rt.alloc(), order));
    }
}
