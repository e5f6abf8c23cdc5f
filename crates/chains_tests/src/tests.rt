//! Shapes with few and with many chains.

ghost use Rattle.std.specs.Prelude.{Decides};
ghost use Rattle.chains.specs.Chains.{Ordered};

use crate::count::count_chains;
use chains::message::Message;
use chains::network::Network;
use chains::network::checked::is_processing_order;
use chains::reach::{reach_rows, reaches};
use chains::sums::{greatest_block_sums, greatest_step_sums};
use std::array;

// What the figures say of a shape. Before a question each number is 9, and each flag false.
#[derive(Clone, Copy)]
struct Found {
    count: [u64; 257],
    block_sums: [u64; 257],
    step_sums: [u64; 257],
    reached: [bool; 257],
    rows: [[bool; 257]; 257],
}

fn unasked() -> Found {
    Found {
        count: [9; 257],
        block_sums: [9; 257],
        step_sums: [9; 257],
        reached: [false; 257],
        rows: [[false; 257]; 257],
    }
}

// Asks every figure, where the order is good. It fills what is lent, and answers no `Option<Found>`: a test reads that a
// refused question leaves `found` as it was.
fn asked<'x>(
    messages: &'x [Message],
    order: &'x [u32],
    times: &[u64; 257],
    costs: &[u64],
    goal: u32,
    found: &mut Found,
) -> bool
    ensures { Decides result (Ordered messages.now order.now) }
{
    if !is_processing_order(messages, order) {
        return false;
    }
    let network = Network { messages, order };
    count_chains(&network, &mut found.count);
    greatest_block_sums(&network, times, &mut found.block_sums);
    greatest_step_sums(&network, costs, &mut found.step_sums);
    reaches(&network, goal, &mut found.reached);
    reach_rows(&network, &mut found.rows);
    true
}

fn message(from: u32, to: u32) -> Message {
    Message { from, to, size: 1 }
}

#[test]
fn one_block_alone(rt: HostRuntime) {
    let mut found = unasked();
    assert!(rt; asked(&[], &[7], &[5; 257], &[], 7, &mut found));
    assert!(rt; found.count[7] == 1 && found.block_sums[7] == 5 && found.step_sums[7] == 0);
    assert!(rt; found.reached[7] && found.rows[7][7] && !found.rows[7][8]);
    assert!(rt;
        found.count[6] == 9
            && found.block_sums[8] == 9
            && found.step_sums[0] == 9
            && !found.reached[8]
    );
}

// 1 to 2 and 3, both of these to 4.
fn diamond() -> [Message; 4] {
    [message(1, 2), message(1, 3), message(2, 4), message(3, 4)]
}

#[test]
fn a_diamond(rt: HostRuntime) {
    let mut times = [1u64; 257];
    times[3] = 10;
    let mut costs = [0u64; 1300];
    costs[257 + 2] = 50;
    costs[257 + 3] = 7;
    costs[2 * 257 + 4] = 1;
    costs[3 * 257 + 4] = 60;
    let mut found = unasked();
    assert!(rt; asked(&diamond(), &[1, 2, 3, 4], &times, &costs, 3, &mut found));
    assert!(rt;
        found.count[1] == 5 && found.count[2] == 2 && found.count[3] == 2 && found.count[4] == 1
    );
    assert!(rt;
        found.block_sums[1] == 12
            && found.block_sums[2] == 2
            && found.block_sums[3] == 11
            && found.block_sums[4] == 1
    );
    assert!(rt;
        found.step_sums[1] == 67
            && found.step_sums[2] == 1
            && found.step_sums[3] == 60
            && found.step_sums[4] == 0
    );
    assert!(rt; found.reached[1] && !found.reached[2] && found.reached[3] && !found.reached[4]);
    assert!(rt; found.rows[2][4] && !found.rows[2][3] && found.rows[1][4] && !found.rows[4][1]);
}

#[test]
fn several_messages_are_one_step(rt: HostRuntime) {
    let messages = [
        message(1, 2),
        message(1, 3),
        message(1, 2),
        message(2, 3),
        message(1, 2),
        message(1, 3),
        message(2, 3),
    ];
    let mut found = unasked();
    assert!(rt; asked(&messages, &[1, 2, 3], &[4; 257], &[], 3, &mut found));
    assert!(rt; found.count[1] == 4 && found.count[2] == 2 && found.count[3] == 1);
    assert!(rt; found.block_sums[1] == 12 && found.block_sums[2] == 8);
}

// Thirty diamonds in a row: block 3i + 1 to 3i + 2 and 3i + 3, both of these to 3i + 4.
fn ladder() -> [Message; 120] {
    array::from_fn(|k| {
        let top = 3 * (k / 4) as u32 + 1;
        match k % 4 {
            0 => message(top, top + 1),
            1 => message(top, top + 2),
            2 => message(top + 1, top + 3),
            _ => message(top + 2, top + 3),
        }
    })
}

// The blocks 1, 2, 3 and so on.
fn rising<const N: usize>() -> [u32; N] {
    let mut order = [0; N];
    for (b, block) in order.iter_mut().zip(1u32..) {
        *b = block;
    }
    order
}

// The times of the ladder: 5 at every second side, 2 at the other, 1 elsewhere.
fn ladder_times() -> [u64; 257] {
    array::from_fn(|b| match b % 3 {
        2 if b <= 90 => 2,
        0 if 1 <= b && b <= 90 => 5,
        _ => 1,
    })
}

#[test]
fn a_ladder_of_thirty_diamonds(rt: HostRuntime) {
    let mut found = unasked();
    assert!(rt;
        asked(
            &ladder(),
            &rising::<91>(),
            &ladder_times(),
            &[],
            91,
            &mut found,
        )
    );
    assert!(rt; found.count[1] == 4_294_967_293 && found.count[88] == 5 && found.count[91] == 1);
    assert!(rt;
        found.block_sums[1] == 181 && found.block_sums[2] == 177 && found.block_sums[3] == 180
    );
    assert!(rt; found.reached[1] && found.rows[1][90] && !found.rows[2][3] && !found.rows[4][3]);
}

// Block 1 to every other.
fn fan() -> [Message; 255] {
    array::from_fn(|i| message(1, i as u32 + 2))
}

#[test]
fn a_wide_fan(rt: HostRuntime) {
    let mut times = [1u64; 257];
    times[200] = u64::MAX;
    let mut found = unasked();
    assert!(rt; asked(&fan(), &rising::<256>(), &times, &[], 256, &mut found));
    assert!(rt; found.count[1] == 256 && found.count[2] == 1 && found.count[256] == 1);
    assert!(rt; found.block_sums[1] == u64::MAX && found.block_sums[2] == 1);
    assert!(rt; found.reached[1] && !found.reached[2] && found.reached[256]);
    assert!(rt; found.rows[1][2] && found.rows[1][255] && !found.rows[255][1]);
}

// Whether an order is refused for these messages, with everything left as it was.
fn refused<'x>(messages: &'x [Message], order: &'x [u32]) -> bool {
    let mut found = unasked();
    !asked(messages, order, &[1; 257], &[], 1, &mut found)
        && found.count[1] == 9
        && found.step_sums[1] == 9
}

#[test]
fn bad_orders_are_refused(rt: HostRuntime) {
    assert!(rt; refused(&diamond(), &[4, 3, 2, 1]), "backward");
    assert!(rt; refused(&diamond(), &[1, 3, 4, 2]), "one message backward");
    assert!(rt; refused(&diamond(), &[1, 2, 3]), "an end without a place");
    assert!(rt;
        refused(&[message(2, 2)], &[1, 2]),
        "a message to its sender"
    );
    assert!(rt;
        refused(&[message(1, 2); 3], &[2, 1]),
        "several messages backward"
    );
    assert!(rt; refused(&[], &[1, 2, 1]), "a block twice");
    assert!(rt; refused(&[], &[1, 0]), "0 is no block");
    assert!(rt; refused(&[], &[257, 1]), "257 is no block");
    assert!(rt; refused(&[], &rising::<257>()), "more than 256 blocks");
    assert!(rt;
        refused(&[message(1, 2); 1025], &[1, 2]),
        "more than 1,024 messages"
    );
    assert!(rt;
        refused(&ladder(), &rising::<90>()),
        "a ladder without its last block"
    );
    assert!(rt; refused(&fan(), &[1]), "a fan without its receivers");
}

#[test]
fn the_largest_network_is_taken(rt: HostRuntime) {
    let mut found = unasked();
    assert!(rt;
        asked(
            &[message(1, 256); 1024],
            &rising::<256>(),
            &[1; 257],
            &[],
            256,
            &mut found,
        )
    );
    assert!(rt; found.count[1] == 2 && found.count[256] == 1);
}
