//! Worked rows, through the calls of a session.

use crate::row::Step::{PullMany, Send, SendMany};
use crate::row::{assert_held, assert_row, assert_shows};
use clk_fixtures::trees::{
    drr_over_drr, drr_over_one, drr_over_two, prio_over_two, round_robin_over_three,
    stride_over_two,
};
use clk_rows::{
    DEFICIT_HELD, DEFICIT_HELD_AT_CLOSE, DEFICIT_TWO_QUEUES, LONG_DRAIN, NESTED_DEFICIT,
    PRIO_TWO_QUEUES, QUANTUM_EACH, ROUND_ROBIN_THREE, SHAPER_BURST_TWO, SHAPER_LATE_MOMENT,
    STRIDE_IDLE_INPUT, STRIDE_TWO_TO_ONE,
};
use clk_sched::Tree;

// Of each row the tree stands beside it, as it is made here.
#[test]
fn rows_are_answered(rt: HostRuntime) {
    let alloc = rt.alloc();
    for (tree, row) in [
        (prio_over_two(alloc), PRIO_TWO_QUEUES),
        (round_robin_over_three(alloc), ROUND_ROBIN_THREE),
        (drr_over_two(alloc, 500, 500), DEFICIT_TWO_QUEUES),
        (drr_over_one(alloc, 500), DEFICIT_HELD),
        (drr_over_one(alloc, 500), DEFICIT_HELD_AT_CLOSE),
        (drr_over_drr(alloc), NESTED_DEFICIT),
        (drr_over_one(alloc, 1), LONG_DRAIN),
        (drr_over_two(alloc, 500, 1000), QUANTUM_EACH),
        (stride_over_two(alloc, 2, 1), STRIDE_TWO_TO_ONE),
        (stride_over_two(alloc, 2, 1), STRIDE_IDLE_INPUT),
        (Tree::shaper(alloc, 1, 2, Tree::leaf(0)), SHAPER_BURST_TWO),
        (Tree::shaper(alloc, 1, 1, Tree::leaf(0)), SHAPER_LATE_MOMENT),
    ] {
        assert_row(&rt, alloc, tree, &row);
    }
}

// A head is held until it is emitted.
#[test]
fn heads_are_held(rt: HostRuntime) {
    let alloc = rt.alloc();
    for (tree, row, lines, heads) in [
        (
            drr_over_two(alloc, 500, 500),
            DEFICIT_TWO_QUEUES,
            4,
            "heads: 0#0 600\n",
        ),
        (
            drr_over_two(alloc, 500, 500),
            DEFICIT_TWO_QUEUES,
            6,
            "heads:\n",
        ),
        (
            drr_over_one(alloc, 500),
            DEFICIT_HELD_AT_CLOSE,
            2,
            "heads: 0#0 1000\n",
        ),
        (
            drr_over_one(alloc, 500),
            DEFICIT_HELD_AT_CLOSE,
            3,
            "heads:\n",
        ),
    ] {
        assert_held(&rt, alloc, tree, &row, lines, heads);
    }
}

// At pull 32,769 both passes are 65,536, and the lower index goes first.
#[test]
fn many_tickets_have_many_turns(rt: HostRuntime) {
    let tree = stride_over_two(rt.alloc(), 32_768, 1);
    let steps = [
        SendMany(0, 10, 32_769),
        Send(1, &[10, 10]),
        PullMany(32_771),
    ];
    let expected = "pull 0: 0#0 10\npull 1: 1#0 10\npull 2: 0#1 10\npull 32770: 1#1 10\n";
    assert_shows(&rt, rt.alloc(), tree, &steps, expected);
}
