// Small books by hand.

use super::*;
use automata::{Arrow, Mark};
use labels::{Both, Either, StyleMarks, Sum};

#[test]
fn a_book_without_states_keeps_nothing(rt: HostRuntime) {
    let mut rows = [u64::MAX; 1024];
    assert_eq!(rt; settle(&StyleMarks, &[], &[], &mut rows), 0);
    assert_eq!(rt; rows[0], 0);
}

#[test]
fn a_state_that_accepts_is_above_one_that_does_not(rt: HostRuntime) {
    let mut rows = [0; 1024];
    assert_eq!(rt;
        settle(&StyleMarks, &[], &[Mark::Initial, Mark::Both], &mut rows),
        3
    );
    assert_eq!(rt; rows[0], 3);
    assert_eq!(rt; rows[4], 2);
}

#[test]
fn twins_are_kept_both_ways(rt: HostRuntime) {
    let arrows = [
        Arrow {
            source: 0,
            label: 1,
            target: 1,
        },
        Arrow {
            source: 0,
            label: 1,
            target: 2,
        },
    ];
    let mut rows = [0; 1024];
    assert_eq!(rt;
        settle(
            &StyleMarks,
            &arrows,
            &[Mark::Initial, Mark::Accepting, Mark::Accepting],
            &mut rows,
        ),
        5
    );
}

#[test]
fn one_arrow_is_answered_by_two(rt: HostRuntime) {
    let arrows = [
        Arrow {
            source: 0,
            label: 3,
            target: 2,
        },
        Arrow {
            source: 1,
            label: 1,
            target: 2,
        },
        Arrow {
            source: 1,
            label: 2,
            target: 2,
        },
    ];
    let mut rows = [0; 1024];
    assert_eq!(rt;
        settle(
            &StyleMarks,
            &arrows,
            &[Mark::Initial, Mark::Neither, Mark::Accepting],
            &mut rows,
        ),
        5
    );
}

#[test]
fn what_loops_is_not_below_what_stops(rt: HostRuntime) {
    let arrows = [Arrow {
        source: 0,
        label: 1,
        target: 0,
    }];
    let mut rows = [0; 1024];
    assert_eq!(rt;
        settle(
            &StyleMarks,
            &arrows,
            &[Mark::Neither, Mark::Neither],
            &mut rows,
        ),
        3
    );
}

#[test]
fn a_sum_three_deep_is_settled(rt: HostRuntime) {
    let labels = Sum {
        left: StyleMarks,
        right: Sum {
            left: StyleMarks,
            right: Sum {
                left: StyleMarks,
                right: StyleMarks,
            },
        },
    };
    let first = Both {
        left: 1,
        right: Both {
            left: 0,
            right: Both { left: 0, right: 0 },
        },
    };
    let last = Both {
        left: 0,
        right: Both {
            left: 0,
            right: Both { left: 0, right: 1 },
        },
    };
    let both = Both {
        left: 1,
        right: Both {
            left: 0,
            right: Both { left: 0, right: 1 },
        },
    };
    let arrows = [
        Arrow {
            source: 0,
            label: both,
            target: 2,
        },
        Arrow {
            source: 1,
            label: first,
            target: 2,
        },
        Arrow {
            source: 1,
            label: last,
            target: 2,
        },
    ];
    let marks = [Mark::Initial, Mark::Neither, Mark::Accepting];
    let mut rows = [0; 1024];
    assert_eq!(rt; settle(&labels, &arrows, &marks, &mut rows), 5);
    assert!(rt;
        accepts(
            &labels,
            &arrows,
            &marks,
            &[Either::Right(Either::Right(Either::Right(0)))],
        )
    );
    assert!(rt; !accepts(&labels, &arrows, &marks, &[Either::Right(Either::Left(0))]));
}

#[test]
fn words_are_accepted_where_a_run_ends_well(rt: HostRuntime) {
    let arrows = [
        Arrow {
            source: 0,
            label: 1,
            target: 1,
        },
        Arrow {
            source: 1,
            label: 2,
            target: 1,
        },
    ];
    let marks = [Mark::Initial, Mark::Accepting];
    assert!(rt; !accepts(&StyleMarks, &arrows, &marks, &[]));
    assert!(rt; accepts(&StyleMarks, &arrows, &marks, &[0]));
    assert!(rt; accepts(&StyleMarks, &arrows, &marks, &[0, 1, 1]));
    assert!(rt; !accepts(&StyleMarks, &arrows, &marks, &[0, 0]));
    assert!(rt;
        !accepts(&StyleMarks, &arrows, &marks, &[0, 64]),
        "64 is no symbol"
    );
}

#[test]
fn the_empty_word_is_accepted_where_an_initial_state_accepts(rt: HostRuntime) {
    assert!(rt; accepts(&StyleMarks, &[], &[Mark::Both], &[]));
}
