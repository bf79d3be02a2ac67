// A sum three deep through reduction.

use automata::{Arrow, Mark};
use labels::{Both, StyleMarks, Sum};
use reduction::reduce;
use std::test::Fail;

type Label = Both<Both<Both<u64, u64>, u64>, u64>;

fn label(first: u64, last: u64) -> Label {
    Both {
        left: Both {
            left: Both {
                left: first,
                right: 0,
            },
            right: 0,
        },
        right: last,
    }
}

#[test]
fn a_symbol_of_one_leaf_is_pruned_and_that_of_another_stays(rt: HostRuntime) -> Result<(), Fail> {
    let two = Sum {
        left: StyleMarks,
        right: StyleMarks,
    };
    let three = Sum {
        left: two,
        right: StyleMarks,
    };
    let deep = Sum {
        left: three,
        right: StyleMarks,
    };
    let marks = [Mark::Initial, Mark::Accepting, Mark::Neither];
    let arrows = [
        Arrow {
            source: 0,
            label: label(1, 0),
            target: 1,
        },
        Arrow {
            source: 0,
            label: label(1, 4),
            target: 2,
        },
    ];
    let mut rows = [0; 1024];
    rows[0] = 0b001;
    rows[4] = 0b010;
    rows[8] = 0b111;
    let blank = Arrow {
        source: 9,
        label: label(9, 9),
        target: 9,
    };
    let mut into_arrows = [blank; 2];
    let mut into_marks = [Mark::Both; 256];
    let mut into_rows = [7; 1024];
    let counts = reduce(
        &deep,
        &arrows,
        &marks,
        &rows,
        &mut into_arrows,
        &mut into_marks,
        &mut into_rows,
    )
    .ok_or("no room")?;
    assert_eq!(rt; counts.states, 3);
    assert_eq!(rt; counts.arrows, 2);
    assert_eq!(rt;
        (
            into_arrows[0].label.left.left.left,
            into_arrows[0].label.right,
        ),
        (1, 0)
    );
    assert_eq!(rt;
        (
            into_arrows[1].label.left.left.left,
            into_arrows[1].label.right,
        ),
        (0, 4)
    );
    assert_eq!(rt; (into_rows[0], into_rows[4], into_rows[8]), (1, 2, 7));
    Ok(())
}
