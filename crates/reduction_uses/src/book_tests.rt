// Books over style marks. The row of a state's pairs begins at four times the state.

use automata::{Arrow, Mark};
use labels::StyleMarks;
use reduction::reduce;
use std::test::Fail;

const BLANK: Arrow<u64> = Arrow {
    source: 9,
    label: 9,
    target: 9,
};

#[test]
fn a_book_without_states_stays_so(rt: HostRuntime) -> Result<(), Fail> {
    let mut into_arrows = [BLANK; 0];
    let mut into_marks = [Mark::Both; 256];
    let mut into_rows = [7; 1024];
    let counts = reduce(
        &StyleMarks,
        &[BLANK; 0],
        &[Mark::Both; 0],
        &[0; 1024],
        &mut into_arrows,
        &mut into_marks,
        &mut into_rows,
    )
    .ok_or("no room")?;
    assert_eq!(rt; counts.states, 0);
    assert_eq!(rt; counts.arrows, 0);
    assert_eq!(rt; into_rows[0], 0);
    Ok(())
}

#[test]
fn an_initial_state_below_another_goes(rt: HostRuntime) -> Result<(), Fail> {
    let mut rows = [0; 1024];
    rows[0] = 0b11;
    rows[4] = 0b10;
    let mut into_arrows = [BLANK; 1];
    let mut into_marks = [Mark::Neither; 256];
    let mut into_rows = [7; 1024];
    let counts = reduce(
        &StyleMarks,
        &[BLANK; 0],
        &[Mark::Initial, Mark::Both],
        &rows,
        &mut into_arrows,
        &mut into_marks,
        &mut into_rows,
    )
    .ok_or("no room")?;
    assert_eq!(rt; counts.states, 1);
    assert_eq!(rt; counts.arrows, 0);
    assert!(rt; into_marks[0].is_initial() && into_marks[0].is_accepting());
    assert_eq!(rt; into_rows[0], 1);
    Ok(())
}

#[test]
fn twins_become_one_state(rt: HostRuntime) -> Result<(), Fail> {
    let marks = [Mark::Initial, Mark::Accepting, Mark::Accepting];
    let arrows = [
        Arrow {
            source: 0,
            label: 1,
            target: 1,
        },
        Arrow {
            source: 0,
            label: 2,
            target: 2,
        },
    ];
    let mut rows = [0; 1024];
    rows[0] = 0b001;
    rows[4] = 0b110;
    rows[8] = 0b110;
    let mut into_arrows = [BLANK; 2];
    let mut into_marks = [Mark::Both; 256];
    let mut into_rows = [7; 1024];
    let counts = reduce(
        &StyleMarks,
        &arrows,
        &marks,
        &rows,
        &mut into_arrows,
        &mut into_marks,
        &mut into_rows,
    )
    .ok_or("no room")?;
    assert_eq!(rt; counts.states, 2);
    assert_eq!(rt; counts.arrows, 1);
    assert!(rt; into_marks[0].is_initial() && into_marks[1].is_accepting());
    assert_eq!(rt;
        (
            into_arrows[0].source,
            into_arrows[0].label,
            into_arrows[0].target,
        ),
        (0, 3, 1)
    );
    assert_eq!(rt; (into_rows[0], into_rows[4], into_rows[8]), (1, 2, 0));
    Ok(())
}

#[test]
fn one_arrow_and_two_arrows_of_the_same_symbols_become_one(rt: HostRuntime) -> Result<(), Fail> {
    let marks = [Mark::Initial, Mark::Neither, Mark::Accepting];
    let arrows = [
        Arrow {
            source: 0,
            label: 3,
            target: 2,
        },
        Arrow {
            source: 1,
            label: 1,
            target: 2,
        },
        Arrow {
            source: 1,
            label: 2,
            target: 2,
        },
    ];
    let mut rows = [0; 1024];
    rows[0] = 0b011;
    rows[4] = 0b011;
    rows[8] = 0b100;
    let mut into_arrows = [BLANK; 3];
    let mut into_marks = [Mark::Both; 256];
    let mut into_rows = [7; 1024];
    let counts = reduce(
        &StyleMarks,
        &arrows,
        &marks,
        &rows,
        &mut into_arrows,
        &mut into_marks,
        &mut into_rows,
    )
    .ok_or("no room")?;
    assert_eq!(rt; counts.states, 2);
    assert_eq!(rt; counts.arrows, 1);
    assert!(rt; into_marks[0].is_initial() && into_marks[1].is_accepting());
    assert_eq!(rt;
        (
            into_arrows[0].source,
            into_arrows[0].label,
            into_arrows[0].target,
        ),
        (0, 3, 1)
    );
    Ok(())
}

#[test]
fn every_step_has_something_to_do(rt: HostRuntime) -> Result<(), Fail> {
    let marks = [Mark::Initial, Mark::Accepting, Mark::Neither, Mark::Neither];
    let arrows = [
        Arrow {
            source: 0,
            label: 1,
            target: 1,
        },
        Arrow {
            source: 0,
            label: 1,
            target: 3,
        },
        Arrow {
            source: 2,
            label: 1,
            target: 1,
        },
    ];
    let mut rows = [0; 1024];
    rows[0] = 0b0101;
    rows[4] = 0b0010;
    rows[8] = 0b0101;
    rows[12] = 0b1111;
    let mut into_arrows = [BLANK; 1];
    let mut into_marks = [Mark::Both; 256];
    let mut into_rows = [7; 1024];
    let counts = reduce(
        &StyleMarks,
        &arrows,
        &marks,
        &rows,
        &mut into_arrows,
        &mut into_marks,
        &mut into_rows,
    )
    .ok_or("no room")?;
    assert_eq!(rt; counts.states, 2);
    assert_eq!(rt; counts.arrows, 1);
    assert_eq!(rt;
        (
            into_arrows[0].source,
            into_arrows[0].label,
            into_arrows[0].target,
        ),
        (0, 1, 1)
    );
    assert_eq!(rt; (into_rows[0], into_rows[4], into_rows[12]), (1, 2, 0));
    Ok(())
}

#[test]
fn the_order_of_classes_that_stay_is_kept(rt: HostRuntime) -> Result<(), Fail> {
    let marks = [Mark::Initial, Mark::Accepting, Mark::Accepting];
    let arrows = [
        Arrow {
            source: 0,
            label: 1,
            target: 1,
        },
        Arrow {
            source: 0,
            label: 3,
            target: 2,
        },
        Arrow {
            source: 1,
            label: 1,
            target: 1,
        },
    ];
    let mut rows = [0; 1024];
    rows[0] = 0b001;
    rows[4] = 0b010;
    rows[8] = 0b110;
    let mut into_arrows = [BLANK; 3];
    let mut into_marks = [Mark::Both; 256];
    let mut into_rows = [7; 1024];
    let counts = reduce(
        &StyleMarks,
        &arrows,
        &marks,
        &rows,
        &mut into_arrows,
        &mut into_marks,
        &mut into_rows,
    )
    .ok_or("no room")?;
    assert_eq!(rt; counts.states, 3);
    assert_eq!(rt; counts.arrows, 3);
    assert_eq!(rt;
        (
            into_arrows[1].source,
            into_arrows[1].label,
            into_arrows[1].target,
        ),
        (0, 2, 2)
    );
    assert_eq!(rt; (into_rows[0], into_rows[4], into_rows[8]), (1, 2, 6));
    Ok(())
}

#[test]
fn a_table_one_arrow_too_short_alters_nothing(rt: HostRuntime) {
    let marks = [Mark::Initial, Mark::Neither, Mark::Accepting];
    let arrows = [
        Arrow {
            source: 0,
            label: 1,
            target: 1,
        },
        Arrow {
            source: 1,
            label: 1,
            target: 2,
        },
    ];
    let mut rows = [0; 1024];
    rows[0] = 0b001;
    rows[4] = 0b010;
    rows[8] = 0b100;
    let mut into_arrows = [BLANK; 1];
    let mut into_marks = [Mark::Both; 256];
    let mut into_rows = [7; 1024];
    let counts = reduce(
        &StyleMarks,
        &arrows,
        &marks,
        &rows,
        &mut into_arrows,
        &mut into_marks,
        &mut into_rows,
    );
    assert!(rt; counts.is_none());
    assert_eq!(rt;
        (
            into_arrows[0].source,
            into_arrows[0].label,
            into_arrows[0].target,
        ),
        (9, 9, 9)
    );
    assert!(rt; into_marks[0].is_initial() && into_marks[0].is_accepting());
    assert_eq!(rt; into_rows[0], 7);
}
