use super::{Deep, is_within_leaves};
use labels::{BadCut, Both, CodePoints, Cuts, Either, LabelAlgebra, StyleMarks, Sum, is_same};
use written::{WrittenAlgebra, read_whole};

// A thousand apart.
fn many_cuts(n: u32) -> Cuts {
    let mut cuts = Cuts::none();
    for i in 1..=n.min(63) {
        let _ = cuts.push(1000 * i);
    }
    cuts
}

#[test]
fn a_64th_cut_is_refused(rt: HostRuntime) {
    let mut cuts = many_cuts(63);
    assert_eq!(rt; cuts.len(), 63);
    assert_eq!(rt; cuts.push(64_000), Err(BadCut));
    assert_eq!(rt; cuts.segment(62_999), 62);
    assert_eq!(rt; cuts.segment(63_000), 63);
    assert_eq!(rt; Cuts::none().push(0), Err(BadCut));
    assert_eq!(rt; Cuts::none().push(1_114_112), Err(BadCut));
    assert!(rt; Cuts::try_from([97, 97].as_slice()).is_err());
    assert!(rt; Cuts::try_from([97, 123].as_slice()).is_ok());
}

#[test]
fn the_surrogates_are_2048_of_all_code_points(rt: HostRuntime) -> Result<(), BadCut> {
    let cuts = Cuts::try_from([55_296, 57_344].as_slice())?;
    let a = CodePoints { cuts };
    assert_eq!(rt; (0..1_200_000).filter(|c| a.test(2, *c)).count(), 2_048);
    Ok(())
}

#[test]
fn a_value_that_is_no_symbol_is_held_of_by_nothing(rt: HostRuntime) {
    let a = CodePoints { cuts: Cuts::none() };
    assert!(rt; a.test(1, 1_114_111));
    assert!(rt; !a.test(u64::MAX, 1_114_112));
    assert!(rt; !a.test(a.complement(0), u32::MAX));
    assert!(rt; StyleMarks.test(u64::MAX, 63));
    assert!(rt; !StyleMarks.test(u64::MAX, 64));
    assert!(rt; !StyleMarks.test(StyleMarks.complement(0), 255));
    assert!(rt; a.sample(a.complement(1)).is_none());
    assert!(rt;
        a.sample(2).is_none(),
        "bit 1 means nothing where there are no cuts"
    );
}

#[test]
fn every_hexadecimal_digit_is_written_and_read(rt: HostRuntime) {
    let mut out = [b'#'; 18];
    assert_eq!(rt; StyleMarks.write(0x0123_4567_89ab_cdef, &mut out), Some(16));
    assert!(rt; &out[0..16] == b"0123456789abcdef".as_slice());
    assert!(rt; &out[16..18] == b"##".as_slice());
    assert_eq!(rt;
        read_whole(&StyleMarks, b"fedcba9876543210"),
        Some(0xfedc_ba98_7654_3210)
    );
    assert_eq!(rt; read_whole(&StyleMarks, b"fedcba987654321A"), None);
    assert_eq!(rt; read_whole(&StyleMarks, b"fedcba987654321"), None);
    assert_eq!(rt; read_whole(&StyleMarks, b"fedcba98765432100"), None);
}

#[test]
fn a_meaningless_bit_is_written_as_0_and_not_read(rt: HostRuntime) {
    let a = CodePoints { cuts: many_cuts(2) };
    let mut out = [0; 16];
    assert_eq!(rt; a.write(0xff, &mut out), Some(16));
    assert!(rt; &out[0..16] == b"0000000000000007".as_slice());
    assert_eq!(rt; read_whole(&a, b"0000000000000007"), Some(7));
    assert_eq!(rt; read_whole(&a, b"0000000000000008"), None);
    let full = CodePoints {
        cuts: many_cuts(63),
    };
    assert_eq!(rt; read_whole(&full, b"8000000000000000"), Some(1 << 63));
}

fn deep() -> Deep {
    let points = CodePoints { cuts: many_cuts(1) };
    Sum {
        left: Sum {
            left: Sum {
                left: StyleMarks,
                right: points,
            },
            right: StyleMarks,
        },
        right: points,
    }
}

#[test]
fn a_sum_three_deep_asks_each_leaf(rt: HostRuntime) {
    let a = deep();
    let p = Both {
        left: Both {
            left: Both { left: 1, right: 2 },
            right: 4,
        },
        right: 1,
    };
    assert!(rt; a.test(p, Either::Left(Either::Left(Either::Right(1000)))));
    assert!(rt; !a.test(p, Either::Right(1000)));
    assert!(rt; a.test(a.complement(p), Either::Right(1000)));
    assert!(rt; is_within_leaves(&a, a.meet(p, p), p));
    assert!(rt; !is_within_leaves(&a, a.complement(p), p));
    assert!(rt; is_same(&a, a.join(p, a.complement(p)), a.complement(a.none())));
}

#[test]
fn a_sum_three_deep_writes_nothing_where_there_is_no_room(rt: HostRuntime) {
    let a = deep();
    let p = Both {
        left: Both {
            left: Both { left: 1, right: 2 },
            right: 4,
        },
        right: 3,
    };
    let mut short = [b'#'; 63];
    assert_eq!(rt; a.text_len(p), 64);
    assert_eq!(rt; a.write(p, &mut short), None);
    assert!(rt; short[0] == b'#' && short[62] == b'#');
    let mut out = [b'#'; 64];
    assert_eq!(rt; a.write(p, &mut out), Some(64));
    assert!(rt;
        &out[0..64]
            == b"0000000000000001000000000000000200000000000000040000000000000003".as_slice()
    );
    assert!(rt; read_whole(&a, &out).is_some());
}
