use label_list::read_list;
use lines::fault_of;
use std::alloc::{AllocError, Global};
use std::test::Fail;

// The numbers of the fault of a text, as the program prints it.
fn fault(heap: Global, text: &[u8]) -> Result<Option<(u8, usize, usize)>, AllocError> {
    fault_of(read_list(heap, text))
}

#[test]
fn faults_of_the_line_of_cuts(rt: HostRuntime) -> Result<(), Fail> {
    let heap = rt.alloc();
    assert_eq!(rt; fault(heap, b"")?, Some((14, 1, 0)));
    assert_eq!(rt; fault(heap, b"cuts")?, Some((14, 1, 4)));
    assert_eq!(rt; fault(heap, b"cut,1\nend\n")?, Some((10, 1, 0)));
    assert_eq!(rt; fault(heap, b"cuts,\nend\n")?, Some((12, 1, 5)));
    assert_eq!(rt; fault(heap, b"cuts,0\nend\n")?, Some((12, 1, 5)));
    assert_eq!(rt; fault(heap, b"cuts,97,097\nend\n")?, Some((12, 1, 8)));
    assert_eq!(rt; fault(heap, b"cuts,97,97\nend\n")?, Some((12, 1, 8)));
    assert_eq!(rt; fault(heap, b"cuts,97,1114112\nend\n")?, Some((12, 1, 8)));
    assert_eq!(rt; fault(heap, b"cuts,97,1114111\nend\n")?, None);
    assert_eq!(rt; fault(heap, b"cuts\r\nend\n")?, Some((10, 1, 0)));
    Ok(())
}

#[test]
fn faults_of_the_lines_behind_it(rt: HostRuntime) -> Result<(), Fail> {
    let heap = rt.alloc();
    assert_eq!(rt; fault(heap, b"cuts\nend\n")?, None);
    assert_eq!(rt; fault(heap, b"cuts\nend\nx")?, Some((14, 3, 9)));
    assert_eq!(rt; fault(heap, b"cuts\nend,\n")?, Some((11, 2, 5)));
    assert_eq!(rt; fault(heap, b"cuts\nends\n")?, Some((10, 2, 5)));
    assert_eq!(rt; fault(heap, b"cuts\nlabel\nend\n")?, Some((11, 2, 5)));
    assert_eq!(rt; fault(heap, b"cuts\nlabel,0,0\nend\n")?, Some((11, 2, 5)));
    assert_eq!(rt; fault(heap, b"cuts\nlabel,0\nend\n")?, Some((13, 2, 11)));
    assert_eq!(rt;
        fault(heap, b"cuts\nlabel,00000000000000010000000000000002\nend\n")?,
        Some((13, 2, 11))
    );
    assert_eq!(rt;
        fault(
            heap,
            b"cuts,97\nlabel,00000000000000010000000000000002\nend\n",
        )?,
        None
    );
    assert_eq!(rt;
        fault(heap, b"cuts,97\nlabel,00000000000000010000000000000002")?,
        Some((14, 2, 46))
    );
    Ok(())
}

#[test]
fn sixty_four_cuts_are_a_wrong_count(rt: HostRuntime) -> Result<(), Fail> {
    let heap = rt.alloc();
    assert_eq!(rt;
        fault(
            heap,
            b"cuts,1,2,3,4,5,6,7,8,9,10,11,12,13,14,15,16,17,18,19,20,21,22,23,24,25,26,27,28,29,30,31,32,33,34,35,36,37,38,39,40,41,42,43,44,45,46,47,48,49,50,51,52,53,54,55,56,57,58,59,60,61,62,63\nend\n",
        )?,
        None
    );
    assert_eq!(rt;
        fault(
            heap,
            b"cuts,1,2,3,4,5,6,7,8,9,10,11,12,13,14,15,16,17,18,19,20,21,22,23,24,25,26,27,28,29,30,31,32,33,34,35,36,37,38,39,40,41,42,43,44,45,46,47,48,49,50,51,52,53,54,55,56,57,58,59,60,61,62,63,x\nend\n",
        )?,
        Some((11, 1, 0))
    );
    Ok(())
}
