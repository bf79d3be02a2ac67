use lines::fault_of;
use script::read_script;
use std::alloc::{AllocError, Global};
use std::test::Fail;

// The numbers of the fault of a text, as the program prints it.
fn fault(heap: Global, text: &[u8]) -> Result<Option<(u8, usize, usize)>, AllocError> {
    fault_of(read_script(heap, text))
}

#[test]
fn a_text_stops_where_its_last_line_ends(rt: HostRuntime) -> Result<(), Fail> {
    let heap = rt.alloc();
    assert_eq!(rt; fault(heap, b"")?, Some((14, 1, 0)));
    assert_eq!(rt; fault(heap, b"cuts")?, Some((14, 1, 4)));
    assert_eq!(rt; fault(heap, b"cuts\n")?, Some((14, 2, 5)));
    assert_eq!(rt; fault(heap, b"cuts\nend")?, Some((14, 2, 8)));
    assert_eq!(rt; fault(heap, b"cuts\nopen,\nend")?, Some((11, 2, 5)));
    assert_eq!(rt; fault(heap, b"cuts\nend\n\n")?, Some((14, 3, 9)));
    assert_eq!(rt; fault(heap, b"cuts\nend\nopen\n")?, Some((14, 3, 9)));
    assert_eq!(rt; fault(heap, b"cuts\nend\n")?, None);
    Ok(())
}

#[test]
fn a_first_field_is_due_there(rt: HostRuntime) -> Result<(), Fail> {
    let heap = rt.alloc();
    assert_eq!(rt; fault(heap, b"cut\nend\n")?, Some((10, 1, 0)));
    assert_eq!(rt; fault(heap, b"cuts\r\nend\r\n")?, Some((10, 1, 0)));
    assert_eq!(rt; fault(heap, b"cuts\nopen\r\nend\n")?, Some((10, 2, 5)));
    assert_eq!(rt; fault(heap, b"cuts\n\nend\n")?, Some((10, 2, 5)));
    assert_eq!(rt; fault(heap, b"cuts\nOpen\nend\n")?, Some((10, 2, 5)));
    assert_eq!(rt; fault(heap, b"cuts\nopen \nend\n")?, Some((10, 2, 5)));
    assert_eq!(rt;
        fault(heap, b"cuts\nstates,n,1,1\nend\n")?,
        Some((10, 2, 5))
    );
    assert_eq!(rt;
        fault(heap, b"cuts,48\nopen\ncuts,58\nend\n")?,
        Some((10, 3, 13))
    );
    Ok(())
}

#[test]
fn a_line_has_its_count_of_fields(rt: HostRuntime) -> Result<(), Fail> {
    let heap = rt.alloc();
    assert_eq!(rt; fault(heap, b"cuts\nopen,1\nend\n")?, Some((11, 2, 5)));
    assert_eq!(rt; fault(heap, b"cuts\nstate\nend\n")?, Some((11, 2, 5)));
    assert_eq!(rt; fault(heap, b"cuts\nstate,x,1,1\nend\n")?, Some((11, 2, 5)));
    assert_eq!(rt; fault(heap, b"cuts\nmark,x\nend\n")?, Some((11, 2, 5)));
    assert_eq!(rt;
        fault(heap, b"cuts\nmark,0,n,1,1\nend\n")?,
        Some((11, 2, 5))
    );
    assert_eq!(rt; fault(heap, b"cuts\narrow,x,0\nend\n")?, Some((11, 2, 5)));
    assert_eq!(rt;
        fault(heap, b"cuts\narrow,0,0,x,1,1\nend\n")?,
        Some((11, 2, 5))
    );
    assert_eq!(rt; fault(heap, b"cuts\nstrike\nend\n")?, Some((11, 2, 5)));
    assert_eq!(rt;
        fault(heap, b"cuts\nstrike,0,1,1\nend\n")?,
        Some((11, 2, 5))
    );
    Ok(())
}

#[test]
fn a_line_without_a_ticket_has_one_count(rt: HostRuntime) -> Result<(), Fail> {
    let heap = rt.alloc();
    assert_eq!(rt; fault(heap, b"cuts\nsettle,1,1\nend\n")?, Some((11, 2, 5)));
    assert_eq!(rt; fault(heap, b"cuts\nask,0\nend\n")?, Some((11, 2, 5)));
    assert_eq!(rt; fault(heap, b"cuts\nask,0,0,0\nend\n")?, Some((11, 2, 5)));
    assert_eq!(rt; fault(heap, b"cuts\nrows,\nend\n")?, Some((11, 2, 5)));
    assert_eq!(rt; fault(heap, b"cuts\nreduce,0\nend\n")?, Some((11, 2, 5)));
    assert_eq!(rt; fault(heap, b"cuts\nend,\n")?, Some((11, 2, 5)));
    Ok(())
}

#[test]
fn a_mark_is_one_letter(rt: HostRuntime) -> Result<(), Fail> {
    let heap = rt.alloc();
    assert_eq!(rt; fault(heap, b"cuts\nstate,x\nend\n")?, Some((12, 2, 11)));
    assert_eq!(rt; fault(heap, b"cuts\nstate,\nend\n")?, Some((12, 2, 11)));
    assert_eq!(rt; fault(heap, b"cuts\nstate,ni\nend\n")?, Some((12, 2, 11)));
    assert_eq!(rt; fault(heap, b"cuts\nstate,N,x\nend\n")?, Some((12, 2, 11)));
    assert_eq!(rt; fault(heap, b"cuts\nmark,0,c\nend\n")?, Some((12, 2, 12)));
    assert_eq!(rt;
        fault(heap, b"cuts,48\nopen\nstate,z\nend\n")?,
        Some((12, 3, 19))
    );
    Ok(())
}

#[test]
fn a_state_and_a_place_go_to_65535(rt: HostRuntime) -> Result<(), Fail> {
    let heap = rt.alloc();
    assert_eq!(rt; fault(heap, b"cuts\nmark,65535,n\nend\n")?, None);
    assert_eq!(rt;
        fault(heap, b"cuts\nmark,65536,x\nend\n")?,
        Some((12, 2, 10))
    );
    assert_eq!(rt; fault(heap, b"cuts\nstrike,65535\nend\n")?, None);
    assert_eq!(rt;
        fault(heap, b"cuts\nstrike,65536\nend\n")?,
        Some((12, 2, 12))
    );
    assert_eq!(rt; fault(heap, b"cuts\nask,65535,65535\nend\n")?, None);
    assert_eq!(rt; fault(heap, b"cuts\nask,x,x\nend\n")?, Some((12, 2, 9)));
    assert_eq!(rt;
        fault(heap, b"cuts\nask,0,65536\nend\n")?,
        Some((12, 2, 11))
    );
    assert_eq!(rt; fault(heap, b"cuts\nask,0,00\nend\n")?, Some((12, 2, 11)));
    Ok(())
}

#[test]
fn a_ticket_goes_to_4294967295(rt: HostRuntime) -> Result<(), Fail> {
    let heap = rt.alloc();
    assert_eq!(rt; fault(heap, b"cuts\nstate,n,4294967295\nend\n")?, None);
    assert_eq!(rt;
        fault(heap, b"cuts\nstate,n,4294967296\nend\n")?,
        Some((12, 2, 13))
    );
    assert_eq!(rt; fault(heap, b"cuts\nstate,n,\nend\n")?, Some((12, 2, 13)));
    assert_eq!(rt; fault(heap, b"cuts\nmark,0,n,x\nend\n")?, Some((12, 2, 14)));
    assert_eq!(rt;
        fault(heap, b"cuts\nstrike,0,-1\nend\n")?,
        Some((12, 2, 14))
    );
    assert_eq!(rt; fault(heap, b"cuts\nsettle,4294967295\nend\n")?, None);
    assert_eq!(rt; fault(heap, b"cuts\nsettle,01\nend\n")?, Some((12, 2, 12)));
    Ok(())
}

#[test]
fn an_arrow_is_read_from_left_to_right(rt: HostRuntime) -> Result<(), Fail> {
    let heap = rt.alloc();
    assert_eq!(rt;
        fault(heap, b"cuts\narrow,65536,x,x,x\nend\n")?,
        Some((12, 2, 11))
    );
    assert_eq!(rt;
        fault(heap, b"cuts\narrow,0,65536,x,x\nend\n")?,
        Some((12, 2, 13))
    );
    assert_eq!(rt;
        fault(heap, b"cuts\narrow,0,0,x,x\nend\n")?,
        Some((13, 2, 15))
    );
    assert_eq!(rt; fault(heap, b"cuts\narrow,0,0,\nend\n")?, Some((13, 2, 15)));
    assert_eq!(rt;
        fault(
            heap,
            b"cuts\narrow,0,0,00000000000000010000000000000002\nend\n",
        )?,
        Some((13, 2, 15))
    );
    assert_eq!(rt;
        fault(
            heap,
            b"cuts\narrow,0,0,00000000000000010000000000000001,x\nend\n",
        )?,
        Some((12, 2, 48))
    );
    assert_eq!(rt;
        fault(
            heap,
            b"cuts\narrow,0,65535,00000000000000010000000000000001,0\nend\n",
        )?,
        None
    );
    Ok(())
}

#[test]
fn a_symbol_is_a_letter_and_a_number(rt: HostRuntime) -> Result<(), Fail> {
    let heap = rt.alloc();
    assert_eq!(rt; fault(heap, b"cuts\nword,\nend\n")?, Some((12, 2, 10)));
    assert_eq!(rt; fault(heap, b"cuts\nword,m\nend\n")?, Some((12, 2, 10)));
    assert_eq!(rt; fault(heap, b"cuts\nword,m255\nend\n")?, None);
    assert_eq!(rt; fault(heap, b"cuts\nword,m256\nend\n")?, Some((12, 2, 10)));
    assert_eq!(rt; fault(heap, b"cuts\nword,c4294967295\nend\n")?, None);
    assert_eq!(rt;
        fault(heap, b"cuts\nword,c4294967296\nend\n")?,
        Some((12, 2, 10))
    );
    assert_eq!(rt;
        fault(heap, b"cuts\nword,m1,c,x\nend\n")?,
        Some((12, 2, 13))
    );
    assert_eq!(rt;
        fault(heap, b"cuts\nword,m1,c97,7\nend\n")?,
        Some((12, 2, 17))
    );
    Ok(())
}
