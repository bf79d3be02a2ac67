use histories::Call;
use labels::{Both, Either};
use script::{Refusal, Script, letter_of, read_script};
use std::alloc::{AllocError, Global};
use std::test::Fail;

// A call with its ticket written out.
fn show_call(heap: Global, call: Call<Both<u64, u64>>) -> Result<String, AllocError> {
    match call {
        Call::Open => format!(in heap; "open;"),
        Call::AddState { ticket, mark } => format!(in heap;
            "state {} by {ticket};",
            letter_of(mark)
        ),
        Call::ReMark {
            ticket,
            state,
            mark,
        } => format!(in heap; "mark {state} {} by {ticket};", letter_of(mark)),
        Call::AddArrow {
            ticket,
            source,
            label,
            target,
        } => {
            let left = label.left;
            let right = label.right;
            format!(in heap; "arrow {source} {target} {left:x} {right:x} by {ticket};")
        }
        Call::Strike { ticket, place } => format!(in heap; "strike {place} by {ticket};"),
        Call::Settle { ticket } => format!(in heap; "settle by {ticket};"),
        Call::Ask { lower, upper } => format!(in heap; "ask {lower} {upper};"),
        Call::CopyRows { from, to } => format!(in heap; "rows {from} {to};"),
        Call::TestWord { from, to } => format!(in heap; "word {from} {to};"),
        Call::Reduce => format!(in heap; "reduce;"),
    }
}

fn show_script(heap: Global, script: &Script) -> Result<String, AllocError> {
    let mut all = String::new(heap);
    for call in script.calls.iter() {
        all.push_str(&show_call(heap, *call)?)?;
    }
    for symbol in script.symbols.iter() {
        let one = match *symbol {
            Either::Left(n) => format!(in heap; " m{n}")?,
            Either::Right(n) => format!(in heap; " c{n}")?,
        };
        all.push_str(&one)?;
    }
    Ok(all)
}

// What a text says, or the number of its fault.
fn said(heap: Global, text: &[u8]) -> Result<String, AllocError> {
    match read_script(heap, text) {
        Ok(script) => show_script(heap, &script),
        Err(Refusal::Fault(fault)) => format!(in heap; "fault {}", fault.number()),
        Err(Refusal::Memory) => Err(AllocError),
    }
}

#[test]
fn a_ticket_that_is_left_out_is_the_books_own(rt: HostRuntime) -> Result<(), Fail> {
    let heap = rt.alloc();
    assert_eq!(rt;
        said(
            heap,
            b"cuts\nopen\nstate,n\nstate,i,1\nstate,a,2\nstate,b,4294967295\nend\n",
        )?
        .as_str(),
        "open;state n by 1;state i by 1;state a by 2;state b by 4294967295;"
    );
    assert_eq!(rt;
        said(
            heap,
            b"cuts\nmark,65535,a\nmark,0,n,0\nstrike,7\nstrike,65535,3\nend\n",
        )?
        .as_str(),
        "mark 65535 a by 1;mark 0 n by 0;strike 7 by 1;strike 65535 by 3;"
    );
    assert_eq!(rt;
        said(heap, b"cuts\nsettle\nsettle,9\nend\n")?.as_str(),
        "settle by 1;settle by 9;"
    );
    Ok(())
}

#[test]
fn an_arrow_has_source_target_label_and_ticket(rt: HostRuntime) -> Result<(), Fail> {
    let heap = rt.alloc();
    assert_eq!(rt;
        said(
            heap,
            b"cuts,48\narrow,1,2,00000000000000100000000000000003\narrow,2,1,ffffffffffffffff0000000000000000,8\nend\n",
        )?
        .as_str(),
        "arrow 1 2 10 3 by 1;arrow 2 1 ffffffffffffffff 0 by 8;"
    );
    Ok(())
}

#[test]
fn words_are_parts_of_one_list_of_symbols(rt: HostRuntime) -> Result<(), Fail> {
    let heap = rt.alloc();
    assert_eq!(rt;
        said(
            heap,
            b"cuts\nword,m0,c97\nword\nrows\nword,c4294967295\nreduce\nask,3,65535\nend\n",
        )?
        .as_str(),
        "word 0 2;word 2 2;rows 0 1024;word 2 3;reduce;ask 3 65535; m0 c97 c4294967295"
    );
    assert_eq!(rt; said(heap, b"cuts\nend\n")?.as_str(), "");
    Ok(())
}
