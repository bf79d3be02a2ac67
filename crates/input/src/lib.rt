// What the programs share: standard input, read whole, and why it is refused.
#![tactic(auto)]

ghost use Rattle.std.specs.Prelude.{◌≡◌, ◌≤◌, vec_len, IfOk};
ghost use Rattle.input.specs.Failures.{Fails, Reports};
ghost use Rattle.input.specs.declared.Failure.TheVariants.{Io};

use lines::{Fault, Place, Refusal};
use std::alloc::AllocError;
use std::io;
use std::io::Read;

// Longer inputs are refused unread.
pub const MOST: usize = 65_536;

// Why a program gives no answer.
#[derive(Debug, Drop)]
pub enum Failure {
    Refused(Fault),
    Io(io::Error),
}

impl From<Refusal> for Failure {
    ghost from_gives = { Fails };

    fn from(refusal: Refusal) -> Failure {
        match refusal {
            Refusal::Fault(fault) => Failure::Refused(fault),
            Refusal::Memory => Failure::Io(AllocError.into()),
        }
    }
}

impl From<io::Error> for Failure {
    ghost from_gives = { λ e r. r ≡ Io e };

    fn from(error: io::Error) -> Failure {
        Failure::Io(error)
    }
}

// The whole of standard input.
pub fn read_input(rt: &HostRuntime) -> Result<Vec<u8>, Failure>
    ensures { IfOk result (λ text. vec_len text ≤ 65536) }
{
    let mut text = Vec::new(rt.alloc());
    // `as`, since there is no `From<usize>` for `u64`.
    let mut input = rt.stdin().take(MOST as u64 + 1);
    let _n = input.read_to_end(&mut text)?;
    if text.len() > MOST {
        // An input that is not read has no lines to count: the formats write line 0.
        let end = Place {
            line: 0,
            offset: MOST,
        };
        return Err(Failure::Refused(Fault::Stop(end)));
    }
    Ok(text)
}

// Prints why an input was refused.
pub fn report(rt: &HostRuntime, outcome: Result<(), Failure>) -> io::Result<()>
    ensures { Reports outcome result }
{
    // Only one of the three ways prints; `or_else` would hold the other two as they stand.
    match outcome {
        Ok(()) => Ok(()),
        Err(Failure::Refused(fault)) => println!(rt; "refused,{fault}"),
        Err(Failure::Io(error)) => Err(error),
    }
}
