// Answers the ticket on standard input. The exit status is 1 where a read or a write failed.
#![tactic(auto)]

use std::process::ExitCode;
use ticket_io::krakvinge_dotcheck;

fn main(rt: HostRuntime) -> ExitCode {
    let errors = rt.stderr();
    let status = krakvinge_dotcheck(rt.stdin(), rt.stdout(), &errors);
    ExitCode::from(status as u8)
}
