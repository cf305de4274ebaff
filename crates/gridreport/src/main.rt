// Answers the ticket on standard input, up to its grid. The exit status is 1 where a read or a write failed.
#![tactic(auto)]

use std::process::ExitCode;
use ticket_io::krakvinge_gridreport;

fn main(rt: HostRuntime) -> ExitCode {
    let errors = rt.stderr();
    let status = krakvinge_gridreport(rt.stdin(), rt.stdout(), &errors);
    ExitCode::from(status as u8)
}
