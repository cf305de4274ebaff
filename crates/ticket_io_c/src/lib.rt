// The programs of `ticket_io` for C callers. C passes nothing for the three streams, which take no bytes.
#![tactic(auto)]

ghost use Rattle.std.specs.Prelude.{◌≤◌};

use std::io::{Stderr, Stdin, Stdout};

#[unsafe(no_mangle)]
pub extern "C" fn krakvinge_dotcheck(input: Stdin, output: Stdout, errors: Stderr) -> u32
    ensures { result ≤ 1 }
{
    ticket_io::krakvinge_dotcheck(input, output, &errors)
}

#[unsafe(no_mangle)]
pub extern "C" fn krakvinge_gridreport(input: Stdin, output: Stdout, errors: Stderr) -> u32
    ensures { result ≤ 1 }
{
    ticket_io::krakvinge_gridreport(input, output, &errors)
}
