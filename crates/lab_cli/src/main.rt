//! The program `lab`: it runs the words of its command line over the real files and the standard
//! output, and ends with the number of the status. It prints nothing of its own.
#![tactic(auto)]

mod program;

use crate::program::{Ended, run};

fn main(rt: HostRuntime) -> Ended {
    run(&rt)
}
