// Tries a sheet at its limits: the deepest and the widest shapes, and as many rows as there are.
#![tactic(auto)]

use std::io;
use tries::try_limits;

fn main(rt: HostRuntime) -> io::Result<()> {
    try_limits(&rt, |_, _, _| Ok(()))
}
