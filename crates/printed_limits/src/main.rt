// Tries a sheet at its limits, as `limits` does, and writes bytes of the deepest and the widest form.
#![tactic(auto)]

use answers::{Answer, Found};
use printing::bytes::byte_at;
use std::io;
use tries::try_limits;

fn main(rt: HostRuntime) -> io::Result<()> {
    try_limits(&rt, |sheet, n, place| {
        let byte = Answer(byte_at(sheet, n, place).map(Found));
        println!(rt; "byte {place}: {byte}")
    })
}
