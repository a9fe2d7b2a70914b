// The bytes of standard input.
ghost use Rattle.std.specs.Prelude.{◌≤◌, length, IfOk};

use std::io;
use std::io::Read;

// How many bytes of its input a program reads.
pub const LONGEST_INPUT: usize = 65_536;

// Reads into `input` until it is full or nothing more comes, and answers how many bytes came.
// `read_exact` would not say how many bytes came before the end.
pub fn read_input(rt: &HostRuntime, input: &mut [u8]) -> io::Result<usize>
    ensures { IfOk result (λ n. n ≤ length input.new) }
{
    let mut stdin = rt.stdin();
    let mut count = 0;
    while count < input.len() {
        let n = stdin.read(&mut input[count..])?;
        if n == 0 {
            break;
        }
        count += n;
    }
    Ok(count)
}
