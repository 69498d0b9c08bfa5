// The listing program of document 01: words on standard input, the list on standard output.
#![tactic(auto)]

use input::read_full;
use std::io;

fn main(rt: HostRuntime) -> io::Result<()> {
    // One word more than a program may have.
    let mut bytes = [0u8; 65540];
    let got = read_full(&mut rt.stdin(), &mut bytes)?;
    let mut out = [0u8; 65536];
    let count = list_text::printed_text(&bytes[..got], &mut out);
    rt.write_all(&out[..count])
}
