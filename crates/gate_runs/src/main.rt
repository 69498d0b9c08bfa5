// Runs on standard input, one after the other, each as four words and its bytes: round limit, step limit, output words, and how many bytes.
// Prints what the listing program prints of each.
#![tactic(auto)]

ghost use Rattle.std.specs.Prelude.{◌≤◌};

use input::read_full;
use std::io;
use std::io::Read;
use word::Word;

// The word from byte `at` on of the settings.
fn setting(settings: &[u8; 16], at: usize) -> u32
    requires { at ≤ 12 }
{
    let word = Word::from_bytes(
        settings[at],
        settings[at + 1],
        settings[at + 2],
        settings[at + 3],
    );
    word.bits
}

// The run with these settings, whose bytes come next.
fn list_with(
    rt: &impl Print,
    input: &mut impl Read,
    settings: &[u8; 16],
    bytes: &mut [u8],
) -> io::Result<()> {
    let rounds = setting(settings, 0);
    let steps = setting(settings, 4);
    let room = setting(settings, 8) as usize;
    let size = bytes.len().min(setting(settings, 12) as usize);
    read_full(input, &mut bytes[..size])?;
    let mut out = [0u8; 65536];
    let count = list_text::text(&bytes[..size], rounds, steps, room, &mut out);
    rt.write_all(&out[..count])
}

// Whether there was one more.
fn list_next(rt: &impl Print, input: &mut impl Read) -> io::Result<bool> {
    let mut settings = [0u8; 16];
    if read_full(input, &mut settings)? < 16 {
        return Ok(false);
    }
    let mut bytes = [0u8; 65544];
    list_with(rt, input, &settings, &mut bytes)?;
    Ok(true)
}

fn main(rt: HostRuntime) -> io::Result<()> {
    let mut input = rt.stdin();
    for _ in 0..1000 {
        if !list_next(&rt, &mut input)? {
            break;
        }
    }
    Ok(())
}
