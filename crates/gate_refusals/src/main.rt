// Reads programs from standard input, each as its word count and its words, and prints a line of what `check` says of each.
#![tactic(auto)]

ghost use Rattle.std.specs.Prelude.{◌<◌, IfOk};

use input::read_full;
use std::io;
use word::Word;

fn show(rt: &impl Print, program: &[u32]) -> io::Result<()> {
    match rules::check(program) {
        Ok(()) => println!(rt; "accepted"),
        Err(refusal) => println!(rt;
            "refused {} at {}",
            refusal.condition.number(),
            refusal.place
        ),
    }
}

// Shows the program that starts at word `at`, if it is whole, and answers the place after it.
fn show_at(rt: &impl Print, words: &[u32], end: usize, at: usize) -> io::Result<usize>
    requires { at < end }
    ensures { IfOk result (λ next. at < next) }
{
    if words.len() < end {
        return Ok(end);
    }
    let size = words[at] as usize;
    let from = at + 1;
    if end - from < size {
        return Ok(end);
    }
    let to = from + size;
    show(rt, &words[from..to])?;
    Ok(to)
}

fn main(rt: HostRuntime) -> io::Result<()> {
    let mut bytes = [0u8; 262144];
    let got = read_full(&mut rt.stdin(), &mut bytes)?;
    let mut words = [0u32; 65536];
    for (word, part) in words.iter_mut().zip(bytes.as_chunks::<4>().0) {
        let [low, second, third, high] = *part;
        *word = Word::from_bytes(low, second, third, high).bits;
    }
    let end = got / 4;
    let mut at = 0;
    while at < end {
        at = show_at(&rt, &words, end, at)?;
    }
    Ok(())
}
