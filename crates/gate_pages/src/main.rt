// Pages on standard input: how many, then each as an answer's number, a word count and its words. Prints a line of what the viewer gets of each:
// the part's words, none if refused; then where the part starts, or the refusal.
#![tactic(auto)]

use input::read_full;
use std::io;
use std::io::Read;
use word::Word;

// The longest page that is taken, in words.
const MOST: usize = 256;

fn print_words(rt: &impl Print, words: &[u32]) -> io::Result<()> {
    for &bits in words {
        let word = Word::from_bits(bits);
        print!(rt; "{word} ")?;
    }
    Ok(())
}

fn print_place(rt: &impl Print, place: usize) -> io::Result<()> {
    println!(rt; "at {place}")
}

fn show(rt: &impl Print, page: &[u32], answer: u32) -> io::Result<()> {
    print_words(rt, page::view(page, answer))?;
    match page::find(page, answer) {
        Ok(part) => print_place(rt, part.start),
        Err(missing) => {
            print!(rt; "refused {} ", missing.number())?;
            print_place(rt, missing.place)
        }
    }
}

// 0 where the input has ended.
fn read_word(input: &mut impl Read) -> io::Result<u32> {
    let mut bytes = [0u8; 4];
    read_full(input, &mut bytes)?;
    let word = Word::from_bytes(bytes[0], bytes[1], bytes[2], bytes[3]);
    Ok(word.bits)
}

fn show_next(rt: &impl Print, input: &mut impl Read) -> io::Result<()> {
    let answer = read_word(input)?;
    let count = MOST.min(read_word(input)? as usize);
    let mut words = [0u32; MOST];
    for bits in &mut words[..count] {
        *bits = read_word(input)?;
    }
    show(rt, &words[..count], answer)
}

fn main(rt: HostRuntime) -> io::Result<()> {
    let mut input = rt.stdin();
    let count = read_word(&mut input)?;
    for _ in 0..count {
        show_next(&rt, &mut input)?;
    }
    Ok(())
}
