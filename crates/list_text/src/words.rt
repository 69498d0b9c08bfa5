// The words of a file.
ghost use Rattle.std.specs.Prelude.{◌≡◌, ◌*◌, ◌≤◌, length, take};
ghost use Rattle.list_text.specs.Listing.{whole_words};
ghost use Rattle.list_text.specs.Writing.{words_read};

use word::Word;

// How many words are read of so many bytes: none if they are no whole words, so that both are refused alike.
pub(crate) fn word_count(bytes: usize) -> usize
    ensures { (result ≡ words_read bytes) × (4 * result ≤ bytes) × (result ≤ 16385) }
{
    if bytes % 4 != 0 {
        return 0;
    }
    (bytes / 4).min(16385)
}

pub(crate) fn read_words(bytes: &[u8], words: &mut [u32], count: usize)
    requires { (4 * count ≤ length bytes.now) × (count ≤ length words.old) }
    ensures { take count words.new ≡ take count (whole_words bytes.now) }
{
    for i in 0..count {
        let at = 4 * i;
        let word = Word::from_bytes(bytes[at], bytes[at + 1], bytes[at + 2], bytes[at + 3]);
        words[i] = word.bits;
    }
}
