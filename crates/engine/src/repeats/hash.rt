// The hash of an answer's words, by which it is found in the index.
ghost use Rattle.std.specs.Prelude.{◌≡◌, ◌<◌, length};
ghost use Rattle.engine.specs.Index.{hash_from, home};

// Below 2^30: with a hash below 2^33, no product overflows. Factors differ: of some thousand that were tried this one spread answers of many forms best.
const FACTOR: u64 = 708568507;

fn hash(words: &[u32]) -> u64
    ensures { result ≡ hash_from 0 words.now }
{
    let mut hash = 0;
    for &word in words {
        let product = (hash + word as u64) * FACTOR;
        hash = product / 4294967296 + product % 4294967296;
    }
    hash
}

// The slot where the search for an answer begins, of so many.
pub(crate) fn home(answer: &[u32], size: usize) -> usize
    requires { (0 < length answer.now) × (0 < size) × (size < 268435456) }
    ensures { (result < size) × (result ≡ home size answer.now) }
{
    let low = hash(&answer[1..]) % 4294967296;
    (low * (size as u64) / 4294967296) as usize
}
