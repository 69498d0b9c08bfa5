// Text into lent bytes, as far as they reach. Each function returns the place behind what it wrote.
ghost use Rattle.std.specs.Prelude.{◌+◌, ◌<◌, ◌≤◌, [], ◌∷◌, length};
ghost use Rattle.list_text.specs.Listing.{decimal};
ghost use Rattle.list_text.specs.Writing.{Wrote};

pub(crate) fn put_byte(byte: u8, at: usize, out: &mut [u8]) -> usize
    requires { at < 65536 }
    ensures { Wrote (byte ∷ []) at out.old result out.new }
{
    if at < out.len() {
        out[at] = byte;
    }
    at + 1
}

pub(crate) fn put_text(text: &[u8], at: usize, out: &mut [u8]) -> usize
    requires { at + length text.now ≤ 65536 }
    ensures { Wrote text.now at out.old result out.new }
{
    let mut next = at;
    for &byte in text {
        next = put_byte(byte, next, out);
    }
    next
}

pub(crate) fn put_number(n: usize, at: usize, out: &mut [u8]) -> usize
    requires { at + length (decimal n) ≤ 65536 }
    ensures { Wrote (decimal n) at out.old result out.new }
{
    if n < 10 {
        return put_byte(b'0' + n as u8, at, out);
    }
    let last = put_number(n / 10, at, out);
    put_byte(b'0' + (n % 10) as u8, last, out)
}
