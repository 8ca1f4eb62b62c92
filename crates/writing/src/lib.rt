// Bytes, and numbers as text, put into a buffer.
#![tactic(auto)]

ghost use Rattle.std.specs.Prelude.{[], ◌∷◌, length};
ghost use Rattle.io.specs.Digits.{last_digits};
ghost use Rattle.writing.specs.Writing.{Put};
ghost use Rattle.writing.specs.Text.{decimal, hexes};

// Puts a byte into out at a place, if there is room, and answers the place behind it, or the place itself. Each function below puts as much of its
// text as there is room for, and answers the place behind that.
pub fn put_byte(out: &mut [u8], at: usize, b: u8) -> usize
    ensures { Put out.old out.new (b ∷ []) at result }
{
    if at >= out.len() {
        return at;
    }
    out[at] = b;
    at + 1
}

pub fn put(out: &mut [u8], at: usize, s: &[u8]) -> usize
    ensures { Put out.old out.new s.now at result }
{
    let mut end = at;
    for &b in s {
        end = put_byte(out, end, b);
    }
    end
}

pub fn put_decimal(out: &mut [u8], at: usize, n: usize) -> usize
    ensures { Put out.old out.new (decimal n) at result }
{
    let mut text = [0u8; 20];
    let k = io::decimal(n as u64, &mut text);
    put(out, at, &text[..k])
}

// A byte as two hexadecimal digits.
fn put_hex(out: &mut [u8], at: usize, b: u8) -> usize
    ensures { Put out.old out.new (last_digits 16 2 b) at result }
{
    let mut text = [0u8; 16];
    let k = io::hex(b as u64, 2, &mut text);
    put(out, at, &text[..k])
}

pub fn put_hexes(out: &mut [u8], at: usize, s: &[u8]) -> usize
    ensures { Put out.old out.new (hexes s.now (length s.now)) at result }
{
    let mut end = at;
    for &b in s {
        end = put_hex(out, end, b);
    }
    end
}
