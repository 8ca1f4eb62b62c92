// The longest Lyndon word at a position of a string: document 01, "The tree", last line.
#![tactic(auto)]

ghost use Rattle.std.specs.Prelude.{◌≡◌, ◌<◌, length, map};
ghost use Rattle.std.specs.Mem.{type_size};
ghost use Rattle.suffix.specs.Lyndon.{longest_lyndon};
ghost use Rattle.word.specs.Word.{WordAnswered, number_in, part_in};

use ranks::Letter;
use refusal::Refusal;

// The length of the longest Lyndon word at the front of a string, by Duval's plain search. The first j ranks repeat a Lyndon word of j - k of them:
// an equal one goes on with the repeat, a greater one makes all that was read the word, a smaller one or the end stops.
#[tactic(auto, using(crate::proofs::Duval::letter_equal, crate::proofs::Duval::letter_greater, crate::proofs::Duval::letter_smaller, crate::proofs::Duval::string_ends))]
fn longest_lyndon_prefix<S: Letter>(string: &[S]) -> usize
    requires { 0 < length string.now }
    ensures { result ≡ longest_lyndon (map S.rank string.now) 0 }
{
    let n = string.len();
    let mut k = 0;
    for j in 1..n {
        if string[k].is_same(string[j]) {
            k += 1;
            continue;
        }
        if string[j].rank() < string[k].rank() {
            return j - k;
        }
        k = 0;
    }
    n - k
}

// Why no word is returned, and the empty part at the string's start.
#[derive(Clone, Copy)]
pub struct Refused<'a, S> {
    pub refusal: Refusal,
    pub part: &'a [S],
}

// The longest Lyndon word at the position, as a part of the string.
pub fn word<S: Letter>(string: &[S], position: usize) -> Result<&[S], Refused<'_, S>>
    ensures { WordAnswered (type_size S.row) string.entry (map S.rank string.now) position (number_in result) (part_in result) }
{
    let n = string.len();
    let part = &string[..0];
    if n > 1000000 {
        return Err(Refused {
            refusal: Refusal::TooLong,
            part,
        });
    }
    if n <= position {
        return Err(Refused {
            refusal: Refusal::PositionOutside,
            part,
        });
    }
    let suffix = &string[position..];
    let length = longest_lyndon_prefix(suffix);
    Ok(&suffix[..length])
}
