// The place of an opening by its number: by eight bytes, by bytes, by bits.
ghost use Rattle.std.specs.Prelude.{◌≡◌, true, ◌+◌, ◌*◌, ◌≤◌, ◌<◌, length};
ghost use Rattle.refusal.specs.Conditions.{bit_of, openings};

use excess::bit;

// A byte, and how many openings come between its start and the one that is looked for.
#[derive(Clone, Copy)]
struct Place {
    byte: usize,
    left: usize,
}

// Passes whole groups of eight bytes, up to the one that has the opening number i.
fn pass_eights(tree: &[u8], i: usize) -> Place
    requires { length tree.now ≤ 250000 }
    ensures { (result.byte ≤ length tree.now) × (openings tree.now (8 * result.byte) + result.left ≡ i) }
{
    let (eights, _) = tree.as_chunks::<8>();
    let mut left = i;
    for (k, eight) in eights.iter().enumerate() {
        let count = u64::from_le_bytes(*eight).count_ones() as usize;
        if left < count {
            return Place { byte: 8 * k, left };
        }
        left -= count;
    }
    Place {
        byte: 8 * eights.len(),
        left,
    }
}

// The byte of the opening number i.
fn select_byte(tree: &[u8], i: usize) -> Place
    requires { (length tree.now ≤ 250000) × (i < openings tree.now (8 * length tree.now)) }
    ensures { (result.byte < length tree.now) × (openings tree.now (8 * result.byte) + result.left ≡ i) × (i < openings tree.now (8 * result.byte + 8)) }
{
    let passed = pass_eights(tree, i);
    let mut left = passed.left;
    for j in passed.byte..tree.len() {
        let count = tree[j].count_ones() as usize;
        if left < count {
            return Place { byte: j, left };
        }
        left -= count;
    }
    Place {
        byte: tree.len(),
        left,
    }
}

// The bit place of the opening number i.
pub(crate) fn select(tree: &[u8], i: usize) -> usize
    requires { (length tree.now ≤ 250000) × (i < openings tree.now (8 * length tree.now)) }
    ensures { (result < 8 * length tree.now) × (bit_of tree.now result ≡ true) × (openings tree.now result ≡ i) }
{
    let place = select_byte(tree, i);
    let byte = tree[place.byte];
    let mut left = place.left;
    for m in 0..8 {
        if bit(byte, m) {
            if left == 0 {
                return 8 * place.byte + m;
            }
            left -= 1;
        }
    }
    8 * place.byte + 8
}
