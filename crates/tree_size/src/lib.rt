// The size that the program reads which prints every tree of a size.
#![tactic(auto)]

ghost use Rattle.std.specs.Prelude.{◌≡◌};
ghost use Rattle.tree_size.specs.Size.{size_in};

// The size that the input is, 0 for other input. No Option: 0 is refused as any size outside 1 to 12 is, so a match would give one answer twice.
#[tactic(auto, using(crate::proofs::Input::by_length))]
pub fn size_in(input: &[u8]) -> usize
    ensures { result ≡ size_in input.now }
{
    match input {
        [a @ b'0'..=b'9'] | [a @ b'0'..=b'9', b'\n'] => usize::from(a - b'0'),
        [a @ b'0'..=b'9', b @ b'0'..=b'9'] | [a @ b'0'..=b'9', b @ b'0'..=b'9', b'\n'] => {
            10 * usize::from(a - b'0') + usize::from(b - b'0')
        }
        _ => 0,
    }
}
