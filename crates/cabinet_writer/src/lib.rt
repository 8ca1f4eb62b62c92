// The writer of cabinet files: document 02, T-01 and T-04.
#![tactic(auto)]

ghost use Rattle.std.specs.Prelude.{◌≡◌, ◌++◌, ◌+◌, ◌≤◌, ◌<◌, length};
ghost use Rattle.refusal.specs.Numbers.{verdict_number};
ghost use Rattle.writing.specs.Writing.{Wrote};
ghost use Rattle.cabinet.specs.LittleEndian.{four_bytes};
ghost use Rattle.cabinet.specs.File.{contents_end, contents, cabinet};
ghost use Rattle.cabinet.specs.Refusals.{Allowed, Fitting};
ghost use Rattle.cabinet.specs.Answers.{Written};

use refusal::Refusal;
use suffix::tree_length;

// Puts a number as four bytes, the lowest byte first.
fn put_number(file: &mut [u8], at: usize, number: u32)
    requires { at + 4 ≤ length file.old }
    ensures { Wrote file.old file.new (four_bytes number) at (at + 4) }
{
    file[at..at + 4].copy_from_slice(&number.to_le_bytes());
}

// Puts a contents entry: the body's place and its letter count.
fn put_entry(file: &mut [u8], at: usize, place: usize, n: u32)
    requires { (at + 8 ≤ length file.old) × (place < 4294967296) }
    ensures { Wrote file.old file.new (four_bytes place ++ four_bytes n) at (at + 8) }
{
    put_number(file, at, place as u32);
    put_number(file, at + 4, n);
}

// Puts the contents behind the entry count.
#[tactic(auto, using(crate::proofs::Filling::entries))]
fn put_contents(counts: &[u32], file: &mut [u8])
    requires { Allowed counts.now × (contents_end (length counts.now) ≤ length file.old) }
    ensures { Wrote file.old file.new (contents (contents_end (length counts.now)) counts.now) 8 (contents_end (length counts.now)) }
{
    let mut place = 8 + 8 * counts.len();
    for (k, n) in counts.iter().enumerate() {
        put_entry(file, 8 + 8 * k, place, *n);
        place += tree_length(*n as usize);
    }
}

// Fills the buffer.
fn fill(counts: &[u32], trees: &[u8], file: &mut [u8])
    requires { Fitting counts.now trees.now × (length file.old ≡ contents_end (length counts.now) + length trees.now) }
    ensures { file.new ≡ cabinet counts.now trees.now }
{
    file[..4].copy_from_slice(b"LYN2");
    put_number(file, 4, counts.len() as u32);
    put_contents(counts, file);
    file[8 + 8 * counts.len()..].copy_from_slice(trees);
}

// Writes the trees of these letter counts, end to end, to a buffer of the file's size. Refused, the buffer is as it was.
#[tactic(auto, using(cabinet::proofs::Conditions::takes, refusal::proofs::Numbers::unless_taken))]
pub fn write(counts: &[u32], trees: &[u8], file: &mut [u8]) -> Result<(), Refusal>
    ensures { Written counts.now trees.now file.old file.new (verdict_number result) }
{
    cabinet_bodies::verdict_on(counts, trees, file.len())?;
    fill(counts, trees, file);
    Ok(())
}
