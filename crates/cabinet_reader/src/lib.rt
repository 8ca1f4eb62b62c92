// The reader of cabinet files: document 02, T-01 and T-04.
#![tactic(auto)]

ghost use Rattle.std.specs.Prelude.{◌≡◌, false, ◌+◌, ◌≤◌, length, OnOk};
ghost use Rattle.refusal.specs.declared.Refusal.TheVariants.{WrongContents};
ghost use Rattle.refusal.specs.Numbers.{number_if, verdict_number};
ghost use Rattle.cabinet.specs.LittleEndian.{number_at};
ghost use Rattle.cabinet.specs.File.{mark_of, count_of, counts_of};
ghost use Rattle.cabinet.specs.Refusals.{not_marked, wrong_contents, read_refusal};
ghost use Rattle.cabinet.specs.Answers.{EntryRead};
ghost use Rattle.cabinet_reader.specs.Figures.{number_met, refusal_told, mark_told, letters_told, place_told, body_told};

use cabinet::Mark;
use refusal::Refusal;
use suffix::tree_length;

// The number in the four bytes at a place, the lowest first.
fn number_at(file: &[u8], at: usize) -> u32
    requires { at + 4 ≤ length file.now }
    ensures { result ≡ number_at file.now at }
{
    u32::from_le_bytes(file[at..at + 4].try_into().unwrap())
}

// Which mark the file has; none where it is under 8 bytes or has neither.
fn mark_of(file: &[u8]) -> Option<Mark>
    ensures { number_met result ≡ mark_of file.now }
{
    if file.len() < 8 {
        return None;
    }
    if file.starts_with(b"LYN1") {
        return Some(Mark::LYN1);
    }
    if file.starts_with(b"LYN2") {
        return Some(Mark::LYN2);
    }
    None
}

// Reads the letter counts into `counts`, which has an entry for each, where the contents are right: 11.
#[tactic(auto, using(crate::proofs::Reading::contents))]
fn read_counts(file: &[u8], counts: &mut [u32]) -> Result<(), Refusal>
    requires { (length counts.old ≡ count_of file.now) × (length counts.old ≤ 64) }
    ensures verdict { verdict_number result ≡ number_if (wrong_contents file.now) WrongContents }
    ensures read { OnOk result (counts.new ≡ counts_of file.now) }
{
    let mut end = 8 + 8 * counts.len();
    if file.len() < end {
        return Err(Refusal::WrongContents);
    }
    let mut rest = &file[8..];
    for count in counts.iter_mut() {
        let (entry, behind) = rest.split_at(8);
        let place = number_at(entry, 0) as usize;
        let n = number_at(entry, 4);
        if place != end || n > 1000000 {
            return Err(Refusal::WrongContents);
        }
        *count = n;
        end += tree_length(n as usize);
        rest = behind;
    }
    if end != file.len() {
        return Err(Refusal::WrongContents);
    }
    Ok(())
}

// Whether the entry of a marked file of at most 64 entries is read: 11, 5, and 6 to 8 body by body. `counts` is room for the letter counts.
#[tactic(auto, using(cabinet::proofs::Conditions::reader_tests, cabinet::proofs::Conditions::right))]
fn contents_verdict(file: &[u8], entry: usize, counts: &mut [u32]) -> Result<(), Refusal>
    requires { (not_marked file.now ≡ false) × (length counts.old ≡ count_of file.now) × (length counts.old ≤ 64) }
    ensures { verdict_number result ≡ read_refusal file.now entry }
{
    read_counts(file, counts)?;
    if counts.len() <= entry {
        return Err(Refusal::PositionOutside);
    }
    cabinet_bodies::verdict_on(counts, &file[8 + 8 * counts.len()..], file.len())
}

// Whether the entry of a marked file is read: 10, and what the contents and the bodies give.
#[tactic(auto, using(cabinet::proofs::Conditions::reader_tests, cabinet::proofs::Marks::marked_long))]
fn verdict_on(file: &[u8], entry: usize) -> Result<(), Refusal>
    requires { not_marked file.now ≡ false }
    ensures { verdict_number result ≡ read_refusal file.now entry }
{
    let count = number_at(file, 4) as usize;
    if count > 64 {
        return Err(Refusal::TooManyEntries);
    }
    let mut counts = [0; 64];
    contents_verdict(file, entry, &mut counts[..count])
}

// An entry as it is read: the file's mark, the letter count, and the body, with its place, as a part of the file.
#[derive(Clone, Copy)]
pub struct Entry<'a> {
    pub mark: Mark,
    pub letters: u32,
    pub place: usize,
    pub body: &'a [u8],
}

// Why no entry is read, and the empty part at the file's start.
#[derive(Clone, Copy)]
pub struct Refused<'a> {
    pub refusal: Refusal,
    pub part: &'a [u8],
}

// Reads an entry of the file.
#[tactic(auto, using(crate::proofs::Entries::within))]
pub fn read<'a>(file: &'a [u8], entry: usize) -> Result<Entry<'a>, Refused<'a>>
    ensures { EntryRead file.entry entry (refusal_told result) (mark_told result) (letters_told result) (place_told result) (body_told result) }
{
    let part = &file[..0];
    let Some(mark) = mark_of(file) else {
        return Err(Refused {
            refusal: Refusal::NotMarked,
            part,
        });
    };
    if let Err(refusal) = verdict_on(file, entry) {
        return Err(Refused { refusal, part });
    }
    let place = number_at(file, 8 + 8 * entry) as usize;
    let letters = number_at(file, 12 + 8 * entry);
    let body = &file[place..place + tree_length(letters as usize)];
    Ok(Entry {
        mark,
        letters,
        place,
        body,
    })
}
