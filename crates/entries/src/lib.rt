// Lent memory: the four tables of a string, and entries and bytes that are cleared.
#![tactic(auto)]

ghost use Rattle.std.specs.Prelude.{◌≡◌, length, replicate};
ghost use Rattle.entries.specs.Cleared.{cleared_from};
ghost use Rattle.entries.specs.Lent.{tables_in, cleared_tables, SameLent};

// The previous and next tables of a string, and those of their matches.
#[derive(Drop)]
pub struct Tables<'a> {
    pub previous: &'a mut [u32],
    pub next: &'a mut [u32],
    pub previous_match: &'a mut [u32],
    pub next_match: &'a mut [u32],
}

impl Tables<'_> {
    // None from a place on, and 0 in the tables of the matches.
    pub fn clear_from(&mut self, from: usize, none: u32)
        ensures lent { SameLent self.old self.new }
        ensures cleared { tables_in self.new ≡ cleared_tables none from (tables_in self.old) }
    {
        clear_from(self.previous, from, none);
        clear_from(self.next, from, none);
        clear_from(self.previous_match, from, 0);
        clear_from(self.next_match, from, 0);
    }
}

// The value in every place from one on.
#[tactic(auto, using(crate::proofs::Clearing::cleared_none, crate::proofs::Clearing::filled))]
pub fn clear_from(table: &mut [u32], from: usize, value: u32)
    ensures { table.new ≡ cleared_from from value table.old }
{
    if from < table.len() {
        table[from..].fill(value);
    }
}

pub fn clear_bytes(bytes: &mut [u8])
    ensures { bytes.new ≡ replicate (length bytes.old) 0 }
{
    bytes.fill(0);
}
