// The check of a next table that others sent.
#![tactic(auto)]

ghost use Rattle.std.specs.Prelude.{◌≡◌, length, map, Ok};
ghost use Rattle.entries.specs.Lent.{tables_in, SameLent};
ghost use Rattle.checker.specs.Checked.{finding_of, found_at, CheckedExactly};
ghost use Rattle.checker.specs.Comparing.{first_difference};

use build::build_tables;
use entries::Tables;
use ranks::Letter;
use refusal::Refusal;

// The first place where two tables differ.
fn first_difference(claimed: &[u32], table: &[u32]) -> Option<usize>
    requires { length claimed.now ≡ length table.now }
    ensures { finding_of (Ok result) ≡ found_at (length table.now) (first_difference claimed.now table.now 0 (length table.now)) }
{
    claimed.iter().zip(table).position(|(c, t)| c != t)
}

// Whether a claimed table is the next table of a string, or else the least position whose entry is wrong. The work tables are left as a finished
// build leaves its four. A refusal writes nothing.
pub fn check<S: Letter>(
    string: &[S],
    claimed: &[u32],
    work: &mut Tables,
) -> Result<Option<usize>, Refusal>
    ensures lent { SameLent work.old work.new }
    ensures checked { CheckedExactly (map S.rank string.now) claimed.now (tables_in work.old) (tables_in work.new) (finding_of result) }
{
    let n = string.len();
    // 1 comes before 2, and the build finds it
    if n <= 1000000 && claimed.len() != n {
        return Err(Refusal::TableLength);
    }
    build_tables(string, false, work)?;
    let next = &mut *work.next;
    Ok(first_difference(claimed, next))
}
