// The exported functions: each passes its arguments on to the crate that does the work. That slices come one by one, refusals as numbers, and
// functions in pairs for letters and symbols is the C interface.
#![tactic(auto)]

ghost use Rattle.std.specs.Prelude.{◌≡◌};
ghost use Rattle.ranks.specs.Ranks.{ranks};
ghost use Rattle.outcome.specs.Built.{tables_of, lent, BuiltExactly};
ghost use Rattle.checker.specs.Checked.{CheckedExactly};
ghost use Rattle.brackets.specs.Answers.{ReadBack};
ghost use Rattle.questions.specs.Answers.{previous_answer, next_answer, place_answer};
ghost use Rattle.tree_string.specs.TreeString.{StringWritten};
ghost use Rattle.small_trees.specs.Answers.{FirstGiven, NextGiven};
ghost use Rattle.repeats.specs.Refusals.{lists};
ghost use Rattle.runs.specs.Reported.{work_of, Reported};
ghost use Rattle.cabinet.specs.Answers.{Written};
ghost use Rattle.replies.specs.Replies.{Replied, build_reply, reply, next_reply, check_reply, word_reply, cabinet_reply};
ghost use Rattle.replies.specs.Version.{interface_version};

use entries::Tables;
use refusal::verdict_number;
use replies::{BuildReply, CabinetReply, CheckReply, NextReply, PartReply, Reply};
use roots::WorkTables;
use runs::Lists;

mod symbols;

#[unsafe(no_mangle)]
pub extern "C" fn lyndon_version() -> u32
    ensures { result ≡ interface_version }
{
    replies::version()
}

#[unsafe(no_mangle)]
pub extern "C" fn lyndon_build(
    letters: &[u8],
    rows: usize,
    previous: &mut [u32],
    next: &mut [u32],
    previous_match: &mut [u32],
    next_match: &mut [u32],
    tree: &mut [u8],
) -> BuildReply
    ensures { Replied build_reply
        (BuiltExactly (ranks letters.now) rows
        (lent previous.old next.old previous_match.old next_match.old tree.old)
        (lent previous.new next.new previous_match.new next_match.new tree.new))
        result }
{
    let mut tables = Tables {
        previous,
        next,
        previous_match,
        next_match,
    };
    build::build(letters, rows, &mut tables, tree).into()
}

#[unsafe(no_mangle)]
pub extern "C" fn lyndon_read(n: usize, tree: &[u8], previous: &mut [u32], next: &mut [u32]) -> u32
    ensures { ReadBack n tree.now (record { previous = previous.old; next = next.old })
        (record { previous = previous.new; next = next.new })
        result }
{
    verdict_number(brackets::read(n, tree, previous, next))
}

#[unsafe(no_mangle)]
pub extern "C" fn lyndon_previous(n: usize, tree: &[u8], position: usize) -> Reply
    ensures { result ≡ reply (previous_answer n tree.now position) }
{
    questions::previous_of(n, tree, position).into()
}

#[unsafe(no_mangle)]
pub extern "C" fn lyndon_next(n: usize, tree: &[u8], position: usize) -> Reply
    ensures { result ≡ reply (next_answer n tree.now position) }
{
    questions::next_of(n, tree, position).into()
}

#[unsafe(no_mangle)]
pub extern "C" fn lyndon_place(n: usize, tree: &[u8], position: usize) -> Reply
    ensures { result ≡ reply (place_answer n tree.now position) }
{
    questions::place_of(n, tree, position).into()
}

#[unsafe(no_mangle)]
pub extern "C" fn lyndon_tree_string(n: usize, tree: &[u8], symbols: &mut [u32]) -> u32
    ensures { StringWritten n tree.now symbols.old symbols.new result }
{
    verdict_number(tree_string::write(n, tree, symbols))
}

#[unsafe(no_mangle)]
pub extern "C" fn lyndon_first_tree(size: usize, tree: &mut [u8]) -> u32
    ensures { FirstGiven size tree.old tree.new result }
{
    verdict_number(small_trees::first(size, tree))
}

#[unsafe(no_mangle)]
pub extern "C" fn lyndon_next_tree(size: usize, tree: &mut [u8]) -> NextReply
    ensures { Replied next_reply (NextGiven size tree.old tree.new) result }
{
    small_trees::next(size, tree).into()
}

#[unsafe(no_mangle)]
pub extern "C" fn lyndon_word(letters: &[u8], position: usize) -> PartReply
    ensures { result ≡ word_reply (ranks letters.now) position }
{
    let word = word::word(letters, position).map_err(|refused| refused.refusal);
    PartReply::of(position, word)
}

#[unsafe(no_mangle)]
pub extern "C" fn lyndon_runs(
    letters: &[u8],
    starts: &mut [u32],
    ends: &mut [u32],
    periods: &mut [u32],
    work_1: &mut [u32],
    work_2: &mut [u32],
    work_3: &mut [u32],
    work_4: &mut [u32],
    work_5: &mut [u32],
    work_6: &mut [u32],
) -> Reply
    ensures { Replied reply
        (Reported (ranks letters.now)
        (work_of work_1.old work_2.old work_3.old work_4.old work_5.old work_6.old)
        (lists starts.old ends.old periods.old)
        (work_of work_1.new work_2.new work_3.new work_4.new work_5.new work_6.new)
        (lists starts.new ends.new periods.new))
        result }
{
    let mut work = WorkTables {
        previous: work_1,
        next: work_2,
        previous_match: work_3,
        next_match: work_4,
        reverse_next: work_5,
        reverse_match: work_6,
    };
    let mut lists = Lists {
        starts,
        ends,
        periods,
    };
    runs::report(letters, &mut work, &mut lists).into()
}

#[unsafe(no_mangle)]
pub extern "C" fn lyndon_check(
    letters: &[u8],
    claimed: &[u32],
    previous: &mut [u32],
    next: &mut [u32],
    previous_match: &mut [u32],
    next_match: &mut [u32],
) -> CheckReply
    ensures { Replied check_reply
        (CheckedExactly (ranks letters.now) claimed.now
        (tables_of previous.old next.old previous_match.old next_match.old)
        (tables_of previous.new next.new previous_match.new next_match.new))
        result }
{
    let mut work = Tables {
        previous,
        next,
        previous_match,
        next_match,
    };
    checker::check(letters, claimed, &mut work).into()
}

#[unsafe(no_mangle)]
pub extern "C" fn lyndon_cabinet_write(counts: &[u32], trees: &[u8], file: &mut [u8]) -> u32
    ensures { Written counts.now trees.now file.old file.new result }
{
    verdict_number(cabinet_writer::write(counts, trees, file))
}

#[unsafe(no_mangle)]
pub extern "C" fn lyndon_cabinet_read(file: &[u8], entry: usize) -> CabinetReply
    ensures { result ≡ cabinet_reply file.now entry }
{
    cabinet_reader::read(file, entry)
        .map_err(|refused| refused.refusal)
        .into()
}
