// The functions for symbols of 32 bits, as their namesakes for letters.
ghost use Rattle.std.specs.Prelude.{◌≡◌};
ghost use Rattle.outcome.specs.Built.{tables_of, lent, BuiltExactly};
ghost use Rattle.checker.specs.Checked.{CheckedExactly};
ghost use Rattle.repeats.specs.Refusals.{lists};
ghost use Rattle.runs.specs.Reported.{work_of, Reported};
ghost use Rattle.replies.specs.Replies.{Replied, build_reply, reply, check_reply, word_reply};

use entries::Tables;
use replies::{BuildReply, CheckReply, PartReply, Reply};
use roots::WorkTables;
use runs::Lists;

#[unsafe(no_mangle)]
pub extern "C" fn lyndon_build32(
    symbols: &[u32],
    rows: usize,
    previous: &mut [u32],
    next: &mut [u32],
    previous_match: &mut [u32],
    next_match: &mut [u32],
    tree: &mut [u8],
) -> BuildReply
    ensures { Replied build_reply
        (BuiltExactly symbols.now rows
        (lent previous.old next.old previous_match.old next_match.old tree.old)
        (lent previous.new next.new previous_match.new next_match.new tree.new))
        result }
{
    let mut tables = Tables {
        previous,
        next,
        previous_match,
        next_match,
    };
    build::build(symbols, rows, &mut tables, tree).into()
}

#[unsafe(no_mangle)]
pub extern "C" fn lyndon_word32(symbols: &[u32], position: usize) -> PartReply
    ensures { result ≡ word_reply symbols.now position }
{
    let word = word::word(symbols, position).map_err(|refused| refused.refusal);
    PartReply::of(position, word)
}

#[unsafe(no_mangle)]
pub extern "C" fn lyndon_runs32(
    symbols: &[u32],
    starts: &mut [u32],
    ends: &mut [u32],
    periods: &mut [u32],
    work_1: &mut [u32],
    work_2: &mut [u32],
    work_3: &mut [u32],
    work_4: &mut [u32],
    work_5: &mut [u32],
    work_6: &mut [u32],
) -> Reply
    ensures { Replied reply
        (Reported symbols.now
        (work_of work_1.old work_2.old work_3.old work_4.old work_5.old work_6.old)
        (lists starts.old ends.old periods.old)
        (work_of work_1.new work_2.new work_3.new work_4.new work_5.new work_6.new)
        (lists starts.new ends.new periods.new))
        result }
{
    let mut work = WorkTables {
        previous: work_1,
        next: work_2,
        previous_match: work_3,
        next_match: work_4,
        reverse_next: work_5,
        reverse_match: work_6,
    };
    let mut lists = Lists {
        starts,
        ends,
        periods,
    };
    runs::report(symbols, &mut work, &mut lists).into()
}

#[unsafe(no_mangle)]
pub extern "C" fn lyndon_check32(
    symbols: &[u32],
    claimed: &[u32],
    previous: &mut [u32],
    next: &mut [u32],
    previous_match: &mut [u32],
    next_match: &mut [u32],
) -> CheckReply
    ensures { Replied check_reply
        (CheckedExactly symbols.now claimed.now
        (tables_of previous.old next.old previous_match.old next_match.old)
        (tables_of previous.new next.new previous_match.new next_match.new))
        result }
{
    let mut work = Tables {
        previous,
        next,
        previous_match,
        next_match,
    };
    checker::check(symbols, claimed, &mut work).into()
}
