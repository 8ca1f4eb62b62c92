// The version of the exported functions, the structures that they return, and how these are made of the answers.
#![tactic(auto)]

ghost use Rattle.std.specs.Prelude.{◌≡◌};
ghost use Rattle.outcome.specs.Built.{figures_of as built_figures};
ghost use Rattle.checker.specs.Checked.{finding_of};
ghost use Rattle.refusal.specs.Answers.{figures_of};
ghost use Rattle.small_trees.specs.Answers.{going_of};
ghost use Rattle.replies.specs.Version.{interface_version};
ghost use Rattle.replies.specs.Replies.{build_reply, reply, next_reply, check_reply, part_reply, part_of, entry_reply};

use cabinet_reader::Entry;
use outcome::Built;
use refusal::Refusal;
use small_trees::Step;

// LYNDON_VERSION of the header.
const VERSION: u32 = 7;

pub fn version() -> u32
    ensures { result ≡ interface_version }
{
    VERSION
}

#[repr(C)]
#[derive(Clone, Copy, Default)]
pub struct BuildReply {
    pub refusal: u32,
    pub finished: u32,
    pub rows: usize,
    pub equal: usize,
    pub unequal: usize,
    pub reach: usize,
}

impl From<Result<Built, Refusal>> for BuildReply {
    ghost from_gives = { λ built given. given ≡ build_reply (built_figures built) };

    fn from(built: Result<Built, Refusal>) -> BuildReply {
        match built {
            Ok(Built::Finished(k)) => BuildReply {
                refusal: 0,
                finished: 1,
                rows: k.rows,
                equal: k.equal,
                unequal: k.unequal,
                reach: k.reach,
            },
            Ok(Built::Halted(k)) => BuildReply {
                refusal: 0,
                finished: 0,
                rows: k.rows,
                equal: k.equal,
                unequal: k.unequal,
                reach: k.reach,
            },
            Err(refusal) => BuildReply {
                refusal: refusal.into(),
                ..Default::default()
            },
        }
    }
}

#[repr(C)]
#[derive(Clone, Copy)]
pub struct Reply {
    pub refusal: u32,
    pub value: usize,
}

impl From<Result<usize, Refusal>> for Reply {
    ghost from_gives = { λ answer given. given ≡ reply (figures_of answer) };

    #[tactic(auto, unfolding(crate::specs::Replies::reply))]
    fn from(answer: Result<usize, Refusal>) -> Reply {
        match answer {
            Ok(value) => Reply { refusal: 0, value },
            Err(refusal) => Reply {
                refusal: refusal.into(),
                value: 0,
            },
        }
    }
}

#[repr(C)]
#[derive(Clone, Copy)]
pub struct NextReply {
    pub refusal: u32,
    pub last: u32,
}

impl From<Result<Step, Refusal>> for NextReply {
    ghost from_gives = { λ step given. given ≡ next_reply (going_of step) };

    fn from(step: Result<Step, Refusal>) -> NextReply {
        match step {
            Ok(Step::Next) => NextReply {
                refusal: 0,
                last: 0,
            },
            Ok(Step::Last) => NextReply {
                refusal: 0,
                last: 1,
            },
            Err(refusal) => NextReply {
                refusal: refusal.into(),
                last: 0,
            },
        }
    }
}

#[repr(C)]
#[derive(Clone, Copy, Default)]
pub struct CheckReply {
    pub refusal: u32,
    pub right: u32,
    pub position: usize,
}

impl From<Result<Option<usize>, Refusal>> for CheckReply {
    ghost from_gives = { λ checked given. given ≡ check_reply (finding_of checked) };

    fn from(checked: Result<Option<usize>, Refusal>) -> CheckReply {
        match checked {
            Ok(None) => CheckReply {
                refusal: 0,
                right: 1,
                position: 0,
            },
            Ok(Some(position)) => CheckReply {
                refusal: 0,
                right: 0,
                position,
            },
            Err(refusal) => CheckReply {
                refusal: refusal.into(),
                ..Default::default()
            },
        }
    }
}

#[repr(C)]
#[derive(Clone, Copy, Default)]
pub struct PartReply {
    pub refusal: u32,
    pub start: usize,
    pub length: usize,
}

// A part of a string that starts at the position, unless it is refused. The number may be any, so it is not an enum.
pub fn part_reply(refused: u32, position: usize, length: usize) -> PartReply
    ensures { result ≡ part_reply refused position length }
{
    if refused != 0 {
        return PartReply {
            refusal: refused,
            ..Default::default()
        };
    }
    PartReply {
        refusal: 0,
        start: position,
        length,
    }
}

impl PartReply {
    // The reply to a question for a part that starts at the position.
    pub fn of<S>(position: usize, part: Result<&[S], Refusal>) -> PartReply
        ensures { result ≡ part_of position part.entry }
    {
        match part {
            Ok(part) => part_reply(0, position, part.len()),
            Err(refusal) => part_reply(refusal.into(), position, 0),
        }
    }
}

#[repr(C)]
#[derive(Clone, Copy, Default)]
pub struct CabinetReply {
    pub refusal: u32,
    pub mark: u32,
    pub letters: u32,
    pub start: usize,
    pub length: usize,
}

impl From<Result<Entry<'_>, Refusal>> for CabinetReply {
    ghost from_gives = { λ entry given. given ≡ entry_reply entry };

    fn from(entry: Result<Entry<'_>, Refusal>) -> CabinetReply {
        match entry {
            Ok(entry) => CabinetReply {
                refusal: 0,
                mark: entry.mark.into(),
                letters: entry.letters,
                start: entry.place,
                length: entry.body.len(),
            },
            Err(refusal) => CabinetReply {
                refusal: refusal.into(),
                ..Default::default()
            },
        }
    }
}
