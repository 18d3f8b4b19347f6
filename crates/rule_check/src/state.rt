//! What is kept of the rows of a table, in place of the rows themselves.

ghost use Rattle.std.specs.Prelude.{◌≡◌, ◌*◌, ◌≤◌, length};

use crate::latest::{Latest, NOTHING};
use crate::window::{ActWindow, NO_ACTS};
use sim_base::command::IssuedCommand;

/// A bank: the latest command of each kind that concerned it, and its open row.
#[derive(Clone, Copy)]
pub(crate) struct Bank {
    pub(crate) latest: Latest,
    pub(crate) row: Option<u32>,
}

/// A bank that no command has concerned.
pub(crate) static NEW_BANK: Bank = Bank {
    latest: NOTHING,
    row: None,
};

/// A group: the latest command of each kind in it, and in the other groups of its rank.
#[derive(Clone, Copy)]
pub(crate) struct Group {
    pub(crate) within: Latest,
    pub(crate) across: Latest,
}

/// A group that had no command.
pub(crate) static NEW_GROUP: Group = Group {
    within: NOTHING,
    across: NOTHING,
};

/// A rank: the latest command of each kind in it and in the other ranks, its last ACTs, and the cycle after which its
/// next refresh is overdue.
#[derive(Clone, Copy)]
pub(crate) struct Rank {
    pub(crate) within: Latest,
    pub(crate) across: Latest,
    pub(crate) window: ActWindow,
    pub(crate) deadline: u64,
}

/// A rank that has had no command, and has no refresh due.
pub(crate) static NEW_RANK: Rank = Rank {
    within: NOTHING,
    across: NOTHING,
    window: NO_ACTS,
    deadline: u64::MAX,
};

/// What is kept of the rows of a channel.
#[derive(Drop)]
pub(crate) struct Channel {
    pub(crate) banks: Vec<Bank>,
    pub(crate) groups: Vec<Group>,
    pub(crate) ranks: Vec<Rank>,
    ghost few: { length ranks.items ≤ 4 },
    ghost all_banks: { length banks.items ≡ 16 * length ranks.items },
    ghost all_groups: { length groups.items ≡ 4 * length ranks.items },
}

/// What is kept of the rows of a table: the last of them, and those of each channel.
#[derive(Drop)]
pub(crate) struct Past {
    pub(crate) last: Option<IssuedCommand>,
    pub(crate) channels: Vec<Channel>,
}
