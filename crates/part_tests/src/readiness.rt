//! What is allowed after some commands, counted by hand from the distances of one profile.

ghost use Rattle.std.specs.Prelude.{◌≡◌, ◌+◌, ◌*◌, ◌<◌, IsTrue};
ghost use Rattle.bank_ready.specs.Stands.{rank_count};
ghost use Rattle.bank_ready.specs.Words.{names_bank};

use crate::expect::expect;
use bank_ready::banks::Banks;
use fixtures::small::{RANK_FIELD, small};
use sim_base::command::{Command, Kind, Source};
use sim_base::message::Cycle;
use sim_base::place::BankId;
use std::alloc::Global;
use std::process::Abort;
use timing::gap_table::GapTable;

/// The banks of two ranks, which take turns without a pause.
fn banks(rt: &impl Abort, alloc: Global, n_cwl: &str) -> Banks
    ensures { rank_count result ≡ 2 }
{
    let config = small(alloc, &[RANK_FIELD, n_cwl], "ranks = 2\n").expect(rt, "a machine");
    assert!(rt; config.ranks == 2, "two ranks");
    Banks::new(alloc, &config, &GapTable::of(&config)).expect(rt, "memory")
}

fn bank(rank: u32, group: u32, bank: u32) -> BankId
    ensures { result ≡ record { rank = rank; group = group; bank = bank } }
{
    BankId { rank, group, bank }
}

/// The earliest cycle of a command in a bank, which banks know by its number.
fn earliest(banks: &Banks, kind: Kind, bank: BankId) -> Cycle
    requires kind { IsTrue (names_bank kind) }
    requires bank { 16 * bank.rank + 4 * bank.group + bank.bank < 16 * rank_count banks.now }
    requires small { bank.rank < 4 }
{
    banks.earliest_in(kind, (16 * bank.rank + 4 * bank.group + bank.bank) as usize)
}

fn act(bank: BankId) -> Command
    ensures { result ≡ Command.Act bank 0 (record { core = 0; entry = 0 }) }
{
    Command::Act {
        bank,
        row: 0,
        source: Source { core: 0, entry: 0 },
    }
}

fn rd(bank: BankId) -> Command
    ensures { result ≡ Command.Rd bank 0 0 (record { core = 0; entry = 0 }) }
{
    Command::Rd {
        bank,
        row: 0,
        column: 0,
        source: Source { core: 0, entry: 0 },
    }
}

/// An ACT in cycle 2: 3 cycles to a RD, 8 to a PRE, 11 to an ACT of the same bank, 3 in its group, 2 in another. No
/// rule binds it to a REF.
fn act_holds_back_its_bank_group_and_rank(rt: &impl Abort, banks: &mut Banks)
    requires { rank_count banks.old ≡ 2 }
{
    banks.note(act(bank(0, 0, 0)), 2);
    let own = [
        earliest(banks, Kind::Rd, bank(0, 0, 0)),
        earliest(banks, Kind::Pre, bank(0, 0, 0)),
        earliest(banks, Kind::Act, bank(0, 0, 0)),
    ];
    let others = [
        earliest(banks, Kind::Act, bank(0, 0, 1)),
        earliest(banks, Kind::Act, bank(0, 1, 0)),
    ];
    let all = [
        banks.earliest_all(Kind::Prea, 0),
        banks.earliest_all(Kind::Ref, 0),
    ];
    expect(rt, &(own, others, all), &([5, 10, 13], [5, 4], [10, 0]));
}

/// Four ACTs in cycles 2 to 8: a fifth one in the rank comes 12 cycles after the first, and another rank is free.
fn fifth_act_waits_for_the_window(rt: &impl Abort, banks: &mut Banks)
    requires { rank_count banks.old ≡ 2 }
{
    banks.note(act(bank(0, 0, 0)), 2);
    banks.note(act(bank(0, 1, 0)), 4);
    banks.note(act(bank(0, 0, 1)), 6);
    let fourth = earliest(banks, Kind::Act, bank(0, 1, 1));
    banks.note(act(bank(0, 1, 1)), 8);
    let fifth = earliest(banks, Kind::Act, bank(0, 0, 2));
    let other = earliest(banks, Kind::Act, bank(1, 0, 2));
    expect(rt, &(fourth, fifth, other), &(8, 14, 0));
}

/// A RD in cycle 50: 4 cycles to a RD of another group, and 5 to a WR of another rank, are the least to any bank. An
/// ACT and a REF change neither.
fn floors_are_the_least_of_all_banks(rt: &impl Abort, banks: &mut Banks)
    requires { rank_count banks.old ≡ 2 }
{
    let at_first = banks.column_floor(Kind::Rd);
    banks.note(act(bank(0, 0, 0)), 2);
    let opened = banks.column_floor(Kind::Rd);
    banks.note(rd(bank(0, 0, 0)), 50);
    let done = (banks.column_floor(Kind::Rd), banks.column_floor(Kind::Wr));
    banks.note(Command::Ref { rank: 1 }, 52);
    let refreshed = (banks.column_floor(Kind::Rd), banks.column_floor(Kind::Wr));
    expect(
        rt,
        &(at_first, opened, done, refreshed),
        &(0, 0, (54, 55), (54, 55)),
    );
}

/// Where a write's data begins so late that the distance between ranks is 0, the earlier command still holds the later
/// one back in its own cycle.
fn distance_of_no_cycles_holds_back_too(rt: &impl Abort, banks: &mut Banks)
    requires { rank_count banks.old ≡ 2 }
{
    banks.note(rd(bank(0, 0, 0)), 50);
    expect(rt, &earliest(banks, Kind::Wr, bank(1, 0, 0)), &50);
}

#[test]
fn commands_hold_others_back(rt: HostRuntime) {
    let alloc = rt.alloc();
    act_holds_back_its_bank_group_and_rank(&rt, &mut banks(&rt, alloc, "nCWL = 3"));
    fifth_act_waits_for_the_window(&rt, &mut banks(&rt, alloc, "nCWL = 3"));
    floors_are_the_least_of_all_banks(&rt, &mut banks(&rt, alloc, "nCWL = 3"));
    distance_of_no_cycles_holds_back_too(&rt, &mut banks(&rt, alloc, "nCWL = 8"));
}
