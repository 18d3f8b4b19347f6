//! Messages by age.

ghost use Rattle.std.specs.Prelude.{◌≡◌, ◌≤◌, length, filter, fold, IfOk, OnOk};
ghost use Rattle.sim_base.specs.History.{is_to, place_by_age, insert_by_age};

use sim_base::config::Config;
use sim_base::message::{Message, Unit};
use std::alloc::{AllocError, Global};

pub fn is_for(s: &Config, unit: Unit, m: Message) -> bool
    ensures { result ≡ is_to s.now unit m }
{
    let channels = u64::from(s.channels);
    if m.link % 3 == 0 {
        match unit {
            Unit::Channel(channel) => m.link / 3 % channels == u64::from(channel),
            Unit::Core(_) => false,
        }
    } else {
        match unit {
            Unit::Core(core) => m.link / 3 / channels == u64::from(core),
            Unit::Channel(_) => false,
        }
    }
}

#[tactic(auto, unfolding(sim_base::specs::History::place_by_age))]
fn place_in_order(m: Message, sorted: &[Message]) -> usize
    ensures value { result ≡ place_by_age m sorted.now }
    ensures small { result ≤ length sorted.now }
{
    sorted.iter().take_while(move |n| !m.is_before(n)).count()
}

/// Puts a message into its place by age.
pub fn insert(mail: &mut Vec<Message>, m: Message) -> Result<(), AllocError>
    ensures { OnOk result (mail.new.items ≡ insert_by_age mail.old.items m) }
{
    let place = place_in_order(m, mail);
    mail.insert(place, m)?;
    Ok(())
}

/// Puts messages into their places by age.
pub fn insert_all(mail: &mut Vec<Message>, more: &[Message]) -> Result<(), AllocError>
    ensures { OnOk result (mail.new.items ≡ fold insert_by_age mail.old.items more.now) }
{
    for m in more {
        insert(mail, *m)?;
    }
    Ok(())
}

/// The messages to a unit.
pub fn messages_to(
    alloc: Global,
    s: &Config,
    unit: Unit,
    messages: &[Message],
) -> Result<Vec<Message>, AllocError>
    ensures { IfOk result (λ v. v.items ≡ filter (is_to s.now unit) messages.now) }
{
    messages
        .iter()
        .copied()
        .filter(move |m| is_for(s, unit, *m))
        .collect(alloc)
}
