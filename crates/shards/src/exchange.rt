//! Messages between shards.

ghost use Rattle.std.specs.Prelude.{◌≡◌, ◌<◌, ◌≤◌, ℕ, suc, length, slice_index_or, OnOk, IfOk};
ghost use Rattle.std.specs.declared.vec.Vec.{Vec};
ghost use Rattle.std.specs.declared.alloc.Global.{Global};
ghost use Rattle.sim_base.specs.declared.message.Message.{Message};
ghost use Rattle.shards.specs.Lists.{AllEmpty, AreSortedByShard, AreTurned, GainOne, HaveListsAt, AreListsAt, IsSquare, SameElsewhere, SameOtherLists, SameWidths, bound};
ghost use Rattle.shards.specs.Shards.{IsSplit};

use sim_base::config::Config;
use sim_base::message::Message;
use std::alloc::{AllocError, Global};
use std::mem;
use units::words::receiver_place;

/// The shard that has the unit at a place.
fn shard_at(bounds: &[usize], place: usize) -> usize
    requires some { 1 < length bounds.now }
    requires begins { bound bounds.now 0 ≤ place }
    requires ends { (index : ℕ) → suc index ≡ length bounds.now → place < bound bounds.now index }
    ensures exists { suc result < length bounds.now }
    ensures since { bound bounds.now result ≤ place }
    ensures before { place < bound bounds.now (suc result) }
{
    let mut shard = 0;
    for next in 1..bounds.len() - 1 {
        if bounds[next] <= place {
            shard = next;
        }
    }
    shard
}

/// Puts a message behind those that go to the same shard. One that goes to no unit is left out.
fn put_by_shard(
    config: &Config,
    bounds: &[usize],
    message: &Message,
    lists: &mut [Vec<Message>],
) -> Result<(), AllocError>
    requires split { IsSplit config.now bounds.now }
    requires count { suc (length lists.old) ≡ length bounds.now }
    ensures count { length lists.new ≡ length lists.old }
    ensures each { OnOk result (GainOne config.now bounds.now message.now lists.old lists.new) }
{
    if let Some(place) = receiver_place(config, message.link) {
        lists[shard_at(bounds, place)].push(*message)?;
    }
    Ok(())
}

/// Sorts messages into lists, one for each shard, by the unit that each goes to.
pub(crate) fn sort_by_shard(
    config: &Config,
    bounds: &[usize],
    sent: &[Message],
    lists: &mut [Vec<Message>],
) -> Result<(), AllocError>
    requires split { IsSplit config.now bounds.now }
    requires count { suc (length lists.old) ≡ length bounds.now }
    requires empty { AllEmpty lists.old }
    ensures count { length lists.new ≡ length lists.old }
    ensures each { OnOk result (AreSortedByShard config.now bounds.now sent.now lists.new) }
{
    for message in sent {
        put_by_shard(config, bounds, message, lists)?;
    }
    Ok(())
}

/// Takes a list out of a row, and leaves an empty one.
fn taken(alloc: Global, row: &mut [Vec<Message>], index: usize) -> Vec<Message>
    requires { index < length row.old }
    ensures count { length row.new ≡ length row.old }
    ensures others { SameElsewhere index row.old row.new }
    ensures taken { (d : Vec Message Global) → result ≡ slice_index_or row.old index d }
{
    mem::replace(&mut row[index], Vec::new(alloc))
}

/// Takes the list at an index out of each row.
fn column(
    alloc: Global,
    rows: &mut [Vec<Vec<Message>>],
    index: usize,
) -> Result<Vec<Vec<Message>>, AllocError>
    requires { HaveListsAt index rows.old }
    ensures count { length rows.new ≡ length rows.old }
    ensures widths { SameWidths rows.old rows.new }
    ensures others { SameOtherLists index rows.old rows.new }
    ensures height { IfOk result (λ column. length column.items ≡ length rows.old) }
    ensures each { IfOk result (λ column. AreListsAt index rows.old column.items) }
{
    let mut column = Vec::with_capacity(alloc, rows.len())?;
    for row in rows.iter_mut() {
        column.push(taken(alloc, row, index))?;
    }
    Ok(column)
}

/// What was sent, by receiver and then by sender, of what stands by sender and then by receiver.
pub(crate) fn by_receiver(
    alloc: Global,
    rows: Vec<Vec<Vec<Message>>>,
) -> Result<Vec<Vec<Vec<Message>>>, AllocError>
    requires square { IsSquare (length rows.items) rows.items }
    ensures count { IfOk result (λ columns. length columns.items ≡ length rows.items) }
    ensures square { IfOk result (λ columns. IsSquare (length rows.items) columns.items) }
    ensures each { IfOk result (λ columns. AreTurned rows.items columns.items) }
{
    let mut rows = rows;
    let mut columns = Vec::with_capacity(alloc, rows.len())?;
    for index in 0..rows.len() {
        columns.push(column(alloc, &mut rows, index)?)?;
    }
    Ok(columns)
}
