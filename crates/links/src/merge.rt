//! Messages of several buffers, merged by age.

ghost use Rattle.std.specs.Prelude.{◌≡◌, ◌+◌, ◌&&◌, nat_lt, [], ◌++◌, length, fold, IfOk, OnOk, vec_len, vec_capacity};
ghost use Rattle.std.specs.List.{AllByRecursion};
ghost use Rattle.sim_base.specs.History.{insert_by_age};
ghost use Rattle.links.specs.Buffers.{contents, buffer_messages, IsByAge, HasSpace};

use crate::buffers::Buffer;
use sim_base::message::Message;
use std::alloc::{AllocError, Global};

/// Puts messages at the end of a list, which has room for them.
fn append_all(list: &mut Vec<Message>, messages: &[Message])
    requires { HasSpace list.old (length messages.now) }
    ensures items { list.new.items ≡ list.old.items ++ messages.now }
    ensures len { vec_len list.new ≡ vec_len list.old + length messages.now }
    ensures capacity { vec_capacity list.new ≡ vec_capacity list.old }
{
    for message in messages {
        list.push_reserved(*message);
    }
}

/// Whether something is left of both lists.
fn are_left(first: &[Message], i: usize, second: &[Message], j: usize) -> bool
    ensures { result ≡ (nat_lt i (length first.now) && nat_lt j (length second.now)) }
{
    i < first.len() && j < second.len()
}

/// Copies two lists by age into an empty one as one; of two messages of the same age the one of the first list goes
/// first.
fn merge_into(
    all: &mut Vec<Message>,
    first: &[Message],
    second: &[Message],
) -> Result<(), AllocError>
    requires empty { all.old.items ≡ [] }
    requires in_order { IsByAge second.now }
    ensures { OnOk result (all.new.items ≡ fold insert_by_age first.now second.now) }
{
    all.reserve(first.len() + second.len())?;
    let (mut i, mut j) = (0, 0);
    while are_left(first, i, second, j) {
        let (a, b) = (&first[i], &second[j]);
        if b.is_before(a) {
            all.push_reserved(*b);
            j += 1;
        } else {
            all.push_reserved(*a);
            i += 1;
        }
    }
    append_all(all, &first[i..]);
    append_all(all, &second[j..]);
    Ok(())
}

/// Two lists by age as one; of two messages of the same age the one of the first list goes first.
pub fn merged(
    alloc: Global,
    first: &[Message],
    second: &[Message],
) -> Result<Vec<Message>, AllocError>
    requires { IsByAge second.now }
    ensures { IfOk result (λ v. v.items ≡ fold insert_by_age first.now second.now) }
{
    let mut all = Vec::new(alloc);
    merge_into(&mut all, first, second)?;
    Ok(all)
}

/// What stands in several buffers, by age.
pub fn messages_of(alloc: Global, buffers: &[Buffer]) -> Result<Vec<Message>, AllocError>
    requires { AllByRecursion IsByAge (contents buffers.now) }
    ensures { IfOk result (λ v. v.items ≡ buffer_messages buffers.now) }
{
    match buffers {
        [] => Ok(Vec::new(alloc)),
        [buffer] => buffer.as_slice().to_vec(alloc),
        _ => {
            let (low, high) = buffers.split_at(buffers.len() / 2);
            let first = messages_of(alloc, low)?;
            let second = messages_of(alloc, high)?;
            merged(alloc, &first, &second)
        }
    }
}
