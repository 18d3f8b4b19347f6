//! Commands and replies that are held until they are taken: they join at the end, and are taken from the front.

ghost use Rattle.std.specs.Prelude.{◌≡◌, ◌+◌, ◌/◌, ◌≤◌, ◌&&◌, drop, length, nat_le, slice_get, option_to_list, ◌++◌, Some, IfOk, IfSome, OnOk, OnErr, []};
ghost use Rattle.sessions.specs.Held.{commands_left, HasCommands};

use circular_buffer::HeapCircularBuffer;
use command_table::list::CommandList;
use sim_base::command::IssuedCommand;
use sim_base::message::Message;
use std::alloc::{AllocError, Global};
use std::mem;

/// Commands that were issued: those before a place were taken.
#[derive(Drop)]
pub(crate) struct HeldCommands {
    pub(crate) all: CommandList,
    pub(crate) taken: usize,
}

/// Replies and credits that were sent and not taken, from the first on.
#[derive(Drop)]
pub(crate) struct HeldReplies {
    pub(crate) all: HeapCircularBuffer<Message>,
}

/// Whether so many of all rows are taken that the list is to forget them: 1,024 at least, and half of all.
fn are_most(taken: usize, all: usize) -> bool
    ensures { result ≡ (nat_le 1024 taken && nat_le (all / 2) taken) }
{
    1024 <= taken && all / 2 <= taken
}

/// Puts a command behind the others, if there is one. The only error is out of memory.
fn put_command(rest: &mut CommandList, row: Option<IssuedCommand>) -> Result<(), AllocError>
    ensures { OnOk result (rest.new ≡ rest.old ++ option_to_list row) }
{
    match row {
        Some(row) => rest.push(row),
        None => Ok(()),
    }
}

/// The commands of a list from a place on. The only error is out of memory.
fn commands_from(alloc: Global, list: &CommandList, from: usize) -> Result<CommandList, AllocError>
    ensures { IfOk result (λ rest. rest ≡ drop from list.now) }
{
    let mut rest = CommandList::new(alloc);
    for place in from..list.len() {
        put_command(&mut rest, list.get(place))?;
    }
    Ok(rest)
}

impl HeldCommands {
    /// None yet.
    pub(crate) fn new(alloc: Global) -> HeldCommands
        ensures none { commands_left result ≡ [] }
        ensures within { HasCommands result }
    {
        HeldCommands {
            all: CommandList::new(alloc),
            taken: 0,
        }
    }

    /// The first that was not taken, if there is one.
    pub(crate) fn first(&self) -> Option<IssuedCommand>
        ensures { result ≡ slice_get (commands_left self.now) 0 }
    {
        self.all.get(self.taken)
    }

    /// Takes the first that was not taken, if there is one.
    pub(crate) fn take_next(&mut self) -> Option<IssuedCommand>
        ensures next { result ≡ slice_get (commands_left self.old) 0 }
        ensures front { commands_left self.old ≡ option_to_list result ++ commands_left self.new }
        ensures within { HasCommands self.old → HasCommands self.new }
    {
        let place = self.taken;
        if self.all.len() <= place {
            return None;
        }
        self.taken = place + 1;
        self.all.get(place)
    }

    /// Hands the list out, so that commands can be put behind the others in it.
    pub(crate) fn hand_out(&mut self, alloc: Global) -> Option<CommandList>
        ensures list { result ≡ Some self.old.all }
        ensures taken { self.new.taken ≡ self.old.taken }
    {
        Some(mem::replace(&mut self.all, CommandList::new(alloc)))
    }

    /// Takes a list back, if there is one.
    pub(crate) fn take_back(&mut self, list: Option<CommandList>)
        ensures list { IfSome list (λ all. self.new.all ≡ all) }
        ensures taken { self.new.taken ≡ self.old.taken }
    {
        if let Some(all) = list {
            self.all = all;
        }
    }

    /// Forgets what was taken, where it is most of many. The only error is out of memory.
    pub(crate) fn forget_taken(&mut self, alloc: Global) -> Result<(), AllocError>
        ensures left { OnOk result (commands_left self.new ≡ commands_left self.old) }
        ensures within { HasCommands self.old → OnOk result (HasCommands self.new) }
    {
        if are_most(self.taken, self.all.len()) {
            self.all = commands_from(alloc, &self.all, self.taken)?;
            self.taken = 0;
        }
        Ok(())
    }
}

impl HeldReplies {
    /// None yet. The only error is out of memory.
    pub(crate) fn new(alloc: Global) -> Result<HeldReplies, AllocError>
        ensures { IfOk result (λ held. held.all.items ≡ []) }
    {
        let all = HeapCircularBuffer::with_capacity(alloc, 0)?;
        Ok(HeldReplies { all })
    }

    /// The first that was not taken, if there is one.
    pub(crate) fn first(&self) -> Option<Message>
        ensures { result ≡ slice_get self.now.all.items 0 }
    {
        self.all.front().copied()
    }

    /// Takes the first that was not taken, if there is one.
    pub(crate) fn take_next(&mut self) -> Option<Message>
        ensures next { result ≡ slice_get self.old.all.items 0 }
        ensures front { self.old.all.items ≡ option_to_list result ++ self.new.all.items }
    {
        self.all.pop_front()
    }

    /// Makes room for `more` further ones. Where it grows, it at least doubles, so that few are moved. The only error is
    /// out of memory.
    fn make_room(&mut self, more: usize) -> Result<(), AllocError>
        ensures items { self.new.all.items ≡ self.old.all.items }
        ensures room { OnOk result (length self.old.all.items + more ≤ self.new.all.capacity) }
    {
        let capacity = self.all.capacity();
        let needed = self.all.len().checked_add(more).ok_or(AllocError)?;
        if needed <= capacity {
            return Ok(());
        }
        self.all.resize(needed.max(2 * capacity))
    }

    /// Puts what was sent behind the others. The only error is out of memory.
    pub(crate) fn put(&mut self, sent: &[Message]) -> Result<(), AllocError>
        ensures put { OnOk result (self.new.all.items ≡ self.old.all.items ++ sent.now) }
        ensures same { OnErr result (self.new.all.items ≡ self.old.all.items) }
    {
        self.make_room(sent.len())?;
        // there is room for all of them
        let _count = self.all.fill_from_slice(sent);
        Ok(())
    }
}
