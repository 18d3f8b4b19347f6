//! Messages in flight, by age, of one kind to one unit.

ghost use Rattle.std.specs.Prelude.{◌≡◌, ◌+◌, ◌<◌, ◌≤◌, [], length, drop, ◌↔◌, IsTrue, OnOk, true, false};
ghost use Rattle.std.specs.List.{prefix_len};
ghost use Rattle.sim_base.specs.History.{insert_by_age};
ghost use Rattle.links.specs.InFlight.{arrives_before, first_arrival};
ghost use Rattle.links.specs.Buffers.{empty_buffer, IsByAge, due_of, GoesBehind, HasYoungerBefore, NoneYoungerBefore, IsInserted, is_last_due, is_younger_last};
ghost use Rattle.links.specs.declared.buffers.Placed.TheVariants as Placed;

use sim_base::message::{Cycle, Message};
use std::alloc::{AllocError, Global};
use std::marker::Model;

/// The least room that is made behind the messages of a buffer.
const FEW: usize = 32;

/// The requests in flight to a channel, or the replies, or the credits, in flight to a core, by age. They stand side by
/// side, so that those that are due can be read where they stand.
///
/// Contracts see the messages, and how many there is room for until messages have to be moved.
#[derive(Drop)]
pub struct Buffer {
    places: Vec<Message>,
    /// How many places stand free before the first message: those of the messages that were taken out. Where no message
    /// is left, none is free.
    free: usize,
    ghost within: { free ≤ length places.items },
    ghost none_free: { free ≡ length places.items → free ≡ 0 },
}

impl Model for Buffer {
    ghost use Rattle.std.specs.Prelude.{◌-◌, drop, vec_capacity};
    ghost use Rattle.links.specs.Buffers.{Buffered};

    ghost Value = { Buffered };

    ghost view = { λ b. record {
      items = drop b.free b.places.items;
      capacity = vec_capacity b.places - b.free;
    } };
}

/// Whether the message before a place is younger than this one.
fn is_younger_before(messages: &[Message], place: usize, message: &Message) -> bool
    requires { place ≤ length messages.now }
    ensures some { result ≡ true → HasYoungerBefore messages.now place message.now }
    ensures none { result ≡ false → NoneYoungerBefore messages.now place message.now }
{
    place > 0 && message.is_before(&messages[place - 1])
}

/// Puts a message among others by age, of which the last is younger and stands twice. Its place is searched for from
/// the back: each younger one moves back by one place.
fn insert_from_back(messages: &mut [Message], message: &Message)
    requires { 2 ≤ length messages.old }
    ensures inserted { IsInserted message.now messages.old messages.new }
    ensures length { length messages.new ≡ length messages.old }
{
    let mut place = messages.len() - 2;
    'searching: while is_younger_before(messages, place, message) {
        messages[place] = messages[place - 1];
        place -= 1;
    }
    messages[place] = *message;
}

/// Where a message was put among those of its buffer.
#[derive(Clone, Copy)]
pub enum Placed {
    /// Where it may be the next one that arrives.
    MayBeNext,
    /// Behind one that arrives no later.
    Behind,
}

/// Where a message is put that goes behind all of a list.
fn placed_last(messages: &[Message]) -> Placed
    ensures { (result ≡ Placed.Behind) ↔ (0 < length messages.now) }
{
    if messages.is_empty() {
        Placed::MayBeNext
    } else {
        Placed::Behind
    }
}

/// How many messages at the head of a list arrive before a cycle.
fn count_before(messages: &[Message], until: Cycle) -> usize
    ensures count { result ≡ prefix_len (arrives_before until) messages.now }
    ensures within { result ≤ length messages.now }
{
    messages
        .iter()
        .take_while(|message| message.arrival < until)
        .count()
}

/// Whether the last message of a list arrives before a cycle.
fn is_last_due(messages: &[Message], until: Cycle) -> bool
    ensures { result ≡ is_last_due until messages.now }
{
    messages.last().is_some_and(|last| last.arrival < until)
}

/// Whether a message goes before the last one of a list.
fn is_before_last(messages: &[Message], message: &Message) -> bool
    ensures { result ≡ is_younger_last message.now messages.now }
{
    messages.last().is_some_and(|last| message.is_before(last))
}

impl Buffer {
    /// A buffer that holds nothing, and has no room.
    pub fn new(alloc: Global) -> Buffer
        ensures { result ≡ empty_buffer }
    {
        Buffer {
            places: Vec::new(alloc),
            free: 0,
        }
    }

    /// The messages.
    #[inline(always)]
    pub fn as_slice(&self) -> &[Message]
        ensures { result.now ≡ self.now.items }
    {
        &self.places[self.free..]
    }

    /// Whether there is room for `more` further messages.
    #[inline(always)]
    pub fn has_room(&self, more: usize) -> bool
        ensures { IsTrue result ↔ (length self.now.items + more ≤ self.now.capacity) }
    {
        more <= self.places.capacity() - self.places.len()
    }

    /// The first message moves to the first place, and the others behind it.
    fn close_up(&mut self)
        ensures items { self.new.items ≡ self.old.items }
        ensures capacity { self.old.capacity ≤ self.new.capacity }
    {
        let len = self.places.len();
        let left = len - self.free;
        self.places.copy_within(self.free..len, 0);
        self.places.truncate(left);
        self.free = 0;
    }

    /// Makes room for `more` further messages.
    pub fn make_room(&mut self, more: usize) -> Result<(), AllocError>
        ensures items { self.new.items ≡ self.old.items }
        ensures capacity { self.old.capacity ≤ self.new.capacity }
        ensures room { OnOk result (length self.old.items + more ≤ self.new.capacity) }
    {
        if self.has_room(more) {
            return Ok(());
        }
        self.close_up();
        // at least half as much as it holds, so that few messages are moved for each that comes
        let half = self.places.len() / 2;
        self.places.reserve(more.max(half).max(FEW))
    }

    /// Puts a message that goes before the last one into its place by age.
    #[cold]
    #[inline(never)]
    fn put_among(&mut self, message: &Message)
        requires room { length self.old.items < self.old.capacity }
        requires in_order { IsByAge self.old.items }
        requires younger { is_younger_last message.now self.old.items ≡ true }
        ensures items { self.new.items ≡ insert_by_age self.old.items message.now }
        ensures capacity { self.new.capacity ≡ self.old.capacity }
    {
        let last = self.places[self.places.len() - 1];
        self.places.push_reserved(last);
        insert_from_back(&mut self.places[self.free..], message);
    }

    /// Puts a message into its place by age, which is the last one unless a younger one stands there. Places that are
    /// free stand before all messages, so that the last place is that of the last message. Tells whether it went
    /// behind another one.
    #[inline(always)]
    pub fn put_by_age(&mut self, message: &Message) -> Placed
        requires room { length self.old.items < self.old.capacity }
        requires in_order { IsByAge self.old.items }
        ensures items { self.new.items ≡ insert_by_age self.old.items message.now }
        ensures capacity { self.new.capacity ≡ self.old.capacity }
        ensures behind { (result ≡ Placed.Behind) ↔ GoesBehind message.now self.old.items }
    {
        if is_before_last(&self.places, message) {
            self.put_among(message);
            return Placed::MayBeNext;
        }
        let placed = placed_last(&self.places);
        self.places.push_reserved(*message);
        placed
    }

    /// When the first message arrives.
    #[inline(always)]
    pub fn first_arrival(&self) -> Option<Cycle>
        ensures { result ≡ first_arrival self.now.items }
    {
        self.as_slice().first().map(|message| message.arrival)
    }

    /// The messages that arrive before a cycle.
    #[inline(always)]
    pub fn due_before(&self, until: Cycle) -> &[Message]
        requires { IsByAge self.now.items }
        ensures { result.now ≡ due_of until self.now.items }
    {
        let messages = self.as_slice();
        // they stand by age: mostly all of them are due
        if is_last_due(messages, until) {
            return messages;
        }
        &messages[..count_before(messages, until)]
    }

    /// Takes out the first messages, and gives the arrival of the next one.
    #[inline(always)]
    pub fn drop_first(&mut self, count: usize) -> Option<Cycle>
        requires { count ≤ length self.old.items }
        ensures rest { self.new.items ≡ drop count self.old.items }
        ensures next { result ≡ first_arrival self.new.items }
    {
        self.free += count;
        let Some(next) = self.places.get(self.free) else {
            self.places.clear();
            self.free = 0;
            return None;
        };
        Some(next.arrival)
    }
}
