//! The messages in flight.

ghost use Rattle.std.specs.Prelude.{◌≡◌, ◌+◌, ◌<◌, ◌^◌, ◌≤◌, nat_lt, [], ◌∷◌, length, drop, slice_set, fold, ◌==◌, true, false, ◌↔◌, IsTrue, IsNone, IfSome, IfOk, OnOk, OnErr, IsOkAnd};
ghost use Rattle.sim_base.specs.History.{insert_by_age};
ghost use Rattle.sim_base.specs.declared.message.Unit.{Unit as MachineUnit};
ghost use Rattle.std.specs.List.{list_all, list_any};
ghost use Rattle.std.specs.List.Sorted.{IsPermutation};
ghost use Rattle.links.specs.InFlight.{nothing_in_flight, with_sent, due_before, without_due, in_flight_to, first_arrival, NoneArrivesBefore, SomeAt};
ghost use Rattle.links.specs.Buffers.{buffer_of, number_of_replies, in_buffer, due_in_buffer, without_due_in, replies_due, credits_due, contents, buffer_messages, buffer_messages_at, IsByAge, GoesBehind, GoesBehindInFlight, earlier_arrival, due_in, AreBuffers, HasRoom, HaveRoomForAll, AreNumbers, HasBufferNumbers, AreCounts, IsOneMore, HaveCountedRoom, CanTakeUp, HoldSame, HaveGained, JoinAlike, Grows};
ghost use Rattle.links.specs.declared.buffers.Placed.TheVariants as Placed;

use crate::buffers::{Buffer, Placed};
use crate::merge::messages_of;
use sim_base::config::Config;
use sim_base::message::{ChannelId, CoreId, Cycle, LinkId, Message, earlier};
use std::alloc::{AllocError, Global};
use std::marker::Model;

/// Up to this many messages are put into a buffer in the order in which they come; more are worth a sort, since each
/// goes before those of them that arrive later. Where there are more in all, those that go to each buffer are counted.
const FEW_MESSAGES: usize = 64;

/// The numbers of the buffers are kept for at most this many links.
const MOST_NUMBERS: u64 = 16_384;

/// The messages in flight on the links of a machine.
///
/// Contracts see them by age, that is by arrival and then by link, with the number of channels, which says where a link
/// leads.
#[derive(Drop)]
pub struct Links {
    alloc: Global,
    channels: u16,
    /// The number of the buffer of each of the first links: to look it up takes less time than to compute it.
    numbers: Vec<usize>,
    /// A buffer for each channel and then two for each core, of replies and of credits, as far as messages have been
    /// sent to them. A core's credits overtake replies in flight; in buffers of their own nearly every message joins at
    /// the back.
    buffers: Vec<Buffer>,
}

impl Model for Links {
    ghost use Rattle.links.specs.InFlight.{InFlight};
    ghost use Rattle.links.specs.Buffers.{buffer_messages, AreInBuffers};

    ghost Value = { InFlight };

    ghost view = { λ l. record { channels = l.channels; messages = buffer_messages l.buffers.items } };

    ghost invariant = { λ l. AreInBuffers l.channels l.numbers.items l.buffers.items };
}

/// The number of the buffer of a link's messages.
#[cold]
#[inline(never)]
fn buffer_of_link(channels: u16, link: LinkId) -> usize
    requires { 0 < channels }
    ensures number { result ≡ buffer_of channels link }
    ensures small { result + 1 < 2 ^ 64 }
{
    let pair = link / 3;
    let kind = link % 3;
    if kind == 0 {
        (pair % u64::from(channels)) as usize
    } else {
        usize::from(channels) + 2 * (pair / u64::from(channels)) as usize + (kind - 1) as usize
    }
}

/// The numbers of the buffers of the first `links` links, or of fewer where memory is refused.
fn numbers_of(alloc: Global, channels: u16, links: u64) -> Vec<usize>
    requires { 0 < channels }
    ensures { AreNumbers channels result.items }
{
    let mut numbers = Vec::new(alloc);
    for link in 0..links {
        if numbers.push(buffer_of_link(channels, link)).is_err() {
            return numbers;
        }
    }
    numbers
}

/// The number of the buffer of a link's messages, by the numbers of the first links.
fn number_of(numbers: &[usize], channels: u16, link: LinkId) -> usize
    requires { HasBufferNumbers channels numbers.now }
    ensures number { result ≡ buffer_of channels link }
    ensures small { result + 1 < 2 ^ 64 }
{
    match numbers.get(link as usize) {
        Some(number) => *number,
        None => buffer_of_link(channels, link),
    }
}

/// The number of a core's buffer of replies, behind which its buffer of credits stands.
fn replies_number(channels: u16, core: CoreId) -> usize
    ensures number { result ≡ number_of_replies channels core }
    ensures small { result + 1 < 2 ^ 64 }
{
    usize::from(channels) + 2 * usize::from(core)
}

/// Makes buffers until there are `count` of them.
fn make_buffers(alloc: Global, buffers: &mut Vec<Buffer>, count: usize) -> Result<(), AllocError>
    ensures grows { Grows buffers.old.items buffers.new.items }
    ensures count { OnOk result (count ≤ length buffers.new.items) }
{
    while buffers.len() < count {
        buffers.push(Buffer::new(alloc))?;
    }
    Ok(())
}

/// Whether a buffer exists and has room for `more` further messages.
fn has_room(buffers: &[Buffer], number: usize, more: usize) -> bool
    ensures { IsTrue result ↔ HasRoom buffers.now number more }
{
    match buffers.get(number) {
        Some(buffer) => buffer.has_room(more),
        None => false,
    }
}

/// Makes a buffer if it does not exist, and room in it for `more` further messages.
#[cold]
#[inline(never)]
fn make_buffer_with_room(
    alloc: Global,
    buffers: &mut Vec<Buffer>,
    number: usize,
    more: usize,
) -> Result<(), AllocError>
    requires { number + 1 < 2 ^ 64 }
    ensures grows { Grows buffers.old.items buffers.new.items }
    ensures room { OnOk result (HasRoom buffers.new.items number more) }
{
    make_buffers(alloc, buffers, number + 1)?;
    buffers[number].make_room(more)
}

/// Makes room in a buffer for `more` further messages, where there is too little.
fn make_room_at(
    alloc: Global,
    buffers: &mut Vec<Buffer>,
    number: usize,
    more: usize,
) -> Result<(), AllocError>
    requires { number + 1 < 2 ^ 64 }
    ensures grows { Grows buffers.old.items buffers.new.items }
    ensures room { OnOk result (HasRoom buffers.new.items number more) }
{
    if !has_room(buffers, number, more) {
        make_buffer_with_room(alloc, buffers, number, more)?;
    }
    Ok(())
}

/// Whether there is room for all messages in each buffer that one of them goes to.
fn is_room_for(buffers: &[Buffer], numbers: &[usize], channels: u16, messages: &[Message]) -> bool
    requires { HasBufferNumbers channels numbers.now }
    ensures { IsTrue result → HaveRoomForAll channels buffers.now messages.now }
{
    for message in messages {
        let number = number_of(numbers, channels, message.link);
        if !has_room(buffers, number, messages.len()) {
            return false;
        }
    }
    true
}

/// Makes room for all messages in each buffer that one of them goes to.
#[cold]
#[inline(never)]
fn make_room_for_all(
    alloc: Global,
    buffers: &mut Vec<Buffer>,
    numbers: &[usize],
    channels: u16,
    messages: &[Message],
) -> Result<(), AllocError>
    requires { HasBufferNumbers channels numbers.now }
    ensures grows { Grows buffers.old.items buffers.new.items }
    ensures room { OnOk result (HaveRoomForAll channels buffers.new.items messages.now) }
{
    for message in messages {
        let number = number_of(numbers, channels, message.link);
        make_room_at(alloc, buffers, number, messages.len())?;
    }
    Ok(())
}

/// Adds one to the count at a number. Counts that do not exist yet are 0.
fn count_one(counts: &mut Vec<usize>, number: usize) -> Result<(), AllocError>
    requires { number + 1 < 2 ^ 64 }
    ensures { OnOk result (IsOneMore number counts.old.items counts.new.items) }
{
    while counts.len() <= number {
        counts.push(0)?;
    }
    counts[number] = counts[number].checked_add(1).ok_or(AllocError)?;
    Ok(())
}

/// How many messages go to each buffer, by its number.
fn count_by_buffer(
    alloc: Global,
    numbers: &[usize],
    channels: u16,
    messages: &[Message],
) -> Result<Vec<usize>, AllocError>
    requires { HasBufferNumbers channels numbers.now }
    ensures { IfOk result (λ counts. AreCounts channels messages.now counts.items) }
{
    let mut counts = Vec::new(alloc);
    for message in messages {
        count_one(&mut counts, number_of(numbers, channels, message.link))?;
    }
    Ok(counts)
}

/// Makes room in each buffer for as many further messages as its count says.
fn make_counted_room(
    alloc: Global,
    buffers: &mut Vec<Buffer>,
    counts: &[usize],
) -> Result<(), AllocError>
    ensures grows { Grows buffers.old.items buffers.new.items }
    ensures room { OnOk result (HaveCountedRoom buffers.new.items counts.now) }
{
    for number in 0..counts.len() {
        make_room_at(alloc, buffers, number, counts[number])?;
    }
    Ok(())
}

/// Makes room for messages in the buffers that they go to: for a few, each buffer gets room for all of them, which is
/// quickly checked; for many, each gets room for its own.
fn make_room_for(
    alloc: Global,
    buffers: &mut Vec<Buffer>,
    numbers: &[usize],
    channels: u16,
    messages: &[Message],
) -> Result<(), AllocError>
    requires { HasBufferNumbers channels numbers.now }
    ensures grows { Grows buffers.old.items buffers.new.items }
    ensures room { OnOk result (CanTakeUp channels buffers.new.items messages.now) }
{
    if messages.len() > FEW_MESSAGES {
        let counts = count_by_buffer(alloc, numbers, channels, messages)?;
        make_counted_room(alloc, buffers, &counts)?;
        return Ok(());
    }
    if !is_room_for(buffers, numbers, channels, messages) {
        make_room_for_all(alloc, buffers, numbers, channels, messages)?;
    }
    Ok(())
}

/// The number of a buffer, unless a message was put behind another one in it.
#[inline(always)]
fn unless_behind(placed: Placed, number: usize) -> Option<usize>
    ensures number { IfSome result (λ n. n ≡ number) }
    ensures behind { IsNone result ↔ (placed ≡ Placed.Behind) }
{
    match placed {
        Placed::MayBeNext => Some(number),
        Placed::Behind => None,
    }
}

/// Puts a message into the buffer that it goes to, for which room is made, and gives the number of that buffer; none,
/// where it went behind another one. Where memory is refused, the same messages stand in the buffers as before.
#[inline(always)]
fn put_one(
    alloc: Global,
    buffers: &mut Vec<Buffer>,
    numbers: &[usize],
    channels: u16,
    message: &Message,
) -> Result<Option<usize>, AllocError>
    requires numbers { HasBufferNumbers channels numbers.now }
    requires buffers { AreBuffers channels 0 (contents buffers.old.items) }
    ensures number { IfOk result (λ placed.
        IfSome placed (λ number. number ≡ buffer_of channels message.now.link)) }
    ensures behind { IfOk result (λ placed. IsNone placed ↔ GoesBehind message.now
        (buffer_messages_at buffers.old.items (buffer_of channels message.now.link))) }
    ensures buffers { AreBuffers channels 0 (contents buffers.new.items) }
    ensures ok { OnOk result (HaveGained buffers.old.items buffers.new.items (message.now ∷ [])) }
    ensures err { OnErr result (HoldSame buffers.old.items buffers.new.items) }
{
    let number = number_of(numbers, channels, message.link);
    make_room_at(alloc, buffers, number, 1)?;
    let placed = buffers[number].put_by_age(message);
    Ok(unless_behind(placed, number))
}

/// Puts messages into the buffers that they go to, which have room for them.
fn put_all(buffers: &mut Vec<Buffer>, numbers: &[usize], channels: u16, messages: &[Message])
    requires numbers { HasBufferNumbers channels numbers.now }
    requires buffers { AreBuffers channels 0 (contents buffers.old.items) }
    requires room { CanTakeUp channels buffers.old.items messages.now }
    ensures buffers { AreBuffers channels 0 (contents buffers.new.items) }
    ensures messages { HaveGained buffers.old.items buffers.new.items messages.now }
{
    for message in messages {
        let number = number_of(numbers, channels, message.link);
        buffers[number].put_by_age(message);
    }
}

/// Puts messages in order of arrival, in which nearly every one joins its buffer at the back. Those that arrive
/// together stay in order, so that all end up in the buffers where they would have been.
fn sort_by_arrival(alloc: Global, messages: &mut [Message]) -> Result<(), AllocError>
    ensures same { IsPermutation messages.old messages.new }
    ensures puts { JoinAlike messages.old messages.new }
{
    messages.sort_by_key(alloc, |message| message.arrival)
}

/// Whether more than a few messages go to some buffer.
fn is_any_busy(counts: &[usize]) -> bool
    ensures { result ≡ list_any (nat_lt FEW_MESSAGES) counts.now }
{
    counts.iter().any(|count| *count > FEW_MESSAGES)
}

/// Puts messages in the order in which they are to be put into the buffers: by arrival, where more than a few of them go
/// to one buffer, and otherwise in that in which they come.
#[inline(always)]
fn put_in_order(
    alloc: Global,
    numbers: &[usize],
    channels: u16,
    messages: &mut [Message],
) -> Result<(), AllocError>
    requires { HasBufferNumbers channels numbers.now }
    ensures same { IsPermutation messages.old messages.new }
    ensures puts { JoinAlike messages.old messages.new }
{
    if messages.len() <= FEW_MESSAGES {
        return Ok(());
    }
    let counts = count_by_buffer(alloc, numbers, channels, messages)?;
    if is_any_busy(&counts) {
        sort_by_arrival(alloc, messages)?;
    }
    Ok(())
}

/// Puts messages into the buffers that they go to; they may change places. Where memory is refused, the same messages
/// stand in the buffers as before.
#[inline(always)]
fn take_up(
    alloc: Global,
    buffers: &mut Vec<Buffer>,
    numbers: &[usize],
    channels: u16,
    messages: &mut [Message],
) -> Result<(), AllocError>
    requires numbers { HasBufferNumbers channels numbers.now }
    requires buffers { AreBuffers channels 0 (contents buffers.old.items) }
    ensures buffers { AreBuffers channels 0 (contents buffers.new.items) }
    ensures same { IsPermutation messages.old messages.new }
    ensures ok { OnOk result (HaveGained buffers.old.items buffers.new.items messages.old) }
    ensures err { OnErr result (HoldSame buffers.old.items buffers.new.items) }
{
    put_in_order(alloc, numbers, channels, messages)?;
    make_room_for(alloc, buffers, numbers, channels, messages)?;
    put_all(buffers, numbers, channels, messages);
    Ok(())
}

/// The messages in a buffer that arrive before a cycle; none, where there is no such buffer.
#[inline(always)]
fn due_in(buffers: &[Buffer], number: usize, until: Cycle) -> &[Message]
    requires { IsByAge (buffer_messages_at buffers.now number) }
    ensures { result.now ≡ due_in until buffers.now number }
{
    match buffers.get(number) {
        Some(buffer) => buffer.due_before(until),
        None => &[],
    }
}

/// Takes the first messages out of a buffer, and gives the arrival of the next one.
#[inline(always)]
fn drop_in(buffers: &mut Vec<Buffer>, number: usize, count: usize) -> Option<Cycle>
    requires { count ≤ length (buffer_messages_at buffers.old.items number) }
    ensures rest { contents buffers.new.items ≡ slice_set (contents buffers.old.items) number
        (drop count (buffer_messages_at buffers.old.items number)) }
    ensures next { result ≡ first_arrival (buffer_messages_at buffers.new.items number) }
{
    if number >= buffers.len() {
        return None;
    }
    buffers[number].drop_first(count)
}

/// Whether nothing is in flight in any of these buffers.
fn all_empty(buffers: &[Buffer]) -> bool
    ensures { result ≡ list_all (λ buffer. length buffer.items == 0) buffers.now }
{
    buffers.iter().all(|buffer| buffer.as_slice().is_empty())
}

/// The earlier of a cycle and of the arrival of a buffer's first message; if there is only one of them, that one.
fn earlier_arrival(least: Option<Cycle>, buffer: &Buffer) -> Option<Cycle>
    ensures { result ≡ earlier_arrival least buffer.now.items }
{
    match buffer.first_arrival() {
        Some(arrival) => Some(least.map_or(arrival, |cycle: Cycle| cycle.min(arrival))),
        None => least,
    }
}

/// The least arrival of a buffer's first message.
fn earliest(buffers: &[Buffer]) -> Option<Cycle>
    ensures { result ≡ fold (λ least buffer. earlier_arrival least buffer.items) None buffers.now }
{
    buffers
        .iter()
        .fold(None, |least, buffer| earlier_arrival(least, buffer))
}

impl Links {
    #[tactic(auto, unfolding(sim_base::specs::History::by_age))]
    /// No messages in flight, on the links of this configuration.
    pub fn start(alloc: Global, config: &Config) -> Result<Links, AllocError>
        ensures { IsOkAnd result (λ links. links ≡ nothing_in_flight config.now) }
    {
        let links = u64::from(config.cores).saturating_mul(3 * u64::from(config.channels));
        let numbers = numbers_of(alloc, config.channels, links.min(MOST_NUMBERS));
        Ok(Links {
            alloc,
            channels: config.channels,
            numbers,
            buffers: Vec::new(alloc),
        })
    }

    /// Takes messages up; they may change places. Where memory is refused, the links stay as they were.
    pub fn accept(&mut self, messages: &mut [Message]) -> Result<(), AllocError>
        ensures same { IsPermutation messages.old messages.new }
        ensures ok { OnOk result (self.new ≡ with_sent self.old messages.old) }
        ensures err { OnErr result (self.new ≡ self.old) }
    {
        take_up(
            self.alloc,
            &mut self.buffers,
            &self.numbers,
            self.channels,
            messages,
        )
    }

    /// Puts messages in the order in which they are best taken up one after the other: by arrival, where one buffer
    /// takes more than a few of them. Those that arrive together stay in order, so they are taken up to the same effect.
    #[inline(always)]
    pub fn put_in_order(&self, messages: &mut [Message]) -> Result<(), AllocError>
        ensures same { IsPermutation messages.old messages.new }
        ensures alike { JoinAlike messages.old messages.new }
    {
        put_in_order(self.alloc, &self.numbers, self.channels, messages)
    }

    /// Takes a message up, and gives the number of its buffer, which tells the unit that it goes to; none, where it
    /// goes behind one that is in flight in that buffer, which arrives no later. Where memory is refused, the links
    /// stay as they were.
    #[inline(always)]
    pub fn put(&mut self, message: &Message) -> Result<Option<usize>, AllocError>
        ensures number { IfOk result (λ placed.
            IfSome placed (λ buffer. buffer ≡ buffer_of self.old.channels message.now.link)) }
        ensures behind { IfOk result (λ placed.
            IsNone placed ↔ GoesBehindInFlight message.now self.old) }
        ensures ok { OnOk result (self.new ≡ with_sent self.old (message.now ∷ [])) }
        ensures err { OnErr result (self.new ≡ self.old) }
    {
        put_one(
            self.alloc,
            &mut self.buffers,
            &self.numbers,
            self.channels,
            message,
        )
    }

    /// The messages in the buffer with a number that arrive before a cycle, by age.
    #[inline(always)]
    fn due_in(&self, number: usize, until: Cycle) -> &[Message]
        ensures due { result.now ≡ due_in_buffer self.now number until }
        ensures by_age { IsByAge result.now }
    {
        due_in(&self.buffers, number, until)
    }

    /// Takes the messages that arrive before a cycle, of which there are `count`, out of the buffer with a number, and
    /// gives the arrival of the next one in it.
    #[inline(always)]
    fn drop_due(&mut self, number: usize, until: Cycle, count: usize) -> Option<Cycle>
        requires { count ≡ length (due_in_buffer self.old number until) }
        ensures rest { self.new ≡ without_due_in self.old number until }
        ensures next { result ≡ first_arrival (in_buffer self.new number) }
        ensures least { IfSome result (λ cycle.
            NoneArrivesBefore cycle (in_buffer self.new number)) }
    {
        drop_in(&mut self.buffers, number, count)
    }

    /// The messages to a channel that arrive before the cycle `until`, by age. They stay in flight until they are taken
    /// out (`drop_due_at_channel`).
    #[inline(always)]
    pub fn due_at_channel(&self, channel: ChannelId, until: Cycle) -> &[Message]
        ensures { result.now ≡ due_before self.now (MachineUnit.Channel channel) until }
    {
        if channel >= u32::from(self.channels) {
            return &[];
        }
        self.due_in(channel as usize, until)
    }

    /// Takes out the messages to a channel that arrive before the cycle `until`, of which there are `count`, and gives
    /// the arrival of the next one that is in flight to it.
    #[inline(always)]
    pub fn drop_due_at_channel(
        &mut self,
        channel: ChannelId,
        until: Cycle,
        count: usize,
    ) -> Option<Cycle>
        requires { count ≡ length (due_before self.old (MachineUnit.Channel channel) until) }
        ensures rest { self.new ≡ without_due self.old (MachineUnit.Channel channel) until }
        ensures next { result ≡ first_arrival (in_flight_to self.new (MachineUnit.Channel channel)) }
        ensures least { IfSome result (λ cycle.
            NoneArrivesBefore cycle (in_flight_to self.new (MachineUnit.Channel channel))) }
    {
        if channel >= u32::from(self.channels) {
            return None;
        }
        self.drop_due(channel as usize, until, count)
    }

    /// The replies and the credits to a core that arrive before the cycle `until`, each by age; together they are all
    /// that do. They stay in flight until they are taken out (`drop_due_at_core`).
    #[inline(always)]
    pub fn due_at_core(&self, core: CoreId, until: Cycle) -> (&[Message], &[Message])
        ensures replies { result.0.now ≡ replies_due self.now core until }
        ensures credits { result.1.now ≡ credits_due self.now core until }
        ensures all { due_before self.now (MachineUnit.Core core) until
            ≡ fold insert_by_age result.0.now result.1.now }
        ensures by_age { IsByAge result.1.now }
    {
        let number = replies_number(self.channels, core);
        (self.due_in(number, until), self.due_in(number + 1, until))
    }

    /// Takes out the messages to a core that arrive before the cycle `until`, of which so many are replies and so many
    /// credits, and gives the arrival of the next one that is in flight to it.
    #[inline(always)]
    pub fn drop_due_at_core(
        &mut self,
        core: CoreId,
        until: Cycle,
        replies: usize,
        credits: usize,
    ) -> Option<Cycle>
        requires replies { replies ≡ length (replies_due self.old core until) }
        requires credits { credits ≡ length (credits_due self.old core until) }
        ensures rest { self.new ≡ without_due self.old (MachineUnit.Core core) until }
        ensures next { result ≡ first_arrival (in_flight_to self.new (MachineUnit.Core core)) }
        ensures least { IfSome result (λ cycle.
            NoneArrivesBefore cycle (in_flight_to self.new (MachineUnit.Core core))) }
    {
        let number = replies_number(self.channels, core);
        let reply = self.drop_due(number, until, replies);
        let credit = self.drop_due(number + 1, until, credits);
        earlier(reply, credit)
    }

    /// Copies of all messages in flight, by age.
    pub fn messages(&self, alloc: Global) -> Result<Vec<Message>, AllocError>
        ensures { IfOk result (λ v. v.items ≡ self.now.messages) }
    {
        messages_of(alloc, &self.buffers)
    }

    /// Whether nothing is in flight.
    pub fn is_empty(&self) -> bool
        ensures { IsTrue result ↔ (self.now.messages ≡ []) }
    {
        all_empty(&self.buffers)
    }

    /// The least arrival of a message in flight; none, where none is in flight.
    pub fn next_arrival(&self) -> Option<Cycle>
        ensures none { IsNone result ↔ (self.now.messages ≡ []) }
        ensures least { IfSome result (λ cycle. NoneArrivesBefore cycle self.now.messages) }
        ensures attained { IfSome result (λ cycle. SomeAt cycle self.now.messages) }
    {
        earliest(&self.buffers)
    }
}
