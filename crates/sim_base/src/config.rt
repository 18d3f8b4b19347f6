//! A whole configuration.

ghost use Rattle.sim_base.specs.Keys.{MachineInRange, MemoryInRange, CoreInRange, LatenciesInRange, OverridesInRange, TimingInRange, DrainInRange};
ghost use Rattle.sim_base.specs.Fields.{FieldsInOrder};
ghost use Rattle.std.proofs.Props.{props};
ghost use Rattle.sim_base.specs.Relations.{DistancesFit, RefreshFits, CreditsFit, LinksExist, LinksDiffer, RanksHaveField, DrainFits};

use crate::key::Key;
use crate::key_numbers::KeyNumbers;
use crate::message::{ChannelId, CoreId, LinkId};
use crate::overrides::{Override, Overrides};
use crate::place::FieldOrder;
use crate::timing::Timing;
use std::alloc::{AllocError, Global};

/// What a configuration says, once it has been read.
#[derive(Drop)]
pub struct Config {
    pub cores: u16,
    pub channels: u16,
    pub ranks: u32,
    /// Bank groups of four banks in each rank.
    pub groups: u32,
    /// Lines of 64 bytes in a row.
    pub columns: u32,
    /// Rows in a bank.
    pub rows: u32,
    /// The fields of an address, low end first.
    pub fields: FieldOrder,
    /// The most entries of a core that may be issued and not retired.
    pub window: u32,
    /// The most entries that a core issues in a cycle, and the most that it retires in one.
    pub width: u16,
    pub read_credits: u32,
    pub write_credits: u32,
    pub request_latency: u32,
    pub reply_latency: u32,
    pub credit_latency: u32,
    pub timing: Timing,
    /// A channel begins to drain its writes at this many of them; 0: it never does.
    pub write_high: u32,
    /// A drain ends at this many writes.
    pub write_low: u32,
    /// The links with a latency of their own.
    pub overrides: Overrides,
    /// The run ends as soon as all is done, and not only at the limit.
    pub ends_drained: bool,
    pub ghost machine_in_range: { MachineInRange cores channels },
    pub ghost memory_in_range: { MemoryInRange ranks groups columns rows },
    pub ghost core_in_range: { CoreInRange window width read_credits write_credits },
    pub ghost latencies_in_range: { LatenciesInRange request_latency reply_latency credit_latency },
    pub ghost overrides_in_range: { OverridesInRange overrides },
    pub ghost timing_in_range: { TimingInRange timing },
    pub ghost drain_in_range: { DrainInRange write_high write_low },
    pub ghost fields_in_order: { FieldsInOrder fields },
    pub ghost distances_fit: { DistancesFit timing },
    pub ghost refresh_fits: { RefreshFits timing ranks },
    pub ghost credits_fit: { CreditsFit cores read_credits write_credits },
    pub ghost links_exist: { LinksExist cores channels overrides },
    pub ghost links_differ: { LinksDiffer overrides } by { Prim.hlevel props },
    pub ghost ranks_have_field: { RanksHaveField ranks fields },
    pub ghost drain_fits: { DrainFits cores write_credits write_high write_low },
}

impl Config {
    ghost use Rattle.std.specs.Prelude.{◌≡◌, ◌+◌, ◌*◌, ◌≤◌, ◌<◌, ◌^◌, ◌==◌, find, IfOk};
    ghost use Rattle.sim_base.specs.Config.{request_link, reply_link, credit_link, usual_latency, latency};
    ghost use Rattle.sim_base.specs.Values.{IsRelated, values_of, values_from};

    /// The configuration of these numbers, fields and overrides, whose relations hold; `ends_drained` says whether it
    /// ends as soon as all is done.
    pub fn from_numbers<N: KeyNumbers>(
        numbers: &N,
        fields: FieldOrder,
        overrides: Overrides,
        ends_drained: bool,
    ) -> Config
        requires in_order { FieldsInOrder fields }
        requires in_range { OverridesInRange overrides }
        requires related { IsRelated
            (values_from (N.number_of numbers.now) fields overrides ends_drained) }
        ensures { values_of result
            ≡ values_from (N.number_of numbers.now) fields overrides ends_drained }
    {
        Config {
            cores: numbers.number(Key::Cores) as u16,
            channels: numbers.number(Key::Channels) as u16,
            ranks: numbers.number(Key::Ranks),
            groups: numbers.number(Key::Groups),
            columns: numbers.number(Key::Columns),
            rows: numbers.number(Key::Rows),
            fields,
            window: numbers.number(Key::Window),
            width: numbers.number(Key::Width) as u16,
            read_credits: numbers.number(Key::ReadCredits),
            write_credits: numbers.number(Key::WriteCredits),
            request_latency: numbers.number(Key::RequestLatency),
            reply_latency: numbers.number(Key::ReplyLatency),
            credit_latency: numbers.number(Key::CreditLatency),
            timing: Timing::from_numbers(numbers),
            write_high: numbers.number(Key::WriteHigh),
            write_low: numbers.number(Key::WriteLow),
            overrides,
            ends_drained,
        }
    }

    /// A copy of the configuration. The only error is out of memory.
    #[tactic(auto, using(crate::proofs::SameValues::same_from_values))]
    pub fn copy(&self, alloc: Global) -> Result<Config, AllocError>
        ensures { IfOk result (λ c. c ≡ self.now) }
    {
        let fields = Vec::from_slice(alloc, self.fields.as_slice())?;
        let overrides = Vec::from_slice(alloc, self.overrides.as_slice())?;
        Ok(Config {
            cores: self.cores,
            channels: self.channels,
            ranks: self.ranks,
            groups: self.groups,
            columns: self.columns,
            rows: self.rows,
            fields: FieldOrder::new(fields),
            window: self.window,
            width: self.width,
            read_credits: self.read_credits,
            write_credits: self.write_credits,
            request_latency: self.request_latency,
            reply_latency: self.reply_latency,
            credit_latency: self.credit_latency,
            timing: self.timing,
            write_high: self.write_high,
            write_low: self.write_low,
            overrides: Overrides::new(overrides),
            ends_drained: self.ends_drained,
        })
    }

    /// The link that carries the requests of a core to a channel.
    #[tactic(auto, using(crate::proofs::LinkNumbers::link_below, crate::proofs::LinkNumbers::link_fits))]
    pub fn request_link(&self, core: CoreId, channel: ChannelId) -> LinkId
        ensures value { result ≡ request_link self.now core channel }
        ensures exists { core < self.now.cores → channel < self.now.channels
            → result + 2 < 3 * self.now.cores * self.now.channels }
        ensures fits { result + 2 < 2 ^ 64 }
    {
        3 * (u64::from(core) * u64::from(self.channels) + u64::from(channel))
    }

    /// The link that carries the data of reads back from a channel to a core.
    pub fn reply_link(&self, core: CoreId, channel: ChannelId) -> LinkId
        ensures value { result ≡ reply_link self.now core channel }
        ensures exists { core < self.now.cores → channel < self.now.channels
            → result < 3 * self.now.cores * self.now.channels }
    {
        self.request_link(core, channel) + 1
    }

    /// The link that carries credits back from a channel to a core.
    pub fn credit_link(&self, core: CoreId, channel: ChannelId) -> LinkId
        ensures value { result ≡ credit_link self.now core channel }
        ensures exists { core < self.now.cores → channel < self.now.channels
            → result < 3 * self.now.cores * self.now.channels }
    {
        self.request_link(core, channel) + 2
    }

    fn latency_of_kind(&self, link: LinkId) -> u32
        ensures value { result ≡ usual_latency self.now link }
        ensures range { (1 ≤ result) × (result ≤ 1000000) }
    {
        if link % 3 == 0 {
            self.request_latency
        } else if link % 3 == 1 {
            self.reply_latency
        } else {
            self.credit_latency
        }
    }

    fn override_of(&self, link: LinkId) -> Option<Override>
        ensures { result ≡ find (λ o. o.link == link) self.now.overrides }
    {
        self.overrides
            .as_slice()
            .iter()
            .copied()
            .find(|o| o.link == link)
    }

    /// How many cycles a message travels on a link, from 1 to 1,000,000: the latency of its override, or else of its
    /// kind.
    #[tactic(auto, unfolding(crate::specs::Config::latency))]
    pub fn latency(&self, link: LinkId) -> u32
        ensures value { result ≡ latency self.now link }
        ensures range { (1 ≤ result) × (result ≤ 1000000) }
    {
        match self.override_of(link) {
            Some(o) => o.latency,
            None => self.latency_of_kind(link),
        }
    }
}
