//! Chains of the requests of a log: from each to the next one of its class, that is of its bank, modulo 64, and its
//! access.

ghost use Rattle.std.specs.Prelude.{◌≡◌, ◌^◌, ◌-◌, ◌++◌, ◌∷◌, ◌<◌, ◌≤◌, [], List, ℕ, IfOk, length, vec_capacity};
ghost use Rattle.queue.specs.Chains.{class_of, classes_of, AreChained, HasClasses};

use crate::request_log::Arrived;
use crate::request_log::words::{bank_number, tag_word};
use sim_base::message::Request;
use std::alloc::{AllocError, Global};

/// How many classes there are: of 64 banks, to read and to write.
const CLASSES: usize = 128;

/// For each request of a log the next one of its class, and for each class its last request. They stand for the list of
/// classes of the requests.
#[derive(Drop)]
pub(crate) struct Chains {
    /// For each request one more than the place of the next one of its class; 0 where there is none.
    pub(crate) behind: Vec<u16>,
    /// For each class one more than the place of its last request; 0 where there is none.
    last: Vec<u16>,
}

/// The class of a request.
#[inline(always)]
pub(crate) fn class_of(request: Request) -> usize
    ensures value { result ≡ class_of request }
    ensures few { result < 128 }
{
    usize::from(tag_word(false, request.access, bank_number(request.place) as u64))
}

impl Chains {
    /// Chains of no requests, with `places` places for them. Only this call allocates memory.
    pub(crate) fn with_places(alloc: Global, places: usize) -> Result<Self, AllocError>
        ensures none { IfOk result (AreChained []) }
        ensures room { IfOk result (λ chains. places ≤ vec_capacity chains.behind) }
    {
        Ok(Chains {
            behind: Vec::with_capacity(alloc, places)?,
            last: vec![in alloc; 0; CLASSES]?,
        })
    }

    /// Puts a request of a class behind all others.
    #[inline(always)]
    pub(crate) fn join(&mut self, class: usize)
        requires chained { HasClasses self.old }
        requires class { class < 128 }
        requires short { length self.old.behind.items < 2 ^ 16 - 1 }
        requires room { length self.old.behind.items < vec_capacity self.old.behind }
        ensures room { vec_capacity self.new.behind ≡ vec_capacity self.old.behind }
        ensures chained { (classes : List ℕ)
            → AreChained classes self.old → AreChained (classes ++ class ∷ []) self.new }
    {
        let word = self.behind.len() as u16 + 1;
        self.behind.push_reserved(0);
        if let Some(last) = self.last[class].checked_sub(1) {
            self.behind[usize::from(last)] = word;
        }
        self.last[class] = word;
    }

    /// Chains of the requests of a log, in the place of those before.
    pub(crate) fn renew(&mut self, log: &[Arrived])
        requires chained { HasClasses self.old }
        requires short { length log.now < 2 ^ 16 - 1 }
        requires room { length log.now ≤ vec_capacity self.old.behind }
        ensures room { vec_capacity self.new.behind ≡ vec_capacity self.old.behind }
        ensures chained { AreChained (classes_of log.now) self.new }
    {
        self.behind.clear();
        self.last.fill(0);
        for arrived in log {
            self.join(class_of(arrived.request));
        }
    }
}
