//! Laws of units that are run alone. Span by span: what comes to a channel or a core of a run in some cycles is fit for
//! it, and from it the unit does what it does in the run. In turns: cores and channels go on, each as far as what the
//! others have sent allows. Each is a public function with an empty body, whose contract is the law; two functions of
//! `latencies` compute how far that is.

pub mod channels;
pub mod cores;
pub mod ends;
pub mod flight_in_turns;
pub mod known;
pub mod latencies;
pub mod mail;
pub mod sent;
pub mod turns;
