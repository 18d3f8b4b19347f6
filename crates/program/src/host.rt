//! What a run takes from its host beside files and streams.

use simulation::watch::Watch;

/// The threads that serve as a run's workers, and who is told how far the run is.
#[derive(Drop)]
pub struct Host<'a, R, W: Watch> {
    pub threads: &'a R,
    pub watch: &'a mut W,
}
