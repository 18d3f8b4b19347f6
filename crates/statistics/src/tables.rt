//! Which tables of a run are asked for.

ghost use Rattle.std.specs.Prelude.{◌≡◌};
ghost use Rattle.statistics.specs.Outcomes.{usual_tables};

/// The tables of a run that are asked for. What only the others hold is not kept.
#[derive(Clone, Copy, PartialEq, Eq, Debug)]
pub struct Tables {
    /// The table of commands, `commands.csv`.
    pub commands: bool,
    /// The statistics, `stats.csv`.
    pub stats: bool,
    /// The state in which the run ends, `final.csv`.
    pub last: bool,
    /// The times of each request, `requests.csv`.
    pub requests: bool,
}

impl Tables {
    /// The tables that are asked for where nothing else is said: those of the commands, the statistics and the final
    /// state.
    pub fn usual() -> Tables
        ensures { result ≡ usual_tables }
    {
        Tables {
            commands: true,
            stats: true,
            last: true,
            requests: false,
        }
    }
}
