// The words of the command line.

/// What is simulated.
#[derive(Clone, Copy)]
pub struct Options {
    /// The first seed.
    pub seed: u64,
    /// How many seeds follow one another.
    pub seeds: u64,
    /// How many events a run has: at most 2,000, so that no queue is ever full.
    pub events: u64,
    /// How many nodes a world has: one to seven.
    pub nodes: u8,
    /// How many clients a world has: one to eight.
    pub clients: u8,
    /// Whether a line says the result of each run.
    pub counts: bool,
    /// Whether the script of each run is printed.
    pub scripts: bool,
}

impl Options {
    /// Returns the default options.
    pub fn usual() -> Options {
        Options {
            seed: 1,
            seeds: 1,
            events: 300,
            nodes: 3,
            clients: 3,
            counts: false,
            scripts: false,
        }
    }

    /// Sets one by its word, as `--seed 7`. False if there is no such word, or the number is not in
    /// its range.
    pub fn set(&mut self, word: &str, value: &str) -> bool {
        let Ok(number) = value.parse::<u64>() else {
            return false;
        };
        let is_lawful = match word {
            "--seed" => true,
            "--seeds" => number <= 1_000_000_000,
            "--events" => (1..=2_000).contains(&number),
            "--nodes" => (1..=7).contains(&number),
            "--clients" => (1..=8).contains(&number),
            "--counts" | "--scripts" => number <= 1,
            _ => false,
        };
        match word {
            _ if !is_lawful => {}
            "--seed" => self.seed = number,
            "--seeds" => self.seeds = number,
            "--events" => self.events = number,
            "--nodes" => self.nodes = number as u8,
            "--clients" => self.clients = number as u8,
            "--counts" => self.counts = number == 1,
            _ => self.scripts = number == 1,
        }
        is_lawful
    }
}
