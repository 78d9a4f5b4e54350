// The names of a crate that the program used.

use anyhow::{Result, bail};

/// Counts the names of a crate that were used, and keeps the first that did not do what is
/// documented.
#[derive(Clone, Copy)]
pub struct Names {
    // The crate.
    from: &'static str,
    // How many of its names were used.
    count: u32,
    // The first whose result was not the documented one.
    wrong: Option<&'static str>,
}

impl Names {
    /// Returns the names of this crate, none of which was used.
    pub fn of(from: &'static str) -> Names {
        Names {
            from,
            count: 0,
            wrong: None,
        }
    }

    /// Counts a name, and notes whether its result was the documented one.
    pub fn uses(&mut self, name: &'static str, is_right: bool) {
        self.count = self.count.saturating_add(1);
        if !is_right && self.wrong.is_none() {
            self.wrong = Some(name);
        }
    }

    /// Returns true if each result was the documented one.
    pub fn are_right(&self) -> bool {
        self.wrong.is_none()
    }

    /// Prints how many names were used. Fails if a result was not the documented one.
    pub fn print<R: Print>(&self, rt: &R) -> Result<()> {
        let (from, count) = (self.from, self.count);
        if let Some(name) = self.wrong {
            bail!("{from}: {name} did not do what is documented");
        }
        println!(rt; "{from}: {count} names")?;
        Ok(())
    }
}
