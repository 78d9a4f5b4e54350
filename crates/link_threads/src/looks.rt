// How often a node looked for others in vain.
//
// Looks are counted and no time: a program that was stopped for a minute, or whose clock fails, has
// not looked meanwhile.

ghost use Rattle.std.specs.Prelude.{◌≡◌, ◌+◌, ◌<◌, ◌≤◌, ◌↔◌, true, false};

/// How many looks in a row may find nobody: those of a minute.
const MAX_LOOKS: u32 = 300;

/// How many looks in a row found nobody.
#[derive(Clone, Copy, Debug, PartialEq, Eq)]
pub(crate) struct Looks {
    alone: u32,
}

impl Looks {
    /// Returns that there was no look.
    pub(crate) fn new() -> Looks
        ensures { result.alone ≡ 0 }
    {
        Looks { alone: 0 }
    }

    /// Notes a look, which found somebody or not.
    pub(crate) fn look(&mut self, found: bool)
        ensures found { found ≡ true → self.new.alone ≡ 0 }
        ensures counted { found ≡ false → self.old.alone < 300
            → self.new.alone ≡ self.old.alone + 1 }
        ensures stays { found ≡ false → 300 ≤ self.old.alone → self.new ≡ self.old }
    {
        if found {
            self.alone = 0;
        } else if self.alone < MAX_LOOKS {
            self.alone += 1;
        }
    }

    /// Returns true once a minute's looks in a row found nobody.
    pub(crate) fn is_alone(&self) -> bool
        ensures { (result ≡ true) ↔ (300 ≤ self.now.alone) }
    {
        self.alone >= MAX_LOOKS
    }
}
