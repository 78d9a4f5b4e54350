// How the link to another end stands, and what of that the node was told.
//
// Links to one end are counted. A link that ends says which it was: if a later one has come up,
// even to the same life, nothing changes.

ghost use Rattle.std.specs.Prelude.{◌≡◌, ◌+◌, true, false, IfSome, None};

/// What a node is to be told of a link.
#[derive(Clone, Copy, Debug, PartialEq, Eq)]
pub struct News {
    /// The number that the other end told; 0 for the master.
    pub number: u8,
    /// True if a link came up to it.
    pub is_met: bool,
    /// True if that link broke afterwards.
    pub is_parted: bool,
}

/// How the link to another end stands.
#[derive(Clone, Copy, Debug, PartialEq, Eq)]
pub(crate) struct Standing {
    // The count of the link that came up last; 0 before the first.
    link: u64,
    // The number that its other end told.
    number: u8,
    is_up: bool,
    // What the node was told: the count of a link, and whether it was up.
    told: u64,
    told_up: bool,
}

impl Standing {
    /// Returns how a link stands that never came up.
    pub(crate) fn new() -> Standing {
        Standing {
            link: 0,
            number: 0,
            is_up: false,
            told: 0,
            told_up: false,
        }
    }

    /// Returns the number that the other end told, while a link is up.
    pub(crate) fn number(&self) -> Option<u8> {
        if self.is_up { Some(self.number) } else { None }
    }

    /// Notes that a link came up to the node of this number. Returns its count; none if no count is
    /// left.
    pub(crate) fn meet(&mut self, number: u8) -> Option<u64>
        ensures met { IfSome result (λ link. self.new
            ≡ record self.old { link = link; number = number; is_up = true }) }
        ensures next { IfSome result (λ link. link ≡ self.old.link + 1) }
        ensures none { result ≡ None → self.new ≡ self.old }
    {
        let link = self.link.checked_add(1)?;
        self.link = link;
        self.number = number;
        self.is_up = true;
        Some(link)
    }

    /// Notes that a link broke.
    pub(crate) fn part(&mut self, link: u64)
        ensures own { self.old.link ≡ link → self.new ≡ record self.old { is_up = false } }
        ensures older { (self.old.link ≡ link → ⊥) → self.new ≡ self.old }
    {
        if self.link == link {
            self.is_up = false;
        }
    }

    /// Returns what the node is to be told, if there is anything, and notes that it was.
    pub(crate) fn news(&mut self) -> Option<News> {
        let is_met = self.link != self.told;
        let is_parted = !self.is_up && (is_met || self.told_up);
        self.told = self.link;
        self.told_up = self.is_up;
        if is_met || is_parted {
            Some(News {
                number: self.number,
                is_met,
                is_parted,
            })
        } else {
            None
        }
    }
}
