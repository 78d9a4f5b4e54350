// Theorems on messages that are replaced by newer ones. The calls do nothing; their contracts are
// the theorems.

ghost use Rattle.post.specs.outbox.Theorems.{LaterCommitsSuffice, LaterCountsSuffice};

/// States that a Held that replaces another one tells a primary all that the other told it.
pub fn later_counts_suffice()
    ensures { LaterCountsSuffice }
{}

/// States that a backup applies as many places by a Commit that replaces another as by both.
pub fn later_commits_suffice()
    ensures { LaterCommitsSuffice }
{}
