// Theorems on pages. The functions do nothing; their contracts are the theorems.

ghost use Rattle.admin.specs.Escaping.{EscapedReadsBack, HasNoControl};
ghost use Rattle.admin.specs.Sessions.{PagesSkipNoSession};

/// States that a page of sessions by rising identifier is rising, and that who asks for the page
/// after its last one meets every session: none that comes after the identifier is skipped.
pub fn pages_skip_no_session()
    ensures { PagesSkipNoSession }
{}

/// States that each identifier on a page is escaped: between its quotes it is a JSON string that
/// stands for the identifier, without a control character (RFC 8259, section 7).
pub fn strings_are_escaped()
    ensures reads_back { EscapedReadsBack }
    ensures no_control { HasNoControl }
{}
