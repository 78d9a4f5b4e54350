// Theorems on notices. The functions do nothing; their contracts are the theorems.

ghost use Rattle.notices.specs.Theorems.{EscapedTextReadsBack, EveryNoticeIsCounted, FirstTenAreTold, HasNoControl};

/// States that of notices of one kind in one second the first ten are told, and no other.
pub fn ten_lines_a_second()
    ensures { FirstTenAreTold }
{}

/// States that each notice of a kind is told, or told of as held back, or still counted, as long as
/// fewer than 2^64 are counted.
pub fn every_notice_is_counted()
    ensures { EveryNoticeIsCounted }
{}

/// States that a quoted text is a JSON string that stands for the text, without a control
/// character.
pub fn quoted_texts_are_json()
    ensures reads_back { EscapedTextReadsBack }
    ensures one_line { HasNoControl }
{}
