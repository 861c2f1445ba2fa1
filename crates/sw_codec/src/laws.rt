//! Laws of spelling and reading. A call does nothing; its clause is the law.

ghost use Rattle.sw_codec.specs.Laws.{BeginsNoOther, HasOneSpelling, HasQuotaSize, IsBadThere, IsReadAgain, IsSpelledAgain};

/// A change has at most one spelling.
pub fn has_one_spelling()
    ensures { HasOneSpelling }
{}

/// Where bytes begin with the spellings of two changes, these are one change.
pub fn begins_no_other()
    ensures { BeginsNoOther }
{}

/// What changes are spelled as is read as these changes.
pub fn is_read_again()
    ensures { IsReadAgain }
{}

/// What is read is spelled as it stood there.
pub fn is_spelled_again()
    ensures { IsSpelledAgain }
{}

/// Bytes are bad at an offset where changes are spelled up to it, and no front of what follows is the spelling of a
/// change.
pub fn is_bad_there()
    ensures { IsBadThere }
{}

/// The spelling of an operation is as long as the quota of a batch counts it.
pub fn has_quota_size()
    ensures { HasQuotaSize }
{}
