//! A transcript names one history. A call does nothing; its clause is the law.

ghost use Rattle.sw_audit.specs.Naming.{NamesOneHistory};

/// Two legal histories from one content that follow one recording and have one transcript are equal but for their
/// passes and stamps, where the lanes and the rows of one of them are numbered by 64 bits.
#[tactic(auto, using(crate::proofs::OneHistory::names_one_history))]
pub fn transcripts_name_one_history()
    ensures { NamesOneHistory }
{}
