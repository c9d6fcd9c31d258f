//! Laws about the definitions that the contracts cite. Each is the contract of a function that does nothing.

ghost use Rattle.hb_front.specs.Laws.{OneAnswer, AnswerStays, WrittenIsRead, TwoIdentitiesAreRefused, LengthCountsAll};
ghost use Rattle.hb_front.specs.Laws.{SmallAnswers, FaultIsNotMore, SmallTlvs};

/// Bytes have one answer.
pub fn one_answer()
    ensures { OneAnswer }
{}

/// What is read doesn't change when more bytes come, unless it was `More`.
pub fn answer_stays()
    ensures { AnswerStays }
{}

/// What `put_front` writes is read as what was put.
pub fn written_is_read()
    ensures { WrittenIsRead }
{}

/// A header in which type e0 stands twice is `BadIdentity`.
pub fn two_identities_are_refused()
    ensures { TwoIdentitiesAreRefused }
{}

/// The length of a header counts all its type-length-values.
pub fn length_counts_all()
    ensures { LengthCountsAll }
{}

/// What small bytes are and aren't.
pub fn small_bytes_are_told()
    ensures answers { SmallAnswers }
    ensures not_more { FaultIsNotMore }
    ensures tlvs { SmallTlvs }
{}
