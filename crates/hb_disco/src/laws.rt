//! Laws about the definitions that the contracts cite. Each is the contract of a function that does nothing.

ghost use Rattle.hb_disco.specs.Written.{FirstIsRead, AnswerIsRead, NodeIsRead, EntryIsRead, StatusIsRead};

/// The bytes of a request, and those of each submessage of it, are its fields by the rules of Protocol Buffers, and since bytes
/// spell one list of fields at most, they are no others.
pub fn what_is_written_is_read()
    ensures first { FirstIsRead }
    ensures answer { AnswerIsRead }
    ensures node { NodeIsRead }
    ensures entry { EntryIsRead }
    ensures status { StatusIsRead }
{}
