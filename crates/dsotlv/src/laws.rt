//! Laws of the definitions that the contracts cite.

ghost use Rattle.dsotlv.specs.Laws.{ReadsExactlyDso, ReadsExactlyFrames, ReadsExactlyQuestion, ReadsExactlyReconfirm, ReadsExactlyPush, NoFrameBeginsAnother, NoTlvBeginsAnother, CutsAnywhere, ReadsAllPieces, TakesOneByOne, StopsAtNoMessage, WholeStaysFirst, LongIsWhole, FramesAreWholeAgain, WritesDsoThatIsSpelled, WritesWhatIsSpelled};
ghost use Rattle.dsotlv.specs.Faults.{NamesEachDsoFault};

/// No message behind its length begins another, and no TLV begins another, so what was written is found again,
/// whatever follows it.
pub fn one_beginning()
    ensures frames { NoFrameBeginsAnother }
    ensures tlvs { NoTlvBeginsAnother }
{}

/// What is read is what is spelled.
pub fn what_is_read()
    ensures dso { ReadsExactlyDso }
    ensures frames { ReadsExactlyFrames }
    ensures question { ReadsExactlyQuestion }
    ensures reconfirm { ReadsExactlyReconfirm }
    ensures push { ReadsExactlyPush }
{}

/// The fault of a text that is no DSO message is the first that it has, with the place where its TLVs are cut off.
pub fn dso_faults()
    ensures { NamesEachDsoFault }
{}

/// What is written is in the grammar.
pub fn what_is_written()
    ensures dso { WritesDsoThatIsSpelled }
    ensures notice { WritesWhatIsSpelled }
{}

/// A stream gives the same messages in whatever pieces it comes, each taken out as soon as it is whole. Octets of a
/// longest frame have a whole message, and frames give their messages.
pub fn streams()
    ensures cut { CutsAnywhere }
    ensures pieces { ReadsAllPieces }
    ensures one { TakesOneByOne }
    ensures none { StopsAtNoMessage }
    ensures stays { WholeStaysFirst }
    ensures long { LongIsWhole }
    ensures frames { FramesAreWholeAgain }
{}
