// The laws of the wire format, each group as the contract of a function that does nothing.
#![tactic(auto)]

ghost use Rattle.codec.specs.Laws.{FirstBack, RecordBack, ArrivalBack, RequestBack, InformBack};
ghost use Rattle.codec.specs.Laws.{FirstReads, RecordReads, ArrivalReads, RequestReads, InformReads};
ghost use Rattle.codec.specs.Laws.{SaysOne, RightSaid, CoveredFirst, CoveredLength};
ghost use Rattle.codec.specs.Laws.{FiguresAre, CertificateSizeFour, CertificateLength, ViewMost, ViewLargest};

// Bytes that are read as a record are in range, and are the bytes of that record.
pub fn reading_writes_back()
    ensures first { FirstBack }
    ensures whole { RecordBack }
    ensures arriving { ArrivalBack }
    ensures asked { RequestBack }
    ensures told { InformBack }
{}

// A record in range is read back from its bytes.
pub fn writing_reads_back()
    ensures first { FirstReads }
    ensures whole { RecordReads }
    ensures arriving { ArrivalReads }
    ensures asked { RequestReads }
    ensures told { InformReads }
{}

// The bytes that a seal covers say one thing, and what a record in range says is in range.
pub fn seals_say_one()
    ensures one { SaysOne }
    ensures right { RightSaid }
{}

// What a seal covers comes first in its record.
pub fn seals_cover_the_first()
    ensures first { CoveredFirst }
    ensures long { CoveredLength }
{}

// Faults, quorums and the size of a certificate.
pub fn figures_are()
    ensures counts { FiguresAre }
    ensures four { CertificateSizeFour }
    ensures certificates { CertificateLength }
{}

// No new view is longer than 6,183 bytes, and one has as many.
pub fn largest_view()
    ensures most { ViewMost }
    ensures largest { ViewLargest }
{}
