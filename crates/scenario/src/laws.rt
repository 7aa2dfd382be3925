ghost use Rattle.scenario.specs.Laws.{LinesJoined, LinesLack, LinesOnly, FieldsJoined, FieldsLack, FieldsOnly, FieldsRest, WrittenReads, ReadsWritten};

// The lines of a text, each with its byte 10, give the text again, and no other lines do.
pub fn lines_law()
    ensures joined { LinesJoined }
    ensures lack { LinesLack }
    ensures only { LinesOnly }
{}

// The fields of a line with a space between them give the line again, and no other fields do. Those that are still to come tell the bytes that are left.
pub fn fields_law()
    ensures joined { FieldsJoined }
    ensures lack { FieldsLack }
    ensures only { FieldsOnly }
    ensures rest { FieldsRest }
{}

// A number of at most nine digits reads back to itself as it is written, and nothing else reads to it.
pub fn numbers_law()
    ensures reads { WrittenReads }
    ensures written { ReadsWritten }
{}
