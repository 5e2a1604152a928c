ghost use Rattle.model.specs.Cases.{AllHold};
ghost use Rattle.model.specs.Spelling.{AcceptedExactly};
ghost use Rattle.model.specs.TreeFiles.{TreeFilesKeepLimits};
ghost use Rattle.model.specs.TreeSpelling.{TreesAcceptedExactly};
ghost use Rattle.model.specs.PointFiles.{PointFilesFit};
ghost use Rattle.model.specs.PointSpelling.{PointsAcceptedExactly};
ghost use Rattle.model.specs.Agreement.{RowsAgree};
ghost use Rattle.model.specs.Total.{RowsBounded};
ghost use Rattle.model.specs.Conversation.{EveryConversationHolds, AnswersAreSettled};

// The worked cases hold of the specification.
pub fn worked_cases_hold() -> u8
    ensures { AllHold }
{
    0
}

// Bytes are accepted as a request exactly where they are the spelling of a well-formed one, which is the one read.
pub fn accepted_bytes_are_spellings() -> u8
    ensures { AcceptedExactly }
{
    0
}

// Bytes are accepted as a linked tree, or as a path tree, exactly where they are the spelling of a well-formed one, which is the one read.
pub fn accepted_trees_are_spellings() -> u8
    ensures { TreesAcceptedExactly }
{
    0
}

// Bytes are accepted as a rule policy, or as grants, exactly where they are the spelling of a well-formed one, which is the one read.
pub fn accepted_points_are_spellings() -> u8
    ensures { PointsAcceptedExactly }
{
    0
}

// A tree that a linked or a path file gives is within the limits.
pub fn tree_files_keep_limits() -> u8
    ensures { TreeFilesKeepLimits }
{
    0
}

// The decision points that files give answer as every decision point does.
pub fn point_files_fit() -> u8
    ensures { PointFilesFit }
{
    0
}

// The computed rows of a request are those that the relations say: in order, none twice and none missing.
pub fn rows_agree_with_their_meaning() -> u8
    ensures { RowsAgree }
{
    0
}

// The rows of a request number the sum over its references and choices, and are at most 5,308,416.
pub fn rows_are_bounded() -> u8
    ensures { RowsBounded }
{
    0
}

// The law: over every request that bytes give, every tree within the limits, every decision point and every sequence of calls,
// the rows handed out are the request's first ones, and each answer is a right one.
pub fn every_conversation_holds() -> u8
    ensures { EveryConversationHolds }
{
    0
}

// Where a caller stands, each call has one right answer.
pub fn answers_are_settled() -> u8
    ensures { AnswersAreSettled }
{
    0
}
