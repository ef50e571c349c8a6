//! The law of partition.

ghost use Rattle.scrib_partition.specs.PartitionLaw.{AnswersPart, AnswersWhole, IsInitialPart, IsRestrictedPart};
ghost use Rattle.scrib_partition.specs.PartitionLaw.{StaysConsistent};

/// The law of partition, of every monitor. A part of a list of steps is the list without the steps on other
/// conversations.
///
/// Replies that answer the list answer each part of it, where none of them is the refusal `TooManyConversations`.
/// Replies that answer each part of a partition answer the list, where at most 65,536 conversations are open at once.
/// The state of a part has the library of the whole, and the conversations of the part.
pub fn answers_parts()
    ensures part { AnswersPart }
    ensures whole { AnswersWhole }
    ensures restricted { IsRestrictedPart }
    ensures initial { IsInitialPart }
    ensures consistent { StaysConsistent }
{}
