//! Laws of what is written. Each function does nothing, and its contract is a law.

ghost use Rattle.job_replies.specs.TextLaws.{LawOfOneAnswer, LawOfOneAugmentText, LawOfOneBalancedText, LawOfOneCactusText, LawOfOneTrialText};

/// A graph has one text of its cactus. So what the job `cactus` prints is a function of the file
/// alone, whatever the number of workers: only one canonical cactus has these sides.
pub fn one_cactus_text()
    ensures { LawOfOneCactusText }
{}

/// A connected graph has one text of a side of best balance. So what the job `balanced` prints is
/// a function of the file alone, whatever the number of workers: only one such side is the first
/// in the order of lists.
pub fn one_balanced_text()
    ensures { LawOfOneBalancedText }
{}

/// A graph has one text of an augmentation. So what the job `augment` prints is a function of the
/// file alone, whatever the number of workers: the end nodes of the canonical cactus are in one
/// order.
pub fn one_augment_text()
    ensures { LawOfOneAugmentText }
{}

/// For the bytes of a file, all commands that read a graph, with the same job and least balance,
/// have one text. So what is printed is a function of the bytes, whatever the number of workers.
/// For `balanced` this holds if the graph is connected.
pub fn one_answer()
    ensures { LawOfOneAnswer }
{}

/// A number has one text of the job `trial`, whatever the number of workers.
pub fn one_trial_text()
    ensures { LawOfOneTrialText }
{}
