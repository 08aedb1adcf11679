// The safety questions: what is asked, what is answered, and the run rule and the law in specs/.
#![tactic(auto)]

pub mod question;

ghost use Rattle.safety.specs.Laws.{QuestionsJudged, RuleFollowed};

pub use question::{Call, Move, Question, Reply};

// Every answer is right, under every lawful book and from every table, after any list of calls.
pub fn questions_judged()
    ensures { QuestionsJudged }
{}

// A shown run is the one that the run rule fixes: the earliest move each time, until the holding stands.
pub fn rule_followed()
    ensures { RuleFollowed }
{}
