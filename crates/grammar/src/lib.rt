// The grammar of texts, proved over definitions: which bytes are a line, and which byte of any other text is refused.
#![tactic(auto)]

ghost use Rattle.grammar.specs.Claims.{GoodLinesRead, OnlyGoodLines, RefusedAtFirst, RefusalsSettle};
ghost use Rattle.grammar.specs.Entries.{ItemsAreLists};
ghost use Rattle.grammar.specs.Texts.{TextsSplit, OneSplit};
ghost use Rattle.grammar.specs.Words.{WordsJudged};

// Every good line is read: its form, and what follows.
pub fn lines_read()
    ensures { GoodLinesRead }
{}

// What is read is a good line.
pub fn only_lines_read()
    ensures { OnlyGoodLines }
{}

// A line is refused at the first byte with which no good line goes on, and the reason follows from what stands there.
pub fn refused_at_first()
    ensures { RefusedAtFirst }
{}

// That settles the answer: no text has two refusals, nor a refusal and a line.
pub fn refusals_settle()
    ensures { RefusalsSettle }
{}

// The items of a list are a list of items, written with one space between two.
pub fn items_are_lists()
    ensures { ItemsAreLists }
{}

// Each text is split into its lines, up to the first that is refused.
pub fn texts_split()
    ensures { TextsSplit }
{}

// What a split says of a text settles it.
pub fn one_split()
    ensures { OneSplit }
{}

// Bytes that are given as a name are a word exactly when nothing is found wrong with them.
pub fn words_judged()
    ensures { WordsJudged }
{}
