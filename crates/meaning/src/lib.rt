// What a scheme text means, proved over definitions: which forms it may have, what each line declares, and what the book
// that it comes to permits.
#![tactic(auto)]

ghost use Rattle.meaning.specs.Forms.{FormsRead};
ghost use Rattle.meaning.specs.Means.{TextsMean};

// A list of items is read as a form exactly when it is the form written out.
pub fn forms_read()
    ensures { FormsRead }
{}

// Whatever text is read as a scheme, the scheme means the lines of that text.
pub fn texts_mean()
    ensures { TextsMean }
{}
