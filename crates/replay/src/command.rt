// The calls that a line can name, and how a line is read.
ghost use Rattle.std.specs.Prelude.{◌≡◌, IfOk, if◌then◌else◌, Some, None, codes, nat_le};
ghost use Rattle.rights.specs.Limits.{max_rights};
ghost use Rattle.safety.specs.declared.question.Call.TheVariants.{Act, Ask};
ghost use Rattle.safety.specs.Questions.{list_places};

use crate::fault::Fault;
use flags::{FreshFlag, Settings};
use monitor::Step;
use questions::RUN_PLACES;
use safety::{Call, Question};
use std::alloc::Global;

// What a draft of a row book takes.
#[derive(Drop)]
pub enum Declaration {
    Right,
    SubjectType,
    ObjectType,
    Owner(usize),
    Creation {
        creator: usize,
        object: usize,
        gets: Vec<usize>,
    },
    Transform {
        subject: usize,
        object: usize,
        need: Vec<usize>,
        gives: Vec<usize>,
    },
    Grant {
        giver: usize,
        receiver: usize,
        object: usize,
        need: Vec<usize>,
        gives: Vec<usize>,
    },
}

// What a draft of a table takes.
#[derive(Clone, Copy)]
pub enum Building {
    Subject(usize),
    Object(usize),
    Hold {
        subject: usize,
        object: usize,
        right: usize,
    },
}

#[derive(Drop)]
pub enum Command {
    Book,
    Declare(Declaration),
    Fix,
    Flags(Settings),
    Table,
    Build(Building),
    Start,
    // A step or a question, put with a run list of so many places.
    Make { call: Call, places: usize },
    Cell { subject: usize, object: usize },
    Dump,
}

// The numbers of a list, with blanks between them.
fn read_numbers(heap: Global, text: &str) -> Result<Vec<usize>, Fault> {
    text.split_whitespace()
        .map(|word| word.parse::<usize>().map_err(Fault::from))
        .try_collect(heap)
}

// The two parts of a text around its first colon.
fn at_colon(text: &str) -> Result<(&str, &str), Fault> {
    text.split_once(':').ok_or(Fault::Unreadable)
}

// A creation: types, and behind the colon what the creator gets.
fn read_creation(heap: Global, text: &str) -> Result<Declaration, Fault> {
    let (types, gets) = at_colon(text)?;
    match read_numbers(heap, types)?.as_slice() {
        &[creator, object] => Ok(Declaration::Creation {
            creator,
            object,
            gets: read_numbers(heap, gets)?,
        }),
        _ => Err(Fault::Unreadable),
    }
}

// A row: types, what it needs and what it gives. Both colons are found first: a line without them wants no memory.
fn read_row(heap: Global, name: &str, text: &str) -> Result<Declaration, Fault> {
    let (types, lists) = at_colon(text)?;
    let (need, gives) = at_colon(lists)?;
    match (name, read_numbers(heap, types)?.as_slice()) {
        ("transform", &[subject, object]) => Ok(Declaration::Transform {
            subject,
            object,
            need: read_numbers(heap, need)?,
            gives: read_numbers(heap, gives)?,
        }),
        ("grant", &[giver, receiver, object]) => Ok(Declaration::Grant {
            giver,
            receiver,
            object,
            need: read_numbers(heap, need)?,
            gives: read_numbers(heap, gives)?,
        }),
        _ => Err(Fault::Unreadable),
    }
}

// The chosen ones of N types: their numbers with commas between them, or `-` for none.
fn read_types<const N: usize>(text: &str) -> Result<[bool; N], Fault> {
    let mut chosen = [false; N];
    if text == "-" {
        return Ok(chosen);
    }
    for word in text.split(',') {
        let number = word.parse::<usize>()?;
        *chosen.get_mut(number).ok_or(Fault::Unreadable)? = true;
    }
    Ok(chosen)
}

fn read_strong(text: &str) -> Result<bool, Fault>
    ensures { IfOk result (λ b. text.now ≡ (if b then codes "1" else codes "0")) }
{
    match text {
        "0" => Ok(false),
        "1" => Ok(true),
        _ => Err(Fault::Unreadable),
    }
}

fn read_fresh(text: &str) -> Result<FreshFlag, Fault> {
    match text {
        "counted" => Ok(FreshFlag::Counted),
        "unlimited" => Ok(FreshFlag::Unlimited),
        _ => Err(Fault::Unreadable),
    }
}

fn read_settings(text: &str) -> Result<Settings, Fault> {
    let mut words = text.split_whitespace();
    let mut word = || words.next().ok_or(Fault::Unreadable);
    let settings = Settings {
        flags: word()?.parse::<usize>()?,
        givers: read_types(word()?)?,
        receivers: read_types(word()?)?,
        creators: read_types(word()?)?,
        served: read_types(word()?)?,
        strong: read_strong(word()?)?,
        fresh: read_fresh(word()?)?,
    };
    if words.next().is_some() {
        return Err(Fault::Unreadable);
    }
    Ok(settings)
}

// A step and its numbers.
fn step(name: &str, numbers: &[usize]) -> Option<Step> {
    match (name, numbers) {
        ("create", &[subject, kind]) => Some(Step::Create { subject, kind }),
        ("add", &[subject, object, right]) => Some(Step::Transform {
            subject,
            object,
            right,
        }),
        ("give", &[giver, receiver, object, right]) => Some(Step::Grant {
            giver,
            receiver,
            object,
            right,
        }),
        ("revoke", &[owner, loser, object, right]) => Some(Step::Revoke {
            owner,
            loser,
            object,
            right,
        }),
        _ => None,
    }
}

// A step wants no run list, and leaves the one that it is put with.
fn act(step: Step) -> Command
    ensures { result ≡ Command.Make (Act step) (list_places max_rights) }
{
    Command::Make {
        call: Call::Act(step),
        places: RUN_PLACES,
    }
}

// The most places that a line may ask a run list of.
const MOST_PLACES: usize = 4096;

fn ask(question: Question, places: usize) -> Option<Command>
    ensures { result ≡ (if nat_le places 4096 then Some (Command.Make (Ask question) places) else None) }
{
    if places > MOST_PLACES {
        return None;
    }
    Some(Command::Make {
        call: Call::Ask(question),
        places,
    })
}

// A question and its three numbers, and the places of its run list if they are named.
fn question(name: &str, numbers: &[usize]) -> Option<Command> {
    let (numbers, places) = numbers.split_at_checked(3)?;
    let places = match places {
        [] => RUN_PLACES,
        [places] => *places,
        _ => return None,
    };
    let question = match (name, numbers) {
        ("can", &[subject, object, right]) => Question::Can {
            subject,
            object,
            right,
        },
        ("can-new", &[subject, kind, right]) => Question::CanNew {
            subject,
            kind,
            right,
        },
        _ => return None,
    };
    ask(question, places)
}

// A call with numbers alone.
fn plain(name: &str, numbers: &[usize]) -> Option<Command> {
    match (name, numbers) {
        ("book", []) => Some(Command::Book),
        ("right", []) => Some(Command::Declare(Declaration::Right)),
        ("subject-type", []) => Some(Command::Declare(Declaration::SubjectType)),
        ("object-type", []) => Some(Command::Declare(Declaration::ObjectType)),
        ("owner", &[right]) => Some(Command::Declare(Declaration::Owner(right))),
        ("fix", []) => Some(Command::Fix),
        ("table", []) => Some(Command::Table),
        ("subject", &[kind]) => Some(Command::Build(Building::Subject(kind))),
        ("object", &[kind]) => Some(Command::Build(Building::Object(kind))),
        ("hold", &[subject, object, right]) => Some(Command::Build(Building::Hold {
            subject,
            object,
            right,
        })),
        ("start", []) => Some(Command::Start),
        ("cell", &[subject, object]) => Some(Command::Cell { subject, object }),
        ("dump", []) => Some(Command::Dump),
        ("can" | "can-new", _) => question(name, numbers),
        _ => step(name, numbers).map(act),
    }
}

impl Command {
    pub fn read(heap: Global, line: &str) -> Result<Command, Fault> {
        let (name, rest) = line.split_once(' ').unwrap_or((line, ""));
        match name {
            "creation" => Ok(Command::Declare(read_creation(heap, rest)?)),
            "transform" | "grant" => Ok(Command::Declare(read_row(heap, name, rest)?)),
            "flags" => Ok(Command::Flags(read_settings(rest)?)),
            _ => plain(name, &read_numbers(heap, rest)?).ok_or(Fault::Unreadable),
        }
    }
}
