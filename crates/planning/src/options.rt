// The words of the command line.
ghost use Rattle.std.specs.Prelude.{◌≡◌, ℕ, List, [], Ok, Some, None, IfOk, OnOk};
ghost use Rattle.planning.specs.Words.{Is, ArgumentOf};
ghost use Rattle.planning.specs.Commands.{texts_of, Drafted, GoesOnWith, Gives};
ghost use Rattle.planning.specs.Texts.{awaited_text};
ghost use Rattle.planning.specs.declared.options.Word.TheVariants as kind;

use anyhow::{anyhow, bail, ensure};
use std::alloc::Global;
use std::fmt;
use std::str::FromStr;
use values::{SmallInteger, Value};

// How many steps a parcel may make where nothing else is said.
const BUDGET: u64 = 1_000_000;

// How every parcel is run.
#[derive(Drop)]
pub struct Plan {
    pub trace: bool,
    pub trusted: bool,
    pub steps: u64,
    pub arguments: Vec<Value>,
}

// A plan, the path of the week file and the paths of the parcels.
#[derive(Drop)]
pub struct Options {
    pub plan: Plan,
    pub week: String,
    pub parcels: Vec<String>,
}

// What a word of the command line is. Two of the options await a number, which is for the next
// word.
#[derive(Clone, Copy)]
enum Word {
    Trace,
    Trusted,
    Steps,
    Argument,
    Path,
    Unknown,
}

// A word that begins with `--` is an option, and every other one a path.
impl From<&str> for Word {
    ghost from_gives = { λ w k. Is w.now k };

    fn from(word: &str) -> Word {
        match word {
            "--trace" => Word::Trace,
            "--trusted" => Word::Trusted,
            "--steps" => Word::Steps,
            "--argument" => Word::Argument,
            _ if word.starts_with("--") => Word::Unknown,
            _ => Word::Path,
        }
    }
}

// An option whose number the next word is. It is printed as the beginning of what is wrong with
// that word.
#[derive(Clone, Copy)]
enum Awaited {
    Steps,
    Argument,
}

impl fmt::Display for Awaited {
    ghost output = { λ a. Some (awaited_text a) };

    fn fmt<W: fmt::Write>(&self, f: &mut fmt::Formatter<W>) -> fmt::Result {
        match *self {
            Awaited::Steps => write!(f, "--steps: no count"),
            Awaited::Argument => write!(f, "--argument: no number"),
        }
    }
}

impl Awaited {
    // The number that a word is, in decimal.
    fn number<T: FromStr>(self, word: &str) -> anyhow::Result<T>
    where
        T::Err: Drop,
        ensures { IfOk result (λ n. T.from_str_gives word.now (Ok n)) }
    {
        word.parse().map_err(|_| anyhow!("{self}: {word}"))
    }
}

// The low 31 bits of a number, as a small integer.
pub fn argument_value(n: i64) -> Value
    ensures { ArgumentOf n result }
{
    let low = (n.cast_unsigned() % 0x1_0000_0000) as u32;
    Value::Integer(SmallInteger::new(low.cast_signed()))
}

// What the words so far say: a plan, and the paths in their order.
#[derive(Drop)]
struct Draft {
    plan: Plan,
    paths: Vec<String>,
    awaited: Option<Awaited>,
}

impl Draft {
    // What no word says.
    fn new(heap: Global) -> Draft
        ensures { Drafted result [] }
    {
        Draft {
            plan: Plan {
                trace: false,
                trusted: false,
                steps: BUDGET,
                arguments: Vec::new(heap),
            },
            paths: Vec::new(heap),
            awaited: None,
        }
    }

    // Takes the number after an option.
    fn take_number(&mut self, option: Awaited, word: &str) -> anyhow::Result<()>
        requires { self.old.awaited ≡ Some option }
        ensures { OnOk result (GoesOnWith word.now self.old self.new) }
    {
        match option {
            Awaited::Steps => self.plan.steps = option.number(word)?,
            Awaited::Argument => {
                let argument = argument_value(option.number(word)?);
                self.plan.arguments.push(argument)?;
            }
        }
        self.awaited = None;
        Ok(())
    }

    // Takes a path.
    fn take_path(&mut self, heap: Global, word: &str) -> anyhow::Result<()>
        requires plain { self.old.awaited ≡ None }
        requires path { Is word.now kind.Path }
        ensures { OnOk result (GoesOnWith word.now self.old self.new) }
    {
        let path = String::from_str(heap, word)?;
        self.paths.push(path)?;
        Ok(())
    }

    // Takes a word that is no number after an option.
    fn take_word(&mut self, heap: Global, word: &str) -> anyhow::Result<()>
        requires { self.old.awaited ≡ None }
        ensures { OnOk result (GoesOnWith word.now self.old self.new) }
    {
        match Word::from(word) {
            Word::Trace => self.plan.trace = true,
            Word::Trusted => self.plan.trusted = true,
            Word::Steps => self.awaited = Some(Awaited::Steps),
            Word::Argument => self.awaited = Some(Awaited::Argument),
            Word::Path => self.take_path(heap, word)?,
            Word::Unknown => bail!("unknown option: {word}"),
        }
        Ok(())
    }

    // Takes the next word: what is awaited says how.
    fn take(&mut self, heap: Global, word: &str) -> anyhow::Result<()>
        ensures { OnOk result (GoesOnWith word.now self.old self.new) }
    {
        match self.awaited {
            None => self.take_word(heap, word),
            Some(option) => self.take_number(option, word),
        }
    }

    // The options after the last word: the first path is the week file.
    fn finish(self) -> anyhow::Result<Options>
        ensures { IfOk result (λ o. (ws : List (List ℕ)) → Drafted self ws → Gives ws o) }
    {
        if let Some(option) = self.awaited {
            bail!("{option} follows");
        }
        let mut paths = self.paths;
        ensure!(!paths.is_empty(), "no week file is named");
        let week = paths.remove(0);
        ensure!(!paths.is_empty(), "no parcel is named");
        Ok(Options {
            plan: self.plan,
            week,
            parcels: paths,
        })
    }
}

impl Options {
    // The options that the words after the program's name give, or why they give none.
    pub fn read(heap: Global, words: &[String]) -> anyhow::Result<Options>
        ensures { IfOk result (λ o. Gives (texts_of words.now) o) }
    {
        let mut draft = Draft::new(heap);
        for word in words {
            draft.take(heap, word)?;
        }
        draft.finish()
    }
}
