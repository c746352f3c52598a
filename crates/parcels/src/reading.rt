// Instructions, read off the front of a code.
ghost use Rattle.std.specs.Prelude.{◌≡◌, ◌+◌, ◌*◌, ◌<◌, ◌≤◌, length, drop, IfOk};
ghost use Rattle.parcels.specs.Reading.{unreadable_rule, reading, read_at, place_after, as_reading};
ghost use Rattle.parcels.specs.declared.reading.TheConstants.{PAIR_BYTES, MAX_EXTENSIONS};

use values::Rule;

/// How many bytes a pair has: an opcode and an argument byte.
pub const PAIR_BYTES: usize = 2;

/// The opcode of an extension pair.
pub const EXTENSION: u8 = 55;

/// How many extension pairs may stand before a final pair.
pub const MAX_EXTENSIONS: u8 = 3;

/// A final pair with its extension pairs: the byte that stands as its opcode, known or not, the
/// argument, which is their second bytes joined, and how many pairs they are.
#[derive(Clone, Copy, PartialEq, Eq, Debug)]
pub struct Instruction {
    pub opcode: u8,
    pub argument: u32,
    pub pairs: u8,
}

/// Why there is no instruction: a fourth extension pair, or the end of the code.
#[derive(Clone, Copy, PartialEq, Eq, Debug)]
pub enum Unreadable {
    FourthExtension,
    Cut,
}

impl From<Unreadable> for Rule {
    ghost from_gives = { λ e r. r ≡ unreadable_rule e };

    // The rule that it breaks.
    fn from(unreadable: Unreadable) -> Rule {
        match unreadable {
            Unreadable::FourthExtension => Rule::ExtensionFourth,
            Unreadable::Cut => Rule::CodeCut,
        }
    }
}

// The first instruction of a code, and the code that follows it.
fn take_instruction(code: &[u8]) -> Result<(Instruction, &[u8]), Unreadable>
    ensures reads { as_reading result ≡ reading code.now }
    ensures place { IfOk result (λ p. p.1.now ≡ drop (PAIR_BYTES * p.0.pairs) code.now) }
    ensures within { IfOk result (λ p. PAIR_BYTES * p.0.pairs ≤ length code.now) }
    ensures some { IfOk result (λ p. 1 ≤ p.0.pairs) }
    ensures few { IfOk result (λ p. p.0.pairs ≤ MAX_EXTENSIONS + 1) }
{
    let mut rest = code;
    let mut argument = 0u32;
    let mut pairs = 0u8;
    while let [EXTENSION, b, after @ ..] = rest {
        if pairs == MAX_EXTENSIONS {
            return Err(Unreadable::FourthExtension);
        }
        argument = argument * 256 + *b as u32;
        pairs += 1;
        rest = after;
    }
    match rest {
        [op, b, after @ ..] => Ok((
            Instruction {
                opcode: *op,
                argument: argument * 256 + *b as u32,
                pairs: pairs + 1,
            },
            after,
        )),
        _ => Err(Unreadable::Cut),
    }
}

/// A place in a borrowed code, in bytes.
#[derive(Clone, Copy)]
pub struct Reader<'a> {
    pub code: &'a [u8],
    pub place: usize,
}

impl<'a> Reader<'a> {
    /// A reader at a place of a code.
    pub fn at(code: &'a [u8], place: usize) -> Reader<'a>
        ensures code { result.code.now ≡ code.now }
        ensures place { result.place ≡ place }
    {
        Reader { code, place }
    }

    /// The instruction at the place, with the code that follows it; the place is then the following
    /// one. A refusal leaves the place.
    pub fn advance(&mut self) -> Result<(Instruction, &'a [u8]), Unreadable>
        ensures code { self.new.code.now ≡ self.old.code.now }
        ensures reads { as_reading result ≡ read_at self.old.code.now self.old.place }
        ensures place { self.new.place ≡ place_after self.old.place (as_reading result) }
        ensures follows { IfOk result (λ p. p.1.now ≡ drop self.new.place self.old.code.now) }
        ensures within { IfOk result (λ p.
            (self.old.place < self.new.place)
            × (self.new.place ≤ length self.old.code.now)
            × (p.0.pairs ≤ MAX_EXTENSIONS + 1)) }
    {
        let code = self.code.get(self.place..).ok_or(Unreadable::Cut)?;
        let (instruction, rest) = take_instruction(code)?;
        self.place += PAIR_BYTES * instruction.pairs as usize;
        Ok((instruction, rest))
    }
}
