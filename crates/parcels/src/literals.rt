// The literals of a parcel.
ghost use Rattle.std.specs.Prelude.{◌≡◌, ◌*◌, ◌/◌, length};
ghost use Rattle.parcels.specs.Literals.{literal_of, entry, literal, literal_fault, literals_fault};
ghost use Rattle.values.specs.Order.{unless};

use values::{Fault, Rule, Value};

/// What a literal stands for: a value, a selector by its number with its argument count, or a
/// binding by its number.
#[derive(Clone, Copy, PartialEq, Eq, Debug)]
pub enum Literal {
    Constant(Value),
    Selector { number: u32, argument_count: u8 },
    Binding(u32),
}

/// How many bytes a literal takes.
pub const LITERAL_BYTES: usize = 6;

// The kind byte of a selector. Below it stand those of values: the bytes of the format meet their
// cases here alone.
const SELECTOR: u8 = 7;

// The kind byte of a binding.
const BINDING: u8 = 8;

// The literal of a detail, a kind and a number, if they keep the rules.
fn of_parts(detail: u8, kind: u8, number: u32) -> Option<Literal>
    ensures { result ≡ literal_of detail kind number }
{
    match (kind, detail) {
        (SELECTOR, 0..=31) => Some(Literal::Selector {
            number,
            argument_count: detail,
        }),
        (BINDING, 0) => Some(Literal::Binding(number)),
        (0..=5, 0) => Some(Literal::Constant(Value::from_parts(kind, number)?)),
        _ => None,
    }
}

/// Literal k of a parcel's literals, which are the bytes as they lie in the parcel. None says that
/// there is no literal k, or that it breaks a rule.
pub fn literal_at(literals: &[u8], k: u32) -> Option<Literal>
    ensures { result ≡ literal literals.now k }
{
    let [detail, kind, a, b, c, d, ..] = literals.get(LITERAL_BYTES * k as usize..)? else {
        return None;
    };
    of_parts(*detail, *kind, u32::from_be_bytes([*a, *b, *c, *d]))
}

// Checks literal k, over a host with so many bindings.
fn check_literal(literals: &[u8], k: u32, bindings: usize) -> Result<(), Fault>
    ensures { result ≡ unless (literal_fault literals.now bindings k) tt }
{
    match literal_at(literals, k) {
        None => Err(Rule::LiteralWrong.at(k as usize)),
        Some(Literal::Binding(n)) if n as usize >= bindings => Err(Rule::BindingMissing.at(
            k as usize,
        )),
        Some(_) => Ok(()),
    }
}

/// Checks so many literals in order from number 0, over a host with so many bindings. A refusal is
/// the fault of the first literal that breaks a rule, at its number.
pub fn check_literals(literals: &[u8], count: u16, bindings: usize) -> Result<(), Fault>
    ensures { result ≡ unless (literals_fault literals.now count bindings) tt }
{
    for k in 0..count {
        check_literal(literals, k as u32, bindings)?;
    }
    Ok(())
}
