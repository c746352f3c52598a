// The heights stage: the places in the order in which they wait.
ghost use Rattle.std.specs.Prelude.{◌≡◌, ◌*◌, ◌<◌, ◌≤◌, length};
ghost use Rattle.parcels.specs.declared.reading.TheConstants.{PAIR_BYTES};
ghost use Rattle.stages.specs.Examination.{transfer_of, examined, heights_or_fault, greatest_height};

use parcels::{Effect, Operation, PAIR_BYTES, Reader};
use values::{Fault, Rule, Stack};

/// The height byte of a pair that no path reaches: no height.
pub const NO_HEIGHT: u8 = 255;

/// The most pairs that a code has. Lists with so many entries are long enough for every check.
pub const MAX_PAIRS: usize = 2048;

// What an instruction does to heights: the working cells that it takes and leaves, and its
// successors.
#[derive(Clone, Copy)]
pub struct Transfer {
    pub effect: Effect,
    pub to: [Option<usize>; 2],
}

// The transfer where nothing can be read. The encoding stage leaves no such place.
const NO_TRANSFER: Transfer = Transfer {
    effect: Effect {
        takes: 0,
        leaves: 0,
    },
    to: [None, None],
};

// The transfer of the instruction at a place.
fn transfer_at(code: &[u8], place: usize) -> Transfer
    ensures { result ≡ transfer_of code.now place }
{
    let mut reader = Reader::at(code, place);
    let Ok((instruction, _)) = reader.advance() else {
        return NO_TRANSFER;
    };
    let Ok(operation) = Operation::try_from(instruction.opcode) else {
        return NO_TRANSFER;
    };
    Transfer {
        effect: operation.effect(instruction),
        to: operation
            .flow()
            .successors(code, reader.place, instruction.argument),
    }
}

// The greatest height, 0 if there is none.
pub fn greatest_height(heights: &[u8]) -> u8
    ensures { result ≡ greatest_height heights.now }
{
    heights
        .iter()
        .map(|h| if *h == NO_HEIGHT { 0 } else { *h })
        .max()
        .unwrap_or(0)
}

// Examines the places that paths reach, from place 0 on. The heights are then theirs, unless there
// is a fault.
pub(crate) fn examine(
    code: &[u8],
    limit: u8,
    heights: &mut [u8],
    waiting: &mut [u16],
) -> Result<(), Fault>
    requires some { 0 < length heights.old }
    requires few { length heights.old ≤ MAX_PAIRS }
    requires even { length heights.old ≡ length waiting.old }
    requires whole { length code.now ≡ PAIR_BYTES * length heights.old }
    requires low { limit < NO_HEIGHT }
    ensures { heights_or_fault result heights.new ≡ examined code.now limit heights.old }
{
    heights[0] = 0;
    waiting[0] = 0;
    let mut stack = Stack {
        cells: waiting,
        height: 1,
    };
    // The order of the waiting places is the rule's: it settles which fault is found.
    'examine: loop {
        let Some(newest) = stack.pop() else {
            break Ok(());
        };
        let place = newest as usize;
        let h = heights[place / PAIR_BYTES];
        let transfer = transfer_at(code, place);
        if (h as u16) < transfer.effect.takes {
            break Err(Rule::HeightLow.at(place));
        }
        let after = h as u16 - transfer.effect.takes + transfer.effect.leaves as u16;
        if after > limit as u16 {
            break Err(Rule::HeightOver.at(place));
        }
        let height = after as u8;
        for to in transfer.to {
            if let Some(s) = to {
                if s >= code.len() {
                    break 'examine Err(Rule::FallsOffEnd.at(place));
                }
                if heights[s / PAIR_BYTES] == NO_HEIGHT {
                    heights[s / PAIR_BYTES] = height;
                    stack.push(s as u16).unwrap();
                } else if heights[s / PAIR_BYTES] != height {
                    break 'examine Err(Rule::HeightsDiffer.at(s));
                }
            }
        }
    }
}
