// Which operand of which instruction a token is whose layout is refused: for the line behind the verdict, which tells people.
use paper::Version;

// The number of an operand, from 1 on and the predicate not counted, which has 0; and its place.
#[derive(Clone, Copy, Default)]
pub struct Operand {
    pub number: usize,
    pub place: u64,
}

// The position of an instruction, and the operand of it that a token belongs to, if there is one.
#[derive(Clone, Copy)]
pub struct Fault {
    pub instruction: usize,
    pub operand: Option<Operand>,
}

// The token at a position, or 0 where there is none.
pub(crate) fn token_at(tokens: &[u32], position: usize) -> u32 {
    tokens.get(position).copied().unwrap_or(0)
}

// Where the instruction begins that is refused. Those before it are read one after the other; there are fewer of them than tokens.
fn refused_instruction(version: u32, tokens: &[u32]) -> usize {
    let mut at = 1;
    for _ in tokens {
        match reader::read(version, tokens, at) {
            Ok(reading) => at = reading.next,
            Err(_) => return at,
        }
    }
    at
}

// The operand of an instruction, its places being these, to which the token at a position belongs. A digit of `places` is a place, the first
// one lowest; an iterator of digits would be written for this loop alone.
fn operand_at(places: u64, tokens: &[u32], instruction: usize, position: usize) -> Option<Operand> {
    let mut left = places;
    let mut at = instruction.wrapping_add(1);
    let mut counted = 0usize;
    while left != 0 {
        let place = left % places::BASE;
        let is_counted = !places::is_predicate(place);
        if is_counted {
            counted = counted.wrapping_add(1);
        }
        if position == at {
            let number = if is_counted { counted } else { 0 };
            return Some(Operand { number, place });
        }
        if tokens::brings_relative(place, token_at(tokens, at)) {
            at = at.wrapping_add(1);
            if position == at {
                return Some(Operand {
                    number: counted,
                    place: places::RELATIVE,
                });
            }
        }
        at = at.wrapping_add(1);
        left /= places::BASE;
    }
    None
}

fn operand_in(
    known: Version,
    tokens: &[u32],
    instruction: usize,
    position: usize,
) -> Option<Operand> {
    let first = token_at(tokens, instruction);
    let shape = opcodes::shape_of(known, instruction_token::opcode_of(first));
    operand_at(
        instruction_token::places_of(shape, first),
        tokens,
        instruction,
        position,
    )
}

pub(crate) fn fault_at(version: u32, tokens: &[u32], position: usize) -> Fault {
    let instruction = refused_instruction(version, tokens);
    let operand = versions::version_of(version).and_then(|known| operand_in(
        known,
        tokens,
        instruction,
        position,
    ));
    Fault {
        instruction,
        operand,
    }
}
