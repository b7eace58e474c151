// What is told of an instruction and of its operands, one number, made and read back: a yes is even, a refusal odd. No other crate knows what its bits are.
#![tactic(auto)]

ghost use Rattle.std.specs.Prelude.{◌≡◌, ◌%◌, ◌^◌};
ghost use Rattle.paper.specs.Judgements.{as_token, as_judged};
ghost use Rattle.paper.specs.Numbers.{number_of, told_token, reason_by, refusal, told_instruction};
ghost use Rattle.told.specs.Numbered.{yes_number, fault_number, refusal_number, is_refusal, taken_in, size_in, kind_in, is_plain, tells_phase, number_in, bit_in, position_in, class_by, judged_from};

use paper::{Class, Closer, Fault, Instruction, Opener, Reason, Refusal, Single};

// Behind the lowest bit of a yes stands the class, and above it the size.
const HALF: u64 = 2;

const KINDS: u64 = 16;

const WHOLE: u64 = HALF * KINDS;

// Behind the lowest bit of a refusal stands the number of its reason, above it the detail, and above that the position.
const NUMBERS: u64 = 32;

const DETAILS: u64 = 32;

const DETAILED: u64 = HALF * NUMBERS;

const PLACED: u64 = DETAILED * DETAILS;

// The class of a plain instruction and that of PHASE, as a yes of any size has them.
const PLAIN: u64 = HALF;

const PHASE: u64 = 13 * HALF;

// Operands that fit; an operand that takes one token, and one that takes two.
pub const FIT: u64 = 0;

pub const ONE_TAKEN: u64 = HALF;

pub const TWO_TAKEN: u64 = 2 * HALF;

// The classes of a comment and of END, which no row of the table has.
pub const COMMENT: u64 = 0;

pub const END: u64 = 12;

// A yes: so many tokens behind the first, and the number of a class; as 64 bits hold it, if there is no such class.
pub fn yes(size: u32, class: u64) -> u64
    ensures { result ≡ yes_number size class % 2 ^ 64 }
{
    let doubled = std::num::wrapping_add_u64(class, class);
    std::num::wrapping_add_u64(WHOLE * size as u64, doubled)
}

// A refusal: what is told of its fault, the number of its reason and above it the bit, and its position from the first token on.
pub fn refused(fault: u32, position: u32) -> u64
    ensures { result ≡ fault_number fault position }
{
    PLACED * position as u64 + (HALF * fault as u64 + 1)
}

// The same by the fault itself; where there is none, by number 0.
pub fn refused_by(fault: Option<Fault>, position: u32) -> u64
    ensures { result ≡ fault_number (told_token (as_token fault)) position }
{
    match fault {
        Some(fault) => {
            let told = paper::number_of(fault.reason) as u64 + NUMBERS * fault.bit as u64;
            PLACED * position as u64 + (HALF * told + 1)
        }
        None => refused(0, position),
    }
}

// A refusal of the whole instruction, which stands at its first token.
pub fn refused_first(reason: Reason) -> u64
    ensures { result ≡ refusal_number (refusal reason 0) }
{
    refused(paper::number_of(reason), 0)
}

pub fn is_refused(told: u64) -> bool
    ensures { result ≡ is_refusal told }
{
    told % HALF == 1
}

// Whether it is a yes for an instruction that neither opens nor closes a block and may stand anywhere.
pub fn is_plain(told: u64) -> bool
    ensures { result ≡ is_plain told }
{
    told % WHOLE == PLAIN
}

// Whether it is a yes for a PHASE.
pub fn is_phase(told: u64) -> bool
    ensures { result ≡ tells_phase told }
{
    told % WHOLE == PHASE
}

// How many tokens an operand takes.
pub fn taken_of(told: u64) -> usize
    ensures { result ≡ taken_in told }
{
    (told / HALF) as usize
}

// How many tokens a yes takes behind the first.
pub fn size_of(told: u64) -> usize
    ensures { result ≡ size_in told }
{
    (told / WHOLE) as usize
}

// The number of a yes's class.
pub fn class_of(told: u64) -> u64
    ensures { result ≡ kind_in told }
{
    told / HALF % KINDS
}

fn class_by(number: u64) -> Class
    ensures { result ≡ class_by number }
{
    match number {
        0 => Class::One(Single::Comment),
        1 => Class::One(Single::Plain),
        2 => Class::One(Single::Break),
        3 => Class::One(Single::Label),
        4 => Class::One(Single::Return),
        5 => Class::Opens(Opener::If),
        6 => Class::Opens(Opener::Loop),
        7 => Class::Opens(Opener::Rep),
        8 => Class::Closes(Closer::Else),
        9 => Class::Closes(Closer::EndIf),
        10 => Class::Closes(Closer::EndLoop),
        11 => Class::Closes(Closer::EndRep),
        13 => Class::One(Single::Phase),
        _ => Class::Closes(Closer::End),
    }
}

fn reason_by(number: u64) -> Reason
    ensures { result ≡ reason_by number }
{
    match number {
        1 => Reason::Length,
        2 => Reason::Version,
        3 => Reason::Opcode,
        4 => Reason::Bits,
        5 => Reason::RunOut,
        6 => Reason::Size,
        8 => Reason::Register,
        9 => Reason::Block,
        10 => Reason::Depth,
        11 => Reason::Tail,
        12 => Reason::Place,
        13 => Reason::Room,
        14 => Reason::Record,
        16 => Reason::Reserved,
        17 => Reason::Modifier,
        _ => Reason::Relative,
    }
}

// The reason of a refusal.
pub fn reason_of(told: u64) -> Reason
    ensures { number_of result ≡ number_of (reason_by (number_in told)) }
{
    reason_by(told / HALF % NUMBERS)
}

// The detail of a refusal.
pub fn bit_of(told: u64) -> usize
    ensures { result ≡ bit_in told }
{
    (told / DETAILED % DETAILS) as usize
}

// The position of a refusal.
pub fn position_of(told: u64) -> usize
    ensures { result ≡ position_in told }
{
    (told / PLACED) as usize
}

// What such a number tells: the instruction, or why there is none.
pub fn judged_of(told: u64) -> Result<Instruction, Refusal>
    ensures { told_instruction (as_judged result) ≡ told_instruction (judged_from told) }
{
    if is_refused(told) {
        return Err(Refusal {
            reason: reason_by(told / HALF % NUMBERS),
            position: position_of(told),
            detail: bit_of(told),
        });
    }
    Ok(Instruction {
        size: size_of(told),
        class: class_by(told / HALF % KINDS),
    })
}
