// The words of document 01 that code and definitions share. The definitions themselves stand in specs/, a file to a section.
#![tactic(auto)]

ghost use Rattle.std.specs.Prelude.{◌≡◌};
ghost use Rattle.paper.specs.Numbers.{number_of, refusal};

// "fewer than 2 or more than 16,384 tokens"
pub const FEWEST_TOKENS: usize = 2;

pub const MOST_TOKENS: usize = 16384;

// Opcodes that are judged apart.
pub const DCL: u32 = 31;

pub const PHASE: u32 = 0xFFFD;

pub const COMMENT: u32 = 0xFFFE;

pub const END: u32 = 0xFFFF;

// "The base knows four versions"; document 02, Q-4, adds vs_1_1 and ps_1_1 to ps_1_4.
#[derive(Clone, Copy)]
pub enum Version {
    V2,
    V3,
    P2,
    P3,
    P11,
    P12,
    P13,
    P14,
    V1,
}

// "The numbers given back", and those of document 02.
#[derive(Clone, Copy)]
pub enum Reason {
    Length = 1,
    Version = 2,
    Opcode = 3,
    Bits = 4,
    RunOut = 5,
    Size = 6,
    Register = 8,
    Block = 9,
    Depth = 10,
    Tail = 11,
    Place = 12,
    Room = 13,
    Record = 14,
    Reserved = 16,
    Modifier = 17,
    Relative = 18,
}

pub fn number_of(reason: Reason) -> u32
    ensures { result ≡ number_of reason }
{
    reason as u32
}

// What is wrong with a token: why, and the lowest offending bit of its layout; 0 where the number says all.
#[derive(Clone, Copy)]
pub struct Fault {
    pub reason: Reason,
    pub bit: u32,
}

impl Fault {
    // A fault of which the number says all.
    pub fn of(reason: Reason) -> Fault
        ensures { result ≡ record { reason = reason; bit = 0 } }
    {
        Fault { reason, bit: 0 }
    }
}

// A refusal: why, the position of a token, and what the number says besides, of an operand's layout the lowest offending bit; else 0.
#[derive(Clone, Copy)]
pub struct Refusal {
    pub reason: Reason,
    pub position: usize,
    pub detail: usize,
}

impl Refusal {
    // A refusal of which the number says all.
    pub fn at(position: usize, reason: Reason) -> Refusal
        ensures { result ≡ refusal reason position }
    {
        Refusal {
            reason,
            position,
            detail: 0,
        }
    }
}

// "an item is one instruction or a block": what an instruction is to the blocks around it.
#[derive(Clone, Copy, PartialEq, Eq)]
pub enum Single {
    Comment,
    Plain,
    Break,
    Label,
    Return,
    Phase,
}

#[derive(Clone, Copy, PartialEq, Eq)]
pub enum Opener {
    If,
    Loop,
    Rep,
}

#[derive(Clone, Copy, PartialEq, Eq)]
pub enum Closer {
    Else,
    EndIf,
    EndLoop,
    EndRep,
    End,
}

#[derive(Clone, Copy)]
pub enum Class {
    One(Single),
    Opens(Opener),
    Closes(Closer),
}

// One instruction that is laid out right: how many tokens it takes behind its first one, and its class.
#[derive(Clone, Copy)]
pub struct Instruction {
    pub size: usize,
    pub class: Class,
}

// A whole stream, judged: the number of its instructions.
pub type Verdict = Result<usize, Refusal>;
