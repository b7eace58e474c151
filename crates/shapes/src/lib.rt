// The shape of an opcode in a version: what the tables say of it, as one number, and its fields.
#![tactic(auto)]

ghost use Rattle.std.specs.Prelude.{◌≡◌};
ghost use Rattle.shapes.specs.Rules.{rule_number};
ghost use Rattle.shapes.specs.Shape.{places_field, predicable_in, rule_in, coissue_in, unstated_in, class_in};

// A shape's number: the bit of an instruction that may be predicated, where its rule of the controls begins, the bit that is one, the bit of a
// version with co-issue, where its claim begins if no size is stated, its class. Below them stand its places.
pub const PREDICABLE: u64 = 0x8_0000_0000;

pub const RULE: u64 = 0x10_0000_0000;

pub const LISTED: u64 = 0x40_0000_0000;

pub const COISSUE: u64 = 0x80_0000_0000;

pub const UNSTATED: u64 = 0x100_0000_0000;

// What an opcode is to the blocks, as specs/Classes.antt numbers it; a number, since what is told of an instruction has it as one too.
pub const CLASS: u64 = 0x800_0000_0000;

pub const PLAIN: u64 = LISTED + CLASS;

// The rule that the controls obey, by its number in a shape: "Bits 23:16 are 1 to 6 for IFC, BREAKC, SETP; 0 to 2 for TEX; else 0"; and that
// of a version without sizes, where controls and size are zero.
#[derive(Clone, Copy, PartialEq, Eq)]
pub enum Rule {
    Zero,
    Comparison,
    Texture,
    Sizeless,
}

// The fields of a shape: its places, as one number; whether the instruction may be predicated; the rule of the controls; whether it may be
// co-issued; how many tokens it claims if it states no size; the number of its class.
pub fn places_in(shape: u64) -> u64
    ensures { result ≡ places_field shape }
{
    shape % PREDICABLE
}

pub fn may_be_predicated(shape: u64) -> bool
    ensures { result ≡ predicable_in shape }
{
    shape / PREDICABLE % 2 == 1
}

pub fn rule_in(shape: u64) -> Rule
    ensures { rule_number result ≡ rule_in shape }
{
    match shape / RULE % (LISTED / RULE) {
        0 => Rule::Zero,
        1 => Rule::Comparison,
        2 => Rule::Texture,
        _ => Rule::Sizeless,
    }
}

pub fn may_be_coissued(shape: u64) -> bool
    ensures { result ≡ coissue_in shape }
{
    shape / COISSUE % 2 == 1
}

pub fn unstated_in(shape: u64) -> u32
    ensures { result ≡ unstated_in shape }
{
    (shape / UNSTATED % (CLASS / UNSTATED)) as u32
}

pub fn class_in(shape: u64) -> u64
    ensures { result ≡ class_in shape }
{
    shape / CLASS
}
