// An instruction's first token, by itself: document 01, "Instruction token".
#![tactic(auto)]

ghost use Rattle.std.specs.Prelude.{◌≡◌};
ghost use Rattle.paper.specs.InstructionToken.{opcode_of, comment_laid, comment_length};
ghost use Rattle.shapes.specs.Rules.{rule_number};
ghost use Rattle.instruction_token.specs.ByShape.{has_zeros, controls_by, sized_by, unsized_by, claim_if, places_by};

use shapes::Rule;

pub fn opcode_of(token: u32) -> u32
    ensures { result ≡ opcode_of token }
{
    token % 0x1_0000
}

pub fn comment_laid(token: u32) -> bool
    ensures { result ≡ comment_laid token }
{
    token / 0x8000_0000 % 2 == 0
}

pub fn comment_length(token: u32) -> u32
    ensures { result ≡ comment_length token }
{
    token / 0x1_0000 % 0x8000
}

// The controls by their rule, where a size is stated.
fn controls_laid(rule: Rule, controls: u32) -> bool
    ensures { result ≡ controls_by (rule_number rule) controls }
{
    match rule {
        Rule::Zero => controls == 0,
        Rule::Texture => controls <= 2,
        _ => 1 <= controls && controls <= 6,
    }
}

// Neither a reserved bit, nor a predicate, nor controls.
pub fn has_zeros(token: u32) -> bool
    ensures { result ≡ has_zeros token }
{
    token / 0x1000_0000 == 0 && token / 0x1_0000 % 0x100 == 0
}

// Bits 31 to 16 where no size is stated: nothing but co-issue.
pub fn unsized_laid(coissued: bool, token: u32) -> bool
    ensures { result ≡ unsized_by coissued token }
{
    token / 0x1_0000 % 0x4000 == 0
        && token / 0x8000_0000 % 2 == 0
        && (token / 0x4000_0000 % 2 == 0 || coissued)
}

// Bits 31 to 16 where a size is stated.
fn sized_laid(shape: u64, token: u32) -> bool
    ensures { result ≡ sized_by shape token }
{
    token / 0x2000_0000 % 8 == 0
        && controls_laid(shapes::rule_in(shape), token / 0x1_0000 % 0x100)
        && (token / 0x1000_0000 % 2 == 0 || shapes::may_be_predicated(shape))
}

// How many tokens an instruction of the table claims behind its first one, by the shape of its opcode: its stated size, or what the shape
// claims where none is stated; none if bits 31 to 16 are not laid out. Most that state a size have zeros there, which only a comparison
// may not.
#[tactic(auto, using(crate::proofs::ByShape::zeros_claim, crate::proofs::ByShape::bare_laid), unfolding(crate::specs::ByShape::claim_if, crate::specs::ByShape::bits_by))]
pub fn claim_of(shape: u64, token: u32) -> Option<u32>
    ensures { result ≡ claim_if shape token }
{
    match shapes::rule_in(shape) {
        Rule::Zero | Rule::Texture if has_zeros(token) => Some(token / 0x100_0000),
        Rule::Sizeless => {
            let laid = token / 0x1_0000 == 0 || unsized_laid(shapes::may_be_coissued(shape), token);
            laid.then_some(shapes::unstated_in(shape))
        }
        _ => sized_laid(shape, token).then_some(token / 0x100_0000 % 16),
    }
}

// The places of the operands, and the predicate's behind the first.
#[tactic(auto, unfolding(crate::specs::ByShape::places_by))]
pub fn places_of(shape: u64, token: u32) -> u64
    ensures { result ≡ places_by shape token }
{
    let row = shapes::places_in(shape);
    if token / 0x1000_0000 % 2 == 1 {
        return row % places::BASE
            + places::BASE * (places::PREDICATE + places::BASE * (row / places::BASE));
    }
    row
}
