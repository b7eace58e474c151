// One instruction, judged on its own tokens: document 01, "The numbers given back", the order within one instruction.
#![tactic(auto)]

ghost use Rattle.std.specs.Prelude.{◌≡◌, ◌+◌, ◌<◌, leb, length};
ghost use Rattle.paper.specs.InstructionToken.{opcode_of};
ghost use Rattle.paper.specs.Blocks.{class_of};
ghost use Rattle.paper.specs.Instruction.{operation, operands_of, by_head};
ghost use Rattle.shapes.specs.Classes.{class_number};
ghost use Rattle.shapes.specs.Shape.{class_in};
ghost use Rattle.told.specs.Numbered.{operands_number, judged_number};
ghost use Rattle.instruction.specs.Shown.{places_in, judged_in, unlisted_in};

use paper::{Reason, Version};

// The operands of an instruction that claims these tokens.
fn judge_claimed(version: Version, shape: u64, first: u32, behind: &[u32]) -> u64
    ensures { result ≡ operands_number (operands_of version (opcode_of first) (places_in shape first) behind.now) }
{
    if instruction_token::opcode_of(first) == paper::DCL {
        return dcl::judge_declaration(version, behind);
    }
    operands::judge_operands(version, instruction_token::places_of(shape, first), behind)
}

// An instruction whose opcode has this shape, and which claims so many tokens.
fn judge_listed(version: Version, shape: u64, first: u32, claim: u32, behind: &[u32]) -> u64
    requires { (class_in shape ≡ class_number (class_of (opcode_of first))) × (claim < 16) }
    ensures { result ≡ judged_number (by_head version (operation (places_in shape first) claim) (opcode_of first) behind.now) }
{
    let size = claim as usize;
    let shown = behind.len();
    if shown < size {
        return told::refused_first(Reason::RunOut);
    }
    let told = judge_claimed(version, shape, first, &behind[..size]);
    if told == told::FIT {
        return told::yes(claim, shapes::class_in(shape));
    }
    told
}

// Whether so many tokens are there, of which some are shown and `beyond` more are there. No sum is made, which might not fit.
fn are_there(claimed: usize, shown: usize, beyond: usize) -> bool
    ensures { result ≡ leb claimed (shown + beyond) }
{
    claimed.saturating_sub(shown) <= beyond
}

// An instruction whose opcode is in no row of its version, where behind its first token so many are shown and `beyond` more are there.
#[tactic(auto, unfolding(crate::specs::Shown::unlisted_in))]
fn judge_unlisted(first: u32, shown: usize, beyond: usize) -> u64
    ensures { result ≡ judged_number (unlisted_in first (shown + beyond)) }
{
    match instruction_token::opcode_of(first) {
        paper::COMMENT if instruction_token::comment_laid(first) => {
            let length = instruction_token::comment_length(first);
            if are_there(length as usize, shown, beyond) {
                told::yes(length, told::COMMENT)
            } else {
                told::refused_first(Reason::RunOut)
            }
        }
        paper::END if first == paper::END => told::yes(0, told::END),
        paper::COMMENT | paper::END => told::refused_first(Reason::Bits),
        _ => told::refused_first(Reason::Opcode),
    }
}

// The instruction whose first token this is. Of the tokens behind it the first fifteen are shown, or all, and `beyond` more are there:
// nothing but a comment claims more, and a comment's are not looked at.
#[tactic(auto, using(crate::proofs::Judging::first_laws))]
pub fn judge_first(version: Version, first: u32, behind: &[u32], beyond: usize) -> u64
    ensures { result ≡ judged_number (judged_in version first behind.now (length behind.now + beyond)) }
{
    let shape = opcodes::shape_of(version, instruction_token::opcode_of(first));
    if shape == 0 {
        return judge_unlisted(first, behind.len(), beyond);
    }
    match instruction_token::claim_of(shape, first) {
        Some(claim) => judge_listed(version, shape, first, claim, behind),
        None => told::refused_first(Reason::Bits),
    }
}
