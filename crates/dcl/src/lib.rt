// The operands of DCL: document 01, "DCL", with document 02's Q-3 and Q-6.
#![tactic(auto)]

ghost use Rattle.std.specs.Prelude.{◌≡◌, ◌&&◌};
ghost use Rattle.paper.specs.OperandTokens.{type_of, laid};
ghost use Rattle.paper.specs.Places.{declared};
ghost use Rattle.paper.specs.Dcl.{sampler_form, usage_form, form_laid, is_declared, position_or_face, face_laid, usage_laid, declaration};
ghost use Rattle.told.specs.Numbered.{operands_number};

use paper::{Fault, Reason, Version};
use versions::Form;

// The register type of position and face.
const MISCELLANEOUS: u32 = 17;

fn sampler_form(usage: u32) -> bool
    ensures { result ≡ sampler_form usage }
{
    (usage % 0x800_0000 == 0) & ((2 <= usage / 0x800_0000 % 16) & (usage / 0x800_0000 % 16 <= 4))
}

fn usage_form(usage: u32) -> bool
    ensures { result ≡ usage_form usage }
{
    (usage / 0x20 % 0x800 == 0) & ((usage / 0x10_0000 % 0x800 == 0) & (usage % 32 <= 13))
}

// The form that goes with the destination's type: a sampler's, the plain one, or a usage.
fn form_laid(version: Version, destination: u32, usage: u32) -> bool
    ensures { result ≡ form_laid version (type_of destination) usage }
{
    match versions::form_of(version, destination).unwrap_or(Form::Usage) {
        Form::Sampler => sampler_form(usage),
        Form::Plain => usage % 0x8000_0000 == 0,
        Form::Usage => usage_form(usage),
    }
}

fn usage_laid(version: Version, destination: u32, usage: u32) -> bool
    ensures { result ≡ usage_laid version (type_of destination) usage }
{
    let form = form_laid(version, destination, usage);
    (usage / 0x8000_0000 % 2 == 1) & form
}

fn position_or_face(destination: u32) -> bool
    ensures { result ≡ position_or_face destination }
{
    (destination % 0x800 == 0)
        | ((destination % 0x800 == 1)
            & ((destination / 0x1_0000 % 16 == 15) & (destination / 0x10_0000 % 16 == 0)))
}

fn face_laid(version: Version, destination: u32) -> bool
    ensures { result ≡ face_laid version destination }
{
    let declared = versions::declares_face(version);
    let kind = versions::type_of(destination);
    let face = position_or_face(destination);
    !(declared & (kind == MISCELLANEOUS)) | face
}

fn is_declared(version: Version, destination: u32) -> bool
    ensures { result ≡ is_declared version (type_of destination) }
{
    versions::form_of(version, destination).is_some()
}

// Whether the destination is laid out as DCL wants it, type 17's rules among that.
fn destination_laid(version: Version, destination: u32) -> bool
    ensures { result ≡ (laid version declared destination && face_laid version destination) }
{
    let laid = layout::typed_destination_laid(version, destination);
    let face = face_laid(version, destination);
    laid & face
}

// What is told of the tokens behind a DCL's instruction token: U, the destination, and no more. The destination is judged first, then U, then what is
// left over.
pub fn judge_declaration(version: Version, behind: &[u32]) -> u64
    ensures { result ≡ operands_number (declaration version behind.now) }
{
    let &[usage, destination, ..] = behind else {
        return told::refused_first(Reason::Size);
    };
    if !destination_laid(version, destination) {
        return told::refused_by(
            faults::declaration_fault(version, destination, usage, false),
            2,
        );
    }
    if !is_declared(version, destination) {
        return told::refused_by(Some(Fault::of(Reason::Register)), 2);
    }
    if !usage_laid(version, destination, usage) {
        return told::refused_by(
            faults::declaration_fault(version, destination, usage, true),
            1,
        );
    }
    if behind.len() == 2 {
        return told::FIT;
    }
    told::refused_first(Reason::Size)
}
