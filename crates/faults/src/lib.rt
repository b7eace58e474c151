// What is wrong with the layout of a token, if anything is, and the lowest offending bit: document 02, Q-3. It is asked only where a layout is not as
// document 01 says, so that nothing here is on the way of a lawful stream.
#![tactic(auto)]

ghost use Rattle.std.specs.Prelude.{◌≡◌, ◌||◌, ◌&&◌, true, false, [], eqb, leb, ◌≤◌};
ghost use Rattle.paper.specs.Notation.{bit, bits, pick};
ghost use Rattle.paper.specs.Judgements.{as_token};
ghost use Rattle.paper.specs.Faults.{span, unless, offends, lowest, fault_by};
ghost use Rattle.paper.specs.OperandTokens.{type_of, modifier_of, negated, written_zeros, fault_at};
ghost use Rattle.paper.specs.Dcl.{is_miscellaneous, is_face, declared_zeros, declared_fields, declared_fault, usage_fault};
ghost use Rattle.places.specs.Places.{place_by};
ghost use Rattle.versions.specs.Sets.{set_of};
ghost use Rattle.faults.specs.BySets.{offends_in};

use paper::{Fault, Reason, Version};
use versions::Form;

// The bits that tell of bit 31, of a modifier and of relative addressing.
const LAST_BIT: u32 = 31;

const MODIFIER_BIT: u32 = 24;

const RELATIVE_BIT: u32 = 13;

// Bits that must be zero: of every operand token 15:14, of a destination 23 too, 22:21 in a vertex version, and 27:24 where there is no shift scale.
const COMMON: u32 = 0xC000;

const WRITTEN: u32 = 0x80_C000;

const PIXEL_ALONE: u32 = 0x60_0000;

const SHIFT_SCALE: u32 = 0xF00_0000;

// What a face has zero in the one version that has it.
const FACE: u32 = 0xFF0_C000;

// What each form of U has zero.
const SAMPLER: u32 = 0x7FF_FFFF;

const PLAIN: u32 = 0x7FFF_FFFF;

const USAGE: u32 = 0x7FF0_FFE0;

// The register type of position and face, and the one that alone may be negated.
const MISCELLANEOUS: u32 = 17;

const PREDICATE_REGISTER: u32 = 19;

const NEGATED: u32 = 13;

// The lowest of bits 30:0 that must be zero and is not, or that tells of a field; 31 where there is none.
fn lowest_offending(zeros: u32, fields: u32, token: u32) -> u32
    ensures is { result ≡ lowest (offends_in zeros fields token) }
    ensures few { result ≤ 31 }
{
    ((zeros & token) | fields | (1 << LAST_BIT)).trailing_zeros()
}

// What is told of a token: bit 31 first, then the reserved bits, then relative addressing, then the modifier.
fn fault_by(
    zeros: u32,
    fields: u32,
    token: u32,
    relative_laid: bool,
    modifier_laid: bool,
) -> Option<Fault>
    ensures { as_token result ≡ fault_by token (offends_in zeros fields token) relative_laid modifier_laid }
{
    if token / 0x8000_0000 % 2 == 0 {
        return Some(Fault {
            reason: Reason::Reserved,
            bit: LAST_BIT,
        });
    }
    let lowest = lowest_offending(zeros, fields, token);
    if lowest < LAST_BIT {
        return Some(Fault {
            reason: Reason::Reserved,
            bit: lowest,
        });
    }
    if !relative_laid {
        return Some(Fault {
            reason: Reason::Relative,
            bit: RELATIVE_BIT,
        });
    }
    if !modifier_laid {
        return Some(Fault {
            reason: Reason::Modifier,
            bit: MODIFIER_BIT,
        });
    }
    None
}

// The bits of a destination that must be zero.
fn written_zeros(version: Version) -> u32
    ensures { result ≡ set_of (written_zeros version) }
{
    let mut zeros = WRITTEN;
    if !versions::is_pixel(version) {
        zeros += PIXEL_ALONE;
    }
    if !versions::has_shift_scale(version) {
        zeros += SHIFT_SCALE;
    }
    zeros
}

fn written_fault(version: Version, token: u32, may_be_relative: bool) -> Option<Fault>
    ensures { as_token result ≡ fault_by token (offends (written_zeros version) [] token) (eqb (bit 13 token) 0 || may_be_relative) true }
{
    let zeros = written_zeros(version);
    fault_by(
        zeros,
        0,
        token,
        (token / 0x2000 % 2 == 0) | may_be_relative,
        true,
    )
}

fn read_fault(token: u32, may_be_relative: bool, modifier_laid: bool) -> Option<Fault>
    ensures { as_token result ≡ fault_by token (offends (span 15 14) [] token) (eqb (bit 13 token) 0 || may_be_relative) modifier_laid }
{
    fault_by(
        COMMON,
        0,
        token,
        (token / 0x2000 % 2 == 0) | may_be_relative,
        modifier_laid,
    )
}

// "modifier 0 or D"
fn predicate_modifier(token: u32) -> bool
    ensures { result ≡ (eqb (modifier_of token) 0 || negated (modifier_of token) (type_of token)) }
{
    let modifier = token / 0x100_0000 % 16;
    (modifier == 0) | ((modifier == NEGATED) & (versions::type_of(token) == PREDICATE_REGISTER))
}

// What is wrong with a token at its place; nothing at a place that is kept as it stands.
pub fn fault_at(version: Version, place: u64, token: u32) -> Option<Fault>
    ensures { as_token result ≡ fault_at version (place_by place) token }
{
    if places::is_raw(place) {
        return None;
    }
    if places::is_destination(place) {
        let relative = versions::relative_destinations(version);
        return written_fault(
            version,
            token,
            (place == places::FREE_DESTINATION) & relative,
        );
    }
    if place == places::PREDICATE {
        return read_fault(token, false, predicate_modifier(token));
    }
    if place == places::RELATIVE {
        return read_fault(token, false, token / 0x100_0000 % 16 == 0);
    }
    let lawful = layout::source_modifier(version, token);
    if place == places::FREE_SOURCE {
        return read_fault(token, versions::relative_sources(version), lawful);
    }
    read_fault(token, versions::marked_sources(version), lawful)
}

// Whether a DCL's destination is position or face, or was meant to be.
fn is_miscellaneous(version: Version, token: u32) -> bool
    ensures { result ≡ is_miscellaneous version token }
{
    let declared = versions::declares_face(version);
    let kind = versions::type_of(token);
    declared & (kind == MISCELLANEOUS)
}

fn is_face(version: Version, token: u32) -> bool
    ensures { result ≡ is_face version token }
{
    let miscellaneous = is_miscellaneous(version, token);
    miscellaneous & (token % 0x800 == 1)
}

fn declared_zeros(version: Version, token: u32) -> u32
    ensures { result ≡ set_of (declared_zeros version token) }
{
    if is_face(version, token) {
        return FACE;
    }
    written_zeros(version)
}

// The number is told by bit 0, the mask of a face by bit 16.
fn declared_fields(version: Version, token: u32) -> u32
    ensures { result ≡ set_of (declared_fields version token) }
{
    if is_face(version, token) {
        if token / 0x1_0000 % 16 == 15 {
            return 0;
        }
        return 1 << 16;
    }
    if is_miscellaneous(version, token) {
        if token % 0x800 <= 1 {
            return 0;
        }
        return 1 << 0;
    }
    0
}

// What is wrong with a DCL's destination. Never in the judge's own code, as what follows: it would lengthen the way of a lawful DCL.
#[inline(never)]
pub fn declared_fault(version: Version, token: u32) -> Option<Fault>
    ensures { as_token result ≡ declared_fault version token }
{
    let zeros = declared_zeros(version, token);
    let fields = declared_fields(version, token);
    fault_by(zeros, fields, token, token / 0x2000 % 2 == 0, true)
}

// The texture type is told by bit 27, the usage by bit 0.
fn texture_field(usage: u32) -> u32
    ensures { result ≡ set_of (unless (leb 2 (bits 30 27 usage) && leb (bits 30 27 usage) 4) 27) }
{
    let texture = usage / 0x800_0000 % 16;
    if (2 <= texture) & (texture <= 4) {
        return 0;
    }
    1 << 27
}

fn usage_field(usage: u32) -> u32
    ensures { result ≡ set_of (unless (leb (bits 4 0 usage) 13) 0) }
{
    if usage % 32 <= 13 {
        return 0;
    }
    1 << 0
}

// What is wrong with U, whose form goes with the destination's type.
#[inline(never)]
pub fn usage_fault(version: Version, destination: u32, usage: u32) -> Option<Fault>
    ensures { as_token result ≡ usage_fault version (type_of destination) usage }
{
    match versions::form_of(version, destination).unwrap_or(Form::Usage) {
        Form::Sampler => fault_by(SAMPLER, texture_field(usage), usage, true, true),
        Form::Plain => fault_by(PLAIN, 0, usage, true, true),
        Form::Usage => fault_by(USAGE, usage_field(usage), usage, true, true),
    }
}

// What is wrong with a token of a DCL, U or the destination.
pub fn declaration_fault(
    version: Version,
    destination: u32,
    usage: u32,
    in_usage: bool,
) -> Option<Fault>
    ensures { as_token result ≡ pick in_usage (usage_fault version (type_of destination) usage) (declared_fault version destination) }
{
    if in_usage {
        return usage_fault(version, destination, usage);
    }
    declared_fault(version, destination)
}
