// The layout of operand tokens: document 01, "Operand tokens", with document 02's Q-4.
#![tactic(auto)]

ghost use Rattle.std.specs.Prelude.{◌≡◌, ◌&&◌, ◌||◌, eqb};
ghost use Rattle.paper.specs.Notation.{bits, bit};
ghost use Rattle.paper.specs.Versions.{is_pixel};
ghost use Rattle.paper.specs.Places.{free_destination, free_source, declared, condition, predicate, relative};
ghost use Rattle.paper.specs.OperandTokens.{type_of, modifier_of, both_laid, relative_sources, marked_sources, has_shift_scale, negated, source_modifier, laid};
ghost use Rattle.versions.specs.Sets.{holds};

use paper::Version;

// Sets of modifiers: each raises its own bit.
const PLAIN_MODIFIERS: u32 = 0b1_1000_0111_1111;

const FURTHER_MODIFIERS: u32 = 0b111_1000_0000;

// The modifier that negates a predicate, and the register type that alone takes it.
const NEGATED: u32 = 13;

const PREDICATE_REGISTER: u32 = 19;

// What sources and destinations have in common.
fn both_laid(token: u32) -> bool
    ensures { result ≡ both_laid token }
{
    token / 0x4000 % 4 == 0 && token / 0x8000_0000 % 2 == 1
}

// Bit 13 is zero: no relative token follows.
fn is_absolute(token: u32) -> bool
    ensures { result ≡ eqb (bit 13 token) 0 }
{
    token / 0x2000 % 2 == 0
}

// Bits 21 and 22: "pixel only".
fn result_laid(version: Version, token: u32) -> bool
    ensures { result ≡ (eqb (bits 22 21 token) 0 || is_pixel version) }
{
    token / 0x20_0000 % 4 == 0 || versions::is_pixel(version)
}

// Bits 27:24, the shift scale: free in some versions, else zero.
fn scale_laid(version: Version, token: u32) -> bool
    ensures { result ≡ (eqb (bits 27 24 token) 0 || has_shift_scale version) }
{
    token / 0x100_0000 % 16 == 0 || versions::has_shift_scale(version)
}

// What destinations have in common: all but bit 13.
fn written_laid(version: Version, token: u32) -> bool
    ensures { result ≡ (both_laid token && ((eqb (bits 22 21 token) 0 || is_pixel version) && (eqb (bit 23 token) 0 && (eqb (bits 27 24 token) 0 || has_shift_scale version)))) }
{
    both_laid(token)
        && result_laid(version, token)
        && token / 0x80_0000 % 2 == 0
        && scale_laid(version, token)
}

pub fn free_destination_laid(version: Version, token: u32) -> bool
    ensures { result ≡ laid version free_destination token }
{
    written_laid(version, token) && (is_absolute(token) || versions::relative_destinations(version))
}

// What is left to ask of a destination at a place that is not free where there is a shift scale: such versions are pixel versions.
fn scaled_laid(token: u32) -> bool
    ensures { result ≡ (both_laid token && (eqb (bit 23 token) 0 && eqb (bit 13 token) 0)) }
{
    both_laid(token) && token / 0x80_0000 % 2 == 0 && is_absolute(token)
}

// A destination at a place that is not free, as DCL's is: bit 13 is zero.
pub fn typed_destination_laid(version: Version, token: u32) -> bool
    ensures { result ≡ laid version declared token }
{
    if versions::has_shift_scale(version) {
        return scaled_laid(token);
    }
    written_laid(version, token) && is_absolute(token)
}

// Whether a token's modifier is one of a set.
#[tactic(auto, unfolding(versions::specs::Sets::holds))]
fn modifier_in(set: u32, token: u32) -> bool
    ensures { result ≡ holds set (modifier_of token) }
{
    (set >> (token / 0x100_0000 % 16)) % 2 == 1
}

// "modifier D", of a predicate alone
fn is_negated(token: u32) -> bool
    ensures { result ≡ negated (modifier_of token) (type_of token) }
{
    token / 0x100_0000 % 16 == NEGATED && versions::type_of(token) == PREDICATE_REGISTER
}

#[tactic(auto, using(crate::proofs::Layouts::source_modifier_lem))]
pub fn source_modifier(version: Version, token: u32) -> bool
    ensures { result ≡ source_modifier version (modifier_of token) (type_of token) }
{
    modifier_in(PLAIN_MODIFIERS, token)
        || versions::has_further(version) && modifier_in(FURTHER_MODIFIERS, token)
        || is_negated(token)
}

// What most sources have in common: all but bit 13.
fn read_laid(version: Version, token: u32) -> bool
    ensures { result ≡ (both_laid token && source_modifier version (modifier_of token) (type_of token)) }
{
    both_laid(token) && source_modifier(version, token)
}

pub fn free_source_laid(version: Version, token: u32) -> bool
    ensures { result ≡ laid version free_source token }
{
    read_laid(version, token) && (is_absolute(token) || versions::relative_sources(version))
}

// A source at a place that is not free, as a condition's is: bit 13 is zero, or brings no token.
pub fn typed_source_laid(version: Version, token: u32) -> bool
    ensures { result ≡ laid version condition token }
{
    read_laid(version, token) && (is_absolute(token) || versions::marked_sources(version))
}

// A source at a place that is free exactly if sizes are stated: bit 13 is zero, or the version's sources may have it.
pub fn any_source_laid(version: Version, token: u32) -> bool
    ensures { result ≡ ((both_laid token && source_modifier version (modifier_of token) (type_of token)) && (eqb (bit 13 token) 0 || (relative_sources version || marked_sources version))) }
{
    read_laid(version, token)
        && (is_absolute(token)
            || versions::relative_sources(version)
            || versions::marked_sources(version))
}

// What the predicate and a relative token have in common: bit 13 is zero.
fn unfree_laid(token: u32) -> bool
    ensures { result ≡ (both_laid token && eqb (bit 13 token) 0) }
{
    both_laid(token) && is_absolute(token)
}

// "modifier 0 or D"
pub fn predicate_laid(version: Version, token: u32) -> bool
    ensures { result ≡ laid version predicate token }
{
    unfree_laid(token) && (token / 0x100_0000 % 16 == 0 || is_negated(token))
}

// "bit 13 and modifier zero"
pub fn relative_laid(version: Version, token: u32) -> bool
    ensures { result ≡ laid version relative token }
{
    unfree_laid(token) && token / 0x100_0000 % 16 == 0
}
