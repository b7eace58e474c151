// Versions, and what each has: document 01, "What the build does", and what its other sections and document 02's Q-4 say of versions.
#![tactic(auto)]

ghost use Rattle.std.specs.Prelude.{◌≡◌, ◌≢◌, ◌<◌, ◌/◌, ◌%◌, eqb};
ghost use Rattle.paper.specs.Notation.{among};
ghost use Rattle.paper.specs.Versions.{has, named, is_pixel, has_sizes, has_predicates};
ghost use Rattle.paper.specs.Numbers.{told_named};
ghost use Rattle.paper.specs.OperandTokens.{relative_sources, relative_destinations, marked_sources, has_shift_scale, has_further, type_of, free_destination_types, free_source_types, condition_types, relative_types};
ghost use Rattle.paper.specs.Dcl.{declares_face};
ghost use Rattle.versions.specs.Sets.{set_of, holds};
ghost use Rattle.versions.specs.Rows.{form_of, rank, row_number};
ghost use Rattle.versions.specs.Forms.{form_number};

use paper::Version;

// The version whose first token this is.
pub fn version_of(token: u32) -> Option<Version>
    ensures { told_named result ≡ told_named (named token) }
{
    match token {
        0xFFFE_0200 => Some(Version::V2),
        0xFFFE_0300 => Some(Version::V3),
        0xFFFF_0200 => Some(Version::P2),
        0xFFFF_0300 => Some(Version::P3),
        0xFFFE_0101 => Some(Version::V1),
        0xFFFF_0101 => Some(Version::P11),
        0xFFFF_0102 => Some(Version::P12),
        0xFFFF_0103 => Some(Version::P13),
        0xFFFF_0104 => Some(Version::P14),
        _ => None,
    }
}

// The forms of U, by the digit that a row has for them; 0 is that of a type that is not declared.
#[derive(Clone, Copy, PartialEq, Eq)]
pub enum Form {
    Sampler = 1,
    Plain = 2,
    Usage = 3,
}

// What a version has, one number of specs/Rows.antt for each: a bit for each property, and the rank.
const PIXEL: u64 = 0x100_0000_0000;

const PREDICATES: u64 = 0x200_0000_0000;

const RELATIVE_SOURCES: u64 = 0x400_0000_0000;

const RELATIVE_DESTINATIONS: u64 = 0x800_0000_0000;

const ADDRESSES: u64 = 0x1000_0000_0000;

const FACE: u64 = 0x2000_0000_0000;

const SHIFT_SCALES: u64 = 0x4000_0000_0000;

const FURTHER_MODIFIERS: u64 = 0x8000_0000_0000;

const MARKED_SOURCES: u64 = 0x1_0000_0000_0000;

const SIZES: u64 = 0x2_0000_0000_0000;

const RANK: u64 = 0x4_0000_0000_0000;

// Below them, a digit of base 4 for each register type: the form of U that DCL takes with it. These are the types that are declared.
const INPUT: u64 = 1 << 2;

const TEXTURE: u64 = 1 << 6;

const OUTPUT: u64 = 1 << 12;

const SAMPLER: u64 = 1 << 20;

const MISCELLANEOUS: u64 = 1 << 34;

const FORMS: u64 = 4;

const SAMPLER_FORM: u64 = Form::Sampler as u64;

const PLAIN_FORM: u64 = Form::Plain as u64;

const USAGE_FORM: u64 = Form::Usage as u64;

// The rows.
const VS_2_0: u64 = USAGE_FORM * INPUT + RELATIVE_SOURCES + ADDRESSES + SIZES;

const VS_3_0: u64 = SAMPLER_FORM * SAMPLER
    + USAGE_FORM * (INPUT + OUTPUT)
    + PREDICATES
    + RELATIVE_SOURCES
    + RELATIVE_DESTINATIONS
    + ADDRESSES
    + SIZES
    + RANK;

const PS_2_0: u64 = SAMPLER_FORM * SAMPLER
    + PLAIN_FORM * (INPUT + TEXTURE)
    + PIXEL
    + ADDRESSES
    + SIZES
    + 2 * RANK;

const PS_3_0: u64 = SAMPLER_FORM * SAMPLER
    + PLAIN_FORM * MISCELLANEOUS
    + USAGE_FORM * (INPUT + TEXTURE)
    + PIXEL
    + PREDICATES
    + RELATIVE_SOURCES
    + FACE
    + SIZES
    + 3 * RANK;

const VS_1_1: u64 = USAGE_FORM * INPUT + MARKED_SOURCES + 8 * RANK;

const PS_1_1: u64 = PIXEL + SHIFT_SCALES + 4 * RANK;

const PS_1_2: u64 = PIXEL + SHIFT_SCALES + 5 * RANK;

const PS_1_3: u64 = PIXEL + SHIFT_SCALES + 6 * RANK;

const PS_1_4: u64 = PIXEL + SHIFT_SCALES + FURTHER_MODIFIERS + 7 * RANK;

fn row_of(version: Version) -> u64
    ensures { result ≡ row_number version }
{
    match version {
        Version::V2 => VS_2_0,
        Version::V3 => VS_3_0,
        Version::P2 => PS_2_0,
        Version::P3 => PS_3_0,
        Version::V1 => VS_1_1,
        Version::P11 => PS_1_1,
        Version::P12 => PS_1_2,
        Version::P13 => PS_1_3,
        Version::P14 => PS_1_4,
    }
}

// Whether a version's row raises the bit of a property.
fn raises<const PROPERTY: u64>(version: Version) -> bool
    requires { PROPERTY ≢ 0 }
    ensures { result ≡ eqb (row_number version / PROPERTY % 2) 1 }
{
    row_of(version) / PROPERTY % 2 == 1
}

pub fn is_pixel(version: Version) -> bool
    ensures { result ≡ is_pixel version }
{
    raises::<PIXEL>(version)
}

pub fn has_predicates(version: Version) -> bool
    ensures { result ≡ has_predicates version }
{
    raises::<PREDICATES>(version)
}

// Whether instructions state their size.
pub fn has_sizes(version: Version) -> bool
    ensures { result ≡ has_sizes version }
{
    raises::<SIZES>(version)
}

// Whether bits 27:24 of a destination are free.
pub fn has_shift_scale(version: Version) -> bool
    ensures { result ≡ has_shift_scale version }
{
    raises::<SHIFT_SCALES>(version)
}

// Whether sources have the modifiers 7 to A.
pub fn has_further(version: Version) -> bool
    ensures { result ≡ has_further version }
{
    raises::<FURTHER_MODIFIERS>(version)
}

// Whether a source's bit 13 may be one and brings no token.
pub fn marked_sources(version: Version) -> bool
    ensures { result ≡ marked_sources version }
{
    raises::<MARKED_SOURCES>(version)
}

pub fn relative_sources(version: Version) -> bool
    ensures { result ≡ relative_sources version }
{
    raises::<RELATIVE_SOURCES>(version)
}

pub fn relative_destinations(version: Version) -> bool
    ensures { result ≡ relative_destinations version }
{
    raises::<RELATIVE_DESTINATIONS>(version)
}

// Whether a relative token may be an address register.
fn has_addresses(version: Version) -> bool
    ensures { result ≡ (has version).addresses }
{
    raises::<ADDRESSES>(version)
}

pub fn declares_face(version: Version) -> bool
    ensures { result ≡ declares_face version }
{
    raises::<FACE>(version)
}

// Which bit of a row of the opcode table is the version's.
pub fn rank_of(version: Version) -> u32
    ensures { result ≡ rank version }
{
    (row_of(version) / RANK) as u32
}

pub fn type_of(token: u32) -> u32
    ensures is { result ≡ type_of token }
    ensures below { result < 32 }
{
    token / 0x1000_0000 % 8 + 8 * (token / 0x800 % 4)
}

// Whether a token's register type is one of a set.
#[tactic(auto, unfolding(crate::specs::Sets::holds))]
pub fn type_in(set: u32, token: u32) -> bool
    ensures { result ≡ holds set (type_of token) }
{
    let kind = type_of(token);
    (set >> kind) % 2 == 1
}

// Sets of register types: each raises its own bit.
const PIXEL_DESTINATIONS: u32 = 0b11_0000_0001;

const VERTEX_DESTINATIONS: u32 = 0b111_1001;

const PIXEL_SOURCES: u32 = 0b10_0011_1000_0000_1111;

const VERTEX_SOURCES: u32 = 0b11_1000_0000_0111;

// Register types.
const ADDRESS: u32 = 3;

const BOOLEAN: u32 = 14;

const COUNTER: u32 = 15;

const PREDICATE: u32 = 19;

// These two answer each with a pair of its own: a function of the pair would be the same `if` again.
pub fn free_destination_types(version: Version) -> u32
    ensures { result ≡ set_of (free_destination_types version) }
{
    if is_pixel(version) {
        PIXEL_DESTINATIONS
    } else {
        VERTEX_DESTINATIONS
    }
}

pub fn free_source_types(version: Version) -> u32
    ensures { result ≡ set_of (free_source_types version) }
{
    if is_pixel(version) {
        PIXEL_SOURCES
    } else {
        VERTEX_SOURCES
    }
}

// The form of U that DCL takes with a token's register type, if it takes one.
pub fn form_of(version: Version, token: u32) -> Option<Form>
    ensures { form_number result ≡ form_of version (type_of token) }
{
    let row = row_of(version);
    let kind = type_of(token);
    match ((row % PIXEL) >> (2 * kind)) % FORMS {
        0 => None,
        1 => Some(Form::Sampler),
        2 => Some(Form::Plain),
        _ => Some(Form::Usage),
    }
}

pub fn condition_typed(version: Version, token: u32) -> bool
    ensures { result ≡ among (type_of token) (condition_types version) }
{
    match type_of(token) {
        BOOLEAN => true,
        PREDICATE => has_predicates(version),
        _ => false,
    }
}

// "type 3 or 15 (P3: 15 only)"
pub fn relative_typed(version: Version, token: u32) -> bool
    ensures { result ≡ among (type_of token) (relative_types version) }
{
    match type_of(token) {
        COUNTER => true,
        ADDRESS => has_addresses(version),
        _ => false,
    }
}
