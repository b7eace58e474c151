// The places of operands, by their numbers. They are numbers and no enum: a row of places is one 64-bit number of a read-only table, whose
// digits the judge takes off, and each register type has two places, so that an enum would have some sixty variants.
#![tactic(auto)]

ghost use Rattle.std.specs.Prelude.{◌≡◌};
ghost use Rattle.paper.specs.Places.{is_raw as isRawPlace, is_destination as isDestinationPlace, is_predicate as isPredicatePlace};
ghost use Rattle.paper.specs.OperandTokens.{is_free as isFreePlace};
ghost use Rattle.places.specs.Places.{place_by, only_type};

pub const RAW: u64 = 1;

pub const USAGE: u64 = 2;

// A place of one type is that type and this.
pub const DESTINATION: u64 = 32;

pub const SOURCE: u64 = 64;

// The places with a name of their own are these and more in their lowest five bits: no register's type is, and no place of several types.
pub const NAMED: u32 = 28;

pub const DECLARED: u64 = 61;

pub const FREE_DESTINATION: u64 = 63;

pub const CONDITION: u64 = 92;

pub const PREDICATE: u64 = 93;

pub const RELATIVE: u64 = 94;

pub const FREE_SOURCE: u64 = 95;

// The places of several types: a destination of type 0 or 3, one of vs_1_1, MOV's there, DEF's where no size is stated; a source of vs_1_1,
// of ps_1_1 to ps_1_3, and of ps_1_4, TEX's and BEM's first there.
pub const WRITTEN_TEXTURE: u64 = 56;

pub const VERTEX_WRITTEN: u64 = 57;

pub const VERTEX_MOVED: u64 = 58;

pub const CONSTANT_WRITTEN: u64 = 59;

pub const VERTEX_READ: u64 = 87;

pub const EARLY_READ: u64 = 88;

pub const LATE_READ: u64 = 89;

pub const TEXTURE_READ: u64 = 90;

pub const BUMP_READ: u64 = 91;

// A row of places is a digit of this base for each, the first place lowest.
pub const BASE: u64 = 128;

// Whether a place's token is kept as it stands: R's, and U's, which is judged beside its destination.
#[tactic(auto, using(crate::proofs::PlaceKinds::raw_by))]
pub fn is_raw(place: u64) -> bool
    ensures { result ≡ isRawPlace (place_by place) }
{
    (place == RAW) | (place == USAGE)
}

#[tactic(auto, using(crate::proofs::PlaceKinds::destination_by))]
pub fn is_destination(place: u64) -> bool
    ensures { result ≡ isDestinationPlace (place_by place) }
{
    place / DESTINATION == 1
}

// Whether bit 13 of a place's token brings a relative one.
#[tactic(auto, using(crate::proofs::PlaceKinds::free_by))]
pub fn is_free(place: u64) -> bool
    ensures { result ≡ isFreePlace (place_by place) }
{
    (place == FREE_DESTINATION) | (place == FREE_SOURCE)
}

#[tactic(auto, using(crate::proofs::PlaceKinds::predicate_by))]
pub fn is_predicate(place: u64) -> bool
    ensures { result ≡ isPredicatePlace (place_by place) }
{
    place == PREDICATE
}

// The one type of a place of one type.
pub fn only_type(place: u64) -> u32
    ensures { result ≡ only_type place }
{
    (place % DESTINATION) as u32
}
