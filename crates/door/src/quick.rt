// Instructions whose first token is exactly the one of their opcode's row: no predicate, no controls, no relative operand. A few tests of each token
// tell that they are good; of any other nothing is told here.
ghost use Rattle.std.specs.Prelude.{◌≡◌, true, [], ◌∷◌, ℕ, ◌+◌, ◌<◌, ◌≤◌, length, slice_index, EachIndex, IfSome};
ghost use Rattle.paper.specs.Places.{only, destination, source, free_destination, free_source};
ghost use Rattle.paper.specs.declared.Version.{Version};
ghost use Rattle.versions.specs.Sets.{holds};
ghost use Rattle.told.specs.Numbered.{judged_number};
ghost use Rattle.instruction.specs.Shown.{judged_in};
ghost use Rattle.door.specs.Quick.{spot_of, most_results, read_laid, written_laid, free_read, free_written, Stands, TellsRow};
ghost use Rattle.exact.specs.Exact.{Known};

use crate::PLAIN;
use exact::Kind;
use paper::Version;

// The modifiers that most sources have, each as often as the bit above them has values.
const MODIFIERS: u32 = 0b1_1000_0111_1111_0001_1000_0111_1111;

// No exact row has more operands.
const MOST_OPERANDS: usize = 5;

// Sets of register types, by the spots of tokens that have them.
const PIXEL_WRITTEN: u64 = 0x300_0100;

const VERTEX_WRITTEN: u64 = 0x7900;

const PIXEL_READ: u64 = 0x200_3800_0F00;

const VERTEX_READ: u64 = 0x3800_0700;

// Bits 31:28 of a token, and above them bits 12:11: its register type, and that bit 31 is one.
fn spot_of(token: u32) -> u32
    ensures { (result ≡ spot_of token) × (result < 64) }
{
    token / 0x1000_0000 + 16 * (token / 0x800 % 4)
}

// Whether a token's spot is one of a set.
#[tactic(auto, unfolding(versions::specs::Sets::holds))]
fn held(set: u64, token: u32) -> bool
    ensures { result ≡ holds set (spot_of token) }
{
    (set >> spot_of(token)) % 2 == 1
}

// An early return: with && the check of real mix takes 25.0 instructions a token for 24.1.
#[tactic(auto, unfolding(crate::specs::Quick::read_laid, versions::specs::Sets::holds))]
fn read_laid(token: u32) -> bool
    ensures { result ≡ read_laid token }
{
    if token / 0x2000 % 8 != 0 {
        return false;
    }
    (MODIFIERS >> (token / 0x100_0000 % 32)) % 2 == 1
}

// The greatest number that bits 27:21 of a destination may be, where bit 23 is zero.
fn most_results(version: Version) -> u32
    ensures { result ≡ most_results version }
{
    if versions::is_pixel(version) { 3 } else { 0 }
}

#[tactic(auto, unfolding(crate::specs::Quick::written_laid))]
fn written_laid(version: Version, token: u32) -> bool
    ensures { result ≡ written_laid version token }
{
    token / 0x2000 % 8 == 0
        && token / 0x80_0000 % 2 == 0
        && token / 0x20_0000 % 128 <= most_results(version)
}

// Whether a token is good at a free place.
#[tactic(auto, using(crate::proofs::Quickly::free_read_lem), unfolding(crate::specs::Quick::free_read))]
fn free_read(version: Version, token: u32) -> bool
    ensures is { result ≡ free_read version token }
    ensures stands { result ≡ true → Stands version free_source token }
{
    let types = if versions::is_pixel(version) {
        PIXEL_READ
    } else {
        VERTEX_READ
    };
    read_laid(token) && held(types, token)
}

#[tactic(auto, using(crate::proofs::Quickly::free_written_lem), unfolding(crate::specs::Quick::free_written))]
fn free_written(version: Version, token: u32) -> bool
    ensures is { result ≡ free_written version token }
    ensures stands { result ≡ true → Stands version free_destination token }
{
    let types = if versions::is_pixel(version) {
        PIXEL_WRITTEN
    } else {
        VERTEX_WRITTEN
    };
    written_laid(version, token) && held(types, token)
}

// The same at a place of one type.
#[tactic(auto, using(crate::proofs::Quickly::one_read))]
fn one_read(place: u64, token: u32) -> bool
    ensures { result ≡ true → (version : Version) → (type : ℕ) → place ≡ type + 64 → Stands version (source (only (type ∷ []))) token }
{
    read_laid(token)
        && token / 0x8000_0000 == 1
        && versions::type_of(token) as u64 + places::SOURCE == place
}

#[tactic(auto, using(crate::proofs::Quickly::one_written))]
fn one_written(version: Version, place: u64, token: u32) -> bool
    ensures { result ≡ true → (type : ℕ) → place ≡ type + 32 → Stands version (destination (only (type ∷ []))) token }
{
    written_laid(version, token)
        && token / 0x8000_0000 == 1
        && versions::type_of(token) as u64 + places::DESTINATION == place
}

// Whether a destination and the sources behind it are good at free places.
fn fit(version: Version, written: u32, read: &[u32]) -> bool
    ensures { result ≡ true → Stands version free_destination written × EachIndex read.now (λ k. Stands version free_source (slice_index read.now k)) }
{
    free_written(version, written) && read.iter().all(|token| free_read(version, *token))
}

// What is told of the operands behind a first token that is the one of a row.
fn tell_operands(version: Version, row: u64, behind: &[u32]) -> Option<u64>
    requires { (5 ≤ length behind.now) × Known row }
    ensures { IfSome result (TellsRow version row behind.now) }
{
    let place = exact::first_in(row);
    match exact::kind_in(row) {
        Kind::Empty => Some(told::yes(0, exact::class_in(row))),
        Kind::Ds => fit(version, behind[0], &behind[1..2]).then_some(told::yes(2, PLAIN)),
        Kind::Dss => fit(version, behind[0], &behind[1..3]).then_some(told::yes(3, PLAIN)),
        Kind::Dsss => fit(version, behind[0], &behind[1..4]).then_some(told::yes(4, PLAIN)),
        Kind::Sampled => {
            let good = fit(version, behind[0], &behind[1..2])
                && one_read(exact::SAMPLER, behind[2]);
            good.then_some(told::yes(3, PLAIN))
        }
        Kind::Source => one_read(place, behind[0]).then_some(told::yes(1, exact::class_in(row))),
        Kind::Constant => one_written(version, place, behind[0]).then_some(told::yes(
            exact::size_in(row),
            PLAIN,
        )),
        Kind::Other(_) => None,
    }
}

// What is told of the instruction whose first token this is, if it is such a one.
pub(crate) fn tell(version: Version, first: u32, behind: &[u32]) -> Option<u64>
    ensures { IfSome result (λ told. (left : ℕ) → told ≡ judged_number (judged_in version first behind.now left)) }
{
    if behind.len() < MOST_OPERANDS {
        return None;
    }
    if !versions::has_sizes(version) {
        return None;
    }
    let row = exact::row_in(version, instruction_token::opcode_of(first))?;
    if exact::upper_in(row) != first / 0x1_0000 {
        return None;
    }
    tell_operands(version, row, behind)
}
