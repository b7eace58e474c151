// The check of a stream, by descent: document 01, "Blocks". A body calls item, an item calls block, a block calls body.
#![tactic(auto)]

ghost use Rattle.std.specs.Prelude.{◌≡◌, false, ◌+◌, ◌^◌, ◌<◌, ◌≤◌, length};
ghost use Rattle.paper.specs.Numbers.{told};
ghost use Rattle.paper.specs.Blocks.{may_stand, loops_in, closer_of};
ghost use Rattle.paper.specs.Stream.{walked, checked};
ghost use Rattle.stretches.specs.Stretch.{told_at};
ghost use Rattle.checker.specs.Ends.{around, place, StartsAt, BodyIs, ItemIs, BlockIs, tally_of, closed_at, ending};

use paper::{Class, Closer, Opener, Reason, Refusal, Single, Verdict, Version};

// "At most 24 blocks are open."
const MOST_OPEN: usize = 24;

// A place in a stream: a position, and the count of the instructions before it.
#[derive(Clone, Copy)]
struct Place {
    at: usize,
    count: usize,
}

// The blocks around an item: how many are open, and whether a LOOP or a REP is among them.
#[derive(Clone, Copy)]
struct Around {
    depth: usize,
    in_loop: bool,
}

impl Around {
    // Inside a block there.
    fn inside(self, opener: Opener) -> Around
        requires { self.depth + 1 < 2 ^ 64 }
        ensures { result ≡ around (self.depth + 1) (loops_in opener self.in_loop) }
    {
        Around {
            depth: self.depth + 1,
            in_loop: loops_in(opener, self.in_loop),
        }
    }
}

// Where a body stops: the closer, its place, and the position behind it.
#[derive(Clone, Copy)]
struct Stop {
    closer: Closer,
    place: Place,
    next: usize,
}

impl Stop {
    // Behind the closer of a block, which counts.
    fn behind(self) -> Place
        requires { self.place.count + 1 < 2 ^ 64 }
        ensures { result ≡ place self.next (self.place.count + 1) }
    {
        Place {
            at: self.next,
            count: self.place.count + 1,
        }
    }
}

// What is found at a place of a body: an item, which is passed up to the place behind it, or the closer, and the position behind it.
#[derive(Clone, Copy)]
enum Found {
    Item(Place),
    Closer(Closer, usize),
}

fn may_stand(single: Single, around: Around, phased: bool) -> bool
    ensures { result ≡ may_stand around.depth around.in_loop phased single }
{
    match single {
        Single::Comment | Single::Plain => true,
        Single::Break => around.in_loop,
        Single::Label | Single::Return => around.depth == 0,
        Single::Phase => around.depth == 0 && !phased,
    }
}

// What one instruction adds to the count: "comments and END not counted".
fn tally(single: Single) -> usize
    ensures { result ≡ tally_of single }
{
    if single == Single::Comment { 0 } else { 1 }
}

fn loops_in(opener: Opener, in_loop: bool) -> bool
    ensures { result ≡ loops_in opener in_loop }
{
    match opener {
        Opener::If => in_loop,
        Opener::Loop | Opener::Rep => true,
    }
}

// The closer that ends a block.
fn own_closer(opener: Opener) -> Closer
    ensures { result ≡ closer_of opener }
{
    match opener {
        Opener::If => Closer::EndIf,
        Opener::Loop => Closer::EndLoop,
        Opener::Rep => Closer::EndRep,
    }
}

// Behind a block whose last body stops here, which must be at the block's own closer.
fn close(opener: Opener, stop: Stop) -> Result<Place, Refusal>
    requires { stop.place.count + 1 < 2 ^ 64 }
    ensures { result ≡ closed_at opener stop }
{
    if stop.closer == own_closer(opener) {
        return Ok(stop.behind());
    }
    Err(Refusal::at(stop.place.at, Reason::Block))
}

// A row of items, up to the closer behind it. A plain instruction may stand anywhere, so that a stretch of them is passed in one call.
// Whether a PHASE has stood is marked as the row is passed; none stands in a block, so that no body is told of one that stood before
// it, and no answer tells of it. The version and the tokens stay two parameters, no struct, as the judge below takes them apart.
#[cycle(block_body_item)]
fn body(version: Version, tokens: &[u32], start: Place, around: Around) -> Result<Stop, Refusal>
    requires { StartsAt tokens.now around.depth start }
    ensures { BodyIs version tokens.now around false start result }
{
    let mut place = start;
    let mut phased = false;
    loop {
        let stretch = stretches::judge_stretch(version, tokens, place.at, tokens.len(), 0);
        let here = Place {
            at: stretch.at,
            count: place.count + stretch.count,
        };
        match item(version, tokens, here, around, phased, stretch.told)? {
            Found::Item(behind) => {
                place = behind;
                phased |= told::is_phase(stretch.told);
            }
            Found::Closer(closer, next) => {
                return Ok(Stop {
                    closer,
                    place: here,
                    next,
                });
            }
        }
    }
}

// One instruction, of which this is told, or a block that it opens.
#[cycle(block_body_item)]
fn item(
    version: Version,
    tokens: &[u32],
    place: Place,
    around: Around,
    phased: bool,
    told: u64,
) -> Result<Found, Refusal>
    requires { StartsAt tokens.now around.depth place × (told ≡ told_at version tokens.now 0 place.at) }
    ensures { ItemIs version tokens.now around phased place result }
{
    let instruction = match told::judged_of(told) {
        Ok(instruction) => instruction,
        Err(refusal) => {
            return Err(Refusal {
                position: place.at + refusal.position,
                ..refusal
            });
        }
    };
    let next = place.at + 1 + instruction.size;
    match instruction.class {
        Class::One(single) => {
            if may_stand(single, around, phased) {
                return Ok(Found::Item(Place {
                    at: next,
                    count: place.count + tally(single),
                }));
            }
            Err(Refusal::at(place.at, Reason::Block))
        }
        Class::Opens(opener) => {
            if around.depth < MOST_OPEN {
                let inside = Place {
                    at: next,
                    count: place.count + 1,
                };
                let behind = block(version, tokens, inside, around, opener)?;
                return Ok(Found::Item(behind));
            }
            Err(Refusal::at(place.at, Reason::Depth))
        }
        Class::Closes(closer) => Ok(Found::Closer(closer, next)),
    }
}

// A block behind its opener.
#[cycle(block_body_item)]
fn block(
    version: Version,
    tokens: &[u32],
    start: Place,
    around: Around,
    opener: Opener,
) -> Result<Place, Refusal>
    requires { StartsAt tokens.now (around.depth + 1) start }
    ensures { BlockIs version tokens.now around false start opener result }
{
    let first = body(version, tokens, start, around.inside(opener))?;
    if opener == Opener::If && first.closer == Closer::Else {
        // Worked out anew: kept over the first body, what is inside would take 16 bytes more of the stack for each open block.
        let second = body(version, tokens, first.behind(), around.inside(Opener::If))?;
        return close(opener, second);
    }
    close(opener, first)
}

// The verdict where the body of a stream has stopped: END, and nothing behind it.
fn finish(tokens: &[u32], stop: Stop) -> Verdict
    ensures { result ≡ ending (length tokens.now) stop }
{
    if stop.closer != Closer::End {
        return Err(Refusal::at(stop.place.at, Reason::Block));
    }
    if stop.next < tokens.len() {
        return Err(Refusal::at(stop.next, Reason::Tail));
    }
    Ok(stop.place.count)
}

// A stream from behind its version on: "a body and END".
fn check_behind(version: Version, tokens: &[u32]) -> Verdict
    requires { 1 ≤ length tokens.now }
    ensures { result ≡ walked version tokens.now }
{
    let start = Place { at: 1, count: 0 };
    let around = Around {
        depth: 0,
        in_loop: false,
    };
    let stop = body(version, tokens, start, around)?;
    finish(tokens, stop)
}

// The check of a stream, which may be any part of a slice: "LENGTH, VERSION, then instruction by instruction".
pub fn check(tokens: &[u32]) -> Verdict
    ensures { told result ≡ checked tokens.now }
{
    if !(paper::FEWEST_TOKENS..=paper::MOST_TOKENS).contains(&tokens.len()) {
        return Err(Refusal::at(0, Reason::Length));
    }
    let Some(version) = versions::version_of(tokens[0]) else {
        return Err(Refusal::at(0, Reason::Version));
    };
    check_behind(version, tokens)
}
