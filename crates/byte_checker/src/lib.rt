// The check of a byte range: document 01, "What the build does".
#![tactic(auto)]

ghost use Rattle.std.specs.Prelude.{◌≡◌, ◌+◌, ◌-◌, ◌/◌, ◌<◌, ◌≤◌, ◌++◌, min, length, take, drop};
ghost use Rattle.std.specs.Int.{w32, from_le_bytes};
ghost use Rattle.std.proofs.lemmas.List.Edits.{sets};
ghost use Rattle.paper.specs.Numbers.{told};
ghost use Rattle.paper.specs.Stream.{length_laid, walked};
ghost use Rattle.walk.specs.Stands.{Stands, Comes};
ghost use Rattle.byte_checker.specs.Bytes.{tokens_in, tokens_of, bytes_verdict};

use paper::{Reason, Refusal, Verdict, Version};
use walk::{Pace, State, Step};

// So many tokens are read at once.
const WINDOW: usize = 192;

// A token by its four bytes, the lowest first.
fn token_of(bytes: [u8; 4]) -> u32
    ensures { result ≡ from_le_bytes w32 bytes }
{
    u32::from_le_bytes(bytes)
}

// The tokens, each given by its four bytes, at the front of a buffer, all or as many as it has room for, and how many they are.
fn read(tokens: &[[u8; 4]], room: &mut [u32]) -> usize
    ensures count { result ≡ min (length tokens.now) (length room.old) }
    ensures held { room.new ≡ take result (tokens_of tokens.now) ++ drop result room.old }
{
    let n = tokens.len().min(room.len());
    for (place, token) in room[..n].iter_mut().enumerate() {
        *token = token_of(tokens[place]);
    }
    n
}

// The tokens of a byte range at the front of a buffer, all or as many as it has room for, and how many they are.
pub fn decode(bytes: &[u8], room: &mut [u32]) -> usize
    ensures count { result ≡ min (length bytes.now / 4) (length room.old) }
    ensures held { room.new ≡ sets room.old 0 (take (min (length bytes.now / 4) (length room.old)) (tokens_in bytes.now)) }
    ensures fits { result ≤ length room.new }
{
    read(bytes.as_chunks::<4>().0, room)
}

// The walk from `from` on over the part of a stream that a window holds from there on, as long as the next instruction has all its
// tokens in it, or the stream's last. What a comment claims is skipped, and need not be in it.
fn walk_part(version: Version, tokens: &[[u8; 4]], part: &[u32], from: State) -> Step
    requires stands { Stands version (tokens_of tokens.now) from }
    requires begins { from.at < length tokens.now }
    requires size { length part.now ≡ min 192 (length tokens.now - from.at) }
    requires held { part.now ≡ take (length part.now) (drop from.at (tokens_of tokens.now)) }
    ensures { Comes version (tokens_of tokens.now) (from.at + 1) result }
{
    let beyond = tokens.len() - from.at - part.len();
    let stop = if beyond == 0 {
        part.len()
    } else {
        part.len() - walk::MOST_CLAIMED
    };
    let mut step = Step {
        answer: Ok(Pace::On),
        state: from,
    };
    while walk::goes_on(step, from.at + stop) {
        let state = step.state;
        let at = state.at - from.at;
        // Not one call of `walk::pass`, which is too long to be put in place: 43.3 instructions a token, where this takes 39.6.
        let stretch = stretches::judge_stretch(version, part, at, stop, beyond);
        step = walk::step_over(state, stretch.at - at, stretch.count, stretch.told);
    }
    step
}

// The walk of a stream, from behind its version on: a window is filled with a part of it, and filled again where that ends.
fn walk_bytes(version: Version, tokens: &[[u8; 4]]) -> Verdict
    requires { 0 < length tokens.now }
    ensures { result ≡ walked version (tokens_of tokens.now) }
{
    let mut window = [0; WINDOW];
    let mut step = Step {
        answer: Ok(Pace::On),
        state: walk::start(),
    };
    while walk::goes_on(step, tokens.len()) {
        let held = read(&tokens[step.state.at..], &mut window);
        step = walk_part(version, tokens, &window[..held], step.state);
    }
    walk::verdict_of(step, tokens.len())
}

// Whether a stream may have so many tokens.
fn is_laid(tokens: usize) -> bool
    ensures { result ≡ length_laid tokens }
{
    (paper::FEWEST_TOKENS..=paper::MOST_TOKENS).contains(&tokens)
}

// The loader "hands the check a byte range, tokens little-endian".
pub fn check_bytes(bytes: &[u8]) -> Verdict
    ensures { told result ≡ told (bytes_verdict bytes.now) }
{
    let tokens = bytes.as_chunks::<4>().0;
    if bytes.len() % 4 != 0 || !is_laid(tokens.len()) {
        return Err(Refusal::at(0, Reason::Length));
    }
    let Some(version) = versions::version_of(token_of(tokens[0])) else {
        return Err(Refusal::at(0, Reason::Version));
    };
    walk_bytes(version, tokens)
}
