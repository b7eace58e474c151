// The edit: document 01, "The edit". The old stream is walked once, up to j, and the splice from i on; the buffer is changed
// only after a yes.
#![tactic(auto)]

ghost use Rattle.std.specs.Prelude.{◌≡◌, ◌≤◌, ◌<◌, length};
ghost use Rattle.paper.specs.Stream.{most_tokens};
ghost use Rattle.edit.specs.Edit.{splice, new_length, spliced, edited, edited_in, buffer_after, told_edit};
ghost use Rattle.walk.specs.Stands.{Stands, step_at};
ghost use Rattle.editor.specs.Found.{FoundAt, Between, InSplice};
ghost use Rattle.editor.specs.Answers.{after_place, after_version};

use edit::{Edited, Outcome};
use paper::{Reason, Refusal, Version};
use walk::{Pace, State, Step};

// The walk from `from` on, up to `target`: how it stands there, if it comes there.
fn walk_to(version: Version, tokens: &[u32], from: State, target: usize) -> Option<State>
    requires { Stands version tokens.now from × (from.at ≤ target) × (target < length tokens.now) }
    ensures { FoundAt version tokens.now target result }
{
    let mut step = Step {
        answer: Ok(Pace::On),
        state: from,
    };
    while walk::goes_on(step, target) {
        let state = step.state;
        step = walk::pass(version, state, tokens, state.at, target, 0);
    }
    let there = walk::goes_on(step, target + 1);
    there.then_some(step.state)
}

// The step at `state` of the splice, at i or behind. Only an instruction of the run that may take old tokens is gathered into a
// window: of its tokens all but those past the sixteenth. The parameters are the paper's; a struct of them would serve this function alone.
fn step_spliced(
    version: Version,
    old: &[u32],
    i: usize,
    j: usize,
    run: &[u32],
    state: State,
) -> Step
    requires { InSplice old.now i j run.now state.at }
    ensures { result ≡ step_at version (splice old.now i j run.now) state }
{
    let at = state.at - i;
    if run.len() <= at {
        return walk::pass(version, state, old, j + (at - run.len()), 0, 0);
    }
    let own = run.len() - at;
    let rest = old.len() - j;
    if walk::MOST_SHOWN <= own {
        return walk::pass(version, state, run, at, 0, rest);
    }
    let more = rest.min(walk::MOST_SHOWN - own);
    let shown = own + more;
    let mut window = [0u32; walk::MOST_SHOWN];
    window[..own].copy_from_slice(&run[at..]);
    window[own..shown].copy_from_slice(&old[j..j + more]);
    walk::pass(version, state, &window[..shown], 0, 0, rest - more)
}

// The walk of the splice from i on, where the old stream stands as `first`. At the run's end with the blocks and the mark of a PHASE
// of `last`, where it stands at j, it is JOINED, and nothing more is read.
fn walk_spliced(version: Version, old: &[u32], first: State, last: State, run: &[u32]) -> Outcome
    requires { Between version old.now first last × (length old.now ≤ most_tokens) × (new_length (length old.now) first.at last.at (length run.now) ≤ most_tokens) }
    ensures { result ≡ spliced version old.now first.at last.at run.now }
{
    let i = first.at;
    let j = last.at;
    let end = i + run.len();
    let length = end + (old.len() - j);
    let mut step = Step {
        answer: Ok(Pace::On),
        state: first,
    };
    while walk::goes_on(step, length) {
        let state = step.state;
        if state.at == end && state.kinds == last.kinds && state.phased == last.phased {
            return Ok(Edited::Joined(length));
        }
        step = step_spliced(version, old, i, j, run, state);
    }
    walk::verdict_of(step, length)?;
    Ok(Edited::Accepted(length))
}

// "ROOM (new length n - (j - i) + m against buffer and 16,384)". The sum is made only where it fits.
fn edit_placed(
    version: Version,
    old: &[u32],
    room: usize,
    first: State,
    last: State,
    run: &[u32],
) -> Outcome
    requires { Between version old.now first last × (length old.now ≤ most_tokens) }
    ensures { result ≡ after_place version room old.now first.at last.at run.now }
{
    let kept = old.len() - (last.at - first.at);
    if paper::MOST_TOKENS - kept < run.len() || room < kept + run.len() {
        return Err(Refusal::at(0, Reason::Room));
    }
    walk_spliced(version, old, first, last, run)
}

// "PLACE (i and j boundaries, i at most j)".
fn edit_known(
    version: Version,
    old: &[u32],
    room: usize,
    i: usize,
    j: usize,
    run: &[u32],
) -> Outcome
    requires { (2 ≤ length old.now) × (length old.now ≤ most_tokens) }
    ensures { result ≡ after_version version room old.now i j run.now }
{
    let misplaced = Refusal::at(0, Reason::Place);
    if i < 1 || j < i || old.len() <= j {
        return Err(misplaced);
    }
    let first = walk_to(version, old, walk::start(), i).ok_or(misplaced)?;
    let last = walk_to(version, old, first, j).ok_or(misplaced)?;
    edit_placed(version, old, room, first, last, run)
}

// "Order: LENGTH, VERSION, PLACE .., ROOM ..": the edit of a stream, in a buffer with so much room.
fn edit_stream(old: &[u32], room: usize, i: usize, j: usize, run: &[u32]) -> Outcome
    ensures { result ≡ edited room old.now i j run.now }
{
    if old.len() < paper::FEWEST_TOKENS || paper::MOST_TOKENS < old.len() {
        return Err(Refusal::at(0, Reason::Length));
    }
    let version = versions::version_of(old[0]).ok_or(Refusal::at(0, Reason::Version))?;
    edit_known(version, old, room, i, j, run)
}

// The tokens from `i` to `j` of the buffer's first `n` are replaced by the run, if the splice is good.
pub fn edit(buffer: &mut [u32], n: usize, i: usize, j: usize, run: &[u32]) -> Outcome
    ensures told { told_edit result ≡ told_edit (edited_in buffer.old n i j run.now) }
    ensures held { buffer.new ≡ buffer_after buffer.old n i j run.now }
{
    let room = buffer.len();
    if room < n {
        return Err(Refusal::at(0, Reason::Length));
    }
    let edited = edit_stream(&buffer[..n], room, i, j, run)?;
    splicer::splice_in(buffer, n, i, j, run);
    Ok(edited)
}
