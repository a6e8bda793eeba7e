// Forgetting learned clauses, to have room for others and less to look at.
//
// It is done only with no decision set, so that no reason has to be kept. The clauses that had the
// most levels when they were learned go first, about half of them; those with one or two stay. The
// rest move down, and the occurrence lists are made anew. Forgetting takes no clause from the given
// ones and puts none to them, so the models stay the same.
ghost use Rattle.std.specs.Prelude.{◌≡◌, length};

use guidance::Occurrences;
use kernel::Arena;
use learning::Search;

// Scores are counted up to this one.
const SCORES: usize = 64;

// How many learned clauses have each score.
fn count_scores(arena: &Arena, lists: &Occurrences, given: usize) -> [u32; SCORES] {
    let mut counts = [0u32; SCORES];
    // a header may stand at any place
    for c in given..arena.end() {
        if arena.is_header(c) {
            let score = (lists.score(c) as usize).min(SCORES - 1);
            counts[score] = counts[score].saturating_add(1);
        }
    }
    counts
}

// The largest score to keep: that of the better half, at least 2. Where there was no room and that
// would free less than a quarter, all are to go.
fn score_limit(counts: &[u32; SCORES], full: bool) -> u32 {
    let all = counts
        .iter()
        .fold(0u32, |sum, count| sum.saturating_add(*count));
    let mut kept: u32 = 0;
    for (score, count) in counts.iter().enumerate() {
        let more = kept.saturating_add(*count);
        if score > 2 && more > all / 2 {
            return if full && kept > all - all / 4 {
                0
            } else {
                score as u32 - 1
            };
        }
        kept = more;
    }
    if full { 0 } else { 2 }
}

// Forgets the learned clauses whose score is over the limit, and gives how many are left. The first
// `given` words of the arena hold the given clauses.
fn compact(arena: &mut Arena, lists: &mut Occurrences, given: usize, limit: u32) -> u32
    ensures high { arena.new.high ≡ length arena.new.words }
    ensures clauses { arena.new.clauses ≡ arena.old.clauses }
    ensures variables { arena.new.variables ≡ arena.old.variables }
{
    let mut learned: u32 = 0;
    arena.retain(|from, to| {
        let score = lists.score(from);
        let is_given = from < given;
        let stays = is_given || score <= limit;
        if stays {
            lists.set_score(to, score);
        }
        if stays && !is_given {
            learned = learned.saturating_add(1);
        }
        stays
    });
    learned
}

// Forgets about half of the learned clauses.
pub(crate) fn reduce(search: &mut Search)
    ensures { search.new.trail ≡ search.old.trail }
{
    let given = search.guide.given;
    let counts = count_scores(&search.arena, &search.guide.lists, given);
    let limit = score_limit(&counts, search.guide.policy.is_full());
    let learned = compact(&mut search.arena, &mut search.guide.lists, given, limit);
    search.attach_all();
    search.guide.policy.note_reduction(learned);
}
